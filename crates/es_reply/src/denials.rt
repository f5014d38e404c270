//! Refusals of actions that the subject isn't granted.
ghost use Rattle.std.specs.Prelude.{◌≡◌, ℕ, List, map, IfOk};
ghost use Rattle.es_priv.specs.Names.{index_name_of, cluster_name_of};
ghost use Rattle.es_tree.specs.Text.{with_commas};
ghost use Rattle.es_reply.specs.Bodies.{denied, denied_cluster, denied_run_as, index_denial, cluster_denial};

use es_base::{NoMemory, Str};
use es_priv::{
    Action, ClusterAction, ClusterPrivilege, IndexPrivilege, action_name, cluster_action_name,
    cluster_name, granting, granting_cluster, index_name,
};
use es_response::{Reply, error};
use std::alloc::Global;

/// The reply to an action on an index that the subject isn't granted, with the privileges that grant it.
pub fn denied(alloc: Global, subject: &str, action: Action, index: &str) -> Result<Reply, NoMemory>
    ensures { IfOk result (λ reply. reply ≡ denied subject.now action index.now) }
{
    let privileges = names_of(alloc, granting(action))?;
    let reason = index_denial(
        alloc,
        subject,
        action_name(action),
        index,
        privileges.text(),
    )?;
    error(alloc, 403, "security_exception", reason.text())
}

/// The reply to an action on the cluster that the subject isn't granted, with the privileges that grant it.
pub fn denied_cluster(
    alloc: Global,
    subject: &str,
    action: ClusterAction,
) -> Result<Reply, NoMemory>
    ensures { IfOk result (λ reply. reply ≡ denied_cluster subject.now action) }
{
    let privileges = names_of(alloc, granting_cluster(action))?;
    let reason = cluster_denial(
        alloc,
        subject,
        cluster_action_name(action),
        privileges.text(),
    )?;
    error(alloc, 403, "security_exception", reason.text())
}

/// The reply where the subject isn't permitted to run as the target: 403 `security_exception`.
pub fn denied_run_as(alloc: Global, subject: &str, target: &str) -> Result<Reply, NoMemory>
    ensures { IfOk result (λ reply. reply ≡ denied_run_as subject.now target.now) }
{
    let reason = format!(in alloc; "{subject} is not permitted to run as [{target}]")?;
    error(alloc, 403, "security_exception", reason.as_str())
}

/// Why a subject is denied an action on an index, with the names of the privileges that grant it.
#[tactic(auto, unfolding(crate::specs::Bodies::index_denial))]
fn index_denial(
    alloc: Global,
    subject: &str,
    action: &str,
    index: &str,
    privileges: &str,
) -> Result<Str, NoMemory>
    ensures { IfOk result (λ reason. reason ≡ index_denial subject.now action.now index.now privileges.now) }
{
    Ok(Str::from_string(format!(in alloc;
        "action [{action}] on index [{index}] is unauthorized for {subject}, this action is granted by the index privileges [{privileges}]"
    )?))
}

/// Why a subject is denied an action on the cluster, with the names of the privileges that grant it.
#[tactic(auto, unfolding(crate::specs::Bodies::cluster_denial))]
fn cluster_denial(
    alloc: Global,
    subject: &str,
    action: &str,
    privileges: &str,
) -> Result<Str, NoMemory>
    ensures { IfOk result (λ reason. reason ≡ cluster_denial subject.now action.now privileges.now) }
{
    Ok(Str::from_string(format!(in alloc;
        "action [{action}] is unauthorized for {subject}, this action is granted by the cluster privileges [{privileges}]"
    )?))
}

/// What has a name of its own.
trait Named {
    ghost name_of: { Self → List ℕ };

    fn name(&self) -> &'static str
        ensures { result.now ≡ name_of self.now };
}

impl Named for IndexPrivilege {
    ghost name_of = { index_name_of };

    fn name(&self) -> &'static str {
        index_name(*self)
    }
}

impl Named for ClusterPrivilege {
    ghost name_of = { cluster_name_of };

    fn name(&self) -> &'static str {
        cluster_name(*self)
    }
}

/// The names, with a comma between each two.
fn names_of<P: Named>(alloc: Global, privileges: &[P]) -> Result<Str, NoMemory>
    ensures { IfOk result (λ names. names ≡ with_commas (map P.name_of privileges.now)) }
{
    let [first, others @ ..] = privileges else {
        return Ok(Str::empty(alloc));
    };
    let mut names = Str::of(alloc, first.name())?;
    for privilege in others {
        names.push(',')?;
        names.push_str(privilege.name())?;
    }
    Ok(names)
}
