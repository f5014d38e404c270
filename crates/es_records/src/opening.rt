//! The user and the role of a new node.
ghost use Rattle.std.specs.Prelude.{◌≡◌, IfOk, codes, [], ◌∷◌};
ghost use Rattle.es_records.specs.Records.{opening_user, opening_role};

use es_base::{NoMemory, Seq, Str};
use es_cred::{ROLE, USER, UserRecord, digest};
use es_glob::{Pattern, PatternFault, PatternSet};
use es_priv::{ClusterPrivilege, IndexPrivilege};
use es_role::{Descriptor, IndexGroup};
use es_tree::{Members, Person, Tree};
use std::alloc::Global;

/// The user, with this secret.
pub fn opening_user(alloc: Global, secret: &str) -> Result<UserRecord, NoMemory>
    ensures { IfOk result (λ user. user ≡ opening_user secret.now) }
{
    let mut roles = Seq::empty(alloc);
    roles.push(Str::of(alloc, ROLE)?)?;
    let person = Person {
        username: Str::of(alloc, USER)?,
        full_name: None,
        email: None,
        roles,
        metadata: Tree::Object(Members::empty(alloc)),
    };
    let digest = digest(USER, secret);
    Ok(UserRecord { person, digest })
}

// The pattern that everything fits, in a set of its own.
fn everything(alloc: Global) -> Result<PatternSet, NoMemory>
    ensures { IfOk result (λ patterns. patterns ≡ codes "*" ∷ []) }
{
    match Pattern::read(alloc, "*") {
        Ok(pattern) => {
            let mut patterns = Seq::empty(alloc);
            patterns.push(pattern)?;
            Ok(PatternSet::of(patterns))
        }
        Err(PatternFault::NoMemory) => Err(NoMemory),
        Err(PatternFault::BadPattern) => unreachable!(),
    }
}

/// Its role: all on the cluster and on every index, for every user.
pub fn opening_role(alloc: Global) -> Result<Descriptor, NoMemory>
    ensures { IfOk result (λ descriptor. descriptor ≡ opening_role) }
{
    let mut cluster = Seq::empty(alloc);
    cluster.push(ClusterPrivilege::All)?;
    let mut privileges = Seq::empty(alloc);
    privileges.push(IndexPrivilege::All)?;
    let mut indices = Seq::empty(alloc);
    indices.push(IndexGroup {
        names: everything(alloc)?,
        privileges,
        fields: None,
        query: None,
    })?;
    Ok(Descriptor {
        cluster,
        indices,
        run_as: everything(alloc)?,
        metadata: Tree::Object(Members::empty(alloc)),
    })
}
