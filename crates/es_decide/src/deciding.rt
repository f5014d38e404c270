//! The decision over halves.
ghost use Rattle.std.specs.Prelude.{◌≡◌, IfOk};
ghost use Rattle.es_decide.specs.Decisions.{runs_as, granted, granted_cluster, permitted};

use crate::acting::{acting_halves, own_halves};
use crate::kinds::Halves;
use es_base::NoMemory;
use es_compose::Permission;
use es_keys::{Subject, Target, acting};
use es_priv::{Action, ClusterAction};
use std::alloc::Global;

/// Whether the caller may act as it asks to: as itself always; as another user where a pattern of its first half fits
/// that user's name, and one of its limit where there is one; as an unknown user never. It takes no memory.
#[tactic(auto, unfolding(crate::specs::Decisions::runs_as))]
pub fn run_as(subject: &Subject, halves: &Halves) -> bool
    ensures { result ≡ runs_as subject.now halves.now }
{
    match &subject.target {
        Target::Own => true,
        Target::As(user) => own_halves(halves).runs_as(user.get().person.username.text()),
        Target::Unknown => false,
    }
}

/// Whether the action on the index is granted: each half that decides grants it. To one who asks to act as an unknown
/// user nothing is granted. Whether it may act as it asks to is `run_as`. It takes no memory.
#[tactic(auto, unfolding(crate::specs::Decisions::granted))]
pub fn decide(subject: &Subject, halves: &Halves, action: Action, index: &str) -> bool
    ensures { result ≡ granted subject.now halves.now action index.now }
{
    acting_halves(&subject.target, halves).grants(action, index)
}

/// Whether the action on the cluster is granted: each half that decides grants it. To one who asks to act as an unknown
/// user nothing is granted. It takes no memory.
#[tactic(auto, unfolding(crate::specs::Decisions::granted_cluster))]
pub fn decide_cluster(subject: &Subject, halves: &Halves, action: ClusterAction) -> bool
    ensures { result ≡ granted_cluster subject.now halves.now action }
{
    acting_halves(&subject.target, halves).grants_cluster(action)
}

/// What is permitted for the action on the index: what each half that decides permits the person who acts. Templates
/// are filled for that person.
#[tactic(auto, unfolding(crate::specs::Decisions::permitted))]
pub fn permit(
    alloc: Global,
    subject: &Subject,
    halves: &Halves,
    action: Action,
    index: &str,
) -> Result<Permission, NoMemory>
    ensures { IfOk result (λ permission. permission ≡ permitted subject.now halves.now action index.now) }
{
    acting_halves(&subject.target, halves).permission(alloc, acting(subject), action, index)
}
