//! The vault: the one list of accepted changes by the world for which it stands, and the cache of composed roles.
#![tactic(auto)]

mod changes;
pub mod changing;
mod creating;
pub mod decision;
pub mod half;
mod judging;
pub mod look;
pub mod names;
mod security;
pub mod stop;
pub mod vault;
mod verdict;

pub use changing::ChangeAnswer;
pub use creating::owner_of;
pub use decision::{allowed, asked_target};
pub use es_cache::Published;
pub use half::Half;
pub use look::{Look, Snapshot};
pub use names::HalfKeys;
pub use stop::Stop;
pub use vault::{Limits, Vault};
