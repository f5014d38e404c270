//! Records of API keys, the subjects of requests, and what the decisions on them are made of.
#![tactic(auto)]

mod keys;
pub mod kinds;
mod lawful;
mod printing;
mod subjects;
mod telling;
mod texts;

pub use keys::{encoded, expired, id_of, make, secret_of, verify};
pub use kinds::{Caller, KeyRecord, NamedDescriptors, NamedPart, NewKey, RoleKey, Subject, Target};
pub use lawful::laws;
pub use printing::key_text;
pub use subjects::{acting, halves};
pub use telling::{caller_text, subject_text};
