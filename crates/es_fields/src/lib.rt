//! What a rule over fields leaves of documents and of mappings.
#![tactic(auto)]

mod lawful;
mod mapping;
mod projecting;
mod trail;

pub use lawful::laws;
pub use mapping::project_mapping;
pub use projecting::project;
