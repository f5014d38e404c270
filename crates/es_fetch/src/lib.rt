//! What may be seen of indices: permitted documents, granted fields.
#![tactic(auto)]

mod fetching;
mod lawful;
mod permitting;
pub mod shown;

pub use fetching::{get, mapping};
pub use lawful::laws;
pub use permitting::permits;
pub use shown::Shown;
