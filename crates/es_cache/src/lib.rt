//! A cache whose entries are published only where nothing was invalidated since their loader began.
#![tactic(auto)]

mod counted;
mod published;
mod sharing;
#[cfg(test)]
mod tests;

pub use counted::{Counted, Keys};
pub use es_base::{NoMemory, Seq};
pub use published::Published;
pub use sharing::Share;
