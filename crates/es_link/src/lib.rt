//! Links and listeners: connections as values, with forms in memory and over TCP.
#![tactic(auto)]

mod link;
mod listener;
mod memory;
mod tcp;
#[cfg(test)]
mod tests;

pub use link::Link;
pub use listener::{Accepted, Bound, Listener};
pub use memory::{Links, MemLink, MemListener};
pub use tcp::{TcpLink, TcpListener};
