//! Requests from the bytes of a connection, and bytes from replies: a profile of HTTP/1.1 (RFC 9112).
#![tactic(auto)]

mod conn;
mod fields;
mod framing;
mod look;
mod receipt;
pub mod reply;
mod request;
mod sending;
#[cfg(test)]
mod tests;

pub use conn::{Conn, Next};
pub use es_edge::{Draw, Sent};
pub use framing::{Framing, decimal_of};
pub use receipt::{LinkEnd, Receipt, Receipts};
pub use reply::Reply;
pub use request::{Once, RawRequest};
pub use sending::send;
