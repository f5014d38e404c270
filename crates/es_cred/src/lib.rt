//! Credentials of requests, digests of secrets, names, and records of users.
#![tactic(auto)]

mod credentials;
mod hashing;
mod naming;
mod users;

pub use credentials::{Credentials, Scheme};
pub use hashing::{Hash32, digest, same};
pub use naming::{ROLE, USER, in_order, is_name, is_secret};
pub use users::UserRecord;
