//! Replies.
pub use es_response::{Reply, error, fixed};
