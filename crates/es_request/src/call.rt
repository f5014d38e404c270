//! A request with everything by which it is answered.
use crate::request::Request;
use es_base::Str;
use es_cred::Credentials;
use es_edge::Draw;

/// A request, who sends it, and what it is given from outside.
#[derive(Drop)]
pub struct Call {
    pub request: Request,
    pub credentials: Credentials,
    /// The name of the user for whom the caller acts.
    pub run_as: Option<Str>,
    /// The place that the caller has seen, and 0 where it names none.
    pub seen: u64,
    /// Milliseconds since 1970, at most 4,000,000,000,000,000.
    pub moment: u64,
    /// What was drawn for it.
    pub draw: Draw,
    /// What its entry weighs: the length of its body in bytes and 512 more.
    pub weight: u64,
}
