//! Where the work on a call is.
use crate::due::Due;
use es_decide::Halves;
use es_reply::Reply;
use es_vault::{HalfKeys, Snapshot};

/// Where the work on a call is.
#[derive(Drop)]
pub enum Work {
    /// No step was made.
    Begun,
    /// A look missed: the composed roles of these names are to be made.
    Missed(Snapshot, HalfKeys),
    /// The halves of who asks are at hand, and these composed roles are still to be published.
    Looked(Snapshot, Halves, Due),
    /// A change is granted, and to be made.
    Changing(Snapshot, Halves),
    /// Nobody known asks, at this place.
    Unknown(u64),
    /// The place, whether a change was accepted, and the reply, unless it is the one that the request has.
    Ended(u64, bool, Option<Reply>),
}
