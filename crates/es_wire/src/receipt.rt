//! What is kept of each answered request, and why a connection ended.
use es_base::Seq;
use es_edge::Draw;

/// The place, the moment, the change and the draw of a response.
#[derive(Clone, Copy, Debug, PartialEq, Eq)]
pub struct Receipt {
    /// The length of the journal that the reply has seen; of an accepted change, its own entry's number.
    pub place: u64,
    /// Milliseconds since 1970, at most 4,000,000,000,000,000.
    pub moment: u64,
    /// Whether the request was an accepted change.
    pub changed: bool,
    /// What was drawn for the request; `NotDrawn` where it draws nothing.
    pub draw: Draw,
}

/// Receipts in the order of the requests.
pub type Receipts = Seq<Receipt>;

/// Why a connection ended.
#[derive(Clone, Copy, Debug, PartialEq, Eq)]
pub enum LinkEnd {
    /// The source ended between requests, or the last request asked for the close.
    Done,
    /// The source ended inside a request.
    Truncated,
    /// The bytes can't become a request that is taken; the fixed 400 was written.
    BadHead,
    /// The source failed.
    ReadFault,
    /// The sink failed. It wins over the other ends.
    WriteFault,
    /// 1,000,000 requests were answered.
    Spent,
    /// Memory was refused; the fixed 503 was written.
    NoMemory,
}
