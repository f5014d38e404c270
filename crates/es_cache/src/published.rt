//! What comes of an entry that a loader publishes.

/// Whether an entry was taken.
#[derive(Clone, Copy, Debug, PartialEq, Eq)]
pub enum Published {
    /// It is the first entry now.
    Put,
    /// Something was invalidated since its loader began, and the cache stays as it is.
    Stale {
        /// The count at which the loader began.
        began: u64,
        /// The count that stands.
        stands: u64,
    },
}
