//! The outside as traits: bytes that come in, bytes that go out, the moment and what is drawn by chance, with forms in memory and adapters over std.
#![tactic(auto)]

mod chance;
mod clock;
mod device;
mod memory;
mod real;
mod sending;
#[cfg(test)]
mod tests;
mod traits;

pub use chance::{Chance, Draw, Draws, ListedChance};
pub use clock::FixedClock;
pub use device::{ReaderChance, random_device};
pub use es_base::NoMemory;
use es_base::Seq;
pub use memory::{MemSink, MemSource};
pub use real::{StdSink, StdSource, SystemClock, got_of, milliseconds_of, took_of};
pub use sending::{Sent, put};
pub use traits::{Clock, Got, Sink, Source, Took};

/// Bytes in order.
pub type Bytes = Seq<u8>;

/// Numbers in order.
pub type Numbers = Seq<u64>;
