//! A connection: bytes that come in and bytes that go out, of one object.
ghost use Rattle.std.specs.Prelude.{◌≡◌, true};

use es_edge::{Sink, Source};

/// A source and a sink in one object, which can be closed. Reads and writes have a count of faults each.
pub trait Link: Source + Sink {
    ghost use Rattle.es_link.specs.Links.{closed_input, closed_output};

    /// Closes both sides, and changes nothing else.
    fn close(&mut self)
        requires { (Self.input self.old).is_open ≡ true }
        ensures input { Self.input self.new ≡ closed_input (Self.input self.old) }
        ensures output { Self.output self.new ≡ closed_output (Self.output self.old) };

    /// Both sides are open, or neither.
    ghost both_open: { (link : Self) → (Self.output link).is_open ≡ (Self.input link).is_open };

    /// A read leaves what was written, and the faults of writing.
    ghost read_leaves_output: { (old : Self) → (new : Self) → Self.read_leaves old new → Self.output new ≡ Self.output old };

    /// A write leaves what was read and is left, and the faults and ends of reading.
    ghost write_leaves_input: { (old : Self) → (new : Self) → Self.write_leaves old new → Self.input new ≡ Self.input old };
}
