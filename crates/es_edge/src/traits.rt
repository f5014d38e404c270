//! What the code above knows of the outside.
ghost use Rattle.std.specs.Prelude.{◌≡◌, ◌<◌, ℕ, Option, true, length, IfSome};

/// What a read gave.
#[derive(Clone, Copy, Debug, PartialEq, Eq)]
pub enum Got {
    /// So many bytes, one or more, at the front of the buffer.
    Bytes(usize),
    /// No more bytes come.
    End,
    /// The source failed, and counted a fault.
    Failed,
}

/// What a write took.
#[derive(Clone, Copy, Debug, PartialEq, Eq)]
pub enum Took {
    /// So many bytes, one or more, from the front of what was offered.
    Bytes(usize),
    /// The sink failed, and counted a fault.
    Failed,
}

/// Bytes that come in.
pub trait Source {
    ghost use Rattle.es_edge.specs.Moves.{Input, Reads};

    /// The source as contracts see it.
    ghost input: { Self → Input };

    /// What a read leaves alone, from the state before it to the state after it.
    ghost read_leaves: { Self → Self → Type 0 };

    /// Reads one byte or more, or says why there are none. A call that gives no byte moves nothing.
    fn read(&mut self, buf: &mut [u8]) -> Got
        requires room { 0 < length buf.old }
        requires is_open { (input self.old).is_open ≡ true }
        ensures reads { Reads (input self.old) (input self.new) buf.new result }
        ensures leaves { read_leaves self.old self.new };

    /// No read leaves all.
    ghost read_leaves_same: { (source : Self) → read_leaves source source };

    /// What one read and then another leave alone.
    ghost read_leaves_then: { (a : Self) → (b : Self) → (c : Self) → read_leaves a b → read_leaves b c → read_leaves a c };
}

/// Bytes that go out.
pub trait Sink {
    ghost use Rattle.es_edge.specs.Moves.{Output, Writes};

    /// The sink as contracts see it.
    ghost output: { Self → Output };

    /// What a write leaves alone, from the state before it to the state after it.
    ghost write_leaves: { Self → Self → Type 0 };

    /// Takes one byte or more, or fails and takes none.
    fn write(&mut self, bytes: &[u8]) -> Took
        requires some { 0 < length bytes.now }
        requires is_open { (output self.old).is_open ≡ true }
        ensures writes { Writes (output self.old) (output self.new) bytes.now result }
        ensures leaves { write_leaves self.old self.new };

    /// No write leaves all.
    ghost write_leaves_same: { (sink : Self) → write_leaves sink sink };

    /// What one write and then another leave alone.
    ghost write_leaves_then: { (a : Self) → (b : Self) → (c : Self) → write_leaves a b → write_leaves b c → write_leaves a c };
}

/// The moment, in milliseconds since 1970.
pub trait Clock {
    /// The moment, where the clock tells it.
    ghost moment: { Self → Option ℕ };

    /// Any number; where the clock tells its moment, that one.
    fn now(&self) -> u64
        ensures { IfSome (moment self.now) (λ moment. result ≡ moment) };
}
