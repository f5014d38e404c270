//! Links and listeners in memory. They tell all that they hold, and fail at the calls that they are told.
ghost use Rattle.std.specs.Prelude.{◌≡◌, ◌<◌, ◌-◌, ◌↔◌, ◌⊎◌, [], ◌∷◌, length, min, true, false, Contains};
ghost use Rattle.es_edge.specs.Calls.{next_call};

use crate::{Accepted, Bound, Link, Listener};
use es_edge::{Got, MemSink, MemSource, Numbers, Sink, Source, Took};
use std::collections::VecDeque;

/// A link in memory: what comes in, what was written, and whether it was closed.
#[derive(Drop)]
pub struct MemLink {
    pub input: MemSource,
    pub output: MemSink,
    pub closed: bool,
}

impl MemLink {
    /// A link of these sides.
    pub fn new(input: MemSource, output: MemSink, closed: bool) -> MemLink
        ensures { result ≡ record { input = input; output = output; closed = closed } }
    {
        MemLink {
            input,
            output,
            closed,
        }
    }
}

impl Source for MemLink {
    ghost use Rattle.std.specs.Prelude.{refl};
    ghost use Rattle.std.proofs.Common.{◌∙◌};
    ghost use Rattle.es_edge.specs.Moves.{Input, Reads};
    ghost use Rattle.es_link.specs.Memory.{link_input, ReadKeeps};

    ghost input = { link_input };

    ghost read_leaves = { ReadKeeps };

    ghost read_leaves_same = { λ _. ((refl, refl, refl), refl, refl) };

    ghost read_leaves_then = { λ _ _ _ first second.
        ((second.0.0 ∙ first.0.0, second.0.1 ∙ first.0.1, second.0.2 ∙ first.0.2), second.1 ∙ first.1, second.2 ∙ first.2) };

    fn read(&mut self, buf: &mut [u8]) -> Got
        requires { 0 < length buf.old }
        ensures reads { Reads (link_input self.old) (link_input self.new) buf.new result }
        ensures leaves { ReadKeeps self.old self.new }
        ensures fails { (result ≡ Got.Failed) ↔ Contains self.old.input.failing (next_call self.old.input.calls) }
        ensures gives { (result ≡ Got.Failed) ⊎ (result ≡ Got.End)
            ⊎ (result ≡ Got.Bytes (min (min self.old.input.piece (length buf.old)) (length self.old.input.bytes - self.old.input.place))) }
        ensures calls { self.new.input.calls ≡ next_call self.old.input.calls }
    {
        self.input.read(buf)
    }
}

impl Sink for MemLink {
    ghost use Rattle.std.specs.Prelude.{refl};
    ghost use Rattle.std.proofs.Common.{◌∙◌};
    ghost use Rattle.es_edge.specs.Moves.{Output, Writes};
    ghost use Rattle.es_link.specs.Memory.{link_output, WriteKeeps};

    ghost output = { link_output };

    ghost write_leaves = { WriteKeeps };

    ghost write_leaves_same = { λ _. ((refl, refl, refl), refl, refl) };

    ghost write_leaves_then = { λ _ _ _ first second.
        ((second.0.0 ∙ first.0.0, second.0.1 ∙ first.0.1, second.0.2 ∙ first.0.2), second.1 ∙ first.1, second.2 ∙ first.2) };

    fn write(&mut self, bytes: &[u8]) -> Took
        requires { 0 < length bytes.now }
        ensures writes { Writes (link_output self.old) (link_output self.new) bytes.now result }
        ensures leaves { WriteKeeps self.old self.new }
        ensures fails { (result ≡ Took.Failed) ↔ (Contains self.old.output.failing (next_call self.old.output.calls) ⊎ (length self.old.output.taken.items ≡ self.old.output.room)) }
        ensures takes { (result ≡ Took.Failed)
            ⊎ (result ≡ Took.Bytes (min (min self.old.output.piece (length bytes.now)) (self.old.output.room - length self.old.output.taken.items))) }
        ensures calls { self.new.output.calls ≡ next_call self.old.output.calls }
    {
        self.output.write(bytes)
    }
}

impl Link for MemLink {
    ghost use Rattle.std.specs.Prelude.{refl};
    ghost use Rattle.es_link.specs.Links.{closed_input, closed_output};
    ghost use Rattle.es_link.specs.Memory.{link_input, link_output, ReadKeeps, WriteKeeps, read_keeps_output, write_keeps_input};

    fn close(&mut self)
        ensures input { link_input self.new ≡ closed_input (link_input self.old) }
        ensures output { link_output self.new ≡ closed_output (link_output self.old) }
        ensures closed { self.new ≡ record self.old { closed = true } }
    {
        self.closed = true;
    }

    ghost both_open = { λ _. refl };

    ghost read_leaves_output = { read_keeps_output };

    ghost write_leaves_input = { write_keeps_input };
}

/// Links in memory, in the order in which they come.
pub type Links = VecDeque<MemLink>;

/// Links that come one after another. It fails exactly at the listed calls, which are counted from 1, those of `bind` among
/// them; it tells no address.
#[derive(Drop)]
pub struct MemListener {
    /// The links that are still to come.
    pub links: Links,
    /// The calls that fail.
    pub failing: Numbers,
    pub bound: bool,
    /// How many links were given.
    pub given: u64,
    pub calls: u64,
    pub ends: u64,
    pub faults: u64,
}

impl MemListener {
    /// A listener that isn't bound and has given nothing.
    pub fn new(links: Links, failing: Numbers) -> MemListener
        ensures { result ≡ record { links = links; failing = failing; bound = false; given = 0; calls = 0; ends = 0; faults = 0 } }
    {
        MemListener {
            links,
            failing,
            bound: false,
            given: 0,
            calls: 0,
            ends: 0,
            faults: 0,
        }
    }

    // Counts a call, and says whether it fails.
    fn fails(&mut self) -> bool
        ensures fails { (result ≡ true) ↔ Contains self.old.failing (next_call self.old.calls) }
        ensures failed { result ≡ true → self.new ≡ record self.old { calls = next_call self.old.calls; faults = next_call self.old.faults } }
        ensures goes { result ≡ false → self.new ≡ record self.old { calls = next_call self.old.calls } }
    {
        self.calls = self.calls.saturating_add(1);
        if self.failing.as_slice().contains(&self.calls) {
            self.faults = self.faults.saturating_add(1);
            return true;
        }
        false
    }
}

impl Listener for MemListener {
    ghost use Rattle.es_link.specs.Links.{IsFresh};
    ghost use Rattle.es_link.specs.Listens.{Listening, Binds, Accepts, IfLink};
    ghost use Rattle.es_link.specs.Memory.{link_input, link_output, mem_listening, AreFresh, GivesNext};

    type L = MemLink;

    ghost listening = { mem_listening };

    ghost has_fresh = { AreFresh };

    fn bind(&mut self, _address: &str) -> Bound
        requires { self.old.bound ≡ false }
        ensures binds { Binds (mem_listening self.old) (mem_listening self.new) _address.now result }
        ensures fresh { AreFresh self.old → AreFresh self.new }
        ensures fails { (result ≡ Bound.Failed) ↔ Contains self.old.failing (next_call self.old.calls) }
        ensures faults { result ≡ Bound.Failed → self.new.faults ≡ next_call self.old.faults }
        ensures failing { self.new.failing ≡ self.old.failing }
        ensures links { self.new.links ≡ self.old.links }
        ensures calls { self.new.calls ≡ next_call self.old.calls }
    {
        if self.fails() {
            return Bound::Failed;
        }
        self.bound = true;
        Bound::Ok
    }

    fn accept(&mut self) -> Accepted<MemLink>
        requires { self.old.bound ≡ true }
        ensures accepts { Accepts (mem_listening self.old) (mem_listening self.new) result }
        ensures fresh { AreFresh self.old → AreFresh self.new }
        ensures link { AreFresh self.old → IfLink result (λ link. IsFresh (link_input link) (link_output link)) }
        ensures fails { (result ≡ Accepted.Failed) ↔ Contains self.old.failing (next_call self.old.calls) }
        ensures faults { result ≡ Accepted.Failed → self.new.faults ≡ next_call self.old.faults }
        ensures ends { result ≡ Accepted.End → self.new.ends ≡ next_call self.old.ends }
        ensures failing { self.new.failing ≡ self.old.failing }
        ensures gives { GivesNext self.old.links.items self.new.links.items result }
        ensures calls { self.new.calls ≡ next_call self.old.calls }
    {
        if self.fails() {
            return Accepted::Failed;
        }
        match self.links.pop_front() {
            Some(link) => {
                self.given = self.given.saturating_add(1);
                Accepted::Link(link)
            }
            None => {
                self.ends = self.ends.saturating_add(1);
                Accepted::End
            }
        }
    }
}
