//! A chance over a reader, as the system's random device. It tells nothing of what is drawn.
ghost use Rattle.std.specs.Prelude.{◌≡◌, ◌≢◌, [], ◌∷◌, IfOk};
ghost use Rattle.std.specs.Io.KnownBytes.{Consumes};
ghost use Rattle.es_edge.specs.Draws.{IfBytes};
ghost use Rattle.es_edge.specs.Std.{silent_lots};

use crate::{Chance, Draw};
use std::io::Read;
use std::rt::Files;
use std::{fs, io};

/// Any reader of std, whose next sixteen bytes are the next draw. Where it ends before them, or fails, the draw failed.
#[derive(Drop)]
pub struct ReaderChance<R: Read + Drop> {
    pub inner: R,
    pub faults: u64,
}

impl<R: Read + Drop> ReaderChance<R> {
    /// A chance over a reader, without a fault so far.
    pub fn new(inner: R) -> ReaderChance<R>
        ensures inner { result.inner ≡ inner }
        ensures faults { result.faults ≡ 0 }
    {
        ReaderChance { inner, faults: 0 }
    }
}

impl<R: Read + Drop> Chance for ReaderChance<R> {
    ghost use Rattle.es_edge.specs.Draws.{Lots, Draws as DrawsOf};

    ghost lots = { λ chance. silent_lots chance.faults };

    ghost draw_leaves = { λ _ _. Unit {0} };

    ghost draw_leaves_same = { λ _. tt };

    ghost draw_leaves_then = { λ _ _ _ _ _. tt };

    fn draw(&mut self) -> Draw
        ensures draws { DrawsOf (silent_lots self.old.faults) (silent_lots self.new.faults) (result ∷ []) }
        ensures drawn { result ≢ Draw.NotDrawn }
        ensures leaves { Unit {0} }
        // where the reader tells its bytes, those that were drawn are its next ones
        ensures gives { IfBytes result (λ bytes. Consumes (R.remaining self.old.inner) (R.remaining self.new.inner) bytes) }
    {
        let mut bytes = [0u8; 16];
        match self.inner.read_exact(&mut bytes) {
            Ok(()) => Draw::Bytes(bytes),
            Err(_) => {
                self.faults = self.faults.saturating_add(1);
                Draw::Failed
            }
        }
    }
}

/// The chance over the system's random device, `/dev/urandom`.
pub fn random_device<R: Files>(rt: &R) -> io::Result<ReaderChance<R::File>>
    ensures { IfOk result (λ chance. chance.faults ≡ 0) }
{
    Ok(ReaderChance::new(fs::open(rt, "/dev/urandom")?))
}
