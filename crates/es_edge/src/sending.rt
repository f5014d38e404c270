//! Writing all of a text.
ghost use Rattle.std.specs.Prelude.{◌≡◌, true};
ghost use Rattle.es_edge.specs.Sends.{Sends};

use crate::{Sink, Took};

/// Whether all was written.
#[derive(Clone, Copy, Debug, PartialEq, Eq)]
pub enum Sent {
    /// All of it.
    Ok,
    /// A part at its front, short of all; the sink counted a fault.
    WriteFault,
}

/// Writes all the bytes. At a fault a part at their front was written. It takes no memory.
pub fn put<K: Sink>(sink: &mut K, bytes: &[u8]) -> Sent
    requires { (K.output sink.old).is_open ≡ true }
    ensures sends { Sends (K.output sink.old) (K.output sink.new) bytes.now result }
    ensures leaves { K.write_leaves sink.old sink.new }
{
    let mut rest = bytes;
    while !rest.is_empty() {
        match sink.write(rest) {
            Took::Bytes(count) => rest = &rest[count..],
            Took::Failed => return Sent::WriteFault,
        }
    }
    Sent::Ok
}
