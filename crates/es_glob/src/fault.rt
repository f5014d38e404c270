//! Why a text is no pattern.
ghost use Rattle.std.specs.Prelude.{◌≡◌};
ghost use Rattle.es_glob.specs.declared.fault.PatternFault.TheVariants.{NoMemory as OutOfMemory};

use es_base::NoMemory;

/// Why no pattern was made.
#[derive(Clone, Copy, Debug, PartialEq, Eq)]
pub enum PatternFault {
    /// The text is empty, begins with `/`, ends in a lone `\`, or has more than 255 characters.
    BadPattern,
    /// Memory was refused.
    NoMemory,
}

impl From<NoMemory> for PatternFault {
    ghost from_gives = { λ _ fault. fault ≡ OutOfMemory };

    fn from(_refused: NoMemory) -> PatternFault {
        PatternFault::NoMemory
    }
}
