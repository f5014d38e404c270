//! Why bytes are no tree, and why a tree is not of a form.
ghost use Rattle.std.specs.Prelude.{◌≡◌};
ghost use Rattle.es_tree.specs.declared.fault.TreeFault.TheVariants.{NoMemory as TreeOutOfMemory};
ghost use Rattle.es_tree.specs.declared.fault.BodyFault.TheVariants.{NoMemory as BodyOutOfMemory};

use es_base::{NoMemory, Str};

/// Why bytes are no tree: the first of these that applies.
#[derive(Clone, Copy, Debug, PartialEq, Eq)]
pub enum TreeFault {
    /// The bytes are no JSON (RFC 8259) of at most 127 levels whose numbers `serde_json` can hold.
    NotJson,
    /// More than 30 lists and objects stand inside one another.
    TooDeep,
    /// A number has a fraction or an exponent, is `-0`, or is a whole number outside `i64`.
    NotWhole,
    /// Memory was refused.
    NoMemory,
}

impl From<NoMemory> for TreeFault {
    ghost from_gives = { λ _ fault. fault ≡ TreeOutOfMemory };

    fn from(_refused: NoMemory) -> TreeFault {
        TreeFault::NoMemory
    }
}

/// Why a tree is not of the form that a reader wants.
#[derive(Debug, Drop)]
pub enum BodyFault {
    /// The place of the first fault: member names and numbers of items, joined by dots.
    Bad { place: Str },
    /// Memory was refused.
    NoMemory,
}

impl From<NoMemory> for BodyFault {
    ghost from_gives = { λ _ fault. fault ≡ BodyOutOfMemory };

    fn from(_refused: NoMemory) -> BodyFault {
        BodyFault::NoMemory
    }
}
