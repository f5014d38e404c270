//! Faults of documents.
ghost use Rattle.std.specs.Prelude.{◌≡◌};

use es_base::{NoMemory, Str};
use es_value::FieldType;

/// Why a document can't be put under a mapping.
#[derive(Debug, Drop)]
pub enum ValueFault {
    /// The first non-null value at a mapped path that isn't of the type.
    BadValue { path: Str, kind: FieldType },
    NoMemory,
}

impl From<NoMemory> for ValueFault {
    ghost use Rattle.es_mapping.specs.declared.kinds.ValueFault.TheVariants.{NoMemory as RefusedMemory};

    ghost from_gives = { λ e fault. fault ≡ RefusedMemory };

    fn from(_error: NoMemory) -> ValueFault {
        ValueFault::NoMemory
    }
}
