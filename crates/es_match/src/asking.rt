//! What a query asks of the values of one field.
ghost use Rattle.std.specs.Prelude.{◌≡◌};
ghost use Rattle.es_value.specs.Lent.{value_of};
ghost use Rattle.es_match.specs.Compared.{is_over, is_under};
ghost use Rattle.es_match.specs.Asked.{meets};

use crate::searching::ValueSet;
use es_value::{Lent, Value};

/// Limits of values, read in the type of the field.
#[derive(Debug, Drop)]
pub struct Limits {
    pub low: Option<Value>,
    pub low_open: bool,
    pub high: Option<Value>,
    pub high_open: bool,
}

/// What is asked of one value.
#[derive(Debug, Drop)]
pub enum Asked {
    /// To be one of these.
    OneOf(ValueSet),
    /// To lie within these.
    Within(Limits),
    /// To be there.
    Any,
}

impl Asked {
    /// Whether the value is one that is asked for.
    pub fn meets(&self, value: Lent<'_>) -> bool
        ensures { result ≡ meets self.now (value_of value.entry) }
    {
        match self {
            Asked::OneOf(values) => values.contains(value),
            Asked::Within(limits) => {
                is_over(limits.low_open, &limits.low, value)
                    && is_under(limits.high_open, &limits.high, value)
            }
            Asked::Any => true,
        }
    }
}

fn is_over(is_open: bool, bound: &Option<Value>, value: Lent<'_>) -> bool
    ensures { result ≡ is_over is_open bound.now (value_of value.entry) }
{
    match bound {
        None => true,
        Some(bound) => {
            let order = bound.compare_lent(value);
            if is_open {
                order.is_lt()
            } else {
                order.is_le()
            }
        }
    }
}

fn is_under(is_open: bool, bound: &Option<Value>, value: Lent<'_>) -> bool
    ensures { result ≡ is_under is_open bound.now (value_of value.entry) }
{
    match bound {
        None => true,
        Some(bound) => {
            let order = bound.compare_lent(value);
            if is_open {
                order.is_gt()
            } else {
                order.is_ge()
            }
        }
    }
}
