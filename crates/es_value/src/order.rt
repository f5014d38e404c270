//! The order of values.
ghost use Rattle.std.specs.Prelude.{◌≡◌, ◌↔◌};
ghost use Rattle.std.specs.Cmp.{IsTotalOrder};
ghost use Rattle.std.specs.declared.cmp.Ordering.TheVariants.{Equal};
ghost use Rattle.es_value.specs.Order.{value_cmp};
ghost use Rattle.es_value.specs.Lent.{value_of};

use crate::kinds::{Lent, Value};
use std::cmp::Ordering;

impl Value {
    /// How the value compares with another: numbers by what they are, texts by their bytes, and numbers come before texts.
    /// The order is total, and only equal values tie.
    pub fn compare(&self, other: &Value) -> Ordering
        ensures order { result ≡ value_cmp self.now other.now }
        ensures ties { (value_cmp self.now other.now ≡ Equal) ↔ (self.now ≡ other.now) }
        ensures total { IsTotalOrder value_cmp }
    {
        self.compare_lent(other.lend())
    }

    /// How the value compares with one that is lent, in the order of `compare`.
    pub fn compare_lent(&self, other: Lent<'_>) -> Ordering
        ensures { result ≡ value_cmp self.now (value_of other.entry) }
    {
        match (self, other) {
            (Value::Number(one), Lent::Number(other)) => one.cmp(&other),
            (Value::Number(_), Lent::Text(_)) => Ordering::Less,
            (Value::Text(_), Lent::Number(_)) => Ordering::Greater,
            (Value::Text(one), Lent::Text(other)) => one.text().cmp(other),
        }
    }
}
