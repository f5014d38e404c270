//! Values to be searched for one.
ghost use Rattle.std.specs.Prelude.{◌≡◌, [], ◌∷◌, IsPermutation, IfOk};
ghost use Rattle.std.specs.List.{list_any};
ghost use Rattle.es_value.specs.Lent.{value_of};
ghost use Rattle.es_value.specs.Order.{is_same};

use es_base::NoMemory;
use es_value::{Lent, Value, Values};
use std::alloc::Global;
use std::marker::Model;

/// Values in their order. Contracts see the list of them.
#[derive(Debug, Drop)]
pub struct ValueSet {
    values: Vec<Value>,
}

impl Model for ValueSet {
    ghost use Rattle.std.specs.Prelude.{List, IsSorted};
    ghost use Rattle.es_value.specs.declared.kinds.Value.{Value as Item};
    ghost use Rattle.es_value.specs.Order.{value_cmp};

    ghost Value = { List Item };

    ghost view = { λ set. set.values.items };

    ghost invariant = { λ set. IsSorted value_cmp set.values.items };
}

impl ValueSet {
    /// One value.
    pub fn only(alloc: Global, value: Value) -> Result<ValueSet, NoMemory>
        ensures { IfOk result (λ set. set ≡ value ∷ []) }
    {
        let mut values = Vec::with_capacity(alloc, 1)?;
        values.push(value)?;
        Ok(ValueSet { values })
    }

    /// The values in their order. It takes no memory.
    pub fn of(values: Values) -> ValueSet
        ensures { IsPermutation values result }
    {
        let mut values = values.into_vec();
        values.sort_unstable_by(|one, other| one.compare(other));
        ValueSet { values }
    }

    /// Whether the value is one of these. It takes no memory.
    pub fn contains(&self, value: Lent<'_>) -> bool
        ensures { result ≡ list_any (λ it. is_same it (value_of value.entry)) self.now }
    {
        let values = self.values.as_slice();
        match values.binary_search_by(|it| it.compare_lent(value)) {
            Ok(_) => true,
            Err(_) => false,
        }
    }
}
