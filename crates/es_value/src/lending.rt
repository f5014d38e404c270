//! Values, lent and copied, and their trees.
ghost use Rattle.std.specs.Prelude.{◌≡◌, IfOk};
ghost use Rattle.es_value.specs.Lent.{value_of};
ghost use Rattle.es_value.specs.Values.{value_tree};

use crate::kinds::{Lent, Value};
use es_base::{Copied, NoMemory, Str};
use es_tree::Tree;
use std::alloc::Global;

impl Value {
    /// The value, lent.
    pub fn lend(&self) -> Lent<'_>
        ensures { value_of result ≡ self.now }
    {
        match self {
            Value::Number(number) => Lent::Number(*number),
            Value::Text(text) => Lent::Text(text.text()),
        }
    }

    /// An equal value.
    pub fn copy(&self, alloc: Global) -> Result<Value, NoMemory>
        ensures { IfOk result (λ copy. copy ≡ self.now) }
    {
        self.lend().own(alloc)
    }

    /// The tree that the value prints as: a text, a number, or the number of a moment's milliseconds.
    pub fn tree(&self, alloc: Global) -> Result<Tree, NoMemory>
        ensures { IfOk result (λ tree. tree ≡ value_tree self.now) }
    {
        match self {
            Value::Number(number) => Ok(Tree::Int(*number)),
            Value::Text(text) => Ok(Tree::Text(text.copy(alloc)?)),
        }
    }
}

impl Copied for Value {
    fn copied(&self, alloc: Global) -> Result<Value, NoMemory> {
        self.copy(alloc)
    }
}

impl Lent<'_> {
    /// The value, with a text of its own.
    pub fn own(self, alloc: Global) -> Result<Value, NoMemory>
        ensures { IfOk result (λ value. value ≡ value_of self.entry) }
    {
        match self {
            Lent::Number(number) => Ok(Value::Number(number)),
            Lent::Text(text) => Ok(Value::Text(Str::of(alloc, text)?)),
        }
    }
}
