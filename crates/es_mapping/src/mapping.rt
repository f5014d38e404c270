//! The types of an index's fields.
ghost use Rattle.std.specs.Prelude.{◌≡◌, ◌<◌, ◌↔◌, [], List, ℕ, Bool, Some, length, slice_get, IsTrue, IfOk};
ghost use Rattle.std.specs.List.{filter};
ghost use Rattle.es_tree.specs.Find.{value_named};
ghost use Rattle.es_mapping.specs.Mappings.{is_mapping, IsWithin};

use crate::paths::path_cmp;
use es_base::{NoMemory, Seq};
use es_tree::Named;
use es_value::FieldType;
use std::alloc::Global;
use std::marker::Model;

/// A test of paths.
pub trait PathTest {
    ghost holds_of: { Self → List ℕ → Bool };

    /// Whether the test holds on the path. It takes no memory.
    fn holds(&self, path: &str) -> bool
        ensures { result ≡ holds_of self.now path.now };
}

/// Fields, each with its path.
pub(crate) type Fields = Seq<Named<FieldType>>;

/// The types of an index's fields, by their paths. Contracts see the fields in the order of their paths, compared piece by
/// piece.
#[derive(Debug, Drop)]
pub struct Mapping {
    fields: Vec<Named<FieldType>>,
}

impl Model for Mapping {
    ghost use Rattle.std.specs.Prelude.{List, IsTrue};
    ghost use Rattle.es_tree.specs.declared.tree.Named.{Named};
    ghost use Rattle.es_value.specs.declared.kinds.FieldType.{FieldType};
    ghost use Rattle.es_mapping.specs.Mappings.{is_mapping};

    ghost Value = { List (Named FieldType) };

    ghost view = { λ mapping. mapping.fields.items };

    ghost invariant = { λ mapping. IsTrue (is_mapping mapping.fields.items) };
}

impl Mapping {
    /// No fields. It takes no memory.
    pub fn empty(alloc: Global) -> Mapping
        ensures { result ≡ [] }
    {
        Mapping {
            fields: Vec::new(alloc),
        }
    }

    // Fields in the order of their paths, each two of them apart. It takes no memory.
    pub(crate) fn of(fields: Vec<Named<FieldType>>) -> Mapping
        requires { IsTrue (is_mapping fields.items) }
        ensures fields { result ≡ fields.items }
        ensures are_apart { IsTrue (is_mapping result) }
    {
        Mapping { fields }
    }

    /// The fields in the order of their paths.
    pub(crate) fn fields(&self) -> &[Named<FieldType>]
        ensures fields { result.now ≡ self.now }
        ensures are_apart { IsTrue (is_mapping self.now) }
    {
        self.fields.as_slice()
    }

    /// It does nothing. Its contract is that a mapping is within itself, for proofs that speak of one.
    pub fn laws(&self)
        ensures { IsWithin self.now self.now }
    {
        let _fields = &self.fields;
    }

    /// How many fields there are.
    pub fn len(&self) -> usize
        ensures { result ≡ length self.now }
    {
        self.fields.len()
    }

    /// Whether there are none.
    pub fn is_empty(&self) -> bool
        ensures { IsTrue result ↔ (self.now ≡ []) }
    {
        self.fields.is_empty()
    }

    /// The path and the type of a field, by its place in the order of paths, counted from 0.
    pub fn field(&self, alloc: Global, at: usize) -> Result<Named<FieldType>, NoMemory>
        requires { at < length self.now }
        ensures { IfOk result (λ field. slice_get self.now at ≡ Some field) }
    {
        copied(alloc, &self.fields[at])
    }

    /// The fields whose paths the test holds on.
    pub fn kept<T: PathTest>(&self, alloc: Global, test: &T) -> Result<Mapping, NoMemory>
        ensures fields { IfOk result (λ kept. kept ≡ filter (λ field. T.holds_of test.now field.name) self.now) }
        ensures within { IfOk result (λ kept. IsWithin kept self.now) }
    {
        let mut kept = Vec::new(alloc);
        for field in self.fields.as_slice() {
            if test.holds(field.name.text()) {
                kept.push(copied(alloc, field)?)?;
            }
        }
        Ok(Mapping::of(kept))
    }

    /// The type of the field at the path. It takes no memory.
    pub fn kind(&self, path: &str) -> Option<FieldType>
        ensures { result ≡ value_named path.now self.now }
    {
        let fields = self.fields.as_slice();
        match fields.binary_search_by(|field| path_cmp(field.name.text(), path)) {
            Ok(at) => Some(fields[at].value),
            Err(_) => None,
        }
    }
}

fn copied(alloc: Global, field: &Named<FieldType>) -> Result<Named<FieldType>, NoMemory>
    ensures { IfOk result (λ copy. copy ≡ field.now) }
{
    Ok(Named {
        name: field.name.copy(alloc)?,
        value: field.value,
    })
}
