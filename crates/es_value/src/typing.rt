//! Scalars as values of a type.
ghost use Rattle.std.specs.Prelude.{◌≡◌, IfOk, option_map};
ghost use Rattle.std.specs.Option.{option_copied};
ghost use Rattle.es_value.specs.Lent.{value_of};
ghost use Rattle.es_value.specs.Values.{typed, whole_of, keyword_of};

use crate::dates::read_date;
use crate::kinds::{FieldType, Lent, Value};
use crate::numbers::read_number;
use es_base::NoMemory;
use es_tree::Tree;
use itoa::Buffer;
use std::alloc::Global;

/// The whole number that a scalar is in a field of this type; none where the type is `Keyword`. It takes no memory.
pub fn read_whole(kind: FieldType, scalar: &Tree) -> Option<i64>
    ensures { result ≡ whole_of kind scalar.now }
{
    match kind {
        FieldType::Keyword => None,
        FieldType::Long => match scalar {
            Tree::Int(number) => Some(*number),
            Tree::Text(text) => read_number(text.text()),
            _ => None,
        },
        FieldType::Date => match scalar {
            Tree::Int(number) => Some(*number),
            Tree::Text(text) => read_date(text.text()),
            _ => None,
        },
    }
}

/// The text that a scalar is in a field of type `Keyword`. The digits of a number are written into the buffer. It takes no
/// memory.
pub fn read_keyword<'a>(scalar: &'a Tree, digits: &'a mut Buffer) -> Option<&'a str>
    ensures { option_copied result ≡ keyword_of scalar.now }
{
    match scalar {
        Tree::Bool(true) => Some("true"),
        Tree::Bool(false) => Some("false"),
        Tree::Int(number) => Some(digits.format(*number)),
        Tree::Text(text) => Some(text.text()),
        Tree::Null | Tree::List(_) | Tree::Object(_) => None,
    }
}

/// The value of a scalar in a field of this type, if it is of that type, lent by the scalar or by the buffer, into which
/// the digits of a number as a keyword are written. Null, lists and objects are of no type. It takes no memory.
pub fn read_lent<'a>(kind: FieldType, scalar: &'a Tree, digits: &'a mut Buffer) -> Option<Lent<'a>>
    ensures { option_map value_of result ≡ typed kind scalar.now }
{
    match kind {
        FieldType::Keyword => match read_keyword(scalar, digits) {
            Some(text) => Some(Lent::Text(text)),
            None => None,
        },
        FieldType::Long | FieldType::Date => match read_whole(kind, scalar) {
            Some(number) => Some(Lent::Number(number)),
            None => None,
        },
    }
}

/// The value of a scalar in a field of this type, if it is of that type. Null, lists and objects are of none.
pub fn read_value(alloc: Global, kind: FieldType, scalar: &Tree) -> Result<Option<Value>, NoMemory>
    ensures { IfOk result (λ found. found ≡ typed kind scalar.now) }
{
    let mut digits = Buffer::new();
    match read_lent(kind, scalar, &mut digits) {
        Some(value) => Ok(Some(value.own(alloc)?)),
        None => Ok(None),
    }
}
