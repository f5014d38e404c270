//! The fields that are still possible along a path.
ghost use Rattle.std.specs.Prelude.{◌≡◌, ◌⊎◌, [], ◌≤◌, ◌+◌, ◌++◌, ℕ, List, length, take, drop, map, codes, IsTrue, not, nat_eq};
ghost use Rattle.std.specs.List.{starts_with, list_all};
ghost use Rattle.std.specs.Option.{option_copied};
ghost use Rattle.es_mapping.specs.Paths.{comes_before, are_rising};
ghost use Rattle.es_mapping.specs.Possible.{left_from, field_left};

use crate::paths::cmp_paths;
use es_tree::Named;
use es_value::FieldType;

/// The fields that are still possible along a path.
#[derive(Clone, Copy)]
pub(crate) struct Possible<'a> {
    /// The field at the path.
    pub field: Option<&'a Named<FieldType>>,
    /// How many bytes the path has, with its last dot.
    pub from: usize,
    /// The fields whose paths go on behind that dot, in their order.
    pub fields: &'a [Named<FieldType>],
}

/// What is possible behind one more name, of fields whose paths all begin with the same bytes up to a place. It takes no
/// memory, and looks at the bytes behind the place alone.
pub(crate) fn behind<'a>(fields: &'a [Named<FieldType>], from: usize, name: &[u8]) -> Possible<'a>
    requires { IsTrue (are_rising (map (left_from from) fields.now)) }
    ensures field { option_copied result.field ≡ field_left from name.now fields.now }
    ensures fields { (text : List ℕ) → field_left result.from text result.fields.now ≡ field_left from (name.now ++ (codes "." ++ text)) fields.now }
    ensures rising { IsTrue (are_rising (map (left_from result.from) result.fields.now)) }
{
    let (front, rest) = fields.split_at(not_after(fields, from, name));
    let below = below(rest, from, name);
    Possible {
        field: last_at(front, from, name),
        from: place_below(below, from, name),
        fields: below,
    }
}

// How many fields at the front don't come after the name.
fn not_after(fields: &[Named<FieldType>], from: usize, name: &[u8]) -> usize
    requires { IsTrue (are_rising (map (left_from from) fields.now)) }
    ensures within { result ≤ length fields.now }
    ensures before { IsTrue (list_all (λ f. not (comes_before name.now (left_from from f))) (take result fields.now)) }
    ensures after { IsTrue (list_all (λ f. comes_before name.now (left_from from f)) (drop result fields.now)) }
{
    fields.partition_point(|field| !cmp_paths(name, left(field, from)).is_lt())
}

// The last field, if the name is left of it.
fn last_at<'a>(
    fields: &'a [Named<FieldType>],
    from: usize,
    name: &[u8],
) -> Option<&'a Named<FieldType>>
    requires rising { IsTrue (are_rising (map (left_from from) fields.now)) }
    requires before { IsTrue (list_all (λ f. not (comes_before name.now (left_from from f))) fields.now) }
    ensures { option_copied result ≡ field_left from name.now fields.now }
{
    let (last, _) = fields.split_last()?;
    if left(last, from) == name {
        Some(last)
    } else {
        None
    }
}

// Of fields that come after the name, those whose paths go on behind it.
fn below<'a>(fields: &'a [Named<FieldType>], from: usize, name: &[u8]) -> &'a [Named<FieldType>]
    requires rising { IsTrue (are_rising (map (left_from from) fields.now)) }
    requires after { IsTrue (list_all (λ f. comes_before name.now (left_from from f)) fields.now) }
    ensures fields { (text : List ℕ) → field_left from (name.now ++ (codes "." ++ text)) result.now ≡ field_left from (name.now ++ (codes "." ++ text)) fields.now }
    ensures on { IsTrue (list_all (λ f. starts_with nat_eq (left_from from f) (name.now ++ codes ".")) result.now) }
    ensures rising { IsTrue (are_rising (map (left_from from) result.now)) }
{
    let count = fields.partition_point(|field| goes_on(left(field, from), name));
    &fields[..count]
}

// The place behind the name and its dot in the paths of fields that go on there.
fn place_below(fields: &[Named<FieldType>], from: usize, name: &[u8]) -> usize
    requires { IsTrue (list_all (λ f. starts_with nat_eq (left_from from f) (name.now ++ codes ".")) fields.now) }
    ensures { (fields.now ≡ []) ⊎ (result ≡ from + (length name.now + 1)) }
{
    match fields.first() {
        Some(field) => place_in(field, from, name),
        None => from,
    }
}

fn place_in(field: &Named<FieldType>, from: usize, name: &[u8]) -> usize
    requires { IsTrue (starts_with nat_eq (left_from from field.now) (name.now ++ codes ".")) }
    ensures { result ≡ from + (length name.now + 1) }
{
    field.name.len() - (left(field, from).len() - (name.len() + 1))
}

// Whether the text goes on behind the name with a dot.
fn goes_on(text: &[u8], name: &[u8]) -> bool
    ensures { result ≡ starts_with nat_eq text.now (name.now ++ codes ".") }
{
    if text.len() <= name.len() || text[name.len()] != b'.' {
        return false;
    }
    text.starts_with(name)
}

// What the field's path has from the place on.
fn left(field: &Named<FieldType>, from: usize) -> &[u8]
    ensures { result.now ≡ left_from from field.now }
{
    let path = field.name.text().as_bytes();
    &path[from.min(path.len())..]
}
