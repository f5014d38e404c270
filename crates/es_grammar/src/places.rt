//! Places of faults. Inside a grammar a place is told from the value that is read: a dot and a name or number for
//! each step inside. It is made on the way out of a fault alone.
ghost use Rattle.std.specs.Prelude.{◌≡◌, [], Ok, decimal, IfOk};
ghost use Rattle.es_tree.specs.declared.fault.BodyFault.TheVariants.{Bad};
ghost use Rattle.es_grammar.specs.Reading.{Reading, Gives, IsAt, place_below, place_in, below, placed, wanted, or_empty, or_no_members, if_holds, without_dot};

use es_base::{NoMemory, Seq, Str};
use es_tree::{BodyFault, Members, Tree};
use std::alloc::Global;

/// A fault at the value itself. It takes no memory.
pub fn here(alloc: Global) -> BodyFault
    ensures { result ≡ Bad [] }
{
    BodyFault::Bad {
        place: Str::empty(alloc),
    }
}

fn joined(alloc: Global, name: &str, place: &str) -> Result<Str, NoMemory>
    ensures { IfOk result (λ text. text ≡ place_below name.now place.now) }
{
    let mut text = Str::of(alloc, ".")?;
    text.push_str(name)?;
    text.push_str(place)?;
    Ok(text)
}

/// A fault at what the name leads to.
pub fn at(alloc: Global, name: &str) -> BodyFault
    ensures { IsAt result (place_below name.now []) }
{
    match joined(alloc, name, "") {
        Ok(place) => BodyFault::Bad { place },
        Err(NoMemory) => BodyFault::NoMemory,
    }
}

/// What was read at the name, seen from the value that holds it.
pub fn under<T: Drop>(alloc: Global, name: &str, read: Result<T, BodyFault>) -> Result<T, BodyFault>
    ensures gives { (form : Reading T) → Gives read form → Gives result (below name.now form) }
    ensures same { IfOk result (λ value. read ≡ Ok value) }
{
    match read {
        Ok(value) => Ok(value),
        Err(BodyFault::NoMemory) => Err(BodyFault::NoMemory),
        Err(BodyFault::Bad { place }) => {
            let place = joined(alloc, name, place.text())?;
            Err(BodyFault::Bad { place })
        }
    }
}

fn number_text(alloc: Global, number: usize) -> Result<Str, NoMemory>
    ensures { IfOk result (λ text. text ≡ decimal number) }
{
    Ok(Str::from_string(number.to_string(alloc)?))
}

/// What was read of the item of this number, counted from 0, seen from the list that holds it.
pub fn under_item<T: Drop>(
    alloc: Global,
    number: usize,
    read: Result<T, BodyFault>,
) -> Result<T, BodyFault>
    ensures gives { (form : Reading T) → Gives read form → Gives result (below (decimal number) form) }
    ensures same { IfOk result (λ value. read ≡ Ok value) }
{
    match read {
        Ok(value) => Ok(value),
        Err(fault) => {
            let name = number_text(alloc, number)?;
            under(alloc, name.text(), Err(fault))
        }
    }
}

/// What was read of a value that stands at the place: names and numbers from the outermost value on, joined by dots.
/// The outermost value's own place is empty.
pub fn placed<T: Drop>(
    alloc: Global,
    place: &str,
    read: Result<T, BodyFault>,
) -> Result<T, BodyFault>
    ensures gives { (form : Reading T) → Gives read form → Gives result (placed place.now form) }
    ensures same { IfOk result (λ value. read ≡ Ok value) }
{
    match read {
        Ok(value) => Ok(value),
        Err(BodyFault::NoMemory) => Err(BodyFault::NoMemory),
        Err(BodyFault::Bad { place: inside }) => {
            let place = place_from(alloc, place, inside.text())?;
            Err(BodyFault::Bad { place })
        }
    }
}

fn place_from(alloc: Global, place: &str, inside: &str) -> Result<Str, NoMemory>
    ensures { IfOk result (λ whole. whole ≡ place_in place.now inside.now) }
{
    if place.is_empty() {
        return Str::of(alloc, undotted(inside));
    }
    let mut whole = Str::of(alloc, place)?;
    whole.push_str(inside)?;
    Ok(whole)
}

fn undotted(inside: &str) -> &str
    ensures { result.now ≡ without_dot inside.now }
{
    match inside.strip_prefix('.') {
        Some(rest) => rest,
        None => inside,
    }
}

/// The value of a required member.
pub fn needed<T: Drop>(alloc: Global, found: Option<T>) -> Result<T, BodyFault>
    ensures { Gives result (wanted found) }
{
    match found {
        Some(value) => Ok(value),
        None => Err(here(alloc)),
    }
}

/// An absent list is empty.
pub fn or_empty<T: Drop>(alloc: Global, found: Option<Seq<T>>) -> Seq<T>
    ensures { result ≡ or_empty found }
{
    match found {
        Some(items) => items,
        None => Seq::empty(alloc),
    }
}

/// An absent object has no members.
pub fn or_no_members(alloc: Global, found: Option<Tree>) -> Tree
    ensures { result ≡ or_no_members found }
{
    match found {
        Some(tree) => tree,
        None => Tree::Object(Members::empty(alloc)),
    }
}

/// The value, if a rule over several members holds.
pub fn if_holds<T: Drop>(alloc: Global, holds: bool, value: T) -> Result<T, BodyFault>
    ensures { Gives result (if_holds holds value) }
{
    if holds { Ok(value) } else { Err(here(alloc)) }
}
