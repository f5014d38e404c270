//! The members of an object, in the order of their names' bytes.
ghost use Rattle.std.specs.Prelude.{◌≡◌, IfOk, IsTrue};
ghost use Rattle.std.specs.Option.{option_copied};
ghost use Rattle.es_grammar.specs.Reading.{Gives, GivesBy, below};
ghost use Rattle.es_grammar.specs.Values.{if_given};
ghost use Rattle.es_grammar.specs.Members.{members_of, next_of, optional_of, ends_of, each_of, only_of};

use crate::form::{Form, MemberForm};
use crate::places::{at, here, under};
use es_base::Seq;
use es_tree::{BodyFault, Member, Tree, room_for};
use std::alloc::Global;
use std::cmp::Ordering;

/// The members of an object.
pub fn members_of(alloc: Global, tree: &Tree) -> Result<&[Member], BodyFault>
    ensures { GivesBy (λ slice. slice.now) result (members_of tree.now) }
{
    match tree {
        Tree::Object(members) => Ok(members.as_slice()),
        _ => Err(here(alloc)),
    }
}

/// The member of this name, if it is there, and those after it. A name before it isn't in the grammar.
pub fn next<'a>(
    alloc: Global,
    name: &str,
    members: &'a [Member],
) -> Result<(Option<&'a Tree>, &'a [Member]), BodyFault>
    ensures { GivesBy (λ found. (option_copied found.0, found.1.now)) result (next_of name.now members.now) }
{
    match members {
        [] => Ok((None, members)),
        [first, rest @ ..] => match first.name.text().cmp(name) {
            Ordering::Less => Err(at(alloc, first.name.text())),
            Ordering::Equal => Ok((Some(&first.value), rest)),
            Ordering::Greater => Ok((None, members)),
        },
    }
}

/// The member of this name with its value read, if it is there, and those after it.
pub fn optional<'a, F: Form>(
    alloc: Global,
    name: &str,
    members: &'a [Member],
) -> Result<(Option<F::Out>, &'a [Member]), BodyFault>
    ensures gives { GivesBy (λ found. (found.0, found.1.now)) result (optional_of name.now F.form members.now) }
    ensures sound { IfOk result (λ found. IsTrue (if_given F.sound found.0)) }
{
    let (found, rest) = next(alloc, name, members)?;
    match found {
        Some(tree) => {
            let value = under(alloc, name, F::read(alloc, tree))?;
            Ok((Some(value), rest))
        }
        None => Ok((None, rest)),
    }
}

/// No member is left.
pub fn ends(alloc: Global, members: &[Member]) -> Result<(), BodyFault>
    ensures { Gives result (ends_of members.now) }
{
    match members {
        [] => Ok(()),
        [first, ..] => Err(at(alloc, first.name.text())),
    }
}

fn one<F: MemberForm>(alloc: Global, member: &Member) -> Result<F::Out, BodyFault>
    ensures { Gives result (below member.now.name (F.form member.now.name member.now.value)) }
{
    let name = member.name.text();
    under(alloc, name, F::read(alloc, name, &member.value))
}

/// Each member, by its name and its value.
pub fn each<F: MemberForm>(alloc: Global, members: &[Member]) -> Result<Seq<F::Out>, BodyFault>
    ensures { Gives result (each_of F.form members.now) }
{
    let mut found = room_for(alloc, members.len())?;
    for member in members {
        found.push(one::<F>(alloc, member)?)?;
    }
    Ok(found)
}

/// The one item.
pub fn only<T: Drop>(alloc: Global, items: Seq<T>) -> Result<T, BodyFault>
    ensures { Gives result (only_of items) }
{
    let mut items = items.into_vec();
    match items.pop() {
        Some(item) if items.is_empty() => Ok(item),
        _ => Err(here(alloc)),
    }
}
