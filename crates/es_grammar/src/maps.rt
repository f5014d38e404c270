//! Objects from names to values.
ghost use Rattle.std.specs.Prelude.{◌≡◌, List, ℕ, Result, Ok, IfOk, IsTrue, true, ◌&&◌};
ghost use Rattle.std.specs.List.{list_all};
ghost use Rattle.es_tree.specs.declared.tree.Tree.{Tree};
ghost use Rattle.es_grammar.specs.Reading.{Reading, Gives, below};
ghost use Rattle.es_grammar.specs.Members.{each_of, named, map_form};

use crate::form::{Form, Name};
use crate::places::{at, here, under};
use es_tree::{BodyFault, Member, Members, Named, Ordered, Tree, room_for};
use std::alloc::Global;
use std::marker::PhantomData;

/// Any name.
pub struct AnyName;

impl Name for AnyName {
    ghost permits = { λ _. true };

    fn permits(_name: &str) -> bool {
        true
    }
}

/// An object from permitted names to values of the form.
pub struct MapOf<N, F> {
    names: PhantomData<N>,
    values: PhantomData<F>,
}

impl<N: Name, F: Form> Form for MapOf<N, F> {
    type Out = Ordered<F::Out>;

    ghost form = { map_form N.permits F.form };

    ghost sound = { list_all (λ m. N.permits m.name && F.sound m.value) };

    fn read(alloc: Global, tree: &Tree) -> Result<Ordered<F::Out>, BodyFault> {
        match tree {
            Tree::Object(members) => map_of::<N, F>(alloc, members),
            _ => Err(here(alloc)),
        }
    }
}

fn entry<N: Name, F: Form>(alloc: Global, member: &Member) -> Result<Named<F::Out>, BodyFault>
    ensures gives { Gives result (below member.now.name (named N.permits F.form member.now.name member.now.value)) }
    ensures name { IfOk result (λ entry. entry.name ≡ member.now.name) }
    ensures sound { IfOk result (λ entry. IsTrue (N.permits entry.name && F.sound entry.value)) }
{
    let name = member.name.text();
    if !N::permits(name) {
        return Err(at(alloc, name));
    }
    let value = under(alloc, name, F::read(alloc, &member.value))?;
    Ok(Named {
        name: member.name.copy(alloc)?,
        value,
    })
}

fn map_of<N: Name, F: Form>(alloc: Global, members: &Members) -> Result<Ordered<F::Out>, BodyFault>
    ensures gives { Gives result (each_of (named N.permits F.form) members.now) }
    ensures sound { IfOk result (λ map. IsTrue (list_all (λ m. N.permits m.name && F.sound m.value) map)) }
{
    let mut found = room_for(alloc, members.len())?;
    for member in members.as_slice() {
        found.push(entry::<N, F>(alloc, member)?)?;
    }
    Ok(Ordered::of(found))
}
