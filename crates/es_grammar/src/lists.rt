//! Forms of lists.
ghost use Rattle.std.specs.Prelude.{◌≡◌, List, ℕ, Result, Ok, IfOk, IsTrue, true, ◌&&◌, decimal};
ghost use Rattle.std.specs.List.{list_all};
ghost use Rattle.es_tree.specs.declared.tree.Tree.{Tree};
ghost use Rattle.es_grammar.specs.Reading.{Reading, Gives, below};
ghost use Rattle.es_grammar.specs.Values.{empty_list_form, items_of, one_of, list_form, one_or_list_form, one_or_more_form, has_some};

use crate::form::Form;
use crate::places::{here, if_holds, under_item};
use es_base::Seq;
use es_tree::{BodyFault, Tree, room_for};
use std::alloc::Global;
use std::marker::PhantomData;

/// A list of values of the form.
pub struct ListOf<F>(PhantomData<F>);

impl<F: Form> Form for ListOf<F> {
    type Out = Seq<F::Out>;

    ghost form = { list_form F.form };

    ghost sound = { list_all F.sound };

    fn read(alloc: Global, tree: &Tree) -> Result<Seq<F::Out>, BodyFault> {
        match tree {
            Tree::List(trees) => items::<F>(alloc, trees.as_slice()),
            _ => Err(here(alloc)),
        }
    }
}

fn item<F: Form>(alloc: Global, number: usize, tree: &Tree) -> Result<F::Out, BodyFault>
    ensures gives { Gives result (below (decimal number) (F.form tree.now)) }
    ensures sound { IfOk result (λ value. IsTrue (F.sound value)) }
{
    under_item(alloc, number, F::read(alloc, tree))
}

/// The items in order, each of the form.
pub fn items<F: Form>(alloc: Global, trees: &[Tree]) -> Result<Seq<F::Out>, BodyFault>
    ensures gives { Gives result (items_of F.form 0 trees.now) }
    ensures sound { IfOk result (λ found. IsTrue (list_all F.sound found)) }
{
    let mut found = room_for(alloc, trees.len())?;
    for (number, tree) in trees.iter().enumerate() {
        found.push(item::<F>(alloc, number, tree)?)?;
    }
    Ok(found)
}

fn one<F: Form>(alloc: Global, tree: &Tree) -> Result<Seq<F::Out>, BodyFault>
    ensures gives { Gives result (one_of F.form tree.now) }
    ensures sound { IfOk result (λ found. IsTrue (list_all F.sound found)) }
{
    let mut found = room_for(alloc, 1)?;
    found.push(F::read(alloc, tree)?)?;
    Ok(found)
}

/// A value of the form, or a list of them.
pub struct OneOrList<F>(PhantomData<F>);

impl<F: Form> Form for OneOrList<F> {
    type Out = Seq<F::Out>;

    ghost form = { one_or_list_form F.form };

    ghost sound = { list_all F.sound };

    fn read(alloc: Global, tree: &Tree) -> Result<Seq<F::Out>, BodyFault> {
        match tree {
            Tree::List(trees) => items::<F>(alloc, trees.as_slice()),
            _ => one::<F>(alloc, tree),
        }
    }
}

/// A value of the form, or a list of at least one.
pub struct OneOrMore<F>(PhantomData<F>);

impl<F: Form> Form for OneOrMore<F> {
    type Out = Seq<F::Out>;

    ghost form = { one_or_more_form F.form };

    ghost sound = { λ found. has_some found && list_all F.sound found };

    fn read(alloc: Global, tree: &Tree) -> Result<Seq<F::Out>, BodyFault> {
        let found = OneOrList::<F>::read(alloc, tree)?;
        if_holds(alloc, !found.is_empty(), found)
    }
}

/// An empty list.
pub struct EmptyList;

impl Form for EmptyList {
    type Out = ();

    ghost form = { empty_list_form };

    ghost sound = { λ _. true };

    fn read(alloc: Global, tree: &Tree) -> Result<(), BodyFault> {
        match tree {
            Tree::List(trees) if trees.is_empty() => Ok(()),
            _ => Err(here(alloc)),
        }
    }
}
