//! Forms of single values.
ghost use Rattle.std.specs.Prelude.{◌≡◌, List, ℕ, Result, Ok, IfOk, IsTrue, true, Option};
ghost use Rattle.es_tree.specs.declared.tree.Tree.{Tree};
ghost use Rattle.es_grammar.specs.Reading.{Reading, Gives};
ghost use Rattle.es_grammar.specs.Values.{text_form, spelled_form, truth_form, whole_form, is_between, any_form, object_form, is_object, nullable_form, if_given};

use crate::form::{Form, Prints, Spelled, Spelling};
use crate::places::{here, needed};
use es_base::{NoMemory, Str};
use es_tree::{BodyFault, Tree};
use std::alloc::Global;
use std::marker::PhantomData;

/// Any text.
pub struct Text;

impl Form for Text {
    type Out = Str;

    ghost form = { text_form };

    ghost sound = { λ _. true };

    fn read(alloc: Global, tree: &Tree) -> Result<Str, BodyFault> {
        match tree {
            Tree::Text(text) => Ok(text.copy(alloc)?),
            _ => Err(here(alloc)),
        }
    }
}

/// A text that spells something.
pub struct TextOf<S>(PhantomData<S>);

impl<S: Spelling> Form for TextOf<S> {
    type Out = S::Out;

    ghost form = { spelled_form S.named };

    ghost sound = { λ _. true };

    fn read(alloc: Global, tree: &Tree) -> Result<S::Out, BodyFault> {
        match tree {
            Tree::Text(text) => needed(alloc, S::parse(alloc, text.text())?),
            _ => Err(here(alloc)),
        }
    }
}

/// A truth value.
pub struct Truth;

impl Form for Truth {
    type Out = bool;

    ghost form = { truth_form };

    ghost sound = { λ _. true };

    fn read(alloc: Global, tree: &Tree) -> Result<bool, BodyFault> {
        match tree {
            Tree::Bool(truth) => Ok(*truth),
            _ => Err(here(alloc)),
        }
    }
}

/// A whole number from `LEAST` to `GREATEST`.
pub struct Whole<const LEAST: i64, const GREATEST: i64>;

impl<const LEAST: i64, const GREATEST: i64> Form for Whole<LEAST, GREATEST> {
    type Out = i64;

    ghost form = { whole_form LEAST GREATEST };

    ghost sound = { is_between LEAST GREATEST };

    fn read(alloc: Global, tree: &Tree) -> Result<i64, BodyFault> {
        match tree {
            Tree::Int(number) => {
                if *number < LEAST || GREATEST < *number {
                    return Err(here(alloc));
                }
                Ok(*number)
            }
            _ => Err(here(alloc)),
        }
    }
}

/// Any tree, kept as it is.
pub struct Any;

impl Form for Any {
    type Out = Tree;

    ghost form = { any_form };

    ghost sound = { λ _. true };

    fn read(alloc: Global, tree: &Tree) -> Result<Tree, BodyFault> {
        Ok(tree.copy(alloc)?)
    }
}

/// Any object, kept as it is.
pub struct Object;

impl Form for Object {
    type Out = Tree;

    ghost form = { object_form };

    ghost sound = { is_object };

    fn read(alloc: Global, tree: &Tree) -> Result<Tree, BodyFault> {
        match tree {
            Tree::Object(_) => Ok(tree.copy(alloc)?),
            _ => Err(here(alloc)),
        }
    }
}

/// Null, or a value of the form.
pub struct Nullable<F>(PhantomData<F>);

impl<F: Form> Form for Nullable<F> {
    type Out = Option<F::Out>;

    ghost form = { nullable_form F.form };

    ghost sound = { if_given F.sound };

    fn read(alloc: Global, tree: &Tree) -> Result<Option<F::Out>, BodyFault> {
        match tree {
            Tree::Null => Ok(None),
            _ => Ok(Some(F::read(alloc, tree)?)),
        }
    }
}
