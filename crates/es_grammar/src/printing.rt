//! From values to trees.
ghost use Rattle.std.specs.Prelude.{◌≡◌, ◌++◌, ◌∷◌, [], map, IfOk, OnOk, OnErr, IsTrue, Ok, ◌&&◌};
ghost use Rattle.std.specs.List.{list_all};
ghost use Rattle.std.proofs.Common.{rules};
ghost use Rattle.es_tree.specs.declared.tree.Tree.{the_lemmas};
ghost use Rattle.es_grammar.specs.Values.{items_of};
ghost use Rattle.es_grammar.specs.Members.{each_of, named};
ghost use Rattle.es_grammar.specs.Printing.{list_tree, member_tree, named_tree, map_tree, single, nullable_tree};

use crate::form::{Form, Name, Prints, PrintsValue, Spelled, Spelling};
use crate::lists::{ListOf, OneOrList, OneOrMore};
use crate::maps::MapOf;
use crate::values::{Any, Nullable, Object, Text, TextOf, Truth, Whole};
use es_base::{NoMemory, Seq, Str};
use es_tree::{Member, Members, Named, Ordered, Tree, Trees, room_for};
use std::alloc::Global;

/// One member more.
pub fn add(
    members: &mut Seq<Member>,
    alloc: Global,
    name: &str,
    value: Tree,
) -> Result<(), NoMemory>
    ensures ok { OnOk result (members.new ≡ members.old ++ member_tree name.now value ∷ []) }
    ensures err { OnErr result (members.new ≡ members.old) }
{
    let name = Str::of(alloc, name)?;
    members.push(Member { name, value })
}

/// An object of one member.
pub fn single(alloc: Global, name: &str, value: Tree) -> Result<Tree, NoMemory>
    ensures { IfOk result (λ printed. printed ≡ single name.now value) }
{
    let mut members = Members::empty(alloc);
    let name = Str::of(alloc, name)?;
    members.push(Member { name, value })?;
    Ok(Tree::Object(members))
}

impl Prints for Text {
    ghost use Rattle.es_tree.specs.declared.tree.Tree.{Text};

    ghost tree = { Text };

    fn print(alloc: Global, value: &Str) -> Result<Tree, NoMemory> {
        Ok(Tree::Text(value.copy(alloc)?))
    }
}

impl<S: Spelled> Prints for TextOf<S> {
    ghost use Rattle.es_tree.specs.declared.tree.Tree.{Text};

    ghost tree = { λ value. Text (S.spelled value) };

    fn print(alloc: Global, value: &S::Out) -> Result<Tree, NoMemory> {
        Ok(Tree::Text(Str::of(alloc, S::text(value))?))
    }
}

impl Prints for Truth {
    ghost use Rattle.es_tree.specs.declared.tree.Tree.{Bool};

    ghost tree = { Bool };

    fn print(_alloc: Global, value: &bool) -> Result<Tree, NoMemory> {
        Ok(Tree::Bool(*value))
    }
}

impl<const LEAST: i64, const GREATEST: i64> Prints for Whole<LEAST, GREATEST> {
    ghost use Rattle.es_tree.specs.declared.tree.Tree.{Int};

    ghost tree = { Int };

    fn print(_alloc: Global, value: &i64) -> Result<Tree, NoMemory> {
        Ok(Tree::Int(*value))
    }
}

impl Prints for Any {
    ghost tree = { λ value. value };

    fn print(alloc: Global, value: &Tree) -> Result<Tree, NoMemory> {
        value.copy(alloc)
    }
}

impl Prints for Object {
    ghost tree = { λ value. value };

    fn print(alloc: Global, value: &Tree) -> Result<Tree, NoMemory> {
        value.copy(alloc)
    }
}

impl PrintsValue for Text {
    ghost never_null = { λ _ _. Prim.search (rules, the_lemmas) };
}

impl<F: PrintsValue> Prints for Nullable<F> {
    ghost tree = { nullable_tree F.tree };

    fn print(alloc: Global, value: &Option<F::Out>) -> Result<Tree, NoMemory> {
        match value {
            Some(value) => F::print(alloc, value),
            None => Ok(Tree::Null),
        }
    }
}

/// The trees of the items.
pub fn trees<F: Prints>(alloc: Global, items: &[F::Out]) -> Result<Trees, NoMemory>
    ensures trees { IfOk result (λ trees. trees ≡ map F.tree items.now) }
    ensures reads_back { IfOk result (λ trees. IsTrue (list_all F.sound items.now) → items_of F.form 0 trees ≡ Ok items.now) }
{
    let mut found = room_for(alloc, items.len())?;
    for item in items {
        found.push(F::print(alloc, item)?)?;
    }
    Ok(found)
}

impl<F: Prints> Prints for ListOf<F> {
    ghost tree = { list_tree F.tree };

    fn print(alloc: Global, value: &Seq<F::Out>) -> Result<Tree, NoMemory> {
        Ok(Tree::List(trees::<F>(alloc, value.as_slice())?))
    }
}

impl<F: Prints> Prints for OneOrList<F> {
    ghost tree = { list_tree F.tree };

    fn print(alloc: Global, value: &Seq<F::Out>) -> Result<Tree, NoMemory> {
        Ok(Tree::List(trees::<F>(alloc, value.as_slice())?))
    }
}

impl<F: Prints> Prints for OneOrMore<F> {
    ghost tree = { list_tree F.tree };

    fn print(alloc: Global, value: &Seq<F::Out>) -> Result<Tree, NoMemory> {
        Ok(Tree::List(trees::<F>(alloc, value.as_slice())?))
    }
}

fn entry_of<F: Prints>(alloc: Global, entry: &Named<F::Out>) -> Result<Member, NoMemory>
    ensures entry { IfOk result (λ member. member ≡ named_tree F.tree entry.now) }
    ensures reads_back { IfOk result (λ member. IsTrue (F.sound entry.now.value) → F.form member.value ≡ Ok entry.now.value) }
{
    Ok(Member {
        name: entry.name.copy(alloc)?,
        value: F::print(alloc, &entry.value)?,
    })
}

fn entries<N: Name, F: Prints>(alloc: Global, values: &Ordered<F::Out>) -> Result<Members, NoMemory>
    ensures entries { IfOk result (λ members. members ≡ map (named_tree F.tree) values.now) }
    ensures reads_back { IfOk result (λ members. IsTrue (list_all (λ m. N.permits m.name && F.sound m.value) values.now) → each_of (named N.permits F.form) members ≡ Ok values.now) }
{
    let mut found = room_for(alloc, values.len())?;
    for entry in values.as_slice() {
        found.push(entry_of::<F>(alloc, entry)?)?;
    }
    Ok(Members::of(found))
}

impl<N: Name, F: Prints> Prints for MapOf<N, F> {
    ghost tree = { map_tree F.tree };

    fn print(alloc: Global, value: &Ordered<F::Out>) -> Result<Tree, NoMemory> {
        Ok(Tree::Object(entries::<N, F>(alloc, value)?))
    }
}
