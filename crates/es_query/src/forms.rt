//! The parts of a query that hold no query.
ghost use Rattle.std.specs.Prelude.{◌≡◌, true, ◌&&◌, not};
ghost use Rattle.es_tree.specs.declared.tree.Tree.{out-Tree};
ghost use Rattle.es_grammar.specs.Reading.{Gives};
ghost use Rattle.es_grammar.specs.Members.{named};
ghost use Rattle.es_grammar.specs.Values.{list_form};
ghost use Rattle.es_query.specs.Queries.{is_scalar_in, is_null_in, scalar_form, known_form, value_form, term_value_form, field_form, are_fair, bounds_of, bounds_form, exists_form, no_members_form, then_query, term_of, terms_of, range_of};

use crate::kinds::{Bounds, Query};
use es_base::Str;
use es_grammar::{
    Form, ListOf, MemberForm, Text, each, ends, if_holds, members_of, needed, only, optional,
};
use es_tree::{BodyFault, Named, Tree};
use std::alloc::Global;
use std::marker::PhantomData;

fn is_scalar(tree: &Tree) -> bool
    ensures { result ≡ is_scalar_in (out-Tree tree.now) }
{
    match tree {
        Tree::List(_) | Tree::Object(_) => false,
        _ => true,
    }
}

fn is_null(tree: &Tree) -> bool
    ensures { result ≡ is_null_in (out-Tree tree.now) }
{
    match tree {
        Tree::Null => true,
        _ => false,
    }
}

/// A text, a whole number, a truth value or null, kept as it is.
pub struct Scalar;

impl Form for Scalar {
    type Out = Tree;

    ghost form = { scalar_form };

    ghost sound = { λ _. true };

    fn read(alloc: Global, tree: &Tree) -> Result<Tree, BodyFault> {
        if_holds(alloc, is_scalar(tree), tree.copy(alloc)?)
    }
}

/// A text, a whole number or a truth value, kept as it is.
pub struct Known;

impl Form for Known {
    type Out = Tree;

    ghost form = { known_form };

    ghost sound = { λ _. true };

    fn read(alloc: Global, tree: &Tree) -> Result<Tree, BodyFault> {
        let holds = is_scalar(tree) && !is_null(tree);
        if_holds(alloc, holds, tree.copy(alloc)?)
    }
}

#[tactic(auto, unfolding(crate::specs::Queries::value_form))]
fn value_inside(alloc: Global, tree: &Tree) -> Result<Tree, BodyFault>
    ensures { Gives result (value_form tree.now) }
{
    let members = members_of(alloc, tree)?;
    let (value, members) = optional::<Known>(alloc, "value", members)?;
    ends(alloc, members)?;
    needed(alloc, value)
}

/// The value of a term: itself, or within an object as its `value`.
pub struct TermValue;

impl Form for TermValue {
    type Out = Tree;

    ghost form = { term_value_form };

    ghost sound = { λ _. true };

    fn read(alloc: Global, tree: &Tree) -> Result<Tree, BodyFault> {
        match tree {
            Tree::Object(_) => value_inside(alloc, tree),
            _ => Known::read(alloc, tree),
        }
    }
}

fn are_fair(gt: &Option<Tree>, gte: &Option<Tree>, lt: &Option<Tree>, lte: &Option<Tree>) -> bool
    ensures { result ≡ are_fair gt.now gte.now lt.now lte.now }
{
    let is_bounded = gt.is_some() || gte.is_some() || lt.is_some() || lte.is_some();
    let has_two_lower = gt.is_some() && gte.is_some();
    let has_two_upper = lt.is_some() && lte.is_some();
    is_bounded && !has_two_lower && !has_two_upper
}

fn bounds_of(gt: Option<Tree>, gte: Option<Tree>, lt: Option<Tree>, lte: Option<Tree>) -> Bounds
    ensures { result ≡ bounds_of gt gte lt lte }
{
    let low_open = gt.is_some();
    let high_open = lt.is_some();
    Bounds {
        low: gt.or(gte),
        low_open,
        high: lt.or(lte),
        high_open,
    }
}

/// Bounds: at least one, and at most one on each side.
pub struct BoundsForm;

impl Form for BoundsForm {
    type Out = Bounds;

    ghost form = { bounds_form };

    ghost sound = { λ _. true };

    #[tactic(auto, unfolding(crate::specs::Queries::bounds_form))]
    fn read(alloc: Global, tree: &Tree) -> Result<Bounds, BodyFault> {
        let members = members_of(alloc, tree)?;
        let (gt, members) = optional::<Scalar>(alloc, "gt", members)?;
        let (gte, members) = optional::<Scalar>(alloc, "gte", members)?;
        let (lt, members) = optional::<Scalar>(alloc, "lt", members)?;
        let (lte, members) = optional::<Scalar>(alloc, "lte", members)?;
        ends(alloc, members)?;
        let holds = are_fair(&gt, &gte, &lt, &lte);
        if_holds(alloc, holds, bounds_of(gt, gte, lt, lte))
    }
}

/// A field of any name, and what is asked of it.
struct FieldOf<F>(PhantomData<F>);

impl<F: Form> MemberForm for FieldOf<F> {
    type Out = Named<F::Out>;

    ghost form = { named (λ name. true) F.form };

    fn read(alloc: Global, name: &str, tree: &Tree) -> Result<Named<F::Out>, BodyFault> {
        let value = F::read(alloc, tree)?;
        Ok(Named {
            name: Str::of(alloc, name)?,
            value,
        })
    }
}

fn field<F: Form>(alloc: Global, tree: &Tree) -> Result<Named<F::Out>, BodyFault>
    ensures { Gives result (field_form F.form tree.now) }
{
    let members = members_of(alloc, tree)?;
    let found = each::<FieldOf<F>>(alloc, members)?;
    only(alloc, found)
}

/// A field, and the value that it has.
pub fn term(alloc: Global, tree: &Tree) -> Result<Query, BodyFault>
    ensures { Gives result (then_query term_of (field_form term_value_form tree.now)) }
{
    let Named { name, value } = field::<TermValue>(alloc, tree)?;
    Ok(Query::Term(name, value))
}

/// A field, and the values of which it has one.
pub fn terms(alloc: Global, tree: &Tree) -> Result<Query, BodyFault>
    ensures { Gives result (then_query terms_of (field_form (list_form scalar_form) tree.now)) }
{
    let Named { name, value } = field::<ListOf<Scalar>>(alloc, tree)?;
    Ok(Query::Terms(name, value))
}

/// A field, and the bounds of its value.
pub fn range(alloc: Global, tree: &Tree) -> Result<Query, BodyFault>
    ensures { Gives result (then_query range_of (field_form bounds_form tree.now)) }
{
    let Named { name, value } = field::<BoundsForm>(alloc, tree)?;
    Ok(Query::Range(name, value))
}

/// A field that has a value.
#[tactic(auto, unfolding(crate::specs::Queries::exists_form))]
pub fn exists(alloc: Global, tree: &Tree) -> Result<Query, BodyFault>
    ensures { Gives result (exists_form tree.now) }
{
    let members = members_of(alloc, tree)?;
    let (field, members) = optional::<Text>(alloc, "field", members)?;
    ends(alloc, members)?;
    Ok(Query::Exists(needed(alloc, field)?))
}

/// The query, of an object without members.
#[tactic(auto, unfolding(crate::specs::Queries::no_members_form))]
pub fn no_members(alloc: Global, query: Query, tree: &Tree) -> Result<Query, BodyFault>
    ensures { Gives result (no_members_form query tree.now) }
{
    let members = members_of(alloc, tree)?;
    ends(alloc, members)?;
    Ok(query)
}
