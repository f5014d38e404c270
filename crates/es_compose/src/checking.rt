//! Descriptors with queries that were checked.
ghost use Rattle.std.specs.Prelude.{◌≡◌, Ok, codes, option_map, IfOk, IsTrue};
ghost use Rattle.es_grammar.specs.Reading.{◌>>=◌ as ◌then◌, Gives, placed};
ghost use Rattle.es_grammar.specs.Members.{inside};
ghost use Rattle.es_grammar.specs.Values.{items_of};
ghost use Rattle.es_role.specs.Descriptors.{is_sound};
ghost use Rattle.es_compose.specs.Checked.{role_query_form, role_query_tree, checked_group, checked_of, checked_form, IsChecked};

use crate::lawful::laws;
use crate::query::RoleQueryForm;
use es_base::Seq;
use es_grammar::{Form, placed, under, under_item};
use es_role::{Descriptor, DescriptorForm, IndexGroup, IndexGroups};
use es_tree::{BodyFault, Tree};
use std::alloc::Global;

fn checked_query(alloc: Global, query: Option<Tree>) -> Result<Option<Tree>, BodyFault>
    ensures { Gives result (inside (codes "query") role_query_form query then λ found. Ok (option_map role_query_tree found)) }
{
    match query {
        Some(tree) => {
            let found = under(alloc, "query", RoleQueryForm::read(alloc, &tree))?;
            Ok(Some(found.print(alloc)?))
        }
        None => Ok(None),
    }
}

fn checked_group(alloc: Global, group: IndexGroup) -> Result<IndexGroup, BodyFault>
    ensures { Gives result (checked_group group) }
{
    let IndexGroup {
        names,
        privileges,
        fields,
        query,
    } = group;
    let query = checked_query(alloc, query)?;
    Ok(IndexGroup {
        names,
        privileges,
        fields,
        query,
    })
}

fn checked_groups(alloc: Global, groups: IndexGroups) -> Result<IndexGroups, BodyFault>
    ensures { Gives result (items_of checked_group 0 groups) }
{
    let mut checked = Seq::empty(alloc);
    for group in groups.into_vec() {
        let number = checked.len();
        checked.push(under_item(alloc, number, checked_group(alloc, group))?)?;
    }
    Ok(checked)
}

#[tactic(auto, unfolding(crate::specs::Checked::checked_of))]
fn checked(alloc: Global, descriptor: Descriptor) -> Result<Descriptor, BodyFault>
    ensures { Gives result (checked_of descriptor) }
{
    let Descriptor {
        cluster,
        indices,
        run_as,
        metadata,
    } = descriptor;
    let indices = under(alloc, "indices", checked_groups(alloc, indices))?;
    Ok(Descriptor {
        cluster,
        indices,
        run_as,
        metadata,
    })
}

/// The descriptor with each query read and printed again: in its canonical form, or as a template with its source as a
/// tree. `Bad` has the place of the first that isn't a query. `place` is the descriptor's own place in what was read.
/// Nothing but the queries is made anew.
pub fn check_descriptor(
    alloc: Global,
    descriptor: Descriptor,
    place: &str,
) -> Result<Descriptor, BodyFault>
    ensures { Gives result (placed place.now (checked_of descriptor)) }
{
    placed(alloc, place, checked(alloc, descriptor))
}

/// Descriptors that are read and then checked. The faults of queries come after all others.
pub struct CheckedForm;

impl Form for CheckedForm {
    type Out = Descriptor;

    ghost form = { checked_form };

    ghost sound = { is_sound };

    #[tactic(auto, unfolding(crate::specs::Checked::checked_form))]
    fn read(alloc: Global, tree: &Tree) -> Result<Descriptor, BodyFault> {
        let descriptor = DescriptorForm::read(alloc, tree)?;
        checked(alloc, descriptor)
    }
}

/// The descriptor that the tree is, with its queries checked. `place` is the tree's own place in what was read. What is
/// printed of the descriptor is read and checked to the same.
pub fn read_checked(alloc: Global, tree: &Tree, place: &str) -> Result<Descriptor, BodyFault>
    ensures gives { Gives result (placed place.now (checked_form tree.now)) }
    ensures sound { IfOk result (λ descriptor. IsTrue (is_sound descriptor)) }
    ensures checked { IfOk result (λ descriptor. IsChecked descriptor) }
{
    laws();
    placed(alloc, place, CheckedForm::read(alloc, tree))
}
