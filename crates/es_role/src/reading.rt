//! From trees to descriptors.
ghost use Rattle.std.specs.Prelude.{◌≡◌, ◌∷◌, [], IfOk, IsTrue, true, codes};
ghost use Rattle.es_grammar.specs.Reading.{Gives, placed};
ghost use Rattle.es_role.specs.Descriptors.{pair_form, group_form, descriptor_form, is_sound_group, is_sound, or_every_field};

use crate::forms::{ClusterPrivilegeName, False, IndexPrivilegeName, Nothing, PatternText};
use crate::kinds::{Descriptor, IndexGroup};
use es_base::{NoMemory, Seq};
use es_glob::{FieldPair, Pattern, PatternFault, PatternSet, Patterns};
use es_grammar::{
    Any, EmptyList, Form, ListOf, Object, OneOrList, OneOrMore, Text, TextOf, ends, if_holds,
    members_of, needed, optional, or_empty, or_no_members, placed,
};
use es_tree::{BodyFault, Tree};
use std::alloc::Global;

// The patterns that grant; an absent list grants every field.
fn or_every_field(alloc: Global, found: Option<Patterns>) -> Result<Patterns, NoMemory>
    ensures { IfOk result (λ patterns. patterns ≡ or_every_field found) }
{
    match found {
        Some(patterns) => Ok(patterns),
        None => every_field(alloc),
    }
}

// A star alone, which is a pattern, so that only want of memory refuses it.
fn every_field(alloc: Global) -> Result<Patterns, NoMemory>
    ensures { IfOk result (λ patterns. patterns ≡ codes "*" ∷ []) }
{
    let mut patterns = Seq::empty(alloc);
    match Pattern::read(alloc, "*") {
        Ok(pattern) => patterns.push(pattern)?,
        Err(PatternFault::BadPattern | PatternFault::NoMemory) => return Err(NoMemory),
    }
    Ok(patterns)
}

/// Rules over fields.
pub struct PairForm;

impl Form for PairForm {
    type Out = FieldPair;

    ghost form = { pair_form };

    ghost sound = { λ _. true };

    #[tactic(auto, unfolding(crate::specs::Descriptors::pair_form))]
    fn read(alloc: Global, tree: &Tree) -> Result<FieldPair, BodyFault> {
        let members = members_of(alloc, tree)?;
        let (except, members) = optional::<ListOf<TextOf<PatternText>>>(alloc, "except", members)?;
        let (grant, members) = optional::<ListOf<TextOf<PatternText>>>(alloc, "grant", members)?;
        ends(alloc, members)?;
        let holds = grant.is_some() || except.is_some();
        let pair = FieldPair {
            grant: PatternSet::of(or_every_field(alloc, grant)?),
            except: PatternSet::of(or_empty(alloc, except)),
        };
        if_holds(alloc, holds, pair)
    }
}

/// Members of `indices`.
pub struct GroupForm;

impl Form for GroupForm {
    type Out = IndexGroup;

    ghost form = { group_form };

    ghost sound = { is_sound_group };

    #[tactic(auto, unfolding(crate::specs::Descriptors::group_form, crate::specs::Descriptors::is_sound_group))]
    fn read(alloc: Global, tree: &Tree) -> Result<IndexGroup, BodyFault> {
        let members = members_of(alloc, tree)?;
        let (_, members) = optional::<False>(alloc, "allow_restricted_indices", members)?;
        let (fields, members) = optional::<PairForm>(alloc, "field_security", members)?;
        let (names, members) = optional::<OneOrMore<TextOf<PatternText>>>(alloc, "names", members)?;
        let (privileges, members) = optional::<OneOrList<TextOf<IndexPrivilegeName>>>(
            alloc,
            "privileges",
            members,
        )?;
        let (query, members) = optional::<Any>(alloc, "query", members)?;
        ends(alloc, members)?;
        let names = needed(alloc, names)?;
        let privileges = needed(alloc, privileges)?;
        Ok(IndexGroup {
            names: PatternSet::of(names),
            privileges,
            fields,
            query,
        })
    }
}

/// Descriptors.
pub struct DescriptorForm;

impl Form for DescriptorForm {
    type Out = Descriptor;

    ghost form = { descriptor_form };

    ghost sound = { is_sound };

    #[tactic(auto, unfolding(crate::specs::Descriptors::descriptor_form, crate::specs::Descriptors::is_sound))]
    fn read(alloc: Global, tree: &Tree) -> Result<Descriptor, BodyFault> {
        let members = members_of(alloc, tree)?;
        let (_, members) = optional::<EmptyList>(alloc, "applications", members)?;
        let (cluster, members) = optional::<ListOf<TextOf<ClusterPrivilegeName>>>(
            alloc, "cluster", members,
        )?;
        let (_, members) = optional::<Text>(alloc, "description", members)?;
        let (_, members) = optional::<Nothing>(alloc, "global", members)?;
        let (indices, members) = optional::<ListOf<GroupForm>>(alloc, "indices", members)?;
        let (metadata, members) = optional::<Object>(alloc, "metadata", members)?;
        let (_, members) = optional::<EmptyList>(alloc, "remote_cluster", members)?;
        let (_, members) = optional::<EmptyList>(alloc, "remote_indices", members)?;
        let (run_as, members) = optional::<ListOf<TextOf<PatternText>>>(alloc, "run_as", members)?;
        let (_, members) = optional::<Object>(alloc, "transient_metadata", members)?;
        ends(alloc, members)?;
        Ok(Descriptor {
            cluster: or_empty(alloc, cluster),
            indices: or_empty(alloc, indices),
            run_as: PatternSet::of(or_empty(alloc, run_as)),
            metadata: or_no_members(alloc, metadata),
        })
    }
}

impl Descriptor {
    /// The descriptor that the tree is. `place` is the tree's own place in what was read: names and numbers from the
    /// outermost value on, joined by dots. `Bad` has the place of the first fault, in the order of the members' names;
    /// a member that is wanted and absent is a fault at its object, behind those of all members.
    pub fn read(alloc: Global, tree: &Tree, place: &str) -> Result<Descriptor, BodyFault>
        ensures gives { Gives result (placed place.now (descriptor_form tree.now)) }
        ensures sound { IfOk result (λ descriptor. IsTrue (is_sound descriptor)) }
    {
        placed(alloc, place, DescriptorForm::read(alloc, tree))
    }
}
