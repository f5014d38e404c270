//! From descriptors to trees.
ghost use Rattle.std.specs.Prelude.{◌≡◌, ◌++◌, IfOk, OnOk, OnErr, IsTrue, Ok};
ghost use Rattle.es_grammar.specs.Values.{list_form};
ghost use Rattle.es_role.specs.Values.{pattern_form};
ghost use Rattle.es_role.specs.Laws.{FieldsBack};
ghost use Rattle.es_role.specs.Descriptors.{pair_form, descriptor_form, is_sound};
ghost use Rattle.es_role.specs.Printed.{patterns_tree, pair_tree, fields_members, query_members, descriptor_tree};

use crate::forms::{ClusterPrivilegeName, IndexPrivilegeName, PatternText};
use crate::kinds::{Descriptor, IndexGroup};
use crate::reading::{DescriptorForm, GroupForm};
use es_base::{NoMemory, Seq};
use es_glob::{FieldPair, PatternSet};
use es_grammar::{ListOf, Object, OneOrList, OneOrMore, Prints, TextOf, add};
use es_tree::{Member, Members, Tree};
use std::alloc::Global;

fn patterns_of(alloc: Global, patterns: &PatternSet) -> Result<Tree, NoMemory>
    ensures tree { IfOk result (λ tree. tree ≡ patterns_tree patterns.now) }
    ensures reads_back { IfOk result (λ tree. list_form pattern_form tree ≡ Ok patterns.now) }
{
    ListOf::<TextOf<PatternText>>::print(alloc, patterns.patterns())
}

#[tactic(auto, using(crate::proofs::Back::pair_read))]
fn pair_of(alloc: Global, pair: &FieldPair) -> Result<Tree, NoMemory>
    ensures tree { IfOk result (λ tree. tree ≡ pair_tree pair.now) }
    ensures reads_back { IfOk result (λ tree. pair_form tree ≡ Ok pair.now) }
{
    let mut members = Seq::empty(alloc);
    let except = patterns_of(alloc, &pair.except)?;
    add(&mut members, alloc, "except", except)?;
    let grant = patterns_of(alloc, &pair.grant)?;
    add(&mut members, alloc, "grant", grant)?;
    Ok(Tree::Object(Members::of(members)))
}

fn add_fields(
    members: &mut Seq<Member>,
    alloc: Global,
    fields: &Option<FieldPair>,
) -> Result<(), NoMemory>
    ensures members { OnOk result (members.new ≡ members.old ++ fields_members fields.now) }
    ensures reads_back { OnOk result (FieldsBack fields.now) }
{
    match fields {
        Some(pair) => {
            let tree = pair_of(alloc, pair)?;
            add(members, alloc, "field_security", tree)
        }
        None => Ok(()),
    }
}

fn add_query(members: &mut Seq<Member>, alloc: Global, query: &Option<Tree>) -> Result<(), NoMemory>
    ensures { OnOk result (members.new ≡ members.old ++ query_members query.now) }
{
    match query {
        Some(query) => {
            let tree = query.copy(alloc)?;
            add(members, alloc, "query", tree)
        }
        None => Ok(()),
    }
}

impl Prints for GroupForm {
    ghost use Rattle.es_role.specs.Printed.{group_tree};

    ghost tree = { group_tree };

    fn print(alloc: Global, value: &IndexGroup) -> Result<Tree, NoMemory> {
        let mut members = Seq::empty(alloc);
        add_fields(&mut members, alloc, &value.fields)?;
        let names = OneOrMore::<TextOf<PatternText>>::print(alloc, value.names.patterns())?;
        add(&mut members, alloc, "names", names)?;
        let privileges = OneOrList::<TextOf<IndexPrivilegeName>>::print(alloc, &value.privileges)?;
        add(&mut members, alloc, "privileges", privileges)?;
        add_query(&mut members, alloc, &value.query)?;
        Ok(Tree::Object(Members::of(members)))
    }
}

impl Prints for DescriptorForm {
    ghost tree = { descriptor_tree };

    fn print(alloc: Global, value: &Descriptor) -> Result<Tree, NoMemory> {
        let mut members = Seq::empty(alloc);
        add(
            &mut members,
            alloc,
            "applications",
            Tree::List(Seq::empty(alloc)),
        )?;
        let cluster = ListOf::<TextOf<ClusterPrivilegeName>>::print(alloc, &value.cluster)?;
        add(&mut members, alloc, "cluster", cluster)?;
        let indices = ListOf::<GroupForm>::print(alloc, &value.indices)?;
        add(&mut members, alloc, "indices", indices)?;
        let metadata = Object::print(alloc, &value.metadata)?;
        add(&mut members, alloc, "metadata", metadata)?;
        let run_as = ListOf::<TextOf<PatternText>>::print(alloc, value.run_as.patterns())?;
        add(&mut members, alloc, "run_as", run_as)?;
        Ok(Tree::Object(Members::of(members)))
    }
}

impl Descriptor {
    /// The tree that the descriptor prints as, with every member that is kept. It reads back to the same.
    pub fn print(&self, alloc: Global) -> Result<Tree, NoMemory>
        ensures tree { IfOk result (λ tree. tree ≡ descriptor_tree self.now) }
        ensures reads_back { IfOk result (λ tree. IsTrue (is_sound self.now) → descriptor_form tree ≡ Ok self.now) }
    {
        DescriptorForm::print(alloc, self)
    }
}
