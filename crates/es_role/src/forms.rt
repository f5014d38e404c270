//! Forms of the values in a descriptor.
ghost use Rattle.std.specs.Prelude.{◌≡◌, List, ℕ, Option, Some, IfOk, IsTrue, true};
ghost use Rattle.es_tree.specs.declared.tree.Tree.{Tree};
ghost use Rattle.es_grammar.specs.Reading.{Reading, Gives};
ghost use Rattle.es_priv.specs.Names.{index_named, index_name_of, cluster_named, cluster_name_of};
ghost use Rattle.es_role.specs.Values.{pattern_named, nothing_form, false_form};

use es_base::NoMemory;
use es_glob::{Pattern, PatternFault};
use es_grammar::{Form, Spelled, Spelling, ends, here};
use es_priv::{
    ClusterPrivilege, IndexPrivilege, cluster_name, index_name, read_cluster, read_index,
};
use es_tree::{BodyFault, Tree};
use std::alloc::Global;

/// The texts that are patterns.
pub struct PatternText;

impl Spelling for PatternText {
    type Out = Pattern;

    ghost named = { pattern_named };

    fn parse(alloc: Global, text: &str) -> Result<Option<Pattern>, NoMemory> {
        match Pattern::read(alloc, text) {
            Ok(pattern) => Ok(Some(pattern)),
            Err(PatternFault::BadPattern) => Ok(None),
            Err(PatternFault::NoMemory) => Err(NoMemory),
        }
    }
}

impl Spelled for PatternText {
    ghost spelled = { λ pattern. pattern };

    fn text(value: &Pattern) -> &str {
        value.text()
    }
}

/// The names of privileges on indices.
pub struct IndexPrivilegeName;

impl Spelling for IndexPrivilegeName {
    type Out = IndexPrivilege;

    ghost named = { index_named };

    fn parse(_alloc: Global, text: &str) -> Result<Option<IndexPrivilege>, NoMemory> {
        Ok(read_index(text))
    }
}

impl Spelled for IndexPrivilegeName {
    ghost spelled = { index_name_of };

    fn text(value: &IndexPrivilege) -> &str {
        index_name(*value)
    }
}

/// The names of privileges on the cluster.
pub struct ClusterPrivilegeName;

impl Spelling for ClusterPrivilegeName {
    type Out = ClusterPrivilege;

    ghost named = { cluster_named };

    fn parse(_alloc: Global, text: &str) -> Result<Option<ClusterPrivilege>, NoMemory> {
        Ok(read_cluster(text))
    }
}

impl Spelled for ClusterPrivilegeName {
    ghost spelled = { cluster_name_of };

    fn text(value: &ClusterPrivilege) -> &str {
        cluster_name(*value)
    }
}

/// An empty list, or an object without members.
pub struct Nothing;

impl Form for Nothing {
    type Out = ();

    ghost form = { nothing_form };

    ghost sound = { λ _. true };

    fn read(alloc: Global, tree: &Tree) -> Result<(), BodyFault> {
        match tree {
            Tree::List(items) if items.is_empty() => Ok(()),
            Tree::Object(members) => ends(alloc, members.as_slice()),
            _ => Err(here(alloc)),
        }
    }
}

/// The truth value `false`.
pub struct False;

impl Form for False {
    type Out = ();

    ghost form = { false_form };

    ghost sound = { λ _. true };

    fn read(alloc: Global, tree: &Tree) -> Result<(), BodyFault> {
        match tree {
            Tree::Bool(false) => Ok(()),
            _ => Err(here(alloc)),
        }
    }
}
