//! Which fields a rule grants.
ghost use Rattle.std.specs.Prelude.{◌≡◌, IfOk};
ghost use Rattle.std.specs.List.{list_any};
ghost use Rattle.es_glob.specs.Fields.{pair_grants, clause_grants, clause_grants_all, rule_grants, grants_all};

use crate::set::PatternSet;
use es_base::{Copied, NoMemory, Seq, Shared};
use std::alloc::Global;

/// Fields that are granted, and exceptions.
#[derive(Debug, Drop)]
pub struct FieldPair {
    /// Patterns over the paths of the fields that are granted.
    pub grant: PatternSet,
    /// Patterns over the paths of those that aren't, though one of `grant` fits.
    pub except: PatternSet,
}

/// Pairs in order. Rules share their pairs, so that a rule made of others copies none.
pub type FieldPairs = Seq<Shared<FieldPair>>;

/// A condition on a field's path.
#[derive(Drop)]
pub enum FieldClause {
    /// Every field is granted.
    All,
    /// The fields are granted that one of the pairs grants.
    Any(FieldPairs),
}

/// Two clauses, which both have to grant a field.
#[derive(Drop)]
pub struct FieldRule {
    pub first: FieldClause,
    pub second: FieldClause,
}

impl FieldPair {
    /// An equal pair.
    pub fn copy(&self, alloc: Global) -> Result<FieldPair, NoMemory>
        ensures { IfOk result (λ copy. copy ≡ self.now) }
    {
        Ok(FieldPair {
            grant: self.grant.copy(alloc)?,
            except: self.except.copy(alloc)?,
        })
    }

    // Whether one of the patterns that grant fits the path, and none of the exceptions does.
    fn grants(&self, path: &str) -> bool
        ensures { result ≡ pair_grants self.now path.now }
    {
        self.grant.matches(path) && !self.except.matches(path)
    }
}

impl Copied for FieldPair {
    fn copied(&self, alloc: Global) -> Result<FieldPair, NoMemory> {
        self.copy(alloc)
    }
}

impl FieldClause {
    // Whether every field is granted, or one of the pairs grants this one.
    fn grants(&self, path: &str) -> bool
        ensures { result ≡ clause_grants self.now path.now }
    {
        match self {
            FieldClause::All => true,
            FieldClause::Any(pairs) => grant_one(pairs.as_slice(), path),
        }
    }

    // Whether every field is granted, whatever its path.
    fn grants_all(&self) -> bool
        ensures { result ≡ clause_grants_all self.now }
    {
        match self {
            FieldClause::All => true,
            FieldClause::Any(_) => false,
        }
    }
}

// Whether one of the pairs grants the path.
fn grant_one(pairs: &[Shared<FieldPair>], path: &str) -> bool
    ensures { result ≡ list_any (λ pair. pair_grants pair path.now) pairs.now }
{
    pairs.iter().any(|pair| pair.get().grants(path))
}

impl FieldRule {
    /// Whether the field of this path is granted. It takes no memory.
    pub fn grants(&self, path: &str) -> bool
        ensures { result ≡ rule_grants self.now path.now }
    {
        self.first.grants(path) && self.second.grants(path)
    }

    /// Whether both clauses grant every field. It takes no memory.
    pub fn grants_all(&self) -> bool
        ensures { result ≡ grants_all self.now }
    {
        self.first.grants_all() && self.second.grants_all()
    }
}
