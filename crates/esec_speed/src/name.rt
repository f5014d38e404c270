//! A key.
ghost use Rattle.std.specs.Prelude.{◌≡◌, nat_eq, ◌&&◌};
ghost use Rattle.std.proofs.Common.{rules};
ghost use Rattle.std.specs.Cmp.Lexicographic.{pointwise};
ghost use Rattle.std.specs.Cmp.Rules.{comparing, hashing};
ghost use Rattle.std.specs.Ordering.{on, eq_of_both};
ghost use Rattle.std.specs.Hash as fed;

use es_base::{NoMemory, Str};
use es_cache::Share;
use std::alloc::Global;
use std::hash::{Hash, Hasher};

/// A text of a user.
#[derive(Debug, Drop)]
pub struct Name {
    /// The text.
    pub text: Str,
    /// The user.
    pub user: u64,
}

impl PartialEq for Name {
    ghost eq = { eq_of_both (on (λ x. x.user) nat_eq) (on (λ x. x.text) (pointwise nat_eq)) };

    ghost laws = { Prim.search (comparing, rules) };

    fn eq(&self, other: &Name) -> bool {
        self.user == other.user && self.text.text() == other.text.text()
    }
}

impl Eq for Name {
    ghost laws = { Prim.search (comparing, rules) };
}

impl Hash for Name {
    ghost hash_input = { λ x. fed.str x.text };

    ghost respects_eq = { Prim.search (hashing, rules) };

    fn hash<H: Hasher>(&self, state: &mut H) {
        self.text.text().hash(state);
    }
}

impl Share for Name {
    fn share(&self, alloc: Global) -> Result<Name, NoMemory> {
        Ok(Name {
            text: self.text.copy(alloc)?,
            user: self.user,
        })
    }
}
