//! Composed roles that are to be published.
ghost use Rattle.std.specs.Prelude.{◌≡◌, [], IfOk, option_map};
ghost use Rattle.std.specs.Option.{option_copied};
ghost use Rattle.es_job.specs.Due.{pair_of, due_pairs, with_pair, paired, pairs_for, rest_of, first_of};

use es_base::{NoMemory, Shared};
use es_cache::Share;
use es_compose::Role;
use es_decide::Halves;
use es_vault::{Half, HalfKeys};
use std::alloc::Global;

/// The name of a half, and its composed role.
#[derive(Drop)]
pub struct Pair {
    pub key: Half,
    pub role: Shared<Role>,
}

impl Pair {
    /// The same once more. Nothing is copied.
    pub fn share(&self, alloc: Global) -> Result<Pair, NoMemory>
        ensures { IfOk result (λ share. share ≡ self.now) }
    {
        Ok(Pair {
            key: self.key.share(alloc)?,
            role: self.role.share()?,
        })
    }
}

/// What is to be published: the composed role of a caller's first half, of the limiting one and of the target's. What was
/// published is gone.
#[derive(Drop)]
pub struct Due {
    pub first: Option<Pair>,
    pub limit: Option<Pair>,
    pub target: Option<Pair>,
}

impl Due {
    /// Nothing.
    pub fn none() -> Due
        ensures { due_pairs result ≡ [] }
    {
        Due {
            first: None,
            limit: None,
            target: None,
        }
    }

    /// The halves of these names.
    pub fn of(alloc: Global, keys: &HalfKeys, halves: &Halves) -> Result<Due, NoMemory>
        ensures { IfOk result (λ due. due_pairs due ≡ pairs_for keys.now halves.now) }
    {
        let first = Pair {
            key: keys.first.share(alloc)?,
            role: halves.first.share()?,
        };
        Ok(Due {
            first: Some(first),
            limit: pair_where(alloc, &keys.limit, &halves.limit)?,
            target: pair_where(alloc, &keys.target, &halves.target)?,
        })
    }

    /// The next one.
    pub fn next(&self) -> Option<&Pair>
        ensures { option_map pair_of (option_copied result) ≡ first_of (due_pairs self.now) }
    {
        match &self.first {
            Some(pair) => Some(pair),
            None => match &self.limit {
                Some(pair) => Some(pair),
                None => self.target.as_ref(),
            },
        }
    }

    /// All but the next one, once more.
    pub fn rest(&self, alloc: Global) -> Result<Due, NoMemory>
        ensures { IfOk result (λ due. due_pairs due ≡ rest_of (due_pairs self.now)) }
    {
        if self.first.is_some() {
            return Ok(Due {
                first: None,
                limit: share_where(alloc, &self.limit)?,
                target: share_where(alloc, &self.target)?,
            });
        }
        if self.limit.is_some() {
            return Ok(Due {
                first: None,
                limit: None,
                target: share_where(alloc, &self.target)?,
            });
        }
        Ok(Due::none())
    }
}

fn share_where(alloc: Global, pair: &Option<Pair>) -> Result<Option<Pair>, NoMemory>
    ensures { IfOk result (λ share. share ≡ pair.now) }
{
    match pair {
        Some(pair) => Ok(Some(pair.share(alloc)?)),
        None => Ok(None),
    }
}

/// The same halves once more. Nothing is copied.
pub fn share_halves(halves: &Halves) -> Result<Halves, NoMemory>
    ensures { IfOk result (λ share. share ≡ halves.now) }
{
    Ok(Halves {
        first: halves.first.share()?,
        limit: share_role(&halves.limit)?,
        target: share_role(&halves.target)?,
    })
}

fn share_role(role: &Option<Shared<Role>>) -> Result<Option<Shared<Role>>, NoMemory>
    ensures { IfOk result (λ share. share ≡ role.now) }
{
    match role {
        Some(role) => Ok(Some(role.share()?)),
        None => Ok(None),
    }
}

// A half that may be absent, with its composed role.
fn pair_where(
    alloc: Global,
    key: &Option<Half>,
    role: &Option<Shared<Role>>,
) -> Result<Option<Pair>, NoMemory>
    ensures { IfOk result (λ pair. with_pair pair [] ≡ paired key.now role.now []) }
{
    let Some(key) = key else {
        return Ok(None);
    };
    let Some(role) = role else {
        return Ok(None);
    };
    Ok(Some(Pair {
        key: key.share(alloc)?,
        role: role.share()?,
    }))
}
