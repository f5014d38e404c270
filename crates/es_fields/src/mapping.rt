//! What a rule over fields leaves of a mapping.
ghost use Rattle.std.specs.Prelude.{◌≡◌, IfOk};
ghost use Rattle.es_mapping.specs.Mappings.{IsWithin};
ghost use Rattle.es_fields.specs.Projection.{projected_mapping};

use es_base::NoMemory;
use es_glob::FieldRule;
use es_mapping::{Mapping, PathTest};
use std::alloc::Global;

/// The fields of the mapping that the rule grants.
#[tactic(auto, unfolding(crate::specs::Projection::projected_mapping))]
pub fn project_mapping(
    alloc: Global,
    rule: &FieldRule,
    mapping: &Mapping,
) -> Result<Mapping, NoMemory>
    ensures fields { IfOk result (λ projected. projected ≡ projected_mapping rule.now mapping.now) }
    ensures within { IfOk result (λ projected. IsWithin projected mapping.now) }
{
    mapping.kept(alloc, &Granted { rule })
}

// Whether a rule grants the field of a path.
#[derive(Drop)]
struct Granted<'a> {
    rule: &'a FieldRule,
}

impl PathTest for Granted<'_> {
    ghost use Rattle.es_glob.specs.Fields.{rule_grants};

    ghost holds_of = { λ granted path. rule_grants granted.rule.now path };

    fn holds(&self, path: &str) -> bool {
        self.rule.grants(path)
    }
}
