//! The rule that grammars of objects follow.
ghost use Rattle.es_grammar.specs.Rule.{ObjectFollows, sample_table, sample_form};

/// It does nothing. Its contract is the rule at a small grammar; a grammar of another crate states it at its own
/// table, by the same lemmas.
pub fn laws()
    ensures { ObjectFollows sample_table sample_form }
{}
