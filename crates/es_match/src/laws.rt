//! Laws of the definitions.
ghost use Rattle.es_match.specs.Holds.{HoldsAlike};

/// Where the same is seen, the same queries hold: a query depends on a document and its mapping by nothing else.
pub fn holds_alike()
    ensures { HoldsAlike }
{}
