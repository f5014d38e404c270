//! What the definitions of reading and printing say of one another.
ghost use Rattle.es_tree.specs.Reread.{ReadsOrdered, ReadsBack};

/// It does nothing. Its contract is these laws, for proofs that speak of trees and read or print none.
pub fn laws()
    ensures read_ordered { ReadsOrdered }
    ensures read_back { ReadsBack }
{}
