//! What the definitions of projections say of one another.
ghost use Rattle.es_fields.specs.Laws.{LeavesGranted, StaysOrdered, WholeMapping, TypeSeen, ValuesSeen, ValuesAlike, StaysWithin};

/// It does nothing. Its contract is these laws, for proofs that speak of what is seen of documents: a query over a
/// document under a projected mapping sees what it sees of the projection.
pub fn laws()
    ensures leaves_granted { LeavesGranted }
    ensures stays_ordered { StaysOrdered }
    ensures whole_mapping { WholeMapping }
    ensures type_seen { TypeSeen }
    ensures values_seen { ValuesSeen }
    ensures values_alike { ValuesAlike }
    ensures stays_within { StaysWithin }
{}
