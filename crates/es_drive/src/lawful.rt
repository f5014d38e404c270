//! What the node's answers say of one another.
ghost use Rattle.es_drive.specs.Laws.{StaticAnywhere, DeniedAnywhere, ChangesGranted, ReadsAlike, DocumentGot, EqualCounts, AnsweredAlike};

/// It does nothing. Its contract is these laws.
pub fn laws()
    ensures static_anywhere { StaticAnywhere }
    ensures denied_anywhere { DeniedAnywhere }
    ensures changes_granted { ChangesGranted }
    ensures reads_alike { ReadsAlike }
    ensures document_got { DocumentGot }
    ensures equal_counts { EqualCounts }
    ensures answered_alike { AnsweredAlike }
{}
