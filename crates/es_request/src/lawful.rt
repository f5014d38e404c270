//! What the definitions of bodies say of mappings that are printed.
ghost use Rattle.es_request.specs.Laws.{CreationReadsBack, BodyReadsBack, TextReadsBack};

/// It does nothing. Its contract is these laws.
pub fn laws()
    ensures reads_back { CreationReadsBack }
    ensures body_reads_back { BodyReadsBack }
    ensures text_reads_back { TextReadsBack }
{}
