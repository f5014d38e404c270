//! What holds of many actors on one vault.
ghost use Rattle.es_job.specs.Core.{Core};

/// It does nothing. Its contract is the law of the core: whatever actors do, in whatever order, each call is answered by one
/// prefix of the one journal, each composed role that is cached is that of the records that stand, and no caller's places fall.
pub fn laws()
    ensures core { Core }
{}
