//! What holds of records and their changes.
ghost use Rattle.es_records.specs.Laws.{CountTells, DropsTell, StandingStays, HalvesTell, WhoIsOf, LimitsStay, NamedStays};

/// It does nothing. Its contract is these laws: equal counts of changes mean equal records; a half that the table of drops
/// keeps stands for the same descriptors; what is decided by the composed roles of a subject's halves is decided by the
/// records; a key's limits are its owner's descriptors as they were.
pub fn laws()
    ensures count_tells { CountTells }
    ensures drops_tell { DropsTell }
    ensures standing_stays { StandingStays }
    ensures halves_tell { HalvesTell }
    ensures who_is_of { WhoIsOf }
    ensures limits_stay { LimitsStay }
    ensures named_stays { NamedStays }
{}
