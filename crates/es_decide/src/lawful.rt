//! What decisions say of one another.
ghost use Rattle.es_decide.specs.Laws.{GrantedPermits, LimitNarrows, KeyIsLimited, TargetAlone, UnknownIsRefused, OneIsAlone};

/// It does nothing. Its contract is these laws.
pub fn laws()
    ensures granted_permits { GrantedPermits }
    ensures limit_only_narrows { LimitNarrows }
    ensures key_is_limited { KeyIsLimited }
    ensures target_alone { TargetAlone }
    ensures unknown_is_refused { UnknownIsRefused }
    ensures one_is_alone { OneIsAlone }
{}
