//! Laws of tiers that a run leaves, each the contract of a function that does nothing.

ghost use Rattle.laws_audit.specs.Laws.{SafeIsReadable, SafeHasLeftAtMost, SweptIsWhole};
ghost use Rattle.laws_audit.specs.Laws.{SweepKeepsCold, WholeSweepKeepsCold};

/// In a tier that is safe each object's id has an entry, and each finished copy is readable.
pub fn a_safe_tier_is_readable()
    ensures { SafeIsReadable }
{}

/// The first flaw of one, if it has any, is an object that was left.
pub fn a_safe_tier_has_left_objects_at_most()
    ensures { SafeHasLeftAtMost }
{}

/// What a sweep leaves of one is whole.
pub fn a_swept_tier_is_whole()
    ensures { SweptIsWhole }
{}

/// Where no command is in progress, what a sweep leaves that is in progress or was refused keeps the rules of the tier.
pub fn a_sweep_keeps_cold()
    ensures { SweepKeepsCold }
{}

/// So does what a sweep leaves that was done.
pub fn a_whole_sweep_keeps_cold()
    ensures { WholeSweepKeepsCold }
{}
