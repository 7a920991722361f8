//! A law of rounds of sweeps, the contract of a function that does nothing.

ghost use Rattle.yard_audit.specs.Rounds.{HandedLeavesUnder};

use device_yard::Yard;

/// What a power cut may leave of the tier that an environment provides after a round of sweeps is under a sweep from
/// what it might have left of the one that it held before.
pub fn what_is_handed_out_is_under_a_sweep<Y: Yard>()
    ensures { HandedLeavesUnder Y.D.content Y.S.content Y.M.content }
{}
