//! A law of what a power cut leaves. It is the contract of a function that does nothing: calling it cites the law.

ghost use Rattle.cold_state.specs.Laws.{ColdStateIsSafe};

/// The safety rules hold in what is left.
pub fn a_cold_state_is_safe()
    ensures { ColdStateIsSafe }
{}
