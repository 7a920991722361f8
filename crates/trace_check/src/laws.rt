//! A law of whole runs. It is the contract of a function that does nothing: calling it cites the law.

ghost use Rattle.trace_check.specs.Written.{RunsAreWhole};

/// The trace of a run of each partition is a whole run, where its entries can be read back.
pub fn runs_are_whole()
    ensures { RunsAreWhole }
{}
