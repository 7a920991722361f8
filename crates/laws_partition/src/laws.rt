//! Laws of worlds. Each is the contract of a function that does nothing: calling it cites the law.

ghost use Rattle.laws_partition.specs.Laws.{StepsKeepCentral, FreshIsCentral, EndsAreComplete, JoinedComeApart};

/// Each step keeps the central fact, for each opening state.
pub fn steps_keep_central()
    ensures { StepsKeepCentral }
{}

/// A fresh world has it.
pub fn fresh_is_central()
    ensures { FreshIsCentral }
{}

/// Where each actor is at its end, the journal is a complete run of the plain log.
pub fn ends_are_complete()
    ensures { EndsAreComplete }
{}

/// Checked batches that were joined come apart again.
pub fn joined_come_apart()
    ensures { JoinedComeApart }
{}
