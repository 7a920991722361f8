//! Laws of the plain log. Each is the contract of a function that does nothing: calling it cites the law.

ghost use Rattle.plain_log.specs.Laws.{StepsKeepSafe, StepsGrow, ReplaysKeepSafe, FreshIsSafe};
ghost use Rattle.plain_log.specs.Laws.{EndsAreWithin, EpochsNeverFall, RunsAnswerInOrder, CommittedGrows};
ghost use Rattle.plain_log.specs.Laws.{CommittedStays, RunsAreCommitted, RunsAreLed};

/// Each step keeps the safety rules.
pub fn steps_keep_safe()
    ensures { StepsKeepSafe }
{}

/// With each step paths grow, the log start offset doesn't fall, and each broker's log grows or is cut.
pub fn steps_grow()
    ensures { StepsGrow }
{}

/// The safety rules hold where nothing has happened yet.
pub fn fresh_is_safe()
    ensures { FreshIsSafe }
{}

/// The safety rules hold after each journal that is replayed from a state in which they hold.
pub fn replays_keep_safe()
    ensures { ReplaysKeepSafe }
{}

/// No broker's log ends past the greatest log end offset, 2^62.
#[tactic(auto, using(crate::proofs::Within::broker_within))]
pub fn ends_are_within()
    ensures { EndsAreWithin }
{}

/// Along the log of a broker, and along a path, leader epochs never fall.
pub fn epochs_never_fall()
    ensures { EpochsNeverFall }
{}

/// A run answers each actor's commands once and in the order of its list.
pub fn runs_answer_in_order()
    ensures { RunsAnswerInOrder }
{}

/// No step takes back what is committed, whatever the elections before it, but for an unclean election that is answered
/// with a new epoch.
pub fn committed_grows()
    ensures { CommittedGrows }
{}

/// What is committed stays until the next unclean election that is answered with a new epoch.
pub fn committed_stays()
    ensures { CommittedStays }
{}

/// While elections are clean, each run that a fetch was given is a part of one committed list.
pub fn runs_are_committed()
    ensures { RunsAreCommitted }
{}

/// Whatever the elections, each run that a fetch was given is a part of the log of one leader epoch, whose batches are
/// consecutive from offset 0 on.
pub fn runs_are_led()
    ensures { RunsAreLed }
{}
