//! Laws of worlds. Each is the contract of a function that does nothing: calling it cites the law.

ghost use Rattle.partition_world.specs.Left.{StepsKeepCentralLeft, LeftIsCentral, FreshIsCentralLeft};
ghost use Rattle.partition_world.specs.Answered.{TurnsAnswerFaults, HaltsMeetNoFault};
ghost use Rattle.partition_world.specs.Cold.{ReopensCentral};
ghost use Rattle.partition_world.specs.Laws.{StepsKeepCentral, FreshIsCentral, ReachesLater, EndsAreComplete};
ghost use Rattle.partition_world.specs.Laws.{ReachesInTurn, EndsAreAnswered, ReopenedRuns, ReachesLasting};
ghost use Rattle.partition_world.specs.Laws.{ReachesUnfailing, FreshIsUnfailing, ReopenedIsUnfailing};

use disk_model::Disk;
use meta_log::MetaLog;
use object_store::Store;

/// Each step keeps the central fact, for each opening state.
pub fn steps_keep_central<D: Disk, S: Store, M: MetaLog>()
    ensures { StepsKeepCentral D.Disk S.Store M.MetaLog }
{}

/// Each step keeps the central fact with whatever metadata events a power cut may leave, for each opening state.
pub fn steps_keep_left<D: Disk, S: Store, M: MetaLog>()
    ensures { StepsKeepCentralLeft D.Disk S.Store M.MetaLog }
{}

/// Where it holds so, it holds with the metadata events that are reported.
pub fn left_is_central<D: Disk, S: Store, M: MetaLog>()
    ensures { LeftIsCentral D.Disk S.Store M.MetaLog }
{}

/// A fresh world whose logs, objects and metadata events are seen has it.
pub fn fresh_is_central<D: Disk, S: Store, M: MetaLog>()
    ensures { FreshIsCentral D.Disk S.Store M.MetaLog }
{}

/// A fresh world whose logs, objects and metadata events are seen has it with whatever metadata events a power cut may
/// leave, where that is none.
pub fn fresh_is_central_left<D: Disk, S: Store, M: MetaLog>()
    ensures { FreshIsCentralLeft D.Disk S.Store M.MetaLog }
{}

/// A world that is reopened has it for each plain state that its devices represent.
pub fn reopens_central<D: Disk, S: Store, M: MetaLog>()
    ensures { ReopensCentral D.Disk S.Store M.MetaLog }
{}

/// The journal of a world that a schedule reaches from such a world is a run of the plain log from each such state.
pub fn reopened_runs<D: Disk, S: Store, M: MetaLog>()
    ensures { ReopenedRuns D.Disk S.Store M.MetaLog }
{}

/// A world that a schedule reaches is a later one.
pub fn reaches_later<D: Disk, S: Store, M: MetaLog>()
    ensures { ReachesLater D.Disk S.Store M.MetaLog }
{}

/// Where each actor is at its end, the journal is a complete run of the plain log.
pub fn ends_are_complete<D: Disk, S: Store, M: MetaLog>()
    ensures { EndsAreComplete D.Disk S.Store M.MetaLog }
{}

/// The journal of a world that a schedule reaches from a new one gives each actor's commands in turn, whatever the
/// devices.
pub fn reaches_in_turn<D: Disk, S: Store, M: MetaLog>()
    ensures { ReachesInTurn D.Disk S.Store M.MetaLog }
{}

/// Where each actor is at its end, the journal answers every command of every list, whatever the devices.
pub fn ends_are_answered<D: Disk, S: Store, M: MetaLog>()
    ensures { EndsAreAnswered D.Disk S.Store M.MetaLog }
{}

/// In a world that a schedule reaches from a new one each device has lasted, whatever the devices.
pub fn reaches_lasting<D: Disk, S: Store, M: MetaLog>()
    ensures { ReachesLasting D.Disk S.Store M.MetaLog }
{}

/// A turn that returns a fault of a device has raised that device's count of faults by one, and no other count has
/// risen, whatever the devices.
pub fn turns_answer_faults<D: Disk, S: Store, M: MetaLog>()
    ensures { TurnsAnswerFaults D.Disk S.Store M.MetaLog }
{}

/// A turn that finds no memory has met no fault: each device's count is as it was, whatever the devices.
pub fn halts_meet_no_fault<D: Disk, S: Store, M: MetaLog>()
    ensures { HaltsMeetNoFault D.Disk S.Store M.MetaLog }
{}

/// Over devices of which no call can fail, no turn that a schedule leads through returns a fault.
pub fn reaches_unfailing<D: Disk, S: Store, M: MetaLog>()
    ensures { ReachesUnfailing D.Disk S.Store M.MetaLog }
{}

/// A fresh world is on such devices where no call is planned to fail.
pub fn fresh_is_unfailing<D: Disk, S: Store, M: MetaLog>()
    ensures { FreshIsUnfailing D.Disk S.Store M.MetaLog }
{}

/// And so does one that is reopened.
pub fn reopened_is_unfailing<D: Disk, S: Store, M: MetaLog>()
    ensures { ReopenedIsUnfailing D.Disk S.Store M.MetaLog }
{}
