//! Laws of how many turns a command takes. Each is the contract of a function that does nothing:
//! calling it cites the law.

ghost use Rattle.laws_answers.specs.LawsOfTurns.{TurnsGoOn, OthersStay};
ghost use Rattle.laws_answers.specs.LawsOfTurns.{CommandsAreAnswered, SearchesAreAnswered};
ghost use Rattle.laws_answers.specs.LawsOfTurns.{SchedulesAnswerCommands};

use disk_model::Disk;
use meta_log::MetaLog;
use object_store::Store;

/// A turn of a command that isn't answered leaves fewer to come.
pub fn turns_go_on<D: Disk, S: Store, M: MetaLog>()
    ensures { TurnsGoOn D.Disk S.Store M.MetaLog }
{}

/// A turn leaves the other actors' states as they were.
pub fn others_stay<D: Disk, S: Store, M: MetaLog>()
    ensures { OthersStay D.Disk S.Store M.MetaLog }
{}

/// A command is answered by as many of its actor's turns as the table says, whatever the devices
/// do, and whatever turns of other actors come between.
pub fn commands_are_answered<D: Disk, S: Store, M: MetaLog>()
    ensures { CommandsAreAnswered D.Disk S.Store M.MetaLog }
{}

/// A timestamp lookup whose broker knows no high watermark past a mark is answered by two turns and four for each
/// offset below that mark, whatever the devices do.
pub fn searches_are_answered<D: Disk, S: Store, M: MetaLog>()
    ensures { SearchesAreAnswered D.Disk S.Store M.MetaLog }
{}

/// A schedule that gives its actor as many turns answers a command.
pub fn schedules_answer_commands<D: Disk, S: Store, M: MetaLog>()
    ensures { SchedulesAnswerCommands D.Disk S.Store M.MetaLog }
{}
