//! Laws of timestamp lookups. Each is the contract of a function that does nothing: calling it cites the law.

ghost use Rattle.laws_time_find.specs.Passed.{StartHasPassed, PassedIsKept, PassedHasNone};
ghost use Rattle.laws_time_find.specs.Turns.{SearchTurnsChange};
ghost use Rattle.laws_time_find.specs.Answers.{RunsAreSearched, SearchesGoOn, SearchesAreRight, SearchDamageIsOfLogs};

use meta_log::MetaLog;
use object_store::Store;

/// A search has gone through nothing at the log start offset, where it begins.
pub fn a_start_has_passed()
    ensures { StartHasPassed }
{}

/// What a search has gone through stays so as the log grows and the log start offset rises.
pub fn passed_is_kept()
    ensures { PassedIsKept }
{}

/// Where a search has come to the known high watermark, no offset has the timestamp.
pub fn passed_has_none()
    ensures { PassedHasNone }
{}

/// Each turn of a search among the remote segments is changes of the tier, done or not where its call failed, and where
/// it ran out of memory.
pub fn search_turns_change<S: Store, M: MetaLog>()
    ensures { SearchTurnsChange S.content S.control M.content M.control }
{}

/// A run that is searched at the cursor gives the log's first batch that isn't too early, or has none.
pub fn runs_are_searched()
    ensures { RunsAreSearched }
{}

/// Where a turn continues, all before its cursor is too early.
pub fn searches_go_on<S: Store, M: MetaLog>()
    ensures { SearchesGoOn S.content S.control M.content M.control }
{}

/// An offset that a turn answers is that of the timestamp in the broker's log.
pub fn searches_are_right<S: Store, M: MetaLog>()
    ensures { SearchesAreRight S.content S.control M.content M.control }
{}

/// Damage that a turn reports is of a segment's log, which the turn was to read.
pub fn search_damage_is_of_logs<S: Store, M: MetaLog>()
    ensures { SearchDamageIsOfLogs S.content S.control M.content M.control }
{}
