//! Laws of fetches from the tier. Each is the contract of a function that does nothing: calling it
//! cites the law.

ghost use Rattle.laws_tier_fetch.specs.Turns.{AskChanges, FetchTurnsChange};
ghost use Rattle.laws_tier_fetch.specs.Runs.{FetchRunsAreLogs};
ghost use Rattle.laws_tier_fetch.specs.Damage.{DamageIsOfLogs};
ghost use Rattle.laws_tier_fetch.specs.Spans.{SpansHoldRuns};

use meta_log::MetaLog;
use object_store::Store;

/// The first turn of a fetch below its broker's local start is a change of the tier.
#[tactic(auto, using(crate::proofs::Asking::ask_changes))]
pub fn asks_change()
    ensures { AskChanges }
{}

/// Each further turn of it is changes of the tier, done or not where its call failed, and where it ran out of memory.
pub fn fetch_turns_change<S: Store, M: MetaLog>()
    ensures { FetchTurnsChange S.content S.control M.content M.control }
{}

/// A run that it answers is the one that the broker's log has at the offset.
pub fn fetch_runs_are_logs<S: Store, M: MetaLog>()
    ensures { FetchRunsAreLogs S.content S.control M.content M.control }
{}

/// Damage that a turn reports is of a segment's log, which the turn was to read: the segment, its entry, its index and
/// its log are found.
pub fn damage_is_of_logs<S: Store, M: MetaLog>()
    ensures { DamageIsOfLogs S.content S.control M.content M.control }
{}

/// The part of a segment's log that its index shows to be needed holds the run: no place of it is bad.
pub fn spans_hold_runs()
    ensures { SpansHoldRuns }
{}
