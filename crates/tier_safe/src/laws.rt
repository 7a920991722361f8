//! Laws of the tier's safety. Each is the contract of a function that does nothing: calling it
//! cites the law.

ghost use Rattle.tier_safe.specs.Laws.{ChangesKeepSafe, AnswersKeepSafe, SegmentsAreSources};
ghost use Rattle.tier_safe.specs.Laws.{FreshIsSafe, DroppedIsKept, FinishedIsKept};
ghost use Rattle.tier_safe.specs.Reads.{LackingIsFound, AskedIsFound, FoundStands, ReachedIsCovered};
ghost use Rattle.tier_safe.specs.Reads.{WantedIsFound, FetchesAreServed, RebuildsAreServed};
ghost use Rattle.tier_safe.specs.Turns.{CopyTurnsChange, ExpiryTurnsChange, RefreshesChange, HaltsChange};

use meta_log::MetaLog;
use object_store::Store;

/// The rules of the plain log and of the tier hold where nothing has happened yet.
#[tactic(auto, using(crate::proofs::FreshLaw::fresh_both))]
pub fn fresh_is_safe()
    ensures { FreshIsSafe }
{}

/// Changes keep the rules of the plain log and of the tier.
#[tactic(auto, using(crate::proofs::Kept::all_kept))]
pub fn changes_keep_safe()
    ensures { ChangesKeepSafe }
{}

/// So does a turn that is answered: changes, and then a step of the plain log that changes no broker.
pub fn answers_keep_safe()
    ensures { AnswersKeepSafe }
{}

/// A closed segment of a leader's log may be copied.
#[tactic(auto, using(crate::proofs::Sources::segments_are_sources))]
pub fn a_leaders_segments_are_sources()
    ensures { SegmentsAreSources }
{}

/// Each turn of a copy is changes of the tier, done or not where its call failed.
pub fn copy_turns_change<S: Store, M: MetaLog>()
    ensures { CopyTurnsChange S.content S.control M.content M.control }
{}

/// Each turn of an expiry is too.
pub fn expiry_turns_change<S: Store, M: MetaLog>()
    ensures { ExpiryTurnsChange S.content S.control M.content M.control }
{}

/// A refresh of a broker's view is changes of the tier, and takes all metadata events.
pub fn refreshes_change<S: Store, M: MetaLog>()
    ensures { RefreshesChange M.content }
{}

/// So is one that stopped because memory ran out.
pub fn halts_change<S: Store, M: MetaLog>()
    ensures { HaltsChange M.content }
{}

/// A finished copy of the log's own lineage has each offset, from the log start offset on, that a local log lacks.
#[tactic(auto, using(crate::proofs::Promises::dropped_kept))]
pub fn dropped_is_kept()
    ensures { DroppedIsKept }
{}

/// The objects of a copy that was finished exist until it ends below the log start offset.
#[tactic(auto, using(crate::proofs::Promises::finished_kept))]
pub fn finished_is_kept()
    ensures { FinishedIsKept }
{}

/// A broker that has seen all metadata events finds each offset, from the log start offset on, that its local log
/// lacks.
pub fn what_a_log_lacks_is_found()
    ensures { LackingIsFound }
{}

/// A fetch whose broker still leads and has seen all metadata events finds what it reads from.
#[tactic(auto, using(crate::proofs::Lookups::asked_is_found))]
pub fn what_is_asked_for_is_found()
    ensures { AskedIsFound }
{}

/// What is found in a view is of a finished copy, and one with the log whose line was looked up.
pub fn what_is_found_stands()
    ensures { FoundStands }
{}

/// Each offset up to the end that pieces reach, one after another, is covered.
#[tactic(auto, using(crate::proofs::Lookups::reached_is_covered))]
pub fn what_is_reached_is_covered()
    ensures { ReachedIsCovered }
{}

/// A rebuild that has refreshed finds the remote segment of the last offset below the wanted one.
pub fn what_a_rebuild_wants_is_found()
    ensures { WantedIsFound }
{}

/// What a fetch reads from the tier is its log's.
#[tactic(auto, using(crate::proofs::Serving::fetches_served))]
pub fn fetches_are_served()
    ensures { FetchesAreServed }
{}

/// What a rebuild reads from the tier is the path's.
#[tactic(auto, using(crate::proofs::Serving::rebuilds_served))]
pub fn rebuilds_are_served()
    ensures { RebuildsAreServed }
{}
