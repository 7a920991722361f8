//! Laws of what a fetch returns. Each is the contract of a function that does nothing: calling it cites the law.

ghost use Rattle.laws_answers.specs.LawsOfFetches.{PiecesEnd, FetchesHaveCauses, NoFetchIsDamaged};
ghost use Rattle.laws_answers.specs.LawsOfFetches.{UnhinderedAreServed, UnfailingAreServed};
ghost use Rattle.laws_answers.specs.LawsOfFetches.{ReachesSpans, TurnsKeepSpans, NewHasSpans};

use disk_model::Disk;
use meta_log::MetaLog;
use object_store::Store;

/// A piece that is found by a log's leader epochs ends where a batch of that log does.
pub fn pieces_end()
    ensures { PiecesEnd }
{}

/// Over observable devices, each answer of a fetch has its cause. None is `Damaged`.
pub fn fetches_have_causes<D: Disk, S: Store, M: MetaLog>()
    ensures { FetchesHaveCauses D.Disk S.Store M.MetaLog }
{}

/// No fetch is answered `Damaged` there.
pub fn no_fetch_is_damaged<D: Disk, S: Store, M: MetaLog>()
    ensures { NoFetchIsDamaged D.Disk S.Store M.MetaLog }
{}

/// A fetch whose broker still leads, of an offset that the log start offset isn't past and the known high watermark is,
/// and that meets no fault returns a run.
pub fn unhindered_are_served<D: Disk, S: Store, M: MetaLog>()
    ensures { UnhinderedAreServed D.Disk S.Store M.MetaLog }
{}

/// Over devices of which no call can fail a fetch gets this answer where its broker still leads and may give the
/// offset.
pub fn unfailing_are_served<D: Disk, S: Store, M: MetaLog>()
    ensures { UnfailingAreServed D.Disk S.Store M.MetaLog }
{}

/// What a schedule reaches keeps what is known of what fetches have found, beside the central fact.
pub fn reaches_spans<D: Disk, S: Store, M: MetaLog>()
    ensures { ReachesSpans D.Disk S.Store M.MetaLog }
{}

/// Each turn keeps what is known of what fetches have found.
pub fn turns_keep_spans<D: Disk, S: Store, M: MetaLog>()
    ensures { TurnsKeepSpans D.Disk S.Store M.MetaLog }
{}

/// It is known of a fresh world.
pub fn new_has_spans<D: Disk, S: Store, M: MetaLog>()
    ensures { NewHasSpans D.Disk S.Store M.MetaLog }
{}
