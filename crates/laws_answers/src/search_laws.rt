//! Laws of what a timestamp lookup returns. Each is the contract of a function that does nothing: calling it cites the
//! law.

ghost use Rattle.laws_answers.specs.LawsOfSearches.{SearchesTellDates, NoSearchIsDamaged};
ghost use Rattle.laws_answers.specs.LawsOfSearches.{UnhinderedAreFound, UnfailingAreFound, MarkedAreFound};
ghost use Rattle.laws_answers.specs.LawsOfSearches.{ReachesSearches, TurnsKeepSearches, NewHasSearches};

use disk_model::Disk;
use meta_log::MetaLog;
use object_store::Store;

/// Over observable devices, an offset that is answered is that of the timestamp in the leader's log, up
/// to the high watermark that it knows, and where none is answered there is none.
pub fn searches_tell_dates<D: Disk, S: Store, M: MetaLog>()
    ensures { SearchesTellDates D.Disk S.Store M.MetaLog }
{}

/// No search is answered `Damaged` there.
pub fn no_search_is_damaged<D: Disk, S: Store, M: MetaLog>()
    ensures { NoSearchIsDamaged D.Disk S.Store M.MetaLog }
{}

/// A search whose broker still leads, and that meets no fault, is answered `Offset` or `NoOffset`.
pub fn unhindered_are_found<D: Disk, S: Store, M: MetaLog>()
    ensures { UnhinderedAreFound D.Disk S.Store M.MetaLog }
{}

/// Over devices of which no call can fail a search gets this answer where its broker still leads.
pub fn unfailing_are_found<D: Disk, S: Store, M: MetaLog>()
    ensures { UnfailingAreFound D.Disk S.Store M.MetaLog }
{}

/// A search that nothing hinders, and whose broker knows no high watermark past a mark, gets this answer by two turns
/// and four for each offset below that mark.
pub fn marked_are_found<D: Disk, S: Store, M: MetaLog>()
    ensures { MarkedAreFound D.Disk S.Store M.MetaLog }
{}

/// What a schedule reaches keeps what is known of what searches have found, beside the central fact.
pub fn reaches_searches<D: Disk, S: Store, M: MetaLog>()
    ensures { ReachesSearches D.Disk S.Store M.MetaLog }
{}

/// Each turn keeps what is known of what searches have found.
pub fn turns_keep_searches<D: Disk, S: Store, M: MetaLog>()
    ensures { TurnsKeepSearches D.Disk S.Store M.MetaLog }
{}

/// It is known of a fresh world.
pub fn new_has_searches<D: Disk, S: Store, M: MetaLog>()
    ensures { NewHasSearches D.Disk S.Store M.MetaLog }
{}
