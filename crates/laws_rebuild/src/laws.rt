//! Laws of rebuilds from the tier. Each is the contract of a function that does nothing: calling it
//! cites the law.

ghost use Rattle.laws_rebuild.specs.Laws.{RebuildRefreshes, LinesArePaths, NothingIsDamaged};

use meta_log::MetaLog;
use object_store::Store;

/// The turn that refreshes the view of a rebuild's broker is changes of the tier.
pub fn a_rebuild_refreshes<S: Store, M: MetaLog>()
    ensures { RebuildRefreshes M.content }
{}

/// The line that a rebuild reads is that of the path that its follower has joined, up to the wanted
/// offset.
pub fn a_rebuild_reads_its_path<S: Store>()
    ensures { LinesArePaths S.content S.control }
{}

/// A rebuild reports no damage: the segment, its entry and its epochs are found, and these are valid.
pub fn a_rebuild_finds_all<S: Store>()
    ensures { NothingIsDamaged S.content S.control }
{}
