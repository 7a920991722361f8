//! Laws of what a copy returns. Each is the contract of a function that does nothing: calling it cites the law.

ghost use Rattle.laws_answers.specs.LawsOfCopies.{CopiesHaveCauses, CopiesBeginWhereOn};
ghost use Rattle.laws_answers.specs.LawsOfCopies.{UnhinderedAreCopied};
ghost use Rattle.laws_answers.specs.LawsOfCopies.{ChosenAreCopied, UnfailingAreCopied};
ghost use Rattle.laws_answers.specs.LawsOfCopies.{ReachesKnown, TurnsKeepKnown, NewIsKnown};

use disk_model::Disk;
use meta_log::MetaLog;
use object_store::Store;

/// Over observable devices, each answer of a copy has its cause. None is `Damaged`.
pub fn copies_have_causes<D: Disk, S: Store, M: MetaLog>()
    ensures { CopiesHaveCauses D.Disk S.Store M.MetaLog }
{}

/// A copy begins only where segments are copied.
pub fn copies_begin_where_on<D: Disk, S: Store, M: MetaLog>()
    ensures { CopiesBeginWhereOn D.Disk S.Store M.MetaLog }
{}

/// A copy that begins where segments are copied, whose broker still leads, that has a segment to copy which the log
/// start offset isn't past, and that meets no fault is answered `Copied`.
pub fn unhindered_are_copied<D: Disk, S: Store, M: MetaLog>()
    ensures { UnhinderedAreCopied D.Disk S.Store M.MetaLog }
{}

/// So is one that has chosen its segment, with the id and the offsets of that segment.
pub fn chosen_are_copied<D: Disk, S: Store, M: MetaLog>()
    ensures { ChosenAreCopied D.Disk S.Store M.MetaLog }
{}

/// Over devices of which no call can fail a copy gets this answer where it so begins, its broker still leads and there
/// is such a segment.
pub fn unfailing_are_copied<D: Disk, S: Store, M: MetaLog>()
    ensures { UnfailingAreCopied D.Disk S.Store M.MetaLog }
{}

/// What a schedule reaches keeps what is known of deletions, beside the central fact.
pub fn reaches_known<D: Disk, S: Store, M: MetaLog>()
    ensures { ReachesKnown D.Disk S.Store M.MetaLog }
{}

/// Each turn keeps what is known of deletions.
pub fn turns_keep_known<D: Disk, S: Store, M: MetaLog>()
    ensures { TurnsKeepKnown D.Disk S.Store M.MetaLog }
{}

/// It is known of a fresh world.
pub fn new_is_known<D: Disk, S: Store, M: MetaLog>()
    ensures { NewIsKnown D.Disk S.Store M.MetaLog }
{}
