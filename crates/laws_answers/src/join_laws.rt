//! Laws of what a join returns. Each is the contract of a function that does nothing: calling it cites the law.

ghost use Rattle.laws_answers.specs.LawsOfJoins.{JoinsHaveCauses, UnhinderedAreJoined, UnfailingAreJoined};

use disk_model::Disk;
use meta_log::MetaLog;
use object_store::Store;

/// Over observable devices, each answer of a join has its cause. None is `Damaged`.
pub fn joins_have_causes<D: Disk, S: Store, M: MetaLog>()
    ensures { JoinsHaveCauses D.Disk S.Store M.MetaLog }
{}

/// A join that nothing hinders is answered `Cut` or `Rebuilt`.
pub fn unhindered_are_joined<D: Disk, S: Store, M: MetaLog>()
    ensures { UnhinderedAreJoined D.Disk S.Store M.MetaLog }
{}

/// Over devices of which no call can fail a join gets this answer where it may continue.
pub fn unfailing_are_joined<D: Disk, S: Store, M: MetaLog>()
    ensures { UnfailingAreJoined D.Disk S.Store M.MetaLog }
{}
