//! The laws of devices' faults in a run. Each is the contract of a function that does nothing:
//! calling it cites the law.

ghost use Rattle.laws_answers.specs.LawsOfFaults.{ReachesCounted, ReachesTold, ReachesByPlan};

use disk_model::Disk;
use meta_log::MetaLog;
use object_store::Store;

/// In the journal of a world that a schedule reaches from a fresh one, each fault of a device is
/// one that the device has counted since then.
pub fn reaches_counted<D: Disk, S: Store, M: MetaLog>()
    ensures { ReachesCounted D.Disk S.Store M.MetaLog }
{}

/// And as many faults of each device are reported as its count of them has risen by: a fault that a turn meets is what
/// its command returns.
pub fn reaches_told<D: Disk, S: Store, M: MetaLog>()
    ensures { ReachesTold D.Disk S.Store M.MetaLog }
{}

/// Over devices of which the plans alone decide which calls fail, as many calls failed as the plans
/// name of those that were made.
pub fn reaches_by_plan<D: Disk, S: Store, M: MetaLog>()
    ensures { ReachesByPlan D.Disk S.Store M.MetaLog }
{}
