//! Laws of what a power cut leaves. Each is the contract of a function that does nothing: calling it
//! cites the law.

ghost use Rattle.cold_start.specs.ColdWorld.{PowerCutKeepsCentral, PowerCutLeavesCold};
ghost use Rattle.cold_start.specs.ColdWorld.{PowerCutKeepsCold, RunsGoOn, ClosedAreLeft};
ghost use Rattle.cold_start.specs.Cuts.{CrashedDiskIsCut, KeptDiskIsCut, KeptLogIsCut, ReopenedLogIsCut};
ghost use Rattle.cold_start.specs.FileLaws.{FileLaws};
ghost use Rattle.cold_start.specs.Laws.{ColdTierIsSafe, ColdIsCentral, ColdBrokerTiersAreSeen, RegistriesKeepRules};
ghost use Rattle.cold_start.specs.Moments.{StepsWorkOnOne};
ghost use Rattle.cold_start.specs.Stepping.{StepsChangeOne};
ghost use Rattle.cold_start.specs.SweptWorld.{SweepKeepsCentral, KeptStoreIsCut};

use disk_model::Disk;
use meta_log::MetaLog;
use object_store::Store;
use registry::{
    a_registry_comes_back_from_its_view, a_view_keeps_the_rules_where_its_registry_does,
};
use registry_file::a_written_view_is_read_again;

/// The tier that a power cut leaves beside a plain state keeps its rules.
pub fn a_cold_tier_is_safe()
    ensures { ColdTierIsSafe }
{}

/// A partition with new lists and an empty journal, over what a power cut left, has the central fact
/// for what is left of the plain state.
pub fn a_cold_partition_is_central()
    ensures { ColdIsCentral }
{}

/// What its brokers know of the tier is what those of the cold tier know: nothing.
pub fn cold_broker_tiers_are_seen()
    ensures { ColdBrokerTiersAreSeen }
{}

/// After a power cut of everything between two turns, a world that is reopened over what it left has the central fact
/// for what is left of the plain state, whatever metadata events are left.
pub fn a_power_cut_keeps_central<D: Disk, S: Store, M: MetaLog>()
    ensures { PowerCutKeepsCentral D.Disk S.Store M.MetaLog }
{}

/// After a sweep between two runs, whole or refused, such a world has the central fact for the same
/// opening state.
pub fn a_sweep_keeps_central<D: Disk, S: Store, M: MetaLog>()
    ensures { SweepKeepsCentral D.Disk S.Store M.MetaLog }
{}

/// A store that is provided again with each object that it had is as a power cut leaves it.
pub fn a_kept_store_is_cut()
    ensures { KeptStoreIsCut }
{}

/// A disk that crashed is as a power cut leaves it.
pub fn a_crashed_disk_is_cut<D: Disk>()
    ensures { CrashedDiskIsCut D.Disk }
{}

/// A disk that is provided again with each file that it had is as a power cut leaves it.
pub fn a_kept_disk_is_cut<D: Disk>()
    ensures { KeptDiskIsCut D.Disk }
{}

/// A metadata log that is provided again with each metadata event that it had is as a power cut leaves it.
pub fn a_kept_log_is_cut<M: MetaLog>()
    ensures { KeptLogIsCut M.MetaLog }
{}

/// A metadata log that is opened from what a power cut left of another one's disk is as a power cut
/// leaves that one.
pub fn a_reopened_log_is_cut<D: Disk>()
    ensures { ReopenedLogIsCut D.Disk }
{}

/// A power cut of everything between two turns leaves devices that represent what is left of the plain state, whatever
/// metadata events a further power cut leaves.
pub fn a_power_cut_leaves_cold<D: Disk, S: Store, M: MetaLog>()
    ensures { PowerCutLeavesCold D.Disk S.Store M.MetaLog }
{}

/// A power cut of devices that represent a plain state leaves devices that represent it.
pub fn a_power_cut_keeps_cold<D: Disk, S: Store, M: MetaLog>()
    ensures { PowerCutKeepsCold D.Disk S.Store M.MetaLog }
{}

/// The disks that a closed partition gives back are such as a power cut may leave.
pub fn closed_disks_are_left<D: Disk>()
    ensures { ClosedAreLeft D.Disk }
{}

/// A step changes the registry or a device, and not both.
pub fn a_step_changes_the_registry_or_a_device<D: Disk, S: Store, M: MetaLog>()
    ensures { StepsChangeOne D.Disk S.Store M.MetaLog }
{}

/// A step works on one device at most.
pub fn a_step_works_on_one_device<D: Disk, S: Store, M: MetaLog>()
    ensures { StepsWorkOnOne D.Disk S.Store M.MetaLog }
{}

/// The registry of a world of at most 8 brokers that has the central fact keeps the rules of its file.
pub fn registries_keep_the_rules<D: Disk, S: Store, M: MetaLog>()
    ensures { RegistriesKeepRules D.Disk S.Store M.MetaLog }
{}

/// After a power cut of everything between two turns a run continues from what is left of the plain
/// state.
pub fn a_run_goes_on<D: Disk, S: Store, M: MetaLog>()
    ensures { RunsGoOn D.Disk S.Store M.MetaLog }
{}

/// The laws of the registry's file that an opening goes by.
pub(crate) fn file_laws()
    ensures { FileLaws }
{
    a_registry_comes_back_from_its_view();
    a_view_keeps_the_rules_where_its_registry_does();
    a_written_view_is_read_again();
}
