//! The laws of runs over an environment one after another. Each is the contract of a function that does nothing:
//! calling it cites the law.

ghost use Rattle.run_again.specs.Again.{RunsContinue, RefusalsContinue};

use disk_model::Disk;
use meta_log::MetaLog;
use object_store::Store;

/// A run over an environment begins in each plain state that what the environment held of its partition represents, and
/// in the fresh one where no registry was there; what the environment holds afterwards represents what is left of the
/// state that the run came to.
pub fn runs_continue<D: Disk, S: Store, M: MetaLog>()
    ensures { RunsContinue D.Disk S.Store M.MetaLog }
{}

/// After a refused run what the environment holds of each partition represents the plain state that it represented, or
/// what is left of a state to which the partition's commands lead from there. So the next run continues from one of
/// them.
pub fn refusals_continue<D: Disk, S: Store, M: MetaLog>()
    ensures { RefusalsContinue D.Disk S.Store M.MetaLog }
{}
