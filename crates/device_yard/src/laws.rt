//! Laws of environments. Each is the contract of a function that does nothing: calling it cites the law.
//!
//! They serve whoever starts a partition fresh over an environment without names: if it has no registry, no command was
//! ever answered for it, and what the environment provides has no object and no metadata event.

ghost use Rattle.device_yard.specs.Laws.{NamelessHasNoTier, TierlessIsEmpty, RegistryIsAbsent};

use disk_model::Disk;
use meta_log::MetaLog;
use object_store::Store;

/// Where nothing is named, a partition without a registry has no object and no metadata event.
pub fn nameless_has_no_tier<D: Disk, S: Store, M: MetaLog>()
    ensures { NamelessHasNoTier D.content S.content M.content }
{}

/// Of a partition without objects and metadata events an empty store and an empty metadata log are provided.
pub fn tierless_is_empty<D: Disk, S: Store, M: MetaLog>()
    ensures { TierlessIsEmpty D.content S.content M.content }
{}

/// Of a partition without a registry a disk is provided that has no registry's file.
pub fn registry_is_absent<D: Disk, S: Store, M: MetaLog>()
    ensures { RegistryIsAbsent D.content S.content M.content }
{}
