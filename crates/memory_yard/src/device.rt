//! A device that came back: whether it has any content.

ghost use Rattle.std.specs.Prelude.{◌≡◌, ◌↔◌, IfOk, IsTrue, IsSome};
ghost use Rattle.tier_base.specs.declared.plain.FileName.{FileName};
ghost use Rattle.tier_base.specs.declared.plain.FileName.TheVariants.{Registry};
ghost use Rattle.tier_base.specs.declared.object_key.ObjectKey.{ObjectKey};
ghost use Rattle.disk_model.specs.Content as disk;
ghost use Rattle.object_store.specs.Content as store;
ghost use Rattle.memory_yard.specs.Crash.{DropsUnsynced};
ghost use Rattle.memory_yard.specs.Keeping.{disk_keeps_itself, store_keeps_itself};

use disk_model::{Disk, MemoryDisk};
use object_store::{MemoryStore, Store};
use std::alloc::{AllocError, Global};
use std::marker::Model;
use tier_base::{FileName, Trouble};

/// A device that came back.
pub trait Device: Drop {
    /// The content of one is that of the other.
    ghost keeps: { Self → Self → Type 0 };

    /// It has content.
    ghost used: { Self → Type 0 };

    /// Returns whether it has content. It is asked as one that is provided again, which can't fail.
    fn is_used(&mut self, alloc: Global) -> Result<bool, AllocError>
        ensures keeps { keeps self.old self.new }
        ensures used { IfOk result (λ answer. IsTrue answer ↔ used self.old) };

    /// A crash of one leaves the other.
    ghost crashes: { Self → Self → Type 0 };

    /// Crashes: what isn't synced is dropped.
    fn crash(&mut self, alloc: Global)
        ensures { crashes self.old self.new };

    /// A device keeps its own content.
    ghost keeps_itself: { (d : Self) → keeps d d };
}

impl Device for MemoryDisk {
    ghost keeps = { λ d e. disk.Keeps (⟦<MemoryDisk as Disk>⟧.content d) (⟦<MemoryDisk as Disk>⟧.content e) };

    ghost used = { λ d. (n : FileName) × IsSome ((⟦<MemoryDisk as Disk>⟧.content d).files n) };

    fn is_used(&mut self, alloc: Global) -> Result<bool, AllocError> {
        self.renew(Vec::new(alloc));
        match self.list() {
            Ok(names) => Ok(!names.is_empty()),
            Err(Trouble::NoMemory) => Err(AllocError),
            Err(Trouble::Failed) => unreachable!(),
        }
    }

    ghost crashes = { DropsUnsynced };

    fn crash(&mut self, alloc: Global) {
        let _ = alloc;
        MemoryDisk::crash(self);
    }

    ghost keeps_itself = { λ d. disk_keeps_itself (⟦<MemoryDisk as Disk>⟧.content d) };
}

/// The disk of a registry. It has content where the registry's file does.
#[derive(Drop)]
pub struct RegistryDisk {
    pub disk: MemoryDisk,
}

impl Model for RegistryDisk {
    ghost use Rattle.disk_model.specs.declared.memory_disk.MemoryDisk.{MemoryDisk};

    ghost Value = { MemoryDisk };

    ghost view = { λ r. r.disk };
}

impl Device for RegistryDisk {
    ghost keeps = { λ d e. disk.Keeps (⟦<MemoryDisk as Disk>⟧.content d) (⟦<MemoryDisk as Disk>⟧.content e) };

    ghost used = { λ d. IsSome ((⟦<MemoryDisk as Disk>⟧.content d).files Registry) };

    fn is_used(&mut self, alloc: Global) -> Result<bool, AllocError> {
        self.disk.renew(Vec::new(alloc));
        match self.disk.read_part(FileName::Registry, 0, 0) {
            Ok(found) => Ok(found.is_some()),
            Err(Trouble::NoMemory) => Err(AllocError),
            Err(Trouble::Failed) => unreachable!(),
        }
    }

    ghost crashes = { DropsUnsynced };

    fn crash(&mut self, alloc: Global) {
        let _ = alloc;
        self.disk.crash();
    }

    ghost keeps_itself = { λ d. disk_keeps_itself (⟦<MemoryDisk as Disk>⟧.content d) };
}

impl Device for MemoryStore {
    ghost keeps = { λ s t. store.Keeps (⟦<MemoryStore as Store>⟧.content s) (⟦<MemoryStore as Store>⟧.content t) };

    ghost used = { λ s. (k : ObjectKey) × IsSome ((⟦<MemoryStore as Store>⟧.content s).objects k) };

    fn is_used(&mut self, alloc: Global) -> Result<bool, AllocError> {
        self.renew(Vec::new(alloc));
        match self.keys() {
            Ok(keys) => Ok(!keys.is_empty()),
            Err(Trouble::NoMemory) => Err(AllocError),
            Err(Trouble::Failed) => unreachable!(),
        }
    }

    ghost crashes = { λ s t. t ≡ s };

    // An object stays once it is put.
    fn crash(&mut self, alloc: Global) {
        let _ = alloc;
    }

    ghost keeps_itself = { λ s. store_keeps_itself (⟦<MemoryStore as Store>⟧.content s) };
}
