//! The counts of an environment: its faults, the last first name, how devices came back, and what registries' disks
//! were read as.

ghost use Rattle.std.specs.Prelude.{◌≡◌, ◌↔◌, ◌+◌, ◌<◌, ◌≤◌, ◌^◌, if◌then◌else◌, Ok, None, IfOk, OnOk};
ghost use Rattle.tier_base.specs.Counts.{counted};
ghost use Rattle.tier_base.specs.Device.{Fault, fate_of};
ghost use Rattle.device_yard.specs.Control.{IsFreshYard, NamesFirst, AsksYard, Hands};
ghost use Rattle.device_yard.specs.Control.{Withdraws, TakesBack, TakesRegistry};

use crate::came::Came;
use crate::read_registry::ReadRegistry;
use std::alloc::{AllocError, Global};
use std::marker::Model;
use tier_base::{Blob, Trouble};

/// What an environment has counted. There is room for each device that is out to come back.
#[derive(Drop)]
pub struct YardCounts {
    alloc: Global,
    faults: u64,
    named: Option<Blob>,
    returned: Vec<Came>,
    registries: Vec<ReadRegistry>,
    out: usize,
}

impl Model for YardCounts {
    ghost use Rattle.std.specs.Prelude.{◌+◌, ◌≤◌, vec_len, vec_capacity};
    ghost use Rattle.device_yard.specs.Control.{Control};

    ghost Value = { Control };

    ghost view = { λ y. record {
      faults = y.faults;
      named = y.named;
      returned = y.returned.items;
      registries = y.registries.items;
      out = y.out;
    } };

    ghost invariant = { λ y. (vec_len y.returned + y.out ≤ vec_capacity y.returned)
        × (vec_len y.registries + y.out ≤ vec_capacity y.registries) };
}

impl YardCounts {
    /// Counts nothing yet, without memory.
    pub fn new(alloc: Global) -> YardCounts
        ensures fresh { IsFreshYard result }
        ensures named { result.named ≡ None }
    {
        YardCounts {
            alloc,
            faults: 0,
            named: None,
            returned: Vec::new(alloc),
            registries: Vec::new(alloc),
            out: 0,
        }
    }

    /// Counts the faults of the environment.
    pub fn faults(&self) -> u64
        ensures { result ≡ self.now.faults }
    {
        self.faults
    }

    /// Counts the devices that are out.
    pub fn out(&self) -> usize
        ensures is { result ≡ self.now.out }
        ensures small { result + 1 < 2 ^ 64 }
    {
        self.out
    }

    /// Lends how the devices came back.
    pub fn returned(&self) -> &[Came]
        ensures { result.now ≡ self.now.returned }
    {
        self.returned.as_slice()
    }

    /// Lends what the registries' disks last returned, in the order in which they came back.
    pub fn registries(&self) -> &[ReadRegistry]
        ensures { result.now ≡ self.now.registries }
    {
        self.registries.as_slice()
    }

    /// Records the first name as it was found, and returns it. Fails if a device call fails or memory runs out.
    pub fn name(&mut self, found: Result<Option<Blob>, Trouble>) -> Result<Option<Blob>, Trouble>
        ensures names { NamesFirst result self.old self.new }
        ensures found { IfOk result (λ name. found ≡ Ok name) }
        ensures failed { (fate_of result ≡ Fault) ↔ (fate_of found ≡ Fault) }
    {
        match found {
            Ok(name) => {
                let copy = copied(self.alloc, &name)?;
                self.named = copy;
                Ok(name)
            }
            Err(trouble) => {
                raise_if(&mut self.faults, trouble == Trouble::Failed);
                Err(trouble)
            }
        }
    }

    /// Counts a call that provides nothing, and returns what it found. Fails if a device call fails or memory runs out.
    pub fn ask<T: Drop>(&mut self, found: Result<T, Trouble>) -> Result<T, Trouble>
        ensures asks { AsksYard (fate_of found) self.old self.new }
        ensures found { result ≡ found }
    {
        let failed = matches!(&found, Err(Trouble::Failed));
        raise_if(&mut self.faults, failed);
        found
    }

    /// Counts a device that is provided, if it was made. Fails if a device call fails or memory runs out.
    pub fn hand<T: Drop>(&mut self, made: Result<T, Trouble>) -> Result<T, Trouble>
        ensures hands { Hands (fate_of result) self.old self.new }
        ensures made { IfOk result (λ device. made ≡ Ok device) }
        ensures failed { (fate_of result ≡ Fault) ↔ (fate_of made ≡ Fault) }
    {
        match made {
            Ok(device) => {
                self.returned.reserve(self.out + 1)?;
                // Whatever device is out may come back as a registry's disk.
                self.registries.reserve(self.out + 1)?;
                self.out += 1;
                Ok(device)
            }
            Err(trouble) => {
                raise_if(&mut self.faults, trouble == Trouble::Failed);
                Err(trouble)
            }
        }
    }

    /// Counts a device no longer that couldn't be opened.
    pub fn withdraw(&mut self, why: Trouble)
        requires { 1 ≤ self.old.out }
        ensures { Withdraws why self.old self.new }
    {
        raise_if(&mut self.faults, why == Trouble::Failed);
        self.out -= 1;
    }

    /// Counts a device that comes back.
    pub fn take_back(&mut self, came: Came)
        requires { 1 ≤ self.old.out }
        ensures { TakesBack came self.old self.new }
    {
        raise_if(&mut self.faults, came.is_fault());
        self.returned.push_reserved(came);
        self.out -= 1;
    }

    /// Counts a registry's disk that comes back, and records what it last returned.
    pub fn take_registry(&mut self, came: Came, read: ReadRegistry)
        requires { 1 ≤ self.old.out }
        ensures { TakesRegistry came read self.old self.new }
    {
        raise_if(&mut self.faults, came.is_fault());
        self.returned.push_reserved(came);
        self.registries.push_reserved(read);
        self.out -= 1;
    }
}

/// Counts a fault, where there is one.
fn raise_if(faults: &mut u64, is_fault: bool)
    ensures { faults.new ≡ (if is_fault then counted faults.old 1 else faults.old) }
{
    if is_fault {
        *faults = faults.saturating_add(1);
    }
}

/// The same name.
fn copied(alloc: Global, name: &Option<Blob>) -> Result<Option<Blob>, AllocError>
    ensures { IfOk result (λ copy. copy ≡ name.now) }
{
    match name {
        Some(name) => Ok(Some(Blob::from_slice(alloc, name.as_slice())?)),
        None => Ok(None),
    }
}
