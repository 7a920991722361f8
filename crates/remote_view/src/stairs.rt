//! The stairs of all epochs, each found by its epoch.
//!
//! What replaces a stair is put where room was made for it before, which takes no memory. So all the stairs that an
//! event changes are made first, and then they replace the old ones together.

ghost use Rattle.std.specs.Prelude.{◌≡◌, ◌≢◌, ◌≤◌, ◌++◌, ◌∷◌, ℕ, [], true, None, OnOk};
ghost use Rattle.std.specs.Prelude.{OnErr, IfOk, if◌then◌else◌, ◌==◌};
ghost use Rattle.remote_view.specs.Stairs.{id_at, RisesAlong, IsEndFrom};
ghost use Rattle.remote_view.specs.Laying.{in_place, IsLifted, IsTaken};
ghost use Rattle.remote_view.specs.Storing.{stair_on, has_room, replaced, HaveRoom};

use crate::epoch_ranges::EpochRanges;
use crate::tread::Tread;
use std::alloc::{AllocError, Global};
use std::collections::BTreeMap;
use tier_base::{Items, SegmentId};

/// An epoch's stair.
#[derive(Drop)]
pub(crate) struct Stair {
    pub epoch: u32,
    pub treads: EpochRanges,
}

/// The stairs.
#[derive(Drop)]
pub(crate) struct Stairs {
    treads: BTreeMap<u32, EpochRanges>,
}

impl Stairs {
    /// Empty stairs.
    pub fn new(alloc: Global) -> Stairs
        ensures { (epoch : ℕ) → stair_on result epoch ≡ [] }
    {
        Stairs {
            treads: BTreeMap::new(alloc),
        }
    }

    /// The stair of an epoch.
    pub fn stair(&self, epoch: u32) -> &[Tread]
        ensures { result.now ≡ stair_on self.now epoch }
    {
        match self.treads.get(&epoch) {
            Some(stair) => stair.treads(),
            None => &[],
        }
    }

    /// A copy of an epoch's stair.
    pub fn copy(&self, alloc: Global, epoch: u32) -> Result<EpochRanges, AllocError>
        ensures { IfOk result (λ copy. copy ≡ stair_on self.now epoch) }
    {
        match self.treads.get(&epoch) {
            Some(stair) => stair.copy(alloc),
            None => Ok(EpochRanges::new(alloc)),
        }
    }

    /// An epoch's stair without the treads of a segment, which end at an offset or before.
    pub fn lifted(
        &self,
        alloc: Global,
        epoch: u32,
        id: &SegmentId,
        end: u64,
    ) -> Result<EpochRanges, AllocError>
        requires rises { RisesAlong (stair_on self.now epoch) }
        requires ends { (o : ℕ) → end ≤ o
            → in_place id.now None (id_at (stair_on self.now epoch) o) ≡ id_at (stair_on self.now epoch) o }
        ensures { IfOk result (λ lifted. IsLifted id.now (stair_on self.now epoch) lifted) }
    {
        match self.treads.get(&epoch) {
            Some(stair) => stair.lifted(alloc, id, end),
            None => Ok(EpochRanges::new(alloc)),
        }
    }

    /// The first offset from one on that an epoch's stair has no tread for.
    pub fn end_from(&self, epoch: u32, at: u64) -> u64
        requires { RisesAlong (stair_on self.now epoch) }
        ensures { IsEndFrom (stair_on self.now epoch) at result }
    {
        match self.treads.get(&epoch) {
            Some(stair) => stair.end_from(at),
            None => at,
        }
    }

    /// Puts a tread after those of an epoch's stair. After an `Err` the stairs are as before.
    pub fn push(&mut self, alloc: Global, epoch: u32, tread: Tread) -> Result<(), AllocError>
        ensures there { OnOk result (stair_on self.new epoch ≡ stair_on self.old epoch ++ tread ∷ []) }
        ensures others { (e : ℕ) → e ≢ epoch → stair_on self.new e ≡ stair_on self.old e }
        ensures err { OnErr result ((e : ℕ) → stair_on self.new e ≡ stair_on self.old e) }
    {
        match self.treads.get_mut(&epoch) {
            Some(stair) => stair.push(tread),
            None => {
                let mut stair = EpochRanges::new(alloc);
                stair.push(tread)?;
                self.treads.insert(epoch, stair)?;
                Ok(())
            }
        }
    }

    /// Takes the first tread off an epoch's stair, where it is a segment's and ends where the segment's treads do, and
    /// returns whether it did.
    pub fn take_first(&mut self, epoch: u32, id: &SegmentId, end: u64) -> bool
        requires rises { RisesAlong (stair_on self.old epoch) }
        requires ends { (o : ℕ) → end ≤ o
            → in_place id.now None (id_at (stair_on self.old epoch) o) ≡ id_at (stair_on self.old epoch) o }
        ensures there { IsTaken result id.now (stair_on self.old epoch) (stair_on self.new epoch) }
        ensures others { (e : ℕ) → e ≢ epoch → stair_on self.new e ≡ stair_on self.old e }
    {
        match self.treads.get_mut(&epoch) {
            Some(stair) => stair.take_first(id, end),
            None => false,
        }
    }

    /// Makes room for an epoch's stair.
    pub fn reserve(&mut self, alloc: Global, epoch: u32) -> Result<(), AllocError>
        ensures same { (e : ℕ) → stair_on self.new e ≡ stair_on self.old e }
        ensures kept { (e : ℕ) → has_room self.old e ≡ true → has_room self.new e ≡ true }
        ensures ok { OnOk result (has_room self.new epoch ≡ true) }
    {
        if self.treads.contains_key(&epoch) {
            return Ok(());
        }
        self.treads.insert(epoch, EpochRanges::new(alloc))?;
        Ok(())
    }

    /// Replaces an epoch's stair, where there is room.
    fn replace(&mut self, stair: Stair)
        requires { has_room self.old stair.epoch ≡ true }
        ensures stairs { (e : ℕ) → stair_on self.new e
            ≡ (if stair.epoch == e then stair.treads else stair_on self.old e) }
        ensures room { (e : ℕ) → has_room self.old e ≡ true → has_room self.new e ≡ true }
    {
        let _ = self.treads.insert(stair.epoch, stair.treads);
    }

    /// Replaces stairs for which there is room.
    pub fn replace_all(&mut self, stairs: Items<Stair>)
        requires { HaveRoom self.old stairs }
        ensures { (e : ℕ) → stair_on self.new e ≡ replaced stairs e (stair_on self.old e) }
    {
        let mut stairs = stairs;
        while let Some(stair) = stairs.pop() {
            self.replace(stair);
        }
    }
}
