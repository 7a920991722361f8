//! The faults of a device in memory: a plan of calls that are to fail, a fuse, and counts of calls.
//!
//! A device asks how a call is going to end, does as much of it as is to be done, and counts it
//! last: so a call that finds no memory is never counted, and nothing has to be undone.
//!
//! Where the numbers of a kind's calls don't fall along the plan, the next one of them is known, and no
//! call looks through the plan.

ghost use Rattle.std.specs.Prelude.{◌≡◌, ◌≤◌, ◌↔◌, [], List, ℕ, true, not, ◌&&◌};
ghost use Rattle.std.specs.Prelude.{if◌then◌else◌, None, is_some, IsTrue, OnOk};
ghost use Rattle.tier_base.specs.Counts.{counted};
ghost use Rattle.tier_base.specs.Device.{Went, made_after, Ran, MayBeDone, Arms, IsFreshDevice, failing};
ghost use Rattle.tier_base.specs.Faults.{Faults, is_done, count_of, faults_of, ending_at};
ghost use Rattle.tier_base.specs.Faults.{goes_well, has_none, shorter, control_of};

use crate::ending::Ending;
use crate::fault::Failed;
use crate::nexts::{all_nexts, count_if, fit, said};
use crate::planned::{CallKind, Planned};
use std::marker::Model;

/// The faults that a device in memory is to have, and those it had.
#[derive(Drop)]
pub struct FaultPlan<K: CallKind> {
    plan: Vec<Planned<K>>,
    armed: bool,
    counts: [u64; 8],
    nexts: [Option<usize>; 8],
    fuse: Option<u64>,
    scripted: bool,
    faults: u64,
}

impl<K: CallKind> Model for FaultPlan<K> {
    ghost use Rattle.tier_base.specs.Faults.{Faults, AreFaultsSound};
    ghost use Rattle.tier_base.specs.Nexts.{AreNext};

    ghost Value = { Faults K };

    ghost view = { λ f. record {
      plan = f.plan.items;
      armed = f.armed;
      counts = f.counts;
      fuse = f.fuse;
      scripted = f.scripted;
      faults = f.faults;
    } };

    ghost invariant = { λ f. AreNext K.code f.plan.items f.counts f.nexts
        × AreFaultsSound K.code (record {
          plan = f.plan.items;
          armed = f.armed;
          counts = f.counts;
          fuse = f.fuse;
          scripted = f.scripted;
          faults = f.faults;
        }) };
}

impl<K: CallKind> FaultPlan<K> {
    /// Makes a plan that isn't armed yet, without memory.
    pub fn new(plan: Vec<Planned<K>>) -> FaultPlan<K>
        ensures plan { result.plan ≡ plan.items }
        ensures fuse { result.fuse ≡ None }
        ensures scripted { IsTrue result.scripted }
        ensures fresh { IsFreshDevice (control_of K.code result []) }
    {
        fit(plan.as_slice());
        let nexts = all_nexts(plan.as_slice());
        FaultPlan {
            plan,
            armed: false,
            counts: [0; 8],
            nexts,
            fuse: None,
            scripted: true,
            faults: 0,
        }
    }

    /// Lends the planned calls.
    pub fn plan(&self) -> &[Planned<K>]
        ensures { result.now ≡ self.now.plan }
    {
        self.plan.as_slice()
    }

    /// Returns whether planned calls fail.
    pub fn is_armed(&self) -> bool
        ensures { result ≡ self.now.armed }
    {
        self.armed
    }

    /// Counts the calls that failed.
    pub fn faults(&self) -> u64
        ensures { result ≡ faults_of K.code self.now }
    {
        self.faults
    }

    /// Counts the calls of a kind that were made since the plan was armed.
    pub fn made(&self, call: K) -> u64
        ensures { result ≡ count_of K.code self.now call }
    {
        self.counts[call.to_code()]
    }

    /// Returns whether there is a fuse.
    pub fn is_fused(&self) -> bool
        ensures { IsTrue result ↔ IsTrue (is_some self.now.fuse) }
    {
        self.fuse.is_some()
    }

    /// Returns whether the plan alone decides which calls fail, and did so from the first on: whether there was no
    /// fuse.
    pub fn is_scripted(&self) -> bool
        ensures { result ≡ self.now.scripted }
    {
        self.scripted
    }

    /// Lets so many calls pass, and then every call fails, or does away with the fuse.
    pub fn set_fuse(&mut self, fuse: Option<u64>)
        ensures is { self.new ≡ record self.old { fuse = fuse; scripted = self.old.scripted && has_none fuse } }
        ensures faults { faults_of K.code self.new ≡ faults_of K.code self.old }
    {
        self.fuse = fuse;
        self.scripted = self.scripted && fuse.is_none();
    }

    /// From the first time on planned calls fail.
    pub fn arm(&mut self)
        ensures armed { self.new ≡ record self.old { armed = true } }
        ensures arms { (last_read : List ℕ)
            → Arms (control_of K.code self.old last_read) (control_of K.code self.new last_read) }
    {
        self.armed = true;
    }

    /// Returns how the next call of a kind is going to end.
    pub fn ending(&self, call: K) -> Ending
        ensures { result ≡ ending_at K.code self.now call }
    {
        if let Some(0) = self.fuse {
            return Ending::Undone;
        }
        if !self.armed {
            return Ending::Done;
        }
        let next = self.nexts[call.to_code()];
        match said(self.plan.as_slice(), call, self.made(call), next) {
            None => Ending::Done,
            Some(true) => Ending::DoneAndFailed,
            Some(false) => Ending::Undone,
        }
    }

    /// Counts a call of a kind that ends so, and its fault, and lets the fuse burn down.
    fn tally(&mut self, call: K, ending: Ending)
        requires { ending ≡ ending_at K.code self.old call }
        ensures plan { self.new.plan ≡ self.old.plan }
        ensures armed { self.new.armed ≡ self.old.armed }
        ensures scripted { self.new.scripted ≡ self.old.scripted }
        ensures fuse { has_none self.new.fuse ≡ has_none self.old.fuse }
        ensures burns { self.new.fuse ≡ shorter self.old.fuse }
        ensures alone { IsTrue self.old.scripted → self.old.fuse ≡ None }
        ensures later { faults_of K.code self.old ≤ faults_of K.code self.new }
        ensures faults { faults_of K.code self.new ≡ if goes_well ending
            then faults_of K.code self.old else counted (faults_of K.code self.old) 1 }
        ensures made { (kind : K) → count_of K.code self.new kind
            ≡ made_after K.code call Went self.old.armed kind (count_of K.code self.old kind) }
    {
        count_if(
            self.armed,
            self.plan.as_slice(),
            call.to_code(),
            &mut self.counts,
            &mut self.nexts,
        );
        self.fuse = burnt(self.fuse);
        self.faults = missed(self.faults, ending);
    }

    /// Counts a call of a kind that ends so, and answers for it. Fails if the device call fails.
    pub fn note(&mut self, call: K, ending: Ending) -> Result<(), Failed>
        requires { ending ≡ ending_at K.code self.old call }
        ensures ran { (before after : List ℕ) → Ran call (failing result)
            (control_of K.code self.old before) (control_of K.code self.new after) }
        ensures done { (last_read : List ℕ) → MayBeDone call (failing result)
            (control_of K.code self.old last_read) (is_done ending) }
        ensures ok { OnOk result (ending ≡ Ending.Done) }
        ensures burns { self.new.fuse ≡ shorter self.old.fuse }
    {
        self.tally(call, ending);
        match ending {
            Ending::Done => Ok(()),
            Ending::DoneAndFailed | Ending::Undone => Err(Failed),
        }
    }
}

/// A fuse that has one call less to pass.
fn burnt(fuse: Option<u64>) -> Option<u64>
    ensures { result ≡ shorter fuse }
{
    let left = fuse?;
    Some(left.saturating_sub(1))
}

/// A count of faults after a call that ended so.
fn missed(faults: u64, ending: Ending) -> u64
    ensures is { result ≡ if goes_well ending then faults else counted faults 1 }
    ensures later { faults ≤ result }
{
    if ending.is_ok() {
        faults
    } else {
        faults.saturating_add(1)
    }
}
