//! The counts of a device that works on something outside the program: its calls, and its faults.

ghost use Rattle.std.specs.Prelude.{◌≡◌, ◌<◌, [], List, ℕ};
ghost use Rattle.std.proofs.Math.ListN.{set, get_or};
ghost use Rattle.tier_base.specs.Counts.{counted};
ghost use Rattle.tier_base.specs.Device.{Fault, Ran, Arms, IsFreshDevice, fate_of, failing};
ghost use Rattle.device_tally.specs.Tally.{Counts, control_of};

use std::marker::{Model, PhantomData};
use tier_base::{CallKind, Failed, Trouble, give};

/// The calls that were made of each kind since the device was armed, and those that failed.
#[derive(Drop)]
pub struct Tally<K: CallKind> {
    kind: PhantomData<K>,
    armed: bool,
    counts: [u64; 8],
    faults: u64,
}

impl<K: CallKind> Model for Tally<K> {
    ghost use Rattle.device_tally.specs.Tally.{Counts};

    ghost Value = { Counts };

    ghost view = { λ t. record { armed = t.armed; counts = t.counts; faults = t.faults } };
}

impl<K: CallKind> Tally<K> {
    /// Counts nothing yet, and isn't armed.
    pub fn new() -> Tally<K>
        ensures fresh { IsFreshDevice (control_of K.code result []) }
    {
        Tally {
            kind: PhantomData,
            armed: false,
            counts: [0; 8],
            faults: 0,
        }
    }

    /// Counts the calls that failed.
    pub fn faults(&self) -> u64
        ensures { result ≡ self.now.faults }
    {
        self.faults
    }

    /// Returns whether calls are counted.
    pub fn is_armed(&self) -> bool
        ensures { result ≡ self.now.armed }
    {
        self.armed
    }

    /// From the first time on calls are counted.
    pub fn arm(&mut self)
        ensures { (last_read : List ℕ)
            → Arms (control_of K.code self.old last_read) (control_of K.code self.new last_read) }
    {
        self.armed = true;
    }

    /// Counts a call that takes no memory, and answers as it ended.
    pub fn note(&mut self, call: K, outcome: Result<(), Failed>) -> Result<(), Failed>
        ensures same { result ≡ outcome }
        ensures ran { (before after : List ℕ) → Ran call (failing result)
            (control_of K.code self.old before) (control_of K.code self.new after) }
    {
        if self.armed {
            raise(&mut self.counts, call.to_code());
        }
        if outcome.is_err() {
            self.faults = self.faults.saturating_add(1);
        }
        outcome
    }

    /// Counts a call, unless it found no memory, and answers as it ended.
    pub fn note_any<T: Drop>(&mut self, call: K, outcome: Result<T, Trouble>) -> Result<T, Trouble>
        ensures same { result ≡ outcome }
        ensures ran { (before after : List ℕ) → Ran call (fate_of result)
            (control_of K.code self.old before) (control_of K.code self.new after) }
    {
        match outcome {
            Ok(value) => give(self.note(call, Ok(())), value),
            Err(Trouble::Failed) => {
                self.fail(call);
                Err(Trouble::Failed)
            }
            Err(Trouble::NoMemory) => Err(Trouble::NoMemory),
        }
    }

    /// Counts a call that failed.
    fn fail(&mut self, call: K)
        ensures { (before after : List ℕ) → Ran call Fault
            (control_of K.code self.old before) (control_of K.code self.new after) }
    {
        if self.armed {
            raise(&mut self.counts, call.to_code());
        }
        self.faults = self.faults.saturating_add(1);
    }
}

/// Raises one of the counts.
fn raise(counts: &mut [u64; 8], at: usize)
    requires { at < 8 }
    ensures { counts.new ≡ set counts.old at (counted (get_or counts.old at 0) 1) }
{
    counts[at] = counts[at].saturating_add(1);
}
