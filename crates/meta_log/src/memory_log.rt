//! A metadata log in memory, whose calls fail by a plan.
//!
//! Each call asks first how it is going to end, does as much as is to be done, and is counted last;
//! so one that finds no memory has changed nothing and isn't counted.

ghost use Rattle.std.specs.Prelude.{◌≡◌, [], IsTrue};
ghost use Rattle.tier_base.specs.Device.{IsFreshDevice};
ghost use Rattle.tier_base.specs.Faults.{control_of};
ghost use Rattle.tier_base.specs.Laws.{fails_as_planned};
ghost use Rattle.meta_log.specs.Call.{call_code};
ghost use Rattle.meta_log.specs.Content.{Keeps};
ghost use Rattle.meta_log.specs.Memory.{content_of};

use crate::call::{MetaCall, Planned};
use crate::log::MetaLog;
use crate::notes::Notes;
use segment_meta::Note;
use std::alloc::Global;
use tier_base::{FaultPlan, Items, Trouble, give};

/// A metadata log in memory.
#[derive(Drop)]
pub struct MemoryLog {
    notes: Notes,
    faults: FaultPlan<MetaCall>,
}

impl MemoryLog {
    /// Makes a log with no events, whose planned calls fail once it is armed, without memory.
    pub fn new(alloc: Global, plan: Vec<Planned>) -> MemoryLog
        ensures is_observable { IsTrue (⟦<MemoryLog as MetaLog>⟧.content result).is_observable }
        ensures notes { (⟦<MemoryLog as MetaLog>⟧.content result).notes ≡ [] }
        ensures fresh { IsFreshDevice (⟦<MemoryLog as MetaLog>⟧.control result) }
        ensures plan { (⟦<MemoryLog as MetaLog>⟧.control result).plan ≡ plan.items }
        ensures infallible { IsTrue (⟦<MemoryLog as MetaLog>⟧.control result).infallible }
        ensures scripted { IsTrue (⟦<MemoryLog as MetaLog>⟧.control result).scripted }
    {
        MemoryLog {
            notes: Notes::new(alloc),
            faults: FaultPlan::new(plan),
        }
    }

    /// Provides the log again: the events stay, with this plan, no fault and no call counted.
    pub fn renew(&mut self, plan: Vec<Planned>)
        ensures content { Keeps (⟦<MemoryLog as MetaLog>⟧.content self.old)
            (⟦<MemoryLog as MetaLog>⟧.content self.new) }
        ensures fresh { IsFreshDevice (⟦<MemoryLog as MetaLog>⟧.control self.new) }
        ensures plan { (⟦<MemoryLog as MetaLog>⟧.control self.new).plan ≡ plan.items }
        ensures infallible { IsTrue (⟦<MemoryLog as MetaLog>⟧.control self.new).infallible }
        ensures scripted { IsTrue (⟦<MemoryLog as MetaLog>⟧.control self.new).scripted }
    {
        self.faults = FaultPlan::new(plan);
    }

    /// Lends the planned calls.
    pub fn plan(&self) -> &[Planned]
        ensures { result.now ≡ (⟦<MemoryLog as MetaLog>⟧.control self.now).plan }
    {
        self.faults.plan()
    }

    /// Returns whether planned calls fail.
    pub fn is_armed(&self) -> bool
        ensures { result ≡ (⟦<MemoryLog as MetaLog>⟧.control self.now).armed }
    {
        self.faults.is_armed()
    }

    /// Counts the calls that failed.
    pub fn faults(&self) -> u64
        ensures { result ≡ (⟦<MemoryLog as MetaLog>⟧.control self.now).faults }
    {
        self.faults.faults()
    }
}

impl MetaLog for MemoryLog {
    ghost content = { λ m. content_of m.notes };

    ghost control = { λ m. control_of call_code m.faults [] };

    fn append(&mut self, note: &Note) -> Result<u64, Trouble> {
        let ending = self.faults.ending(MetaCall::Append);
        let at = self.notes.len() as u64;
        self.notes.append_if(note, ending.is_done())?;
        give(self.faults.note(MetaCall::Append, ending), at)
    }

    fn read(&mut self, at: u64) -> Result<Items<Note>, Trouble> {
        let ending = self.faults.ending(MetaCall::Read);
        let notes = self.notes.read(at as usize)?;
        give(self.faults.note(MetaCall::Read, ending), notes)
    }

    fn arm(&mut self) {
        self.faults.arm();
    }

    ghost planned = { λ m. fails_as_planned call_code m.faults [] };
}
