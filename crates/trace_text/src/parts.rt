//! The journals of a trace while its lines are read.

ghost use Rattle.std.specs.Prelude.{◌≡◌, [], map, IfOk, OnOk};
ghost use Rattle.trace_text.specs.Read.{told};
ghost use Rattle.trace_text.specs.Steps.{parts_of, HasParts, HasBegun, PutsEntry};

use crate::line::{Line, PartJournal};
use plain_log::Journal;
use std::alloc::{AllocError, Global};
use std::mem;
use tier_base::{Items, PartitionId, Reserved};

/// The journals so far: the complete ones, and the one that the next line may extend.
#[derive(Drop)]
pub struct Parts {
    pub done: Items<PartJournal>,
    pub last: Option<PartitionId>,
    pub journal: Journal,
}

impl Parts {
    /// Returns no journal.
    pub fn new(alloc: Global) -> Parts
        ensures begun { HasParts result }
        ensures none { parts_of result ≡ [] }
    {
        Parts {
            done: Items::new(alloc),
            last: None,
            journal: Reserved::new(alloc),
        }
    }

    /// Starts the journal of a line's partition.
    fn begin(&mut self, alloc: Global, line: Line) -> Result<(), AllocError>
        ensures { OnOk result (HasBegun self.old self.new line) }
    {
        self.last = Some(line.partition);
        self.journal = Reserved::new(alloc);
        self.journal.reserve(1)?;
        self.journal.put(line.entry);
        Ok(())
    }

    /// Appends an entry, or returns `false` if its partition is below the last one.
    pub fn put(&mut self, alloc: Global, line: Line) -> Result<bool, AllocError>
        requires { HasParts self.old }
        ensures { PutsEntry self.old self.new line result }
    {
        let Some(last) = self.last else {
            self.begin(alloc, line)?;
            return Ok(true);
        };
        if line.partition.0 < last.0 {
            return Ok(false);
        }
        if line.partition.0 == last.0 {
            self.journal.reserve(1)?;
            self.journal.put(line.entry);
            return Ok(true);
        }
        let journal = mem::replace(&mut self.journal, Reserved::new(alloc));
        self.done.push(PartJournal {
            partition: last,
            journal,
        })?;
        self.begin(alloc, line)?;
        Ok(true)
    }

    /// Returns the journals.
    pub fn finish(self) -> Result<Items<PartJournal>, AllocError>
        ensures { IfOk result (λ parts. map told parts ≡ parts_of self) }
    {
        let Parts {
            done,
            last,
            journal,
        } = self;
        let mut done = done;
        if let Some(partition) = last {
            done.push(PartJournal { partition, journal })?;
        }
        Ok(done)
    }
}
