//! A metadata log in the files of a disk in memory, as the environment in memory provides it.

ghost use Rattle.std.specs.Prelude.{[]};
ghost use Rattle.device_tally.specs.Tally.{fails_as_planned};
ghost use Rattle.meta_log.specs.Call.{call_code};
ghost use Rattle.memory_yard.specs.Log.{told};

use disk_model::MemoryDisk;
use meta_log::MetaLog;
use meta_log_file::DiskLog;
use segment_meta::Note;
use std::marker::Model;
use tier_base::{Items, Trouble};

/// A metadata log over a disk in memory.
#[derive(Drop)]
pub struct MemoryNotes {
    pub log: DiskLog<MemoryDisk>,
}

impl Model for MemoryNotes {
    ghost use Rattle.disk_model.specs.declared.memory_disk.MemoryDisk.{MemoryDisk};
    ghost use Rattle.meta_log_file.specs.Log.{NoteLog};

    ghost Value = { NoteLog MemoryDisk };

    ghost view = { λ n. n.log };
}

impl MetaLog for MemoryNotes {
    ghost content = { told };

    ghost control = { λ n. ⟦<DiskLog<MemoryDisk> as MetaLog>⟧.control n };

    fn append(&mut self, note: &Note) -> Result<u64, Trouble> {
        self.log.append(note)
    }

    fn read(&mut self, at: u64) -> Result<Items<Note>, Trouble> {
        self.log.read(at)
    }

    fn arm(&mut self) {
        self.log.arm();
    }

    ghost planned = { λ n. fails_as_planned call_code n.counts [] };
}
