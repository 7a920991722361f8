//! Reading the events from a number on.

ghost use Rattle.std.specs.Prelude.{◌≡◌, ◌≢◌, ◌⊎◌, ◌-◌, ◌≤◌, ℕ, length, drop, IsTrue, IfOk, OnOk, None, Some};
ghost use Rattle.std.specs.declared.option.Option.{Option};
ghost use Rattle.tier_base.specs.Device.{Fault, Lasts, fate_of};
ghost use Rattle.tier_base.specs.Told.{bytes_in};
ghost use Rattle.disk_model.specs.Content.{Keeps, LeavesOnly};
ghost use Rattle.meta_log.specs.Content.{AreNotes};
ghost use Rattle.meta_log_file.specs.Crash.{OpensLike};
ghost use Rattle.meta_log_file.specs.Ends.{start_of};
ghost use Rattle.meta_log_file.specs.Reading.{IsStrangeGate, AreStrangeNotes, ReadsSpan};
ghost use Rattle.meta_log_file.specs.Stands.{HasNotes, IsSure};
ghost use Rattle.meta_log_file.specs.Told.{notes_told};
ghost use Rattle.meta_log_file.specs.Runs.{OneFault, NoFault};

use crate::marks::{Marks, start_of};
use crate::settling::settle;
use crate::walking::notes_in;
use bytes::Bytes;
use disk_model::{Disk, FileName};
use segment_meta::Note;
use std::alloc::{AllocError, Global};
use tier_base::{Items, Trouble};

/// Gives the events from a number on.
pub fn read<D: Disk>(
    alloc: Global,
    disk: &mut D,
    marks: &mut Marks,
    from: u64,
) -> Result<Items<Note>, Trouble>
    requires { HasNotes (D.content disk.old) marks.old.ends.items marks.old.tail }
    ensures has { HasNotes (D.content disk.new) marks.new.ends.items marks.new.tail }
    ensures sure { OnOk result (IsSure marks.new.tail) }
    ensures is_observable { (D.content disk.new).is_observable ≡ (D.content disk.old).is_observable }
    ensures told { notes_told (D.content disk.new) ≡ notes_told (D.content disk.old) }
    ensures notes { IsTrue (D.content disk.old).is_observable
        → IfOk result (λ notes. notes ≡ drop from (notes_told (D.content disk.old))) }
    ensures rules { IfOk result AreNotes }
    ensures since { LeavesOnly (D.content disk.old) (D.content disk.new) (OpensLike (D.content disk.old)) }
    ensures control { Lasts (D.control disk.old) (D.control disk.new) }
    ensures cause { fate_of result ≡ Fault → OneFault (D.control disk.old) (D.control disk.new)
        ⊎ (NoFault (D.control disk.old) (D.control disk.new)
        × (IsStrangeGate marks.old.ends.items marks.old.tail (D.control disk.new).last_read
        ⊎ AreStrangeNotes marks.new.ends.items from (D.control disk.new).last_read)) }
    ensures quiet { fate_of result ≢ Fault → (D.control disk.new).faults ≡ (D.control disk.old).faults }
    ensures told_cause { fate_of result ≡ Fault → IsTrue (D.content disk.old).is_observable
        → OneFault (D.control disk.old) (D.control disk.new) }
{
    settle(disk, marks)?;
    let many = marks.ends.len();
    if from >= many as u64 {
        return Ok(Items::new(alloc));
    }
    read_from(alloc, disk, marks, from as usize)
}

/// Gives the events from a number on, where the gate is sure.
fn read_from<D: Disk>(
    alloc: Global,
    disk: &mut D,
    marks: &Marks,
    from: usize,
) -> Result<Items<Note>, Trouble>
    requires within { from ≤ length marks.now.ends.items }
    requires has { HasNotes (D.content disk.old) marks.now.ends.items marks.now.tail }
    requires sure { IsSure marks.now.tail }
    ensures content { Keeps (D.content disk.old) (D.content disk.new) }
    ensures notes { IsTrue (D.content disk.old).is_observable
        → IfOk result (λ notes. notes ≡ drop from (notes_told (D.content disk.old))) }
    ensures rules { IfOk result AreNotes }
    ensures control { Lasts (D.control disk.old) (D.control disk.new) }
    ensures cause { fate_of result ≡ Fault → OneFault (D.control disk.old) (D.control disk.new)
        ⊎ (NoFault (D.control disk.old) (D.control disk.new)
        × AreStrangeNotes marks.now.ends.items from (D.control disk.new).last_read) }
    ensures quiet { fate_of result ≢ Fault → (D.control disk.new).faults ≡ (D.control disk.old).faults }
    ensures told_cause { fate_of result ≡ Fault → IsTrue (D.content disk.old).is_observable
        → OneFault (D.control disk.old) (D.control disk.new) }
{
    let at = start_of(&marks.ends, from);
    let end = marks.end();
    let size = end.saturating_sub(at);
    let file = disk.read_part(FileName::Notes, at, size)?;
    match notes_of_file(alloc, &file, size)? {
        Some(notes) => Ok(notes),
        None => Err(Trouble::Failed),
    }
}

/// The events that a file's part is, if it has this size and is such. An absent file has no bytes.
fn notes_of_file(
    alloc: Global,
    file: &Option<Bytes>,
    size: u64,
) -> Result<Option<Items<Note>>, AllocError>
    ensures { IfOk result (λ notes. ReadsSpan size (bytes_in file.now) notes) }
{
    match file {
        Some(bytes) => span(alloc, bytes.as_slice(), size),
        None => span(alloc, &[], size),
    }
}

/// The events that bytes are, if they have this size and are such.
fn span(alloc: Global, bytes: &[u8], size: u64) -> Result<Option<Items<Note>>, AllocError>
    ensures { IfOk result (λ notes. ReadsSpan size bytes.now notes) }
{
    if bytes.len() as u64 != size {
        return Ok(None);
    }
    notes_in(alloc, bytes)
}
