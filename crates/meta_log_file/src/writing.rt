//! Putting an event after the others: it is written and synced before the gate moves, so that no crash leaves a gate
//! behind bytes that aren't there.

ghost use Rattle.std.specs.Prelude.{◌≡◌, ◌≢◌, ◌⊎◌, ◌+◌, ◌≤◌, ◌++◌, ◌∷◌, [], List, length, IsTrue, OnOk, IfOk};
ghost use Rattle.tier_base.specs.Device.{Fault, Lasts, fate_of, failing};
ghost use Rattle.tier_base.specs.declared.plain.FileName.TheVariants as file;
ghost use Rattle.disk_model.specs.Content.{Content, Files, Image, LeavesOnly, Keeps, BeginsWith};
ghost use Rattle.segment_meta.specs.declared.note.Note.{Note};
ghost use Rattle.segment_meta.specs.Rules.{IsNote};
ghost use Rattle.meta_log.specs.Content.{AppendsNote};
ghost use Rattle.meta_log_file.specs.Notes.{frames, framed, gate_bytes, IsWritable, AreWritable, OpensWithNotes};
ghost use Rattle.meta_log_file.specs.Crash.{Appending};
ghost use Rattle.meta_log_file.specs.Reading.{IsStrangeGate};
ghost use Rattle.meta_log_file.specs.Stands.{HasNotes, IsSure, AllHold, StandsBy, EndsWith, HoldsOr};
ghost use Rattle.meta_log_file.specs.Writing.{Shortens, WritesNote, Commits};
ghost use Rattle.meta_log_file.specs.Runs.{Runs, OneFault, NoFault};
ghost use Rattle.meta_log_file.specs.Told.{notes_told, told_of};
ghost use Rattle.meta_log_file.specs.Log.{IsDone};

use crate::framing::{frame, tell};
use crate::gate::put_gate;
use crate::marks::{Marks, Tail};
use crate::settling::settle;
use disk_model::{Disk, FileName};
use segment_meta::Note;
use std::alloc::Global;
use tier_base::{Failed, Trouble};

/// Puts an event after the others, and returns its number.
pub fn append<D: Disk>(
    alloc: Global,
    disk: &mut D,
    marks: &mut Marks,
    note: &Note,
) -> Result<u64, Trouble>
    requires note { IsNote note.now }
    requires has { HasNotes (D.content disk.old) marks.old.ends.items marks.old.tail }
    ensures has { HasNotes (D.content disk.new) marks.new.ends.items marks.new.tail }
    ensures content { AppendsNote note.now (IsDone (fate_of result))
        (told_of (D.content disk.old)) (told_of (D.content disk.new)) }
    ensures place { IsTrue (D.content disk.old).is_observable
        → IfOk result (λ at. at ≡ length (notes_told (D.content disk.old))) }
    ensures since { LeavesOnly (D.content disk.old) (D.content disk.new)
        (Appending (D.content disk.old) (notes_told (D.content disk.old)) note.now) }
    ensures durable { OnOk result ((c : Files) → Image (D.content disk.new) c
        → OpensWithNotes c (notes_told (D.content disk.old) ++ note.now ∷ [])) }
    ensures control { Lasts (D.control disk.old) (D.control disk.new) }
    ensures cause { fate_of result ≡ Fault → OneFault (D.control disk.old) (D.control disk.new)
        ⊎ (NoFault (D.control disk.old) (D.control disk.new)
        × IsStrangeGate marks.old.ends.items marks.old.tail (D.control disk.new).last_read) }
    ensures quiet { fate_of result ≢ Fault → (D.control disk.new).faults ≡ (D.control disk.old).faults }
    ensures told_cause { fate_of result ≡ Fault → IsTrue (D.content disk.old).is_observable
        → OneFault (D.control disk.old) (D.control disk.new) }
{
    settle(disk, marks)?;
    put(alloc, disk, marks, note)
}

/// Puts an event after the others, where the gate is sure.
fn put<D: Disk>(alloc: Global, disk: &mut D, marks: &mut Marks, note: &Note) -> Result<u64, Trouble>
    requires note { IsNote note.now }
    requires has { HasNotes (D.content disk.old) marks.old.ends.items marks.old.tail }
    requires sure { IsSure marks.old.tail }
    ensures has { HasNotes (D.content disk.new) marks.new.ends.items marks.new.tail }
    ensures content { AppendsNote note.now (IsDone (fate_of result))
        (told_of (D.content disk.old)) (told_of (D.content disk.new)) }
    ensures place { IsTrue (D.content disk.old).is_observable
        → IfOk result (λ at. at ≡ length (notes_told (D.content disk.old))) }
    ensures since { LeavesOnly (D.content disk.old) (D.content disk.new)
        (Appending (D.content disk.old) (notes_told (D.content disk.old)) note.now) }
    ensures durable { OnOk result ((c : Files) → Image (D.content disk.new) c
        → OpensWithNotes c (notes_told (D.content disk.old) ++ note.now ∷ [])) }
    ensures control { Runs (fate_of result) (D.control disk.old) (D.control disk.new) }
{
    tell(note);
    let bytes = frame(alloc, note)?;
    let at = marks.ends.len();
    let end = marks.end();
    let Some(next) = end.checked_add(bytes.len() as u64) else {
        return Err(Trouble::NoMemory);
    };
    marks.ends.reserve(1)?;
    disk.reserve(2)?;
    let tail = marks.tail;
    if let Err(trouble) = extend(disk, tail, end, bytes.as_slice()) {
        marks.tail = Tail::Unsure(None);
        return Err(trouble);
    }
    if let Err(trouble) = commit(disk, next) {
        marks.tail = Tail::Unsure(Some(next));
        return Err(trouble);
    }
    marks.ends.push_reserved(next);
    marks.tail = Tail::Exact;
    Ok(at as u64)
}

/// Cuts off what follows the events that end there, where something may.
fn shorten<D: Disk>(disk: &mut D, tail: Tail, end: u64) -> Result<(), Failed>
    requires { 1 ≤ D.spare disk.old }
    ensures is_observable { (D.content disk.new).is_observable ≡ (D.content disk.old).is_observable }
    ensures content { (notes : List Note) → StandsBy (D.content disk.old) notes tail → IsSure tail
        → end ≡ length (frames notes)
        → Shortens notes (failing result) (D.content disk.old) (D.content disk.new) }
    ensures room { D.spare disk.old ≤ D.spare disk.new + 1 }
    ensures control { Runs (failing result) (D.control disk.old) (D.control disk.new) }
{
    if let Tail::Exact = tail {
        return Ok(());
    }
    disk.cut(FileName::Notes, end)
}

/// Writes bytes after the events that end there, and makes them stay.
fn extend<D: Disk>(disk: &mut D, tail: Tail, end: u64, bytes: &[u8]) -> Result<(), Trouble>
    requires room { 2 ≤ D.spare disk.old }
    ensures is_observable { (D.content disk.new).is_observable ≡ (D.content disk.old).is_observable }
    ensures content { (notes : List Note) (note : Note) → StandsBy (D.content disk.old) notes tail
        → IsSure tail → end ≡ length (frames notes) → bytes.now ≡ framed note
        → WritesNote notes note (fate_of result) (D.content disk.old) (D.content disk.new) }
    ensures control { Runs (fate_of result) (D.control disk.old) (D.control disk.new) }
{
    shorten(disk, tail, end)?;
    disk.append(FileName::Notes, bytes)?;
    sync_notes(disk)?;
    Ok(())
}

/// Makes the events' bytes stay.
fn sync_notes<D: Disk>(disk: &mut D) -> Result<(), Failed>
    requires room { 1 ≤ D.spare disk.old }
    ensures control { Runs (failing result) (D.control disk.old) (D.control disk.new) }
    ensures content { Keeps (D.content disk.old) (D.content disk.new) }
    ensures durable { OnOk result ((c : Files) → Image (D.content disk.new) c
        → BeginsWith ((D.content disk.old).files file.Notes) (c file.Notes)) }
{
    disk.sync(FileName::Notes)
}

/// Moves the gate to an end.
fn commit<D: Disk>(disk: &mut D, end: u64) -> Result<(), Trouble>
    ensures is_observable { (D.content disk.new).is_observable ≡ (D.content disk.old).is_observable }
    ensures content { (notes more : List Note) → AllHold (D.content disk.old) notes
        → ((c : Files) → Image (D.content disk.old) c → HoldsOr notes more c)
        → end ≡ length (frames more)
        → Commits notes more (fate_of result) (D.content disk.old) (D.content disk.new) }
    ensures exact { (notes : List Note) → EndsWith (D.content disk.old) notes → EndsWith (D.content disk.new) notes }
    ensures control { Runs (fate_of result) (D.control disk.old) (D.control disk.new) }
{
    put_gate(disk, end)
}
