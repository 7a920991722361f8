//! Opening a log: the gate and the events up to it are read; then the events are made to stay, and the gate as it
//! reads.

ghost use Rattle.std.specs.Prelude.{◌≡◌, ◌≢◌, ◌+◌, ◌<◌, ◌≤◌, ℕ, List, take, IsTrue, IfOk, IfErr, OnOk, length};
ghost use Rattle.tier_base.specs.Device.{Ran, Went, Lasts, fate_of};
ghost use Rattle.tier_base.specs.Told.{bytes_in};
ghost use Rattle.tier_base.specs.declared.plain.FileName.TheVariants as file;
ghost use Rattle.disk_model.specs.declared.call.DiskCall.TheVariants.{Read};
ghost use Rattle.disk_model.specs.Content.{Keeps, LeavesOnly};
ghost use Rattle.segment_meta.specs.declared.note.Note.{Note};
ghost use Rattle.meta_log_file.specs.declared.refusal.NotesRefusal.TheVariants.{Failed, Damaged};
ghost use Rattle.meta_log_file.specs.declared.marks.Tail.TheVariants.{Loose};
ghost use Rattle.meta_log_file.specs.Notes.{frames, gate_bytes, GateAt, OpensWithNotes};
ghost use Rattle.meta_log_file.specs.Crash.{Reopens, OpensLike};
ghost use Rattle.meta_log_file.specs.Reading.{IsNoGate, EndAt, BreakAt};
ghost use Rattle.meta_log_file.specs.Damage.{IsDamage, HandsDamage};
ghost use Rattle.meta_log_file.specs.Opening.{HasEnds, IsGateRead};
ghost use Rattle.meta_log_file.specs.Stands.{HasNotes};
ghost use Rattle.meta_log_file.specs.Writing.{Confirms};
ghost use Rattle.meta_log_file.specs.Runs.{Runs, OneFault};

use crate::gate::{gate_in, put_gate};
use crate::marks::{Marks, Tail};
use crate::refusal::NotesRefusal;
use crate::walking::ends_in;
use bytes::Bytes;
use disk_model::{Disk, FileName};
use std::alloc::Global;
use tier_base::Trouble;

/// Opens the log of a disk.
pub fn open_log<D: Disk>(alloc: Global, disk: &mut D) -> Result<Marks, NotesRefusal>
    ensures has { IfOk result (λ marks. HasNotes (D.content disk.new) marks.ends.items marks.tail) }
    ensures is_observable { (D.content disk.new).is_observable ≡ (D.content disk.old).is_observable }
    ensures since { Reopens (D.content disk.old)
        → LeavesOnly (D.content disk.old) (D.content disk.new) (OpensLike (D.content disk.old)) }
    ensures same { IsTrue (D.content disk.old).is_observable → (notes : List Note)
        → OpensWithNotes (D.content disk.old).files notes
        → OpensWithNotes (D.content disk.new).files notes }
    ensures opened { OnOk result (IsTrue (D.content disk.old).is_observable
        → (notes : List Note) × OpensWithNotes (D.content disk.old).files notes
        × OpensWithNotes (D.content disk.new).files notes) }
    ensures sure { IfOk result (λ marks. marks.tail ≡ Loose) }
    ensures damaged { IfErr result (λ why. (at : ℕ) → why ≡ Damaged at → IsTrue (D.content disk.old).is_observable
        → IsDamage (D.content disk.old).files at) }
    ensures last_read { IfErr result (λ why. (at : ℕ) → why ≡ Damaged at → HandsDamage D.control disk.new at) }
    ensures control { Lasts (D.control disk.old) (D.control disk.new) }
    ensures cause { IfErr result (λ why. why ≡ Failed → OneFault (D.control disk.old) (D.control disk.new)) }
    ensures quiet { OnOk result ((D.control disk.new).faults ≡ (D.control disk.old).faults) }
    ensures quiet_err { IfErr result (λ why. why ≢ Failed → (D.control disk.new).faults ≡ (D.control disk.old).faults) }
{
    let (gate, ends) = study(alloc, disk)?;
    confirm(disk, gate)?;
    Ok(Marks {
        ends,
        tail: Tail::Loose,
    })
}

/// Reads the gate and where the events end, and makes room for a sync.
fn study<D: Disk>(alloc: Global, disk: &mut D) -> Result<(u64, Vec<u64>), NotesRefusal>
    ensures read { IfOk result (λ x. IsGateRead (D.content disk.old) x.0 x.1.items) }
    ensures room { OnOk result (1 ≤ D.spare disk.new) }
    ensures content { Keeps (D.content disk.old) (D.content disk.new) }
    ensures damaged { IfErr result (λ why. (at : ℕ) → why ≡ Damaged at → IsTrue (D.content disk.old).is_observable
        → IsDamage (D.content disk.old).files at) }
    ensures last_read { IfErr result (λ why. (at : ℕ) → why ≡ Damaged at → HandsDamage D.control disk.new at) }
    ensures control { Lasts (D.control disk.old) (D.control disk.new) }
    ensures cause { IfErr result (λ why. why ≡ Failed → OneFault (D.control disk.old) (D.control disk.new)) }
    ensures quiet { OnOk result ((D.control disk.new).faults ≡ (D.control disk.old).faults) }
    ensures quiet_err { IfErr result (λ why. why ≢ Failed → (D.control disk.new).faults ≡ (D.control disk.old).faults) }
{
    disk.reserve(1)?;
    let gate = find_gate(disk)?;
    match find_ends(alloc, disk, gate) {
        Ok(ends) => Ok((gate, ends)),
        Err(refusal) => Err(refusal),
    }
}

/// Reads the gate.
fn find_gate<D: Disk>(disk: &mut D) -> Result<u64, NotesRefusal>
    ensures gate { IfOk result (λ gate. IsTrue (D.content disk.old).is_observable
        → GateAt ((D.content disk.old).files file.Gate) gate) }
    ensures room { D.spare disk.new ≡ D.spare disk.old }
    ensures content { Keeps (D.content disk.old) (D.content disk.new) }
    ensures last_read { IfOk result (λ gate. 0 < gate → (D.control disk.new).last_read ≡ gate_bytes gate) }
    ensures damaged { IfErr result (λ why. (at : ℕ) → why ≡ Damaged at
        → IsNoGate (D.control disk.new).last_read × (at ≡ 0)) }
    ensures sound { IfErr result (λ why. (at : ℕ) → why ≡ Damaged at → IsTrue (D.content disk.old).is_observable
        → (end : ℕ) → GateAt ((D.content disk.old).files file.Gate) end → ⊥) }
    ensures control { Lasts (D.control disk.old) (D.control disk.new) }
    ensures cause { IfErr result (λ why. why ≡ Failed → OneFault (D.control disk.old) (D.control disk.new)) }
    ensures quiet { OnOk result ((D.control disk.new).faults ≡ (D.control disk.old).faults) }
    ensures quiet_err { IfErr result (λ why. why ≢ Failed → (D.control disk.new).faults ≡ (D.control disk.old).faults) }
{
    let file = disk.read(FileName::Gate, 0)?;
    match gate_in(&file) {
        Some(gate) => Ok(gate),
        None => Err(NotesRefusal::Damaged { at: 0 }),
    }
}

/// Reads where the events end up to the gate.
fn find_ends<D: Disk>(alloc: Global, disk: &mut D, gate: u64) -> Result<Vec<u64>, NotesRefusal>
    ensures ends { IfOk result (λ ends. HasEnds (D.content disk.old) gate ends.items) }
    ensures room { D.spare disk.new ≡ D.spare disk.old }
    ensures content { Keeps (D.content disk.old) (D.content disk.new) }
    ensures damaged { IfErr result (λ why. (at : ℕ) → why ≡ Damaged at
        → BreakAt gate (take gate (D.control disk.new).last_read) at) }
    ensures next { IfErr result (λ why. (at : ℕ) → why ≡ Damaged at
        → Ran Read Went (D.control disk.old) (D.control disk.new)) }
    ensures sound { IfErr result (λ why. (at : ℕ) → why ≡ Damaged at → IsTrue (D.content disk.old).is_observable
        → BreakAt gate (take gate (bytes_in ((D.content disk.old).files file.Notes))) at) }
    ensures control { Lasts (D.control disk.old) (D.control disk.new) }
    ensures cause { IfErr result (λ why. why ≡ Failed → OneFault (D.control disk.old) (D.control disk.new)) }
    ensures quiet { OnOk result ((D.control disk.new).faults ≡ (D.control disk.old).faults) }
    ensures quiet_err { IfErr result (λ why. why ≢ Failed → (D.control disk.new).faults ≡ (D.control disk.old).faults) }
{
    let file = disk.read_part(FileName::Notes, 0, gate)?;
    ends_of_file(alloc, &file, gate)
}

/// Where the events of a file end up to the gate. An absent file has no bytes.
fn ends_of_file(alloc: Global, file: &Option<Bytes>, gate: u64) -> Result<Vec<u64>, NotesRefusal>
    ensures ends { IfOk result (λ ends. EndAt gate (take gate (bytes_in file.now)) ends.items) }
    ensures damaged { IfErr result (λ why. (at : ℕ) → why ≡ Damaged at
        → BreakAt gate (take gate (bytes_in file.now)) at) }
    ensures never { IfErr result (λ why. why ≢ Failed) }
{
    match file {
        Some(bytes) => ends_of(alloc, bytes.as_slice(), gate),
        None => ends_of(alloc, &[], gate),
    }
}

/// Where the events of these bytes end up to the gate.
fn ends_of(alloc: Global, bytes: &[u8], gate: u64) -> Result<Vec<u64>, NotesRefusal>
    ensures ends { IfOk result (λ ends. EndAt gate (take gate bytes.now) ends.items) }
    ensures damaged { IfErr result (λ why. (at : ℕ) → why ≡ Damaged at
        → BreakAt gate (take gate bytes.now) at) }
    ensures never { IfErr result (λ why. why ≢ Failed) }
{
    let (front, _) = bytes.split_at((gate as usize).min(bytes.len()));
    ends_in(alloc, front, gate)
}

/// Makes the events stay that were read, and the gate after them.
fn confirm<D: Disk>(disk: &mut D, gate: u64) -> Result<(), Trouble>
    requires { 1 ≤ D.spare disk.old }
    ensures content { (ends : List ℕ) (read : IsGateRead (D.content disk.old) gate ends)
        → Confirms read.has.notes (fate_of result) (D.content disk.old) (D.content disk.new) }
    ensures control { Runs (fate_of result) (D.control disk.old) (D.control disk.new) }
{
    disk.sync(FileName::Notes)?;
    put_gate(disk, gate)
}
