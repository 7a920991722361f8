//! Making sure of the gate after an append that wasn't Ok: it is replaced by what it reads, so that a crash leaves it
//! there.

ghost use Rattle.std.specs.Prelude.{◌≡◌, ◌≢◌, ◌⊎◌, ◌↔◌, ◌<◌, ◌++◌, ◌∷◌, [], ℕ, Some, None};
ghost use Rattle.std.specs.Prelude.{IsTrue, OnOk, IfOk, IfSome, vec_len, vec_capacity};
ghost use Rattle.tier_base.specs.Device.{Fault, Lasts, fate_of};
ghost use Rattle.tier_base.specs.Told.{bytes_in};
ghost use Rattle.tier_base.specs.declared.plain.FileName.TheVariants as file;
ghost use Rattle.disk_model.specs.Content.{Keeps, LeavesOnly};
ghost use Rattle.meta_log_file.specs.declared.marks.Tail.TheVariants.{Loose};
ghost use Rattle.meta_log_file.specs.Notes.{GateAt, gate_bytes};
ghost use Rattle.meta_log_file.specs.Crash.{OpensLike};
ghost use Rattle.meta_log_file.specs.Reading.{IsStrangeGate, IsGateOf, IsNoGateOf};
ghost use Rattle.meta_log_file.specs.Stands.{HasNotes, IsSure};
ghost use Rattle.meta_log_file.specs.Told.{notes_told};
ghost use Rattle.meta_log_file.specs.Runs.{OneFault, NoFault};

use crate::gate::{gate_in, put_gate};
use crate::marks::{Marks, Tail};
use bytes::Bytes;
use disk_model::{Disk, FileName};
use tier_base::Trouble;

/// Makes sure of the gate, where it isn't sure.
pub fn settle<D: Disk>(disk: &mut D, marks: &mut Marks) -> Result<(), Trouble>
    requires { HasNotes (D.content disk.old) marks.old.ends.items marks.old.tail }
    ensures has { HasNotes (D.content disk.new) marks.new.ends.items marks.new.tail }
    ensures sure { OnOk result (IsSure marks.new.tail) }
    ensures room { D.spare disk.new ≡ D.spare disk.old }
    ensures is_observable { (D.content disk.new).is_observable ≡ (D.content disk.old).is_observable }
    ensures notes { notes_told (D.content disk.new) ≡ notes_told (D.content disk.old) }
    ensures since { LeavesOnly (D.content disk.old) (D.content disk.new) (OpensLike (D.content disk.old)) }
    ensures control { Lasts (D.control disk.old) (D.control disk.new) }
    ensures cause { fate_of result ≡ Fault → OneFault (D.control disk.old) (D.control disk.new)
        ⊎ (NoFault (D.control disk.old) (D.control disk.new)
        × IsStrangeGate marks.old.ends.items marks.old.tail (D.control disk.new).last_read) }
    ensures quiet { fate_of result ≢ Fault → (D.control disk.new).faults ≡ (D.control disk.old).faults }
    ensures told_cause { fate_of result ≡ Fault → IsTrue (D.content disk.old).is_observable
        → OneFault (D.control disk.old) (D.control disk.new) }
{
    let Tail::Unsure(next) = marks.tail else {
        return Ok(());
    };
    let here = marks.end();
    marks.ends.reserve(1)?;
    let end = find_end(disk, here, next)?;
    put_gate(disk, end)?;
    move_to(marks, here, end);
    Ok(())
}

/// Finds where the gate is: here or at the next event's end.
fn find_end<D: Disk>(disk: &mut D, here: u64, next: Option<u64>) -> Result<u64, Trouble>
    ensures end { IfOk result (λ end. IsGateOf here next end) }
    ensures reads { IfOk result (λ end. IsTrue (D.content disk.old).is_observable
        → GateAt ((D.content disk.old).files file.Gate) end) }
    ensures room { D.spare disk.new ≡ D.spare disk.old }
    ensures content { Keeps (D.content disk.old) (D.content disk.new) }
    ensures control { Lasts (D.control disk.old) (D.control disk.new) }
    ensures cause { fate_of result ≡ Fault → OneFault (D.control disk.old) (D.control disk.new)
        ⊎ (NoFault (D.control disk.old) (D.control disk.new) × IsNoGateOf here next (D.control disk.new).last_read) }
    ensures quiet { fate_of result ≢ Fault → (D.control disk.new).faults ≡ (D.control disk.old).faults }
    ensures told_cause { fate_of result ≡ Fault → IsTrue (D.content disk.old).is_observable
        → OneFault (D.control disk.old) (D.control disk.new)
        ⊎ IsNoGateOf here next (bytes_in ((D.content disk.old).files file.Gate)) }
{
    let file = disk.read(FileName::Gate, 0)?;
    match among(&file, here, next) {
        Some(end) => Ok(end),
        None => Err(Trouble::Failed),
    }
}

/// Where the file has the gate, if that is here or at the next event's end.
fn among(file: &Option<Bytes>, here: u64, next: Option<u64>) -> Option<u64>
    ensures some { IfSome result (λ end. IsGateOf here next end × GateAt file.now end) }
    ensures none { result ≡ None → IsNoGateOf here next (bytes_in file.now) }
{
    let end = gate_in(file)?;
    if is_gate_of(here, next, end) {
        Some(end)
    } else {
        None
    }
}

/// Whether a gate is here or at the next event's end.
fn is_gate_of(here: u64, next: Option<u64>, end: u64) -> bool
    ensures { IsTrue result ↔ IsGateOf here next end }
{
    end == here || next == Some(end)
}

/// The gate is at this end, and stays there.
fn move_to(marks: &mut Marks, here: u64, end: u64)
    requires { vec_len marks.old.ends < vec_capacity marks.old.ends }
    ensures tail { marks.new.tail ≡ Loose }
    ensures here { end ≡ here → marks.new.ends.items ≡ marks.old.ends.items }
    ensures next { end ≢ here → marks.new.ends.items ≡ marks.old.ends.items ++ end ∷ [] }
{
    if end != here {
        marks.ends.push_reserved(end);
    }
    marks.tail = Tail::Loose;
}
