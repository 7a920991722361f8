//! The gate's file. The module Notes of specs/ has the table.

ghost use Rattle.std.specs.Prelude.{◌≡◌, ℕ, Some, None, IfSome, OnOk};
ghost use Rattle.tier_base.specs.Device.{MayBeDone, fate_of};
ghost use Rattle.tier_base.specs.Told.{bytes_in, replaced};
ghost use Rattle.tier_base.specs.declared.plain.FileName.TheVariants as file;
ghost use Rattle.disk_model.specs.declared.call.DiskCall.TheVariants.{Replace};
ghost use Rattle.disk_model.specs.Content.{Files, Image, Changes, Swapped};
ghost use Rattle.meta_log_file.specs.Notes.{gate_bytes, GateAt};
ghost use Rattle.meta_log_file.specs.Reading.{IsNoGate};
ghost use Rattle.meta_log_file.specs.Runs.{Runs};

use bytes::Bytes;
use disk_model::{Disk, FileName};
use tier_base::Trouble;

/// How many bytes a gate has.
const GATE_BYTES: usize = 8;

/// The bytes of a gate at a place.
#[tactic(auto, unfolding(crate::specs::Notes::gate_bytes))]
fn gate_of(end: u64) -> [u8; 8]
    ensures { result ≡ gate_bytes end }
{
    end.to_be_bytes()
}

/// Puts the gate at a place.
pub fn put_gate<D: Disk>(disk: &mut D, end: u64) -> Result<(), Trouble>
    ensures room { D.spare disk.new ≡ D.spare disk.old }
    ensures content { Changes file.Gate (replaced (gate_bytes end)) (Swapped (gate_bytes end))
        (MayBeDone Replace (fate_of result) (D.control disk.old))
        (D.content disk.old) (D.content disk.new) }
    ensures durable { OnOk result ((c : Files) → Image (D.content disk.new) c
        → c file.Gate ≡ Some (gate_bytes end)) }
    ensures control { Runs (fate_of result) (D.control disk.old) (D.control disk.new) }
{
    let bytes = gate_of(end);
    disk.replace(FileName::Gate, bytes.as_slice())
}

/// Where the file has the gate, if it has one. An absent file has it at 0.
pub fn gate_in(file: &Option<Bytes>) -> Option<u64>
    ensures some { IfSome result (λ end. GateAt file.now end) }
    ensures none { result ≡ None → IsNoGate (bytes_in file.now) }
    ensures nowhere { result ≡ None → (end : ℕ) → GateAt file.now end → ⊥ }
{
    match file {
        None => Some(0),
        Some(bytes) => gate_at(bytes.as_slice()),
    }
}

/// Where a file of these bytes has the gate.
fn gate_at(bytes: &[u8]) -> Option<u64>
    ensures some { IfSome result (λ end. GateAt (Some bytes.now) end) }
    ensures none { result ≡ None → IsNoGate bytes.now }
{
    if bytes.len() != GATE_BYTES {
        return None;
    }
    Some(u64::from_be_bytes([
        bytes[0], bytes[1], bytes[2], bytes[3], bytes[4], bytes[5], bytes[6], bytes[7],
    ]))
}
