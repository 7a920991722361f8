//! Events one after another.

ghost use Rattle.std.specs.Prelude.{◌≡◌, ◌≢◌, ◌≤◌, ◌<◌, ◌^◌, ◌++◌, ◌∷◌, [], ℕ, length, OnOk, IfOk, IfErr};
ghost use Rattle.meta_log_file.specs.declared.refusal.NotesRefusal.TheVariants.{Failed, Damaged};
ghost use Rattle.meta_log_file.specs.Reading.{ReadsAll, EndAt, BreakAt};

use crate::framing::first;
use crate::refusal::NotesRefusal;
use segment_meta::Note;
use std::alloc::{AllocError, Global};
use tier_base::Items;

/// The events that bytes are, if they are such.
pub fn notes_in(alloc: Global, bytes: &[u8]) -> Result<Option<Items<Note>>, AllocError>
    ensures { IfOk result (λ notes. ReadsAll bytes.now notes) }
{
    let mut notes = Items::new(alloc);
    let mut rest = bytes;
    while !rest.is_empty() {
        let Some((note, behind)) = first(alloc, rest)? else {
            return Ok(None);
        };
        notes.push(note)?;
        rest = behind;
    }
    Ok(Some(notes))
}

/// Where the events end that bytes are, the last of them at the gate.
pub fn ends_in(alloc: Global, bytes: &[u8], gate: u64) -> Result<Vec<u64>, NotesRefusal>
    requires { length bytes.now ≤ gate }
    ensures ends { IfOk result (λ ends. EndAt gate bytes.now ends.items) }
    ensures damaged { IfErr result (λ why. (at : ℕ) → why ≡ Damaged at → BreakAt gate bytes.now at) }
    ensures never { IfErr result (λ why. why ≢ Failed) }
{
    let mut ends = Vec::new(alloc);
    let mut end: u64 = 0;
    let mut rest = bytes;
    while end < gate {
        let Some((_, behind)) = first(alloc, rest)? else {
            return Err(NotesRefusal::Damaged { at: end });
        };
        end += (rest.len() - behind.len()) as u64;
        push_end(&mut ends, end)?;
        rest = behind;
    }
    Ok(ends)
}

/// Puts an end after the others.
fn push_end(ends: &mut Vec<u64>, end: u64) -> Result<(), AllocError>
    ensures { OnOk result (ends.new.items ≡ ends.old.items ++ end ∷ []) }
{
    ends.push(end)?;
    Ok(())
}
