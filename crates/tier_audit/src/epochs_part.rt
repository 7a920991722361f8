//! The text of a copy's leader epochs, read beside its entry.

ghost use Rattle.std.specs.Prelude.{◌≡◌, ◌↔◌, IfOk, IsTrue};
ghost use Rattle.remote_view.specs.Fold.{IsEntryValid};
ghost use Rattle.tier_audit.specs.Texts.{AuditsEpochs, place_behind};

use epoch_line::{Line, TextRefusal};
use segment_meta::Entry;
use std::alloc::{AllocError, Global};

/// Reads a copy's leader epochs: none where they are right, or the place that is reported.
pub(crate) fn read_epochs(
    alloc: Global,
    entry: &Entry,
    bytes: &[u8],
) -> Result<Option<usize>, AllocError>
    requires { IsEntryValid entry.now }
    ensures { IfOk result (λ found. AuditsEpochs entry.now bytes.now found) }
{
    match Line::from_text(alloc, bytes) {
        Ok(line) => {
            let part = line.within(alloc, entry.start, entry.end)?;
            if are_same(part.entries(), entry.map.entries()) {
                Ok(None)
            } else {
                Ok(Some(bytes.len()))
            }
        }
        Err(TextRefusal::BadText { line }) => Ok(Some(place_behind(bytes, line - 1))),
        Err(TextRefusal::NoMemory) => Err(AllocError),
    }
}

/// The place after so many line feeds.
fn place_behind(bytes: &[u8], lines: u32) -> usize
    ensures { result ≡ place_behind lines bytes.now }
{
    let mut left = lines;
    for (at, byte) in bytes.iter().enumerate() {
        if left == 0 {
            return at;
        }
        if *byte == b'\n' {
            left -= 1;
        }
    }
    bytes.len()
}

/// Whether two lines have the same entries.
fn are_same(one: &[(u32, u64)], other: &[(u32, u64)]) -> bool
    ensures { IsTrue result ↔ (one.now ≡ other.now) }
{
    one == other
}
