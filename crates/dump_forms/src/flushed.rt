//! Where the flushed part of a broker's log ends, by the batches of its last segment.

ghost use Rattle.std.specs.Prelude.{◌≡◌, ⊤};
ghost use Rattle.dump_forms.specs.Flushed.{end_after as end_after_of};

use crate::batches::failed;
use crate::files::open;
use dump_lines::{Ending, Show, ShowRefusal, Shown, dump, last_offset, size_in};
use log_manifest::{Extent, Manifest};
use std::io::{self, Write};
use tier_base::StdSource;

/// Finds the end offset of the batches in the first bytes of a segment.
#[derive(Drop)]
struct Flushed {
    /// How many bytes of the segment are flushed.
    len: u64,
    end: u64,
}

/// The end offset after a batch of a segment of which the first `len` bytes are flushed.
fn end_after(len: u64, end: u64, one: &Shown) -> u64
    ensures { result ≡ end_after_of len end one.now }
{
    let size = size_in(&one.head) as u64;
    if one.position.saturating_add(size) > len {
        return end;
    }
    last_offset(&one.head).cast_unsigned().saturating_add(1)
}

impl Show for Flushed {
    ghost told = { λ _ _. ⊤ };

    fn show(&mut self, one: &Shown, _batch: &[u8]) -> Result<(), ShowRefusal> {
        self.end = end_after(self.len, self.end, one);
        Ok(())
    }
}

/// Returns the offset at which the flushed part of a log ends, if its last segment can be read.
pub fn flushed_end<W: Write>(
    rt: &HostRuntime,
    out: &mut W,
    folder: &str,
    manifest: &Manifest,
) -> io::Result<Option<u64>> {
    match manifest.segments.as_slice() {
        [.., last] => segment_end(rt, out, folder, *last),
        [] => Ok(Some(manifest.local_start)),
    }
}

/// Returns the offset at which the flushed part of a segment ends, if it can be read.
fn segment_end<W: Write>(
    rt: &HostRuntime,
    out: &mut W,
    folder: &str,
    extent: Extent,
) -> io::Result<Option<u64>> {
    let base = extent.base;
    let name = format!(in rt.alloc(); "{folder}/{base:020}.log")?;
    let Some(file) = open(rt, name.as_str())? else {
        return Ok(None);
    };
    let mut source = StdSource::new(file);
    let mut flushed = Flushed {
        len: extent.len as u64,
        end: base,
    };
    match dump(rt.alloc(), &mut source, &mut flushed) {
        Ok(ending) => checked_end(rt, out, name.as_str(), &flushed, ending),
        Err(why) => {
            failed(rt, out, name.as_str(), why)?;
            Ok(None)
        }
    }
}

/// Returns the end if the batches go as far as the flushed bytes do.
fn checked_end<W: Write>(
    rt: &HostRuntime,
    out: &mut W,
    name: &str,
    flushed: &Flushed,
    ending: Ending,
) -> io::Result<Option<u64>> {
    let position = match ending {
        Ending::End { position } => position,
        Ending::NoBatch(broken) => broken.position,
    };
    if position >= flushed.len {
        return Ok(Some(flushed.end));
    }
    out.flush()?;
    eprint!(rt; "tier_dump: {name}: no batch at position {position}\n")?;
    Ok(None)
}
