//! Reading a trace, line by line.

ghost use Rattle.std.specs.Prelude.{◌≡◌};
ghost use Rattle.trace_text.specs.Read.{ReadsTrace};
ghost use Rattle.trace_text.specs.Steps.{ReadsFirstLine};

use crate::line::PartJournal;
use crate::parts::Parts;
use crate::reading::line;
use crate::refusal::TraceRefusal;
use crate::words::front_len;
use std::alloc::Global;
use tier_base::Items;

/// Returns the first line and what follows its LF, or `None` if there is no LF.
fn first_line(bytes: &[u8]) -> Option<(&[u8], &[u8])>
    ensures { ReadsFirstLine bytes.now result }
{
    let end = front_len(bytes, b'\n');
    if end == bytes.len() {
        return None;
    }
    Some((&bytes[..end], &bytes[end + 1..]))
}

/// Reads a trace, and returns the partitions' journals in order. It goes over the bytes once and copies only the
/// bytes of runs. Fails at the first invalid line, or if it is out of memory.
pub fn read(alloc: Global, bytes: &[u8]) -> Result<Items<PartJournal>, TraceRefusal>
    ensures { ReadsTrace bytes.now result }
{
    let mut parts = Parts::new(alloc);
    let mut rest = bytes;
    let mut number: u32 = 1;
    while !rest.is_empty() {
        let Some((text, behind)) = first_line(rest) else {
            return Err(TraceRefusal::Bad { line: number });
        };
        let Some(line) = line(alloc, text)? else {
            return Err(TraceRefusal::Bad { line: number });
        };
        if !parts.put(alloc, line)? {
            return Err(TraceRefusal::Bad { line: number });
        }
        rest = behind;
        number = number.saturating_add(1);
    }
    Ok(parts.finish()?)
}
