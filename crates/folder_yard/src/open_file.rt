//! An open file: writes that are whole or taken back, reads of a part, and cuts.

ghost use Rattle.std.specs.Prelude.{◌≡◌, ◌↔◌, ◌<◌, ◌≤◌, IfOk, IfSome, IsNone, OnOk, take};
ghost use Rattle.std.specs.Io.KnownBytes.{Appends};

use bytes::Bytes;
use std::alloc::Global;
use std::fs::OpenFile;
use std::io::{self, Read, Seek, SeekFrom, Write};

/// Writes bytes at the end of a file of this length. Those of a write that fails are taken back, so
/// that a reader finds all of them or none.
pub fn write_whole<F: Write + OpenFile>(file: &mut F, len: u64, bytes: &[u8]) -> io::Result<()>
    ensures { OnOk result (Appends (F.contents file.old) (F.contents file.new) bytes.now) }
{
    let outcome = file.write_all(bytes);
    if outcome.is_err() {
        let _ = file.set_len(len);
    }
    outcome
}

/// Up to how many bytes of a file are read without asking how many it has. It makes room for as many.
const UNASKED: u64 = 65_536;

/// Gives so many bytes of a file from a place on, fewer only where it ends.
pub fn read_part<F: Read + Seek + OpenFile>(
    alloc: Global,
    file: &mut F,
    at: u64,
    most: u64,
) -> io::Result<Bytes> {
    let most = if most <= UNASKED && at <= u32::MAX as u64 {
        most
    } else {
        file.metadata()?.len().saturating_sub(at).min(most)
    };
    if most == 0 {
        return Ok(Bytes::new());
    }
    file.seek(SeekFrom::Start(at))?;
    read_front(alloc, file, most)
}

/// Gives so many bytes that a reader has left, fewer only where it ends.
fn read_front<R: Read>(alloc: Global, reader: &mut R, most: u64) -> io::Result<Bytes>
    ensures { IfOk result (λ bytes. IfSome (R.remaining reader.old) (λ left. bytes ≡ take most left)) }
{
    let mut bytes = Vec::new(alloc);
    // One more, since the vector grows where it is full when the end is asked for.
    bytes.reserve((most as usize).saturating_add(1))?;
    reader.take(most).read_to_end(&mut bytes)?;
    Ok(Bytes::from_vec(bytes)?)
}

/// Cuts a file to a length. Nothing is done where it is shorter.
pub fn cut<F: OpenFile>(file: &F, len: u64) -> io::Result<()> {
    match shorter(file.metadata()?.len(), len) {
        Some(len) => file.set_len(len),
        None => Ok(()),
    }
}

/// The length to which a file of this length is to be cut, if it is longer.
fn shorter(now: u64, len: u64) -> Option<u64>
    ensures some { IfSome result (λ cut. (cut ≡ len) × (cut < now)) }
    ensures none { IsNone result ↔ (now ≤ len) }
{
    if len < now { Some(len) } else { None }
}
