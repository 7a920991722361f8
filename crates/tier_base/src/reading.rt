//! Reading a source to its end, within a limit.
//!
//! Room is made in pieces of 64 KiB at the vector's end, and the source reads straight into it.
//! A vector that grows doubles, so no byte is moved more than a few times.

ghost use Rattle.std.specs.Prelude.{◌≡◌, ℕ, ◌+◌, ◌-◌, ◌^◌, ◌<◌, ◌≤◌, List, length, take, drop, vec_len};
ghost use Rattle.std.specs.Prelude.{is_some, IfOk, OnOk, OnErr, IfSome, IsErrOf, MatchResult};
ghost use Rattle.std.specs.Result.{result_unwrap_or};
ghost use Rattle.std.specs.Io.KnownBytes.{ReadConsumes};
ghost use Rattle.tier_base.specs.Counts.{counted, Rose, HasCause};
ghost use Rattle.tier_base.specs.Stream.{ReadsWhole, Gave, GaveUpTo};

use crate::fault::Failed;
use crate::stream::Source;
use std::alloc::{AllocError, Global};
use thiserror::Error;

/// Why a source wasn't read to its end. What it gave until then is lost.
#[derive(Clone, Copy, Debug, PartialEq, Eq, Error)]
pub enum ReadRefusal {
    /// A read failed.
    #[error("read fault")]
    Failed,
    /// More than the limit came. One byte past it was read.
    #[error("too long")]
    TooLong,
    /// Memory ran out.
    #[error("out of memory")]
    NoMemory,
}

/// The bytes for which room is made at a time.
const PIECE: usize = 65536;

/// Reads a source to its end, unless more than `limit` bytes come.
pub fn read_all<R: Source>(
    alloc: Global,
    source: &mut R,
    limit: usize,
) -> Result<Vec<u8>, ReadRefusal>
    requires { limit + 1 < 2 ^ 64 }

    ensures read { IfOk result (λ bytes.
        ReadsWhole (R.left source.old) (R.left source.new) bytes.items) }
    ensures count { IfOk result (λ bytes.
        R.given source.new ≡ counted (R.given source.old) (length bytes.items)) }
    ensures within { IfOk result (λ bytes. length bytes.items ≤ limit) }
    ensures err { OnErr result (GaveUpTo (R.left source.old) (R.left source.new)
        (R.given source.old) (R.given source.new) (limit + 1)) }
    ensures is_observable { is_some (R.left source.new) ≡ is_some (R.left source.old) }
    ensures later { R.faults source.old ≤ R.faults source.new }

    // Each cause.
    ensures failed { IsErrOf result ReadRefusal.Failed
        → Rose (R.faults source.old) (R.faults source.new) }
    ensures long { IsErrOf result ReadRefusal.TooLong
        → Gave (R.left source.old) (R.left source.new) (limit + 1) }
    ensures long_count { IsErrOf result ReadRefusal.TooLong
        → R.given source.new ≡ counted (R.given source.old) (limit + 1) }
    ensures fits { IfSome (R.left source.old) (λ bytes.
        length bytes ≤ limit → ¬ IsErrOf result ReadRefusal.TooLong) }
    ensures fewer { ¬ IsErrOf result ReadRefusal.TooLong
        → R.given source.new ≤ R.given source.old + limit }
{
    let mut bytes = Vec::new(alloc);
    let mut read = 0;
    'pieces: loop {
        match make_room(&mut bytes, read, limit + 1) {
            Ok(()) => {}
            Err(_) => return Err(ReadRefusal::NoMemory),
        }
        match read_at(source, &mut bytes, read) {
            Ok(0) => {
                bytes.truncate(read);
                return Ok(bytes);
            }
            Ok(count) => read += count,
            Err(_) => return Err(ReadRefusal::Failed),
        }
        if read > limit {
            return Err(ReadRefusal::TooLong);
        }
    }
}

/// Makes room after the bytes that were read, if there is none, up to `most` bytes in all.
fn make_room(bytes: &mut Vec<u8>, read: usize, most: usize) -> Result<(), AllocError>
    requires within { read ≤ vec_len bytes.old }
    requires below { read < most }
    requires bound { vec_len bytes.old ≤ most }
    ensures front { take read bytes.new.items ≡ take read bytes.old.items }
    ensures room { OnOk result (read < vec_len bytes.new) }
    ensures bound { vec_len bytes.new ≤ most }
{
    if read < bytes.len() {
        return Ok(());
    }
    bytes.resize(read + PIECE.min(most - read), 0)
}

/// Reads once, into the room from a place on.
fn read_at<R: Source>(source: &mut R, bytes: &mut Vec<u8>, at: usize) -> Result<usize, Failed>
    requires { at < vec_len bytes.old }
    ensures front { take at bytes.new.items ≡ take at bytes.old.items }
    ensures len { vec_len bytes.new ≡ vec_len bytes.old }
    ensures fits { IfOk result (λ count. at + count ≤ vec_len bytes.new) }
    ensures bytes { ReadConsumes (R.left source.old) (R.left source.new)
        result (drop at bytes.new.items) }
    ensures count { R.given source.new ≡ counted (R.given source.old) (result_unwrap_or result 0) }
    ensures is_observable { is_some (R.left source.new) ≡ is_some (R.left source.old) }
    ensures cause { HasCause (R.faults source.old) (R.faults source.new) result }
{
    source.read(&mut bytes[at..])
}
