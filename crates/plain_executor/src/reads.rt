//! The rows of what a leader is asked for, batches and offsets, which aren't refused.

ghost use Rattle.std.specs.Prelude.{◌≡◌, ◌≤◌, ◌+◌, ◌^◌, ◌<◌, ◌*◌, ℕ, take, drop, length, Some, bytes_eq, if◌then◌else◌};
ghost use Rattle.std.specs.Option.{option_copied};
ghost use Rattle.log_terms.specs.Log.{IsConsecutive, joined, from_offset, end_of};
ghost use Rattle.registry.specs.Calls.{when};
ghost use Rattle.plain_log.specs.declared.state.State.{State as StateIs};
ghost use Rattle.plain_log.specs.Fetch.{fitting, run_of, is_within, stops_rightly, is_run};
ghost use Rattle.plain_executor.specs.Change.{is_timed};
ghost use Rattle.plain_log.specs.RowsOfReads.{fetch_row, offset_row, offset_at, first_at, is_offset_of, is_long};

use crate::ends::{count_up_to, end_in};
use crate::part::Part;
use plain_log::{Answer, Broker, PlainSnapshot, State, Which, base_offset, max_ts};
use tier_base::Stop;

/// How many of the first batches fit the room.
fn count_fitting(room: u64, log: &Part) -> usize
    ensures within { result ≤ length log.now }
    ensures is { fitting room log.now ≡ take result log.now }
{
    let mut left = room;
    for i in 0..log.len() {
        let size = log.get(i).len() as u64;
        if left < size {
            return i;
        }
        left -= size;
    }
    log.len()
}

/// How many bytes batches have.
fn size_of(log: &Part) -> u128
    ensures is { result ≡ length (joined log.now) }
    ensures small { result ≤ length log.now * 2 ^ 63 }
{
    let mut size: u128 = 0;
    for i in 0..log.len() {
        size += log.get(i).len() as u128;
    }
    size
}

/// Whether bytes are those of batches, one after another.
#[tactic(auto, using(crate::proofs::Joined::joined_at, crate::proofs::Joined::joined_short))]
fn is_joined(log: &Part, bytes: &[u8]) -> bool
    ensures { result ≡ bytes_eq (joined log.now) bytes.now }
{
    let mut rest = bytes;
    for i in 0..log.len() {
        let batch = log.get(i);
        if rest.len() < batch.len() {
            return false;
        }
        let (front, behind) = rest.split_at(batch.len());
        if batch.as_slice() != front {
            return false;
        }
        rest = behind;
    }
    rest.is_empty()
}

/// Whether there is one batch, or several that fit the limit.
pub(crate) fn fits_limit(limit: u64, log: &Part) -> bool
    ensures { result ≡ is_within limit log.now }
{
    match log.len() {
        0 => false,
        1 => true,
        _ => size_of(log) <= u128::from(limit),
    }
}

/// Whether the stop says why the run ends that is the first so many batches from the offset on.
fn is_stop(x: &Broker, log: &Part, count: usize, limit: u64, stop: Stop) -> bool
    requires { count ≤ length log.now }
    ensures { (offset size : ℕ) → log.now ≡ from_offset offset x.now.log → take count log.now ≡ run_of x.now offset size
        → stops_rightly x.now offset limit size stop ≡ result }
{
    let whole = end_in(&log.first(count)) == u128::from(x.known_high_watermark);
    match stop {
        Stop::Mark => whole,
        Stop::Piece => !whole,
        Stop::Limit => {
            !whole
                && u128::from(limit) < size_of(&log.first(count.saturating_add(1).min(log.len())))
        }
    }
}

/// Whether these bytes are a run, of this size and with this stop.
fn is_told_run(x: &Broker, offset: u64, limit: u64, size: u64, stop: Stop, bytes: &[u8]) -> bool
    requires { IsConsecutive 0 x.now.log }
    ensures { result ≡ is_run x.now offset limit size stop bytes.now }
{
    let log = Part::of(&x.log);
    let log = log.after(count_up_to(offset, &log));
    let count = count_fitting(size, &log);
    let run = log.first(count);
    size == bytes.len() as u64
        && is_joined(&run, bytes)
        && fits_limit(limit, &run)
        && end_in(&run) <= u128::from(x.known_high_watermark)
        && is_stop(x, &log, count, limit, stop)
}

/// Whether a fetch gets this answer.
pub(crate) fn fetch(
    x: &Broker,
    offset: u64,
    limit: u32,
    recorded: Option<&PlainSnapshot>,
    answer: &Answer,
) -> bool
    requires { IsConsecutive 0 x.now.log }
    ensures { (p : StateIs) → fetch_row p x.now offset limit (option_copied recorded.entry) answer.now ≡ when result p }
{
    match answer {
        Answer::Run {
            size,
            stop,
            bytes,
            ..
        } => is_told_run(x, offset, u64::from(limit), *size, *stop, bytes.as_slice()),
        Answer::DiskFault => recorded.is_none(),
        Answer::MetaFault | Answer::StoreFault => recorded.is_some(),
        Answer::Damaged(..) => true,
        _ => false,
    }
}

/// Whether the question takes the remote tier.
pub(crate) fn takes_turns(which: &Which) -> bool
    ensures { result ≡ is_long which.now }
{
    matches!(which, Which::LatestTiered | Which::At(_))
}

/// The base of the first batch whose greatest timestamp isn't earlier, or the log start offset where that is greater.
#[tactic(auto, using(crate::proofs::Parts::drop_at))]
fn first_offset(ts: i64, start: u64, log: &Part) -> Option<u64>
    ensures { result ≡ first_at ts start log.now }
{
    for i in 0..log.len() {
        let batch = log.get(i);
        if max_ts(batch.as_slice()) >= ts {
            return Some(base_offset(batch.as_slice()).max(start));
        }
    }
    None
}

/// The offset of a timestamp.
fn offset_for(p: &State, x: &Broker, ts: i64) -> Option<u64>
    requires { IsConsecutive 0 x.now.log }
    ensures { result ≡ offset_at p.now x.now ts }
{
    let log = Part::of(&x.log);
    let start = p.registry.start;
    let known = log.first(count_up_to(x.known_high_watermark, &log));
    first_offset(ts, start, &known.after(count_up_to(start, &known)))
}

/// Whether this is the offset that was asked for.
fn is_offset(p: &State, x: &Broker, which: &Which, answer: Option<u64>) -> bool
    requires { IsConsecutive 0 x.now.log }
    ensures { result ≡ is_offset_of p.now x.now which.now answer }
{
    match which {
        Which::Earliest => answer == Some(p.registry.start),
        Which::Latest => answer == Some(x.known_high_watermark),
        Which::At(ts) => answer == offset_for(p, x, *ts),
        _ => true,
    }
}

/// Whether a question for an offset gets this answer.
pub(crate) fn offset(
    p: &State,
    x: &Broker,
    which: &Which,
    recorded: Option<&PlainSnapshot>,
    answer: &Answer,
) -> bool
    requires { IsConsecutive 0 x.now.log }
    ensures { offset_row p.now x.now which.now (option_copied recorded.entry) answer.now ≡ when result p.now }
{
    let snapshot = recorded.is_some();
    match answer {
        Answer::Offset(n) => takes_turns(which) == snapshot && is_offset(p, x, which, Some(*n)),
        Answer::NoOffset => snapshot && takes_turns(which) && is_offset(p, x, which, None),
        Answer::MetaFault => may_fail(which, snapshot),
        Answer::StoreFault | Answer::DiskFault | Answer::Damaged(..) => {
            snapshot && matches!(which, Which::At(_))
        }
        _ => false,
    }
}

/// Whether the metadata log may fail at this turn of a question.
fn may_fail(which: &Which, snapshot: bool) -> bool
    ensures { result ≡ (if snapshot then is_timed which.now else is_long which.now) }
{
    match which {
        Which::At(_) => true,
        Which::LatestTiered => !snapshot,
        _ => false,
    }
}
