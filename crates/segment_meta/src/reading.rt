//! A metadata event out of its bytes. specs/Reading.antt says what bytes mean, specs/Spelling.antt has the table.
//!
//! The fields are read from left to right, so the first fault is reported. Only the leader epochs and the custom
//! metadata allocate, and only as much as there are bytes for: a count alone allocates nothing.

ghost use Rattle.std.specs.Prelude.{◌≡◌, ◌<◌, ◌≤◌, ◌^◌, IfOk, None};
ghost use Rattle.std.specs.Option.{option_map};
ghost use Rattle.epoch_line.specs.Line.{last_entry};
ghost use Rattle.segment_meta.specs.Rules.{IsNote};
ghost use Rattle.segment_meta.specs.Reading.{range_at, front_at, epoch_may, start_may, pair_at, pairs_at, whole};
ghost use Rattle.segment_meta.specs.Reading.{packed_in, entry_of, added_in, later_state, size_may, custom_in};
ghost use Rattle.segment_meta.specs.Reading.{updated_in, kind_in, note_in, seen, Answers};

use crate::fields::{cut, id_of, read_ts, read_u8, read_u16, read_u32, read_u64};
use crate::note::{Entry, Front, Note};
use crate::refusal::NoteRefusal;
use epoch_line::Line;
use std::alloc::Global;
use tier_base::{Blob, BrokerId, OFFSET_LIMIT, PartitionId, SegmentId, State};

/// Epochs are below 2^31.
const EPOCHS: u32 = 1 << 31;
/// The most epochs of a map.
const MOST_EPOCHS: u32 = 67_108_864;
/// The most bytes of custom metadata.
const MOST_CUSTOM: u16 = 128;

/// The metadata event of these bytes, or their first fault.
#[tactic(auto, unfolding(crate::specs::Reading::note_in))]
pub fn decode(alloc: Global, bytes: &[u8]) -> Result<Note, NoteRefusal>
    ensures exact { Answers (λ note. note) result (note_in bytes.now) }
    ensures rules { IfOk result IsNote }
{
    let (version, rest) = read_u8(bytes)?;
    if version > 1 {
        return Err(NoteRefusal::BadVersion);
    }
    let packed = version == 1;
    let (kind, rest) = read_u8(rest)?;
    match kind {
        0 => added(alloc, packed, rest),
        1 => updated(alloc, packed, rest),
        _ => Err(NoteRefusal::Bad { at: 1 }),
    }
}

/// The first and the last offset.
#[tactic(auto, unfolding(crate::specs::Reading::range_at))]
fn range(bytes: &[u8]) -> Result<((u64, u64), &[u8]), NoteRefusal>
    ensures exact { seen (λ x. ((x.0.0, x.0.1), x.1.now)) result ≡ range_at bytes.now }
    ensures within { IfOk result (λ x. (x.0.0 ≤ x.0.1) × (x.0.1 < 2 ^ 62)) }
{
    let (start, rest) = read_u64(bytes)?;
    let (end, rest) = read_u64(rest)?;
    if start > end || end >= OFFSET_LIMIT {
        return Err(NoteRefusal::Bad { at: 28 });
    }
    Ok(((start, end), rest))
}

/// The fields between the id and the map.
#[tactic(auto, unfolding(crate::specs::Reading::front_at))]
fn front(bytes: &[u8]) -> Result<(Front, &[u8]), NoteRefusal>
    ensures exact { seen (λ x. (x.0, x.1.now)) result ≡ front_at bytes.now }
    ensures within { IfOk result (λ x. (x.0.start ≤ x.0.end) × (x.0.end < 2 ^ 62)) }
{
    let (partition, rest) = read_u16(bytes)?;
    let ((start, end), rest) = range(rest)?;
    let (max_ts, rest) = read_ts(rest)?;
    let (broker, rest) = read_u16(rest)?;
    let (event_ts, rest) = read_ts(rest)?;
    let (size, rest) = read_u32(rest)?;
    let (code, rest) = read_u8(rest)?;
    if code != 0 {
        return Err(NoteRefusal::BadState);
    }
    let front = Front {
        partition: PartitionId(partition),
        start,
        end,
        max_ts,
        broker: BrokerId(broker),
        event_ts,
        size,
    };
    Ok((front, rest))
}

/// Whether an epoch may follow the last one.
fn epoch_may(last: Option<(u32, u64)>, epoch: u32) -> bool
    ensures { result ≡ epoch_may last epoch }
{
    match last {
        None => epoch < EPOCHS,
        Some(last) => epoch < EPOCHS && last.0 < epoch,
    }
}

/// Whether a start may follow the last one.
fn start_may(range: (u64, u64), last: Option<(u32, u64)>, start: u64) -> bool
    ensures { result ≡ start_may range.0 range.1 last start }
{
    match last {
        None => start == range.0,
        Some(last) => last.1 < start && start <= range.1,
    }
}

/// An epoch of the map and its start, which are at a place after the last ones.
#[tactic(auto, unfolding(crate::specs::Reading::pair_at))]
fn pair(
    range: (u64, u64),
    at: u32,
    last: Option<(u32, u64)>,
    bytes: &[u8],
) -> Result<((u32, u64), &[u8]), NoteRefusal>
    requires { at ≤ 805306431 }
    ensures { seen (λ x. ((x.0.0, x.0.1), x.1.now)) result ≡ pair_at range.0 range.1 at last bytes.now }
{
    let (epoch, rest) = read_u32(bytes)?;
    if !epoch_may(last, epoch) {
        return Err(NoteRefusal::Bad { at });
    }
    let (start, rest) = read_u64(rest)?;
    if !start_may(range, last, start) {
        return Err(NoteRefusal::Bad { at: at + 4 });
    }
    Ok(((epoch, start), rest))
}

/// The map, of so many epochs.
fn map(
    alloc: Global,
    range: (u64, u64),
    count: u32,
    bytes: &[u8],
) -> Result<(Line, &[u8]), NoteRefusal>
    requires few { count ≤ 67108864 }
    requires ordered { range.0 ≤ range.1 }
    requires bounded { range.1 < 2 ^ 62 }
    ensures { Answers (λ x. (x.0, x.1.now)) result
        (pairs_at range.0 range.1 count 63 None bytes.now) }
{
    let mut map = Line::new(alloc);
    let mut rest = bytes;
    for i in 0..count {
        let ((epoch, start), behind) = pair(range, 63 + 12 * i, map.last(), rest)?;
        map.push(epoch, start)?;
        rest = behind;
    }
    Ok((map, rest))
}

/// Nothing, where these bytes, which begin at this place, are none.
fn whole(at: u32, bytes: &[u8]) -> Result<(), NoteRefusal>
    ensures { result ≡ whole at tt bytes.now }
{
    match bytes {
        [] => Ok(()),
        _ => Err(NoteRefusal::Bad { at }),
    }
}

/// Nothing, where these bytes, which begin at this place, are what follows an entry's map.
#[tactic(auto, unfolding(crate::specs::Reading::packed_in))]
fn packed_end(packed: bool, at: u32, bytes: &[u8]) -> Result<(), NoteRefusal>
    requires { at ≤ 805306431 }
    ensures { result ≡ packed_in packed at bytes.now }
{
    if !packed {
        return whole(at, bytes);
    }
    let (size, rest) = read_u16(bytes)?;
    if size != 0 {
        return Err(NoteRefusal::Bad { at });
    }
    whole(at + 2, rest)
}

/// An event that adds an entry, packed or not, after version and kind.
#[tactic(auto, unfolding(crate::specs::Reading::added_in, crate::specs::Reading::id_at))]
fn added(alloc: Global, packed: bool, bytes: &[u8]) -> Result<Note, NoteRefusal>
    ensures { Answers (λ note. note) result (added_in packed bytes.now) }
{
    let (id, rest) = cut(bytes, 16)?;
    let (front, rest) = front(rest)?;
    let (count, rest) = read_u32(rest)?;
    if count == 0 || count > MOST_EPOCHS {
        return Err(NoteRefusal::Bad { at: 59 });
    }
    let (map, rest) = map(alloc, (front.start, front.end), count, rest)?;
    packed_end(packed, 63 + 12 * count, rest)?;
    Ok(Note::Add(entry(packed, id_of(id), front, map)))
}

/// The entry of these parts.
fn entry(packed: bool, id: SegmentId, front: Front, map: Line) -> Entry
    ensures { result ≡ entry_of packed id front map }
{
    Entry {
        id,
        partition: front.partition,
        start: front.start,
        end: front.end,
        max_ts: front.max_ts,
        broker: front.broker,
        event_ts: front.event_ts,
        size: front.size,
        state: State::CopyStarted,
        map,
        packed,
        custom: None,
    }
}

/// The state that an update may report by this number.
fn later_state(code: u8) -> Result<State, NoteRefusal>
    ensures { result ≡ later_state code }
{
    match code {
        1 => Ok(State::CopyFinished),
        2 => Ok(State::DeleteStarted),
        3 => Ok(State::DeleteFinished),
        _ => Err(NoteRefusal::BadState),
    }
}

/// Whether custom metadata of so many bytes may be in an update to a state.
fn size_may(state: State, size: u16) -> bool
    ensures { result ≡ size_may state size }
{
    match state {
        State::CopyFinished => size <= MOST_CUSTOM,
        _ => size == 0,
    }
}

/// The custom metadata of an update to a state, whose last bytes these are.
#[tactic(auto, unfolding(crate::specs::Reading::custom_in))]
fn custom(
    alloc: Global,
    packed: bool,
    state: State,
    bytes: &[u8],
) -> Result<Option<Blob>, NoteRefusal>
    ensures { Answers (λ custom. custom) result (custom_in packed state bytes.now) }
{
    if !packed {
        whole(29, bytes)?;
        return Ok(None);
    }
    let (size, rest) = read_u16(bytes)?;
    if !size_may(state, size) {
        return Err(NoteRefusal::Bad { at: 29 });
    }
    let (custom, rest) = cut(rest, size as usize)?;
    whole(31 + size as u32, rest)?;
    Ok(Some(Blob::from_slice(alloc, custom)?))
}

/// An event that updates an entry, packed or not, after version and kind.
#[tactic(auto, unfolding(crate::specs::Reading::updated_in, crate::specs::Reading::id_at))]
fn updated(alloc: Global, packed: bool, bytes: &[u8]) -> Result<Note, NoteRefusal>
    ensures { Answers (λ note. note) result (updated_in packed bytes.now) }
{
    let (id, rest) = cut(bytes, 16)?;
    let (broker, rest) = read_u16(rest)?;
    let (event_ts, rest) = read_ts(rest)?;
    let (code, rest) = read_u8(rest)?;
    let state = later_state(code)?;
    let custom = custom(alloc, packed, state, rest)?;
    Ok(Note::Update {
        id: id_of(id),
        broker: BrokerId(broker),
        event_ts,
        state,
        custom,
    })
}
