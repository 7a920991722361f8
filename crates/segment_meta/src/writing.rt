//! A metadata event into its bytes. specs/Spelling.antt has their table.

ghost use Rattle.std.specs.Prelude.{◌≡◌, ◌≤◌, ◌++◌, ◌∷◌, [], length, OnOk, IfOk};
ghost use Rattle.std.specs.Int.{w16, w32, w64, to_be_bytes};
ghost use Rattle.std.specs.Option.{ForSome};
ghost use Rattle.segment_meta.specs.Rules.{IsNote, IsAdded, MayHaveCustom};
ghost use Rattle.segment_meta.specs.Spelling.{state_code, ts_bytes, pair_bytes, pairs_bytes, span_bytes};
ghost use Rattle.segment_meta.specs.Spelling.{event_bytes, entry_bytes, version_of, packed_bytes};
ghost use Rattle.segment_meta.specs.Spelling.{custom_bytes, update_bytes, note_bytes};

use crate::note::{Entry, Note};
use std::alloc::{AllocError, Global};
use tier_base::{Blob, SegmentId, State};

/// The bytes of a metadata event. Fails only if memory runs out.
#[tactic(auto, unfolding(crate::specs::Spelling::note_bytes, crate::specs::Spelling::update_bytes))]
pub fn encode(alloc: Global, note: &Note) -> Result<Vec<u8>, AllocError>
    requires { IsNote note.now }
    ensures { IfOk result (λ bytes. bytes.items ≡ note_bytes note.now) }
{
    let mut out = Vec::new(alloc);
    match note {
        Note::Add(entry) => {
            push_u8(&mut out, version(entry.packed))?;
            push_u8(&mut out, 0)?;
            push_entry(&mut out, entry)?;
            push_packed(&mut out, entry.packed)?;
        }
        Note::Update {
            id,
            broker,
            event_ts,
            state,
            custom,
        } => {
            push_u8(&mut out, version(custom.is_some()))?;
            push_u8(&mut out, 1)?;
            push_id(&mut out, *id)?;
            push_u16(&mut out, broker.0)?;
            push_ts(&mut out, *event_ts)?;
            push_u8(&mut out, code(*state))?;
            push_custom(&mut out, custom)?;
        }
    }
    Ok(out)
}

/// The version of an event.
fn version(packed: bool) -> u8
    ensures { result ≡ version_of packed }
{
    if packed { 1 } else { 0 }
}

fn push_u8(out: &mut Vec<u8>, number: u8) -> Result<(), AllocError>
    ensures { OnOk result (out.new.items ≡ out.old.items ++ number ∷ []) }
{
    out.push(number)?;
    Ok(())
}

fn push_u16(out: &mut Vec<u8>, number: u16) -> Result<(), AllocError>
    ensures { OnOk result (out.new.items ≡ out.old.items ++ to_be_bytes w16 number) }
{
    out.extend_from_slice(number.to_be_bytes().as_slice())
}

fn push_u32(out: &mut Vec<u8>, number: u32) -> Result<(), AllocError>
    ensures { OnOk result (out.new.items ≡ out.old.items ++ to_be_bytes w32 number) }
{
    out.extend_from_slice(number.to_be_bytes().as_slice())
}

fn push_u64(out: &mut Vec<u8>, number: u64) -> Result<(), AllocError>
    ensures { OnOk result (out.new.items ≡ out.old.items ++ to_be_bytes w64 number) }
{
    out.extend_from_slice(number.to_be_bytes().as_slice())
}

/// Writes a segment's id.
fn push_id(out: &mut Vec<u8>, id: SegmentId) -> Result<(), AllocError>
    ensures { OnOk result (out.new.items ≡ out.old.items ++ id.0) }
{
    out.extend_from_slice(id.0.as_bytes().as_slice())
}

/// Writes a timestamp.
#[tactic(auto, unfolding(crate::specs::Spelling::ts_bytes))]
fn push_ts(out: &mut Vec<u8>, ts: i64) -> Result<(), AllocError>
    ensures { OnOk result (out.new.items ≡ out.old.items ++ ts_bytes ts) }
{
    out.extend_from_slice(ts.to_be_bytes().as_slice())
}

/// A state's number.
fn code(state: State) -> u8
    ensures { result ≡ state_code state }
{
    match state {
        State::CopyStarted => 0,
        State::CopyFinished => 1,
        State::DeleteStarted => 2,
        State::DeleteFinished => 3,
    }
}

/// Writes an epoch and its start.
#[tactic(auto, unfolding(crate::specs::Spelling::pair_bytes))]
fn push_pair(out: &mut Vec<u8>, pair: (u32, u64)) -> Result<(), AllocError>
    ensures { OnOk result (out.new.items ≡ out.old.items ++ pair_bytes pair) }
{
    push_u32(out, pair.0)?;
    push_u64(out, pair.1)
}

/// Writes the epochs of a map.
fn push_pairs(out: &mut Vec<u8>, pairs: &[(u32, u64)]) -> Result<(), AllocError>
    ensures { OnOk result (out.new.items ≡ out.old.items ++ pairs_bytes pairs.now) }
{
    for pair in pairs {
        push_pair(out, *pair)?;
    }
    Ok(())
}

/// Writes which segment an entry describes, and its offsets.
#[tactic(auto, unfolding(crate::specs::Spelling::span_bytes))]
fn push_span(out: &mut Vec<u8>, entry: &Entry) -> Result<(), AllocError>
    ensures { OnOk result (out.new.items ≡ out.old.items ++ span_bytes entry.now) }
{
    push_id(out, entry.id)?;
    push_u16(out, entry.partition.0)?;
    push_u64(out, entry.start)?;
    push_u64(out, entry.end)?;
    Ok(())
}

/// Writes an entry's further fields before its map.
#[tactic(auto, unfolding(crate::specs::Spelling::event_bytes))]
fn push_event(out: &mut Vec<u8>, entry: &Entry) -> Result<(), AllocError>
    ensures { OnOk result (out.new.items ≡ out.old.items ++ event_bytes entry.now) }
{
    push_ts(out, entry.max_ts)?;
    push_u16(out, entry.broker.0)?;
    push_ts(out, entry.event_ts)?;
    push_u32(out, entry.size)?;
    push_u8(out, code(entry.state))
}

/// Writes an entry.
#[tactic(auto, unfolding(crate::specs::Spelling::entry_bytes))]
fn push_entry(out: &mut Vec<u8>, entry: &Entry) -> Result<(), AllocError>
    requires { length entry.now.map ≤ 67108864 }
    ensures { OnOk result (out.new.items ≡ out.old.items ++ entry_bytes entry.now) }
{
    push_span(out, entry)?;
    push_event(out, entry)?;
    let pairs = entry.map.entries();
    push_u32(out, pairs.len() as u32)?;
    push_pairs(out, pairs)
}

/// Writes what follows the map of an entry.
fn push_packed(out: &mut Vec<u8>, packed: bool) -> Result<(), AllocError>
    ensures { OnOk result (out.new.items ≡ out.old.items ++ packed_bytes packed) }
{
    if packed {
        push_u16(out, 0)?;
    }
    Ok(())
}

/// Writes custom metadata, where there is any.
fn push_custom(out: &mut Vec<u8>, custom: &Option<Blob>) -> Result<(), AllocError>
    requires { ForSome custom.now (λ bytes. length bytes ≤ 128) }
    ensures { OnOk result (out.new.items ≡ out.old.items ++ custom_bytes custom.now) }
{
    if let Some(bytes) = custom {
        push_u16(out, bytes.len() as u16)?;
        out.extend_from_slice(bytes.as_slice())?;
    }
    Ok(())
}
