//! The metadata log of a partition: its events, and the gate up to which they count.

ghost use Rattle.std.specs.Prelude.{◌≡◌, ◌≢◌, None, length, IfSome};
ghost use Rattle.std.specs.Int.{w64, to_be_bytes};

use crate::files::{bytes_of, exists};
use crate::output::{complain, finish, print_line};
use dump_lines::{Field, LineText, Name, NextNote, Style, Value, next_note, put_note};
use remote_view::View;
use segment_meta::Note;
use std::io::{self, Write};

/// The number of eight bytes, big endian.
fn number(bytes: &[u8]) -> Option<u64>
    ensures is { IfSome result (λ n. to_be_bytes w64 n ≡ bytes.now) }
    ensures none { result ≡ None → length bytes.now ≢ 8 }
{
    if bytes.len() != 8 {
        return None;
    }
    Some(u64::from_be_bytes([
        bytes[0], bytes[1], bytes[2], bytes[3], bytes[4], bytes[5], bytes[6], bytes[7],
    ]))
}

/// The length up to which a metadata log counts, if its folder has a valid gate.
pub fn gate_of(rt: &HostRuntime, folder: &str) -> io::Result<Option<u64>> {
    let name = format!(in rt.alloc(); "{folder}/gate")?;
    if !exists(rt, name.as_str()) {
        return Ok(None);
    }
    let Some(bytes) = bytes_of(rt, name.as_str())? else {
        return Ok(None);
    };
    let gate = number(bytes.as_slice());
    if gate.is_none() {
        complain(rt, name.as_str(), "a gate has 8 bytes")?;
    }
    Ok(gate)
}

/// An event's place: where it begins, and whether it counts.
#[derive(Clone, Copy)]
struct Place {
    position: u64,
    counts: bool,
}

/// Prints an event.
fn print_note<W: Write>(
    rt: &HostRuntime,
    out: &mut W,
    style: Style,
    place: Place,
    note: &Note,
) -> io::Result<()> {
    let fields = [
        Field {
            name: Name::Position,
            value: Value::Unsigned(place.position),
        },
        Field {
            name: Name::Counts,
            value: Value::Flag(place.counts),
        },
    ];
    let mut line = LineText::new(rt.alloc(), style);
    line.fields(rt.alloc(), fields.as_slice())?;
    put_note(rt.alloc(), &mut line, note)?;
    finish(rt, out, line)
}

/// Prints the events of a metadata log's bytes, of which those up to the gate count.
fn print_events<W: Write>(
    rt: &HostRuntime,
    out: &mut W,
    style: Style,
    bytes: &[u8],
    gate: Option<u64>,
    name: &str,
) -> io::Result<u8> {
    let mut rest = bytes;
    for _ in 0..bytes.len() {
        let position = bytes.len().saturating_sub(rest.len()) as u64;
        match next_note(rt.alloc(), rest)? {
            NextNote::End => return Ok(0),
            NextNote::Event(note, behind) => {
                let end = bytes.len().saturating_sub(behind.len()) as u64;
                let counts = is_within(end, gate);
                let place = Place { position, counts };
                print_note(rt, out, style, place, &note)?;
                rest = behind;
            }
            NextNote::Cut => {
                out.flush()?;
                eprint!(rt; "tier_dump: {name}: the event at position {position} is cut short\n")?;
                return Ok(1);
            }
            NextNote::Bad(why) => {
                out.flush()?;
                eprint!(rt; "tier_dump: {name}: no event at position {position}: {why}\n")?;
                return Ok(1);
            }
        }
    }
    Ok(0)
}

/// Whether an event that ends here counts.
fn is_within(end: u64, gate: Option<u64>) -> bool {
    match gate {
        Some(gate) => end <= gate,
        None => false,
    }
}

/// Prints the gate.
fn print_gate<W: Write>(
    rt: &HostRuntime,
    out: &mut W,
    style: Style,
    gate: Option<u64>,
    folder: &str,
) -> io::Result<()> {
    match gate {
        Some(gate) => {
            let line = [Field {
                name: Name::Gate,
                value: Value::Unsigned(gate),
            }];
            print_line(rt, out, style, line.as_slice())
        }
        None => {
            out.flush()?;
            complain(rt, folder, "no gate: no event counts")?;
            Ok(())
        }
    }
}

/// `notes`: prints the events of a metadata log, and which of them count.
pub fn print_notes<W: Write>(
    rt: &HostRuntime,
    out: &mut W,
    style: Style,
    folder: &str,
) -> io::Result<u8> {
    let name = format!(in rt.alloc(); "{folder}/notes")?;
    let Some(bytes) = bytes_of(rt, name.as_str())? else {
        return Ok(1);
    };
    let gate = gate_of(rt, folder)?;
    let status = print_events(rt, out, style, bytes.as_slice(), gate, name.as_str())?;
    print_gate(rt, out, style, gate, folder)?;
    Ok(status)
}

/// Adds the events of a metadata log's bytes to a view.
pub fn feed(rt: &HostRuntime, view: &mut View, bytes: &[u8], name: &str) -> io::Result<u8> {
    let mut rest = bytes;
    for _ in 0..bytes.len() {
        match next_note(rt.alloc(), rest)? {
            NextNote::End => return Ok(0),
            NextNote::Event(note, behind) => {
                view.feed(note)?;
                rest = behind;
            }
            NextNote::Cut => return complain(rt, name, "an event is cut short"),
            NextNote::Bad(why) => {
                eprint!(rt; "tier_dump: {name}: {why}\n")?;
                return Ok(1);
            }
        }
    }
    Ok(0)
}
