//! Worked rows, by hand. Each call is made once with ample memory.

use crate::plain;
use epoch_line::{Line, TextRefusal};
use std::alloc::{AllocError, Global};

/// Epoch 0 from offset 0 on, epoch 1 from offset 5 on.
static OWN: &str = "0\n2\n0 0\n1 5\n";

/// Another log's line, which differs from offset 3 on.
static OTHER: &str = "0\n2\n0 0\n2 3\n";

/// The line that a text spells.
fn line_of(alloc: Global, text: &str) -> Option<Line> {
    Line::from_text(alloc, text.as_bytes()).ok()
}

/// Whether a line is spelled so.
fn is_spelled(alloc: Global, line: &Line, text: &str) -> bool {
    plain::is(line.to_text(alloc), text.as_bytes())
}

/// Where a log that ends there meets another one that ends at 8.
fn met(alloc: Global, end: u64) -> Option<u64> {
    let own = line_of(alloc, OWN)?;
    let other = line_of(alloc, OTHER)?;
    Some(own.meet(end, &other, 8))
}

/// The epoch of an offset.
fn epoch_at(alloc: Global, offset: u64) -> Option<u32> {
    line_of(alloc, OWN)?.epoch_at(offset)
}

/// Where an epoch ends in a log that ends at 9.
fn end_of(alloc: Global, epoch: u32) -> Option<u64> {
    line_of(alloc, OWN)?.end_of(epoch, 9)
}

/// The last entry, once the log is cut at an offset.
fn last_below(alloc: Global, end: u64) -> Option<(u32, u64)> {
    let mut own = line_of(alloc, OWN)?;
    own.cut_end(end);
    own.last()
}

/// Whether a line was made, and is spelled so.
fn is_made(alloc: Global, line: Result<Line, AllocError>, text: &str) -> bool {
    match line {
        Ok(line) => is_spelled(alloc, &line, text),
        Err(_) => false,
    }
}

/// Whether the part of a segment of the offsets 3 to 5 is spelled so.
fn is_part(alloc: Global, text: &str) -> bool {
    match line_of(alloc, OWN) {
        Some(own) => is_made(alloc, own.within(alloc, 3, 5), text),
        None => false,
    }
}

/// Whether an epoch above the last one is assigned.
fn assigns(line: &mut Line, epoch: u16, start: u32) -> bool {
    match line.last_epoch() {
        Some(last) if last >= epoch as u32 => false,
        _ => line.assign(epoch as u32, start as u64).is_ok(),
    }
}

/// Whether an entry above the last one is added.
fn adds(line: &mut Line, epoch: u16, start: u32) -> bool {
    match line.last() {
        Some((last, from)) if last >= epoch as u32 || from >= start as u64 => false,
        _ => line.push(epoch as u32, start as u64).is_ok(),
    }
}

/// Assigns epochs to a line, the last two at one offset, and then adds an entry.
fn fill(line: &mut Line) -> bool {
    let epochs = (
        assigns(line, 0, 0),
        assigns(line, 1, 5),
        assigns(line, 3, 5),
    );
    (epochs, adds(line, 4, 9)) == ((true, true, true), true)
}

/// Whether that line and its copy are spelled so.
fn is_assigned(alloc: Global, text: &str) -> bool {
    let mut own = Line::new(alloc);
    let filled = fill(&mut own);
    filled & is_spelled(alloc, &own, text) & is_made(alloc, own.copy(alloc), text)
}

/// A call of the first line, and its answer.
#[derive(Clone, Copy)]
enum Call {
    /// Where a log that ends there meets the other one.
    Meet(u64, u64),
    EpochAt(u64, u32),
    EndOf(u32, Option<u64>),
    /// The last entry, once the log is cut at an offset.
    Cut(u64, (u32, u64)),
    Within(&'static str),
    Assign(&'static str),
}

/// Whether a call gets this answer.
fn is_answered(alloc: Global, call: Call) -> bool {
    match call {
        Call::Meet(end, at) => met(alloc, end) == Some(at),
        Call::EpochAt(offset, epoch) => epoch_at(alloc, offset) == Some(epoch),
        Call::EndOf(epoch, end) => end_of(alloc, epoch) == end,
        Call::Cut(end, last) => last_below(alloc, end) == Some(last),
        Call::Within(text) => is_part(alloc, text),
        Call::Assign(text) => is_assigned(alloc, text),
    }
}

/// What is answered, and its call.
static ANSWERS: [(&str, Call); 10] = [
    ("the epochs differ from 3 on", Call::Meet(9, 3)),
    ("one log ends first", Call::Meet(2, 2)),
    ("the last of epoch 0", Call::EpochAt(4, 0)),
    ("behind it", Call::EpochAt(5, 1)),
    ("where the next epoch starts", Call::EndOf(0, Some(5))),
    ("the log's end", Call::EndOf(1, Some(9))),
    ("no such epoch", Call::EndOf(2, None)),
    ("the cut", Call::Cut(5, (0, 0))),
    ("a segment's part", Call::Within("0\n2\n0 3\n1 5\n")),
    (
        "epoch 1 has no offset",
        Call::Assign("0\n3\n0 0\n3 5\n4 9\n"),
    ),
];

#[test]
fn calls_return_as_in_the_cases(rt: HostRuntime) {
    for (name, call) in &ANSWERS {
        assert!(rt; is_answered(rt.alloc(), *call), "{name}");
    }
}

/// Texts that spell no line, and the first line that is bad.
static BAD: [(&str, u32); 12] = [
    ("0\n2\n0 0\n", 4),
    ("1\n", 1),
    ("", 1),
    ("0\n", 2),
    ("0\n01\n0 0\n", 2),
    ("0\n2147483649\n", 2),
    ("0\n1\n0 00\n", 3),
    ("0\n1\n0  0\n", 3),
    ("0\n1\n2147483648 0\n", 3),
    ("0\n2\n1 0\n2 0\n", 4),
    ("0\n1\n0 0", 3),
    ("0\n1\n0 0\n\n", 4),
];

/// Whether the line that a text spells is spelled so again.
fn is_spelled_again(alloc: Global, text: &str) -> bool {
    match line_of(alloc, text) {
        Some(line) => is_spelled(alloc, &line, text),
        None => false,
    }
}

/// Why a text spells no line.
fn refusal(alloc: Global, text: &str) -> Option<TextRefusal> {
    Line::from_text(alloc, text.as_bytes()).err()
}

#[test]
fn the_first_invalid_line_is_reported(rt: HostRuntime) {
    for (text, line) in &BAD {
        let wanted = TextRefusal::BadText { line: *line };
        assert_eq!(rt; refusal(rt.alloc(), text), Some(wanted), "at line {line}");
    }
}

/// The greatest epoch and offset.
static GREATEST: &str = "0\n2\n0 0\n2147483647 4611686018427387904\n";

#[test]
fn what_is_written_is_read_again(rt: HostRuntime) {
    assert!(rt; is_spelled_again(rt.alloc(), GREATEST));
}
