//! The length of a journal's text, for its allocation.
//!
//! A sum that overflows stays at the greatest `usize`, and then the allocation fails.

ghost use Rattle.std.specs.Prelude.{◌≤◌, ◌+◌, ◌-◌, ◌^◌, min, length, decimal};
ghost use Rattle.trace_text.specs.Names.{padded, file_name_text, cause_numbers};
ghost use Rattle.trace_text.specs.Trace.{place_text, tier_words, fields_of, event_words};
ghost use Rattle.trace_text.specs.Trace.{spaced, entry_line, journal_text};

use crate::names::{answer_name, cause_name};
use crate::shapes::{Shape, shape_of};
use plain_log::{Answer, Event, JournalEntry, Place, Tier};
use record_batch::BatchRefusal;
use tier_base::{FileName, PartitionId};

/// Returns the number of decimal digits.
fn digits(n: u64) -> usize
    ensures enough { length (decimal n) ≤ result }
    ensures few { result ≤ 20 }
{
    if n == 0 { 1 } else { n.ilog10() as usize + 1 }
}

/// Bounds the length of a refusal's numbers, each after a space.
#[tactic(auto, using(crate::proofs::Lengths::lengths))]
fn numbers_room(cause: BatchRefusal) -> usize
    ensures enough { length (spaced (cause_numbers cause)) ≤ result }
    ensures few { result ≤ 42 }
{
    match cause {
        BatchRefusal::BadCrc { kept, computed } => {
            2 + digits(u64::from(kept)) + digits(u64::from(computed))
        }
        BatchRefusal::BadRecords { at } => 1 + digits(u64::from(at)),
        BatchRefusal::Short
        | BatchRefusal::BadMagic
        | BatchRefusal::BadLength
        | BatchRefusal::Compressed
        | BatchRefusal::Transactional
        | BatchRefusal::Control => 0,
    }
}

/// Bounds the length of a place of damage.
#[tactic(auto, using(crate::proofs::Lengths::lengths), unfolding(crate::specs::Names::padded, tier_base::specs::Key::key_text))]
fn place_room(place: Place) -> usize
    ensures enough { length (place_text place) ≤ result }
    ensures few { result ≤ 67 }
{
    match place {
        Place::Key(key) => 47 + digits(u64::from(key.partition.0)),
        Place::File(FileName::Log(base)) => 4 + digits(base).max(20),
        Place::File(_) => 8,
        Place::Meta => 4,
    }
}

/// Bounds the length of the words that say where a run comes from, each after a space.
#[tactic(auto, using(crate::proofs::Lengths::lengths))]
fn tier_room(tier: Tier) -> usize
    ensures enough { length (spaced (tier_words tier)) ≤ result }
    ensures few { result ≤ 44 }
{
    match tier {
        Tier::Local(base) => 7 + digits(base),
        Tier::Remote(_) => 44,
    }
}

/// Bounds the length of an answer's fields, each after a space.
#[tactic(auto, using(crate::proofs::Lengths::lengths))]
fn fields_room(answer: &Answer) -> usize
    ensures { min (length (spaced (fields_of answer.now))) (2 ^ 64 - 1) ≤ result }
{
    match shape_of(answer) {
        Shape::Bare => 0,
        Shape::Counted(n) => 1 + digits(n),
        Shape::Paired(a, b) => 2 + digits(a) + digits(b),
        Shape::Span(base, last, epoch) => 3 + digits(base) + digits(last) + digits(epoch),
        Shape::Cause(cause) => 1 + cause_name(cause).len() + numbers_room(cause),
        Shape::Damage(place, at) => 2 + place_room(place) + digits(at),
        Shape::Segment(_, start, last) => 39 + digits(start) + digits(last),
        Shape::State(_) => 15,
        Shape::Id(_) => 37,
        Shape::Run {
            tier,
            size,
            bytes,
            ..
        } => {
            let bytes = bytes.len().saturating_mul(2);
            (8 + tier_room(tier) + digits(size)).saturating_add(bytes)
        }
    }
}

/// Bounds the length of an event, each word after a space.
#[tactic(auto, using(crate::proofs::Lengths::lengths))]
fn event_room(event: &Event) -> usize
    ensures { min (length (spaced (event_words event.now))) (2 ^ 64 - 1) ≤ result }
{
    match event {
        Event::Begins { cut: None } => 6,
        Event::Begins { cut: Some(end) } => 11 + digits(*end),
        Event::Answers(answer) => fields_room(answer).saturating_add(3 + answer_name(answer).len()),
    }
}

/// Bounds the length of a line, in bytes.
#[tactic(auto, using(crate::proofs::Lengths::lengths), unfolding(crate::specs::Trace::entry_line))]
fn entry_room(partition: PartitionId, entry: &JournalEntry) -> usize
    ensures { min (length (entry_line partition.0 entry.now)) (2 ^ 64 - 1) ≤ result }
{
    let partition = digits(u64::from(partition.0));
    let actor = digits(u64::from(entry.actor.0));
    let number = digits(u64::from(entry.number));
    event_room(&entry.event).saturating_add(partition + actor + number + 3)
}

/// Bounds the length of a journal's text, in bytes.
#[tactic(auto, using(crate::proofs::Lengths::lengths))]
pub fn room(partition: PartitionId, entries: &[JournalEntry]) -> usize
    ensures { min (length (journal_text partition.0 entries.now)) (2 ^ 64 - 1) ≤ result }
{
    let mut room: usize = 0;
    for entry in entries {
        room = room.saturating_add(entry_room(partition, entry));
    }
    room
}
