//! Reading a line of a trace, word by word. `specs/Reading.antt` defines the valid lines.

ghost use Rattle.std.specs.Prelude.{◌≡◌, IfOk};
ghost use Rattle.trace_text.specs.Reading.{bare_in, counted_in, paired_in, one_in, bad_records_in, damaged_in};
ghost use Rattle.trace_text.specs.Reading.{two_in, bad_crc_in, copied_in, span_in, three_in, plain_in, run_of, run_in};
ghost use Rattle.trace_text.specs.Reading.{answer_in, begun_in, event_in, headed_in, words_in, line_in};

use crate::counts::{count, number};
use crate::fields::{cause, id, place, run_bytes, state, stop, tier};
use crate::line::Line;
use crate::tables::{bare, counted, paired};
use crate::words::{Words, is};
use plain_log::{Answer, Event, JournalEntry};
use record_batch::BatchRefusal;
use std::alloc::{AllocError, Global};
use tier_base::{ActorId, PartitionId};

/// Reads an answer of one field.
#[tactic(auto, unfolding(crate::specs::Reading::one_in))]
fn one(name: &[u8], word: &[u8]) -> Option<Answer>
    ensures { result ≡ one_in name.now word.now }
{
    if is(name, "Refused") {
        let Some(cause) = cause(word) else {
            return None;
        };
        return Some(Answer::Refused(cause));
    }
    if is(name, "Overtaken") {
        let Some(state) = state(word) else {
            return None;
        };
        return Some(Answer::Overtaken(state));
    }
    if is(name, "Deleted") {
        let Some(id) = id(word) else {
            return None;
        };
        return Some(Answer::Deleted(id));
    }
    let Some(n) = count(word) else {
        return None;
    };
    counted(name, n)
}

/// Reads the refusal of a batch whose records are invalid.
#[tactic(auto, unfolding(crate::specs::Reading::bad_records_in))]
fn bad_records(name: &[u8], at: &[u8]) -> Option<Answer>
    ensures { result ≡ bad_records_in name.now at.now }
{
    if !is(name, "BadRecords") {
        return None;
    }
    let Some(at) = number(at, 4_294_967_295) else {
        return None;
    };
    Some(Answer::Refused(BatchRefusal::BadRecords { at: at as u32 }))
}

/// Reads an answer that reports damage.
#[tactic(auto, unfolding(crate::specs::Reading::damaged_in))]
fn damaged(word: &[u8], at: &[u8]) -> Option<Answer>
    ensures { result ≡ damaged_in word.now at.now }
{
    let Some(place) = place(word) else {
        return None;
    };
    let Some(at) = count(at) else {
        return None;
    };
    Some(Answer::Damaged(place, at))
}

/// Reads an answer of two fields.
#[tactic(auto, unfolding(crate::specs::Reading::two_in))]
fn two(name: &[u8], first: &[u8], second: &[u8]) -> Option<Answer>
    ensures { result ≡ two_in name.now first.now second.now }
{
    if is(name, "Refused") {
        return bad_records(first, second);
    }
    if is(name, "Damaged") {
        return damaged(first, second);
    }
    let Some(a) = count(first) else {
        return None;
    };
    let Some(b) = count(second) else {
        return None;
    };
    paired(name, a, b)
}

/// Reads the refusal of a batch whose checksum is wrong.
#[tactic(auto, unfolding(crate::specs::Reading::bad_crc_in))]
fn bad_crc(name: &[u8], kept: &[u8], computed: &[u8]) -> Option<Answer>
    ensures { result ≡ bad_crc_in name.now kept.now computed.now }
{
    if !is(name, "BadCrc") {
        return None;
    }
    let Some(kept) = number(kept, 4_294_967_295) else {
        return None;
    };
    let Some(computed) = number(computed, 4_294_967_295) else {
        return None;
    };
    Some(Answer::Refused(BatchRefusal::BadCrc {
        kept: kept as u32,
        computed: computed as u32,
    }))
}

/// Reads a copied segment.
#[tactic(auto, unfolding(crate::specs::Reading::copied_in))]
fn copied(word: &[u8], start: &[u8], last: &[u8]) -> Option<Answer>
    ensures { result ≡ copied_in word.now start.now last.now }
{
    let Some(id) = id(word) else {
        return None;
    };
    let Some(start) = count(start) else {
        return None;
    };
    let Some(last) = count(last) else {
        return None;
    };
    Some(Answer::CopiedSegment(id, start, last))
}

/// Reads an appended batch.
#[tactic(auto, unfolding(crate::specs::Reading::span_in))]
fn span(base: &[u8], last: &[u8], epoch: &[u8]) -> Option<Answer>
    ensures { result ≡ span_in base.now last.now epoch.now }
{
    let Some(base) = count(base) else {
        return None;
    };
    let Some(last) = count(last) else {
        return None;
    };
    let Some(epoch) = count(epoch) else {
        return None;
    };
    Some(Answer::OkSpan(base, last, epoch))
}

/// Reads an answer of three fields.
#[tactic(auto, unfolding(crate::specs::Reading::three_in))]
fn three(name: &[u8], first: &[u8], second: &[u8], third: &[u8]) -> Option<Answer>
    ensures { result ≡ three_in name.now first.now second.now third.now }
{
    if is(name, "Refused") {
        return bad_crc(first, second, third);
    }
    if is(name, "Copied") {
        return copied(first, second, third);
    }
    if is(name, "Ok") {
        return span(first, second, third);
    }
    None
}

/// Reads an answer other than a run.
fn plain(name: &[u8], words: Words) -> Option<Answer>
    ensures { result ≡ plain_in name.now words.entry }
{
    let mut words = words;
    let Some(first) = words.first() else {
        return bare(name);
    };
    let Some(second) = words.first() else {
        return one(name, first);
    };
    let Some(third) = words.first() else {
        return two(name, first, second);
    };
    if words.is_done() {
        three(name, first, second, third)
    } else {
        None
    }
}

/// Reads the five fields of a run.
#[tactic(auto, unfolding(crate::specs::Reading::run_of))]
fn run_of(
    alloc: Global,
    name: &[u8],
    segment: &[u8],
    size: &[u8],
    end: &[u8],
    hex: &[u8],
) -> Result<Option<Answer>, AllocError>
    ensures { IfOk result (λ found. found ≡ run_of name.now segment.now size.now end.now hex.now) }
{
    let Some(tier) = tier(name, segment) else {
        return Ok(None);
    };
    let Some(size) = count(size) else {
        return Ok(None);
    };
    let Some(stop) = stop(end) else {
        return Ok(None);
    };
    let Some(bytes) = run_bytes(alloc, hex)? else {
        return Ok(None);
    };
    Ok(Some(Answer::Run {
        tier,
        size,
        stop,
        bytes,
    }))
}

/// Reads a run.
fn run(alloc: Global, words: Words) -> Result<Option<Answer>, AllocError>
    ensures { IfOk result (λ found. found ≡ run_in words.entry) }
{
    let mut words = words;
    let Some(tier) = words.first() else {
        return Ok(None);
    };
    let Some(segment) = words.first() else {
        return Ok(None);
    };
    let Some(size) = words.first() else {
        return Ok(None);
    };
    let Some(stop) = words.first() else {
        return Ok(None);
    };
    let Some(hex) = words.first() else {
        return Ok(None);
    };
    if words.is_done() {
        run_of(alloc, tier, segment, size, stop, hex)
    } else {
        Ok(None)
    }
}

/// Reads an answer.
fn answer(alloc: Global, words: Words) -> Result<Option<Answer>, AllocError>
    ensures { IfOk result (λ found. found ≡ answer_in words.entry) }
{
    let mut words = words;
    let Some(name) = words.first() else {
        return Ok(None);
    };
    if is(name, "Run") {
        return run(alloc, words);
    }
    Ok(plain(name, words))
}

/// Reads the words after `begin`.
fn begun(words: Words) -> Option<Event>
    ensures { result ≡ begun_in words.entry }
{
    let mut words = words;
    let Some(cut) = words.first() else {
        return Some(Event::Begins { cut: None });
    };
    let Some(end) = words.first() else {
        return None;
    };
    if !words.is_done() {
        return None;
    }
    if !is(cut, "cut") {
        return None;
    }
    let Some(end) = count(end) else {
        return None;
    };
    Some(Event::Begins { cut: Some(end) })
}

/// Reads an event.
fn event(alloc: Global, words: Words) -> Result<Option<Event>, AllocError>
    ensures { IfOk result (λ found. found ≡ event_in words.entry) }
{
    let mut words = words;
    let Some(first) = words.first() else {
        return Ok(None);
    };
    if is(first, "=") {
        let Some(answer) = answer(alloc, words)? else {
            return Ok(None);
        };
        return Ok(Some(Event::Answers(answer)));
    }
    if is(first, "begin") {
        return Ok(begun(words));
    }
    Ok(None)
}

/// Reads the numbers before an event, and the event.
#[tactic(auto, unfolding(crate::specs::Reading::headed_in))]
fn headed(
    alloc: Global,
    partition: &[u8],
    actor: &[u8],
    place: &[u8],
    words: Words,
) -> Result<Option<Line>, AllocError>
    ensures { IfOk result (λ found. found ≡ headed_in partition.now actor.now place.now words.entry) }
{
    let Some(partition) = number(partition, 65_535) else {
        return Ok(None);
    };
    let Some(actor) = number(actor, 65_535) else {
        return Ok(None);
    };
    let Some(number) = number(place, 4_294_967_295) else {
        return Ok(None);
    };
    let Some(event) = event(alloc, words)? else {
        return Ok(None);
    };
    let entry = JournalEntry {
        actor: ActorId(actor as u16),
        number: number as u32,
        event,
    };
    Ok(Some(Line {
        partition: PartitionId(partition as u16),
        entry,
    }))
}

/// Reads a line, without the LF at its end. Fails only if memory runs out.
#[tactic(auto, unfolding(crate::specs::Reading::line_in))]
pub fn line(alloc: Global, text: &[u8]) -> Result<Option<Line>, AllocError>
    ensures { IfOk result (λ found. found ≡ line_in text.now) }
{
    let mut words = Words::of(text);
    let Some(partition) = words.first() else {
        return Ok(None);
    };
    let Some(actor) = words.first() else {
        return Ok(None);
    };
    let Some(number) = words.first() else {
        return Ok(None);
    };
    headed(alloc, partition, actor, number, words)
}
