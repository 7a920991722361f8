//! Writing an event of a journal: a command that begins, or its answer.

ghost use Rattle.std.specs.Prelude.{◌≡◌, [], ◌∷◌, ◌++◌, OnOk};
ghost use Rattle.tier_base.specs.Key.{id_text, key_text};
ghost use Rattle.trace_text.specs.Names.{file_name_text, cause_numbers};
ghost use Rattle.trace_text.specs.Trace.{place_text, tier_words, fields_of, event_words, spaced};

use crate::names::{answer_name, cause_name, part_ending, state_name, stop_name};
use crate::page::Page;
use crate::shapes::{Shape, shape_of};
use plain_log::{Answer, Event, Place, Tier};
use record_batch::BatchRefusal;
use std::alloc::AllocError;
use tier_base::{FileName, ObjectKey, SegmentId};

/// Writes the name of a broker's file.
fn write_file(page: &mut Page, name: FileName) -> Result<(), AllocError>
    ensures { OnOk result (page.new ≡ page.old ++ file_name_text name) }
{
    match name {
        FileName::Manifest => page.word("manifest"),
        FileName::Log(base) => {
            page.padded_number(base)?;
            page.word(".log")
        }
        FileName::Notes => page.word("notes"),
        FileName::Gate => page.word("gate"),
        FileName::Registry => page.word("registry"),
    }
}

/// Writes the id of a remote segment.
fn write_id(page: &mut Page, id: SegmentId) -> Result<(), AllocError>
    ensures { OnOk result (page.new ≡ page.old ++ id_text id) }
{
    let mut buffer = [0u8; 36];
    page.word(id.write_text(&mut buffer))
}

/// Writes a space and the id of a remote segment.
fn write_then_id(page: &mut Page, id: SegmentId) -> Result<(), AllocError>
    ensures { OnOk result (page.new ≡ page.old ++ spaced (id_text id ∷ [])) }
{
    page.word(" ")?;
    write_id(page, id)
}

/// Writes the key of an object.
#[tactic(auto, unfolding(tier_base::specs::Key::key_text))]
fn write_key(page: &mut Page, key: ObjectKey) -> Result<(), AllocError>
    ensures { OnOk result (page.new ≡ page.old ++ key_text key) }
{
    page.number(u64::from(key.partition.0))?;
    page.word("/")?;
    write_id(page, key.id)?;
    page.word(part_ending(key.part))
}

/// Writes what was found damaged.
fn write_place(page: &mut Page, place: Place) -> Result<(), AllocError>
    ensures { OnOk result (page.new ≡ page.old ++ place_text place) }
{
    match place {
        Place::Key(key) => write_key(page, key),
        Place::File(name) => write_file(page, name),
        Place::Meta => page.word("meta"),
    }
}

/// Writes a cause's numbers, each after a space.
fn write_numbers(page: &mut Page, cause: BatchRefusal) -> Result<(), AllocError>
    ensures { OnOk result (page.new ≡ page.old ++ spaced (cause_numbers cause)) }
{
    match cause {
        BatchRefusal::BadCrc { kept, computed } => {
            page.then_numbers(u64::from(kept), u64::from(computed))
        }
        BatchRefusal::BadRecords { at } => page.then_number(u64::from(at)),
        BatchRefusal::Short
        | BatchRefusal::BadMagic
        | BatchRefusal::BadLength
        | BatchRefusal::Compressed
        | BatchRefusal::Transactional
        | BatchRefusal::Control => Ok(()),
    }
}

/// Writes where a run comes from.
fn write_tier(page: &mut Page, tier: Tier) -> Result<(), AllocError>
    ensures { OnOk result (page.new ≡ page.old ++ spaced (tier_words tier)) }
{
    match tier {
        Tier::Local(base) => {
            page.then_word("local")?;
            page.then_number(base)
        }
        Tier::Remote(id) => {
            page.then_word("remote")?;
            write_then_id(page, id)
        }
    }
}

/// Writes an answer's fields, each after a space.
fn write_fields(page: &mut Page, answer: &Answer) -> Result<(), AllocError>
    ensures { OnOk result (page.new ≡ page.old ++ spaced (fields_of answer.now)) }
{
    match shape_of(answer) {
        Shape::Bare => Ok(()),
        Shape::Counted(n) => page.then_number(n),
        Shape::Paired(a, b) => page.then_numbers(a, b),
        Shape::Span(base, last, epoch) => {
            page.then_number(base)?;
            page.then_numbers(last, epoch)
        }
        Shape::Cause(cause) => {
            page.then_word(cause_name(cause))?;
            write_numbers(page, cause)
        }
        Shape::Damage(place, at) => {
            page.word(" ")?;
            write_place(page, place)?;
            page.then_number(at)
        }
        Shape::Segment(id, start, last) => {
            write_then_id(page, id)?;
            page.then_numbers(start, last)
        }
        Shape::State(state) => page.then_word(state_name(state)),
        Shape::Id(id) => write_then_id(page, id),
        Shape::Run {
            tier,
            size,
            stop,
            bytes,
        } => {
            write_tier(page, tier)?;
            page.then_number(size)?;
            page.then_word(stop_name(stop))?;
            page.then_hex(bytes)
        }
    }
}

/// Writes what an entry records, each word after a space.
pub fn write_event(page: &mut Page, event: &Event) -> Result<(), AllocError>
    ensures { OnOk result (page.new ≡ page.old ++ spaced (event_words event.now)) }
{
    match event {
        Event::Begins { cut: None } => page.word(" begin"),
        Event::Begins { cut: Some(end) } => {
            page.word(" begin cut")?;
            page.then_number(*end)
        }
        Event::Answers(answer) => {
            page.word(" = ")?;
            page.word(answer_name(answer))?;
            write_fields(page, answer)
        }
    }
}
