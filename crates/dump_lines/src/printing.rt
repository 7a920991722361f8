//! How values are printed, as plain text and as JSON.

use crate::field::{Name, Value};
use crate::units::{push_bytes, push_time};
use record_batch::Header;
use serde_json::{Map, Number, Value as Json, put};
use std::alloc::{AllocError, Global};
use std::fmt::Write;
use tier_base::{SegmentId, State};

/// How lines are printed.
#[derive(Clone, Copy, Debug, PartialEq, Eq)]
pub struct Style {
    /// A JSON object a line, instead of plain text.
    pub json: bool,
    /// Sizes in binary units, as `1.5MiB`.
    pub human: bool,
    /// Times as dates in UTC, instead of milliseconds.
    pub dates: bool,
}

/// Writes a value as plain text.
pub(crate) fn push_value(text: &mut String, style: Style, value: Value) -> Result<(), AllocError> {
    match value {
        Value::Number(number) => write!(text, "{number}"),
        Value::Unsigned(number) => write!(text, "{number}"),
        Value::Flag(true) => text.push_str("true"),
        Value::Flag(false) => text.push_str("false"),
        Value::Time(ms) => push_time(text, style.dates, ms),
        Value::Bytes(bytes) => push_bytes(text, style.human, bytes),
        Value::Codec(codec) => text.push_str(codec_word(codec)),
        Value::State(state) => text.push_str(state_word(state)),
        Value::Id(id) => push_id(text, id),
    }
}

/// Writes the ID of a remote segment.
fn push_id(text: &mut String, id: SegmentId) -> Result<(), AllocError> {
    let mut buffer = [0u8; 36];
    text.push_str(id.write_text(&mut buffer))
}

/// The name of a compression type.
fn codec_word(codec: u8) -> &'static str {
    match codec {
        0 => "none",
        1 => "gzip",
        2 => "snappy",
        3 => "lz4",
        4 => "zstd",
        5 => "unknown(5)",
        6 => "unknown(6)",
        _ => "unknown(7)",
    }
}

/// Kafka's name of a remote segment's state.
fn state_word(state: State) -> &'static str {
    match state {
        State::CopyStarted => "COPY_SEGMENT_STARTED",
        State::CopyFinished => "COPY_SEGMENT_FINISHED",
        State::DeleteStarted => "DELETE_SEGMENT_STARTED",
        State::DeleteFinished => "DELETE_SEGMENT_FINISHED",
    }
}

/// Writes bytes as text where they are UTF-8 without control characters, else in hexadecimal.
pub(crate) fn push_data(alloc: Global, text: &mut String, bytes: &[u8]) -> Result<(), AllocError> {
    match std::str::from_utf8(bytes) {
        Ok(word) if is_printed(bytes) => text.push_str(word),
        _ => {
            text.push_str("0x")?;
            push_hex(alloc, text, bytes)
        }
    }
}

/// Whether no byte is a control character.
fn is_printed(bytes: &[u8]) -> bool {
    bytes.iter().all(|byte| *byte >= 32 && *byte != 127)
}

pub(crate) fn push_hex(alloc: Global, text: &mut String, bytes: &[u8]) -> Result<(), AllocError> {
    let digits = hex::encode(alloc, bytes)?;
    text.push_str(digits.as_str())
}

pub(crate) fn push_headers(
    alloc: Global,
    text: &mut String,
    headers: &[Header],
) -> Result<(), AllocError> {
    text.push_str("[")?;
    let mut is_first = true;
    for header in headers {
        if !is_first {
            text.push_str(", ")?;
        }
        is_first = false;
        push_header(alloc, text, header)?;
    }
    text.push_str("]")
}

fn push_header(alloc: Global, text: &mut String, header: &Header) -> Result<(), AllocError> {
    push_data(alloc, text, header.key.as_slice())?;
    text.push_str(": ")?;
    match &header.value {
        Some(value) => push_data(alloc, text, value.as_slice()),
        None => text.push_str("null"),
    }
}

pub(crate) fn push_epochs(text: &mut String, epochs: &[(u32, u64)]) -> Result<(), AllocError> {
    text.push_str("[")?;
    let mut is_first = true;
    for (epoch, start) in epochs {
        if !is_first {
            text.push_str(", ")?;
        }
        is_first = false;
        write!(text, "{epoch}: {start}")?;
    }
    text.push_str("]")
}

/// A field's value as JSON.
pub(crate) fn json_of(alloc: Global, style: Style, value: Value) -> Result<Json, AllocError> {
    match value {
        Value::Number(number) => Ok(Json::Number(Number::from(number))),
        Value::Unsigned(number) => Ok(Json::Number(Number::from(number))),
        Value::Flag(flag) => Ok(Json::Bool(flag)),
        Value::Time(ms) => json_time(alloc, style.dates, ms),
        Value::Bytes(bytes) => json_bytes(alloc, style.human, bytes),
        Value::Codec(codec) => json_word(alloc, codec_word(codec)),
        Value::State(state) => json_word(alloc, state_word(state)),
        Value::Id(id) => json_id(alloc, id),
    }
}

/// A time, as a number or as a date.
fn json_time(alloc: Global, dates: bool, ms: i64) -> Result<Json, AllocError> {
    if !dates {
        return Ok(Json::Number(Number::from(ms)));
    }
    let mut text = String::new(alloc);
    push_time(&mut text, dates, ms)?;
    Ok(Json::String(text))
}

/// A size, as a number or in a unit.
fn json_bytes(alloc: Global, human: bool, bytes: u64) -> Result<Json, AllocError> {
    if !human {
        return Ok(Json::Number(Number::from(bytes)));
    }
    let mut text = String::new(alloc);
    push_bytes(&mut text, human, bytes)?;
    Ok(Json::String(text))
}

/// The ID of a remote segment.
fn json_id(alloc: Global, id: SegmentId) -> Result<Json, AllocError> {
    let mut text = String::new(alloc);
    push_id(&mut text, id)?;
    Ok(Json::String(text))
}

/// A JSON string.
pub(crate) fn json_word(alloc: Global, word: &str) -> Result<Json, AllocError> {
    Ok(Json::String(String::from_str(alloc, word)?))
}

pub(crate) fn json_headers(alloc: Global, headers: &[Header]) -> Result<Json, AllocError> {
    let mut list = Vec::new(alloc);
    for header in headers {
        list.push(json_header(alloc, header)?)?;
    }
    Ok(Json::Array(list))
}

fn json_header(alloc: Global, header: &Header) -> Result<Json, AllocError> {
    let mut members = Map::new(alloc);
    let key = json_data(alloc, header.key.as_slice())?;
    put(&mut members, alloc, "key", key)?;
    let value = match &header.value {
        Some(value) => json_data(alloc, value.as_slice())?,
        None => Json::Null,
    };
    put(&mut members, alloc, "value", value)?;
    Ok(Json::Object(members))
}

pub(crate) fn json_data(alloc: Global, bytes: &[u8]) -> Result<Json, AllocError> {
    let mut text = String::new(alloc);
    push_data(alloc, &mut text, bytes)?;
    Ok(Json::String(text))
}

pub(crate) fn json_epochs(alloc: Global, epochs: &[(u32, u64)]) -> Result<Json, AllocError> {
    let mut list = Vec::new(alloc);
    for (epoch, start) in epochs {
        list.push(json_epoch(alloc, *epoch, *start)?)?;
    }
    Ok(Json::Array(list))
}

fn json_epoch(alloc: Global, epoch: u32, start: u64) -> Result<Json, AllocError> {
    let mut members = Map::new(alloc);
    put(
        &mut members,
        alloc,
        Name::Epoch.word(),
        Json::Number(Number::from(epoch)),
    )?;
    put(
        &mut members,
        alloc,
        Name::StartOffset.word(),
        Json::Number(Number::from(start)),
    )?;
    Ok(Json::Object(members))
}
