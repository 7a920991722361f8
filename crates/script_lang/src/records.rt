//! Reading the records of an append, and hexadecimal digits.

ghost use Rattle.std.specs.Prelude.{◌≡◌, ◌||◌, ◌==◌, [], IfOk};
ghost use Rattle.std.specs.List.{list_all};
ghost use Rattle.script_lang.specs.Reading.{AnswersReading};
ghost use Rattle.script_lang.specs.Records.{is_letter, is_name_byte, hex_in, value_in, field_in, header_in};
ghost use Rattle.script_lang.specs.Records.{headers_in, record_in, records_in};

use crate::fields::Fields;
use crate::numbers::{is_digit, number};
use crate::refusal::{LineRefusal, Why};
use crate::words::{Words, is};
use hex::FromHexError;
use record_batch::{Header, HeaderList, Rec};
use std::alloc::Global;
use tier_base::{Blob, Items};

fn is_letter(byte: u8) -> bool
    ensures { result ≡ is_letter byte }
{
    (65 <= byte && byte <= 90) || (97 <= byte && byte <= 122)
}

fn is_name_byte(byte: u8) -> bool
    ensures { result ≡ is_name_byte byte }
{
    is_digit(byte) || is_letter(byte) || byte == b'_' || byte == b'.'
}

fn is_name(bytes: &[u8]) -> bool
    ensures { result ≡ list_all is_name_byte bytes.now }
{
    bytes.iter().all(|byte| is_name_byte(*byte))
}

/// Reads hexadecimal digits.
#[tactic(auto, unfolding(crate::specs::Records::hex_in))]
pub fn hex(alloc: Global, digits: &[u8], why: Why) -> Result<Blob, LineRefusal>
    ensures { AnswersReading result (hex_in digits.now why) }
{
    match hex::decode(alloc, digits) {
        Ok(bytes) => Ok(Blob::from_vec(bytes)),
        Err(FromHexError::OutOfMemory) => Err(LineRefusal::NoMemory),
        Err(_) => Err(LineRefusal::Because(why)),
    }
}

/// Reads a value: a name, or hexadecimal digits.
#[tactic(auto, unfolding(crate::specs::Records::value_in))]
fn value(alloc: Global, word: &[u8]) -> Result<Blob, LineRefusal>
    ensures { AnswersReading result (value_in word.now) }
{
    match word {
        [b':', bytes @ ..] => {
            if !is_name(bytes) {
                return Err(LineRefusal::Because(Why::Field));
            }
            Ok(Blob::from_slice(alloc, bytes)?)
        }
        [b'x', digits @ ..] => hex(alloc, digits, Why::Field),
        _ => Err(LineRefusal::Because(Why::Field)),
    }
}

/// Reads a value, or `-` for none.
#[tactic(auto, unfolding(crate::specs::Records::field_in))]
fn field(alloc: Global, word: &[u8]) -> Result<Option<Blob>, LineRefusal>
    ensures { AnswersReading result (field_in word.now) }
{
    if is(word, "-") {
        return Ok(None);
    }
    Ok(Some(value(alloc, word)?))
}

/// Reads a header.
#[tactic(auto, unfolding(crate::specs::Records::header_in))]
fn header(alloc: Global, word: &[u8]) -> Result<Header, LineRefusal>
    ensures { AnswersReading result (header_in word.now) }
{
    let mut parts = Fields::of(word, b'=');
    let key = value(alloc, parts.first(Why::Field)?)?;
    let value = field(alloc, parts.first(Why::Field)?)?;
    parts.end(Why::Field)?;
    Ok(Header { key, value })
}

/// Reads the headers in the parts that are left.
fn headers(alloc: Global, parts: Fields) -> Result<HeaderList, LineRefusal>
    ensures { AnswersReading result (headers_in [] parts.entry) }
{
    let mut parts = parts;
    let mut headers = HeaderList::new(alloc);
    while let Ok(part) = parts.first(Why::Field) {
        headers.push(header(alloc, part)?)?;
    }
    Ok(headers)
}

/// Reads a record.
#[tactic(auto, unfolding(crate::specs::Records::record_in))]
fn record(alloc: Global, word: &[u8]) -> Result<Rec, LineRefusal>
    ensures { AnswersReading result (record_in word.now) }
{
    let mut parts = Fields::of(word, b',');
    let ts = number(parts.first(Why::Field)?, 0, (1 << 63) - 1, Why::Field)? as i64;
    let key = field(alloc, parts.first(Why::Field)?)?;
    let value = field(alloc, parts.first(Why::Field)?)?;
    let headers = headers(alloc, parts)?;
    Ok(Rec {
        ts,
        key,
        value,
        headers,
    })
}

/// Reads the records in the words that are left.
pub fn records(alloc: Global, words: Words) -> Result<Items<Rec>, LineRefusal>
    ensures { AnswersReading result (records_in [] words.entry) }
{
    let mut words = words;
    let mut recs = Items::new(alloc);
    while let Ok(word) = words.first(Why::Word) {
        recs.push(record(alloc, word)?)?;
    }
    Ok(recs)
}
