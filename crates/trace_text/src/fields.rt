//! Reading the fields of an answer, word by word. `specs/Fields.antt` defines the valid words.

ghost use Rattle.std.specs.Prelude.{◌≡◌, IfOk, option_map};
ghost use Rattle.std.specs.List.{list_all};
ghost use Rattle.trace_text.specs.Fields.{key_in, log_name_in, file_in, place_in, id_in, state_in, stop_in, cause_in};
ghost use Rattle.trace_text.specs.Fields.{tier_in, is_lower_digit, bytes_in};

use crate::counts::{all_digits, count, value};
use crate::words::is;
use bytes::Bytes;
use hex::FromHexError;
use plain_log::{Place, Tier};
use record_batch::BatchRefusal;
use std::alloc::{AllocError, Global};
use tier_base::{FileName, ObjectKey, SegmentId, State, Stop};

/// Reads an id.
pub fn id(word: &[u8]) -> Option<SegmentId>
    ensures { result ≡ id_in word.now }
{
    SegmentId::from_text(word)
}

/// Reads an object's key.
fn key(word: &[u8]) -> Option<ObjectKey>
    ensures { result ≡ key_in word.now }
{
    ObjectKey::from_text(word)
}

/// Reads the name of a log segment's file.
#[tactic(auto, unfolding(crate::specs::Fields::log_name_in))]
fn log_name(digits: &[u8], ending: &[u8]) -> Option<FileName>
    ensures { result ≡ log_name_in digits.now ending.now }
{
    if !is(ending, ".log") {
        return None;
    }
    if !all_digits(digits) {
        return None;
    }
    let Some(base) = value(digits) else {
        return None;
    };
    Some(FileName::Log(base))
}

/// Reads the name of a file.
#[tactic(auto, unfolding(crate::specs::Fields::file_in))]
fn file(word: &[u8]) -> Option<FileName>
    ensures { result ≡ file_in word.now }
{
    if word.len() == 24 {
        let (digits, ending) = word.split_at(20);
        return log_name(digits, ending);
    }
    if is(word, "manifest") {
        return Some(FileName::Manifest);
    }
    if is(word, "notes") {
        return Some(FileName::Notes);
    }
    if is(word, "gate") {
        return Some(FileName::Gate);
    }
    if is(word, "registry") {
        return Some(FileName::Registry);
    }
    None
}

/// Reads the place of damage: an object, a file, or the remote log metadata.
#[tactic(auto, unfolding(crate::specs::Fields::place_in))]
pub fn place(word: &[u8]) -> Option<Place>
    ensures { result ≡ place_in word.now }
{
    if is(word, "meta") {
        return Some(Place::Meta);
    }
    if let Some(key) = key(word) {
        return Some(Place::Key(key));
    }
    let Some(name) = file(word) else {
        return None;
    };
    Some(Place::File(name))
}

/// Reads a remote segment's state.
#[tactic(auto, unfolding(crate::specs::Fields::state_in))]
pub fn state(word: &[u8]) -> Option<State>
    ensures { result ≡ state_in word.now }
{
    if is(word, "CopyStarted") {
        return Some(State::CopyStarted);
    }
    if is(word, "CopyFinished") {
        return Some(State::CopyFinished);
    }
    if is(word, "DeleteStarted") {
        return Some(State::DeleteStarted);
    }
    if is(word, "DeleteFinished") {
        return Some(State::DeleteFinished);
    }
    None
}

/// Reads why a run ends.
#[tactic(auto, unfolding(crate::specs::Fields::stop_in))]
pub fn stop(word: &[u8]) -> Option<Stop>
    ensures { result ≡ stop_in word.now }
{
    if is(word, "Mark") {
        return Some(Stop::Mark);
    }
    if is(word, "Piece") {
        return Some(Stop::Piece);
    }
    if is(word, "Limit") {
        return Some(Stop::Limit);
    }
    None
}

/// Reads a cause that has no numbers.
#[tactic(auto, unfolding(crate::specs::Fields::cause_in))]
pub fn cause(word: &[u8]) -> Option<BatchRefusal>
    ensures { result ≡ cause_in word.now }
{
    if is(word, "Short") {
        return Some(BatchRefusal::Short);
    }
    if is(word, "BadMagic") {
        return Some(BatchRefusal::BadMagic);
    }
    if is(word, "BadLength") {
        return Some(BatchRefusal::BadLength);
    }
    if is(word, "Compressed") {
        return Some(BatchRefusal::Compressed);
    }
    if is(word, "Transactional") {
        return Some(BatchRefusal::Transactional);
    }
    if is(word, "Control") {
        return Some(BatchRefusal::Control);
    }
    None
}

/// Reads where a run comes from.
#[tactic(auto, unfolding(crate::specs::Fields::tier_in))]
pub fn tier(name: &[u8], segment: &[u8]) -> Option<Tier>
    ensures { result ≡ tier_in name.now segment.now }
{
    if is(name, "local") {
        let Some(base) = count(segment) else {
            return None;
        };
        return Some(Tier::Local(base));
    }
    if is(name, "remote") {
        let Some(id) = id(segment) else {
            return None;
        };
        return Some(Tier::Remote(id));
    }
    None
}

/// Returns whether a byte is a hexadecimal digit in lower case.
fn is_lower_digit(byte: u8) -> bool
    ensures { result ≡ is_lower_digit byte }
{
    (48 <= byte && byte <= 57) || (97 <= byte && byte <= 102)
}

/// Returns whether all bytes are hexadecimal digits in lower case.
fn are_lower_digits(word: &[u8]) -> bool
    ensures { result ≡ list_all is_lower_digit word.now }
{
    word.iter().all(|byte| is_lower_digit(*byte))
}

/// Reads a run's bytes, which are at least one.
#[tactic(auto, unfolding(crate::specs::Fields::bytes_in))]
pub fn run_bytes(alloc: Global, word: &[u8]) -> Result<Option<Bytes>, AllocError>
    ensures { IfOk result (λ found. found ≡ bytes_in word.now) }
{
    if word.is_empty() {
        return Ok(None);
    }
    if !are_lower_digits(word) {
        return Ok(None);
    }
    match hex::decode(alloc, word) {
        Ok(bytes) => Ok(Some(Bytes::from_vec(bytes)?)),
        Err(FromHexError::OutOfMemory) => Err(AllocError),
        Err(_) => Ok(None),
    }
}
