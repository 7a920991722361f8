//! The position in a refused line that the caret is under.

ghost use Rattle.std.specs.Prelude.{◌≡◌, ◌≢◌, ◌≤◌, ◌<◌, ◌-◌, ◌++◌, true, length, All, IfOk};
ghost use Rattle.std.specs.List.{HoldsAt};
ghost use Rattle.script_lang.specs.declared.refusal.Why.{Why};
ghost use Rattle.script_help.specs.Asked.{CanBeCompleted};
ghost use Rattle.script_help.specs.Places.{IsHead, IsWordStart};

use crate::asking::goes_on;
use crate::line::{first_line, first_word, heads, last_word, last_word_at};
use script_lang::Why;
use std::alloc::{AllocError, Global};

/// No line but an append has so many words.
const FEW: usize = 8;

/// Whether a line that begins with this word gives a count of brokers or of partitions.
fn gives_count(word: &[u8]) -> bool {
    word == b"brokers".as_slice() || word == b"partitions".as_slice()
}

/// Adds a line's first two words, with one blank after each, however many the line has there.
fn push_count(alloc: Global, counts: &mut Vec<u8>, line: &[u8]) -> Result<(), AllocError> {
    let heads = heads(alloc, line)?;
    for head in heads.split_at(heads.len().min(2)).0 {
        counts.extend_from_slice(last_word(head))?;
        counts.push(b' ')?;
    }
    counts.push(b'\n')?;
    Ok(())
}

/// The counts of brokers and partitions that the lines give: the ranges of a line's words go by no other option.
pub fn counts_of(alloc: Global, lines: &[u8]) -> Result<Vec<u8>, AllocError> {
    let mut counts = Vec::new(alloc);
    let mut rest = lines;
    while !rest.is_empty() {
        let (line, behind) = first_line(rest);
        if gives_count(first_word(line)) {
            push_count(alloc, &mut counts, line)?;
        }
        rest = behind;
    }
    Ok(counts)
}

/// Where the first byte is that can't be in a line.
fn bad_byte_at(text: &[u8]) -> usize
    ensures { result ≤ length text.now }
{
    for (i, byte) in text.iter().enumerate() {
        if *byte != b'\t' && (*byte < 32 || *byte > 126) {
            return i;
        }
    }
    text.len()
}

/// Whether a script can continue after the lines of these counts and a part of its line.
fn goes_on_behind(alloc: Global, counts: &[u8], head: &[u8]) -> Result<bool, AllocError>
    ensures { IfOk result (λ yes. yes ≡ true → CanBeCompleted (counts.now ++ head.now)) }
{
    let mut script = Vec::from_slice(alloc, counts)?;
    script.extend_from_slice(head)?;
    goes_on(alloc, script.as_slice())
}

/// How many of a line's first words are valid, `most` at most: up to the last one after which the line can continue.
fn count_first(
    alloc: Global,
    counts: &[u8],
    heads: &[&[u8]],
    most: usize,
) -> Result<usize, AllocError>
    requires { most ≤ length heads.now }
    ensures within { IfOk result (λ count. count ≤ most) }
    ensures goes { IfOk result (λ count. 0 < count
        → HoldsAt (λ head. CanBeCompleted (counts.now ++ head.now)) heads.now (count - 1)) }
{
    let mut good = 0;
    let mut bad = most;
    while good < bad {
        let middle = good + (bad - good) / 2;
        if goes_on_behind(alloc, counts, heads[middle])? {
            good = middle + 1;
        } else {
            bad = middle;
        }
    }
    Ok(good)
}

/// What is in a text after as many bytes as another one has.
fn behind<'a>(text: &'a [u8], front: &[u8]) -> &'a [u8] {
    text.split_at(front.len().min(text.len())).1
}

/// Whether a line's first words can continue by others of its words alone.
fn goes_on_by(
    alloc: Global,
    counts: &[u8],
    front: &[u8],
    words: &[u8],
) -> Result<bool, AllocError> {
    let mut head = Vec::from_slice(alloc, front)?;
    head.extend_from_slice(words)?;
    goes_on_behind(alloc, counts, head.as_slice())
}

/// How many words of a line are valid where its first ones, so many, have and each further one is read by itself. What
/// was read isn't asked for again, so this takes no longer than the line is read once.
fn count_further(
    alloc: Global,
    counts: &[u8],
    heads: &[&[u8]],
    first: usize,
) -> Result<usize, AllocError>
    requires some { 0 < first }
    requires within { first ≤ length heads.now }
    ensures some { IfOk result (λ count. 0 < count) }
    ensures within { IfOk result (λ count. count ≤ length heads.now) }
{
    let front = heads[first - 1];
    let mut good = first;
    let mut bad = heads.len();
    while good < bad {
        let middle = good + (bad - good) / 2;
        if goes_on_by(alloc, counts, front, behind(heads[middle], heads[good - 1]))? {
            good = middle + 1;
        } else {
            bad = middle;
        }
    }
    Ok(good)
}

/// How many words of a line are valid: up to the last one after which the line can continue. A line that has one with
/// more than a few words is an append, and each further word a record.
fn count_readable(alloc: Global, counts: &[u8], heads: &[&[u8]]) -> Result<usize, AllocError>
    ensures within { IfOk result (λ count. count ≤ length heads.now) }
    ensures goes { IfOk result (λ count. 0 < count
        → HoldsAt (λ head. CanBeCompleted (counts.now ++ head.now)) heads.now (count - 1)) }
{
    let first = count_first(alloc, counts, heads, heads.len().min(FEW))?;
    if first < FEW {
        return Ok(first);
    }
    let all = count_further(alloc, counts, heads, first)?;
    if goes_on_behind(alloc, counts, heads[all - 1])? {
        Ok(all)
    } else {
        Ok(first)
    }
}

/// The number of the word of which a cause speaks that isn't one of the words themselves, from 0 on.
fn word_of(why: Why, heads: &[&[u8]]) -> usize {
    let later = match heads {
        [first, ..] => first_word(first) == b"later".as_slice(),
        [] => false,
    };
    let number = match why {
        Why::ActorPartition | Why::NoActor => 1,
        Why::TurnSum => 2,
        Why::TooMany | Why::BatchTooLarge | Why::FetchSum | Why::CopySum => 3,
        _ => 0,
    };
    if later { number + 1 } else { number }
}

/// The place at which a line is refused.
#[derive(Drop)]
pub struct TextPlace<'a> {
    /// The text up to the end of the word before.
    pub head: &'a [u8],
    /// Where the caret is in the text.
    pub column: usize,
    /// Whether a word, or a bad byte, is there.
    pub is_there: bool,
}

/// The text up to the end of the word before the one of this number.
fn head_before<'a>(heads: &[&'a [u8]], number: usize) -> &'a [u8] {
    if number == 0 || number > heads.len() {
        return &[];
    }
    heads[number - 1]
}

/// The place of the word of this number in a text, or the text's end.
fn place_of<'a>(text: &'a [u8], heads: &[&'a [u8]], number: usize) -> TextPlace<'a>
    requires { All (λ head. IsHead text.now head.now) heads.now }
    ensures { IsWordStart text.now result.column }
{
    let head = head_before(heads, number);
    if number < heads.len() {
        return TextPlace {
            head,
            column: last_word_at(heads[number]),
            is_there: true,
        };
    }
    TextPlace {
        head,
        column: text.len(),
        is_there: false,
    }
}

/// The number of the word of which a cause speaks.
fn number_of(alloc: Global, counts: &[u8], heads: &[&[u8]], why: Why) -> Result<usize, AllocError> {
    match why {
        Why::Word | Why::Number | Why::Field | Why::Hex => count_readable(alloc, counts, heads),
        _ => Ok(word_of(why, heads)),
    }
}

/// Finds the place of a cause in a line's text, after these counts.
pub fn find_place<'a>(
    alloc: Global,
    counts: &[u8],
    text: &'a [u8],
    why: Why,
) -> Result<TextPlace<'a>, AllocError>
    ensures { IfOk result (λ place. why ≢ Why.NotText → IsWordStart text.now place.column) }
{
    if why == Why::NotText {
        return Ok(TextPlace {
            head: &[],
            column: bad_byte_at(text),
            is_there: true,
        });
    }
    let heads = heads(alloc, text)?;
    let number = number_of(alloc, counts, heads.as_slice(), why)?;
    Ok(place_of(text, heads.as_slice(), number))
}
