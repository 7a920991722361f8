//! A line of a script, and its words.

ghost use Rattle.std.specs.Prelude.{◌≡◌, ◌≤◌, ◌<◌, ◌-◌, length, false, All, IfOk, OnOk};
ghost use Rattle.std.specs.List.{IsAfterLastMatch, slice_index_or};
ghost use Rattle.script_lang.specs.Words.{is_blank};
ghost use Rattle.script_help.specs.Places.{IsPartOf, IsHead};

use std::alloc::{AllocError, Global};

/// Whether a byte is between words.
fn is_blank(byte: u8) -> bool
    ensures { result ≡ is_blank byte }
{
    byte == b' ' || byte == b'\t'
}

/// Where the line of this number begins, the first one's being 1.
fn line_start(script: &[u8], number: u32) -> usize
    ensures { result ≤ length script.now }
{
    let mut line = 1;
    for (i, byte) in script.iter().enumerate() {
        if line >= number {
            return i;
        }
        if *byte == b'\n' {
            line += 1;
        }
    }
    script.len()
}

/// Counts the bytes before the first line feed.
fn before_feed(bytes: &[u8]) -> usize
    ensures { result ≤ length bytes.now }
{
    for (i, byte) in bytes.iter().enumerate() {
        if *byte == b'\n' {
            return i;
        }
    }
    bytes.len()
}

/// A line without the carriage return at its end.
fn without_return(line: &[u8]) -> &[u8]
    ensures { IsPartOf result.now line.now }
{
    match line {
        [text @ .., b'\r'] => text,
        _ => line,
    }
}

/// The first line, without its end, and the lines after it.
pub fn first_line(bytes: &[u8]) -> (&[u8], &[u8])
    ensures line { IsPartOf result.0.now bytes.now }
    ensures shorter { 0 < length bytes.now → length result.1.now < length bytes.now }
{
    let (line, rest) = bytes.split_at(before_feed(bytes));
    match rest {
        [] => (line, rest),
        [_, behind @ ..] => (without_return(line), behind),
    }
}

/// The lines before the one of this number, and its text.
#[tactic(auto, using(crate::proofs::Fronts::part_behind))]
pub fn line_at(script: &[u8], number: u32) -> (&[u8], &[u8])
    ensures { IsPartOf result.1.now script.now }
{
    let (before, rest) = script.split_at(line_start(script, number));
    (before, first_line(rest).0)
}

/// Adds the text up to the end of a word.
#[tactic(auto, using(crate::proofs::Fronts::head_at))]
fn push_head<'a>(heads: &mut Vec<&'a [u8]>, text: &'a [u8], end: usize) -> Result<(), AllocError>
    requires some { 0 < end }
    requires within { end ≤ length text.now }
    requires last { is_blank (slice_index_or text.now (end - 1) 32) ≡ false }
    requires heads { All (λ head. IsHead text.now head.now) heads.old.items }
    ensures { OnOk result (All (λ head. IsHead text.now head.now) heads.new.items) }
{
    heads.push(text.split_at(end).0)?;
    Ok(())
}

/// For each word of a text, the text up to the word's end.
pub fn heads<'a>(alloc: Global, text: &'a [u8]) -> Result<Vec<&'a [u8]>, AllocError>
    ensures { IfOk result (λ heads. All (λ head. IsHead text.now head.now) heads.items) }
{
    let mut heads = Vec::new(alloc);
    let mut in_word = false;
    for (i, byte) in text.iter().enumerate() {
        if in_word && is_blank(*byte) {
            push_head(&mut heads, text, i)?;
        }
        in_word = !is_blank(*byte);
    }
    if in_word {
        push_head(&mut heads, text, text.len())?;
    }
    Ok(heads)
}

/// Where the last word of a text begins. A blank at its end is after the last word.
pub fn last_word_at(text: &[u8]) -> usize
    ensures place { IsAfterLastMatch is_blank text.now result }
    ensures within { result ≤ length text.now }
{
    let mut start = 0;
    for (i, byte) in text.iter().enumerate() {
        if is_blank(*byte) {
            start = i + 1;
        }
    }
    start
}

/// The last word of a text.
pub fn last_word(text: &[u8]) -> &[u8] {
    text.split_at(last_word_at(text)).1
}

/// What precedes the first blank.
fn front_word(text: &[u8]) -> &[u8] {
    for (i, byte) in text.iter().enumerate() {
        if is_blank(*byte) {
            return text.split_at(i).0;
        }
    }
    text
}

/// The first word of a text.
pub fn first_word(text: &[u8]) -> &[u8] {
    for (i, byte) in text.iter().enumerate() {
        if !is_blank(*byte) {
            return front_word(text.split_at(i).1);
        }
    }
    text.split_at(text.len()).1
}
