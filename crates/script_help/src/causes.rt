//! The causes in words, and the sections of docs/SCRIPT.md that speak of them.

use crate::line::{first_word, last_word};
use crate::words::{COMMANDS, OPTIONS};
use script_lang::Why;

/// What is wrong, where a word is at the place or none does, and where the line may only end there.
pub fn cause(why: Why, is_there: bool, is_end: bool) -> &'static str {
    match why {
        Why::NotText => "this byte isn't allowed: a line has printable ASCII, spaces and tabs",
        Why::Word if !is_there => "a word is missing here",
        Why::Word if is_end => "one word too many",
        Why::Word => "this word isn't valid here",
        Why::Number => "not a decimal number, or out of range",
        Why::Field => "invalid record, key, value or header",
        Why::Hex => "not pairs of hexadecimal digits",
        Why::TooLate => "an option must come before all command, later, turn and fault lines",
        Why::Twice => "this option is given twice",
        Why::ActorPartition => "this actor has commands of another partition",
        Why::NoActor => "this actor has no command before this line",
        Why::TooMany => "a script has at most 65536 commands",
        Why::BatchTooLarge => "a batch has at most 1048576 bytes",
        Why::FetchSum => "with this line all fetches together exceed 268435456 bytes",
        Why::CopySum => "with this line all copies together exceed 2147483648 bytes",
        Why::TurnSum => "with this line there are more than 1048576 turns",
    }
}

/// The word of a table that this is.
fn among(table: &[&'static str], word: &[u8]) -> Option<&'static str> {
    for name in table {
        if name.as_bytes() == word {
            return Some(*name);
        }
    }
    None
}

/// The section that speaks of a line whose words are invalid, by its words before the bad one.
fn section_of_words(text: &[u8], heads: &[&[u8]]) -> &'static str {
    let word = first_word(text);
    if among(&OPTIONS, word).is_some() {
        return "Options";
    }
    if word == b"fault".as_slice() {
        return "Faults";
    }
    for head in heads {
        if let Some(name) = among(&COMMANDS, last_word(head)) {
            return name;
        }
    }
    "Actors and the schedule"
}

/// The section of docs/SCRIPT.md that speaks of a cause in a line.
pub fn section(why: Why, text: &[u8], heads: &[&[u8]]) -> &'static str {
    match why {
        Why::NotText => "Lines and words",
        Why::Word | Why::Number => section_of_words(text, heads),
        Why::Field => "Records",
        Why::Hex => "raw",
        Why::TooLate | Why::Twice => "Options",
        Why::ActorPartition | Why::NoActor => "Actors and the schedule",
        Why::TooMany | Why::BatchTooLarge | Why::FetchSum | Why::CopySum | Why::TurnSum => "Limits",
    }
}
