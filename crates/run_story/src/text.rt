//! The text of answers, as it is shown.

use std::alloc::{AllocError, Global};

/// The most letters that are shown of a command or an answer.
const SHOWN: usize = 60;

/// Returns the text, up to the most letters, with `..` after it where some are left out.
pub fn shown(alloc: Global, text: &str) -> Result<String, AllocError> {
    let mut out = String::new(alloc);
    let mut count: usize = 0;
    for letter in text.trim().chars() {
        if count == SHOWN {
            out.push_str("..")?;
            return Ok(out);
        }
        out.push(letter)?;
        count = count.saturating_add(1);
    }
    Ok(out)
}

/// What follows the first word.
fn behind_word(text: &str) -> &str {
    match text.split_once(' ') {
        Some((_, rest)) => rest,
        None => "",
    }
}

/// Returns a trace's line without its three numbers.
pub fn answer_in(line: &str) -> &str {
    behind_word(behind_word(behind_word(line)))
}
