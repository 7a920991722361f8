//! The lines of a summary.

ghost use Rattle.std.specs.Prelude.{◌≡◌, ◌++◌, flat_map, map, OnOk, string_bytes, codes};
ghost use Rattle.load_gen.specs.Summary.{answer_line, answer_lines, end_line};

use crate::given::{End, Given};
use crate::words::{count, words_of};
use std::alloc::{AllocError, Global};
use std::fmt::Write;

/// Writes how often a command was answered with a word.
fn write_answer(
    text: &mut String,
    answers: &[Given],
    command: &str,
    word: &str,
) -> Result<(), AllocError>
    ensures { OnOk result (string_bytes text.new
        ≡ string_bytes text.old ++ answer_line answers.now command.now word.now) }
{
    let count = count(answers, command, word);
    writeln!(text, "{command} {word} {count}")
}

/// Writes a command's lines.
pub fn write_answers(
    alloc: Global,
    text: &mut String,
    answers: &[Given],
    command: &str,
) -> Result<(), AllocError>
    ensures { OnOk result (string_bytes text.new
        ≡ string_bytes text.old ++ answer_lines answers.now command.now) }
{
    let words = words_of(alloc, answers, command)?;
    for word in words.as_slice() {
        write_answer(text, answers, command, word.text)?;
    }
    Ok(())
}

/// Writes where a partition ended.
pub fn write_end(text: &mut String, end: &End) -> Result<(), AllocError>
    ensures { OnOk result (string_bytes text.new ≡ string_bytes text.old ++ end_line end.now) }
{
    let partition = end.partition.0;
    let (log_end, mark, start) = (end.log_end, end.mark, end.start);
    writeln!(
        text,
        "partition {partition} end {log_end} mark {mark} start {start}"
    )
}
