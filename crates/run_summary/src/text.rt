//! The whole summary.

ghost use Rattle.std.specs.Prelude.{◌≡◌, ◌<◌, ◌^◌, ◌++◌, length, flat_map, map, sum_by, IfOk, OnOk, string_bytes};
ghost use Rattle.load_gen.specs.Summary.{Answered, answer_lines, commands, end_line};
ghost use Rattle.run_summary.specs.Told.{summary_text};
ghost use Rattle.run_summary.specs.Outcome.{Outcome};

use crate::given::Given;
use crate::lines::{write_answers, write_end};
use crate::told::Told;
use std::alloc::{AllocError, Global};
use std::fmt::Write;

/// Puts answers after others.
fn push_all(all: &mut Vec<Given>, more: &[Given]) -> Result<(), AllocError>
    ensures { OnOk result (all.new.items ≡ all.old.items ++ more.now) }
{
    for given in more {
        all.push(given.again())?;
    }
    Ok(())
}

/// The answers of all partitions.
fn answers(alloc: Global, parts: &[Told]) -> Result<Vec<Given>, AllocError>
    ensures { IfOk result (λ answers. answers.items ≡ flat_map (λ t. t.answers) parts.now) }
{
    let mut answers = Vec::new(alloc);
    for part in parts {
        push_all(&mut answers, part.answers())?;
    }
    Ok(answers)
}

/// The bytes of all partitions' runs, whose answers are in memory.
fn bytes(parts: &[Told]) -> u128
    requires { length (flat_map (λ (t : Outcome). t.answers) parts.now) < 2 ^ 63 }
    ensures { result ≡ sum_by (λ (t : Outcome). t.bytes) parts.now }
{
    let mut sum: u128 = 0;
    for part in parts {
        sum += part.bytes();
    }
    sum
}

/// Writes the lines of all commands.
fn write_commands(alloc: Global, text: &mut String, answers: &[Given]) -> Result<(), AllocError>
    ensures { OnOk result (string_bytes text.new
        ≡ string_bytes text.old ++ flat_map (answer_lines answers.now) commands) }
{
    write_answers(alloc, text, answers, "append")?;
    write_answers(alloc, text, answers, "flush")?;
    write_answers(alloc, text, answers, "ack")?;
    write_answers(alloc, text, answers, "join")?;
    write_answers(alloc, text, answers, "follow")?;
    write_answers(alloc, text, answers, "copy")?;
    write_answers(alloc, text, answers, "trim")?;
    write_answers(alloc, text, answers, "expire")?;
    write_answers(alloc, text, answers, "clock")?;
    write_answers(alloc, text, answers, "fetch")?;
    Ok(())
}

/// Writes where the partitions ended.
fn write_ends(text: &mut String, parts: &[Told]) -> Result<(), AllocError>
    ensures { OnOk result (string_bytes text.new
        ≡ string_bytes text.old ++ flat_map end_line (map (λ t. t.end) parts.now)) }
{
    for part in parts {
        write_end(text, part.end())?;
    }
    Ok(())
}

/// Writes the summary of partitions. Fails only if memory runs out.
#[tactic(auto, unfolding(load_gen::specs::Summary::summary_of))]
pub fn summary(alloc: Global, parts: &[Told]) -> Result<Vec<u8>, AllocError>
    ensures { IfOk result (λ text. text.items ≡ summary_text parts.now) }
{
    let answers = answers(alloc, parts)?;
    let mut text = String::new(alloc);
    write_commands(alloc, &mut text, answers.as_slice())?;
    let bytes = bytes(parts);
    writeln!(text, "bytes {bytes}")?;
    write_ends(&mut text, parts)?;
    Ok(text.into_bytes())
}
