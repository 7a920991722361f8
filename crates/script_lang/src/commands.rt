//! Reading a command: its name and its arguments.

ghost use Rattle.std.specs.Prelude.{◌≡◌, ◌≢◌, ◌<◌, length, IfOk};
ghost use Rattle.script_lang.specs.Reading.{AnswersReading};
ghost use Rattle.script_lang.specs.Commands.{alone, append_in, raw_in, fetch_in, follow_in, raise_in, which_behind};
ghost use Rattle.script_lang.specs.Commands.{offset_in, clock_in, flag_in, command_led, common_led};
ghost use Rattle.script_lang.specs.Fit.{IsCommandInRange};

use crate::names::{OffsetName, Verb, find_offset};
use crate::records::{hex, records};
use crate::refusal::{LineRefusal, Why};
use crate::words::Words;
use bytes::Bytes;
use plain_log::{Command, Which};
use std::alloc::{AllocError, Global};
use tier_base::Blob;

/// Reads the records of an append.
#[tactic(auto, unfolding(crate::specs::Commands::append_in))]
fn append(alloc: Global, words: Words) -> Result<Command, LineRefusal>
    ensures value { AnswersReading result (append_in words.entry) }
    ensures said { IfOk result IsCommandInRange }
{
    let recs = records(alloc, words)?;
    if recs.is_empty() {
        return Err(LineRefusal::Because(Why::Word));
    }
    Ok(Command::Append(recs))
}

/// Shares bytes.
fn share(blob: Blob) -> Result<Bytes, AllocError>
    ensures { IfOk result (λ bytes. bytes ≡ blob) }
{
    Ok(Bytes::from_vec(blob.into_vec())?)
}

/// Reads the bytes of raw.
#[tactic(auto, unfolding(crate::specs::Commands::raw_in))]
fn raw(alloc: Global, words: Words) -> Result<Command, LineRefusal>
    ensures value { AnswersReading result (raw_in words.entry) }
    ensures said { IfOk result IsCommandInRange }
{
    let mut words = words;
    let bytes = hex(alloc, words.first(Why::Word)?, Why::Hex)?;
    words.end(Why::Word)?;
    Ok(Command::Raw(share(bytes)?))
}

/// Reads the offset and the limit of a fetch.
#[tactic(auto, unfolding(crate::specs::Commands::fetch_in))]
fn fetch(words: Words) -> Result<Command, Why>
    ensures value { result ≡ fetch_in words.entry }
    ensures said { IfOk result IsCommandInRange }
{
    let mut words = words;
    let offset = words.number(0, 1 << 62)?;
    let limit = words.only_number(0, (1 << 31) - 1)? as u32;
    Ok(Command::Fetch { offset, limit })
}

/// Reads the limit of a follow.
#[tactic(auto, unfolding(crate::specs::Commands::follow_in))]
fn follow(words: Words) -> Result<Command, Why>
    ensures value { result ≡ follow_in words.entry }
    ensures said { IfOk result IsCommandInRange }
{
    let limit = words.only_number(0, (1 << 31) - 1)? as u32;
    Ok(Command::Follow { limit })
}

/// Reads the offset of a raise.
#[tactic(auto, unfolding(crate::specs::Commands::raise_in))]
fn raise(words: Words) -> Result<Command, Why>
    ensures value { result ≡ raise_in words.entry }
    ensures said { IfOk result IsCommandInRange }
{
    let start = words.only_number(0, 1 << 62)?;
    Ok(Command::Raise { start })
}

/// Reads the name of an offset that has no argument.
fn alone_which(which: Which, words: Words) -> Result<Which, Why>
    ensures { result ≡ alone which words.entry }
{
    words.end(Why::Word)?;
    Ok(which)
}

/// Reads the words after an offset's name.
fn which(name: OffsetName, words: Words) -> Result<Which, Why>
    ensures { result ≡ which_behind name words.entry }
{
    match name {
        OffsetName::Earliest => alone_which(Which::Earliest, words),
        OffsetName::Latest => alone_which(Which::Latest, words),
        OffsetName::EarliestLocal => alone_which(Which::EarliestLocal, words),
        OffsetName::LatestTiered => alone_which(Which::LatestTiered, words),
        OffsetName::At => Ok(Which::At(words.only_number(0, (1 << 63) - 1)? as i64)),
        OffsetName::Unknown => Err(Why::Word),
    }
}

/// Reads which offset is asked for.
#[tactic(auto, unfolding(crate::specs::Commands::offset_in))]
fn offset(words: Words) -> Result<Command, Why>
    ensures value { result ≡ offset_in words.entry }
    ensures said { IfOk result IsCommandInRange }
{
    let mut words = words;
    let name = find_offset(words.first(Why::Word)?);
    Ok(Command::Offset(which(name, words)?))
}

/// Reads the time of a clock.
#[tactic(auto, unfolding(crate::specs::Commands::clock_in))]
fn clock(words: Words) -> Result<Command, Why>
    ensures value { result ≡ clock_in words.entry }
    ensures said { IfOk result IsCommandInRange }
{
    let ms = words.only_number(0, (1 << 63) - 1)? as i64;
    Ok(Command::Clock { ms })
}

/// Reads a flag.
#[tactic(auto, unfolding(crate::specs::Commands::flag_in))]
fn flag(words: Words) -> Result<bool, Why>
    ensures { result ≡ flag_in words.entry }
{
    Ok(words.only_number(0, 1)? == 1)
}

/// Reads a command without arguments.
fn alone(command: Command, words: Words) -> Result<Command, Why>
    requires { IsCommandInRange command }
    ensures value { result ≡ alone command words.entry }
    ensures said { IfOk result IsCommandInRange }
{
    words.end(Why::Word)?;
    Ok(command)
}

/// Reads a command that goes to a broker, other than those that bring batches.
fn small(verb: Verb, words: Words) -> Result<Command, Why>
    requires records { verb ≢ Verb.Append }
    requires bytes { verb ≢ Verb.Raw }
    ensures value { result ≡ command_led verb words.entry }
    ensures said { IfOk result IsCommandInRange }
{
    match verb {
        Verb::Flush => alone(Command::Flush, words),
        Verb::Roll => alone(Command::Roll, words),
        Verb::Elect => alone(Command::Elect, words),
        Verb::Unclean => alone(Command::Unclean, words),
        Verb::Learn => alone(Command::Learn, words),
        Verb::Join => alone(Command::Join, words),
        Verb::Follow => follow(words),
        Verb::Ack => alone(Command::Ack, words),
        Verb::Shrink => alone(Command::Shrink, words),
        Verb::Expand => alone(Command::Expand, words),
        Verb::Copy => alone(Command::Copy, words),
        Verb::Trim => alone(Command::Trim, words),
        Verb::Expire => alone(Command::Expire, words),
        Verb::Raise => raise(words),
        Verb::Stop => alone(Command::Stop, words),
        Verb::Up => alone(Command::Up, words),
        Verb::Fetch => fetch(words),
        Verb::Offset => offset(words),
        _ => Err(Why::Word),
    }
}

/// Reads a command that goes to a broker.
pub fn command(alloc: Global, verb: Verb, words: Words) -> Result<Command, LineRefusal>
    ensures value { AnswersReading result (command_led verb words.entry) }
    ensures said { IfOk result IsCommandInRange }
{
    match verb {
        Verb::Append => append(alloc, words),
        Verb::Raw => raw(alloc, words),
        _ => Ok(small(verb, words)?),
    }
}

/// Reads a command of the whole partition.
pub fn common(verb: Verb, words: Words) -> Result<Command, Why>
    ensures value { result ≡ common_led verb words.entry }
    ensures said { IfOk result IsCommandInRange }
{
    match verb {
        Verb::Clock => clock(words),
        Verb::Pack => Ok(Command::Pack(flag(words)?)),
        Verb::Copying => Ok(Command::Copying(flag(words)?)),
        _ => Err(Why::Word),
    }
}
