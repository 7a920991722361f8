//! Reading a line: its first word decides which form the others have.

ghost use Rattle.std.specs.Prelude.{◌≡◌, ◌-◌, ◌<◌, ◌≤◌, Ok, IfOk};
ghost use Rattle.script_lang.specs.Reading.{AnswersReading};
ghost use Rattle.script_lang.specs.Forms.{brokers_of, partitions_of, common_in, addressed_in, order_in, placed_in};
ghost use Rattle.script_lang.specs.Forms.{later_in, turn_in, form_led, form_in};
ghost use Rattle.script_lang.specs.Fit.{IsSaidTo, IsFormInRange};

use crate::commands::{command, common};
use crate::faults::fault;
use crate::form::Form;
use crate::names::{Lead, find_lead, find_verb};
use crate::numbers::number;
use crate::options::{OptionLine, Options};
use crate::refusal::{LineRefusal, Why};
use crate::words::{Words, is};
use plain_log::Order;
use std::alloc::Global;
use tier_base::{ActorId, BrokerId, PartitionId};

/// Reads a command of the whole partition.
#[tactic(auto, unfolding(crate::specs::Forms::common_in))]
fn common_order(brokers: u16, words: Words) -> Result<Order, Why>
    requires { 1 ≤ brokers }
    ensures value { result ≡ common_in words.entry }
    ensures said { IfOk result (IsSaidTo brokers) }
{
    let mut words = words;
    let verb = find_verb(words.first(Why::Word)?);
    Ok(Order {
        broker: BrokerId(0),
        command: common(verb, words)?,
    })
}

/// Reads the command to the broker that a word names.
#[tactic(auto, unfolding(crate::specs::Forms::addressed_in))]
fn addressed_order(
    alloc: Global,
    brokers: u16,
    word: &[u8],
    words: Words,
) -> Result<Order, LineRefusal>
    requires { 1 ≤ brokers }
    ensures value { AnswersReading result (addressed_in brokers word.now words.entry) }
    ensures said { IfOk result (IsSaidTo brokers) }
{
    let mut words = words;
    let broker = BrokerId(number(word, 0, brokers as u64 - 1, Why::Number)? as u16);
    let verb = find_verb(words.first(Why::Word)?);
    Ok(Order {
        broker,
        command: command(alloc, verb, words)?,
    })
}

/// Reads a broker and a command.
#[tactic(auto, unfolding(crate::specs::Forms::order_in))]
fn order(alloc: Global, brokers: u16, words: Words) -> Result<Order, LineRefusal>
    requires { 1 ≤ brokers }
    ensures value { AnswersReading result (order_in brokers words.entry) }
    ensures said { IfOk result (IsSaidTo brokers) }
{
    let mut words = words;
    let word = words.first(Why::Word)?;
    if is(word, "-") {
        return Ok(common_order(brokers, words)?);
    }
    addressed_order(alloc, brokers, word, words)
}

/// Reads partition, broker and command.
#[tactic(auto, unfolding(crate::specs::Forms::placed_in))]
fn placed(
    alloc: Global,
    options: Options,
    at_once: bool,
    actor: ActorId,
    words: Words,
) -> Result<Form, LineRefusal>
    requires actor { actor.0 < 64 }
    requires brokers { 1 ≤ brokers_of options }
    ensures value { AnswersReading result (placed_in options at_once actor.0 words.entry) }
    ensures range { IfOk result (IsFormInRange options) }
{
    let mut words = words;
    let partitions = options.partitions.unwrap_or(1);
    let partition = PartitionId(words.number(0, partitions.saturating_sub(1) as u64)? as u16);
    let order = order(alloc, options.brokers.unwrap_or(1), words)?;
    Ok(Form::Placed {
        actor,
        partition,
        order,
        at_once,
    })
}

/// Reads the words after `later`.
#[tactic(auto, unfolding(crate::specs::Forms::later_in))]
fn later(alloc: Global, options: Options, words: Words) -> Result<Form, LineRefusal>
    requires { 1 ≤ brokers_of options }
    ensures value { AnswersReading result (later_in options words.entry) }
    ensures range { IfOk result (IsFormInRange options) }
{
    let mut words = words;
    let actor = ActorId(words.number(0, 63)? as u16);
    placed(alloc, options, false, actor, words)
}

/// Reads the words after `turn`.
#[tactic(auto, unfolding(crate::specs::Forms::turn_in))]
fn turn(options: Options, words: Words) -> Result<Form, Why>
    ensures value { result ≡ turn_in words.entry }
    ensures range { IfOk result (IsFormInRange options) }
{
    let mut words = words;
    let actor = ActorId(words.number(0, 63)? as u16);
    let turns = words.only_number(1, 1 << 20)? as u32;
    Ok(Form::Turn { actor, turns })
}

/// Reads the words after the first one.
fn form_behind(
    alloc: Global,
    options: Options,
    lead: Lead,
    word: &[u8],
    words: Words,
) -> Result<Form, LineRefusal>
    requires { 1 ≤ brokers_of options }
    ensures value { AnswersReading result (form_led options lead word.now words.entry) }
    ensures range { IfOk result (IsFormInRange options) }
{
    let option = match lead {
        Lead::Comment => return Ok(Form::Blank),
        Lead::Later => return later(alloc, options, words),
        Lead::Turn => return Ok(turn(options, words)?),
        Lead::Fault => return Ok(fault(options, words)?),
        Lead::Actor => {
            let actor = ActorId(number(word, 0, 63, Why::Number)? as u16);
            return placed(alloc, options, true, actor, words);
        }
        Lead::Unknown => return Err(LineRefusal::Because(Why::Word)),
        Lead::Brokers => OptionLine::Brokers(words.only_number(1, 8)? as u16),
        Lead::Partitions => OptionLine::Partitions(words.only_number(1, 64)? as u16),
        Lead::SegmentBytes => {
            OptionLine::SegmentBytes(words.only_number(100, 16_777_216)? as u32)
        }
        Lead::IndexIntervalBytes => {
            OptionLine::IndexIntervalBytes(words.only_number(0, 16_777_216)? as u32)
        }
        Lead::RetentionMs => OptionLine::RetentionMs(words.only_signed(1, (1 << 63) - 1)?),
        Lead::RetentionBytes => OptionLine::RetentionBytes(words.only_signed(1, (1 << 63) - 1)?),
        Lead::LocalRetentionMs => {
            OptionLine::LocalRetentionMs(words.only_signed(2, (1 << 63) - 1)?)
        }
        Lead::LocalRetentionBytes => {
            OptionLine::LocalRetentionBytes(words.only_signed(2, (1 << 63) - 1)?)
        }
    };
    Ok(Form::Given(option))
}

/// Reads the words of a line.
pub fn form(alloc: Global, options: Options, words: Words) -> Result<Form, LineRefusal>
    requires { 1 ≤ brokers_of options }
    ensures value { AnswersReading result (form_in options words.entry) }
    ensures range { IfOk result (IsFormInRange options) }
{
    let mut words = words;
    let Ok(word) = words.first(Why::Word) else {
        return Ok(Form::Blank);
    };
    form_behind(alloc, options, find_lead(word), word, words)
}
