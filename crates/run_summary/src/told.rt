//! What a summary says of a partition's journal.

ghost use Rattle.std.specs.Prelude.{◌≡◌, ◌≤◌, ◌+◌, ◌*◌, ◌^◌, ◌++◌, ◌∷◌, [], length, IfOk, OnOk, OnErr};
ghost use Rattle.std.specs.Option.{option_copied, option_to_list};
ghost use Rattle.plain_executor.specs.Fits.{AreFor};
ghost use Rattle.plain_log.specs.Runs.{order_of};
ghost use Rattle.run_summary.specs.Told.{answer_in, answers_of, ended, first_end as end_is};
ghost use Rattle.run_summary.specs.Told.{ordered_bytes, ordered_size, size_in, told_of};

use crate::given::{End, Given};
use crate::names::command_name;
use plain_executor::{Plain, find_order, replay};
use plain_log::{ActorList, Answer, Config, Event, JournalEntry, Order};
use std::alloc::{AllocError, Global};
use std::marker::Model;
use tier_base::{BrokerId, Items, PartitionId};
use trace_text::answer_name;

/// What a partition's journal comes to.
///
/// Only an answer has a size, of 64 bits. So the sizes of all answers that are in memory have a sum of 128 bits, also
/// over several partitions.
#[derive(Debug, Drop)]
pub struct Told {
    answers: Items<Given>,
    bytes: u128,
    end: End,
}

impl Model for Told {
    ghost use Rattle.std.specs.Prelude.{◌≤◌, ◌*◌, ◌^◌, length};
    ghost use Rattle.run_summary.specs.Outcome.{Outcome};

    ghost Value = { Outcome };

    ghost view = { λ told. record { answers = told.answers; bytes = told.bytes; end = told.end } };

    ghost invariant = { λ told. told.bytes ≤ length told.answers * 2 ^ 64 };
}

impl Told {
    /// Of a partition that ended so: no answer yet.
    pub fn new(alloc: Global, end: End) -> Told
        ensures { result ≡ record { answers = []; bytes = 0; end = end } }
    {
        Told {
            answers: Items::new(alloc),
            bytes: 0,
            end,
        }
    }

    /// Adds an answer, and the size in bytes of the run that it returned: 0 where it returned none. Fails only if
    /// memory runs out.
    pub fn add(&mut self, given: Given, size: u64) -> Result<(), AllocError>
        ensures ok { OnOk result (self.new ≡ record
            { answers = self.old.answers ++ given ∷ []; bytes = self.old.bytes + size; end = self.old.end }) }
        ensures err { OnErr result (self.new ≡ self.old) }
    {
        self.answers.push(given)?;
        let _count = self.answers.len();
        self.bytes += u128::from(size);
        Ok(())
    }

    /// Lends the answers, in their order.
    pub fn answers(&self) -> &[Given]
        ensures { result.now ≡ self.now.answers }
    {
        self.answers.as_slice()
    }

    /// The sizes of all runs that fetches returned, summed.
    pub fn bytes(&self) -> u128
        ensures is { result ≡ self.now.bytes }
        ensures small { result ≤ length self.now.answers * 2 ^ 64 }
    {
        self.bytes
    }

    /// Lends where the partition ended.
    pub fn end(&self) -> &End
        ensures { result.now ≡ self.now.end }
    {
        &self.end
    }
}

/// What an entry about an order reports.
fn answer_of(order: Option<&Order>, event: &Event) -> Option<Given>
    ensures { option_to_list result ≡ answer_in (option_copied order.entry) event.now }
{
    match (order, event) {
        (Some(order), Event::Answers(answer)) => Some(Given {
            command: command_name(&order.command),
            word: answer_name(answer),
        }),
        _ => None,
    }
}

/// The size of the run that a fetch was given.
fn size_of(event: &Event) -> u64
    ensures { result ≡ size_in event.now }
{
    match event {
        Event::Answers(Answer::Run { size, .. }) => *size,
        _ => 0,
    }
}

/// Adds what an entry gives.
fn add_entry(told: &mut Told, lists: &[ActorList], entry: &JournalEntry) -> Result<(), AllocError>
    ensures { OnOk result (told.new ≡ record {
      answers = told.old.answers ++ answer_in (order_of lists.now entry.now) entry.now.event;
      bytes = told.old.bytes + ordered_size (order_of lists.now entry.now) entry.now.event;
      end = told.old.end;
    }) }
{
    match answer_of(find_order(lists, entry), &entry.event) {
        Some(given) => told.add(given, size_of(&entry.event)),
        None => Ok(()),
    }
}

/// What a journal says of a partition that ended so.
fn told_in(
    alloc: Global,
    lists: &[ActorList],
    journal: &[JournalEntry],
    end: End,
) -> Result<Told, AllocError>
    ensures { IfOk result (λ told. told ≡ record {
      answers = answers_of lists.now journal.now;
      bytes = ordered_bytes lists.now journal.now;
      end = end;
    }) }
{
    let mut told = Told::new(alloc, end);
    for entry in journal {
        match add_entry(&mut told, lists, entry) {
            Ok(()) => {}
            Err(error) => return Err(error),
        }
    }
    Ok(told)
}

/// The log end offset of broker 0.
fn first_end(plain: &Plain) -> u128
    ensures { result ≡ end_is plain.now }
{
    if plain.count() == 0 {
        return 0;
    }
    plain.end(BrokerId(0))
}

/// Where a partition ended.
fn end_of(plain: &Plain, partition: PartitionId) -> End
    ensures { result ≡ ended partition.0 plain.now }
{
    End {
        partition,
        log_end: first_end(plain),
        mark: plain.mark(),
        start: plain.start(),
    }
}

/// Replays a partition's journal, and returns what it comes to, or nothing where it is no run of the plain log. Fails
/// only if memory runs out.
pub fn tell(
    alloc: Global,
    config: &Config,
    partition: PartitionId,
    lists: &[ActorList],
    journal: &[JournalEntry],
) -> Result<Option<Told>, AllocError>
    requires some { 1 ≤ config.now.brokers }
    requires few { config.now.brokers ≤ 8 }
    requires fit { AreFor lists.now }
    ensures { IfOk result (λ told. told ≡ told_of config.now partition.0 lists.now journal.now) }
{
    let Some(plain) = replay(alloc, config, lists, journal)? else {
        return Ok(None);
    };
    let told = told_in(alloc, lists, journal, end_of(&plain, partition))?;
    Ok(Some(told))
}
