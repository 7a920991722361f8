//! A journal and a summary, worked by hand.

ghost use Rattle.std.specs.Prelude.{◌≡◌, All, IfOk};
ghost use Rattle.plain_executor.specs.Fits.{AreFor, IsBuildableAppend};

use plain_log::{ActorList, Answer, Command, Config, Event, JournalEntry, Order};
use run_summary::{End, Given, Told, summary, tell};
use std::alloc::{AllocError, Global};
use tier_base::{ActorId, BrokerId, Items, Keep, PartitionId, Settings};

/// Two brokers.
fn config() -> Config
    ensures { result.brokers ≡ 2 }
{
    let keep = Keep { ms: -1, bytes: -1 };
    Config {
        brokers: 2,
        settings: Settings {
            segment_bytes: 1000,
            index_interval: 100,
        },
        keep,
        local_keep: keep,
    }
}

/// An actor's fetch from broker 0, and its flush there.
fn list(alloc: Global) -> Result<ActorList, AllocError>
    ensures { IfOk result (λ list. All (λ order. IsBuildableAppend order.command) list.orders) }
{
    let broker = BrokerId(0);
    let mut orders = Items::new(alloc);
    orders.push(Order {
        broker,
        command: Command::Fetch {
            offset: 0,
            limit: 100,
        },
    })?;
    orders.push(Order {
        broker,
        command: Command::Flush,
    })?;
    Ok(ActorList {
        actor: ActorId(0),
        orders,
    })
}

/// The list alone.
fn lists(alloc: Global) -> Result<Items<ActorList>, AllocError>
    ensures { IfOk result (λ lists. AreFor lists) }
{
    let mut lists = Items::new(alloc);
    lists.push(list(alloc)?)?;
    Ok(lists)
}

/// An answer to the actor.
fn entry(number: u32, answer: Answer) -> JournalEntry {
    JournalEntry {
        actor: ActorId(0),
        number,
        event: Event::Answers(answer),
    }
}

/// The answers to the fetch and to the flush, which has this end.
fn journal(alloc: Global, flushed: u64) -> Result<Items<JournalEntry>, AllocError> {
    let mut journal = Items::new(alloc);
    journal.push(entry(0, Answer::Empty))?;
    journal.push(entry(1, Answer::OkAt(flushed)))?;
    Ok(journal)
}

/// How many answers, bytes, and the log end.
fn counts(told: &Told) -> (usize, u128, u128) {
    (told.answers().len(), told.bytes(), told.end().log_end)
}

/// What a journal of these lists comes to, or nothing where it is no run of them.
fn counts_of(
    alloc: Global,
    lists: &[ActorList],
    journal: &[JournalEntry],
) -> Result<Option<(usize, u128, u128)>, AllocError>
    requires { AreFor lists.now }
{
    match tell(alloc, &config(), PartitionId(3), lists, journal) {
        Ok(Some(told)) => Ok(Some(counts(&told))),
        Ok(None) => Ok(None),
        Err(refusal) => Err(refusal),
    }
}

/// What a fetch and a flush with this end come to.
fn first_answers(alloc: Global, flushed: u64) -> Result<Option<(usize, u128, u128)>, AllocError> {
    let lists = lists(alloc)?;
    match journal(alloc, flushed) {
        Ok(journal) => counts_of(alloc, lists.as_slice(), journal.as_slice()),
        Err(refusal) => Err(refusal),
    }
}

#[test]
fn a_journal_is_summed_up(rt: HostRuntime) {
    assert_eq!(rt; first_answers(rt.alloc(), 0), Ok(Some((2, 0, 0))));
    assert_eq!(rt; first_answers(rt.alloc(), 1), Ok(None), "no run");
}

/// Commands and their answers, in the order in which they came, with the sizes of runs.
static ANSWERS: [(&str, &str, u64); 7] = [
    ("fetch", "Run", 69),
    ("append", "Ok", 0),
    ("stop", "Ok", 0),
    ("append", "Down", 0),
    ("fetch", "Empty", 0),
    ("append", "Ok", 0),
    ("fetch", "Run", 138),
];

/// A partition that was reported so.
fn part(
    alloc: Global,
    answers: &[(&'static str, &'static str, u64)],
    end: End,
) -> Result<Told, AllocError> {
    let mut told = Told::new(alloc, end);
    for (command, word, size) in answers {
        told.add(Given { command, word }, *size)?;
    }
    Ok(told)
}

const FIRST: End = End {
    partition: PartitionId(0),
    log_end: 3,
    mark: 2,
    start: 1,
};

const SECOND: End = End {
    partition: PartitionId(1),
    log_end: 0,
    mark: 0,
    start: 0,
};

/// Two partitions.
fn parts(alloc: Global) -> Result<Items<Told>, AllocError> {
    let mut parts = Items::new(alloc);
    parts.push(part(alloc, &ANSWERS, FIRST)?)?;
    parts.push(part(alloc, &ANSWERS[5..], SECOND)?)?;
    Ok(parts)
}

/// Their summary.
static TEXT: &str = "\
    append Down 1\n\
    append Ok 3\n\
    fetch Empty 1\n\
    fetch Run 3\n\
    bytes 345\n\
    partition 0 end 3 mark 2 start 1\n\
    partition 1 end 0 mark 0 start 0\n";

/// Whether this is a summary of parts.
fn is_summed(alloc: Global, parts: &[Told], wanted: &str) -> bool {
    match summary(alloc, parts) {
        Ok(text) => text.as_slice() == wanted.as_bytes(),
        Err(_) => false,
    }
}

/// Whether this is the summary of these.
fn sums_up(alloc: Global, parts: Result<Items<Told>, AllocError>, wanted: &str) -> bool {
    match parts {
        Ok(parts) => is_summed(alloc, parts.as_slice(), wanted),
        Err(_) => false,
    }
}

#[test]
fn a_summary_is_worked_out(rt: HostRuntime) {
    let parts = parts(rt.alloc());
    assert!(rt; sums_up(rt.alloc(), parts, TEXT));
}

/// Two runs of the largest size.
static LARGEST: [(&str, &str, u64); 2] = [("fetch", "Run", u64::MAX), ("fetch", "Run", u64::MAX)];

/// Two partitions that returned such runs.
fn largest_parts(alloc: Global) -> Result<Items<Told>, AllocError> {
    let mut parts = Items::new(alloc);
    parts.push(part(alloc, &LARGEST, FIRST)?)?;
    parts.push(part(alloc, &LARGEST, SECOND)?)?;
    Ok(parts)
}

/// Their summary: 4 * (2^64 - 1).
static LARGEST_TEXT: &str = "\
    fetch Run 4\n\
    bytes 73786976294838206460\n\
    partition 0 end 3 mark 2 start 1\n\
    partition 1 end 0 mark 0 start 0\n";

#[test]
fn a_sum_may_have_more_than_64_bits(rt: HostRuntime) {
    let parts = largest_parts(rt.alloc());
    assert!(rt; sums_up(rt.alloc(), parts, LARGEST_TEXT));
}
