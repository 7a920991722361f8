//! The happy path of each public call, and an entry that is refused. Expected values are worked by hand.

ghost use Rattle.std.specs.Prelude.{◌≡◌, All, IfOk};
ghost use Rattle.plain_executor.specs.Fits.{AreFor, IsBuildableAppend};

use plain_executor::{Plain, first_refused, is_complete, is_complete_run, is_run};
use plain_log::{ActorList, Answer, Command, Config, Event, JournalEntry, Order};
use std::alloc::{AllocError, Global};
use tier_base::{ActorId, BrokerId, Items, Keep, Settings};

/// Two brokers.
fn config() -> Config
    ensures { result.brokers ≡ 2 }
{
    let keep = Keep { ms: -1, bytes: -1 };
    Config {
        brokers: 2,
        settings: Settings {
            segment_bytes: 1000,
            index_interval: 100,
        },
        keep,
        local_keep: keep,
    }
}

/// A step: the command goes to this broker, and its answer is the actor's next or not.
#[derive(Clone, Copy)]
enum Step {
    /// A flush is answered with this end.
    Flush { broker: u16, number: u32, end: u64 },
    /// The broker stops.
    Stop { broker: u16, number: u32 },
    /// It starts with this end.
    Up { broker: u16, number: u32, end: u64 },
}

/// Takes a step, and returns whether it was one.
fn take(alloc: Global, plain: &mut Plain, step: Step) -> Result<bool, AllocError> {
    let (broker, number, command, answer) = match step {
        Step::Flush {
            broker,
            number,
            end,
        } => (broker, number, Command::Flush, Answer::OkAt(end)),
        Step::Stop { broker, number } => (broker, number, Command::Stop, Answer::Ok),
        Step::Up {
            broker,
            number,
            end,
        } => (broker, number, Command::Up, Answer::Up(end)),
    };
    let order = Order {
        broker: BrokerId(broker),
        command,
    };
    let entry = JournalEntry {
        actor: ActorId(3),
        number,
        event: Event::Answers(answer),
    };
    plain.step(alloc, &order, &entry)
}

/// Steps, and whether each is one.
static CASES: [(Step, bool); 6] = [
    (
        Step::Flush {
            broker: 1,
            number: 0,
            end: 0,
        },
        true,
    ),
    (
        Step::Flush {
            broker: 1,
            number: 0,
            end: 0,
        },
        false,
    ),
    (
        Step::Up {
            broker: 1,
            number: 1,
            end: 0,
        },
        false,
    ),
    (
        Step::Stop {
            broker: 1,
            number: 1,
        },
        true,
    ),
    (
        Step::Flush {
            broker: 1,
            number: 2,
            end: 0,
        },
        false,
    ),
    (
        Step::Up {
            broker: 1,
            number: 2,
            end: 0,
        },
        true,
    ),
];

/// How many of the rows went as they should at first.
fn run(alloc: Global, plain: &mut Plain, rows: &[(Step, bool)]) -> usize {
    for (i, (step, taken)) in rows.iter().enumerate() {
        if take(alloc, plain, *step) != Ok(*taken) {
            return i;
        }
    }
    rows.len()
}

/// How many of the rows went as they should at first, of a fresh state.
fn run_fresh(alloc: Global, rows: &[(Step, bool)]) -> usize {
    match Plain::fresh(alloc, &config()) {
        Ok(mut plain) => run(alloc, &mut plain, rows),
        Err(_) => 0,
    }
}

/// The first end, and the first known high watermark.
fn first_of(plain: &Plain) -> Option<(u128, u64)> {
    if plain.count() == 0 {
        return None;
    }
    Some((plain.end(BrokerId(0)), plain.known(BrokerId(0))))
}

/// The mark, the log start offset, an actor's number, and how many brokers there are.
fn told(plain: &Plain) -> (u64, u64, u32, usize) {
    (
        plain.mark(),
        plain.start(),
        plain.number(ActorId(3)),
        plain.count(),
    )
}

/// What is reported of a fresh state.
fn told_fresh(alloc: Global) -> Option<(Option<(u128, u64)>, (u64, u64, u32, usize))> {
    match Plain::fresh(alloc, &config()) {
        Ok(plain) => Some((first_of(&plain), told(&plain))),
        Err(_) => None,
    }
}

/// An actor's flushes of broker 1.
fn flushes(alloc: Global, actor: u16, count: u32) -> Result<ActorList, AllocError>
    ensures { IfOk result (λ list. All (λ order. IsBuildableAppend order.command) list.orders) }
{
    let mut orders = Items::new(alloc);
    for _ in 0..count {
        orders.push(Order {
            broker: BrokerId(1),
            command: Command::Flush,
        })?;
    }
    Ok(ActorList {
        actor: ActorId(actor),
        orders,
    })
}

/// The lists of two actors: two orders of actor 0, and one of actor 2.
fn lists(alloc: Global) -> Result<Items<ActorList>, AllocError>
    ensures { IfOk result (λ lists. AreFor lists) }
{
    let mut lists = Items::new(alloc);
    lists.push(flushes(alloc, 0, 2)?)?;
    lists.push(flushes(alloc, 2, 1)?)?;
    Ok(lists)
}

/// A journal of answers to flushes, each of an actor and with a number and an end.
fn journal(alloc: Global, answers: &[(u16, u32, u64)]) -> Result<Items<JournalEntry>, AllocError> {
    let mut journal = Items::new(alloc);
    for (actor, number, end) in answers {
        journal.push(JournalEntry {
            actor: ActorId(*actor),
            number: *number,
            event: Event::Answers(Answer::OkAt(*end)),
        })?;
    }
    Ok(journal)
}

/// Answers to flushes, and whether they are a run and are complete.
struct Case {
    answers: &'static [(u16, u32, u64)],
    is_run: bool,
    is_complete: bool,
}

/// Journals of the two lists.
static JOURNALS: [Case; 8] = [
    Case {
        answers: &[],
        is_run: true,
        is_complete: false,
    },
    Case {
        answers: &[(0, 0, 0), (2, 0, 0), (0, 1, 0)],
        is_run: true,
        is_complete: true,
    },
    Case {
        answers: &[(0, 0, 0), (0, 1, 0)],
        is_run: true,
        is_complete: false,
    },
    Case {
        answers: &[(2, 0, 0), (0, 0, 0)],
        is_run: true,
        is_complete: false,
    },
    Case {
        answers: &[(0, 1, 0), (0, 0, 0), (2, 0, 0)],
        is_run: false,
        is_complete: false,
    },
    Case {
        answers: &[(0, 0, 0), (0, 0, 0), (2, 0, 0)],
        is_run: false,
        is_complete: false,
    },
    Case {
        answers: &[(0, 0, 0), (2, 0, 0), (0, 1, 0), (5, 0, 0)],
        is_run: false,
        is_complete: false,
    },
    Case {
        answers: &[(0, 0, 7), (0, 1, 7), (2, 0, 7)],
        is_run: false,
        is_complete: true,
    },
];

/// Whether a journal of these lists is a run, whether it is complete, and whether it is both.
fn verdict(
    alloc: Global,
    lists: &[ActorList],
    journal: &[JournalEntry],
) -> Result<(bool, bool, bool), AllocError>
    requires { AreFor lists.now }
{
    let run = is_run(alloc, &config(), lists, journal)?;
    let complete = is_complete(alloc, lists, journal)?;
    let both = is_complete_run(alloc, &config(), lists, journal)?;
    Ok((run, complete, both))
}

/// What a journal of the two lists is.
fn verdict_of(
    alloc: Global,
    answers: &[(u16, u32, u64)],
) -> Result<(bool, bool, bool), AllocError> {
    let lists = lists(alloc)?;
    match journal(alloc, answers) {
        Ok(journal) => verdict(alloc, lists.as_slice(), journal.as_slice()),
        Err(refusal) => Err(refusal),
    }
}

#[test]
fn a_complete_run_is_reported(rt: HostRuntime) {
    for case in &JOURNALS {
        let both = case.is_run & case.is_complete;
        let wanted = (case.is_run, case.is_complete, both);
        assert_eq!(rt; verdict_of(rt.alloc(), case.answers), Ok(wanted));
    }
}

#[test]
fn steps_are_taken_in_order(rt: HostRuntime) {
    assert_eq!(rt; run_fresh(rt.alloc(), &CASES), CASES.len());
}

#[test]
fn a_fresh_state_is_reported(rt: HostRuntime) {
    let told = told_fresh(rt.alloc());
    assert_eq!(rt; told, Some((Some((0, 0)), (0, 0, 0, 2))));
}

/// Where a journal without lists is refused.
fn refused_at(alloc: Global, answers: &[(u16, u32, u64)]) -> Result<Option<usize>, AllocError> {
    let journal = journal(alloc, answers)?;
    first_refused(alloc, &config(), &[], journal.as_slice())
}

#[test]
fn an_entry_of_no_list_is_refused(rt: HostRuntime) {
    assert_eq!(rt; refused_at(rt.alloc(), &[]), Ok(None));
    assert_eq!(rt; refused_at(rt.alloc(), &[(0, 0, 0)]), Ok(Some(0)));
}
