//! What an entry does to its broker's log, as far as the answers say it. `specs/Change.antt` has the same by cases.

ghost use Rattle.std.specs.Prelude.{◌≡◌};
ghost use Rattle.run_story.specs.Change.{cut_at, led, down, fails, join_failed, ok_at, ok};
ghost use Rattle.run_story.specs.Change.{answered as answered_of, after as after_of};

use crate::log_state::LogState;
use plain_log::{Answer, Command, Event};

/// The log is cut to an end, where it meets the leader's.
fn cut(log: LogState, end: u64) -> LogState
    ensures { result ≡ cut_at log end }
{
    LogState {
        local_start: log.local_start.min(end),
        flushed_end: end,
        epoch: log.learned,
        ..log
    }
}

/// The broker takes the lead of an epoch: its whole log is flushed.
fn lead(log: LogState, epoch: u64) -> LogState
    ensures { result ≡ led log epoch }
{
    LogState {
        flushed_end: log.end,
        learned: epoch,
        epoch,
        ..log
    }
}

/// The broker stops.
fn stop(log: LogState) -> LogState
    ensures { result ≡ down log }
{
    LogState { up: false, ..log }
}

/// Whether a disk fault stops the broker: one in a write does, one in a read doesn't.
fn is_stopped_by_fault(command: &Command, is_begun: bool) -> bool
    ensures { result ≡ fails command.now is_begun }
{
    match command {
        Command::Append(_)
        | Command::Raw(_)
        | Command::Flush
        | Command::Roll
        | Command::Learn
        | Command::Trim => true,
        Command::Follow { .. } => is_begun,
        _ => false,
    }
}

/// The log of a broker whose join failed at the disk: in the cut, which may have been made or not, or later, where the
/// log restarts.
fn broken_join(log: LogState, end: u64, is_begun: bool) -> LogState
    ensures { result ≡ join_failed log end is_begun }
{
    if is_begun {
        return stop(LogState {
            epoch: log.learned,
            ..log
        });
    }
    stop(LogState {
        flushed_end: log.flushed_end.min(end),
        ..log
    })
}

/// The log after a number was answered.
fn ok_at(log: LogState, command: &Command, number: u64) -> LogState
    ensures { result ≡ ok_at log command.now number }
{
    match command {
        Command::Flush => LogState {
            flushed_end: number,
            ..log
        },
        _ => log,
    }
}

/// The log after `Ok` was answered.
fn ok(log: LogState, command: &Command) -> LogState
    ensures { result ≡ ok log command.now }
{
    match command {
        Command::Stop => stop(log),
        _ => log,
    }
}

/// The log after a command was answered.
fn answered(log: LogState, command: &Command, is_begun: bool, answer: &Answer) -> LogState
    ensures { result ≡ answered_of log command.now is_begun answer.now }
{
    match answer {
        Answer::Ok => ok(log, command),
        Answer::OkAt(number) => ok_at(log, command, *number),
        Answer::OkSpan(_, _, epoch) => LogState {
            epoch: *epoch,
            ..log
        },
        Answer::Up(end) => LogState {
            up: true,
            flushed_end: *end,
            ..log
        },
        Answer::Leads(epoch) => lead(log, *epoch),
        Answer::Follows(epoch) => LogState {
            learned: *epoch,
            ..log
        },
        Answer::Cut(end) => cut(log, *end),
        Answer::Copied(_) => LogState {
            epoch: log.learned,
            ..log
        },
        Answer::Rebuilt(start) => LogState {
            local_start: *start,
            flushed_end: *start,
            epoch: log.learned,
            ..log
        },
        Answer::Dropped(_, last) => LogState {
            local_start: last.saturating_add(1),
            ..log
        },
        Answer::DiskFaultAt(end) => broken_join(log, *end, is_begun),
        Answer::DiskFault => {
            if is_stopped_by_fault(command, is_begun) {
                stop(log)
            } else {
                log
            }
        }
        _ => log,
    }
}

/// Returns the log after an entry. `is_begun` says whether the entry's command had begun before it.
pub fn after(log: LogState, command: &Command, is_begun: bool, event: &Event) -> LogState
    ensures { result ≡ after_of log command.now is_begun event.now }
{
    match event {
        Event::Begins { cut: Some(end) } => cut(log, *end),
        Event::Begins { cut: None } => log,
        Event::Answers(answer) => answered(log, command, is_begun, answer),
    }
}
