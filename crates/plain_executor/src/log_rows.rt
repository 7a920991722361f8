//! The rows of commands to a broker's own log, and of its stops, which aren't refused.

ghost use Rattle.std.specs.Prelude.{◌≡◌, ◌==◌, ◌&&◌, ◌+◌, ℕ, ◌≤◌, take, length, option_map};
ghost use Rattle.log_terms.specs.Batch.{last_offset_delta_of};
ghost use Rattle.log_terms.specs.Log.{end_of, up_to, IsConsecutive};
ghost use Rattle.registry.specs.declared.registry.Replica.{Replica};
ghost use Rattle.plain_log.specs.declared.state.State.{State};
ghost use Rattle.plain_log.specs.declared.state.Broker.{Broker as BrokerIs};
ghost use Rattle.plain_log.specs.declared.command.Command.{Command};
ghost use Rattle.plain_log.specs.RowsOfLog.{append_row, flush_row, roll_row, stop_row, up_row, may_open_at};
ghost use Rattle.plain_executor.specs.Change.{changed, batch_in};

use crate::change::{Change, given};
use crate::ends::{count_up_to, end, end_in};
use crate::part::Part;
use plain_log::{Answer, Broker, leading_in};

/// Whether an answer reports a batch at the end of a leader's log: its base, its last offset and its leader epoch.
fn is_span(x: &Broker, delta: u64, base: u64, last: u64) -> bool
    ensures { result ≡ ((base == end_of x.now.log) && (last == base + delta)) }
{
    u128::from(base) == end(&x.log) && u128::from(last) == u128::from(base) + u128::from(delta)
}

/// What an append changes of the command's batch, whose last offset is so far after its first.
pub(crate) fn append(x: &Broker, delta: u64, answer: &Answer) -> Option<Change>
    ensures { (p : State) (b : ℕ) (s : Replica) (command : Command) → last_offset_delta_of (batch_in command) ≡ delta
        → append_row p b x.now (batch_in command) answer.now ≡ option_map (changed p b x.now s command) result }
{
    match answer {
        Answer::TooManySegments => Some(Change::Same),
        Answer::DiskFault => Some(Change::Breaks(x.flushed_end)),
        Answer::OkSpan(base, last, epoch) => append_span(x, delta, *base, *last, *epoch),
        _ => None,
    }
}

/// What an append changes that is answered with a batch's place.
fn append_span(x: &Broker, delta: u64, base: u64, last: u64, epoch: u64) -> Option<Change>
    ensures { (p : State) (b : ℕ) (s : Replica) (command : Command) → last_offset_delta_of (batch_in command) ≡ delta
        → append_row p b x.now (batch_in command) (Answer.OkSpan base last epoch)
        ≡ option_map (changed p b x.now s command) result }
{
    match leading_in(x.role) {
        Some(e) => given(
            u64::from(e) == epoch && is_span(x, delta, base, last),
            Change::Gains { base, epoch: e },
        ),
        None => None,
    }
}

/// What a flush changes.
pub(crate) fn flush(x: &Broker, answer: &Answer) -> Option<Change>
    ensures { (p : State) (b : ℕ) (s : Replica) (command : Command)
        → flush_row p b x.now answer.now ≡ option_map (changed p b x.now s command) result }
{
    match answer {
        Answer::DiskFault => Some(Change::Breaks(x.flushed_end)),
        Answer::OkAt(n) => given(u128::from(*n) == end(&x.log), Change::Flushes(*n)),
        _ => None,
    }
}

/// What a roll changes.
pub(crate) fn roll(x: &Broker, answer: &Answer) -> Option<Change>
    ensures { (p : State) (b : ℕ) (s : Replica) (command : Command)
        → roll_row p b x.now answer.now ≡ option_map (changed p b x.now s command) result }
{
    match answer {
        Answer::EmptySegment | Answer::TooManySegments => Some(Change::Same),
        Answer::DiskFault => Some(Change::Breaks(x.flushed_end)),
        Answer::OkAt(n) => given(u128::from(*n) == end(&x.log), Change::Same),
        _ => None,
    }
}

/// What a stop changes.
pub(crate) fn stop(answer: &Answer) -> Option<Change>
    ensures { (p : State) (b : ℕ) (x : BrokerIs) (s : Replica) (command : Command)
        → stop_row p b x answer.now ≡ option_map (changed p b x s command) result }
{
    match answer {
        Answer::Ok => Some(Change::Stops),
        _ => None,
    }
}

/// Whether the log may end here when the broker starts, which is after so many batches.
fn opens_at(x: &Broker, n: u64, count: usize) -> bool
    requires within { count ≤ length x.now.log }
    requires is { up_to n x.now.log ≡ take count x.now.log }
    ensures { result ≡ may_open_at x.now n }
{
    if !x.loose {
        return n == x.flushed_end;
    }
    let log = Part::of(&x.log);
    end_in(&log.first(count)) == u128::from(n)
        && x.flushed_end <= n
        && u128::from(n) <= end_in(&log)
}

/// What a start changes that is answered with this end.
fn open(x: &Broker, n: u64) -> Option<Change>
    requires { IsConsecutive 0 x.now.log }
    ensures { (p : State) (b : ℕ) (s : Replica) (command : Command)
        → up_row p b x.now (Answer.Up n) ≡ option_map (changed p b x.now s command) result }
{
    let count = count_up_to(n, &Part::of(&x.log));
    given(opens_at(x, n, count), Change::Opens { count, end: n })
}

/// What a start changes.
pub(crate) fn up(x: &Broker, answer: &Answer) -> Option<Change>
    requires { IsConsecutive 0 x.now.log }
    ensures { (p : State) (b : ℕ) (s : Replica) (command : Command)
        → up_row p b x.now answer.now ≡ option_map (changed p b x.now s command) result }
{
    match answer {
        Answer::DiskFault | Answer::Damaged(..) | Answer::LastIncarnation => Some(Change::Same),
        Answer::Up(n) => open(x, *n),
        _ => None,
    }
}
