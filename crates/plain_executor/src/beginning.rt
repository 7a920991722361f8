//! Where commands of several turns begin.

ghost use Rattle.std.specs.Prelude.{◌≡◌, IfOk, IfSome, option_map, true};
ghost use Rattle.plain_log.specs.Step.{begins, recorded_of};
ghost use Rattle.plain_executor.specs.Change.{MatchesPaths, begun_at, is_begin};

use crate::change::{Change, given};
use crate::ends::end_in;
use crate::followers::cut_at;
use crate::part::Part;
use crate::reads::takes_turns;
use plain_log::{Broker, Command, Order, PlainSnapshot, Role, State, Which};
use std::alloc::AllocError;

/// What the beginning of a command that isn't refused changes, with this end of a log that it cuts.
pub(crate) fn beginning(
    p: &State,
    x: &Broker,
    command: &Command,
    cut: Option<u64>,
) -> Option<Change>
    requires { MatchesPaths p.now x.now }
    ensures is { begins p.now x.now command.now cut ≡ option_map (begun_at x.now) result }
    ensures few { IfSome result (λ change. is_begin change ≡ true) }
{
    match (command, cut) {
        (Command::Join, Some(n)) => match cut_at(p, x, n) {
            Some((epoch, count)) => Some(Change::Cuts {
                epoch,
                count,
                end: n,
            }),
            None => None,
        },
        (Command::Offset(which), None) => given(takes_turns(which), Change::Same),
        (
            Command::Follow { .. }
            | Command::Copy
            | Command::Trim
            | Command::Expire
            | Command::Fetch { .. },
            None,
        ) => Some(Change::Same),
        _ => None,
    }
}

/// A question for an offset again.
fn which_again(which: &Which) -> Which
    ensures { result ≡ which.now }
{
    *which
}

/// A command of several turns again.
fn again(command: &Command) -> Option<Command>
    ensures { IfSome result (λ copy. copy ≡ command.now) }
{
    match command {
        Command::Join => Some(Command::Join),
        Command::Follow { limit } => Some(Command::Follow { limit: *limit }),
        Command::Copy => Some(Command::Copy),
        Command::Trim => Some(Command::Trim),
        Command::Expire => Some(Command::Expire),
        Command::Fetch { offset, limit } => Some(Command::Fetch {
            offset: *offset,
            limit: *limit,
        }),
        Command::Offset(which) => Some(Command::Offset(which_again(which))),
        _ => None,
    }
}

/// What is recorded where an order's command begins with a change.
pub(crate) fn note(
    p: &State,
    x: &Broker,
    order: &Order,
    change: Change,
) -> Result<PlainSnapshot, AllocError>
    ensures { IfOk result (λ recorded. recorded ≡ recorded_of p.now order.now (begun_at x.now change)) }
{
    let Some(command) = again(&order.command) else {
        return Err(AllocError);
    };
    let log = Part::of(&x.log);
    let (role, last) = match change {
        Change::Cuts { epoch, count, .. } => {
            (
                Role::Joined(epoch),
                end_in(&log.first(count.min(log.len()))),
            )
        }
        _ => (x.role, end_in(&log)),
    };
    if last > u128::from(u64::MAX) {
        return Err(AllocError);
    }
    Ok(PlainSnapshot {
        order: Order {
            broker: order.broker,
            command,
        },
        stops: x.stops,
        role,
        end: last as u64,
        start: p.registry.start,
    })
}
