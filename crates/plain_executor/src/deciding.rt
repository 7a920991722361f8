//! What an answer changes: the rows of all commands.

ghost use Rattle.std.specs.Prelude.{◌≡◌, ◌<◌, ◌^◌, Some, None, slice_get, option_map};
ghost use Rattle.std.specs.Option.{option_copied};
ghost use Rattle.plain_log.specs.Orders.{IsBuildableAppend};
ghost use Rattle.plain_log.specs.Rows.{row, effect as effect_of};
ghost use Rattle.plain_log.specs.Safe.{PlainSafe};
ghost use Rattle.plain_executor.specs.Change.{changed};

use crate::change::{Change, given};
use crate::refusals::{refused, refuses};
use crate::{elections, followers, log_rows, reads, replicas, tiers};
use plain_log::{Answer, Broker, Command, PlainSnapshot, Replica, State, last_delta};
use record_batch::built_head_tells;

/// What an answer to a command of a broker changes, or none where the answer isn't allowed.
pub(crate) fn decide(
    p: &State,
    b: usize,
    x: &Broker,
    s: &Replica,
    recorded: Option<&PlainSnapshot>,
    command: &Command,
    answer: &Answer,
) -> Option<Change>
    requires safe { PlainSafe p.now }
    requires broker { slice_get p.now.brokers b ≡ Some x.now }
    requires replica { slice_get p.now.registry.replicas b ≡ Some s.now }
    requires small { b < 2 ^ 16 }
    requires fit { IsBuildableAppend command.now }
    ensures { row p.now b x.now s.now (option_copied recorded.entry) command.now answer.now
        ≡ option_map (changed p.now b x.now s.now command.now) result }
{
    match refused(p, b, x, recorded, command) {
        Some(why) => refuses(answer, &why),
        None => effect(p, b, x, s, recorded, command, answer),
    }
}

/// What an answer changes to a command that isn't refused.
fn effect(
    p: &State,
    b: usize,
    x: &Broker,
    s: &Replica,
    recorded: Option<&PlainSnapshot>,
    command: &Command,
    answer: &Answer,
) -> Option<Change>
    requires safe { PlainSafe p.now }
    requires broker { slice_get p.now.brokers b ≡ Some x.now }
    requires replica { slice_get p.now.registry.replicas b ≡ Some s.now }
    requires fit { IsBuildableAppend command.now }
    ensures { effect_of p.now b x.now s.now (option_copied recorded.entry) command.now answer.now
        ≡ option_map (changed p.now b x.now s.now command.now) result }
{
    built_head_tells();
    match command {
        Command::Append(recs) => log_rows::append(x, recs.len() as u64 - 1, answer),
        Command::Raw(bytes) => {
            log_rows::append(x, u64::from(last_delta(bytes.as_slice())), answer)
        }
        Command::Flush => log_rows::flush(x, answer),
        Command::Roll => log_rows::roll(x, answer),
        Command::Elect => elections::elect(p, answer),
        Command::Unclean => elections::unclean(p, x, answer),
        Command::Learn => elections::learn(p, b, answer),
        Command::Join => followers::join(p, b, x, recorded, answer),
        Command::Follow { limit } => followers::follow(p, x, *limit, recorded, answer),
        Command::Ack => replicas::ack(p, b, x, answer),
        Command::Shrink => replicas::shrink(answer),
        Command::Expand => replicas::expand(answer),
        Command::Stop => log_rows::stop(answer),
        Command::Up => log_rows::up(x, answer),
        Command::Trim => tiers::trim(x, recorded, answer),
        Command::Expire => tiers::expire(p, recorded, answer),
        Command::Raise { start } => tiers::raise(*start, answer),
        Command::Copy => given(tiers::copy(recorded, answer), Change::Same),
        Command::Fetch { offset, limit } => given(
            reads::fetch(x, *offset, *limit, recorded, answer),
            Change::Same,
        ),
        Command::Offset(which) => given(reads::offset(p, x, which, recorded, answer), Change::Same),
        Command::Clock { .. } | Command::Pack(_) | Command::Copying(_) => {
            given(matches!(answer, Answer::Ok), Change::Same)
        }
    }
}
