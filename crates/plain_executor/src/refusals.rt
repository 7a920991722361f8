//! Why commands are refused, over the state of the plain log, and the answers that refuse.

ghost use Rattle.std.specs.Prelude.{◌≡◌, ◌≤◌, ◌<◌, ◌^◌, Some, slice_get, option_map};
ghost use Rattle.std.specs.Option.{option_copied};
ghost use Rattle.log_terms.specs.Log.{end_of};
ghost use Rattle.registry.specs.Calls.{when};
ghost use Rattle.plain_log.specs.Causes.{same_cause};
ghost use Rattle.plain_log.specs.Orders.{IsBuildableAppend};
ghost use Rattle.plain_log.specs.State.{facts_of, leader_facts, since_of};
ghost use Rattle.plain_log.specs.Refusals.{same_refusal};
ghost use Rattle.plain_log.specs.RowsOfLog.{offset_limit};
ghost use Rattle.plain_log.specs.RowsOfFollowers.{leader_end};
ghost use Rattle.plain_log.specs.Rows.{refusal_at};
ghost use Rattle.plain_log.specs.Safe.{PlainSafe};
ghost use Rattle.plain_executor.specs.declared.change.Change.TheVariants.{Same};

use crate::change::{Change, given};
use crate::ends::end;
use plain_log::{Answer, Broker, Command, Facts, PlainSnapshot, Since, State, refusal};
use record_batch::BatchRefusal;
use tier_base::BrokerId;

/// What the tests of commands read of a broker.
fn facts(b: usize, x: &Broker) -> Facts
    requires small { b < 2 ^ 16 }
    requires within { end_of x.now.log ≤ offset_limit }
    ensures { result ≡ facts_of b x.now }
{
    Facts {
        broker: BrokerId(b as u16),
        up: x.up,
        stops: x.stops,
        role: x.role,
        end: if x.up { end(&x.log) as u64 } else { 0 },
        flushed_end: if x.up { x.flushed_end } else { 0 },
        known_high_watermark: x.known_high_watermark,
    }
}

/// What they read of the registry's leader.
fn leader(p: &State) -> Option<Facts>
    requires safe { PlainSafe p.now }
    ensures { result ≡ leader_facts p.now }
{
    let b = p.registry.leader.0 as usize;
    if b >= p.brokers.len() {
        return None;
    }
    Some(facts(b, p.brokers.get(b)))
}

/// Where the registry's leader's log ends.
pub(crate) fn leading_end(p: &State) -> u64
    requires safe { PlainSafe p.now }
    ensures { result ≡ leader_end p.now }
{
    match leader(p) {
        Some(leader) => leader.end,
        None => 0,
    }
}

/// What was recorded where a command began.
fn since(recorded: Option<&PlainSnapshot>) -> Option<Since>
    ensures { result ≡ option_map since_of (option_copied recorded.entry) }
{
    match recorded {
        Some(recorded) => Some(Since {
            stops: recorded.stops,
            role: recorded.role,
        }),
        None => None,
    }
}

/// Why a command of broker b is refused, if it is.
pub(crate) fn refused(
    p: &State,
    b: usize,
    x: &Broker,
    recorded: Option<&PlainSnapshot>,
    command: &Command,
) -> Option<Answer>
    requires safe { PlainSafe p.now }
    requires broker { slice_get p.now.brokers b ≡ Some x.now }
    requires small { b < 2 ^ 16 }
    requires fit { IsBuildableAppend command.now }
    ensures { result ≡ refusal_at p.now b x.now (option_copied recorded.entry) command.now }
{
    refusal(
        &p.registry,
        leader(p),
        &facts(b, x),
        since(recorded),
        command,
        None,
    )
}

/// What an answer changes to a command that is refused so: nothing, where it is the refusal.
pub(crate) fn refuses(answer: &Answer, why: &Answer) -> Option<Change>
    ensures { result ≡ when (same_refusal answer.now why.now) Same }
{
    given(is_same(answer, why), Change::Same)
}

/// Whether an answer is this refusal.
fn is_same(answer: &Answer, why: &Answer) -> bool
    ensures { result ≡ same_refusal answer.now why.now }
{
    match (answer, why) {
        (Answer::Down, Answer::Down)
        | (Answer::NotLeader, Answer::NotLeader)
        | (Answer::LastOffset, Answer::LastOffset)
        | (Answer::LastEpoch, Answer::LastEpoch)
        | (Answer::NotInSync, Answer::NotInSync)
        | (Answer::DownBroker, Answer::DownBroker)
        | (Answer::Known, Answer::Known)
        | (Answer::NotFollower, Answer::NotFollower)
        | (Answer::NoLeader, Answer::NoLeader)
        | (Answer::Stopped, Answer::Stopped)
        | (Answer::NotJoined, Answer::NotJoined)
        | (Answer::Level, Answer::Level)
        | (Answer::IsLeader, Answer::IsLeader)
        | (Answer::LostLead, Answer::LostLead)
        | (Answer::IsUp, Answer::IsUp)
        | (Answer::Empty, Answer::Empty) => true,
        (Answer::Refused(cause), Answer::Refused(why)) => is_cause(cause, why),
        (Answer::StaleEpoch(n), Answer::StaleEpoch(m))
        | (Answer::NotAbove(n), Answer::NotAbove(m))
        | (Answer::AboveMark(n), Answer::AboveMark(m)) => n == m,
        (Answer::BehindStart(end, start), Answer::BehindStart(n, m))
        | (Answer::Behind(end, start), Answer::Behind(n, m))
        | (Answer::OutOfRange(end, start), Answer::OutOfRange(n, m)) => end == n && start == m,
        _ => false,
    }
}

/// Whether two causes are one.
fn is_cause(cause: &BatchRefusal, why: &BatchRefusal) -> bool
    ensures { result ≡ same_cause cause.now why.now }
{
    match (cause, why) {
        (BatchRefusal::Short, BatchRefusal::Short) => true,
        (BatchRefusal::BadMagic, BatchRefusal::BadMagic) => true,
        (BatchRefusal::BadLength, BatchRefusal::BadLength) => true,
        (
            BatchRefusal::BadCrc { kept, computed },
            BatchRefusal::BadCrc {
                kept: held,
                computed: found,
            },
        ) => kept == held && computed == found,
        (BatchRefusal::Compressed, BatchRefusal::Compressed) => true,
        (BatchRefusal::Transactional, BatchRefusal::Transactional) => true,
        (BatchRefusal::Control, BatchRefusal::Control) => true,
        (BatchRefusal::BadRecords { at }, BatchRefusal::BadRecords { at: place }) => at == place,
        _ => false,
    }
}
