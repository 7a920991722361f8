//! The rows of acknowledgements, and of the replicas in sync.

ghost use Rattle.std.specs.Prelude.{◌≡◌, ◌<◌, ℕ, List, length, min, Some};
ghost use Rattle.std.specs.Prelude.{slice_get, slice_set, option_map, unwrap_or, if◌then◌else◌};
ghost use Rattle.log_terms.specs.Log.{IsConsecutive};
ghost use Rattle.registry.specs.Replicas.{least_acked};
ghost use Rattle.registry.specs.Registry.{with_ack};
ghost use Rattle.registry.specs.declared.registry.Replica.{Replica as ReplicaIs};
ghost use Rattle.plain_log.specs.declared.command.Command.{Command};
ghost use Rattle.plain_log.specs.declared.state.Broker.{Broker as BrokerIs};
ghost use Rattle.plain_log.specs.declared.state.State.{State as StateIs};
ghost use Rattle.plain_log.specs.State.{path_of};
ghost use Rattle.plain_log.specs.RowsOfReplicas.{ack_row, shrink_row, expand_row};
ghost use Rattle.plain_executor.specs.Change.{changed};

use crate::change::{Change, given};
use crate::ends::count_up_to;
use crate::part::Part;
use crate::paths::path;
use plain_log::{Answer, Broker, Replica, State};

/// The least acknowledged end of the replicas in sync, where this one has acknowledged so much.
fn least_with(replicas: &[Replica], b: usize, acked: u64) -> Option<u64>
    requires { b < length replicas.now }
    ensures { (s : ReplicaIs) → slice_get replicas.now b ≡ Some s
        → result ≡ least_acked (slice_set replicas.now b (record s { acked = acked })) }
{
    let mut least: Option<u64> = None;
    let mut at = replicas.len();
    while at > 0 {
        at -= 1;
        let replica = replicas[at];
        least = with_end(replica.in_sync, end_in(replica, at == b, acked), least);
    }
    least
}

/// What a replica has acknowledged, where it is the one that acknowledges, or another.
fn end_in(replica: Replica, same: bool, acked: u64) -> u64
    ensures { result ≡ (if same then acked else replica.acked) }
{
    if same { acked } else { replica.acked }
}

/// The least with one replica more.
fn with_end(in_sync: bool, end: u64, least: Option<u64>) -> Option<u64>
    ensures { result ≡ (if in_sync then Some (unwrap_or (option_map (min end) least) end) else least) }
{
    if !in_sync {
        return least;
    }
    match least {
        Some(other) => Some(end.min(other)),
        None => Some(end),
    }
}

/// The high watermark where the broker acknowledges its flushed end.
pub(crate) fn mark_with(p: &State, b: usize, flushed_end: u64) -> u64
    requires { b < length p.now.registry.replicas }
    ensures { (s : ReplicaIs) → slice_get p.now.registry.replicas b ≡ Some s
        → result ≡ (with_ack p.now.registry b s flushed_end).mark }
{
    let mark = p.registry.mark;
    match least_with(p.registry.replicas.as_slice(), b, flushed_end) {
        Some(least) => mark.max(least),
        None => mark,
    }
}

/// What an acknowledgement changes.
pub(crate) fn ack(p: &State, b: usize, x: &Broker, answer: &Answer) -> Option<Change>
    requires within { b < length p.now.registry.replicas }
    requires paths { (e : ℕ) (path : List (List ℕ)) → path_of p.now.paths e ≡ Some path → IsConsecutive 0 path }
    ensures { (s : ReplicaIs) (command : Command) → slice_get p.now.registry.replicas b ≡ Some s
        → ack_row p.now b x.now s answer.now ≡ option_map (changed p.now b x.now s command) result }
{
    match answer {
        Answer::OkAt(mark) => ack_at(p, b, x, *mark),
        _ => None,
    }
}

/// What an acknowledgement changes that is answered with this high watermark.
fn ack_at(p: &State, b: usize, x: &Broker, mark: u64) -> Option<Change>
    requires within { b < length p.now.registry.replicas }
    requires paths { (e : ℕ) (path : List (List ℕ)) → path_of p.now.paths e ≡ Some path → IsConsecutive 0 path }
    ensures { (s : ReplicaIs) (command : Command) → slice_get p.now.registry.replicas b ≡ Some s
        → ack_row p.now b x.now s (Answer.OkAt mark) ≡ option_map (changed p.now b x.now s command) result }
{
    let path = path(p.paths.as_slice(), p.registry.epoch)?;
    if mark == mark_with(p, b, x.flushed_end) {
        Some(Change::Acks {
            count: count_up_to(mark, &Part::of(path)),
        })
    } else {
        None
    }
}

/// What leaving the replicas in sync changes.
pub(crate) fn shrink(answer: &Answer) -> Option<Change>
    ensures { (p : StateIs) (b : ℕ) (x : BrokerIs) (s : ReplicaIs) (command : Command)
        → shrink_row p b s answer.now ≡ option_map (changed p b x s command) result }
{
    match answer {
        Answer::Ok => Some(Change::Shrinks),
        _ => None,
    }
}

/// What coming to the replicas in sync changes.
pub(crate) fn expand(answer: &Answer) -> Option<Change>
    ensures { (p : StateIs) (b : ℕ) (x : BrokerIs) (s : ReplicaIs) (command : Command)
        → expand_row p b s answer.now ≡ option_map (changed p b x s command) result }
{
    match answer {
        Answer::Ok => Some(Change::Expands),
        _ => None,
    }
}
