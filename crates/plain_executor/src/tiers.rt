//! The rows of commands to the tiers, which aren't refused: the plain log sees the log start offset alone.

ghost use Rattle.std.specs.Prelude.{◌≡◌, ℕ, option_map, Some};
ghost use Rattle.std.specs.Option.{option_copied};
ghost use Rattle.registry.specs.Calls.{when};
ghost use Rattle.registry.specs.declared.registry.Replica.{Replica};
ghost use Rattle.plain_log.specs.declared.command.Command.{Command};
ghost use Rattle.plain_log.specs.declared.state.Broker.{Broker as BrokerIs};
ghost use Rattle.plain_log.specs.declared.state.State.{State as StateIs};
ghost use Rattle.plain_log.specs.RowsOfTiers.{copy_row, trim_row, is_behind, expire_row, raise_row};
ghost use Rattle.plain_executor.specs.Change.{changed};

use crate::change::{Change, given};
use plain_log::{Answer, Broker, PlainSnapshot, State, epoch_of};

/// Whether a copy gets this answer.
pub(crate) fn copy(recorded: Option<&PlainSnapshot>, answer: &Answer) -> bool
    ensures { (p : StateIs) → copy_row p (option_copied recorded.entry) answer.now ≡ when result p }
{
    match answer {
        Answer::CopyOff => recorded.is_none(),
        Answer::MetaFault => true,
        Answer::Level
        | Answer::DiskFault
        | Answer::Damaged(..)
        | Answer::StoreFault
        | Answer::Overtaken(_)
        | Answer::CopiedSegment(..) => recorded.is_some(),
        _ => false,
    }
}

/// What a trim that gets this answer changes.
pub(crate) fn trim(x: &Broker, recorded: Option<&PlainSnapshot>, answer: &Answer) -> Option<Change>
    ensures { (p : StateIs) (b : ℕ) (s : Replica) (command : Command)
        → trim_row p b x.now (option_copied recorded.entry) answer.now
        ≡ option_map (changed p b x.now s command) result }
{
    match answer {
        Answer::MetaFault => given(recorded.is_none(), Change::Same),
        Answer::Kept | Answer::Dropped(..) => given(recorded.is_some(), Change::Same),
        Answer::DiskFault => given(recorded.is_some(), Change::Breaks(x.flushed_end)),
        _ => None,
    }
}

/// Whether the epoch in which the command began is below the registry's.
fn is_late(p: &State, recorded: &PlainSnapshot) -> bool
    ensures { result ≡ is_behind p.now recorded.now }
{
    match epoch_of(recorded.role) {
        Some(epoch) => epoch < p.registry.epoch,
        None => false,
    }
}

/// What an expiry that gets this answer changes.
pub(crate) fn expire(p: &State, recorded: Option<&PlainSnapshot>, answer: &Answer) -> Option<Change>
    ensures { (b : ℕ) (x : BrokerIs) (s : Replica) (command : Command)
        → expire_row p.now (option_copied recorded.entry) answer.now
        ≡ option_map (changed p.now b x s command) result }
{
    match recorded {
        None => given(matches!(answer, Answer::MetaFault), Change::Same),
        Some(recorded) => expire_on(p, recorded, answer),
    }
}

/// What an expiry that has begun changes, where it gets this answer.
fn expire_on(p: &State, recorded: &PlainSnapshot, answer: &Answer) -> Option<Change>
    ensures { (b : ℕ) (x : BrokerIs) (s : Replica) (command : Command)
        → expire_row p.now (Some recorded.now) answer.now ≡ option_map (changed p.now b x s command) result }
{
    let r = &p.registry;
    match answer {
        Answer::Kept | Answer::MetaFault | Answer::StoreFault | Answer::Deleted(_) => {
            Some(Change::Same)
        }
        Answer::StaleEpoch(n) => given(
            is_late(p, recorded) && *n == u64::from(r.epoch),
            Change::Same,
        ),
        Answer::Raised(start) => given(
            !is_late(p, recorded) && r.start < *start && *start <= r.mark,
            Change::Starts(*start),
        ),
        _ => None,
    }
}

/// What a raise that gets this answer changes.
pub(crate) fn raise(wanted: u64, answer: &Answer) -> Option<Change>
    ensures { (p : StateIs) (b : ℕ) (x : BrokerIs) (s : Replica) (command : Command)
        → raise_row p wanted answer.now ≡ option_map (changed p b x s command) result }
{
    match answer {
        Answer::OkAt(start) => given(*start == wanted, Change::Starts(wanted)),
        _ => None,
    }
}
