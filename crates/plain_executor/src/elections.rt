//! The rows of elections, and of how a broker learns of them, which aren't refused.

ghost use Rattle.std.specs.Prelude.{◌≡◌, ℕ, option_map};
ghost use Rattle.registry.specs.declared.registry.Replica.{Replica};
ghost use Rattle.plain_log.specs.declared.command.Command.{Command};
ghost use Rattle.plain_log.specs.declared.state.Broker.{Broker as BrokerIs};
ghost use Rattle.log_terms.specs.Log.{IsConsecutive};
ghost use Rattle.plain_log.specs.State.{is_in};
ghost use Rattle.plain_log.specs.RowsOfElections.{elect_row, unclean_row, learn_row};
ghost use Rattle.plain_executor.specs.Change.{changed};

use crate::change::{Change, given};
use crate::ends::count_up_to;
use crate::part::Part;
use crate::paths::has_path;
use plain_log::{Answer, Broker, State};

/// What an election changes.
pub(crate) fn elect(p: &State, answer: &Answer) -> Option<Change>
    ensures { (b : ℕ) (x : BrokerIs) (s : Replica) (command : Command)
        → elect_row p.now b answer.now ≡ option_map (changed p.now b x s command) result }
{
    match answer {
        Answer::OkAt(n) => given(*n == u64::from(p.registry.epoch) + 1, Change::Elects),
        _ => None,
    }
}

/// What an unclean election changes.
pub(crate) fn unclean(p: &State, x: &Broker, answer: &Answer) -> Option<Change>
    requires { IsConsecutive 0 x.now.log }
    ensures { (b : ℕ) (s : Replica) (command : Command)
        → unclean_row p.now b x.now answer.now ≡ option_map (changed p.now b x.now s command) result }
{
    match answer {
        Answer::OkAt(n) => given(
            *n == u64::from(p.registry.epoch) + 1,
            Change::Restarts {
                count: count_up_to(x.flushed_end, &Part::of(&x.log)),
            },
        ),
        _ => None,
    }
}

/// Whether a number is one of these.
fn is_among(n: u32, ms: &[u32]) -> bool
    ensures { result ≡ is_in n ms.now }
{
    for m in ms {
        if *m == n {
            return true;
        }
    }
    false
}

/// What a broker changes that learns who leads.
pub(crate) fn learn(p: &State, b: usize, answer: &Answer) -> Option<Change>
    ensures { (x : BrokerIs) (s : Replica) (command : Command)
        → learn_row p.now b x answer.now ≡ option_map (changed p.now b x s command) result }
{
    let epoch = p.registry.epoch;
    let elected = p.registry.leader.0 as usize == b;
    let taken = has_path(p, epoch);
    match answer {
        Answer::Follows(n) => given(*n == u64::from(epoch) && !elected, Change::Follows(epoch)),
        Answer::NeedsElection(n) => given(
            *n == u64::from(epoch) && elected && (taken || is_among(epoch, p.broken.as_slice())),
            Change::Same,
        ),
        Answer::DiskFault => given(elected && !taken, Change::BreaksLead),
        Answer::Leads(n) => given(
            *n == u64::from(epoch) && elected && !taken,
            Change::Leads(epoch),
        ),
        _ => None,
    }
}
