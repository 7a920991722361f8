//! When a command is refused: `specs/Refusals.antt` in code, test by test.

ghost use Rattle.std.specs.Prelude.{◌≡◌, ◌∷◌, [], None};
ghost use Rattle.log_terms.specs.Batch.{last_offset_delta_of};
ghost use Rattle.record_batch.specs.Check.{checked};
ghost use Rattle.registry.specs.Calls.{when as when_is};
ghost use Rattle.plain_log.specs.Orders.{IsBuildableAppend};
ghost use Rattle.plain_log.specs.State.{followed, joined, acking, leading};
ghost use Rattle.plain_log.specs.Refusals.{down as down_is, is_up as is_up_is, down_broker as down_broker_is};
ghost use Rattle.plain_log.specs.Refusals.{not_leader as not_leader_is, last_offset as last_offset_is};
ghost use Rattle.plain_log.specs.Refusals.{refused as refused_is, last_epoch as last_epoch_is};
ghost use Rattle.plain_log.specs.Refusals.{not_in_sync as not_in_sync_is, is_leader as is_leader_is};
ghost use Rattle.plain_log.specs.Refusals.{behind_start as behind_start_is, behind as behind_is, known as known_is};
ghost use Rattle.plain_log.specs.Refusals.{not_follower as not_follower_is, not_joined as not_joined_is};
ghost use Rattle.plain_log.specs.Refusals.{stale as stale_is, no_leader as no_leader_is, level as level_is};
ghost use Rattle.plain_log.specs.Refusals.{not_above as not_above_is, above_mark as above_mark_is};
ghost use Rattle.plain_log.specs.Refusals.{out_of_range as out_of_range_is, empty as empty_is, runs_on as runs_on_is};
ghost use Rattle.plain_log.specs.Refusals.{has_stopped as has_stopped_is, other_role as other_role_is};
ghost use Rattle.plain_log.specs.Refusals.{lost_lead as lost_lead_is, first_of, refusal as refusal_is};

use crate::answer::Answer;
use crate::bytes_of::last_delta;
use crate::command::Command;
use crate::facts::{Facts, Since};
use crate::roles::{
    acking_in, epoch_of, followed_in, is_leader_in, is_role, joined_in, leading_in,
};
use record_batch::{Checked, built_head_tells, check_known};
use registry::Registry;
use tier_base::OFFSET_LIMIT;

/// The greatest leader epoch: Kafka's is a signed number of 32 bits.
const LAST_EPOCH: u32 = 2_147_483_647;

/// The answer where a test fails.
fn when(fails: bool, why: Answer) -> Option<Answer>
    ensures { result ≡ when_is fails why }
{
    if fails { Some(why) } else { None }
}

fn down(facts: &Facts) -> Option<Answer>
    ensures { result ≡ down_is facts.now }
{
    when(!facts.up, Answer::Down)
}

fn is_up(facts: &Facts) -> Option<Answer>
    ensures { result ≡ is_up_is facts.now }
{
    when(facts.up, Answer::IsUp)
}

fn down_broker(facts: &Facts) -> Option<Answer>
    ensures { result ≡ down_broker_is facts.now }
{
    when(!facts.up, Answer::DownBroker)
}

fn not_leader(facts: &Facts) -> Option<Answer>
    ensures { result ≡ not_leader_is facts.now }
{
    when(!crate::roles::is_leader(facts.role), Answer::NotLeader)
}

fn last_offset(facts: &Facts, delta: u64) -> Option<Answer>
    ensures { result ≡ last_offset_is facts.now delta }
{
    let last = u128::from(facts.end) + u128::from(delta);
    when(last >= u128::from(OFFSET_LIMIT), Answer::LastOffset)
}

fn refused(bytes: &[u8], check: Option<&Checked>) -> Option<Answer>
    ensures { result ≡ refused_is (checked bytes.now) }
{
    match check_known(bytes, check) {
        Ok(_) => None,
        Err(why) => Some(Answer::Refused(why)),
    }
}

fn last_epoch(registry: &Registry) -> Option<Answer>
    ensures { result ≡ last_epoch_is registry.now }
{
    when(registry.epoch >= LAST_EPOCH, Answer::LastEpoch)
}

fn not_in_sync(registry: &Registry, facts: &Facts) -> Option<Answer>
    ensures { result ≡ not_in_sync_is registry.now facts.now }
{
    let in_sync = match registry.replicas.as_slice().get(facts.broker.0 as usize) {
        Some(replica) => replica.in_sync,
        None => false,
    };
    when(!in_sync, Answer::NotInSync)
}

fn is_leader(registry: &Registry, facts: &Facts) -> Option<Answer>
    ensures { result ≡ is_leader_is registry.now facts.now }
{
    when(registry.leader.0 == facts.broker.0, Answer::IsLeader)
}

fn behind_start(registry: &Registry, facts: &Facts) -> Option<Answer>
    ensures { result ≡ behind_start_is registry.now facts.now }
{
    when(
        facts.flushed_end < registry.start,
        Answer::BehindStart(facts.flushed_end, registry.start),
    )
}

fn behind(registry: &Registry, facts: &Facts) -> Option<Answer>
    ensures { result ≡ behind_is registry.now facts.now }
{
    let replica = registry.replicas.as_slice().get(facts.broker.0 as usize)?;
    when(
        replica.acked < registry.mark,
        Answer::Behind(replica.acked, registry.mark),
    )
}

fn known(registry: &Registry, facts: &Facts) -> Option<Answer>
    ensures { result ≡ known_is registry.now facts.now }
{
    let known = match epoch_of(facts.role) {
        Some(epoch) => epoch == registry.epoch,
        None => false,
    };
    when(known, Answer::Known)
}

fn not_follower(facts: &Facts) -> Option<Answer>
    ensures { result ≡ not_follower_is facts.now }
{
    when(followed_in(facts.role).is_none(), Answer::NotFollower)
}

fn not_joined(epoch: Option<u32>) -> Option<Answer>
    ensures { result ≡ not_joined_is epoch }
{
    when(epoch.is_none(), Answer::NotJoined)
}

fn stale(registry: &Registry, epoch: Option<u32>) -> Option<Answer>
    ensures { result ≡ stale_is registry.now epoch }
{
    let epoch = epoch?;
    when(
        epoch < registry.epoch,
        Answer::StaleEpoch(u64::from(registry.epoch)),
    )
}

fn no_leader(registry: &Registry, leader: Option<Facts>) -> Option<Answer>
    ensures { result ≡ no_leader_is registry.now leader }
{
    let leads = match leader {
        Some(leader) => leader.up && is_leader_in(registry.epoch, leader.role),
        None => false,
    };
    when(!leads, Answer::NoLeader)
}

fn level(leader: Option<Facts>, facts: &Facts) -> Option<Answer>
    ensures { result ≡ level_is leader facts.now }
{
    let leader = leader?;
    when(leader.end <= facts.end, Answer::Level)
}

fn not_above(registry: &Registry, wanted: u64) -> Option<Answer>
    ensures { result ≡ not_above_is registry.now wanted }
{
    when(wanted <= registry.start, Answer::NotAbove(registry.start))
}

fn above_mark(registry: &Registry, wanted: u64) -> Option<Answer>
    ensures { result ≡ above_mark_is registry.now wanted }
{
    when(registry.mark < wanted, Answer::AboveMark(registry.mark))
}

fn out_of_range(registry: &Registry, facts: &Facts, offset: u64) -> Option<Answer>
    ensures { result ≡ out_of_range_is registry.now facts.now offset }
{
    let within = registry.start <= offset && offset <= facts.end;
    when(!within, Answer::OutOfRange(registry.start, facts.end))
}

fn empty(facts: &Facts, offset: u64) -> Option<Answer>
    ensures { result ≡ empty_is facts.now offset }
{
    when(facts.known_high_watermark <= offset, Answer::Empty)
}

/// Whether the broker is up, and hasn't stopped since the command began.
fn runs_on(facts: &Facts, since: &Since) -> bool
    ensures { result ≡ runs_on_is facts.now since.now }
{
    facts.up && since.stops == facts.stops
}

fn has_stopped(facts: &Facts, since: &Since) -> Option<Answer>
    ensures { result ≡ has_stopped_is facts.now since.now }
{
    when(!runs_on(facts, since), Answer::Stopped)
}

fn other_role(facts: &Facts, since: &Since) -> Option<Answer>
    ensures { result ≡ other_role_is facts.now since.now }
{
    when(!is_role(since.role, facts.role), Answer::NotLeader)
}

fn lost_lead(facts: &Facts, since: &Since) -> Option<Answer>
    ensures { result ≡ lost_lead_is facts.now since.now }
{
    let leads = runs_on(facts, since) && is_role(since.role, facts.role);
    when(!leads, Answer::LostLead)
}

/// Whether the broker is down or doesn't lead.
fn not_led(facts: &Facts) -> Option<Answer>
    ensures { result ≡ first_of (down_is facts.now ∷ not_leader_is facts.now ∷ []) }
{
    down(facts).or(not_leader(facts))
}

/// The tests of an append: of a batch whose last offset is so far after its first.
fn append(facts: &Facts, delta: u64) -> Option<Answer>
    ensures { result ≡ first_of (down_is facts.now ∷ not_leader_is facts.now ∷ last_offset_is facts.now delta ∷ []) }
{
    not_led(facts).or(last_offset(facts, delta))
}

/// Those of an append of bytes, which are checked only where the broker leads.
fn raw(facts: &Facts, bytes: &[u8], check: Option<&Checked>) -> Option<Answer>
    ensures { result ≡ first_of (down_is facts.now ∷ not_leader_is facts.now ∷ refused_is (checked bytes.now)
        ∷ last_offset_is facts.now (last_offset_delta_of bytes.now) ∷ []) }
{
    match not_led(facts) {
        Some(why) => Some(why),
        None => refused(bytes, check).or(last_offset(facts, u64::from(last_delta(bytes)))),
    }
}

/// Those of a first turn of a join, or of a follow where it has joined the leader.
#[tactic(auto, using(crate::proofs::Tests::first_four))]
fn joins(registry: &Registry, leader: Option<Facts>, facts: &Facts) -> Option<Answer>
    ensures { result ≡ first_of (down_is facts.now ∷ not_follower_is facts.now ∷ stale_is registry.now
        (followed facts.now.role)
        ∷ no_leader_is registry.now leader ∷ []) }
{
    down(facts)
        .or(not_follower(facts))
        .or(stale(registry, followed_in(facts.role)))
        .or(no_leader(registry, leader))
}

#[tactic(auto, using(crate::proofs::Tests::first_five))]
fn follows(registry: &Registry, leader: Option<Facts>, facts: &Facts) -> Option<Answer>
    ensures { result ≡ first_of (down_is facts.now ∷ not_joined_is (joined facts.now.role) ∷ stale_is registry.now
        (joined facts.now.role)
        ∷ no_leader_is registry.now leader ∷ level_is
        leader facts.now ∷ []) }
{
    let epoch = joined_in(facts.role);
    down(facts)
        .or(not_joined(epoch))
        .or(stale(registry, epoch))
        .or(no_leader(registry, leader))
        .or(level(leader, facts))
}

/// Those of a later turn of either.
fn follows_on(registry: &Registry, facts: &Facts, since: &Since) -> Option<Answer>
    ensures { result ≡ first_of (has_stopped_is facts.now since.now ∷ stale_is registry.now
        (followed since.now.role) ∷ []) }
{
    has_stopped(facts, since).or(stale(registry, followed_in(since.role)))
}

/// Those of an acknowledgement.
fn acknowledges(registry: &Registry, facts: &Facts) -> Option<Answer>
    ensures { result ≡ first_of (down_is facts.now ∷ not_joined_is (acking facts.now.role) ∷ stale_is registry.now
        (acking facts.now.role) ∷ []) }
{
    let epoch = acking_in(facts.role);
    down(facts).or(not_joined(epoch)).or(stale(registry, epoch))
}

/// Those of a raise of the log start offset.
#[tactic(auto, using(crate::proofs::Tests::first_five))]
fn raises(registry: &Registry, facts: &Facts, wanted: u64) -> Option<Answer>
    ensures { result ≡ first_of (down_is facts.now ∷ not_leader_is facts.now ∷ stale_is registry.now
        (leading facts.now.role)
        ∷ not_above_is registry.now wanted ∷ above_mark_is registry.now wanted ∷ []) }
{
    down(facts)
        .or(not_leader(facts))
        .or(stale(registry, leading_in(facts.role)))
        .or(not_above(registry, wanted))
        .or(above_mark(registry, wanted))
}

/// Those of a fetch.
#[tactic(auto, using(crate::proofs::Tests::first_four))]
fn fetches(registry: &Registry, facts: &Facts, offset: u64) -> Option<Answer>
    ensures { result ≡ first_of (down_is facts.now ∷ not_leader_is facts.now ∷ out_of_range_is registry.now facts.now
        offset
        ∷ empty_is facts.now offset ∷ []) }
{
    down(facts)
        .or(not_leader(facts))
        .or(out_of_range(registry, facts, offset))
        .or(empty(facts, offset))
}

/// Those of its later turn.
#[tactic(auto, using(crate::proofs::Tests::first_four))]
fn fetches_on(registry: &Registry, facts: &Facts, since: &Since, offset: u64) -> Option<Answer>
    ensures { result ≡ first_of (has_stopped_is facts.now since.now ∷ other_role_is facts.now since.now
        ∷ out_of_range_is registry.now facts.now offset ∷ empty_is facts.now offset ∷ []) }
{
    has_stopped(facts, since)
        .or(other_role(facts, since))
        .or(out_of_range(registry, facts, offset))
        .or(empty(facts, offset))
}

/// Why a first turn is refused, if it is.
fn first_refusal(
    registry: &Registry,
    leader: Option<Facts>,
    facts: &Facts,
    command: &Command,
    check: Option<&Checked>,
) -> Option<Answer>
    requires { IsBuildableAppend command.now }
    ensures { result ≡ refusal_is registry.now leader facts.now None command.now }
{
    built_head_tells();
    match command {
        Command::Append(recs) => append(facts, recs.len() as u64 - 1),
        Command::Raw(bytes) => raw(facts, bytes.as_slice(), check),
        Command::Flush | Command::Roll | Command::Trim | Command::Stop => down(facts),
        Command::Elect => last_epoch(registry)
            .or(not_in_sync(registry, facts))
            .or(down_broker(facts)),
        Command::Unclean => last_epoch(registry)
            .or(down_broker(facts))
            .or(behind_start(registry, facts)),
        Command::Learn => down(facts).or(known(registry, facts)),
        Command::Join => joins(registry, leader, facts),
        Command::Follow { .. } => follows(registry, leader, facts),
        Command::Ack => acknowledges(registry, facts),
        Command::Shrink => not_in_sync(registry, facts).or(is_leader(registry, facts)),
        Command::Expand => down_broker(facts).or(behind(registry, facts)),
        Command::Copy | Command::Expire | Command::Offset(_) => not_led(facts),
        Command::Raise { start } => raises(registry, facts, *start),
        Command::Up => is_up(facts),
        Command::Fetch { offset, .. } => fetches(registry, facts, *offset),
        Command::Clock { .. } | Command::Pack(_) | Command::Copying(_) => None,
    }
}

/// Why a command is refused, if it is: the answer of its first test that fails. A later turn is given what was
/// recorded where the command began. What is known of a check is used where it is of the command's bytes.
pub fn refusal(
    registry: &Registry,
    leader: Option<Facts>,
    facts: &Facts,
    since: Option<Since>,
    command: &Command,
    check: Option<&Checked>,
) -> Option<Answer>
    requires { IsBuildableAppend command.now }
    ensures { result ≡ refusal_is registry.now leader facts.now
        since command.now }
{
    let Some(since) = since else {
        return first_refusal(registry, leader, facts, command, check);
    };
    match command {
        Command::Join | Command::Follow { .. } => follows_on(registry, facts, &since),
        Command::Copy | Command::Expire => lost_lead(facts, &since),
        Command::Trim => has_stopped(facts, &since),
        Command::Fetch { offset, .. } => fetches_on(registry, facts, &since, *offset),
        Command::Offset(_) => has_stopped(facts, &since).or(other_role(facts, &since)),
        _ => first_refusal(registry, leader, facts, command, check),
    }
}
