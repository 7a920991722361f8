//! The commands in progress: an actor's state for each list, in the order of the lists.

ghost use Rattle.std.specs.Prelude.{◌≡◌, ◌≢◌, ◌<◌, ◌-◌, ◌^◌, ◌++◌, ℕ, length, replicate, slice_get};
ghost use Rattle.std.specs.Prelude.{slice_set, Some, None, IfSome, IfOk, IsSomeAnd, []};
ghost use Rattle.plain_log.specs.declared.command.ActorList.{ActorList};
ghost use Rattle.partition_world.specs.Fresh.{fresh_actor_state};
ghost use Rattle.laws_partition.specs.Sound.{turns_left};
ghost use Rattle.laws_partition.specs.Turn.{event_of};
ghost use Rattle.laws_partition.specs.declared.start_snapshot.Turned.TheVariants as turned;
ghost use Rattle.plain_log.specs.declared.journal.Event.TheVariants as event;
ghost use Rattle.partition_world.specs.declared.actor_state.Outcome.TheVariants.{Chose, Goes, Seeks, Dates};
ghost use Rattle.partition_world.specs.declared.actor_state.Outcome.TheVariants.{ChoosesExpired, Deletes, Rebuilds};
ghost use Rattle.partition_world.specs.ActorStates.{actor_state_after, told_of, told_count, stepped_of};

use crate::actor_state::{ActorState, InProgress, Outcome};
use copy_task::{CopyStep, Copying};
use expiry_task::{DeletionStep as Deletion, ExpiredSegment};
use laws_partition::{StartSnapshot, Stepped};
use plain_log::{ActorList, Command, Event, Journal, JournalEntry};
use rebuild_task::RebuildStep as Rebuild;
use std::alloc::{AllocError, Global};
use tier_base::{ActorId, Items};
use tier_fetch::FetchStep as Search;
use time_find::SearchStep as Dating;

/// Finds the place of an actor's list.
pub(crate) fn place_of(lists: &[ActorList], actor: ActorId) -> Option<usize>
    ensures found { IfSome result (λ place. IsSomeAnd (slice_get lists.now place) (λ l. l.actor.0 ≡ actor.0)) }
    ensures none { result ≡ None → (i : ℕ) (l : ActorList) → slice_get lists.now i ≡ Some l → l.actor.0 ≢ actor.0 }
{
    for (i, list) in lists.iter().enumerate() {
        if list.actor.0 == actor.0 {
            return Some(i);
        }
    }
    None
}

/// Counts the entries of all lists: a beginning and an answer of each order.
pub(crate) fn count_entries(lists: &[ActorList]) -> usize
    requires few { turns_left lists.now [] < 2 ^ 64 }
    ensures { result ≡ turns_left lists.now [] }
{
    let mut count: usize = 0;
    for list in lists {
        count += 2 * list.orders.len();
    }
    count
}

/// Makes a desk where no list has begun.
pub(crate) fn fresh_desk(alloc: Global, count: usize) -> Result<Items<ActorState>, AllocError>
    ensures { IfOk result (λ desk. desk ≡ replicate count fresh_actor_state) }
{
    let mut desk = Items::new(alloc);
    for _i in 0..count {
        desk.push(ActorState {
            number: 0,
            in_progress: InProgress::Idle,
        })?;
    }
    Ok(desk)
}

/// Puts what is in progress at an actor's state.
pub(crate) fn set_actor_state(
    desk: &mut Items<ActorState>,
    place: usize,
    number: u32,
    in_progress: InProgress,
)
    requires { place < length desk.old }
    ensures { desk.new ≡ slice_set desk.old place (record { number = number; in_progress = in_progress }) }
{
    let _ = desk.replace(
        place,
        ActorState {
            number,
            in_progress,
        },
    );
}

/// Takes what is at an actor's state.
pub(crate) fn take_actor_state(desk: &mut Items<ActorState>, place: usize) -> ActorState
    requires { place < length desk.old }
    ensures actor_state { slice_get desk.old place ≡ Some result }
    ensures desk { desk.new ≡ slice_set desk.old place fresh_actor_state }
{
    let idle = ActorState {
        number: 0,
        in_progress: InProgress::Idle,
    };
    desk.replace(place, idle)
}

/// Makes a copy continue with the segment that it has chosen.
#[tactic(auto, using(crate::proofs::BrokerTierStates::set_twice))]
fn choose_at(desk: &mut Items<ActorState>, place: usize, copying: Copying)
    requires { place < length desk.old }
    ensures { IsSomeAnd (slice_get desk.old place) (λ actor_state. desk.new
        ≡ slice_set desk.old place (actor_state_after actor_state (Chose copying))) }
{
    let actor_state = take_actor_state(desk, place);
    let number = actor_state.number;
    let in_progress = actor_state.in_progress.chosen(copying);
    set_actor_state(desk, place, number, in_progress);
}

/// Makes a copy continue with a turn.
#[tactic(auto, using(crate::proofs::BrokerTierStates::set_twice))]
fn move_at(desk: &mut Items<ActorState>, place: usize, next: CopyStep)
    requires { place < length desk.old }
    ensures { IsSomeAnd (slice_get desk.old place)
        (λ actor_state. desk.new ≡ slice_set desk.old place (actor_state_after actor_state (Goes next))) }
{
    let actor_state = take_actor_state(desk, place);
    let number = actor_state.number;
    let in_progress = actor_state.in_progress.moved(next);
    set_actor_state(desk, place, number, in_progress);
}

/// Makes a fetch continue in the remote tier.
#[tactic(auto, using(crate::proofs::BrokerTierStates::set_twice))]
fn seek_at(desk: &mut Items<ActorState>, place: usize, next: Search)
    requires { place < length desk.old }
    ensures { IsSomeAnd (slice_get desk.old place)
        (λ actor_state. desk.new ≡ slice_set desk.old place (actor_state_after actor_state (Seeks next))) }
{
    let actor_state = take_actor_state(desk, place);
    let number = actor_state.number;
    let in_progress = actor_state.in_progress.sought(next);
    set_actor_state(desk, place, number, in_progress);
}

/// Lets a timestamp lookup continue.
#[tactic(auto, using(crate::proofs::BrokerTierStates::set_twice))]
fn date_at(desk: &mut Items<ActorState>, place: usize, cursor: u64, next: Dating)
    requires { place < length desk.old }
    ensures { IsSomeAnd (slice_get desk.old place) (λ actor_state. desk.new
        ≡ slice_set desk.old place (actor_state_after actor_state (Dates cursor next))) }
{
    let actor_state = take_actor_state(desk, place);
    let number = actor_state.number;
    let in_progress = actor_state.in_progress.dated(cursor, next);
    set_actor_state(desk, place, number, in_progress);
}

/// Makes an expiry continue with the remote segment that it has taken up.
#[tactic(auto, using(crate::proofs::BrokerTierStates::set_twice))]
fn doom_at(desk: &mut Items<ActorState>, place: usize, segment: ExpiredSegment)
    requires { place < length desk.old }
    ensures { IsSomeAnd (slice_get desk.old place) (λ actor_state. desk.new
        ≡ slice_set desk.old place (actor_state_after actor_state (ChoosesExpired segment))) }
{
    let actor_state = take_actor_state(desk, place);
    let number = actor_state.number;
    let in_progress = actor_state.in_progress.expired_segment(segment);
    set_actor_state(desk, place, number, in_progress);
}

/// Makes an expiry continue with a turn.
#[tactic(auto, using(crate::proofs::BrokerTierStates::set_twice))]
fn delete_at(desk: &mut Items<ActorState>, place: usize, next: Deletion)
    requires { place < length desk.old }
    ensures { IsSomeAnd (slice_get desk.old place)
        (λ actor_state. desk.new ≡ slice_set desk.old place (actor_state_after actor_state (Deletes next))) }
{
    let actor_state = take_actor_state(desk, place);
    let number = actor_state.number;
    let in_progress = actor_state.in_progress.deleting(next);
    set_actor_state(desk, place, number, in_progress);
}

/// Makes a join continue that restarts its log.
#[tactic(auto, using(crate::proofs::BrokerTierStates::set_twice))]
fn rebuild_at(desk: &mut Items<ActorState>, place: usize, next: Rebuild)
    requires { place < length desk.old }
    ensures { IsSomeAnd (slice_get desk.old place) (λ actor_state. desk.new
        ≡ slice_set desk.old place (actor_state_after actor_state (Rebuilds next))) }
{
    let actor_state = take_actor_state(desk, place);
    let number = actor_state.number;
    let in_progress = actor_state.in_progress.rebuilding(next);
    set_actor_state(desk, place, number, in_progress);
}

/// Where the log was cut, of a join that begins.
fn cut_of(command: &Command, snapshot: &StartSnapshot) -> Option<u64>
    ensures { event_of (turned.Begins snapshot.now) command.now ≡ event.Begins result }
{
    match command {
        Command::Join => Some(snapshot.end),
        _ => None,
    }
}

/// Enters what a turn came to into the journal and at the desk.
pub(crate) fn enter(
    journal: &mut Journal,
    desk: &mut Items<ActorState>,
    place: usize,
    actor: ActorId,
    command: &Command,
    outcome: Outcome,
) -> Stepped
    requires place { place < length desk.old }
    requires few { IsSomeAnd (slice_get desk.old place) (λ actor_state. actor_state.number < 4294967295) }
    requires room { 0 < journal.old.room }
    ensures desk { IsSomeAnd (slice_get desk.old place)
        (λ actor_state. desk.new ≡ slice_set desk.old place (actor_state_after actor_state outcome)) }
    ensures entered { IsSomeAnd (slice_get desk.old place) (λ actor_state.
        journal.new.items ≡ journal.old.items ++ told_of actor actor_state.number command.now outcome) }
    ensures room { journal.new.room ≡ journal.old.room - told_count outcome }
    ensures stepped { result ≡ stepped_of outcome }
{
    let number = desk.get(place).number;
    match outcome {
        Outcome::Answers(answer) => {
            journal.put(JournalEntry {
                actor,
                number,
                event: Event::Answers(answer),
            });
            set_actor_state(desk, place, number + 1, InProgress::Idle);
            Stepped::Done
        }
        Outcome::Begins(snapshot) => {
            let cut = cut_of(command, &snapshot);
            journal.put(JournalEntry {
                actor,
                number,
                event: Event::Begins { cut },
            });
            set_actor_state(desk, place, number, InProgress::Noted(snapshot));
            Stepped::Ran
        }
        Outcome::Chose(copying) => {
            choose_at(desk, place, copying);
            Stepped::Ran
        }
        Outcome::Goes(next) => {
            move_at(desk, place, next);
            Stepped::Ran
        }
        Outcome::Seeks(next) => {
            seek_at(desk, place, next);
            Stepped::Ran
        }
        Outcome::Dates(cursor, next) => {
            date_at(desk, place, cursor, next);
            Stepped::Ran
        }
        Outcome::ChoosesExpired(segment) => {
            doom_at(desk, place, segment);
            Stepped::Ran
        }
        Outcome::Deletes(next) => {
            delete_at(desk, place, next);
            Stepped::Ran
        }
        Outcome::Rebuilds(next) => {
            rebuild_at(desk, place, next);
            Stepped::Ran
        }
    }
}
