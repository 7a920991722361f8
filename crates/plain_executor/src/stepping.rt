//! A step of the state: an entry of a journal is tested, and what it changes is made.

ghost use Rattle.std.specs.Prelude.{◌≡◌, ◌<◌, ◌≤◌, ◌+◌, ℕ, vec_len, vec_capacity, length, Some};
ghost use Rattle.std.specs.Prelude.{slice_get, IfOk, OnOk, OnErr, is_some, option_map};
ghost use Rattle.std.specs.Option.{option_copied};
ghost use Rattle.registry.specs.Calls.{when};
ghost use Rattle.registry.specs.Registry.{epoch_limit};
ghost use Rattle.plain_log.specs.Safe.{PlainSafe};
ghost use Rattle.plain_log.specs.State.{actor_at, with_actor, put_actor as put_at};
ghost use Rattle.plain_log.specs.Step.{same_which, same_command, is_recorded, next_actor, event_step, step as step_of};
ghost use Rattle.plain_executor.specs.Fits.{IsBuildableAppend};
ghost use Rattle.plain_executor.specs.Stepped.{Stepped};
ghost use Rattle.plain_executor.specs.Change.{AtBroker, changed};
ghost use Rattle.plain_log.specs.declared.journal.Event.TheVariants as event;
ghost use Rattle.plain_log.specs.Rows.{row};

use crate::altering::alter;
use crate::beginning::{beginning, note};
use crate::change::Change;
use crate::deciding::decide;
use crate::refusals::refused;
use plain_log::{Actor, Answer, Command, Event, JournalEntry, Order, PlainSnapshot, State, Which};
use std::alloc::{AllocError, Global};
use std::mem;
use tier_base::{ActorId, Items};

/// Whether two questions for an offset are one.
fn is_which(which: &Which, other: &Which) -> bool
    ensures { result ≡ same_which which.now other.now }
{
    match (which, other) {
        (Which::Earliest, Which::Earliest) => true,
        (Which::Latest, Which::Latest) => true,
        (Which::EarliestLocal, Which::EarliestLocal) => true,
        (Which::LatestTiered, Which::LatestTiered) => true,
        (Which::At(ts), Which::At(other)) => ts == other,
        _ => false,
    }
}

/// Whether two commands of several turns are one.
fn is_command(command: &Command, other: &Command) -> bool
    ensures { result ≡ same_command command.now other.now }
{
    match (command, other) {
        (Command::Join, Command::Join) => true,
        (Command::Follow { limit }, Command::Follow { limit: most }) => limit == most,
        (Command::Copy, Command::Copy) => true,
        (Command::Trim, Command::Trim) => true,
        (Command::Expire, Command::Expire) => true,
        (
            Command::Fetch { offset, limit },
            Command::Fetch {
                offset: other,
                limit: most,
            },
        ) => offset == other && limit == most,
        (Command::Offset(which), Command::Offset(other)) => is_which(which, other),
        _ => false,
    }
}

/// What was recorded of the command that an actor has begun.
pub(crate) fn snapshot(p: &State, a: usize) -> Option<&PlainSnapshot>
    ensures { option_copied result ≡ (actor_at p.now.actors a).snapshot }
{
    if a >= p.actors.len() {
        return None;
    }
    p.actors.get(a).snapshot.as_ref()
}

/// Whether an actor has begun a command.
fn has_begun(p: &State, a: usize) -> bool
    ensures { result ≡ is_some (actor_at p.now.actors a).snapshot }
{
    snapshot(p, a).is_some()
}

/// The number of an actor's next command, or of the one that has begun.
pub(crate) fn number(p: &State, a: usize) -> u32
    ensures { result ≡ (actor_at p.now.actors a).number }
{
    if a >= p.actors.len() {
        return 0;
    }
    p.actors.get(a).number
}

/// Whether an order's command is the one that has begun, where one has.
fn is_of(recorded: Option<&PlainSnapshot>, order: &Order) -> bool
    ensures { result ≡ is_recorded (option_copied recorded.entry) order.now }
{
    match recorded {
        None => true,
        Some(recorded) => {
            recorded.order.broker.0 == order.broker.0
                && is_command(&recorded.order.command, &order.command)
        }
    }
}

/// Whether an entry is of its actor's next command, or of the one that has begun.
pub(crate) fn is_next(p: &State, order: &Order, entry: &JournalEntry) -> bool
    ensures { next_actor p.now order.now entry.now ≡ when result (actor_at p.now.actors entry.now.actor.0) }
{
    let a = entry.actor.0 as usize;
    entry.number == number(p, a) && is_of(snapshot(p, a), order)
}

/// Puts an actor in its place, with idle ones before it where there are none, in the room that was made.
fn put_actor(actors: &mut Vec<Actor>, a: usize, actor: Actor)
    requires { vec_len actors.old + a < vec_capacity actors.old }
    ensures { actors.new.items ≡ put_at actors.old.items a actor }
{
    if a < actors.len() {
        actors[a] = actor;
        return;
    }
    while actors.len() < a {
        actors.push_reserved(Actor {
            number: 0,
            snapshot: None,
        });
    }
    actors.push_reserved(actor);
}

/// Makes a change by an answer to an order, or by its beginning, and puts its actor in its place.
fn commit(
    p: &mut State,
    alloc: Global,
    order: &Order,
    id: ActorId,
    actor: Actor,
    change: Change,
) -> Result<(), AllocError>
    requires broker { order.now.broker.0 < length p.old.brokers }
    requires replica { order.now.broker.0 < length p.old.registry.replicas }
    requires fit { IsBuildableAppend order.now.command }
    requires epoch { p.old.registry.epoch ≤ epoch_limit }
    ensures ok { OnOk result (AtBroker p.old order.now.broker.0 (λ x s.
        p.new ≡ with_actor id.0 actor (changed p.old order.now.broker.0 x s order.now.command change))) }
    ensures err { OnErr result (p.new ≡ p.old) }
{
    let mut actors = mem::replace(&mut p.actors, Items::new(alloc)).into_vec();
    if actors.reserve(id.0 as usize + 1).is_err() {
        p.actors = Items::from_vec(actors);
        return Err(AllocError);
    }
    match alter(p, alloc, order, change) {
        Ok(()) => {
            put_actor(&mut actors, id.0 as usize, actor);
            p.actors = Items::from_vec(actors);
            Ok(())
        }
        Err(_) => {
            p.actors = Items::from_vec(actors);
            Err(AllocError)
        }
    }
}

/// Takes an answer to an order, where it is allowed.
fn answer(
    p: &mut State,
    alloc: Global,
    order: &Order,
    id: ActorId,
    answer: &Answer,
) -> Result<bool, AllocError>
    requires safe { PlainSafe p.old }
    requires fit { IsBuildableAppend order.now.command }
    requires broker { order.now.broker.0 < length p.old.brokers }
    requires replica { order.now.broker.0 < length p.old.registry.replicas }
    ensures ok { IfOk result (λ taken. AtBroker p.old order.now.broker.0 (λ x s.
        Stepped p.old p.new (event_step p.old id.0 (actor_at p.old.actors id.0) order.now x s
        (event.Answers answer.now)) taken)) }
    ensures err { OnErr result (p.new ≡ p.old) }
{
    let Some(change) = decided(p, order, id, answer) else {
        return Ok(false);
    };
    // The model's numbers of commands have no bound, the machine's have 32 bits.
    let Some(number) = number(p, id.0 as usize).checked_add(1) else {
        return Err(AllocError);
    };
    let next = Actor {
        number,
        snapshot: None,
    };
    commit(p, alloc, order, id, next, change)?;
    Ok(true)
}

/// What an answer to an order changes, where it is allowed.
fn decided(p: &State, order: &Order, id: ActorId, answer: &Answer) -> Option<Change>
    requires safe { PlainSafe p.now }
    requires fit { IsBuildableAppend order.now.command }
    requires broker { order.now.broker.0 < length p.now.brokers }
    requires replica { order.now.broker.0 < length p.now.registry.replicas }
    ensures { AtBroker p.now order.now.broker.0 (λ x s.
        row p.now order.now.broker.0 x s (actor_at p.now.actors id.0).snapshot order.now.command answer.now
        ≡ option_map (changed p.now order.now.broker.0 x s order.now.command) result) }
{
    let b = order.broker.0 as usize;
    let x = p.brokers.get(b);
    let s = p.registry.replicas.get(b);
    decide(
        p,
        b,
        x,
        s,
        snapshot(p, id.0 as usize),
        &order.command,
        answer,
    )
}

/// Begins an order's command, where it may begin, with this end of a log that it cuts.
fn begin(
    p: &mut State,
    alloc: Global,
    order: &Order,
    id: ActorId,
    cut: Option<u64>,
) -> Result<bool, AllocError>
    requires safe { PlainSafe p.old }
    requires fit { IsBuildableAppend order.now.command }
    requires broker { order.now.broker.0 < length p.old.brokers }
    requires replica { order.now.broker.0 < length p.old.registry.replicas }
    ensures ok { IfOk result (λ taken. AtBroker p.old order.now.broker.0 (λ x s.
        Stepped p.old p.new (event_step p.old id.0 (actor_at p.old.actors id.0) order.now x s (event.Begins cut))
        taken)) }
    ensures err { OnErr result (p.new ≡ p.old) }
{
    if has_begun(p, id.0 as usize) {
        return Ok(false);
    }
    let b = order.broker.0 as usize;
    let x = p.brokers.get(b);
    if refused(p, b, x, None, &order.command).is_some() {
        return Ok(false);
    }
    let Some(change) = beginning(p, x, &order.command, cut) else {
        return Ok(false);
    };
    let recorded = note(p, x, order, change)?;
    let next = Actor {
        number: number(p, id.0 as usize),
        snapshot: Some(recorded),
    };
    commit(p, alloc, order, id, next, change)?;
    Ok(true)
}

/// Carries out an entry of a journal about an order, and returns whether it is a step.
pub(crate) fn step(
    p: &mut State,
    alloc: Global,
    order: &Order,
    entry: &JournalEntry,
) -> Result<bool, AllocError>
    requires safe { PlainSafe p.old }
    requires fit { IsBuildableAppend order.now.command }
    ensures ok { IfOk result (λ taken. Stepped p.old p.new (step_of p.old order.now entry.now) taken) }
    ensures err { OnErr result (p.new ≡ p.old) }
{
    let b = order.broker.0 as usize;
    if b >= p.brokers.len() || b >= p.registry.replicas.len() {
        return Ok(false);
    }
    if !is_next(p, order, entry) {
        return Ok(false);
    }
    match &entry.event {
        Event::Begins { cut } => {
            let taken = begin(p, alloc, order, entry.actor, *cut)?;
            Ok(taken)
        }
        Event::Answers(told) => {
            let taken = answer(p, alloc, order, entry.actor, told)?;
            Ok(taken)
        }
    }
}
