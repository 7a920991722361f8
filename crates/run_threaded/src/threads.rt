//! A thread for each actor of each partition.

ghost use Rattle.std.specs.Prelude.{◌≡◌, vec_len, IfOk};

use crate::gate::Gate;
use crate::traced::Traced;
use disk_model::Disk;
use laws_partition::Stepped;
use meta_log::MetaLog;
use object_store::Store;
use partition_world::{Ready, Want, World};
use std::alloc::{AllocError, Global};
use std::sync::{Mutex, Wait};
use std::thread;
use std::thread::Threads;
use tier_base::ActorId;

/// An actor, and the place of its partition.
#[derive(Clone, Copy, Drop)]
struct Runner {
    place: usize,
    actor: ActorId,
}

/// Runs each actor of each partition in a thread of its own, or by the caller where none can be made for it, up to
/// the end of its list. Answers the partitions in the order in which they came; one in which a turn found no memory
/// has ended. Without memory for the threads none comes back.
pub fn run_threads<
    H: AllocGlobal + Threads + Wait + Sync,
    D: Disk + Send,
    S: Store + Send,
    M: MetaLog + Send,
    G: Gate + Sync,
>(rt: &H, parts: Vec<Traced<D, S, M>>, gate: &G) -> Result<Vec<Traced<D, S, M>>, AllocError>
    ensures count { IfOk result (λ back. vec_len back ≡ vec_len parts) }
{
    let runners = runners(rt.alloc(), parts.as_slice())?;
    let locks = locked(rt.alloc(), parts)?;
    let whose = runners.as_slice();
    let behind = locks.as_slice();
    let _done = thread::map_indices(
        rt,
        rt.alloc(),
        whose.len(),
        &|k| {
            if let Some(runner) = whose.get(k) {
                if let Some(lock) = behind.get(runner.place) {
                    run_actor(rt, lock, gate, runner.actor);
                }
            }
        },
    )?;
    unlocked(rt.alloc(), locks)
}

/// Has an actor take its turns, each under the lock. What a turn wants is asked under the lock, and made without it.
fn run_actor<H: AllocGlobal + Wait, D: Disk, S: Store, M: MetaLog, G: Gate>(
    rt: &H,
    lock: &Mutex<Traced<D, S, M>>,
    gate: &G,
    actor: ActorId,
) {
    for turn in 1..u64::MAX {
        gate.pass(actor, turn);
        let want = asked(rt, lock, actor);
        let ready = made::<D, S, M, G>(rt.alloc(), gate, actor, turn, want);
        let mut part = lock.lock(rt);
        match part.step_with(rt.alloc(), actor, ready) {
            Stepped::Nothing | Stepped::NoMemory => return,
            _ => {}
        }
    }
}

/// What an actor's next turn wants. Without memory to report it is nothing, and the turn makes what it needs.
fn asked<H: AllocGlobal + Wait, D: Disk, S: Store, M: MetaLog>(
    rt: &H,
    lock: &Mutex<Traced<D, S, M>>,
    actor: ActorId,
) -> Want {
    let part = lock.lock(rt);
    match part.world().wanted(rt.alloc(), actor) {
        Ok(want) => want,
        Err(_) => Want::Nothing,
    }
}

/// Makes what a turn wants. Without memory it is left to the turn, as a bundle is: its turn would compare all bytes of
/// the segment to see that a bundle is of it, which takes longer than to make one.
fn made<D: Disk, S: Store, M: MetaLog, G: Gate>(
    alloc: Global,
    gate: &G,
    actor: ActorId,
    turn: u64,
    want: Want,
) -> Ready {
    match want {
        Want::Nothing | Want::Bundle { .. } => return Ready::Nothing,
        Want::Check(_) => {}
    }
    gate.prepare(actor, turn);
    match World::<D, S, M>::prepare(alloc, want) {
        Ok(ready) => ready,
        Err(_) => Ready::Nothing,
    }
}

/// Lists the actors of all partitions.
fn runners<D: Disk, S: Store, M: MetaLog>(
    alloc: Global,
    parts: &[Traced<D, S, M>],
) -> Result<Vec<Runner>, AllocError> {
    let mut runners = Vec::new(alloc);
    for place in 0..parts.len() {
        for list in parts[place].world().lists() {
            runners.push(Runner {
                place,
                actor: list.actor,
            })?;
        }
    }
    Ok(runners)
}

/// Puts each partition behind a lock of its own.
fn locked<T: Drop>(alloc: Global, parts: Vec<T>) -> Result<Vec<Mutex<T>>, AllocError>
    ensures { IfOk result (λ locks. vec_len locks ≡ vec_len parts) }
{
    let mut locks = Vec::new(alloc);
    for part in parts {
        locks.push(Mutex::new(part))?;
    }
    Ok(locks)
}

/// Takes the partitions from behind their locks.
fn unlocked<T: Drop>(alloc: Global, locks: Vec<Mutex<T>>) -> Result<Vec<T>, AllocError>
    ensures { IfOk result (λ parts. vec_len parts ≡ vec_len locks) }
{
    let mut parts = Vec::new(alloc);
    for lock in locks {
        parts.push(lock.into_inner())?;
    }
    Ok(parts)
}
