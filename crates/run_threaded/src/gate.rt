//! What a thread passes before it takes a lock.

use tier_base::ActorId;

/// Called by the thread of an actor before each of its turns, without a lock, the last call among them, which finds the
/// list at its end. It means nothing to the run; a test holds threads there.
pub trait Gate {
    /// Lets the thread of an actor continue to its n-th call, counted from 1. For an actor that no thread could be made
    /// for, the caller of the run makes these calls; a gate that waits for another actor may then wait for good.
    fn pass(&self, actor: ActorId, turn: u64);

    /// Called without a lock where the n-th turn of an actor wants something made ready, right before that is made.
    fn prepare(&self, actor: ActorId, turn: u64);
}

/// A gate that holds nobody.
#[derive(Clone, Copy, Debug, PartialEq, Eq)]
pub struct OpenGate;

impl Gate for OpenGate {
    fn pass(&self, _actor: ActorId, _turn: u64) {}

    fn prepare(&self, _actor: ActorId, _turn: u64) {}
}
