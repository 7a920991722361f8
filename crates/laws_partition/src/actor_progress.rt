//! How far an actor has come, and what a step of it comes to.

use crate::start_snapshot::StartSnapshot;

/// An actor's place at the desk.
#[derive(Debug, Drop)]
pub struct ActorProgress {
    /// The number of its next order, or of the one that has begun.
    pub number: u32,
    /// What is kept of the order, where it has begun.
    pub snapshot: Option<StartSnapshot>,
}

/// What a step of an actor came to.
#[derive(Clone, Copy, Debug, PartialEq, Eq)]
pub enum Stepped {
    /// A turn that left its command unanswered.
    Ran,
    /// A turn that answered its command.
    Done,
    /// The actor is at the end of its list, or has none.
    Nothing,
    /// There was no memory, and nothing has changed.
    NoMemory,
}
