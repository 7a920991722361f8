//! What happened to a partition: one entry for each command that began or was answered.

use crate::answer::Answer;
use tier_base::{ActorId, Reserved};

/// What an entry says of its command.
#[derive(Debug, Drop)]
pub enum Event {
    /// Its first turn left it unanswered. A join that cut its log names the new end.
    Begins { cut: Option<u64> },
    /// It was answered.
    Answers(Answer),
}

/// An entry of a partition's journal.
#[derive(Debug, Drop)]
pub struct JournalEntry {
    pub actor: ActorId,
    /// The place of the command in its actor's list, from 0.
    pub number: u32,
    pub event: Event,
}

/// The entries in the order in which they came.
pub type Journal = Reserved<JournalEntry>;
