//! What is kept of a command between its turns.

use crate::local_start::LocalStart;
use crate::taken::Taken;
use epoch_line::Line;
use plain_log::{Answer, Role};

/// What was recorded where a command began, and what its next turn takes up.
#[derive(Debug, Drop)]
pub struct StartSnapshot {
    /// How often its broker had stopped.
    pub stops: u64,
    /// Its broker's role.
    pub role: Role,
    /// Its broker's log end offset.
    pub end: u64,
    /// The log start offset.
    pub start: u64,
    /// The run of the leader's log that a follow has taken.
    pub batches: Taken,
    /// Where a join is to restart the log, and the leader epochs up to there.
    pub wanted: LocalStart,
    pub line: Line,
}

/// What a turn of a command came to.
#[derive(Debug, Drop)]
pub enum Turned {
    /// The command was answered.
    Answers(Answer),
    /// It began, and continues with a later turn.
    Begins(StartSnapshot),
}
