//! What a turn of a task came to.

use crate::answer::Answer;

/// What a turn of a task came to. `N` is what the task's next turn does.
#[derive(Debug, Drop)]
pub enum Turn<N> {
    /// The task continues with this turn.
    Goes(N),
    /// The task has ended with this answer.
    Ends(Answer),
}
