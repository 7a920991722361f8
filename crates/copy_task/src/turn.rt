//! What a copy does next, and the result of a turn.

use plain_log::Answer;

/// What the next turn of a copy does.
#[derive(Clone, Copy, Debug, PartialEq, Eq)]
pub enum CopyStep {
    /// Append the event that the copy starts.
    Start,
    /// Put the object whose key has this number among those of its segment.
    Put(u8),
    /// Append the event that the copy is finished.
    Finish,
    /// Refresh the view, and see which state the copy's entry has.
    Check,
    /// Delete the object whose key has this number, since an expiry has overtaken the copy.
    Delete(u8),
}
