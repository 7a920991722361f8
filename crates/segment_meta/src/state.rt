//! The states of a remote segment, and the steps between them (KIP-405's RemoteLogSegmentState).
//!
//! ```text
//!         copy started ------> copy finished
//!              |                     |
//!              v                     |
//!        delete started <------------+
//!              |
//!              v
//!       delete finished
//! ```
//!
//! Each arrow is a step, and so is the first event, to copy started. Any other event changes nothing: so a copy that
//! ends late can't revive a segment whose deletion has begun.

ghost use Rattle.std.specs.Prelude.{◌≡◌};
ghost use Rattle.segment_meta.specs.Steps.{next_state};

use tier_base::State;

/// The state after an event, or `None` if the event is no step from the old state.
pub fn next_state(old: Option<State>, new: State) -> Option<State>
    ensures { result ≡ next_state old new }
{
    match (old, new) {
        (None, State::CopyStarted)
        | (Some(State::CopyStarted), State::CopyFinished)
        | (Some(State::CopyStarted | State::CopyFinished), State::DeleteStarted)
        | (Some(State::DeleteStarted), State::DeleteFinished) => Some(new),
        _ => None,
    }
}
