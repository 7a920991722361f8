//! What a step changes.

ghost use Rattle.std.specs.Prelude.{◌≡◌};
ghost use Rattle.registry.specs.Calls.{when};

/// What the answer to a command of a broker changes. `specs/Change.antt` has the state after each.
#[derive(Clone, Copy)]
pub(crate) enum Change {
    /// Nothing.
    Same,
    /// The broker stops in the middle of a write, with this flushed end.
    Breaks(u64),
    /// The leader of this epoch appends the command's batch at this offset.
    Gains {
        base: u64,
        epoch: u32,
    },
    /// The log is flushed up to here, which is its end.
    Flushes(u64),
    /// The broker stops.
    Stops,
    /// It starts with the first batches of its log, so many, which end here.
    Opens {
        count: usize,
        end: u64,
    },
    /// It is elected from the replicas in sync.
    Elects,
    /// It is elected, in sync or not, and the first batches of its log, so many, are what is committed.
    Restarts {
        count: usize,
    },
    /// It follows the leader of this epoch.
    Follows(u32),
    /// It stops in the middle of taking the lead.
    BreaksLead,
    /// It leads this epoch, with its whole log flushed.
    Leads(u32),
    /// It acknowledges its flushed end, and the first batches of the current path, so many, are what is committed.
    Acks {
        count: usize,
    },
    /// It leaves the replicas in sync.
    Shrinks,
    /// It comes to them.
    Expands,
    /// The log starts here.
    Starts(u64),
    /// The log is cut to so many batches, which end here, and has joined the leader of this epoch.
    Cuts {
        epoch: u32,
        count: usize,
        end: u64,
    },
    /// The log is the first batches, so many, of the path of this epoch, and is flushed up to here.
    Extends {
        epoch: u32,
        count: usize,
        flushed_end: u64,
    },
    /// The same, where the broker stops in the middle of it.
    BreaksLonger {
        epoch: u32,
        count: usize,
    },
}

/// A change where a test holds.
pub(crate) fn given(test: bool, change: Change) -> Option<Change>
    ensures { result ≡ when test change }
{
    if test { Some(change) } else { None }
}
