//! How far an actor has come, what is kept of its command between two turns, and what a turn came to.

ghost use Rattle.std.specs.Prelude.{◌≡◌};
ghost use Rattle.partition_world.specs.ActorStates.{chosen, moved, sought, dated, expired_segment, deleting};
ghost use Rattle.partition_world.specs.ActorStates.{rebuilding, outcome_of, copy_outcome, fetch_outcome};
ghost use Rattle.partition_world.specs.ActorStates.{date_outcome, expiry_outcome, rebuild_outcome};

use copy_task::{CopyStep, Copying};
use expiry_task::{DeletionStep as Deletion, ExpiredSegment};
use laws_partition::{StartSnapshot, Turned};
use plain_log::{Answer, Turn};
use rebuild_task::RebuildStep as Rebuild;
use tier_fetch::FetchStep as Search;
use time_find::SearchStep as Dating;

/// What is kept of a command between its turns.
#[derive(Drop)]
pub enum InProgress {
    /// Nothing: it hasn't begun.
    Idle,
    /// What was recorded where it began. A follow has its run there, and a copy or an expiry has yet to choose its
    /// segment.
    Noted(StartSnapshot),
    /// A copy of a segment, and what it does next.
    Copies(StartSnapshot, Copying, CopyStep),
    /// A fetch from the remote tier, and what it does next.
    Seeks(StartSnapshot, Search),
    /// A timestamp lookup, the offset that it has come to, and what it does next.
    Dates(StartSnapshot, u64, Dating),
    /// An expiry of a remote segment, and what it does next.
    Expires(StartSnapshot, ExpiredSegment, Deletion),
    /// A join whose broker has refreshed its view to restart its log, and what it does next.
    Rebuilds(StartSnapshot, Rebuild),
}

/// An actor's place at the desk.
#[derive(Drop)]
pub struct ActorState {
    /// The number of its next order, or of the one that has begun.
    pub number: u32,
    /// What is kept of the order.
    pub in_progress: InProgress,
}

/// What a turn of a command came to.
#[derive(Drop)]
pub enum Outcome {
    /// The command was answered.
    Answers(Answer),
    /// It began.
    Begins(StartSnapshot),
    /// A copy has chosen its segment.
    Chose(Copying),
    /// A copy continues with this turn.
    Goes(CopyStep),
    /// A fetch from the remote tier continues with this turn.
    Seeks(Search),
    /// A timestamp lookup continues at this offset with this turn.
    Dates(u64, Dating),
    /// An expiry has taken up a remote segment.
    ChoosesExpired(ExpiredSegment),
    /// An expiry continues with this turn.
    Deletes(Deletion),
    /// A join that restarts its log continues with this turn.
    Rebuilds(Rebuild),
}

impl InProgress {
    /// What is kept of a copy that has chosen its segment.
    pub(crate) fn chosen(self, copying: Copying) -> InProgress
        ensures { result ≡ chosen self copying }
    {
        match self {
            InProgress::Noted(snapshot) => InProgress::Copies(snapshot, copying, CopyStep::Start),
            other => other,
        }
    }

    /// What is kept of a copy that continues.
    pub(crate) fn moved(self, next: CopyStep) -> InProgress
        ensures { result ≡ moved self next }
    {
        match self {
            InProgress::Copies(snapshot, copying, _) => InProgress::Copies(snapshot, copying, next),
            other => other,
        }
    }

    /// What is kept of a fetch that continues in the remote tier.
    pub(crate) fn sought(self, next: Search) -> InProgress
        ensures { result ≡ sought self next }
    {
        match self {
            InProgress::Noted(snapshot) | InProgress::Seeks(snapshot, _) => InProgress::Seeks(
                snapshot, next,
            ),
            other => other,
        }
    }

    /// What is kept of a timestamp lookup that continues.
    pub(crate) fn dated(self, cursor: u64, next: Dating) -> InProgress
        ensures { result ≡ dated self cursor next }
    {
        match self {
            InProgress::Noted(snapshot) => InProgress::Dates(snapshot, cursor, next),
            InProgress::Dates(snapshot, _, _) => InProgress::Dates(snapshot, cursor, next),
            other => other,
        }
    }

    /// What is kept of an expiry that has taken up a remote segment.
    pub(crate) fn expired_segment(self, segment: ExpiredSegment) -> InProgress
        ensures { result ≡ expired_segment self segment }
    {
        match self {
            InProgress::Noted(snapshot) => InProgress::Expires(snapshot, segment, Deletion::Start),
            other => other,
        }
    }

    /// What is kept of an expiry that continues.
    pub(crate) fn deleting(self, next: Deletion) -> InProgress
        ensures { result ≡ deleting self next }
    {
        match self {
            InProgress::Expires(snapshot, segment, _) => InProgress::Expires(
                snapshot, segment, next,
            ),
            other => other,
        }
    }

    /// What is kept of a join that continues to restart its log.
    pub(crate) fn rebuilding(self, next: Rebuild) -> InProgress
        ensures { result ≡ rebuilding self next }
    {
        match self {
            InProgress::Noted(snapshot) => InProgress::Rebuilds(snapshot, next),
            InProgress::Rebuilds(snapshot, _) => InProgress::Rebuilds(snapshot, next),
            other => other,
        }
    }
}

/// What a turn came to of a command that the remote tier has no part in.
pub(crate) fn outcome_of(turned: Turned) -> Outcome
    ensures { result ≡ outcome_of turned }
{
    match turned {
        Turned::Answers(answer) => Outcome::Answers(answer),
        Turned::Begins(snapshot) => Outcome::Begins(snapshot),
    }
}

/// What a turn of a copy came to.
pub(crate) fn copy_outcome(turn: Turn<CopyStep>) -> Outcome
    ensures { result ≡ copy_outcome turn }
{
    match turn {
        Turn::Goes(next) => Outcome::Goes(next),
        Turn::Ends(answer) => Outcome::Answers(answer),
    }
}

/// What a turn of a fetch from the remote tier came to.
pub(crate) fn fetch_outcome(turn: Turn<Search>) -> Outcome
    ensures { result ≡ fetch_outcome turn }
{
    match turn {
        Turn::Goes(next) => Outcome::Seeks(next),
        Turn::Ends(answer) => Outcome::Answers(answer),
    }
}

/// What a turn of a timestamp lookup came to.
pub(crate) fn date_outcome(turn: Turn<(u64, Dating)>) -> Outcome
    ensures { result ≡ date_outcome turn }
{
    match turn {
        Turn::Goes((cursor, next)) => Outcome::Dates(cursor, next),
        Turn::Ends(answer) => Outcome::Answers(answer),
    }
}

/// What a turn of an expiry came to.
pub(crate) fn expiry_outcome(turn: Turn<Deletion>) -> Outcome
    ensures { result ≡ expiry_outcome turn }
{
    match turn {
        Turn::Goes(next) => Outcome::Deletes(next),
        Turn::Ends(answer) => Outcome::Answers(answer),
    }
}

/// What a turn of a rebuild came to.
pub(crate) fn rebuild_outcome(turn: Turn<Rebuild>) -> Outcome
    ensures { result ≡ rebuild_outcome turn }
{
    match turn {
        Turn::Goes(next) => Outcome::Rebuilds(next),
        Turn::Ends(answer) => Outcome::Answers(answer),
    }
}
