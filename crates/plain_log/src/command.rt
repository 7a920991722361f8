//! What a script asks of a partition: commands, in a list for each actor.

use bytes::Bytes;
use record_batch::Rec;
use tier_base::{ActorId, BrokerId, Items, Keep, Settings};

/// What a partition is made with.
#[derive(Clone, Copy, Debug, PartialEq, Eq)]
pub struct Config {
    /// The number of brokers, 1 to 8.
    pub brokers: u16,
    /// The sizes at which a segment rolls and an index entry is made.
    pub settings: Settings,
    /// What both tiers together keep.
    pub keep: Keep,
    /// What a local log keeps.
    pub local_keep: Keep,
}

/// Which offset is asked for (Kafka's ListOffsets).
#[derive(Clone, Copy, Debug, PartialEq, Eq)]
pub enum Which {
    /// The log start offset.
    Earliest,
    /// The high watermark that the leader knows.
    Latest,
    /// Where the local log begins, or the log start offset where that is greater.
    EarliestLocal,
    /// The last offset that the remote tier has with all before it.
    LatestTiered,
    /// That of the first batch whose greatest timestamp isn't below this one, in milliseconds.
    At(i64),
}

/// A command to a broker, or to the whole partition (`Clock`, `Pack`, `Copying`).
#[derive(Debug, Drop)]
pub enum Command {
    /// The leader appends the batch of these records.
    Append(Items<Rec>),
    /// The leader appends these bytes, where they are a batch.
    Raw(Bytes),
    /// The broker makes its log flushed up to its end.
    Flush,
    /// The broker closes its open log segment, and begins the next.
    Roll,
    /// The broker is elected from the replicas in sync.
    Elect,
    /// The broker is elected, in sync or not.
    Unclean,
    /// The broker learns who leads.
    Learn,
    /// A follower brings its log to where it meets the leader's.
    Join,
    /// A follower that has joined copies batches from the leader, as many as fit `limit` bytes, and at least one.
    Follow { limit: u32 },
    /// The broker acknowledges its flushed end, which may raise the high watermark.
    Ack,
    /// The broker leaves the replicas in sync.
    Shrink,
    /// The broker comes back to the replicas in sync.
    Expand,
    /// The leader copies its next closed segment to the remote tier.
    Copy,
    /// The broker drops its oldest closed segment, where local retention and the remote tier allow it.
    Trim,
    /// The leader deletes what is below the log start offset from the remote tier, or raises that offset by retention.
    Expire,
    /// The leader raises the log start offset (Kafka's DeleteRecords).
    Raise { start: u64 },
    /// The partition's clock is set, in milliseconds.
    Clock { ms: i64 },
    /// The broker stops.
    Stop,
    /// The broker starts.
    Up,
    /// The leader gives the batches from the one on that holds the offset, as many as fit `limit` bytes, and at least
    /// one.
    Fetch { offset: u64, limit: u32 },
    /// Whether copies put a segment's parts into one object.
    Pack(bool),
    /// Whether segments are copied to the remote tier at all.
    Copying(bool),
    /// The leader answers an offset.
    Offset(Which),
}

/// A command, and the broker that it goes to, or 0 where it goes to the whole partition.
#[derive(Debug, Drop)]
pub struct Order {
    pub broker: BrokerId,
    pub command: Command,
}

/// The orders of one actor, which are answered in this order.
#[derive(Debug, Drop)]
pub struct ActorList {
    pub actor: ActorId,
    pub orders: Items<Order>,
}

/// How far a schedule steps an actor.
#[derive(Clone, Copy, Debug, PartialEq, Eq)]
pub enum Pace {
    /// Until it has answered so many of its commands.
    Until { actor: ActorId, number: u32 },
    /// So many times.
    Times { actor: ActorId, turns: u32 },
}
