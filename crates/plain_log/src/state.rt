//! The state of the plain log.

use crate::command::Order;
use registry::Registry;
use shared_log::Batches;
use tier_base::Items;

/// What a broker does, and in which leader epoch.
#[derive(Clone, Copy, Debug, PartialEq, Eq)]
pub enum Role {
    /// Nothing: it has not learned who leads since it started.
    Idle,
    /// It leads this epoch.
    Leads(u32),
    /// Another broker leads this epoch, and the logs have not met yet.
    Follows(u32),
    /// Another broker leads this epoch, and the log is a beginning of its log.
    Joined(u32),
}

/// A broker with its whole log, however little of it a disk has. One that is down has no role and knows no high
/// watermark.
#[derive(Debug, Drop)]
pub struct Broker {
    pub up: bool,
    /// How often it has stopped.
    pub stops: u64,
    pub role: Role,
    /// Its record batches from offset 0 on.
    pub log: Batches,
    /// The offset up to which the log survives a stop.
    pub flushed_end: u64,
    /// It stopped in the middle of a write, so more than what is flushed may come back.
    pub loose: bool,
    /// The high watermark that it knows.
    pub known_high_watermark: u64,
}

/// The log that the leader of one epoch has.
#[derive(Debug, Drop)]
pub struct Path {
    pub epoch: u32,
    pub log: Batches,
}

/// What was recorded where a command of several turns began.
#[derive(Debug, Drop)]
pub struct PlainSnapshot {
    pub order: Order,
    /// How often its broker had stopped.
    pub stops: u64,
    /// Its broker's role.
    pub role: Role,
    /// Its broker's log end offset.
    pub end: u64,
    /// The log start offset.
    pub start: u64,
}

/// How far an actor has come.
#[derive(Debug, Drop)]
pub struct Actor {
    /// The number of its next command, or of the one that has begun.
    pub number: u32,
    /// What was recorded of the command, where it has begun.
    pub snapshot: Option<PlainSnapshot>,
}

/// A partition: what the registry says and what is committed, the log of each leader epoch, the brokers, and how far
/// the actors have come. `specs/Safe.antt` has the rules that hold of it after every run.
#[derive(Debug, Drop)]
pub struct State {
    pub registry: Registry,
    /// What is committed: the batches below the high watermark.
    pub committed: Batches,
    /// The paths of the epochs whose lead was taken.
    pub paths: Items<Path>,
    /// The epochs in which taking the lead broke off.
    pub broken: Items<u32>,
    /// An unclean election was answered with a new epoch.
    pub unclean: bool,
    pub brokers: Items<Broker>,
    /// The actors by their number; those past the end have not begun.
    pub actors: Items<Actor>,
}
