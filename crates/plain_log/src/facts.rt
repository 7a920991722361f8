//! What the tests of a command read: `specs/Refusals.antt` says when a command is refused, over these facts.

use crate::state::Role;
use tier_base::BrokerId;

/// A broker, as far as the tests of commands read it. Of one that is down neither end counts, and both are 0.
#[derive(Clone, Copy, Debug, PartialEq, Eq)]
pub struct Facts {
    pub broker: BrokerId,
    pub up: bool,
    /// How often it has stopped.
    pub stops: u64,
    pub role: Role,
    /// The log end offset.
    pub end: u64,
    /// The offset up to which the log survives a stop.
    pub flushed_end: u64,
    /// The high watermark that it knows.
    pub known_high_watermark: u64,
}

/// What was recorded of a broker where a command of several turns began.
#[derive(Clone, Copy, Debug, PartialEq, Eq)]
pub struct Since {
    /// How often it had stopped.
    pub stops: u64,
    pub role: Role,
}
