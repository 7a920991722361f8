//! An entry of a trace, and the partition after it.

use crate::log_state::LogState;
use crate::marks::Mark;
use tier_base::{ActorId, BrokerId, Items};

/// An entry of a trace, and the partition after it.
#[derive(Debug, Drop)]
pub struct Moment {
    pub actor: ActorId,
    /// The place of the command in its actor's list, from 0.
    pub number: u32,
    pub broker: BrokerId,
    /// The command, in the script's words.
    pub asked: String,
    /// The answer, as the trace has it.
    pub answered: String,
    pub mark: Mark,
    pub log_start: u64,
    pub high_watermark: u64,
    /// The log of each broker.
    pub logs: Items<LogState>,
}
