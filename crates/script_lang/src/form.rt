//! A parsed line.

use crate::fault::Fault;
use crate::options::OptionLine;
use plain_log::Order;
use tier_base::{ActorId, PartitionId};

/// A parsed line.
#[derive(Drop)]
pub enum Form {
    /// A blank line or a comment.
    Blank,
    /// An option.
    Given(OptionLine),
    /// A command of an actor. With `at_once` the schedule steps the actor until the command is answered; without, only
    /// later lines step it.
    Placed {
        actor: ActorId,
        partition: PartitionId,
        order: Order,
        at_once: bool,
    },
    /// The schedule steps an actor.
    Turn {
        actor: ActorId,
        turns: u32,
    },
    /// A device call that is to fail.
    Faulty {
        partition: PartitionId,
        fault: Fault,
    },
}
