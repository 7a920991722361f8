//! A whole partition at work: its brokers with their disks, its remote tier, the lists of commands, and the journal of
//! their answers.
//!
//! A turn of an actor carries out its next command, or continues one that has begun, and enters the answer into the
//! journal; a turn that neither begins a command nor answers it enters nothing. `specs/Turns.antt` says for each
//! command what it returns and what that changes: for those on brokers' logs and the registry by the rows of the crate
//! `partition_commands`. The code proves its row and nothing else.
//!
//! `specs/Central.antt` has the central fact, for observable devices: the world is the plain log after the world's own
//! journal, with the plain log's safety rules, and the remote tier beside it keeps its own (the crate `tier_safe`).
//! That each turn keeps it is a law over the rows, and a clause of `World::step`.
//!
//! Stops, elections and other actors' commands may come between any two turns of a command, and each call of a device
//! may fail, done or not.
#![tactic(auto)]

mod actor_state;
mod copies;
mod covering;
mod dates;
mod desk;
mod expiries;
mod fetches;
mod laws;
mod offsets;
mod ready;
mod rebuilds;
mod runs;
mod tier;
mod trims;
mod turning;
mod world;

pub use actor_state::{ActorState, InProgress, Outcome};
pub use laws::{
    ends_are_answered, ends_are_complete, fresh_is_central, fresh_is_unfailing,
    halts_meet_no_fault, reaches_in_turn, reaches_lasting, reaches_later, reaches_unfailing,
    reopened_is_unfailing, reopened_runs, reopens_central, steps_keep_central, turns_answer_faults,
};
pub use partition_commands::{Node, PartitionState, WorldRefusal};
pub use ready::{Ready, Want};
pub use runs::{run_in_order, run_to_end};
pub use tier::{BrokerTierState, Devices, RemoteTier};
pub use world::World;
