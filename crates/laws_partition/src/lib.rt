//! A partition by what is observed of its logs, and the laws that its commands follow the plain log's rows: its
//! registry, its brokers' logs, the lists of commands and the journal of answers.
//!
//! A log is seen as its batches and its leader epochs, with how much of them is left after a stop. A write that fails
//! stops its broker, and then one of two ends may be left, each with its leader epochs. Which device a log is on
//! doesn't matter here.
//!
//! A turn of an actor carries out its next command, or continues one that has begun, and enters the answer into the
//! journal. `specs/Rows.antt` says for each command what it returns and what that changes. `specs/Central.antt` has the
//! central fact, that the world is the plain log after the world's own journal, with the plain log's safety rules. That
//! each turn keeps it is a law over the rows.
//!
//! A partition has 1 to 8 brokers: one leads, others follow, and elections, stops and starts change which. A follow
//! takes two turns, and anything may come between them and end it. What it read at the first is kept as bytes, and seen
//! as the batches that these are.
//!
//! Of the remote tier only the answers to commands on it are seen. A copy, an expiry or a remote fetch that begins at
//! its first turn is answered at a later one, where its broker may have lost the lead. The turns between the two change
//! nothing that is seen, and enter nothing.
#![tactic(auto)]

mod actor_progress;
mod laws;
mod local_start;
mod start_snapshot;
mod taken;

pub use actor_progress::{ActorProgress, Stepped};
pub use laws::{ends_are_complete, fresh_is_central, joined_come_apart, steps_keep_central};
pub use local_start::LocalStart;
pub use start_snapshot::{StartSnapshot, Turned};
pub use taken::Taken;
