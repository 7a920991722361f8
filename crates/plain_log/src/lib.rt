//! The plain log: the model of one partition under Kafka's replication rules, without segments or tiers.
//!
//! A broker's log is a list of record batches. The state (`State`) has the registry's fields, the brokers, the log
//! that each leader epoch has had, what is committed, and how far each actor is in its list of commands.
//! `specs/Step.antt` says which journal entries are a step and what each changes; `specs/RunsTurns.antt` says when a
//! journal is a run of given lists. `specs/Safe.antt` has the rules that every state of a run satisfies, and the laws
//! of this crate say so. The crates above cite these definitions: a written trace is right exactly if it is such a
//! run.
#![tactic(auto)]

mod answer;
mod bytes_of;
mod command;
mod facts;
mod journal;
mod laws;
mod refusals;
mod roles;
mod state;
mod turn;

pub use answer::{Answer, Place, Tier};
pub use bytes_of::{base_offset, last_delta, max_ts};
pub use command::{ActorList, Command, Config, Order, Pace, Which};
pub use facts::{Facts, Since};
pub use journal::{Event, Journal, JournalEntry};
pub use laws::{
    committed_grows, committed_stays, ends_are_within, epochs_never_fall, fresh_is_safe,
    replays_keep_safe, runs_answer_in_order, runs_are_committed, runs_are_led, steps_grow,
    steps_keep_safe,
};
pub use refusals::refusal;
pub use registry::{Registry, Replica};
pub use roles::{
    acking_in, epoch_of, followed_in, is_leader, is_leader_in, is_role, joined_in, leading_in,
};
pub use state::{Actor, Broker, Path, PlainSnapshot, Role, State};
pub use turn::Turn;
