//! The metadata log of a partition's remote segments: a list of metadata events, as Kafka keeps them in the topic
//! `__remote_log_metadata`. The type of an event is called `Event`.
//!
//! `MetaLog` is the trait through which brokers learn of each other's remote segments. The events of a log may be
//! observable; what can always be observed is how many calls failed and how many were made. The events that it
//! returns are valid even if it isn't observable. `MemoryLog` is observable and proved to be such a log: its calls
//! fail by a plan.
#![tactic(auto)]

mod call;
mod copying;
mod event_origin;
mod log;
mod memory_log;
mod notes;

pub use call::{MetaCall, Planned};
pub use event_origin::EventOrigin;
pub use log::MetaLog;
pub use memory_log::MemoryLog;
