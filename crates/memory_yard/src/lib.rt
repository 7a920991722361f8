//! An environment in memory: it provides the devices of partitions, and takes them back with their content.
//!
//! `MemoryYard` is observable and proved to be such an environment: its calls fail by a plan. It takes the place of a
//! directory where a run is to be proved or tested whole.
#![tactic(auto)]

mod call_plan;
mod device;
mod first;
mod handing;
mod log_place;
mod memory_notes;
mod memory_yard;
mod place;
mod shelf;
mod slot;

pub use memory_notes::MemoryNotes;
pub use memory_yard::MemoryYard;
