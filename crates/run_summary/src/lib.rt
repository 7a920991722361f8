//! The summary of a run: how often each command got which answer, and the final state of each partition.
//!
//! `tell` replays a partition's journal in the executable model and collects what the summary needs; `summary` writes
//! it for all partitions as one text. Its form is in `load_gen`'s `specs/Summary.antt`, what is collected of a
//! journal in `specs/Told.antt`.
#![tactic(auto)]

mod given;
mod lines;
mod names;
mod text;
mod told;
mod words;

pub use given::{End, Given};
pub use text::summary;
pub use told::{Told, tell};
