//! Pictures of runs: a page with a drawing of each partition, the drawing alone, or lines for a terminal.
//!
//! `run` does what the words of `trace_view` ask for. A story of `run_story` has a moment for each entry of a trace;
//! `part` takes the moments between two entries, and everything that is drawn goes over these, one after another.
//! Entries go from left to right, offsets from bottom to top of a lane. There is a lane for each broker and one for the
//! remote tier.
#![tactic(auto)]

mod drawing;
mod forms;
mod lanes;
mod page;
mod part;
mod plot;
mod spans;
mod style;
mod svg;
mod terminal;
mod words;

pub use forms::run;
