//! The script language: options, commands, turns and faults, as lines of text.
//!
//! `parse` reads a whole script, or reports its first invalid line and why it is invalid. The definitions say what
//! each line means and which of several causes is reported: `Lines`, `Words`, `Names`, `Records`, `Commands` and
//! `Forms` are the grammar, each with a table of its forms, and `Limits` and `Script` say what the lines mean
//! together. `Fit` says what the crates above may assume of a parsed script.
#![tactic(auto)]

mod actors;
mod commands;
mod counting;
mod fault;
mod faults;
mod fields;
mod form;
mod forms;
mod laws;
mod lines;
mod names;
mod numbers;
mod options;
mod partitions;
mod reading;
mod records;
mod refusal;
mod script;
mod told;
mod words;

pub use fault::{Fault, FaultCall, FaultDevice};
pub use laws::lines_are_read_back;
pub use reading::parse;
pub use refusal::{ScriptRefusal, Why};
pub use script::{PartScript, Script};
