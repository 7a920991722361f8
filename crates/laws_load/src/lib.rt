//! Every load of `gen` is a valid script of the script language: its lines are read one after another, and none is
//! refused.
//!
//! A load's lines are the shortest spellings of its commands, which the script language reads back. What is left are
//! the limits: a load has at most 40,000 commands, 20,000 fetches and copies, and its batches are of one small
//! record.
#![tactic(auto)]

mod laws;

pub use laws::loads_are_valid;
