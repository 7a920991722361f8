//! The generated loads of `gen`: a number gives a script, always the same one.
//!
//! `specs/Script.antt` has the script's form and the random draws for it, `specs/Summary.antt` the form of the summary
//! of its run.
#![tactic(auto)]

mod draws;
mod lines;
mod row;
mod script;
mod turn;

pub use script::script_of;
