//! Laws of fetches from the remote tier: each turn of one keeps the tier's safety rules, and what it returns is the
//! log.
//!
//! `tier_fetch` says what a turn of a fetch does depending on what the devices return, and `tier_safe` what may change
//! in the tier. Here are the laws between the two. They hold of a turn whose broker still leads as it did when the
//! fetch began, if the log start offset isn't above the fetched offset: the caller tests both before each turn.
#![tactic(auto)]

mod laws;

pub use laws::{
    asks_change, damage_is_of_logs, fetch_runs_are_logs, fetch_turns_change, spans_hold_runs,
};
