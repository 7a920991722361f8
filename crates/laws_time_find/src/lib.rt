//! Laws of timestamp lookups over both tiers: each turn of one keeps the tier's safety rules, continues through its log
//! batch by batch, and the offset that it returns is right for the log.
//!
//! `time_find` says what a turn of a lookup does depending on what the devices return, `tier_safe` what may change in
//! the tier, and `laws_tier_fetch` what a read of a remote segment returns. Here are the laws between them. They hold
//! of a turn whose broker still leads as it did when the lookup began, if the cursor isn't below the log start offset
//! and is below the broker's high watermark: the caller tests all of this before each turn.
#![tactic(auto)]

mod laws;

pub use laws::{
    a_start_has_passed, passed_has_none, passed_is_kept, runs_are_searched,
    search_damage_is_of_logs, search_turns_change, searches_are_right, searches_go_on,
};
