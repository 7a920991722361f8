//! The safety rules of a partition's remote tier: what holds of its objects and its metadata between any two turns.
//! There is no code here, only laws over definitions.
//!
//! The tier is a whole of store, metadata log, views and commands in progress (`specs/Scene.antt`), beside a state of
//! the plain log. `specs/Safe.antt` has the rules of both, `specs/Changes.antt` says what one device call may change,
//! and `specs/May.antt` when it may. Such changes keep the rules, a fresh tier satisfies them, and each turn of a
//! copy and of an expiry is such changes, whichever of its calls fails. So what a local log has dropped is in the
//! remote tier, in the log's own lineage, until the log start offset is past it; and what a fetch or a rebuild finds
//! and reads there is its log's.
//!
//! The central fact of a partition includes these rules, and is kept by these laws.
#![tactic(auto)]

mod laws;

pub use laws::{
    a_leaders_segments_are_sources, answers_keep_safe, changes_keep_safe, copy_turns_change,
    dropped_is_kept, expiry_turns_change, fetches_are_served, finished_is_kept, fresh_is_safe,
    halts_change, rebuilds_are_served, refreshes_change, what_a_log_lacks_is_found,
    what_a_rebuild_wants_is_found, what_is_asked_for_is_found, what_is_found_stands,
    what_is_reached_is_covered,
};
