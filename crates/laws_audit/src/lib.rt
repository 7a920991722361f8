//! Laws of what an audit finds after a run: each finished copy is readable, and after a sweep the tier is sound.
//!
//! `tier_safe` has the rules that hold between any two turns, `tier_audit` says what is right of a tier at rest, and
//! `tier_sweep` what a sweep leaves. Here are the laws between the three. A copy that another broker's deletion
//! overtook may put an object after the deletion was finished; that object stays until a sweep.
#![tactic(auto)]

mod laws;

pub use laws::{
    a_safe_tier_has_left_objects_at_most, a_safe_tier_is_readable, a_sweep_keeps_cold,
    a_swept_tier_is_whole, a_whole_sweep_keeps_cold,
};
