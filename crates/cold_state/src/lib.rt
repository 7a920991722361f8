//! What a power cut of everything leaves of the plain log's state (`specs/Cold.antt`), and that the safety rules hold
//! there.
//!
//! A run over what an earlier run left begins in this state of the earlier one's last.
#![tactic(auto)]

mod laws;

pub use laws::a_cold_state_is_safe;
