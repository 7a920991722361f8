//! Audits and sweeps of the remote tiers of all partitions of an environment.
//!
//! The tiers are at rest. For each partition that has any content, in rising order, its store and its metadata log are
//! taken out, audited or swept, and returned, and a line is reported (`specs/Lines.antt`). Disks stay where they are.
//! If the environment is observable, the lines are true of its content, an audit changes nothing, and a sweep leaves of
//! each tier what a sweep of it does (`specs/Tiers.antt`). A call that fails ends the round; what was swept by then
//! stays swept.
#![tactic(auto)]

mod auditing;
mod handing;
mod laws;
mod lines;
mod refusal;
mod sweeping;

pub use auditing::{Audited, audit_all};
pub use laws::what_is_handed_out_is_under_a_sweep;
pub use refusal::RoundRefusal;
pub use sweeping::sweep_all;
