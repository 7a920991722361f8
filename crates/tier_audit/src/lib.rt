//! An audit of a partition's remote tier at rest: no command is in progress and nobody else writes.
//!
//! `audit` reports whether the store has exactly what the metadata log says and whether each finished copy is
//! complete and readable, or else the first flaw. It only reads. specs/Whole.antt says what a sound tier is,
//! specs/Flaws.antt which flaw is reported and in which order.
#![tactic(auto)]

mod auditing;
mod copies;
mod epochs_part;
mod index_part;
mod keys;
mod laws;
mod log_part;
mod refusal;
mod time_part;
mod verdict;

pub use auditing::audit;
pub use laws::{an_audit_says_one_thing, what_a_copy_puts_is_sound};
pub use refusal::AuditRefusal;
pub use verdict::{Flaw, Verdict};
