//! The plain log as code: carries out a journal entry if it is a step of the model, and refuses it otherwise.
//!
//! `Plain` has the model's state, and keeps its safety rules. A step tests an entry by the row of its command and
//! changes the state only if the entry is a step of the plain log. The tests of a row allocate nothing and come first
//! (`deciding`, and a module for each group of commands); they return what is to change, a `Change`, which is then
//! made (`altering`, `making`, `moving`). `specs/Change.antt` has the state after each.
//!
//! The logs of brokers and of leader epochs and what is committed are lists that share their batches (`shared_log`), so
//! taking the lead, an unclean election and a cut copy no log. Log ends are computed in 128 bits, because they have a
//! bound only by the safety rules (`ends_are_within`); if one that must be stored exceeds 64 bits, the call reports out
//! of memory.
//!
//! Why a command is refused is the plain log's own function (`plain_log::refusal`), which is called once for an answer
//! and once for a beginning (`refusals`). The rows are of commands that aren't refused.
//!
//! `replay`, `first_refused`, `is_run` and `is_complete_run` go over whole journals step by step, `is_complete` by
//! counts alone.
#![tactic(auto)]

mod altering;
mod beginning;
mod change;
mod complete;
mod cooling;
mod counts;
mod deciding;
mod elections;
mod ends;
mod followers;
mod fresh;
mod lists;
mod log_rows;
mod making;
mod moving;
mod part;
mod paths;
mod plain;
mod reads;
mod refusals;
mod replicas;
mod stepping;
mod tiers;
mod trace;

pub use complete::{is_complete, is_complete_run, runs_end_complete};
pub use plain::Plain;
pub use trace::{find_order, first_refused, is_run, replay, take_all};
