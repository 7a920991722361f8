//! Runs of a script over devices of any kind, and over an environment that provides them.
//!
//! A partition's run is that of its lists on a fresh world, by its schedule; whatever happens, its devices are
//! returned. Over any devices each command is answered once and in order, and a fault that is reported is one that its
//! device counted. Over observable devices that are empty at the beginning, the journal is a run of the plain log
//! (`specs/Run.antt`).
//!
//! Over an environment each partition's devices are taken out, run on, and returned. If the environment is observable
//! and had none of the partitions, each journal is a run of the plain log, and the environment has the devices with
//! what the run left on them (`specs/Runs.antt`).
#![tactic(auto)]

mod checking;
mod handing;
mod keeping;
mod refusal;
mod running;
mod runs;

pub use refusal::YardRefusal;
pub use running::run_on;
pub use runs::{joined, run_in_yard};
