//! Runs the partitions of a script by threads: one for each actor of a partition, and a lock for each partition.
//!
//! A thread passes a gate, takes the lock of its partition, lets its actor take one turn, and releases the lock. The
//! system decides which thread gets the lock next, and so the order of the turns. All that a proof knows of a value
//! under a lock is what its type says. So a partition is kept as a `Traced`, whose type says that the turns so far
//! lead from the fresh partition of a script to the present one (`specs/Traced.antt`). Which script and partition
//! that is, the value itself says, and it is compared once the threads have ended.
#![tactic(auto)]

mod gate;
mod threads;
mod traced;

pub use gate::{Gate, OpenGate};
pub use threads::run_threads;
pub use traced::Traced;
