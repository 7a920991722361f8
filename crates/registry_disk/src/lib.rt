//! A partition's registry on a disk of its own, in one file that is replaced as a whole.
//!
//! After a call that succeeded a power cut leaves the registry that was stored last. After one that failed it leaves
//! that one or the one before.
#![tactic(auto)]

mod keeping;
mod refusal;

pub use keeping::{find_registry, keep_registry};
pub use refusal::FindRefusal;
