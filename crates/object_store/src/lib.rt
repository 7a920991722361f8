//! The object store of the remote tier as a trait: what its calls do to the objects of remote segments.
//!
//! Copies, fetches and deletions are written against `Store`. The objects of a store may be observable; what can
//! always be observed is how many calls failed, how many were made, and the bytes that the last read returned.
//! `MemoryStore` is observable and proved to be such a store: its calls fail by a plan. `DeafStore` works but isn't
//! observable, so that a test can give any bytes to the code that reads. `place` and `keys_of` say where the parts of
//! a segment are and which keys its objects have; `get_spot` and `get_in_spot` read a part there.
#![tactic(auto)]

mod call;
mod deaf_store;
mod handing;
mod memory_store;
mod placing;
mod shelf;
mod slot;
mod spot_reading;
mod store;

pub use call::{Planned, StoreCall};
pub use deaf_store::DeafStore;
pub use memory_store::MemoryStore;
pub use placing::{Keys, Spot, keys_of, place};
pub use spot_reading::{get_in_spot, get_spot};
pub use store::Store;
pub use tier_base::{ObjectKey, Part};
