//! A cache of the offset indexes of remote segments, so that most fetches need not load one (Kafka's
//! RemoteIndexCache).
//!
//! A segment in the remote tier never changes, so a cached index is never stale. The cache is bounded by its number
//! of indexes, and drops the one that was used least recently.
#![tactic(auto)]

mod cache;

pub use cache::IndexCache;
