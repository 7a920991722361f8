//! The manifest of a local log: what of the log is durable.
//!
//! It has the incarnation, the local log start offset, the base offset and the flushed length of each segment in
//! bytes, and the leader epochs. It alone decides what a log has after a crash, so it is replaced as a whole. It has
//! one spelling in bytes.
#![tactic(auto)]

mod fields;
mod laws;
mod manifest;
mod reading;
mod refusal;
mod writing;

pub use laws::{a_manifest_has_one_spelling, a_written_manifest_is_read_again};
pub use manifest::{Extent, Manifest, SegmentList};
pub use reading::decode;
pub use refusal::ManifestRefusal;
pub use writing::encode;
