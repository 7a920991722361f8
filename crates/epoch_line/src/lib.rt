//! The leader epochs of a log, each with its start offset: KIP-101's leader-epoch cache and its checkpoint.
//!
//! A `Line` is a list of entries, leader epoch and start offset, both strictly rising. It answers in which epoch an
//! offset was appended, where an epoch ends, and up to where two logs agree. Epochs are below 2^31 and offsets at
//! most 2^62. As text it has one spelling. It is never truncated at its front.
#![tactic(auto)]

mod entries;
mod line;
mod meeting;
mod refusal;
mod text;

pub use line::Line;
pub use refusal::TextRefusal;
