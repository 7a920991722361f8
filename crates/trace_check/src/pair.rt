//! What is judged: a script, and the trace of its run.

use tier_base::Blob;

/// A script and a trace, as the bytes of two files.
#[derive(Debug, Drop)]
pub struct Pair {
    pub script: Blob,
    pub trace: Blob,
}
