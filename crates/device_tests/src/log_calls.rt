//! Calls of a metadata log, and how they end.

use crate::ends::{End, right, troubled};
use meta_log::MetaLog;
use segment_meta::decode;
use std::alloc::Global;
use tier_base::Trouble;

/// How an append that is to answer this place ended.
fn placed(answer: Result<u64, Trouble>, place: u64) -> End {
    match answer {
        Ok(found) => right(found == place),
        Err(trouble) => troubled(trouble),
    }
}

/// How a metadata event of these bytes goes to the end, at this place.
pub(crate) fn append<M: MetaLog>(alloc: Global, log: &mut M, bytes: &[u8], place: u64) -> End {
    match decode(alloc, bytes) {
        Ok(note) => placed(log.append(&note), place),
        Err(_) => End::Other,
    }
}

/// How a read from a place on ends, which is to give so many metadata events.
pub(crate) fn count<M: MetaLog>(log: &mut M, at: u64, many: usize) -> End {
    match log.read(at) {
        Ok(notes) => right(notes.len() == many),
        Err(trouble) => troubled(trouble),
    }
}

pub(crate) fn arm<M: MetaLog>(log: &mut M) -> End {
    log.arm();
    End::Well
}
