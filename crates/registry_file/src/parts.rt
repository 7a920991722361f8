//! The parts of a registry's file before the acknowledged ends.

use tier_base::BrokerId;

/// What precedes the marks.
#[derive(Clone, Copy)]
pub(crate) struct Front {
    pub brokers: u16,
    pub epoch: u32,
    pub leader: BrokerId,
}

/// The marks, and who is in sync.
#[derive(Clone, Copy)]
pub(crate) struct Marks {
    pub mark: u64,
    pub start: u64,
    pub in_sync: u8,
}
