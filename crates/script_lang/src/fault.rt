//! Planned faults: which call of which device of a partition fails.

use tier_base::BrokerId;

/// A device of a partition.
#[derive(Clone, Copy, Debug, PartialEq, Eq)]
pub enum FaultDevice {
    /// The disk of a broker.
    Disk(BrokerId),
    /// The object store.
    Store,
    /// The metadata log.
    Meta,
}

/// A kind of call of a device.
#[derive(Clone, Copy, Debug, PartialEq, Eq)]
pub enum FaultCall {
    Append,
    Sync,
    Read,
    Cut,
    Replace,
    Remove,
    List,
    Put,
    Get,
    Delete,
}

/// A device call that is to fail.
#[derive(Clone, Copy, Debug, PartialEq, Eq)]
pub struct Fault {
    pub device: FaultDevice,
    pub call: FaultCall,
    /// Which of the calls of this kind fails, counted from 1.
    pub number: u32,
    /// Whether the call takes effect before it fails.
    pub after: bool,
}
