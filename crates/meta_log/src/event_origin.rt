//! Who wrote a metadata event, and when.

use tier_base::BrokerId;

/// The broker that appends an event, and the time in milliseconds.
#[derive(Clone, Copy, Debug, PartialEq, Eq)]
pub struct EventOrigin {
    pub broker: BrokerId,
    pub now: i64,
}
