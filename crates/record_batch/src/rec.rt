//! A record, and the headers that it carries.

use tier_base::{Blob, Items};

/// A name and a value, which a producer adds to a record.
#[derive(Debug, Drop)]
pub struct Header {
    pub key: Blob,
    pub value: Option<Blob>,
}

/// The headers of a record, in their order.
pub type HeaderList = Items<Header>;

/// A record: when it was made, and what it holds.
#[derive(Debug, Drop)]
pub struct Rec {
    pub ts: i64,
    pub key: Option<Blob>,
    pub value: Option<Blob>,
    pub headers: HeaderList,
}
