//! Why bytes are no batch, or records make none.

use thiserror::Error;

/// Why bytes do not begin with a batch's head. The first cause in the order of the tests is reported.
#[derive(Clone, Copy, Debug, PartialEq, Eq, Error)]
pub enum HeadRefusal {
    /// There are fewer bytes than a head has.
    #[error("the bytes end inside the head")]
    Short,
    /// The batch is of another format, whose fields are elsewhere.
    #[error("the magic is not 2")]
    BadMagic,
    /// Its length is below that of a head alone, or above that of the largest batch.
    #[error("the length is out of range")]
    BadLength,
}

/// Why bytes are no batch. The first test that fails is reported.
#[derive(Clone, Copy, Debug, PartialEq, Eq, Error)]
pub enum BatchRefusal {
    /// There are fewer bytes than a head has, or than this one gives.
    #[error("the bytes end inside the batch")]
    Short,
    /// The batch is of another format, whose fields are elsewhere.
    #[error("the magic is not 2")]
    BadMagic,
    /// Its length is out of range, or bytes follow the batch.
    #[error("the length is out of range, or bytes follow")]
    BadLength,
    /// The bytes changed since the checksum was made.
    #[error("the checksum is {computed}, the batch says {kept}")]
    BadCrc { kept: u32, computed: u32 },
    /// The records are compressed, and would have to be unpacked to be checked.
    #[error("the records are compressed")]
    Compressed,
    /// The batch is part of a transaction, of which this log keeps no state.
    #[error("the batch is part of a transaction")]
    Transactional,
    /// The batch carries a broker's own mark and no records of a producer.
    #[error("the batch is a control batch")]
    Control,
    /// The records from this byte on, or the count of them there, are not as the head says.
    #[error("the records are wrong at byte {at}")]
    BadRecords { at: u32 },
}

/// Why no batch was built. The first cause in this order is reported.
#[derive(Clone, Copy, Debug, PartialEq, Eq, Error)]
pub enum BuildRefusal {
    /// A batch has one record at least.
    #[error("there are no records")]
    NoRecords,
    /// The batch would be larger than a batch may be.
    #[error("the batch would pass 1048576 bytes")]
    TooLarge,
    /// There was no memory for the batch's bytes.
    #[error("out of memory")]
    NoMemory,
}
