//! CRC-32C and varints, the primitives of a record batch's bytes.
//!
//! `crc32c` takes sixteen bytes a step in four registers. Three simpler bodies of the same checksum are kept beside
//! it as its reference, with the same clause: sixteen bytes a step in one register, a byte a step, and a bit a step.
//!
//! A varint is read from the front of a slice, together with its length in bytes, and is written at the end of a
//! vector. What is written is read back whatever follows it: `laws`.
#![tactic(auto)]

mod bitwise;
mod braided;
mod bytewise;
mod far_tables;
mod laws;
mod near_tables;
mod refusal;
mod sliced;
mod varints;
mod zigzag;

pub use bitwise::crc32c_bitwise;
pub use braided::crc32c;
pub use bytewise::crc32c_bytewise;
pub use laws::{
    what_is_written_is_read_again, what_is_written_is_shortest, zigzag_keeps_the_width,
};
pub use refusal::VarRefusal;
pub use sliced::crc32c_sliced;
pub use varints::{read_varint, read_varlong, write_varint, write_varlong};
