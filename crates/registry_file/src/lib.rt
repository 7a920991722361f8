//! The registry of a partition as a file: leader and epoch, ISR, acknowledged ends, high watermark, log start offset.
//!
//! It is replaced as a whole, and has one spelling in bytes. Any view can be written, but only one that satisfies the
//! registry's rules is read back.
#![tactic(auto)]

mod fields;
mod laws;
mod parts;
mod reading;
mod refusal;
#[cfg(test)]
mod tests;
mod writing;

pub use laws::{
    a_file_reads_as_what_it_spells, a_refusal_tells_the_first_fault, a_written_view_is_read_again,
};
pub use reading::reg_decode;
pub use refusal::RegFileRefusal;
pub use writing::reg_encode;
