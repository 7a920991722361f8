//! Counts the calls and faults of a device that works on something outside the program, or on another device. Such a
//! device has no plan of faults, and each of its calls can fail.
//!
//! A `Tally` counts the calls since the device was armed, and those that failed. These counts are what can be
//! observed of every device.
#![tactic(auto)]

mod tally;

pub use tally::Tally;
