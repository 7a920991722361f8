//! A metadata log kept in two files of a disk: the events (`notes`), and a gate that says up to where they count.
//!
//! An append writes the event after the others, syncs it, and only then moves the gate, in one replacement. So a crash
//! leaves the events from before the append or those with the new one, and never a part of it. What a broken-off append
//! left is after the gate, and the next append cuts it off.
//!
//! After a failed append the gate may be before its event or after it, and a crash may leave it at either. Each call
//! then first replaces the gate by what it reads, until that has succeeded once: so the log never takes back an event
//! that it returned.
#![tactic(auto)]

mod disk_log;
mod framing;
mod gate;
mod laws;
mod marks;
mod opening;
mod reading;
mod refusal;
mod settling;
mod walking;
mod writing;

pub use disk_log::DiskLog;
pub use laws::{
    an_empty_disk_has_no_notes, damaged_files_open_with_nothing, files_are_damaged_at_one_place,
    files_open_once,
};
pub use marks::Tail;
pub use refusal::NotesRefusal;
