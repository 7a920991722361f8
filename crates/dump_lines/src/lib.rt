//! What `tier_dump` prints of files: each form as the fields of its lines, in the words of `kafka-dump-log`.
//!
//! `dump` reads a log segment through a window of a few batches, and passes each batch to a `Show`. `specs/Seen.antt`
//! says what a dump finds at a position, and `specs/Dump.antt` what it shows of a whole file. The other modules make
//! the fields of a line from each entry of a file that the file's own reader has parsed. `LineText` prints a line, as
//! plain text or as JSON.
#![tactic(auto)]

mod batch_lines;
mod dumping;
mod epochs_lines;
mod field;
mod index_lines;
mod laws;
mod line_text;
mod manifest_lines;
mod notes_lines;
mod printing;
mod record_lines;
mod registry_lines;
mod seeing;
mod show;
mod units;
mod window;

pub use batch_lines::{batch_line, broken_line, last_offset};
pub use dumping::{DumpRefusal, dump};
pub use epochs_lines::epoch_line;
pub use field::{Field, Line, Name, Value};
pub use index_lines::{IndexEntry, TimeEntry, offset_entries, time_entries};
pub use laws::{a_dump_finds_what_a_walk_finds, a_dump_shows_all_batches};
pub use line_text::{LineText, text_of};
pub use manifest_lines::{extent_line, manifest_line};
pub use notes_lines::{NextNote, entry_line, next_note, put_entry, put_note};
pub use printing::Style;
pub use record_lines::{record_line, record_text};
pub use registry_lines::{partition_line, replica_line};
pub use seeing::{Broken, Ending, Seen, Shown, look, size_in};
pub use show::{Show, ShowRefusal};

#[cfg(test)]
mod tests;
