//! The trace of a run as text: writing and reading.
//!
//! `specs/Trace.antt` has the forms of its lines. `print` goes over a journal twice: first it computes the length of
//! the text, so that the text never moves while it grows, and then it writes the lines, a run's bytes straight into
//! the text. `read` goes over the bytes once and returns the journals whose text they are, or the first line that is
//! invalid. The laws say that the two are each other's inverse.
#![tactic(auto)]

mod answers;
mod counts;
mod digits;
mod fields;
mod laws;
mod line;
mod lines;
mod names;
mod page;
mod parts;
mod reading;
mod refusal;
mod room;
mod shapes;
mod tables;
mod trace;
mod words;

pub use laws::{one_text_one_trace, print_is_read};
pub use line::PartJournal;
pub use lines::read;
pub use names::answer_name;
pub use refusal::TraceRefusal;
pub use trace::print;
