//! The metadata of remote segments: an entry for each segment, its states, and the events that change them.
//!
//! The first event of a segment adds its entry, when its copy starts; each further one moves it to the next state
//! (KIP-405). The type of an event is called `Event`; it has one spelling in bytes.
#![tactic(auto)]

mod custom;
mod fields;
mod laws;
mod note;
mod reading;
mod refusal;
mod state;
mod writing;

pub use custom::{bare_custom, copied_custom};
pub use laws::{a_note_has_one_spelling, a_written_note_is_read_again};
pub use note::{Entry, Note};
pub use reading::decode;
pub use refusal::NoteRefusal;
pub use state::next_state;
pub use writing::encode;
