//! A log segment's bytes as record batches, one after another.
//!
//! `walk` says what is at a position, and `take_run` cuts out the run of batches that a fetch returns. `Growing` is
//! what memory keeps of the open segment, to which batches are appended, its offset index included. `Closed` is a
//! segment that is whole: its bytes are read once, and its indexes are made of them.
#![tactic(auto)]

mod closed;
mod gathering;
mod growing;
mod laws;
mod marking;
mod placed;
mod reaching;
mod refusal;
mod taking;
mod walking;

pub use closed::Closed;
pub use growing::Growing;
pub use laws::{
    a_batch_is_found, a_batch_is_placed_last, a_cut_keeps_batches, a_head_places_its_batch,
    a_segment_is_read_in_one_way, each_batch_has_an_entry_near,
    no_batch_is_later_than_the_time_index, placed_batches_end, placed_batches_part,
};
pub use placed::Placed;
pub use refusal::ClosedRefusal;
pub use taking::{BadAt, Cutout, take_run};
pub use walking::{Found, walk};
