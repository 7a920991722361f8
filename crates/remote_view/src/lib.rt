//! A broker's view of a partition's remote segments: what the metadata events that it has read add up to.
//!
//! Each broker reads the metadata log by itself and adds event after event, so two views differ only in how far their
//! brokers have read. specs/Fold.antt says what events add up to, specs/Lookup.antt what is found in that.
//!
//! Beside its entries a view keeps, for each leader epoch, which copy is the best at which offsets, as ranges (a
//! stair). So a lookup is a binary search, and only a finished copy or a started deletion changes the ranges, those of
//! its epochs: at their end or front in place, where copies finish and are deleted in the order of their offsets
//! (`in_place`), and else by ranges rebuilt (`stepping`). specs/Stairs.antt defines them. A stair also knows where a
//! row of copies ends that follow one another without a gap.
#![tactic(auto)]

mod changing;
mod epoch_ranges;
mod in_place;
mod known;
mod laws;
mod laying;
mod lifting;
mod lookup;
mod seeking;
mod spans;
mod spread;
mod stairs;
mod stepping;
mod tread;
mod view;

pub use laws::{a_view_is_the_fold, ids_of_a_view_are_distinct, what_is_found_is_best};
pub use spans::{Span, span_of};
pub use tread::Tread;
pub use view::View;
