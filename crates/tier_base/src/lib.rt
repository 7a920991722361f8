//! Types that all crates use: lists that contracts can compare, ids and names, sources and sinks of bytes, and the
//! accounting of device faults.
//!
//! `Row`, `Roll` and `Blob` are vectors that a contract compares by content. A `Source` and a `Sink` count their
//! faults, so that each failure that a call above returns has its cause here; where it is observable, their ghost
//! members say which bytes they returned and took. `read_all` and `write_all` use them.
//!
//! `FaultPlan` decides for a device in memory which of its calls fail, done or not, and counts the calls.
//! specs/Device.antt says what can be observed of that for every device.
#![tactic(auto)]

mod blob;
mod ending;
mod fault;
mod fault_plan;
mod items;
mod laws;
mod layout;
mod memory_sink;
mod memory_source;
mod names;
mod nexts;
mod numeral;
mod object_key;
mod plain;
mod planned;
mod reading;
mod reserved;
mod std_sink;
mod std_source;
mod stream;
mod writing;

pub use blob::Blob;
pub use ending::{Ending, give};
pub use fault::{Failed, Trouble};
pub use fault_plan::FaultPlan;
pub use items::Items;
pub use laws::{a_written_layout_is_read_again, ids_differ};
pub use layout::Layout;
pub use memory_sink::MemorySink;
pub use memory_source::MemorySource;
pub use names::{ActorId, BrokerId, PartitionId, SegmentId, segment_id};
pub use numeral::number;
pub use object_key::ObjectKey;
pub use plain::{FileName, Item, Keep, OFFSET_LIMIT, Part, Settings, State, Stop};
pub use planned::{CallKind, Planned};
pub use reading::{ReadRefusal, read_all};
pub use reserved::Reserved;
pub use std_sink::StdSink;
pub use std_source::StdSource;
pub use stream::{Sink, Source};
pub use writing::write_all;
