//! The commands of a partition on its registry and on its brokers' local logs, turn by turn, over any disks.
//!
//! `specs/Turns.antt` says for each command what it returns and what that changes, its row; the code proves its row and
//! nothing else. If the disks are observable, each row is one of the partition as it is seen (the crate
//! `laws_partition`): that is a law over the rows. So are that each row keeps what later turns need, that the disks'
//! plans last, and that over disks of which no call can fail no command returns a fault.
//!
//! A partition has 1 to 8 brokers: one leads, others follow, and elections, stops and starts change which. A broker
//! that stops closes its log, and one that starts opens it again from its disk. A follow takes two turns, and anything
//! may come between them and end it. A command on the remote tier is begun here, or done in parts; the crate above
//! leads it.
#![tactic(auto)]

mod elections;
mod followers;
mod laws;
mod making;
mod offsets;
mod own_log;
mod partition_state;
mod refusal;
mod roles;
mod stops;

pub use laws::{rows_are_seen, rows_keep_sound, rows_last, rows_stay_infallible};
pub use partition_state::{Node, PartitionState};
pub use refusal::WorldRefusal;
pub use roles::leading;
