//! Kafka's record batches, magic 2: how they are built of records, stamped with a base offset and a leader epoch,
//! checked, and read.
//!
//! The crates above keep a batch as its bytes. `build` makes one of records, `stamp` writes base offset and leader
//! epoch into it, `check` tests whether bytes from outside are one, `Checked` keeps them with what it found,
//! `read_head` reads only the head, and `records` copies the records out. The format is in the definitions: `Head` and
//! `Record` are its grammar, `Build` says what is written, and `Check` what is accepted. `laws` ties them together:
//! what was built is accepted, with any stamp, and has the records that it was built of.
#![tactic(auto)]

mod building;
mod checking;
mod head;
mod laws;
mod outcome;
mod parts;
mod reading;
mod rec;
mod refusal;
mod sizes;
mod spelling;
mod stamping;
mod times;
mod walking;

pub use building::build;
pub use checking::{check, read_head};
pub use head::Head;
pub use laws::{
    built_head_tells, built_is_checked, checked_is_batch, stamp_again_is_one_stamp,
    stamp_sets_base_and_epoch, stamped_head_tells, stamped_is_checked,
};
pub use outcome::{Checked, check_known};
pub use reading::records;
pub use rec::{Header, HeaderList, Rec};
pub use refusal::{BatchRefusal, BuildRefusal, HeadRefusal};
pub use sizes::built_size;
pub use stamping::stamp;
