//! A leader's lookup of an offset by timestamp, over both tiers of its log, turn by turn.
//!
//! A lookup goes through the log from the log start offset on, with a cursor: no batch that ends at or below the
//! cursor has the timestamp or a later one. In the remote tier it passes over segments by the greatest timestamps in
//! their metadata. Of the first one that isn't older it reads the time index, the offset index and the rest of the
//! log part, each in a turn. In the local log it passes over closed segments and reads one run. So stops, elections
//! and other commands may come between any two of its turns.
//!
//! Before each turn the caller tests that the broker hasn't stopped since the lookup began and still leads in that
//! epoch, that the cursor isn't below the log start offset, and that it is below the broker's high watermark. The
//! turns don't test this again.
#![tactic(auto)]

mod own;
mod passing;
mod run;
mod turn;
mod turns;

pub use own::own_turn;
pub use run::{Dated, date_in};
pub use turn::{Asked, SearchStep};
pub use turns::time_turn;
