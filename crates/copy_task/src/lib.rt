//! A leader's copy of a closed segment to the remote tier, turn by turn.
//!
//! Each device call of a copy is a turn of its own, so that stops, elections and other brokers may come between any
//! two of them. First a *copy started* event goes to the metadata log; then the objects are put, four of them, or one
//! with the four parts packed; then a *copy finished* event. What the log says of the copy after that decides the
//! answer, because an expiry may have overtaken it.
#![tactic(auto)]

mod choosing;
mod copying;
mod turn;
mod turns;

pub use choosing::candidate;
pub use copying::Copying;
pub use turn::CopyStep;
pub use turns::copy_turn;
