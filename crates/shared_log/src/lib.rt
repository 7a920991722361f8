//! Lists of record batches of which several may share their front.
//!
//! A list is a row of trees, the newest first, each with those before it behind a counted reference. So a second list
//! over the same batches costs nothing (`share`), and what is then done to one of them leaves the other as it is. A
//! push makes one node: over the last two trees where these are of one size, else a tree of one batch. Of n batches
//! there are at most 2 log n trees, none deeper than log n (Okasaki's skew-binary lists).
#![tactic(auto)]

mod batches;
mod front;
mod tree;

pub use batches::Batches;
