//! The terms that all definitions about logs share: a batch's fields, consecutive batches, leader epochs.
//!
//! There is no code here, only definitions and laws. The crates above cite them, so that each term has one meaning.
#![tactic(auto)]
