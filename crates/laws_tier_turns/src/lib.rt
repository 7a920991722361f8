//! Laws of a partition beside its remote tier: turns of commands that don't work on the tier keep it safe.
//!
//! What a broker knows of the tier is its view, its index cache and the number of its next copy; beside its own state
//! these are its tier state (`specs/BrokerTiers.antt`). Each turn of a command that calls no remote device is a step of
//! the plain log, and changes the tier only as its rules allow: the brokers' tier states follow the step, a trim or a
//! rebuild lets a local log start later, and a join records its rebuild as in progress (`specs/Laws.antt`).
//!
//! If a command also calls a remote device, the brokers' tier states follow its answer in the same way. The laws of
//! what it does there are elsewhere; those of copies and expiries are in `tier_safe`.
#![tactic(auto)]

mod laws;

pub use laws::{fresh_tier, own_turns_change, tier_views_follow, turns_keep_safe};
