//! What a copy uploads of a closed log segment: four parts, each as an object of its own or packed into one.
//!
//! A `Bundle` is made in one pass over the segment and shares its bytes. It keeps what it was made of, so that
//! whoever makes it ahead of time can see whether it is still the right one.
#![tactic(auto)]

mod bundle;

pub use bundle::Bundle;
