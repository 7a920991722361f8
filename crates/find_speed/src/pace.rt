//! How long something took that was done so many times.

use std::fmt;
use std::time::Duration;

/// What one time took in the mean.
#[derive(Clone, Copy, Debug)]
pub struct Pace {
    pub nanos: u128,
}

impl Pace {
    /// The pace of so many times, if there are any.
    pub fn new(took: Duration, times: u32) -> Pace {
        Pace {
            nanos: took.as_nanos() / u128::from(times.max(1)),
        }
    }
}

impl fmt::Display for Pace {
    fn fmt<W: fmt::Write>(&self, f: &mut fmt::Formatter<W>) -> fmt::Result {
        write!(f, "{} ns", self.nanos)
    }
}
