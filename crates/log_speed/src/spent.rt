//! How long calls of one kind took: in the mean, and in the fastest hundred of them.
//!
//! On a busy machine a mean tells of the other work too, and the fastest hundred calls one after another hardly.

use std::rt::Clock;
use std::time::Instant;
use std::{fmt, io};

/// How many calls one after another make a row.
const ROW: u64 = 100;

/// Calls, the nanoseconds of all of them, of those of the row that isn't full yet, and of the fastest full row.
#[derive(Clone, Copy, Debug)]
pub struct Spent {
    calls: u64,
    nanos: u128,
    row: u128,
    fastest: Option<u128>,
}

/// The calls of a log.
#[derive(Clone, Copy, Debug)]
pub struct Times {
    pub appends: Spent,
    pub flushes: Spent,
    pub reads: Spent,
    pub in_order: Spent,
    pub openings: Spent,
}

impl Spent {
    fn new() -> Spent {
        Spent {
            calls: 0,
            nanos: 0,
            row: 0,
            fastest: None,
        }
    }

    /// Counts a call that began then and has ended.
    pub fn note(&mut self, rt: &impl Clock, start: Instant) -> io::Result<()> {
        let nanos = start.elapsed(rt)?.as_nanos();
        self.calls = self.calls.saturating_add(1);
        self.nanos = self.nanos.saturating_add(nanos);
        self.row = self.row.saturating_add(nanos);
        if self.calls % ROW == 0 {
            let row = self.row;
            self.fastest = Some(self.fastest.map_or(row, |fastest| fastest.min(row)));
            self.row = 0;
        }
        Ok(())
    }
}

impl Times {
    /// Makes the times of no calls.
    pub fn new() -> Times {
        Times {
            appends: Spent::new(),
            flushes: Spent::new(),
            reads: Spent::new(),
            in_order: Spent::new(),
            openings: Spent::new(),
        }
    }
}

impl fmt::Display for Spent {
    fn fmt<W: fmt::Write>(&self, f: &mut fmt::Formatter<W>) -> fmt::Result {
        let each = self.nanos / u128::from(self.calls.max(1));
        let calls = self.calls;
        write!(f, "{calls} of {each} ns")?;
        match self.fastest {
            Some(row) => write!(f, " (fastest {})", row / u128::from(ROW)),
            None => Ok(()),
        }
    }
}

impl fmt::Display for Times {
    fn fmt<W: fmt::Write>(&self, f: &mut fmt::Formatter<W>) -> fmt::Result {
        write!(
            f,
            "appends {}, flushes {}, reads {}, in order {}, openings {}",
            self.appends, self.flushes, self.reads, self.in_order, self.openings
        )
    }
}
