//! Where finished copies share offsets with others. specs/Spread.antt says what the two offsets mean.

ghost use Rattle.std.specs.Prelude.{◌≡◌, ◌<◌, ◌^◌};
ghost use Rattle.remote_view.specs.Spread.{spread_with, spread_after};

use crate::lookup::is_readable;
use segment_meta::Entry;
use tier_base::State;

/// No finished copy reaches `past`, and those that start at `alone` or after it share no offset with another.
#[derive(Clone, Copy, Debug)]
pub(crate) struct Spread {
    pub past: u64,
    pub alone: u64,
}

impl Spread {
    /// The offsets with a finished copy more.
    fn with(self, entry: &Entry) -> Spread
        requires { entry.now.end < 2 ^ 62 }
        ensures { result ≡ spread_with self entry.now }
    {
        let end = entry.end + 1;
        if self.past <= entry.start {
            return Spread {
                past: end,
                alone: self.alone,
            };
        }
        let past = self.past.max(end);
        Spread { past, alone: past }
    }

    /// The offsets once an entry has come to a state.
    pub fn after(self, entry: &Entry, state: State) -> Spread
        requires { entry.now.end < 2 ^ 62 }
        ensures { result ≡ spread_after self entry.now state }
    {
        if is_readable(state) {
            self.with(entry)
        } else {
            self
        }
    }
}
