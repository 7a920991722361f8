//! Which entries can be read, which of two is better, and what a log start leaves behind.

ghost use Rattle.std.specs.Prelude.{◌≡◌};
ghost use Rattle.std.specs.Option.{option_map};
ghost use Rattle.remote_view.specs.Lookup.{is_readable, is_gone, is_better, better_of, is_due, due};
ghost use Rattle.remote_view.specs.Places.{BeginsGone};

use segment_meta::Entry;
use tier_base::State;

/// Whether a segment can be read.
pub(crate) fn is_readable(state: State) -> bool
    ensures { result ≡ is_readable state }
{
    state == State::CopyFinished
}

/// Whether a segment's objects are gone.
fn is_gone(state: State) -> bool
    ensures { result ≡ is_gone state }
{
    state == State::DeleteFinished
}

/// Whether one ends later than the other, or with it and has the lesser id.
fn is_better(one: &Entry, other: &Entry) -> bool
    ensures { result ≡ is_better one.now other.now }
{
    one.end > other.end || one.end == other.end && one.id.0.as_u128() < other.id.0.as_u128()
}

/// The better of an entry that there may be and another.
pub(crate) fn better_of<'a>(best: Option<&'a Entry>, entry: &'a Entry) -> &'a Entry
    ensures { result.now ≡ better_of (option_map (λ e. e.now) best.entry) entry.now }
{
    match best {
        Some(best) if !is_better(entry, best) => best,
        _ => entry,
    }
}

/// Whether an entry ends below a log start, and its objects may still exist.
fn is_due(entry: &Entry, start: u64) -> bool
    ensures { result ≡ is_due start entry.now }
{
    entry.end < start && entry.state != State::DeleteFinished
}

/// The first entry that is due.
pub(crate) fn due_in(entries: &[Entry], start: u64) -> Option<&Entry>
    ensures { option_map (λ e. e.now) result ≡ due start entries.now }
{
    for entry in entries {
        if is_due(entry, start) {
            return Some(entry);
        }
    }
    None
}

/// Counts the entries in front whose objects are gone, from a count of such on.
pub(crate) fn gone_from(entries: &[Entry], count: usize) -> usize
    requires { BeginsGone count entries.now }
    ensures { BeginsGone result entries.now }
{
    let mut gone = count;
    while gone < entries.len() && is_gone(entries[gone].state) {
        gone += 1;
    }
    gone
}
