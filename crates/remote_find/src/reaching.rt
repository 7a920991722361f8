//! How far the remote tier has all of a log, from an offset on.
//!
//! Within a leader epoch the view knows at once how far copies go. So pieces are passed an epoch at a time, however
//! many there are.

ghost use Rattle.std.specs.Prelude.{◌≡◌, ◌≤◌, ◌<◌, ℕ, true, None, IsSome};
ghost use Rattle.std.specs.List.{AllByRecursion};
ghost use Rattle.remote_find.specs.Pieces.{piece_at, covered_to};

use crate::pieces::followed;
use epoch_line::Line;
use remote_view::{View, span_of};

/// Whether no epoch of a line starts past the log's end.
fn is_within(line: &Line, log_end: u64) -> bool
    ensures { result ≡ true → AllByRecursion (λ start. start.1 ≤ log_end) line.now }
{
    // Reading them shows that they rise.
    let _entries = line.entries();
    match line.last() {
        Some(last) => last.1 <= log_end,
        None => true,
    }
}

/// How far copies go from an offset on in the epoch that the leader epochs have there. At that end another epoch may
/// continue.
fn end_in_epoch(view: &View, line: &Line, log_end: u64, at: u64) -> u64
    ensures from { at ≤ result }
    ensures each { (o : ℕ) → at ≤ o → o < result → IsSome (piece_at view.now.entries line.now log_end o) }
    ensures none { result ≡ at → piece_at view.now.entries line.now log_end at ≡ None }
{
    // Reading both shows that their entries are in order.
    let _entries = view.entries();
    let _line = line.entries();
    if at >= log_end {
        return at;
    }
    let Some(epoch) = line.epoch_at(at) else {
        return at;
    };
    let Some(own) = span_of(line.entries(), epoch, log_end) else {
        return at;
    };
    view.reach(epoch, at).min(own.to).min(log_end)
}

/// The offset up to which the remote tier has the log from `at` on without a gap; `at` itself if it doesn't have that
/// offset.
pub fn covered_to(view: &View, line: &Line, log_end: u64, at: u64) -> u64
    ensures { result ≡ covered_to view.now.entries line.now log_end at }
{
    if !is_within(line, log_end) {
        return followed(view, line, log_end, at);
    }
    let _entries = view.entries();
    let _line = line.entries();
    let mut place = at;
    loop {
        let end = end_in_epoch(view, line, log_end, place);
        if end == place {
            return place;
        }
        place = end;
    }
}
