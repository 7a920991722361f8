//! Looking up offsets in no order, the same in each run, and asking how far the copies go.

use epoch_line::Line;
use remote_find::{covered_to, find};
use remote_view::View;

/// The next number of a row in no order.
fn scrambled(state: u64) -> u64 {
    state
        .wrapping_mul(6_364_136_223_846_793_005)
        .wrapping_add(1_442_695_040_888_963_407)
}

/// Whether a piece is found that holds an offset.
fn is_found(view: &View, line: &Line, log_end: u64, offset: u64) -> bool {
    match find(view, line, log_end, offset) {
        Some(piece) => piece.from <= offset && offset < piece.to,
        None => false,
    }
}

/// Looks up so many offsets of a log, and counts those that are found.
pub fn count_found(view: &View, line: &Line, log_end: u64, offsets: u32) -> u32 {
    let mut state = 1u64;
    let mut found = 0u32;
    for _ in 0..offsets {
        state = scrambled(state);
        if is_found(view, line, log_end, (state >> 20) % log_end.max(1)) {
            found = found.saturating_add(1);
        }
    }
    found
}

/// Asks so many times how far copies go from offsets in the first ten on, and counts where that is the log's end.
pub fn count_covered(view: &View, line: &Line, log_end: u64, times: u32) -> u32 {
    let mut whole = 0u32;
    for time in 0..times {
        if covered_to(view, line, log_end, u64::from(time) % 10) == log_end {
            whole = whole.saturating_add(1);
        }
    }
    whole
}
