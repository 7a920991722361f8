//! The run for a terminal of 100 columns: a line an entry, with a bar for each log.

use crate::drawing::Place;
use run_story::{LogState, Mark, Moment, RemoteSegment, Story};
use std::alloc::{AllocError, Global};
use std::fmt::Write;

/// What is left of 100 columns for the bars.
const BARS: usize = 51;

/// Appends letters up to a width, and blanks after them.
fn push_padded(out: &mut String, text: &str, width: usize) -> Result<(), AllocError> {
    let mut count: usize = 0;
    for letter in text.chars() {
        if count < width {
            out.push(letter)?;
            count += 1;
        }
    }
    for _ in count..width {
        out.push(' ')?;
    }
    Ok(())
}

/// The letter of a log at an offset.
fn letter(log: &LogState, offset: u64) -> char {
    if offset < log.local_start || offset >= log.end {
        '.'
    } else if !log.up {
        'x'
    } else if offset < log.flushed_end {
        '#'
    } else {
        '+'
    }
}

/// The offset at a column of a bar.
fn offset_at(top: u64, column: usize, width: usize) -> u64 {
    let part = column as u128 * top as u128 / width.max(1) as u128;
    u64::try_from(part).unwrap_or(u64::MAX)
}

/// Whether the remote tier has an offset after an entry.
fn is_remote(remote: &[RemoteSegment], entry: usize, offset: u64) -> bool {
    for segment in remote {
        let is_deleted = match segment.deleted {
            Some(at) => at <= entry,
            None => false,
        };
        let is_there = segment.copy_finished <= entry && !is_deleted;
        if is_there && segment.first_offset <= offset && offset <= segment.last_offset {
            return true;
        }
    }
    false
}

/// The bar of a log.
fn push_log(out: &mut String, top: u64, log: &LogState, width: usize) -> Result<(), AllocError> {
    out.push(' ')?;
    for column in 0..width {
        out.push(letter(log, offset_at(top, column, width)))?;
    }
    Ok(())
}

/// The bar of the remote tier.
fn push_remote(
    out: &mut String,
    top: u64,
    remote: &[RemoteSegment],
    entry: usize,
    width: usize,
) -> Result<(), AllocError> {
    out.push(' ')?;
    for column in 0..width {
        let offset = offset_at(top, column, width);
        out.push(if is_remote(remote, entry, offset) {
            '='
        } else {
            '.'
        })?;
    }
    Ok(())
}

/// The letter of a mark.
fn sign(mark: Mark) -> char {
    match mark {
        Mark::Plain => ' ',
        Mark::Elected => '^',
        Mark::Stopped => 'x',
        Mark::Started => 'o',
        Mark::Fault => '!',
        Mark::Refused => '-',
    }
}

/// The line of an entry.
fn push_moment(
    alloc: Global,
    out: &mut String,
    remote: &[RemoteSegment],
    top: u64,
    entry: usize,
    moment: &Moment,
) -> Result<(), AllocError> {
    let lanes = moment.logs.len().saturating_add(1);
    let width = (BARS / lanes.max(1)).saturating_sub(1);
    let broker = moment.broker.0;
    let front = format!(in alloc; "{entry} {broker}")?;
    push_padded(out, front.as_str(), 8)?;
    out.push(sign(moment.mark))?;
    out.push(' ')?;
    push_padded(out, moment.asked.as_str(), 18)?;
    out.push(' ')?;
    push_padded(out, moment.answered.as_str(), 18)?;
    for log in moment.logs.as_slice() {
        push_log(out, top, log, width)?;
    }
    push_remote(out, top, remote, entry, width)?;
    out.push('\n')
}

/// Appends the lines of a partition, of moments up to this offset.
pub fn push_lines(
    alloc: Global,
    out: &mut String,
    place: &Place,
    story: &Story,
    moments: &[Moment],
    top: u64,
) -> Result<(), AllocError> {
    let Place { run, partition, .. } = *place;
    write!(
        out,
        "run {run}, partition {partition}: entry, broker, command, answer, a bar a broker and one of the remote tier.\n"
    )?;
    write!(
        out,
        "Bars go from offset 0 to {top}: # flushed, + not flushed, x broker down, = remote segment.\n"
    )?;
    out.push_str("Marks: ^ elected, x stopped, o started, ! fault or damage, - refused.\n")?;
    for (index, moment) in moments.iter().enumerate() {
        let entry = place.first.saturating_add(index);
        push_moment(alloc, out, story.remote.as_slice(), top, entry, moment)?;
    }
    Ok(())
}
