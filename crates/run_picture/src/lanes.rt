//! A lane of a drawing: a broker's log or the remote tier, with the lines of the log start offset and the high
//! watermark.

use crate::plot::{HEIGHT, Scale};
use crate::spans::{Span, spans};
use crate::svg::{push_box, push_mark};
use run_story::{EpochStart, LogState, Moment, RemoteSegment};
use std::alloc::{AllocError, Global};
use std::fmt::Write;

/// The colours of leader epochs.
const COLOURS: u64 = 7;

/// A line that goes through all lanes.
#[derive(Clone, Copy)]
pub enum Line {
    LogStart,
    HighWatermark,
}

/// Whether the number of an epoch goes into this box: the first one of a greater epoch that has room for it.
fn is_numbered(scale: &Scale, sides: (u64, u64), span: &Span, numbered: Option<u64>) -> bool {
    let height = scale.rise(span.end).saturating_sub(scale.rise(span.start));
    let width = sides.1.saturating_sub(sides.0);
    let is_new = match numbered {
        Some(epoch) => span.epoch > epoch,
        None => true,
    };
    is_new && height >= 12 && width >= 12
}

/// The number of an epoch in a box.
fn push_number(
    out: &mut String,
    scale: &Scale,
    left: u64,
    bottom: u64,
    span: &Span,
) -> Result<(), AllocError> {
    let x = left.saturating_add(3);
    let y = bottom
        .saturating_sub(scale.rise(span.start))
        .saturating_sub(3);
    let epoch = span.epoch;
    write!(
        out,
        "<text class=\"epoch\" x=\"{x}\" y=\"{y}\">{epoch}</text>\n"
    )
}

/// A log that stays as it is between two places. `numbered` is the greatest epoch whose number the lane has.
fn push_log(
    alloc: Global,
    out: &mut String,
    scale: &Scale,
    epochs: &[EpochStart],
    sides: (u64, u64),
    bottom: u64,
    log: &LogState,
    numbered: &mut Option<u64>,
) -> Result<(), AllocError> {
    let spans = spans(alloc, epochs, log)?;
    for span in spans.as_slice() {
        let colour = span.epoch % COLOURS;
        let soft = if span.is_flushed { "" } else { " soft" };
        let off = if log.up { "" } else { " off" };
        let class = format!(in alloc; "e{colour}{soft}{off}")?;
        push_box(
            out,
            scale,
            class.as_str(),
            sides,
            bottom,
            (span.start, span.end),
        )?;
        if is_numbered(scale, sides, span, *numbered) {
            push_number(out, scale, sides.0, bottom, span)?;
            *numbered = Some(span.epoch);
        }
    }
    Ok(())
}

/// The log of a broker in a moment.
fn log_in(moments: &[Moment], index: usize, broker: usize) -> Option<&LogState> {
    match moments.get(index) {
        Some(moment) => moment.logs.as_slice().get(broker),
        None => None,
    }
}

/// Whether two logs are drawn the same.
fn is_alike(log: &LogState, next: Option<&LogState>) -> bool {
    match next {
        Some(next) => *log == *next,
        None => false,
    }
}

/// Appends a broker's log: boxes for each stretch of entries in which it stays as it is.
pub fn push_broker(
    alloc: Global,
    out: &mut String,
    scale: &Scale,
    epochs: &[EpochStart],
    moments: &[Moment],
    broker: usize,
    bottom: u64,
) -> Result<(), AllocError> {
    let mut begun: u64 = 0;
    let mut numbered = None;
    for index in 0..moments.len() {
        if let Some(log) = log_in(moments, index, broker) {
            let next = index + 1;
            if !is_alike(log, log_in(moments, next, broker)) {
                let sides = (scale.x(begun), scale.x(next as u64));
                push_log(alloc, out, scale, epochs, sides, bottom, log, &mut numbered)?;
                begun = next as u64;
            }
        }
    }
    Ok(())
}

/// Appends the remote tier: each segment from the start of its copy to its deletion.
pub fn push_remote(
    out: &mut String,
    scale: &Scale,
    remote: &[RemoteSegment],
    bottom: u64,
) -> Result<(), AllocError> {
    for segment in remote {
        let offsets = (segment.first_offset, segment.last_offset.saturating_add(1));
        let started = scale.x_of(segment.copy_started);
        let finished = scale.x_of(segment.copy_finished);
        let deleted = match segment.deleted {
            Some(entry) => scale.x_of(entry),
            None => scale.x(scale.count),
        };
        push_box(out, scale, "copying", (started, finished), bottom, offsets)?;
        push_box(out, scale, "remote", (finished, deleted), bottom, offsets)?;
    }
    Ok(())
}

/// The offset of a line in a moment.
fn offset_of(line: Line, moment: &Moment) -> u64 {
    match line {
        Line::LogStart => moment.log_start,
        Line::HighWatermark => moment.high_watermark,
    }
}

/// Appends a line through a lane.
pub fn push_line(
    out: &mut String,
    scale: &Scale,
    moments: &[Moment],
    line: Line,
    bottom: u64,
) -> Result<(), AllocError> {
    let class = match line {
        Line::LogStart => "start",
        Line::HighWatermark => "high",
    };
    write!(out, "<path class=\"{class}\" d=\"")?;
    for (index, moment) in moments.iter().enumerate() {
        let y = bottom.saturating_sub(scale.rise(offset_of(line, moment)));
        let left = scale.x(index as u64);
        let right = scale.x(index as u64 + 1);
        if index == 0 {
            write!(out, "M{left} {y}")?;
        }
        write!(out, "V{y}H{right}")?;
    }
    out.push_str("\"/>\n")
}

/// Appends the marks of a broker's commands, above its lane.
pub fn push_marks(
    out: &mut String,
    scale: &Scale,
    moments: &[Moment],
    broker: usize,
    bottom: u64,
) -> Result<(), AllocError> {
    let y = bottom.saturating_sub(HEIGHT + 8);
    for (index, moment) in moments.iter().enumerate() {
        if moment.broker.0 as usize == broker {
            let x = scale.x(index as u64).saturating_add(scale.step / 2);
            push_mark(out, moment.mark, x, y)?;
        }
    }
    Ok(())
}
