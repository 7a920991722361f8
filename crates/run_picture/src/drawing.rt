//! The drawing of a partition, as SVG.

use crate::lanes::{Line, push_broker, push_line, push_marks, push_remote};
use crate::plot::{GAP, HEIGHT, Scale, TOP, scale_of};
use crate::style::STYLE;
use crate::svg::{push_frame, push_label, push_mark, push_text};
use run_story::{Mark, Moment, Story};
use std::alloc::{AllocError, Global};
use std::fmt::Write;

/// Which drawing it is: the run and the partition, and the first entry.
#[derive(Clone, Copy)]
pub struct Place {
    /// The number of the run, from 1 on.
    pub run: usize,
    pub partition: u16,
    /// The first entry that is drawn.
    pub first: usize,
}

/// How many brokers there are.
fn count_brokers(moments: &[Moment]) -> usize {
    match moments.first() {
        Some(moment) => moment.logs.len(),
        None => 0,
    }
}

/// Where the bottom of a lane is.
fn bottom_of(lane: usize) -> u64 {
    let lanes = (lane as u64).saturating_add(1);
    TOP.saturating_add(lanes.saturating_mul(HEIGHT + GAP))
}

/// A coloured box of the legend with what it means.
fn push_key(out: &mut String, class: &str, x: u64, text: &str) -> Result<(), AllocError> {
    write!(
        out,
        "<rect class=\"{class}\" x=\"{x}\" y=\"8\" width=\"12\" height=\"12\"/>\n"
    )?;
    push_label(out, "key", x.saturating_add(17), 18, text)
}

/// A line of the legend with what it means.
fn push_line_key(out: &mut String, class: &str, x: u64, text: &str) -> Result<(), AllocError> {
    write!(out, "<path class=\"{class}\" d=\"M{x} 14h22\"/>\n")?;
    push_label(out, "key", x.saturating_add(27), 18, text)
}

/// A mark of the legend with what it means.
fn push_mark_key(out: &mut String, mark: Mark, x: u64, text: &str) -> Result<(), AllocError> {
    push_mark(out, mark, x, 36)?;
    push_label(out, "key", x.saturating_add(10), 40, text)
}

/// What colours, lines and marks mean.
fn push_legend(out: &mut String) -> Result<(), AllocError> {
    push_key(out, "e0", 104, "flushed (a colour a leader epoch)")?;
    push_key(out, "e0 soft", 340, "not flushed")?;
    push_key(out, "e0 off", 442, "broker down")?;
    push_key(out, "copying", 548, "being copied")?;
    push_key(out, "remote", 658, "remote segment")?;
    push_line_key(out, "high", 788, "high watermark")?;
    push_line_key(out, "start", 924, "log start offset")?;
    push_mark_key(out, Mark::Elected, 110, "elected")?;
    push_mark_key(out, Mark::Stopped, 190, "stopped")?;
    push_mark_key(out, Mark::Started, 274, "started")?;
    push_mark_key(out, Mark::Fault, 354, "fault or damage")?;
    push_mark_key(out, Mark::Refused, 490, "refused")
}

/// What is shown of an entry where the pointer is on it. It leads to the entry in the list.
fn push_entry(
    out: &mut String,
    place: &Place,
    x: u64,
    width: u64,
    height: u64,
    entry: usize,
    moment: &Moment,
) -> Result<(), AllocError> {
    let Place { run, partition, .. } = *place;
    let broker = moment.broker.0;
    write!(
        out,
        "<a href=\"#r{run}p{partition}e{entry}\"><rect class=\"entry\" x=\"{x}\" y=\"{TOP}\" width=\"{width}\" height=\"{height}\"/>"
    )?;
    write!(out, "<title>{entry}  broker {broker}: ")?;
    push_text(out, moment.asked.as_str())?;
    out.push_str("\n")?;
    push_text(out, moment.answered.as_str())?;
    out.push_str("</title></a>\n")
}

/// Each entry, from left to right.
fn push_entries(
    out: &mut String,
    scale: &Scale,
    place: &Place,
    moments: &[Moment],
    bottom: u64,
) -> Result<(), AllocError> {
    let height = bottom.saturating_sub(TOP);
    for (index, moment) in moments.iter().enumerate() {
        let entry = place.first.saturating_add(index);
        let x = scale.x(index as u64);
        push_entry(out, place, x, scale.step, height, entry, moment)?;
    }
    Ok(())
}

/// The numbers of entries under the lanes, 50 pixels apart at least.
fn push_times(
    out: &mut String,
    scale: &Scale,
    first: usize,
    bottom: u64,
) -> Result<(), AllocError> {
    let every = if scale.step >= 10 { 5 } else { 20 };
    let y = bottom.saturating_add(14);
    for index in 0..scale.count {
        let entry = (first as u64).saturating_add(index);
        if entry % every == 0 {
            let x = scale.x(index);
            write!(
                out,
                "<text class=\"time\" x=\"{x}\" y=\"{y}\">{entry}</text>\n"
            )?;
        }
    }
    Ok(())
}

/// The lanes of a partition.
fn push_lanes(
    alloc: Global,
    out: &mut String,
    scale: &Scale,
    story: &Story,
    moments: &[Moment],
) -> Result<(), AllocError> {
    let brokers = count_brokers(moments);
    for broker in 0..brokers {
        let bottom = bottom_of(broker);
        let name = format!(in alloc; "broker {broker}")?;
        let epochs = story.epochs.as_slice();
        push_frame(out, scale, bottom, name.as_str())?;
        push_broker(alloc, out, scale, epochs, moments, broker, bottom)?;
        push_line(out, scale, moments, Line::LogStart, bottom)?;
        push_line(out, scale, moments, Line::HighWatermark, bottom)?;
        push_marks(out, scale, moments, broker, bottom)?;
    }
    let bottom = bottom_of(brokers);
    push_frame(out, scale, bottom, "remote tier")?;
    push_remote(out, scale, story.remote.as_slice(), bottom)?;
    push_line(out, scale, moments, Line::LogStart, bottom)?;
    push_line(out, scale, moments, Line::HighWatermark, bottom)
}

/// Appends the drawing of a partition: of these moments, the first of which is of the place's first entry. One that
/// is alone has its own colours.
pub fn push_drawing(
    alloc: Global,
    out: &mut String,
    place: &Place,
    story: &Story,
    moments: &[Moment],
    is_alone: bool,
) -> Result<(), AllocError> {
    let scale = scale_of(moments, place.first);
    let bottom = bottom_of(count_brokers(moments));
    let width = scale.x(scale.count).max(1044).saturating_add(16);
    let height = bottom.saturating_add(24);
    let partition = place.partition;
    write!(
        out,
        "<svg xmlns=\"http://www.w3.org/2000/svg\" viewBox=\"0 0 {width} {height}\" width=\"{width}\" height=\"{height}\" role=\"img\" aria-label=\"partition {partition}\">\n"
    )?;
    if is_alone {
        out.push_str("<style>\n")?;
        out.push_str(STYLE)?;
        out.push_str("</style>\n<rect class=\"paper\" width=\"100%\" height=\"100%\"/>\n")?;
    }
    push_legend(out)?;
    push_lanes(alloc, out, &scale, story, moments)?;
    push_times(out, &scale, place.first, bottom)?;
    push_entries(out, &scale, place, moments, bottom)?;
    out.push_str("</svg>\n")
}
