//! The page: for each partition its drawing, and beside it the commands with their answers as a list.

use crate::drawing::{Place, push_drawing};
use crate::style::{PAGE_STYLE, STYLE};
use crate::svg::push_text;
use run_story::{Mark, Moment, Story};
use std::alloc::{AllocError, Global};
use std::fmt::Write;

/// Appends what precedes the drawings.
pub fn push_head(out: &mut String) -> Result<(), AllocError> {
    out.push_str("<!DOCTYPE html>\n<html lang=\"en\">\n<head>\n<meta charset=\"utf-8\">\n")?;
    out.push_str("<meta name=\"viewport\" content=\"width=device-width\">\n")?;
    out.push_str("<title>A run of tiered</title>\n<style>\n")?;
    out.push_str(STYLE)?;
    out.push_str(PAGE_STYLE)?;
    out.push_str("</style>\n</head>\n<body>\n<h1>A run of tiered</h1>\n")?;
    out.push_str(
        "<p>Entries of the trace from left to right, offsets from bottom to top of a lane. ",
    )?;
    out.push_str("A broker's lane has its local log; the number in a box is the leader epoch. ")?;
    out.push_str("Point at an entry for its command and its answer.</p>\n")
}

/// Appends what is after the drawings.
pub fn push_foot(out: &mut String) -> Result<(), AllocError> {
    out.push_str("</body>\n</html>\n")
}

/// The word of a mark in the list.
fn word(mark: Mark) -> &'static str {
    match mark {
        Mark::Plain => "",
        Mark::Elected => " <b>elected</b>",
        Mark::Stopped => " <b>stopped</b>",
        Mark::Started => " <b>started</b>",
        Mark::Fault => " <b>fault</b>",
        Mark::Refused => " <b>refused</b>",
    }
}

/// An item of the list.
fn push_item(
    out: &mut String,
    place: &Place,
    entry: usize,
    moment: &Moment,
) -> Result<(), AllocError> {
    let Place { run, partition, .. } = *place;
    let broker = moment.broker.0;
    write!(
        out,
        "<li id=\"r{run}p{partition}e{entry}\">broker {broker}: "
    )?;
    push_text(out, moment.asked.as_str())?;
    out.push_str(word(moment.mark))?;
    out.push_str(" <span>")?;
    push_text(out, moment.answered.as_str())?;
    out.push_str("</span></li>\n")
}

/// The commands and their answers, as a list.
fn push_list(out: &mut String, place: &Place, moments: &[Moment]) -> Result<(), AllocError> {
    let first = place.first;
    write!(out, "<ol start=\"{first}\">\n")?;
    for (index, moment) in moments.iter().enumerate() {
        push_item(out, place, place.first.saturating_add(index), moment)?;
    }
    out.push_str("</ol>\n")
}

/// Appends a partition: its drawing and its list.
pub fn push_partition(
    alloc: Global,
    out: &mut String,
    place: &Place,
    story: &Story,
    moments: &[Moment],
) -> Result<(), AllocError> {
    let Place { run, partition, .. } = *place;
    write!(
        out,
        "<h2>Run {run}, partition {partition}</h2>\n<div class=\"run\">\n<figure>\n"
    )?;
    push_drawing(alloc, out, place, story, moments, false)?;
    out.push_str("</figure>\n")?;
    push_list(out, place, moments)?;
    out.push_str("</div>\n")
}
