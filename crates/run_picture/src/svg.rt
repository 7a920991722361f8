//! The elements of a drawing.

use crate::plot::{HEIGHT, Scale};
use run_story::Mark;
use std::alloc::AllocError;
use std::fmt::Write;

/// Appends text, with what SVG and HTML take for themselves as references.
pub fn push_text(out: &mut String, text: &str) -> Result<(), AllocError> {
    for letter in text.chars() {
        match letter {
            '&' => out.push_str("&amp;")?,
            '<' => out.push_str("&lt;")?,
            '>' => out.push_str("&gt;")?,
            '"' => out.push_str("&quot;")?,
            other => out.push(other)?,
        }
    }
    Ok(())
}

/// Appends a box of offsets over entries: `left` and `right` in pixels, the lane's bottom, and the offsets.
pub fn push_box(
    out: &mut String,
    scale: &Scale,
    class: &str,
    sides: (u64, u64),
    bottom: u64,
    offsets: (u64, u64),
) -> Result<(), AllocError> {
    let (x, right) = sides;
    let low = scale.rise(offsets.0);
    let high = scale.rise(offsets.1);
    if high <= low || right <= x {
        return Ok(());
    }
    let y = bottom.saturating_sub(high);
    let width = right - x;
    let height = high - low;
    write!(
        out,
        "<rect class=\"{class}\" x=\"{x}\" y=\"{y}\" width=\"{width}\" height=\"{height}\"/>\n"
    )
}

/// Appends text of a class at a place.
pub fn push_label(
    out: &mut String,
    class: &str,
    x: u64,
    y: u64,
    text: &str,
) -> Result<(), AllocError> {
    write!(
        out,
        "<text class=\"{class}\" x=\"{x}\" y=\"{y}\">{text}</text>\n"
    )
}

/// The class and the shape of a mark, drawn around its middle.
fn shape(mark: Mark) -> Option<(&'static str, &'static str)> {
    match mark {
        Mark::Plain => None,
        Mark::Elected => Some(("elected", "M0-5 5 4H-5Z")),
        Mark::Stopped => Some(("stopped", "M-4-4 4 4M4-4-4 4")),
        Mark::Started => Some(("started", "M-4 0a4 4 0 1 0 8 0a4 4 0 1 0-8 0")),
        Mark::Fault => Some(("fault", "M0-6 5 0 0 6-5 0Z")),
        Mark::Refused => Some(("refused", "M-4 0a4 4 0 1 0 8 0a4 4 0 1 0-8 0")),
    }
}

/// Appends a mark around a place.
pub fn push_mark(out: &mut String, mark: Mark, x: u64, y: u64) -> Result<(), AllocError> {
    match shape(mark) {
        None => Ok(()),
        Some((class, path)) => write!(
            out,
            "<path class=\"mark {class}\" transform=\"translate({x} {y})\" d=\"{path}\"/>\n"
        ),
    }
}

/// Appends the frame of a lane, its name, and the offsets at its bottom and its top.
pub fn push_frame(
    out: &mut String,
    scale: &Scale,
    bottom: u64,
    name: &str,
) -> Result<(), AllocError> {
    let left = scale.x(0);
    let width = scale.x(scale.count).saturating_sub(left);
    let top = bottom.saturating_sub(HEIGHT);
    write!(
        out,
        "<rect class=\"lane\" x=\"{left}\" y=\"{top}\" width=\"{width}\" height=\"{HEIGHT}\"/>\n"
    )?;
    push_label(out, "name", 4, bottom.saturating_sub(HEIGHT / 2), name)?;
    let edge = left.saturating_sub(6);
    push_label(out, "scale", edge, bottom, "0")?;
    let y = top.saturating_add(9);
    let offset = scale.top;
    write!(
        out,
        "<text class=\"scale\" x=\"{edge}\" y=\"{y}\">{offset}</text>\n"
    )
}
