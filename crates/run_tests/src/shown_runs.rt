//! What the documents and the examples show as run. Made by docs/snippets.py, which also reports a difference.

mod part_1;
mod part_2;
mod part_3;
mod part_4;
mod part_5;

/// How many scripts there are.
pub(crate) static COUNT: u32 = 57;

/// How many parts they stand in.
pub(crate) static PARTS: usize = 5;

/// A part's text: a script, a grave accent, its trace, a grave accent, and so on. A script's first line says where it
/// is shown.
pub(crate) fn text(part: usize) -> &'static str {
    match part {
        0 => part_1::RUNS,
        1 => part_2::RUNS,
        2 => part_3::RUNS,
        3 => part_4::RUNS,
        4 => part_5::RUNS,
        _ => "",
    }
}
