//! The rows of the script's table.

ghost use Rattle.std.specs.Prelude.{◌≡◌};
ghost use Rattle.load_gen.specs.Script.{row_of};

/// A row of the table: which command a turn writes.
#[derive(Clone, Copy, Debug, PartialEq, Eq)]
pub enum Row {
    Append,
    Follow,
    Join,
    Flush,
    Copy,
    Trim,
    Expire,
    Fetch,
    Clock,
}

/// The row that a number below 20 picks.
#[tactic(auto, unfolding(crate::specs::Script::row_of))]
pub fn picked_by(number: u32) -> Row
    ensures { result ≡ row_of number }
{
    match number {
        0..=5 => Row::Append,
        6 => Row::Follow,
        7 => Row::Join,
        8..=9 => Row::Flush,
        10..=11 => Row::Copy,
        12..=13 => Row::Trim,
        14 => Row::Expire,
        15..=18 => Row::Fetch,
        _ => Row::Clock,
    }
}
