//! A turn of the script: two draws pick a partition and a row, and the row's lines are written.

ghost use Rattle.std.specs.Prelude.{◌≡◌, ◌<◌, ◌++◌, OnOk, string_bytes};
ghost use Rattle.load_gen.specs.Script.{next, lines_of, after_row, turn as lines_of_turn, after_turn};

use crate::draws::Draws;
use crate::lines;
use crate::row::{self, Row};
use std::alloc::AllocError;

/// Writes the lines of a row, with what the row draws.
#[tactic(auto, unfolding(crate::specs::Script::lines_of))]
fn write_row(
    text: &mut String,
    draws: &mut Draws,
    row: Row,
    turn: u32,
    partition: u32,
) -> Result<(), AllocError>
    requires { partition < 4 }
    ensures text { OnOk result (string_bytes text.new
        ≡ string_bytes text.old ++ lines_of row turn partition (next draws.old.state)) }
    ensures draws { OnOk result (draws.new.state ≡ after_row row draws.old.state) }
{
    match row {
        Row::Append => {
            let count = draws.below(200) + 1;
            lines::append(text, turn, partition, count)
        }
        Row::Follow => {
            let broker = draws.below(2) + 1;
            lines::line(text, 4 * partition + 1, partition, broker, "follow 8192")
        }
        Row::Join => {
            let broker = draws.below(2) + 1;
            lines::line(text, 4 * partition + 1, partition, broker, "join")
        }
        Row::Flush => {
            let broker = draws.below(3);
            lines::line(text, 4 * partition + 1, partition, broker, "flush")?;
            lines::line(text, 4 * partition + 1, partition, broker, "ack")
        }
        Row::Copy => lines::line(text, 4 * partition + 2, partition, 0, "copy"),
        Row::Trim => {
            let broker = draws.below(3);
            lines::line(text, 4 * partition + 2, partition, broker, "trim")
        }
        Row::Expire => lines::line(text, 4 * partition + 3, partition, 0, "expire"),
        Row::Fetch => {
            let offset = draws.below(1500);
            lines::fetch(text, partition, offset)
        }
        Row::Clock => lines::clock(text, turn, partition),
    }
}

/// Takes the turn of this number.
#[tactic(auto, unfolding(crate::specs::Script::turn, crate::specs::Script::after_turn))]
pub fn take(text: &mut String, draws: &mut Draws, number: u32) -> Result<(), AllocError>
    ensures text { OnOk result (string_bytes text.new
        ≡ string_bytes text.old ++ lines_of_turn number draws.old.state) }
    ensures draws { OnOk result (draws.new.state ≡ after_turn draws.old.state) }
{
    let partition = draws.below(4);
    let row = row::picked_by(draws.below(20));
    write_row(text, draws, row, number, partition)
}
