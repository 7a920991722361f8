//! The whole script: its options, and the turns one after another.

ghost use Rattle.std.specs.Prelude.{◌≡◌, ◌≤◌, ◌++◌, length, IfOk, OnOk, string_bytes};
ghost use Rattle.load_gen.specs.Script.{options, turns as lines_of_turns, script_of as script};

use crate::draws::Draws;
use crate::turn;
use std::alloc::{AllocError, Global};

/// How many turns a script has.
const TURNS: u32 = 20_000;

/// The lines before the first turn.
const OPTIONS: &str = "brokers 3\n\
    partitions 4\n\
    segment_bytes 4096\n\
    retention_bytes 65536\n\
    local_retention_bytes 8192\n";

/// Takes so many turns, from a first state on.
fn write_turns(text: &mut String, count: u32, number: u32) -> Result<(), AllocError>
    ensures { OnOk result (string_bytes text.new
        ≡ string_bytes text.old ++ lines_of_turns count 0 number) }
{
    let mut draws = Draws { state: number };
    for i in 0..count {
        turn::take(text, &mut draws, i)?;
    }
    Ok(())
}

/// The script of a number, in about 1.6 million bytes. Fails only if memory runs out.
#[tactic(auto, using(crate::proofs::Lengths::script_short), unfolding(crate::specs::Script::script_of, crate::specs::Script::options))]
pub fn script_of(alloc: Global, number: u32) -> Result<Vec<u8>, AllocError>
    ensures script { IfOk result (λ text. text.items ≡ script number) }
    ensures short { IfOk result (λ text. length text.items ≤ 16777216) }
{
    let mut text = String::from_str(alloc, OPTIONS)?;
    write_turns(&mut text, TURNS, number)?;
    Ok(text.into_bytes())
}
