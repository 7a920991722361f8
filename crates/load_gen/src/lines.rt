//! A script's lines, as text.

ghost use Rattle.std.specs.Prelude.{◌≡◌, ◌+◌, ◌*◌, ◌%◌, ◌<◌, ◌∷◌, [], ◌++◌, OnOk, string_bytes, codes};
ghost use Rattle.std.specs.Fmt.{decimal};
ghost use Rattle.load_gen.specs.Script.{hex_digit as digit_of, hex_run, front as front_of, line as line_of};

use std::alloc::AllocError;
use std::fmt::Write;

/// Writes the three words before a command.
#[tactic(auto, unfolding(crate::specs::Script::front))]
fn front(text: &mut String, actor: u32, partition: u32, broker: u32) -> Result<(), AllocError>
    ensures { OnOk result (string_bytes text.new
        ≡ string_bytes text.old ++ front_of actor partition broker) }
{
    write!(text, "{actor} {partition} {broker} ")
}

/// Writes a command without arguments, or with ones that are always the same.
#[tactic(auto, unfolding(crate::specs::Script::line))]
pub fn line(
    text: &mut String,
    actor: u32,
    partition: u32,
    broker: u32,
    command: &str,
) -> Result<(), AllocError>
    ensures { OnOk result (string_bytes text.new
        ≡ string_bytes text.old ++ line_of actor partition broker command.now) }
{
    front(text, actor, partition, broker)?;
    writeln!(text, "{command}")
}

/// A hexadecimal digit.
#[tactic(auto, unfolding(crate::specs::Script::hex_digit))]
fn hex_digit(number: u32) -> char
    requires { number < 16 }
    ensures digit { result ≡ digit_of number }
    ensures ascii { result < 128 }
{
    if number < 10 {
        (b'0' + number as u8) as char
    } else {
        (b'a' + (number - 10) as u8) as char
    }
}

/// Writes a byte's two hexadecimal digits, so many times.
fn hex_digits(text: &mut String, count: u32, byte: u32) -> Result<(), AllocError>
    requires { byte < 256 }
    ensures { OnOk result (string_bytes text.new ≡ string_bytes text.old ++ hex_run count byte) }
{
    let high = hex_digit(byte / 16);
    let low = hex_digit(byte % 16);
    for _ in 0..count {
        text.push(high)?;
        text.push(low)?;
    }
    Ok(())
}

/// Writes an append: a record with the turn's number as its timestamp, no key, and one byte so many
/// times as its value.
#[tactic(auto, unfolding(crate::specs::Script::line))]
pub fn append(text: &mut String, turn: u32, partition: u32, count: u32) -> Result<(), AllocError>
    requires { partition < 4 }
    ensures { OnOk result (string_bytes text.new
        ≡ string_bytes text.old ++ line_of (4 * partition) partition 0
        (codes "append " ++ decimal turn ++ codes ",-,x" ++ hex_run count (turn % 256))) }
{
    front(text, 4 * partition, partition, 0)?;
    write!(text, "append {turn},-,x")?;
    hex_digits(text, count, turn % 256)?;
    text.push_str("\n")
}

/// Writes a fetch.
#[tactic(auto, unfolding(crate::specs::Script::line))]
pub fn fetch(text: &mut String, partition: u32, offset: u32) -> Result<(), AllocError>
    requires { partition < 4 }
    ensures { OnOk result (string_bytes text.new
        ≡ string_bytes text.old ++ line_of (4 * partition) partition 0
        (codes "fetch " ++ decimal offset ++ codes " 4096")) }
{
    front(text, 4 * partition, partition, 0)?;
    writeln!(text, "fetch {offset} 4096")
}

/// Writes the turn's number as the clock, whose broker is written `-`.
pub fn clock(text: &mut String, turn: u32, partition: u32) -> Result<(), AllocError>
    requires { partition < 4 }
    ensures { OnOk result (string_bytes text.new
        ≡ string_bytes text.old ++ decimal (4 * partition) ++ 32 ∷ decimal partition
        ++ codes " - clock " ++ decimal turn ++ 10 ∷ []) }
{
    let actor = 4 * partition;
    writeln!(text, "{actor} {partition} - clock {turn}")
}
