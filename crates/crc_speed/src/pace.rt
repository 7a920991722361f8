//! How long something took over a number of bytes.

ghost use Rattle.std.specs.Prelude.{◌≡◌, length, IfOk};
ghost use Rattle.batch_prims.specs.Crc.{crc32c as crc_of};

use crate::body::Body;
use std::rt::Clock;
use std::time::Instant;
use std::{fmt, io};

/// The time that a copy or a checksum took.
#[derive(Clone, Copy, Debug)]
pub struct Pace {
    pub micros: u128,
}

/// A part of a pace, as a number with three decimals.
#[derive(Clone, Copy, Debug)]
pub struct Part {
    pub thousandths: u128,
}

impl Pace {
    /// How many bytes a microsecond, which are megabytes a second.
    pub fn rate(&self, size: usize) -> u128 {
        size as u128 / self.micros.max(1)
    }

    /// Which part of the other pace this one is.
    pub fn part_of(&self, other: &Pace) -> Part {
        Part {
            thousandths: other.micros.saturating_mul(1000) / self.micros.max(1),
        }
    }
}

impl fmt::Display for Part {
    fn fmt<W: fmt::Write>(&self, f: &mut fmt::Formatter<W>) -> fmt::Result {
        let whole = self.thousandths / 1000;
        let rest = self.thousandths % 1000;
        write!(f, "{whole}.{rest:03}")
    }
}

/// Copies the bytes, and returns how long it took.
pub fn of_copy(rt: &impl Clock, bytes: &[u8], copy: &mut [u8]) -> io::Result<Pace>
    requires { length bytes.now ≡ length copy.old }
    ensures { IfOk result (λ _. copy.new ≡ bytes.now) }
{
    let start = Instant::now(rt)?;
    copy.copy_from_slice(bytes);
    let micros = start.elapsed(rt)?.as_micros();
    Ok(Pace { micros })
}

/// Takes the checksum by a body, and returns how long it took.
pub fn of_body(rt: &impl Clock, body: Body, bytes: &[u8]) -> io::Result<(u32, Pace)>
    ensures { IfOk result (λ x. x.0 ≡ crc_of bytes.now) }
{
    let start = Instant::now(rt)?;
    let checksum = body.checksum(bytes);
    let micros = start.elapsed(rt)?.as_micros();
    Ok((checksum, Pace { micros }))
}
