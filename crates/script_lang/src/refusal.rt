//! Why a script is invalid.

ghost use Rattle.std.specs.Prelude.{◌≡◌};
ghost use Rattle.script_lang.specs.declared.refusal.LineRefusal.{LineRefusal};
ghost use Rattle.script_lang.specs.declared.refusal.ScriptRefusal.{ScriptRefusal};

use std::alloc::AllocError;
use std::{error, fmt};
use thiserror::Error;

/// Why a line is invalid. Of several causes the first in this order is reported. Of `Word`, `Number`, `Field` and `Hex`
/// it is the leftmost one in the line.
#[derive(Clone, Copy, Debug, PartialEq, Eq)]
pub enum Why {
    /// A byte is not allowed in a line.
    NotText,
    /// A word is unknown, missing, or one too many.
    Word,
    /// A number isn't decimal, or is out of its range.
    Number,
    /// A record, a key, a value or a header is invalid.
    Field,
    /// The bytes of `raw` aren't pairs of hexadecimal digits.
    Hex,
    /// An option comes after a command, or after a `later`, `turn` or `fault` line.
    TooLate,
    /// An option is given twice.
    Twice,
    /// The actor has commands of another partition.
    ActorPartition,
    /// A `turn` line names an actor that has no command before it.
    NoActor,
    /// There are more than 65,536 commands.
    TooMany,
    /// A batch has more than 1,048,576 bytes.
    BatchTooLarge,
    /// The sum over all fetches of the limit plus the largest batch is greater than 2^28 bytes.
    FetchSum,
    /// The number of copies, times the greater of `segment_bytes` and the largest batch, is greater than 2^31 bytes.
    CopySum,
    /// The `turn` lines have more than 1,048,576 turns together.
    TurnSum,
}

impl Why {
    /// Returns the name of the cause.
    fn name(self) -> &'static str {
        match self {
            Why::NotText => "NotText",
            Why::Word => "Word",
            Why::Number => "Number",
            Why::Field => "Field",
            Why::Hex => "Hex",
            Why::TooLate => "TooLate",
            Why::Twice => "Twice",
            Why::ActorPartition => "ActorPartition",
            Why::NoActor => "NoActor",
            Why::TooMany => "TooMany",
            Why::BatchTooLarge => "BatchTooLarge",
            Why::FetchSum => "FetchSum",
            Why::CopySum => "CopySum",
            Why::TurnSum => "TurnSum",
        }
    }
}

impl fmt::Display for Why {
    fn fmt<W: fmt::Write>(&self, f: &mut fmt::Formatter<W>) -> fmt::Result {
        f.write_str(self.name())
    }
}

impl error::Error for Why {}

/// Why a line is not read.
#[derive(Clone, Copy, Debug, PartialEq, Eq, Error)]
pub enum LineRefusal {
    /// It is invalid.
    #[error("{0}")]
    Because(Why),
    /// Out of memory.
    #[error("no memory")]
    NoMemory,
}

impl From<Why> for LineRefusal {
    ghost from_gives = { λ why refusal. refusal ≡ LineRefusal.Because why };

    fn from(why: Why) -> LineRefusal {
        LineRefusal::Because(why)
    }
}

impl From<AllocError> for LineRefusal {
    ghost from_gives = { λ e refusal. refusal ≡ LineRefusal.NoMemory };

    fn from(_: AllocError) -> LineRefusal {
        LineRefusal::NoMemory
    }
}

/// Why a script is not read. Of several invalid lines the first is reported.
#[derive(Clone, Copy, Debug, PartialEq, Eq, Error)]
pub enum ScriptRefusal {
    /// The line with this number, counted from 1, is invalid.
    #[error("line {line}: {why}")]
    Bad { line: u32, why: Why },
    /// Out of memory.
    #[error("no memory")]
    NoMemory,
}

impl From<AllocError> for ScriptRefusal {
    ghost from_gives = { λ e refusal. refusal ≡ ScriptRefusal.NoMemory };

    fn from(_: AllocError) -> ScriptRefusal {
        ScriptRefusal::NoMemory
    }
}
