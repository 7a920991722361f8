//! How a call of the program ends.

ghost use Rattle.std.specs.Prelude.{◌≡◌};

use script_lang::Why;
use std::alloc::{AllocError, Global};
use tier_base::{Blob, PartitionId};

/// How a call ends. The tests are made in this order: words, source, length, script, environment, sink.
#[derive(Debug, Drop)]
pub enum Status {
    /// All was done: a script run and its trace written, a load summed up, or each tier gone over and reported.
    Ok,
    /// The words have none of the forms.
    Usage,
    /// The line of this number, from 1 on, is the first that is invalid.
    BadScript {
        line: u32,
        why: Why,
    },
    /// A read of the script failed.
    ReadFault,
    /// A write of the trace failed, and a front of it was written.
    WriteFault,
    /// There was no memory.
    NoMemory,
    /// The script has more bytes than a script may have.
    TooLong,
    /// A call of the environment failed; or one of a device that it provided, before its partition's first command; or
    /// one of the disk of a partition's registry; or, in an audit or a sweep, one of a store or a metadata log.
    YardFault,
    /// Something is in the environment, and this is the first name of it in the order of bytes.
    NotEmpty {
        name: Blob,
    },
    /// The remote tier of this partition, the first such, isn't sound, and the audit was written all the same.
    Unsound {
        partition: PartitionId,
    },
    /// The registry of this partition, the first such, was kept for another count of brokers than the script has.
    Mismatch {
        partition: PartitionId,
        kept: u16,
        asked: u16,
    },
    /// The file of this partition's registry, the first such, is invalid: its first fault is at this byte.
    BadRegistry {
        partition: PartitionId,
        at: u32,
    },
}

impl Status {
    ghost use Rattle.tiered_call.specs.Statuses.{number_of};

    /// Returns the number with which the process ends.
    pub fn number(&self) -> u8
        ensures { result ≡ number_of self.now }
    {
        match self {
            Status::Ok => 0,
            Status::Usage => 2,
            Status::BadScript { .. } => 3,
            Status::ReadFault => 4,
            Status::WriteFault => 5,
            Status::NoMemory => 6,
            Status::TooLong => 7,
            Status::YardFault => 8,
            Status::NotEmpty { .. } => 9,
            Status::Unsound { .. } => 10,
            Status::Mismatch { .. } => 11,
            Status::BadRegistry { .. } => 12,
        }
    }

    /// Makes the line for standard error, which is empty where all was done.
    pub fn line(&self, alloc: Global) -> Result<String, AllocError> {
        match self {
            Status::Ok => Ok(String::new(alloc)),
            Status::Usage => String::from_str(
                alloc,
                "tiered: usage: tiered sim [--threads] or run DIR or gen N or audit DIR or sweep DIR\n",
            ),
            Status::BadScript { line, why } => format!(in alloc; "tiered: line {line}: {why}\n"),
            Status::ReadFault => String::from_str(alloc, "tiered: read fault\n"),
            Status::WriteFault => String::from_str(alloc, "tiered: write fault\n"),
            Status::NoMemory => String::from_str(alloc, "tiered: out of memory\n"),
            Status::TooLong => String::from_str(alloc, "tiered: script over 16777216 bytes\n"),
            Status::YardFault => String::from_str(alloc, "tiered: folder fault\n"),
            Status::NotEmpty { name } => not_empty(alloc, name.as_slice()),
            Status::Unsound { partition } => {
                let partition = partition.0;
                format!(in alloc; "tiered: partition {partition} unsound\n")
            }
            Status::Mismatch {
                partition,
                kept,
                asked,
            } => {
                let partition = partition.0;
                format!(in alloc; "tiered: partition {partition} has {kept} brokers, not {asked}\n")
            }
            Status::BadRegistry { partition, at } => {
                let partition = partition.0;
                format!(in alloc; "tiered: partition {partition} registry damaged at {at}\n")
            }
        }
    }
}

/// The line that reports what is in a folder.
fn not_empty(alloc: Global, name: &[u8]) -> Result<String, AllocError> {
    let name = on_one_line(alloc, name)?;
    format!(in alloc; "tiered: folder not empty: {name}\n")
}

/// Spells a name so that it breaks no line: U+FFFD represents what isn't UTF-8, and an escape for each control
/// character.
fn on_one_line(alloc: Global, name: &[u8]) -> Result<String, AllocError> {
    let name = String::from_utf8_lossy(alloc, name)?;
    let mut spelled = String::new(alloc);
    for c in name.chars() {
        if c.is_control() {
            write!(spelled, "{}", c.escape_default())?;
        } else {
            spelled.push(c)?;
        }
    }
    Ok(spelled)
}
