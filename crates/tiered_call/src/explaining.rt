//! What follows a status's line on standard error: an example of a call after that on usage, and the explanation of a
//! refused line.
//!
//! A refused line is explained to a person alone, on a terminal: what else takes standard error is given one line. So
//! the script's bytes are kept only where standard error is a terminal.

ghost use Rattle.std.specs.Prelude.{◌≡◌};

use crate::status::Status;
use script_help::{KeptSource, explanation};
use std::alloc::{AllocError, Global};
use std::io::IsTerminal;
use tier_base::Source;

/// What follows the line on usage.
const EXAMPLE: &str = "\
for example: tiered sim < examples/first.script
tiered --help tells more
";

/// The source of a script, which keeps the bytes that it gives where standard error is a terminal.
pub fn script_source<R: Source + Drop>(rt: &HostRuntime, source: R) -> KeptSource<R>
    ensures left { ⟦<KeptSource<R> as Source>⟧.left result ≡ R.left source }
    ensures faults { ⟦<KeptSource<R> as Source>⟧.faults result ≡ R.faults source }
    ensures given { ⟦<KeptSource<R> as Source>⟧.given result ≡ R.given source }
{
    if rt.stderr().is_terminal() {
        KeptSource::new(rt.alloc(), source)
    } else {
        KeptSource::passing(source)
    }
}

/// Makes the lines that follow a status's line, where the bytes of the script were kept or where none is asked for.
/// Fails only if memory runs out.
pub fn explained(alloc: Global, status: &Status, script: &[u8]) -> Result<String, AllocError> {
    match status {
        Status::Usage => String::from_str(alloc, EXAMPLE),
        Status::BadScript { line, why } if !script.is_empty() => {
            explanation(alloc, script, *line, *why)
        }
        _ => Ok(String::new(alloc)),
    }
}
