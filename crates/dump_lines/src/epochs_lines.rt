//! The lines of a leader-epoch checkpoint: a broker's `leader-epoch-checkpoint`, or a remote segment's `.epochs`.

ghost use Rattle.std.specs.Prelude.{◌≡◌, IfOk};
ghost use Rattle.dump_lines.specs.Lists.{epoch_fields};

use crate::field::{Field, Line, Name, Value};
use std::alloc::{AllocError, Global};

/// Returns the line of a leader epoch and its start offset. Fails only if memory runs out.
pub fn epoch_line(alloc: Global, entry: (u32, u64)) -> Result<Line, AllocError>
    ensures { IfOk result (λ line. line.items ≡ epoch_fields entry) }
{
    let line = Vec::from_array(
        alloc,
        [
            Field {
                name: Name::Epoch,
                value: Value::Unsigned(entry.0 as u64),
            },
            Field {
                name: Name::StartOffset,
                value: Value::Unsigned(entry.1),
            },
        ],
    )?;
    Ok(line)
}
