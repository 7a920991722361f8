//! The lines of a registry file: one for the partition, and one for each broker.

ghost use Rattle.std.specs.Prelude.{◌≡◌, ◌<◌, IfOk};
ghost use Rattle.dump_lines.specs.Lists.{partition_fields, replica_fields};
ghost use Rattle.dump_lines.specs.declared.field.Value.TheVariants as Value;

use crate::field::{Field, Line, Name, Value};
use registry::RegView;
use std::alloc::{AllocError, Global};

/// Returns the line of a partition. Fails only if memory runs out.
pub fn partition_line(alloc: Global, view: &RegView) -> Result<Line, AllocError>
    ensures { IfOk result (λ line. line.items ≡ partition_fields view.now) }
{
    let line = Vec::from_array(
        alloc,
        [
            unsigned(Name::Brokers, view.brokers as u64),
            unsigned(Name::LeaderEpoch, view.epoch as u64),
            unsigned(Name::Leader, view.leader.0 as u64),
            unsigned(Name::LogStartOffset, view.start),
            unsigned(Name::HighWatermark, view.mark),
        ],
    )?;
    Ok(line)
}

/// Returns the line of a broker: whether it is in the ISR, and its acknowledged end. Fails only if memory runs out.
pub fn replica_line(alloc: Global, view: &RegView, broker: u8) -> Result<Line, AllocError>
    requires { broker < 8 }
    ensures { IfOk result (λ line. line.items ≡ replica_fields view.now broker) }
{
    let in_sync = view.in_sync >> broker & 1 == 1;
    let line = Vec::from_array(
        alloc,
        [
            unsigned(Name::Broker, broker as u64),
            Field {
                name: Name::InSync,
                value: Value::Flag(in_sync),
            },
            unsigned(Name::AckedOffset, view.acked[broker as usize]),
        ],
    )?;
    Ok(line)
}

/// A field of a number.
fn unsigned(name: Name, number: u64) -> Field
    ensures { result ≡ record { name = name; value = Value.Unsigned number } }
{
    Field {
        name,
        value: Value::Unsigned(number),
    }
}
