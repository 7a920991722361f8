//! Whether the remote tier has all of a part of a broker's log, and whether that part is due to go from its disk.

ghost use Rattle.std.specs.Prelude.{◌≡◌, ◌↔◌, map, nat_le, true, IfOk, IsTrue};
ghost use Rattle.remote_find.specs.Pieces.{covered_to};
ghost use Rattle.broker_log.specs.Seen.{closed_in};
ghost use Rattle.partition_commands.specs.Partition.{is_up};
ghost use Rattle.partition_world.specs.TurnsOfTrim.{item_of, IsDue, MayTrim};

use crate::tier::BrokerTierState;
use disk_model::Disk;
use epoch_line::Line;
use partition_commands::{Node, PartitionState};
use remote_find::find;
use remote_view::View;
use retention_rule::local_due;
use segment_file::Growing;
use std::alloc::{AllocError, Global};
use tier_base::{Item, Items, Keep};

/// Whether pieces of remote segments reach up to a top, one after another, from a place on.
fn reaches(view: &View, line: &Line, log_end: u64, at: u64, top: u64) -> bool
    ensures { result ≡ nat_le top (covered_to view.now.entries line.now log_end at) }
{
    // Reading both shows that a piece continues by an offset at least.
    let _entries = view.entries();
    let _line = line.entries();
    let mut place = at;
    // So there are no more of them than offsets.
    for _i in 0..log_end.saturating_sub(at) {
        if top <= place {
            return true;
        }
        let Some(piece) = find(view, line, log_end, place) else {
            return false;
        };
        place = piece.to;
    }
    top <= place
}

/// What retention asks about closed segments.
fn items(alloc: Global, closed: &[Growing]) -> Result<Items<Item>, AllocError>
    ensures { IfOk result (λ items. items ≡ map item_of closed.now) }
{
    let mut items = Items::new(alloc);
    for segment in closed {
        items.push(Item {
            // One without batches may end at 0.
            last: segment.end().saturating_sub(1),
            size: segment.size(),
            max_ts: segment.max_ts(),
        })?;
    }
    Ok(items)
}

/// Whether the local rule of retention takes the first closed segment of a broker's log.
fn is_due<D: Disk>(
    alloc: Global,
    node: &Node<D>,
    start: u64,
    now: i64,
    keep: Keep,
) -> Result<bool, AllocError>
    requires { is_up node.now ≡ true }
    ensures { IfOk result (λ due. IsTrue due ↔ IsDue node.now start now keep) }
{
    let open = node.open_size();
    let items = items(alloc, node.log.closed())?;
    Ok(local_due(items.as_slice(), open, now, keep, start))
}

/// Whether the first closed segment of a broker's local log may go.
pub(crate) fn may_trim<D: Disk>(
    alloc: Global,
    partition_state: &PartitionState<D>,
    node: &Node<D>,
    broker_tier: &BrokerTierState,
    keep: Keep,
) -> Result<bool, AllocError>
    requires { is_up node.now ≡ true }
    ensures { IfOk result (λ may. IsTrue may ↔ MayTrim partition_state.now node.now broker_tier.now keep) }
{
    if !node.log.may_drop() {
        return Ok(false);
    }
    let end = node.log.closed()[0].end();
    if end > node.known_high_watermark {
        return Ok(false);
    }
    let start = partition_state.registry.start;
    let from = node.local_start().max(start);
    if !reaches(&broker_tier.view, node.line(), node.end(), from, end) {
        return Ok(false);
    }
    is_due(alloc, node, start, partition_state.clock, keep)
}
