//! Keys in an order: partition, id, and then part.

ghost use Rattle.std.specs.Prelude.{◌≡◌};
ghost use Rattle.object_store.specs.Shelf.{rank_of, part_at, slot_of, key_at};

use tier_base::{ObjectKey, Part, PartitionId, SegmentId};

/// A part's place among the parts of a segment.
#[derive(Clone, Copy, PartialEq, Eq, PartialOrd, Ord)]
pub enum PartOrder {
    First,
    Second,
    Third,
    Fourth,
    Fifth,
}

/// A key, as it is in the order.
#[derive(Clone, Copy, PartialEq, Eq, PartialOrd, Ord)]
pub struct Slot {
    pub partition: PartitionId,
    pub id: SegmentId,
    pub rank: PartOrder,
}

fn rank_of(part: Part) -> PartOrder
    ensures { result ≡ rank_of part }
{
    match part {
        Part::Log => PartOrder::First,
        Part::Index => PartOrder::Second,
        Part::TimeIndex => PartOrder::Third,
        Part::Epochs => PartOrder::Fourth,
        Part::Pack => PartOrder::Fifth,
    }
}

fn part_at(rank: PartOrder) -> Part
    ensures { result ≡ part_at rank }
{
    match rank {
        PartOrder::First => Part::Log,
        PartOrder::Second => Part::Index,
        PartOrder::Third => Part::TimeIndex,
        PartOrder::Fourth => Part::Epochs,
        PartOrder::Fifth => Part::Pack,
    }
}

/// The slot of a key.
pub fn slot_of(key: &ObjectKey) -> Slot
    ensures { result ≡ slot_of key.now }
{
    Slot {
        partition: key.partition,
        id: key.id,
        rank: rank_of(key.part),
    }
}

/// The key of a slot.
pub fn key_at(slot: &Slot) -> ObjectKey
    ensures { result ≡ key_at slot.now }
{
    ObjectKey {
        partition: slot.partition,
        id: slot.id,
        part: part_at(slot.rank),
    }
}
