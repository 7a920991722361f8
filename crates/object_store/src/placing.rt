//! Where the parts of a remote segment are in the store, and the keys of its objects.
//!
//! Keys are made here and nowhere else.

ghost use Rattle.std.specs.Prelude.{◌≡◌, ◌+◌, ◌<◌, ◌^◌, length, Some, IfSome, slice_get, option_map};
ghost use Rattle.object_store.specs.Place.{key_of, keys_of, spot_of, part_of, at_in, length_in, told_layout};

use std::marker::Model;
use tier_base::{Blob, Layout, ObjectKey, Part, PartitionId, SegmentId};

/// The place of a part of a segment.
#[derive(Clone, Copy, Debug, PartialEq, Eq)]
pub struct Spot {
    /// The key of its object.
    pub key: ObjectKey,
    /// Where it begins there, in bytes.
    pub at: u64,
    /// How long it is there, if the object may continue after it.
    pub len: Option<u64>,
}

/// The keys of a segment's objects, in the order of its parts.
#[derive(Drop)]
pub struct Keys {
    partition: PartitionId,
    id: SegmentId,
    packed: bool,
}

impl Model for Keys {
    ghost use Rattle.std.specs.Prelude.{List};
    ghost use Rattle.tier_base.specs.declared.object_key.ObjectKey.{ObjectKey};
    ghost use Rattle.object_store.specs.Place.{keys_of};

    ghost Value = { List ObjectKey };

    ghost view = { λ k. keys_of k.partition k.id k.packed };
}

impl Keys {
    /// The number of keys.
    pub fn count(&self) -> u8
        ensures { result ≡ length self.now }
    {
        if self.packed { 1 } else { 4 }
    }

    /// The n-th key, counted from 0.
    pub fn get(&self, n: u8) -> ObjectKey
        requires { n < length self.now }
        ensures { slice_get self.now n ≡ Some result }
    {
        let part = match n {
            0 if self.packed => Part::Pack,
            0 => Part::Log,
            1 => Part::Index,
            2 => Part::TimeIndex,
            _ => Part::Epochs,
        };
        key(self.partition, self.id, part)
    }
}

/// Where a part of a segment is. For a packed segment the custom metadata of its entry says where; `None` if that has
/// no layout.
pub fn place(
    partition: PartitionId,
    id: SegmentId,
    packed: bool,
    custom: Option<&Blob>,
    part: Part,
) -> Option<Spot>
    ensures spot { result
        ≡ spot_of partition id packed (option_map (λ blob. blob.now) custom.entry) part }
    ensures low { IfSome result (λ spot. spot.at < 2 ^ 34) }
{
    if packed {
        let Some(layout) = told_layout(custom) else {
            return None;
        };
        return Some(part_of(key(partition, id, Part::Pack), &layout, part));
    }
    Some(Spot {
        key: key(partition, id, part),
        at: 0,
        len: None,
    })
}

/// The keys of all objects of a segment.
pub fn keys_of(partition: PartitionId, id: SegmentId, packed: bool) -> Keys
    ensures { result ≡ keys_of partition id packed }
{
    Keys {
        partition,
        id,
        packed,
    }
}

/// The layout that custom metadata gives.
fn told_layout(custom: Option<&Blob>) -> Option<Layout>
    ensures { result ≡ told_layout (option_map (λ blob. blob.now) custom.entry) }
{
    match custom {
        Some(blob) => Layout::from_bytes(blob.as_slice()),
        None => None,
    }
}

/// A part of an object of this layout.
fn part_of(key: ObjectKey, layout: &Layout, part: Part) -> Spot
    ensures spot { result ≡ part_of key layout.now part }
    ensures low { result.at < 2 ^ 34 }
{
    Spot {
        key,
        at: at_in(layout, part),
        len: Some(length_in(layout, part)),
    }
}

/// Where a part begins in an object of this layout.
fn at_in(layout: &Layout, part: Part) -> u64
    ensures at { result ≡ at_in layout.now part }
    ensures low { result < 2 ^ 34 }
{
    let layout = *layout;
    match part {
        Part::Log | Part::Pack => 0,
        Part::Index => layout.log as u64,
        Part::TimeIndex => layout.log as u64 + layout.index as u64,
        Part::Epochs => layout.log as u64 + layout.index as u64 + layout.times as u64,
    }
}

/// How long it is.
fn length_in(layout: &Layout, part: Part) -> u64
    ensures { result ≡ length_in layout.now part }
{
    let layout = *layout;
    match part {
        Part::Log => layout.log as u64,
        Part::Index => layout.index as u64,
        Part::TimeIndex => layout.times as u64,
        Part::Epochs => layout.epochs as u64,
        Part::Pack => {
            layout.log as u64 + layout.index as u64 + layout.times as u64 + layout.epochs as u64
        }
    }
}

/// The key of one object.
fn key(partition: PartitionId, id: SegmentId, part: Part) -> ObjectKey
    ensures { result ≡ key_of partition id part }
{
    ObjectKey {
        partition,
        id,
        part,
    }
}
