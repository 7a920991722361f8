//! Turns that are given what was made before, of what they work on or of something else: each comes to what it comes to
//! with nothing ready. Values worked by hand.

ghost use Rattle.std.specs.Prelude.{All};
ghost use Rattle.plain_log.specs.Orders.{AreListsFor, IsConfig};

use bytes::Bytes;
use disk_model::MemoryDisk;
use epoch_line::Line;
use laws_partition::Stepped;
use meta_log::MemoryLog;
use object_store::{MemoryStore, Store};
use partition_world::{Ready, Want, World};
use plain_log::Config;
use record_batch::Checked;
use run_memory::fresh_world;
use script_lang::{PartScript, parse};
use segment_bundle::Bundle;
use segment_file::Closed;
use std::alloc::Global;
use tier_base::{ActorId, Items, PartitionId};
use trace_text::print;

/// A world over devices in memory.
type MemoryWorld = World<MemoryDisk, MemoryStore, MemoryLog>;

/// The only actor.
const ACTOR: ActorId = ActorId(0);

/// A copy of the segment of two batches, and before and after it a trim.
const COPIES: &str = "segment_bytes 200\nlocal_retention_bytes 0\n\
    0 0 0 append 1000,-,:a\n0 0 0 append 1000,-,:b\n0 0 0 append 1000,-,:c\n0 0 0 flush\n0 0 0 ack\n\
    0 0 0 trim\n0 0 0 copy\n0 0 0 trim\n0 0 0 fetch 0 1000\n0 0 0 fetch 1 1000\n";

/// A batch, of which one bit is flipped.
const FLIPPED: &str = "\
    0 0 0 raw \
    0000000000000000000000390000000002ebf1884b00000000000000000000000003e800000000000003e8fffffffffffffffffffffffffff\
    f000000010e00000001026000\n";

/// The batch without the flip.
static RIGHT: [u8; 69] = [
    0, 0, 0, 0, 0, 0, 0, 0, // base_offset
    0, 0, 0, 0x39, // batch_length
    0, 0, 0, 0, // leader_epoch
    2, // magic
    0xeb, 0xf1, 0x88, 0x4b, // crc
    0, 0, // attributes
    0, 0, 0, 0, // last_offset_delta
    0, 0, 0, 0, 0, 0, 3, 0xe8, // base_ts
    0, 0, 0, 0, 0, 0, 3, 0xe8, // max_ts
    0xff, 0xff, 0xff, 0xff, 0xff, 0xff, 0xff, 0xff, // producer_id
    0xff, 0xff, // producer_epoch
    0xff, 0xff, 0xff, 0xff, // base_sequence
    0, 0, 0, 1, // records_count
    0x0e, 0, 0, 0, 1, 2, 0x61, 0, // record
];

/// What is passed to a turn that wants a bundle.
#[derive(Clone, Copy, PartialEq, Eq)]
enum Handed {
    /// Nothing.
    Nothing,
    /// What it wants.
    Right,
    /// The bundle of the segment's first batch alone.
    OtherBytes,
    /// The bundle with another line.
    OtherLine,
    /// The bundle with another interval.
    OtherInterval,
    /// A check of a batch.
    Check,
}

/// The world of the only partition.
fn only_world(alloc: Global, config: Config, parts: Items<PartScript>) -> Option<MemoryWorld>
    requires config { IsConfig config }
    requires fit { All (λ part. AreListsFor config part.lists) parts }
{
    let mut parts = parts;
    match parts.pop() {
        Some(part) => fresh_world(
            alloc,
            part.partition,
            config,
            part.lists,
            part.faults.as_slice(),
        )
        .ok(),
        None => None,
    }
}

/// The world of a script's only partition.
fn world_of(alloc: Global, script: &str) -> Option<MemoryWorld> {
    let bytes = script.as_bytes();
    if bytes.len() > 10_000 {
        return None;
    }
    match parse(alloc, bytes) {
        Ok(script) => only_world(alloc, script.config, script.parts),
        Err(_) => None,
    }
}

/// The bundle of the first of two batches.
fn shorter(alloc: Global, closed: &Closed, line: &Line, interval: u32) -> Option<Bundle> {
    let bytes = closed.bytes().as_slice();
    if bytes.len() < 69 {
        return None;
    }
    let (first, _) = bytes.split_at(69);
    let bytes = Bytes::copy_from_slice(alloc, first).ok()?;
    match Closed::read(alloc, 0, bytes) {
        Ok(other) => Bundle::of(alloc, &other, line, interval).ok(),
        Err(_) => None,
    }
}

/// What a turn gets that needs the bundle of a segment.
fn handed_bundle(
    alloc: Global,
    closed: Closed,
    line: Line,
    interval: u32,
    handed: Handed,
) -> Option<Ready> {
    let bundle = match handed {
        Handed::Right => Bundle::of(alloc, &closed, &line, interval).ok()?,
        Handed::OtherBytes => shorter(alloc, &closed, &line, interval)?,
        Handed::OtherLine => match Line::from_text(alloc, b"0\n2\n0 0\n7 1\n".as_slice()) {
            Ok(other) => Bundle::of(alloc, &closed, &other, interval).ok()?,
            Err(_) => return None,
        },
        Handed::OtherInterval => Bundle::of(alloc, &closed, &line, 1).ok()?,
        Handed::Check => return right_check(alloc),
        Handed::Nothing => return Some(Ready::Nothing),
    };
    Some(Ready::Bundle(bundle))
}

/// The check of the right batch.
fn right_check(alloc: Global) -> Option<Ready> {
    let bytes = Bytes::copy_from_slice(alloc, RIGHT.as_slice()).ok()?;
    Some(Ready::Checked(Checked::of(bytes)))
}

/// What the actor's next turn gets, and whether it needs a bundle.
fn handed_next(alloc: Global, world: &MemoryWorld, handed: Handed) -> Option<(Ready, bool)> {
    match world.wanted(alloc, ACTOR) {
        Ok(
            Want::Bundle {
                closed,
                line,
                interval,
            },
        ) => Some((handed_bundle(alloc, closed, line, interval, handed)?, true)),
        Ok(_) => Some((Ready::Nothing, false)),
        Err(_) => None,
    }
}

/// Steps the actor to the end of its list, and counts the turns that want a bundle.
fn run(alloc: Global, world: &mut MemoryWorld, handed: Handed) -> Option<u32> {
    let mut wanting: u32 = 0;
    for _turn in 0..1_000 {
        let (ready, wants) = handed_next(alloc, world, handed)?;
        if wants {
            wanting = wanting.saturating_add(1);
        }
        match world.step_with(alloc, ACTOR, ready) {
            Stepped::Nothing => return Some(wanting),
            Stepped::NoMemory => return None,
            _ => {}
        }
    }
    None
}

/// The objects of a store, one after another.
fn objects(alloc: Global, store: &mut MemoryStore) -> Option<Vec<u8>> {
    let mut all = Vec::new(alloc);
    match store.keys() {
        Ok(keys) => {
            for key in keys.as_slice() {
                match store.get(key, 0) {
                    Ok(Some(bytes)) => all.extend_from_slice(bytes.as_slice()).ok()?,
                    _ => return None,
                }
            }
        }
        Err(_) => return None,
    }
    Some(all)
}

/// The journal of a script that is run so, its objects, and how many turns wanted a bundle.
fn outcome(alloc: Global, script: &str, handed: Handed) -> Option<(Vec<u8>, Vec<u8>, u32)> {
    let mut world = world_of(alloc, script)?;
    let wanting = run(alloc, &mut world, handed)?;
    let text = print(alloc, PartitionId(0), world.journal()).ok()?;
    let mut devices = world.close();
    let objects = objects(alloc, &mut devices.store)?;
    Some((text, objects, wanting))
}

/// Whether a run that is given this has the journal and the objects of one that is given nothing, and how many of its
/// turns want a bundle.
fn same_as_with_nothing(alloc: Global, handed: Handed) -> Option<(bool, u32)> {
    let (text, objects, wanting) = outcome(alloc, COPIES, handed)?;
    let (plain_text, plain_objects, _) = outcome(alloc, COPIES, Handed::Nothing)?;
    let is_same = text.as_slice() == plain_text.as_slice()
        && objects.as_slice() == plain_objects.as_slice()
        && objects.len() == 158;
    Some((is_same, wanting))
}

#[test]
fn a_copy_with_what_is_of_another_segment_puts_its_own(rt: HostRuntime) {
    // The turn that starts and the one that puts the first object want a bundle, unless the first is given it.
    assert!(rt; same_as_with_nothing(rt.alloc(), Handed::Nothing) == Some((true, 2)));
    assert!(rt; same_as_with_nothing(rt.alloc(), Handed::Right) == Some((true, 1)));
    assert!(rt; same_as_with_nothing(rt.alloc(), Handed::OtherBytes) == Some((true, 2)));
    assert!(rt; same_as_with_nothing(rt.alloc(), Handed::OtherLine) == Some((true, 2)));
    assert!(rt; same_as_with_nothing(rt.alloc(), Handed::OtherInterval) == Some((true, 2)));
    assert!(rt; same_as_with_nothing(rt.alloc(), Handed::Check) == Some((true, 2)));
}

/// The journal of a flipped batch that is taken with the check of the right one, and whether the batch's check was
/// wanted.
fn flipped(alloc: Global) -> Option<(Vec<u8>, bool)> {
    let mut world = world_of(alloc, FLIPPED)?;
    let wanted = world.wanted(alloc, ACTOR);
    let wants = match &wanted {
        Ok(Want::Check(bytes)) => bytes.len() == 69,
        _ => false,
    };
    let ready = right_check(alloc)?;
    match world.step_with(alloc, ACTOR, ready) {
        Stepped::Done => {}
        _ => return None,
    }
    let text = print(alloc, PartitionId(0), world.journal()).ok()?;
    Some((text, wants))
}

#[test]
fn a_flipped_batch_with_the_check_of_the_right_one_is_refused(rt: HostRuntime) {
    let Some((text, wants)) = flipped(rt.alloc()) else {
        panic!(rt; "no memory")
    };
    assert!(rt; text.as_slice() == b"0 0 0 = Refused BadCrc 3958474827 4166193212\n".as_slice());
    assert!(rt; wants);
}
