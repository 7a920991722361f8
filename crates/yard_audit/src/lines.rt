//! The lines that are reported of partitions. The module Lines of specs/ has the grammar.

ghost use Rattle.std.specs.Prelude.{◌≡◌, ◌++◌, codes, decimal, IfOk, OnOk};
ghost use Rattle.tier_base.specs.Key.{key_text};
ghost use Rattle.yard_audit.specs.Lines.{flaw_text, verdict_text, swept_text, line_of};

use std::alloc::{AllocError, Global};
use tier_audit::{Flaw, Verdict};
use tier_base::{ObjectKey, PartitionId, SegmentId};

/// A partition's line of what its audit found.
pub fn verdict_line(
    alloc: Global,
    partition: PartitionId,
    verdict: Verdict,
) -> Result<Vec<u8>, AllocError>
    ensures { IfOk result (λ line. line.items ≡ line_of partition (verdict_text verdict)) }
{
    match verdict {
        Verdict::Sound { entries, objects } => sound_line(alloc, partition, entries, objects),
        Verdict::Unsound(flaw) => unsound_line(alloc, partition, flaw),
    }
}

/// A partition's line of how many objects its sweep took away.
pub fn swept_line(alloc: Global, partition: PartitionId, count: u64) -> Result<Vec<u8>, AllocError>
    ensures { IfOk result (λ line. line.items ≡ line_of partition (swept_text count)) }
{
    let partition = partition.0;
    let mut line = String::new(alloc);
    write!(line, "{partition} swept {count}\n")?;
    Ok(line.into_bytes())
}

/// The line of a tier that is sound.
fn sound_line(
    alloc: Global,
    partition: PartitionId,
    entries: u64,
    objects: u64,
) -> Result<Vec<u8>, AllocError>
    ensures { IfOk result (λ line. line.items ≡ line_of partition (verdict_text (Verdict.Sound entries objects))) }
{
    let partition = partition.0;
    let mut line = String::new(alloc);
    write!(line, "{partition} sound {entries} {objects}\n")?;
    Ok(line.into_bytes())
}

/// The line of a tier that isn't.
fn unsound_line(alloc: Global, partition: PartitionId, flaw: Flaw) -> Result<Vec<u8>, AllocError>
    ensures { IfOk result (λ line. line.items ≡ line_of partition (verdict_text (Verdict.Unsound flaw))) }
{
    match flaw {
        Flaw::NoEntry { key } => key_line(alloc, partition, "NoEntry", key),
        Flaw::Left { key } => key_line(alloc, partition, "Left", key),
        Flaw::Custom { id } => custom_line(alloc, partition, id),
        Flaw::Missing { key } => key_line(alloc, partition, "Missing", key),
        Flaw::Wrong { key, at } => wrong_line(alloc, partition, key, at),
    }
}

/// The front of a line that names a flaw and a key.
fn flaw_front(
    alloc: Global,
    partition: PartitionId,
    name: &str,
    key: ObjectKey,
) -> Result<Vec<u8>, AllocError>
    ensures { IfOk result (λ line. line.items
        ≡ decimal partition.0 ++ (codes " unsound " ++ (name.now ++ (codes " " ++ key_text key)))) }
{
    let partition = partition.0;
    let mut front = String::new(alloc);
    write!(front, "{partition} unsound {name} ")?;
    let mut line = front.into_bytes();
    let text = key.to_text(alloc)?;
    line.extend_from_slice(text.as_slice())?;
    Ok(line)
}

/// The line of a flaw that a name and a key report.
fn key_line(
    alloc: Global,
    partition: PartitionId,
    name: &str,
    key: ObjectKey,
) -> Result<Vec<u8>, AllocError>
    ensures { IfOk result (λ line. line.items
        ≡ line_of partition (codes "unsound " ++ (name.now ++ (codes " " ++ key_text key)))) }
{
    let mut line = flaw_front(alloc, partition, name, key)?;
    line.push(b'\n')?;
    Ok(line)
}

/// The line of a packed segment whose custom metadata is no layout.
fn custom_line(alloc: Global, partition: PartitionId, id: SegmentId) -> Result<Vec<u8>, AllocError>
    ensures { IfOk result (λ line. line.items ≡ line_of partition (verdict_text (Verdict.Unsound (Flaw.Custom id)))) }
{
    let partition = partition.0;
    let mut buffer = [0u8; 36];
    let id = id.write_text(&mut buffer);
    let mut line = String::new(alloc);
    write!(line, "{partition} unsound Custom {id}\n")?;
    Ok(line.into_bytes())
}

/// The line of an object that is wrong at a place.
fn wrong_line(
    alloc: Global,
    partition: PartitionId,
    key: ObjectKey,
    at: u64,
) -> Result<Vec<u8>, AllocError>
    ensures { IfOk result (λ line. line.items
        ≡ line_of partition (verdict_text (Verdict.Unsound (Flaw.Wrong key at)))) }
{
    let mut line = flaw_front(alloc, partition, "Wrong", key)?;
    let place = place_end(alloc, at)?;
    line.extend_from_slice(place.as_slice())?;
    Ok(line)
}

/// The end of a line that reports a place.
fn place_end(alloc: Global, at: u64) -> Result<Vec<u8>, AllocError>
    ensures { IfOk result (λ end. end.items ≡ codes " " ++ (decimal at ++ codes "\n")) }
{
    let mut end = String::new(alloc);
    write!(end, " {at}\n")?;
    Ok(end.into_bytes())
}
