//! The first of some names, in the order of their bytes.

ghost use Rattle.std.specs.Prelude.{◌≡◌, ◌↔◌, IfOk, OnOk, IsTrue, IsSomeAnd, string_bytes};
ghost use Rattle.tier_base.specs.Told.{In};
ghost use Rattle.device_yard.specs.YardContent.{IsNameUpTo, IsFirstName};
ghost use Rattle.memory_yard.specs.First.{name_of, IsNameIn, IsFirstWith, AreWithout, PushesUnless};

use std::alloc::{AllocError, Global};
use tier_base::{Blob, Items, PartitionId};

/// The name of a partition.
fn name_of(alloc: Global, partition: PartitionId) -> Result<String, AllocError>
    ensures { IfOk result (λ name. string_bytes name ≡ name_of partition) }
{
    let number = partition.0;
    let mut name = String::new(alloc);
    write!(name, "p{number}")?;
    Ok(name)
}

/// The first of some names.
pub fn least_of(alloc: Global, names: &[Blob]) -> Result<Option<Blob>, AllocError>
    ensures { IfOk result (IsFirstName (λ text. In text names.now)) }
{
    let mut first = None;
    for name in names {
        offer(alloc, &mut first, name.as_slice())?;
    }
    Ok(first)
}

/// Makes the first of the names of partitions the first, where no earlier one is.
pub fn offer_partitions(
    alloc: Global,
    first: &mut Option<Blob>,
    partitions: &[PartitionId],
) -> Result<(), AllocError>
    ensures { OnOk result (IsFirstWith (IsNameIn partitions.now) first.old first.new) }
{
    for partition in partitions {
        let name = name_of(alloc, *partition)?;
        offer(alloc, first, name.as_bytes())?;
    }
    Ok(())
}

/// The partitions of a list that aren't in another one.
pub fn without(
    alloc: Global,
    partitions: &[PartitionId],
    others: &[PartitionId],
) -> Result<Items<PartitionId>, AllocError>
    ensures { IfOk result (AreWithout partitions.now others.now) }
{
    let mut row = Items::new(alloc);
    for partition in partitions {
        push_unless(&mut row, others, *partition)?;
    }
    Ok(row)
}

/// Adds a partition to a row, unless it is in a list.
fn push_unless(
    row: &mut Items<PartitionId>,
    others: &[PartitionId],
    partition: PartitionId,
) -> Result<(), AllocError>
    ensures { OnOk result (PushesUnless others.now partition row.old row.new) }
{
    if is_in(others, partition) {
        return Ok(());
    }
    row.push(partition)?;
    Ok(())
}

/// Whether a partition is in a list.
fn is_in(partitions: &[PartitionId], wanted: PartitionId) -> bool
    ensures { IsTrue result ↔ In wanted partitions.now }
{
    partitions.contains(&wanted)
}

/// Makes a name the first, where no earlier one is.
fn offer(alloc: Global, first: &mut Option<Blob>, name: &[u8]) -> Result<(), AllocError>
    ensures { OnOk result (IsFirstWith (λ text. text ≡ name.now) first.old first.new) }
{
    if !is_behind(name, first) {
        *first = Some(Blob::from_slice(alloc, name)?);
    }
    Ok(())
}

/// Whether a name is the first one so far, or follows it.
fn is_behind(name: &[u8], first: &Option<Blob>) -> bool
    ensures { IsTrue result ↔ IsSomeAnd first.now (λ before. IsNameUpTo before name.now) }
{
    match first {
        Some(first) => is_up_to(first.as_slice(), name),
        None => false,
    }
}

/// Whether a text precedes another, or is it.
fn is_up_to(a: &[u8], b: &[u8]) -> bool
    ensures { IsTrue result ↔ IsNameUpTo a.now b.now }
{
    a.cmp(b).is_le()
}
