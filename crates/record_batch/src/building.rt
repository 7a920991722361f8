//! Building: records become the bytes of a batch.
//!
//! The size is reckoned first, so that a batch that would be too large takes no memory. The bytes are then written in
//! order into one vector, with the checksum's place left open, which is filled at the end.

ghost use Rattle.std.specs.Prelude.{◌≡◌, ◌+◌, ◌-◌, ◌^◌, ◌<◌, ◌≤◌, ◌↔◌, [], ◌∷◌, ◌++◌, length, take, drop};
ghost use Rattle.std.specs.Prelude.{replicate, All, FitsSigned, Ok, OnOk, IfOk, IsErrOf};
ghost use Rattle.std.specs.Int.{w64};
ghost use Rattle.batch_prims.specs.Crc.{crc32c as sum_of};
ghost use Rattle.log_terms.specs.Batch.{max_ts_of};
ghost use Rattle.record_batch.specs.Build.{greatest_ts as greatest_ts_of, u32_bytes, ts_bytes, no_producer, early_head};
ghost use Rattle.record_batch.specs.Build.{late_head, covered, built, IsBuildable, IsTooLarge, HeadTells, HaveWidths};
ghost use Rattle.record_batch.specs.declared.rec.Rec.{Rec};
ghost use Rattle.record_batch.specs.Check.{checked};
ghost use Rattle.record_batch.specs.Head.{head_of};
ghost use Rattle.record_batch.specs.Stamp.{stamped};

use crate::laws::built_is_checked;
use crate::rec::Rec;
use crate::refusal::BuildRefusal;
use crate::sizes::built_size;
use crate::spelling::push_records;
use crate::stamping::stamp;
use crate::times::{first_ts, greatest_ts};
use batch_prims::crc32c;
use std::alloc::{AllocError, Global};

#[tactic(auto, unfolding(crate::specs::Build::u32_bytes))]
fn push_u32(out: &mut Vec<u8>, number: u32) -> Result<(), AllocError>
    ensures { OnOk result (out.new.items ≡ out.old.items ++ u32_bytes number) }
{
    out.extend_from_slice(number.to_be_bytes().as_slice())
}

#[tactic(auto, unfolding(crate::specs::Build::ts_bytes))]
fn push_ts(out: &mut Vec<u8>, ts: i64) -> Result<(), AllocError>
    ensures { OnOk result (out.new.items ≡ out.old.items ++ ts_bytes ts) }
{
    out.extend_from_slice(ts.to_be_bytes().as_slice())
}

#[tactic(auto, unfolding(crate::specs::Build::no_producer))]
fn push_no_producer(out: &mut Vec<u8>) -> Result<(), AllocError>
    ensures { OnOk result (out.new.items ≡ out.old.items ++ no_producer) }
{
    out.extend_from_slice([255; 14].as_slice())
}

/// The head before the checksum, and four bytes in the checksum's place.
#[tactic(auto, unfolding(crate::specs::Build::early_head))]
fn push_early_head(out: &mut Vec<u8>, size: u32) -> Result<(), AllocError>
    requires { 12 ≤ size }
    ensures { OnOk result (out.new.items ≡ out.old.items ++ (early_head size ++ replicate 4 0)) }
{
    out.extend_from_slice([0; 8].as_slice())?;
    push_u32(out, size - 12)?;
    out.extend_from_slice([0, 0, 0, 0, 2, 0, 0, 0, 0].as_slice())
}

/// The head's two timestamps, the producer's fields, and the count of records.
fn push_times_and_count(
    out: &mut Vec<u8>,
    base_ts: i64,
    max_ts: i64,
    count: u32,
) -> Result<(), AllocError>
    ensures { OnOk result (out.new.items
        ≡ out.old.items ++ (ts_bytes base_ts ++ (ts_bytes max_ts ++ (no_producer ++ u32_bytes count)))) }
{
    push_ts(out, base_ts)?;
    push_ts(out, max_ts)?;
    push_no_producer(out)?;
    push_u32(out, count)
}

/// The attributes, which are 0, and the last record's offset delta.
fn push_attributes_and_delta(out: &mut Vec<u8>, delta: u32) -> Result<(), AllocError>
    ensures { OnOk result (out.new.items ≡ out.old.items ++ (0 ∷ 0 ∷ u32_bytes delta)) }
{
    out.extend_from_slice([0; 2].as_slice())?;
    push_u32(out, delta)
}

/// The head from the attributes on.
#[tactic(auto, unfolding(crate::specs::Build::late_head))]
fn push_late_head(out: &mut Vec<u8>, recs: &[Rec]) -> Result<(), AllocError>
    requires some { 0 < length recs.now }
    requires few { length recs.now ≤ 1048576 }
    ensures bytes { OnOk result (out.new.items ≡ out.old.items ++ late_head recs.now) }
    ensures fits { OnOk result (FitsSigned w64 (greatest_ts_of recs.now)) }
    ensures times { OnOk result (All (λ (r : Rec). FitsSigned w64 r.ts) recs.now) }
{
    let count = recs.len() as u32;
    push_attributes_and_delta(out, count - 1)?;
    push_times_and_count(out, first_ts(recs), greatest_ts(recs), count)
}

/// The batch with nothing in the checksum's place, in one allocation of its size.
#[tactic(auto, using(crate::proofs::Counts::buildable_few, crate::proofs::Counts::length_built), unfolding(crate::specs::Build::all_bytes))]
fn unsealed(alloc: Global, size: usize, recs: &[Rec]) -> Result<Vec<u8>, AllocError>
    requires buildable { IsBuildable recs.now }
    requires size { size ≡ length (built recs.now) }
    ensures bytes { IfOk result (λ batch. batch.items ≡ (early_head size ++ replicate 4 0) ++ covered recs.now) }
    ensures fits { OnOk result (FitsSigned w64 (greatest_ts_of recs.now)) }
    ensures times { OnOk result (All (λ (r : Rec). FitsSigned w64 r.ts) recs.now) }
{
    let mut batch = Vec::with_capacity(alloc, size)?;
    push_early_head(&mut batch, size as u32)?;
    push_late_head(&mut batch, recs)?;
    push_records(&mut batch, recs, first_ts(recs))?;
    Ok(batch)
}

/// Fills the checksum's place.
#[tactic(auto, unfolding(crate::specs::Build::u32_bytes))]
fn seal(batch: &mut Vec<u8>)
    requires { 21 ≤ length batch.old.items }
    ensures bytes { batch.new.items
        ≡ take 17 batch.old.items ++ (u32_bytes (sum_of (drop 21 batch.old.items)) ++ drop 21 batch.old.items) }
    ensures sum { sum_of (drop 21 batch.old.items) < 2 ^ 32 }
{
    let sum = crc32c(&batch[21..]);
    batch[17..21].copy_from_slice(sum.to_be_bytes().as_slice());
}

/// The batch at base offset 0, in leader epoch 0.
fn sealed(alloc: Global, size: usize, recs: &[Rec]) -> Result<Vec<u8>, AllocError>
    requires buildable { IsBuildable recs.now }
    requires size { size ≡ length (built recs.now) }
    ensures bytes { IfOk result (λ batch. batch.items ≡ built recs.now) }
    ensures long { IfOk result (λ batch. 61 ≤ length batch.items) }
    ensures fits { OnOk result (FitsSigned w64 (greatest_ts_of recs.now)) }
    ensures widths { OnOk result (HaveWidths recs.now) }
{
    let mut batch = unsealed(alloc, size, recs)?;
    seal(&mut batch);
    Ok(batch)
}

/// The batch at a base offset, in a leader epoch.
fn placed(
    alloc: Global,
    size: usize,
    base: u64,
    epoch: u32,
    recs: &[Rec],
) -> Result<Vec<u8>, AllocError>
    requires buildable { IsBuildable recs.now }
    requires size { size ≡ length (built recs.now) }
    ensures bytes { IfOk result (λ batch. batch.items ≡ stamped (built recs.now) base epoch) }
    ensures head { IfOk result (λ batch. HeadTells batch.items base epoch recs.now) }
    ensures max { IfOk result (λ batch. max_ts_of batch.items ≡ greatest_ts_of recs.now) }
    ensures checked { IfOk result (λ batch.
        checked batch.items ≡ Ok (record { head = head_of batch.items; recs = recs.now })) }
{
    built_is_checked();
    let mut batch = sealed(alloc, size, recs)?;
    stamp(batch.as_mut_slice(), base, epoch);
    Ok(batch)
}

/// Builds the batch of these records at a base offset, in a leader epoch. `BuildRefusal` has the causes of a failure.
pub fn build(alloc: Global, base: u64, epoch: u32, recs: &[Rec]) -> Result<Vec<u8>, BuildRefusal>
    ensures fits { OnOk result (IsBuildable recs.now) }
    ensures batch { IfOk result (λ batch. batch.items ≡ stamped (built recs.now) base epoch) }
    ensures head { IfOk result (λ batch. HeadTells batch.items base epoch recs.now) }
    ensures max { IfOk result (λ batch. max_ts_of batch.items ≡ greatest_ts_of recs.now) }
    ensures checked { IfOk result (λ batch.
        checked batch.items ≡ Ok (record { head = head_of batch.items; recs = recs.now })) }

    // Each cause. Out of memory alone is free.
    ensures none { IsErrOf result BuildRefusal.NoRecords ↔ (recs.now ≡ []) }
    ensures large { IsErrOf result BuildRefusal.TooLarge ↔ IsTooLarge recs.now }
{
    if recs.is_empty() {
        return Err(BuildRefusal::NoRecords);
    }
    let Some(size) = built_size(recs) else {
        return Err(BuildRefusal::TooLarge);
    };
    match placed(alloc, size, base, epoch, recs) {
        Ok(batch) => Ok(batch),
        Err(_) => Err(BuildRefusal::NoMemory),
    }
}
