//! Laws of batches that are built and stamped, each the contract of a function that does nothing.

ghost use Rattle.std.specs.Prelude.{◌≡◌, ℕ, ◌^◌, ◌<◌, ◌≤◌, List, length, Ok};
ghost use Rattle.record_batch.specs.declared.rec.Rec.{Rec};
ghost use Rattle.record_batch.specs.Build.{built, IsBuildable, HeadTells, HaveWidths};
ghost use Rattle.record_batch.specs.Check.{Batch, checked, IsBatchOf};
ghost use Rattle.record_batch.specs.Head.{head_of};
ghost use Rattle.record_batch.specs.Stamp.{stamped, SetsBaseAndEpoch};

use batch_prims::{what_is_written_is_read_again, zigzag_keeps_the_width};

/// A stamp sets the base offset and the leader epoch, and leaves the other fields as they were.
pub fn stamp_sets_base_and_epoch()
    ensures { (batch : List ℕ) (base epoch : ℕ) → 61 ≤ length batch → base < 2 ^ 64 → epoch < 2 ^ 32
        → SetsBaseAndEpoch batch base epoch }
{}

/// Of two stamps the later one counts.
#[tactic(auto, using(crate::proofs::StampLaws::stamped_again))]
pub fn stamp_again_is_one_stamp()
    ensures { (batch : List ℕ) (base epoch base_2 epoch_2 : ℕ) → 16 ≤ length batch
        → stamped (stamped batch base epoch) base_2 epoch_2 ≡ stamped batch base_2 epoch_2 }
{}

/// The head of a batch that was built describes its records.
pub fn built_head_tells()
    ensures { (recs : List Rec) → IsBuildable recs → HeadTells (built recs) 0 0 recs }
{}

/// It does so wherever the batch is placed.
pub fn stamped_head_tells()
    ensures { (recs : List Rec) (base epoch : ℕ) → IsBuildable recs → base < 2 ^ 64 → epoch < 2 ^ 32
        → HeadTells (stamped (built recs) base epoch) base epoch recs }
{}

/// A batch that is stamped is a batch still, of the same records.
pub fn stamped_is_checked()
    ensures { (bytes : List ℕ) (batch : Batch) (base epoch : ℕ) → checked bytes ≡ Ok batch
        → checked (stamped bytes base epoch)
        ≡ Ok (record { head = head_of (stamped bytes base epoch); recs = batch.recs }) }
{}

/// What was built is a batch, and its records are those that it was built of, wherever it is placed.
pub fn built_is_checked()
    ensures { (recs : List Rec) (base epoch : ℕ) → IsBuildable recs → HaveWidths recs
        → checked (stamped (built recs) base epoch)
        ≡ Ok (record { head = head_of (stamped (built recs) base epoch); recs = recs }) }
{
    what_is_written_is_read_again();
    zigzag_keeps_the_width();
}

/// Bytes that are a batch have its size, and as many records as their head says.
pub fn checked_is_batch()
    ensures { (bytes : List ℕ) (batch : Batch) → checked bytes ≡ Ok batch → IsBatchOf bytes batch }
{}
