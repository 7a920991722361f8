//! Laws of a segment's bytes and of its placed batches, each the contract of a function that does nothing.

ghost use Rattle.std.specs.Prelude.{◌≡◌, ℕ, ◌+◌, ◌<◌, ◌^◌, ◌≤ℤ◌, ℤ, List, [], ◌∷◌, ◌++◌, length, slice_index_or, IsOk};
ghost use Rattle.std.specs.List.{Contains};
ghost use Rattle.log_terms.specs.Batch.{max_ts_of};
ghost use Rattle.log_terms.specs.Log.{joined, end_from, up_to};
ghost use Rattle.record_batch.specs.Head.{head_of};
ghost use Rattle.record_batch.specs.Check.{checked};
ghost use Rattle.segment_file.specs.declared.walking.Found.TheVariants.{Batch};
ghost use Rattle.segment_file.specs.declared.placed.Placed.{Placed};
ghost use Rattle.segment_file.specs.Walk.{found_at};
ghost use Rattle.segment_file.specs.Segment.{IsSegment};
ghost use Rattle.sparse_index.specs.Entries.{last_of};
ghost use Rattle.segment_file.specs.Index.{placed, placed_in, placed_from, index_of, time_index_of, time_of};
ghost use Rattle.segment_file.specs.Density.{HasEntryNear, IsTimeOf, HasMomentFor};
ghost use Rattle.segment_file.specs.Growing.{end_after, size_after, ending_by, AreParted};

/// A batch is found where it is, whatever follows it.
#[tactic(auto, using(crate::proofs::Finding::batch_found))]
pub fn a_batch_is_found()
    ensures { (at : ℕ) (batch rest : List ℕ) → IsOk (checked batch)
        → found_at at (batch ++ rest) ≡ Batch (head_of batch) }
{}

/// Bytes are the batches of a segment in one way alone.
#[tactic(auto, using(crate::proofs::Joining::segment_same))]
pub fn a_segment_is_read_in_one_way()
    ensures { (base other : ℕ) (batches others : List (List ℕ)) → IsSegment base batches → IsSegment other others
        → joined batches ≡ joined others → batches ≡ others }
{}

/// A head shows how its batch is placed.
pub fn a_head_places_its_batch()
    ensures { (at : ℕ) (batch : List ℕ) → IsOk (checked batch) → ((i : ℕ) → slice_index_or batch i 0 < 2 ^ 8)
        → placed_in at (head_of batch) ≡ placed at batch }
{}

/// A batch more is placed after the others.
#[tactic(auto, using(crate::proofs::Placing::placed_push))]
pub fn a_batch_is_placed_last()
    ensures { (at : ℕ) (batches : List (List ℕ)) (batch : List ℕ)
        → placed_from at (batches ++ batch ∷ [])
        ≡ placed_from at batches ++ placed (at + length (joined batches)) batch ∷ [] }
{}

/// Placed batches end where the batches do.
#[tactic(auto, using(crate::proofs::Placing::placed_end, crate::proofs::Placing::placed_size))]
pub fn placed_batches_end()
    ensures end { (base at : ℕ) (batches : List (List ℕ))
        → end_after base (placed_from at batches) ≡ end_from base batches }
    ensures size { (at : ℕ) (batches : List (List ℕ))
        → size_after at (placed_from at batches) ≡ at + length (joined batches) }
{}

/// A cut keeps the placed batches of those that it keeps.
#[tactic(auto, using(crate::proofs::Placing::placed_up_to))]
pub fn a_cut_keeps_batches()
    ensures { (at end : ℕ) (batches : List (List ℕ))
        → ending_by end (placed_from at batches) ≡ placed_from at (up_to end batches) }
{}

/// Two parts of placed batches are two parts of the batches.
#[tactic(auto, using(crate::proofs::Placing::placed_parts))]
pub fn placed_batches_part()
    ensures { (at : ℕ) (batches : List (List ℕ)) (front rest : List Placed) → placed_from at batches ≡ front ++ rest
        → AreParted at batches front rest }
{}

/// No batch begins more than the interval's bytes after an entry of the offset index, or after the segment's beginning.
pub fn each_batch_has_an_entry_near()
    ensures { (base interval : ℕ) (front rest : List (List ℕ)) (batch : List ℕ)
        → HasEntryNear interval (index_of base interval (placed_from 0 (front ++ batch ∷ rest))).entries
        (length (joined front)) }
{}

/// The time index of a closed segment reaches the greatest timestamp.
#[tactic(auto, using(crate::proofs::Dense::each_timed))]
pub fn no_batch_is_later_than_the_time_index()
    ensures { (base interval : ℕ) (front rest : List (List ℕ)) (batch : List ℕ) → max_ts_of batch
        ≤ℤ time_of (last_of (time_index_of base interval (placed_from 0 (front ++ batch ∷ rest))).entries) }
{}

/// Each time entry of a closed segment has the greatest timestamp up to the batch that it is of.
pub fn each_time_entry_is_the_greatest_so_far()
    ensures { (base interval : ℕ) (batches : List (List ℕ)) (entry : ℤ × ℕ)
        → Contains (time_index_of base interval (placed_from 0 batches)).entries entry → IsTimeOf base batches entry }
{}

/// The time index reaches each batch's timestamp by a batch that follows none which begins more than the interval's
/// bytes after it.
pub fn each_batch_has_a_time_entry_near()
    ensures { (base interval : ℕ) (front rest : List (List ℕ)) (batch : List ℕ)
        → HasMomentFor base (front ++ batch ∷ rest)
        (time_index_of base interval (placed_from 0 (front ++ batch ∷ rest))).entries
        (length (joined front) + interval) (max_ts_of batch) }
{}
