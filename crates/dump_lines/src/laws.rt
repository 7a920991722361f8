//! A dump compared with `walk`, by which the brokers read their logs.

ghost use Rattle.std.specs.Prelude.{ℕ, List, IsOk};
ghost use Rattle.std.specs.List.{AllByRecursion};
ghost use Rattle.log_terms.specs.Log.{joined};
ghost use Rattle.record_batch.specs.Check.{checked};
ghost use Rattle.segment_file.specs.Walk.{found_at};
ghost use Rattle.dump_lines.specs.declared.seeing.Shown.{Shown};
ghost use Rattle.dump_lines.specs.declared.seeing.Ending.{Ending};
ghost use Rattle.dump_lines.specs.Seen.{seen_at};
ghost use Rattle.dump_lines.specs.Dump.{IsDump};
ghost use Rattle.dump_lines.specs.Walked.{DumpAgrees, ShowsAll};

/// A dump finds the batches that `walk` finds. Besides them it shows those that the log refuses only because they are
/// compressed, transactional or control batches.
#[tactic(auto, using(crate::proofs::Walked::agrees))]
pub fn a_dump_finds_what_a_walk_finds()
    ensures { (at : ℕ) (bytes : List ℕ) → DumpAgrees at (found_at at bytes) (seen_at at bytes) }
{}

/// A dump of valid batches shows each of them once and in order, and nothing else.
#[tactic(auto, using(crate::proofs::Walked::shows_all))]
pub fn a_dump_shows_all_batches()
    ensures { (at : ℕ) (batches : List (List ℕ)) (shown : List Shown) (end : Ending)
        → AllByRecursion (λ (batch : List ℕ). IsOk (checked batch)) batches
        → IsDump at (joined batches) shown end → ShowsAll at batches shown end }
{}
