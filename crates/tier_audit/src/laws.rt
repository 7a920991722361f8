//! Laws of an audit, each the contract of a function that does nothing.

ghost use Rattle.std.specs.Prelude.{◌≡◌, ℕ, List, FitsSigned};
ghost use Rattle.std.specs.Int.{w64};
ghost use Rattle.epoch_line.specs.Line.{IsLine, within};
ghost use Rattle.segment_bundle.specs.Parts.{parts_of};
ghost use Rattle.segment_meta.specs.declared.note.Entry.{Entry};
ghost use Rattle.object_store.specs.Content.{Objects};
ghost use Rattle.tier_audit.specs.declared.verdict.Flaw.{Flaw};
ghost use Rattle.tier_audit.specs.Whole.{Describes, ArePut, IsReadable, IsWholeTier};
ghost use Rattle.tier_audit.specs.Flaws.{IsFirstFlaw};

/// A tier that is whole has no flaw.
#[tactic(auto, using(crate::proofs::Saying::one_thing))]
pub fn an_audit_says_one_thing()
    ensures { (objects : Objects) (entries : List Entry) (flaw : Flaw) → IsWholeTier objects entries
        → IsFirstFlaw objects entries flaw → ⊥ }
{}

/// The parts that a copy puts are right, at any interval of its indexes, with an object each or packed into one: of an
/// entry that describes the batches, and of leader epochs that have the entry's map within the segment.
pub fn what_a_copy_puts_is_sound()
    ensures { (objects : Objects) (entry : Entry) (batches : List (List ℕ)) (line : List (ℕ × ℕ)) (interval : ℕ)
        → Describes entry batches → FitsSigned w64 entry.max_ts → IsLine line
        → within line entry.start entry.end ≡ entry.map
        → ArePut objects entry (parts_of batches line interval)
        → IsReadable objects entry }
{}
