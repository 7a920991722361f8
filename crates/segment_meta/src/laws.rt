//! Laws of the spelling, each the contract of a function that does nothing.

ghost use Rattle.std.specs.Prelude.{◌≡◌, ℕ, ◌<◌, List, All, Ok};
ghost use Rattle.segment_meta.specs.declared.note.Note.{Note};
ghost use Rattle.segment_meta.specs.Rules.{IsNote, NoteFits};
ghost use Rattle.segment_meta.specs.Spelling.{note_bytes};
ghost use Rattle.segment_meta.specs.Reading.{note_in};

/// What is written of an event is read as that event.
#[tactic(auto, using(crate::proofs::Again::note_again))]
pub fn a_written_note_is_read_again()
    ensures { (note : Note) → IsNote note → NoteFits note → note_in (note_bytes note) ≡ Ok note }
{}

/// What is read as an event is written so: no other bytes are read as it.
#[tactic(auto, using(crate::proofs::OneSpelling::one_spelling))]
pub fn a_note_has_one_spelling()
    ensures { (bytes : List ℕ) (note : Note) → All (λ b. b < 256) bytes → note_in bytes ≡ Ok note
        → bytes ≡ note_bytes note }
{}
