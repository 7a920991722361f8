//! Laws of the files, each the contract of a function that does nothing.

ghost use Rattle.std.specs.Prelude.{◌≡◌, ℕ, List, []};
ghost use Rattle.disk_model.specs.Content.{Files};
ghost use Rattle.disk_model.specs.Memory.{IsEmptyDisk};
ghost use Rattle.segment_meta.specs.declared.note.Note.{Note};
ghost use Rattle.meta_log_file.specs.Notes.{OpensWithNotes};
ghost use Rattle.meta_log.specs.Content.{LeavesTold};
ghost use Rattle.meta_log_file.specs.Crash.{Reopens};
ghost use Rattle.meta_log_file.specs.Damage.{IsDamage};
ghost use Rattle.meta_log_file.specs.Told.{notes_told, told_of};

use disk_model::Disk;

/// Files open with one list of events, and with no other.
#[tactic(auto, using(crate::proofs::Telling::opens_once))]
pub fn files_open_once()
    ensures { (c : Files) (a b : List Note) → OpensWithNotes c a → OpensWithNotes c b → a ≡ b }
{}

/// Files that open aren't damaged.
pub fn damaged_files_open_with_nothing()
    ensures { (c : Files) (at : ℕ) (notes : List Note) → IsDamage c at → OpensWithNotes c notes → ⊥ }
{}

/// Files are damaged at one place.
pub fn files_are_damaged_at_one_place()
    ensures { (c : Files) (a b : ℕ) → IsDamage c a → IsDamage c b → a ≡ b }
{}

/// A disk with no files has a log with no events, also after a power cut.
pub fn an_empty_disk_has_no_notes<D: Disk>()
    ensures { (disk : D) → IsEmptyDisk (D.content disk) → Reopens (D.content disk)
        × ((notes_told (D.content disk) ≡ []) × LeavesTold (told_of (D.content disk))) }
{}
