//! Laws of the spelling, each the contract of a function that does nothing.

ghost use Rattle.std.specs.Prelude.{◌≡◌, ◌↔◌, ℕ, ◌<◌, List, All, Ok, Err};
ghost use Rattle.registry.specs.declared.view.RegView.{RegView};
ghost use Rattle.registry.specs.View.{IsView};
ghost use Rattle.registry_file.specs.Spelling.{view_bytes};
ghost use Rattle.registry_file.specs.declared.refusal.RegFileRefusal.TheVariants.{Bad};
ghost use Rattle.registry_file.specs.Reading.{view_in};
ghost use Rattle.registry_file.specs.Faults.{IsFirstFault};

/// What is written of a view that keeps the rules is read as that view.
#[tactic(auto, using(crate::proofs::Again::view_again))]
pub fn a_written_view_is_read_again()
    ensures { (view : RegView) → IsView view → view_in (view_bytes view) ≡ Ok view }
{}

/// Bytes are read as a view exactly where they are the spelling of that view and it keeps the rules.
pub fn a_file_reads_as_what_it_spells()
    ensures { (bytes : List ℕ) (view : RegView) → All (λ b. b < 256) bytes
        → (view_in bytes ≡ Ok view) ↔ (IsView view × (bytes ≡ view_bytes view)) }
{}

/// A refusal reports the first fault.
pub fn a_refusal_tells_the_first_fault()
    ensures { (bytes : List ℕ) (at : ℕ) → view_in bytes ≡ Err (Bad at) → IsFirstFault bytes at }
{}
