//! Laws of views, each the contract of a function that does nothing.

ghost use Rattle.std.specs.Prelude.{◌≡◌, ℕ, ◌++◌, ◌∷◌, [], List, Some};
ghost use Rattle.std.specs.List.{AllByRecursion};
ghost use Rattle.segment_meta.specs.declared.note.Entry.{Entry};
ghost use Rattle.segment_meta.specs.declared.note.Note.{Note};
ghost use Rattle.segment_meta.specs.Rules.{IsNote};
ghost use Rattle.remote_view.specs.Fold.{fold, fed, view_of, AreDistinct};
ghost use Rattle.remote_view.specs.Lookup.{finished, IsBest};

/// A view that was fed event by event is the fold of those events.
#[tactic(auto, using(crate::proofs::Folding::fed_again))]
pub fn a_view_is_the_fold()
    ensures { (notes : List Note) (note : Note) → fed (view_of notes) note ≡ view_of (notes ++ note ∷ []) }
{}

/// No two entries of a view have one id.
#[tactic(auto, using(crate::proofs::Folding::fold_distinct))]
pub fn ids_of_a_view_are_distinct()
    ensures { (notes : List Note) → AllByRecursion IsNote notes → AreDistinct (fold notes) }
{}

/// What is found at an offset of an epoch is one of the entries, holds the offset there, and no other that does ends
/// later, or as late with a lesser id. It is the entry of its id.
pub fn what_is_found_is_best()
    ensures { (epoch offset : ℕ) (entries : List Entry) (best : Entry) → AreDistinct entries
        → finished epoch offset entries ≡ Some best → IsBest epoch offset entries best }
{}
