//! Laws of sweeps, each the contract of a function that does nothing.

ghost use Rattle.std.specs.Prelude.{◌≡◌, ◌++◌, ℕ, map, Some};
ghost use Rattle.tier_base.specs.declared.names.SegmentId.{SegmentId};
ghost use Rattle.tier_base.specs.declared.plain.State.TheVariants.{CopyFinished};
ghost use Rattle.tier_base.specs.declared.object_key.ObjectKey.{ObjectKey};
ghost use Rattle.meta_log.specs.Content.{AreNotes};
ghost use Rattle.remote_view.specs.Fold.{fold, entry_of, state_of};
ghost use Rattle.tier_sweep.specs.Rest.{AreNamed, NoneIsLeft, NoneUnderWay};
ghost use Rattle.tier_sweep.specs.Sweeping.{SweptTier, IsSwept, IsUnderSweep, kept_of, starts_of, ends_of, rested};

/// What is swept rests: each object's id has an entry, no object exists of a deleted segment, and no copy or deletion
/// is in progress.
pub fn what_is_swept_rests()
    ensures { (old new : SweptTier) (n : ℕ) → AreNotes old.notes → IsSwept old new n
        → AreNamed new.objects (fold new.notes) × NoneIsLeft new.objects (fold new.notes)
        × NoneUnderWay (fold new.notes) }
{}

/// A sweep makes finished deletions of what is in progress, and nothing else of the entries.
pub fn a_sweep_ends_what_is_under_way()
    ensures { (old new : SweptTier) (n : ℕ) → AreNotes old.notes → IsSwept old new n
        → fold new.notes ≡ map rested (fold old.notes) }
{}

/// A sweep keeps finished copies: the entry and each object.
pub fn a_sweep_keeps_finished_copies()
    ensures { (old new : SweptTier) (n : ℕ) (id : SegmentId) → AreNotes old.notes → IsSwept old new n
        → state_of id (fold old.notes) ≡ Some CopyFinished
        → (entry_of id (fold new.notes) ≡ entry_of id (fold old.notes))
        × ((key : ObjectKey) → key.id ≡ id → new.objects key ≡ old.objects key) }
{}

/// A sweep that was refused keeps them too.
pub fn a_sweep_under_way_keeps_finished_copies()
    ensures { (old new : SweptTier) (id : SegmentId) → AreNotes old.notes → IsUnderSweep old new
        → state_of id (fold old.notes) ≡ Some CopyFinished
        → (entry_of id (fold new.notes) ≡ entry_of id (fold old.notes))
        × ((key : ObjectKey) → key.id ≡ id → new.objects key ≡ old.objects key) }
{}

/// A sweep that was refused leaves each object's id an entry.
pub fn a_sweep_under_way_keeps_names()
    ensures { (old new : SweptTier) → AreNotes old.notes → AreNamed old.objects (fold old.notes) → IsUnderSweep old new
        → AreNamed new.objects (fold new.notes) }
{}

/// A further sweep ends one that was refused: objects and entries come to what one sweep makes of them.
pub fn a_further_sweep_ends_it()
    ensures { (old mid new : SweptTier) (n : ℕ) → AreNotes old.notes → IsUnderSweep old mid → IsSwept mid new n
        → ((key : ObjectKey) → new.objects key ≡ kept_of (fold old.notes) old.objects key)
        × (fold new.notes ≡ fold (old.notes ++ starts_of (fold old.notes) ++ ends_of (fold old.notes))) }
{}
