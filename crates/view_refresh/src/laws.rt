//! A law of refreshed views, the contract of a function that does nothing.

ghost use Rattle.std.specs.Prelude.{◌≡◌, ◌≤◌, ◌<◌, ◌^◌, ℕ, List, length, take, drop, IsTrue};
ghost use Rattle.segment_meta.specs.declared.note.Note.{Note};
ghost use Rattle.remote_view.specs.Fold.{EntriesSeen, view_of};
ghost use Rattle.view_refresh.specs.Refreshing.{Refreshes};

use meta_log::MetaLog;

/// A view of the log's first events is the view of all of them once it is refreshed.
pub fn a_refreshed_view_is_the_fold<M: MetaLog>()
    ensures { (log : M) (old new : EntriesSeen) (k : ℕ) → IsTrue (M.content log).is_observable
        → length (M.content log).notes < 2 ^ 64
        → k ≤ length (M.content log).notes → old ≡ view_of (take k (M.content log).notes)
        → Refreshes (M.content log) old new
        → new ≡ view_of (M.content log).notes }
{}
