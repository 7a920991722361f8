//! Laws of retention.

ghost use Rattle.std.specs.Prelude.{◌≡◌, ◌<◌, ◌≤◌, ℕ, ℤ, Bool, true, List, Some};
ghost use Rattle.std.specs.Option.{IsSome};
ghost use Rattle.std.specs.List.{AllByRecursion};
ghost use Rattle.epoch_line.specs.Line.{IsLine};
ghost use Rattle.segment_file.specs.Growing.{Grown};
ghost use Rattle.tier_base.specs.declared.plain.Keep.{Keep};
ghost use Rattle.segment_meta.specs.declared.note.Entry.{Entry};
ghost use Rattle.remote_view.specs.Fold.{AreEntriesValid, AreDistinct};
ghost use Rattle.remote_find.specs.Pieces.{piece_at, covered_to, chain};
ghost use Rattle.expiry_task.specs.Rule.{end_from, uncopied, raised_to};

/// Retention raises the log start offset, and at most to the broker's high watermark.
#[tactic(auto, using(crate::proofs::Raising::raised_within))]
pub fn a_log_start_rises_up_to_the_known_mark()
    ensures { (entries : List Entry) (line : List (ℕ × ℕ)) (log_end start known : ℕ) (copying : Bool) (local : ℕ)
        (closed : List Grown)
        (rest : ℕ) (now : ℤ) (keep : Keep) (s : ℕ) → AreEntriesValid entries → AreDistinct entries → IsLine line
        → raised_to entries (chain entries line log_end start known)
        (uncopied copying local (end_from start (chain entries line log_end start known)) known closed) rest now keep
        ≡ Some s
        → (start < s) × (s ≤ known) }
{}

/// While copying is on, retention raises the log start offset no further than the pieces reach: each offset that
/// expires is in a finished copy.
pub fn only_what_is_copied_goes()
    ensures reach { (entries : List Entry) (line : List (ℕ × ℕ)) (log_end start known local : ℕ) (closed : List Grown)
        (rest : ℕ) (now : ℤ) (keep : Keep) (s : ℕ) → AreEntriesValid entries → AreDistinct entries → IsLine line
        → raised_to entries (chain entries line log_end start known)
        (uncopied true local (end_from start (chain entries line log_end start known)) known closed) rest now keep
        ≡ Some s
        → s ≤ covered_to entries line log_end start }
    ensures each { (entries : List Entry) (line : List (ℕ × ℕ)) (log_end start known local : ℕ) (closed : List Grown)
        (rest : ℕ) (now : ℤ) (keep : Keep) (s offset : ℕ) → AreEntriesValid entries → AreDistinct entries → IsLine line
        → AllByRecursion (λ begin. begin.1 ≤ log_end) line
        → raised_to entries (chain entries line log_end start known)
        (uncopied true local (end_from start (chain entries line log_end start known)) known closed) rest now keep
        ≡ Some s
        → start ≤ offset → offset < s → IsSome (piece_at entries line log_end offset) }
{}
