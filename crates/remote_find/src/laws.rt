//! Laws of pieces, each the contract of a function that does nothing.

ghost use Rattle.std.specs.Prelude.{◌≡◌, ◌≤◌, ℕ, List, Some};
ghost use Rattle.std.specs.List.{AllByRecursion};
ghost use Rattle.epoch_line.specs.Line.{IsLine};
ghost use Rattle.segment_meta.specs.declared.note.Entry.{Entry};
ghost use Rattle.remote_view.specs.Fold.{AreEntriesValid, AreDistinct};
ghost use Rattle.remote_find.specs.declared.piece.Piece.{Piece};
ghost use Rattle.remote_find.specs.Pieces.{piece_at, covered_to, chain, IsPieceOf, IsCovered, IsLongest};

/// The piece that holds an offset lies in one epoch of the line and in one finished copy.
pub fn a_piece_lies_in_one_copy_and_epoch()
    ensures { (entries : List Entry) (line : List (ℕ × ℕ)) (log_end offset : ℕ) (piece : Piece)
        → AreEntriesValid entries → AreDistinct entries → IsLine line
        → piece_at entries line log_end offset ≡ Some piece
        → (epoch : ℕ) × (entry : Entry) × IsPieceOf entries line log_end offset epoch entry piece }
{}

/// Each offset from a place up to where pieces reach has one, and there is none where they end.
pub fn what_is_covered_has_pieces()
    ensures { (entries : List Entry) (line : List (ℕ × ℕ)) (log_end at : ℕ)
        → AreEntriesValid entries → AreDistinct entries → IsLine line → AllByRecursion (λ start. start.1 ≤ log_end) line
        → IsCovered (piece_at entries line log_end) at (covered_to entries line log_end at) }
{}

/// A chain has no gap, ends at or below its top, and no other one has more pieces.
pub fn a_chain_is_the_longest()
    ensures { (entries : List Entry) (line : List (ℕ × ℕ)) (log_end at top : ℕ)
        → AreEntriesValid entries → AreDistinct entries → IsLine line
        → IsLongest (piece_at entries line log_end) at top (chain entries line log_end at top) }
{}
