//! What holds of a number's spelling, and of no call by itself.

ghost use Rattle.std.specs.Prelude.{◌≡◌, ℕ, ◌+◌, ◌^◌, ◌<◌, ◌≤◌, ℤ, List, ◌++◌, length, Ok};
ghost use Rattle.std.specs.Int.{w32, w64};
ghost use Rattle.std.specs.Int.RustNames.{FitsSigned};
ghost use Rattle.batch_prims.specs.Varint.{to_zigzag, varint_at, varlong_at, varint_bytes, varlong_bytes};

/// A number keeps its width when it goes over to zigzag.
#[tactic(auto, using(crate::proofs::Spellings::width_32, crate::proofs::Spellings::width_64))]
pub fn zigzag_keeps_the_width()
    ensures varint { (value : ℤ) → FitsSigned w32 value → to_zigzag value < 2 ^ 32 }
    ensures varlong { (value : ℤ) → FitsSigned w64 value → to_zigzag value < 2 ^ 64 }
{}

/// A number that was written is read again, whatever follows it.
#[tactic(auto, using(crate::proofs::Spellings::varint_again, crate::proofs::Spellings::varlong_again))]
pub fn what_is_written_is_read_again()
    ensures varint { (value : ℤ) (rest : List ℕ) → to_zigzag value < 2 ^ 32
        → varint_at (varint_bytes value ++ rest) ≡ Ok (value, rest) }
    ensures varlong { (value : ℤ) (rest : List ℕ) → to_zigzag value < 2 ^ 64
        → varlong_at (varlong_bytes value ++ rest) ≡ Ok (value, rest) }
{}

/// No bytes that are read as a number are fewer than those that are written for it.
#[tactic(auto, using(crate::proofs::Spellings::varint_shortest, crate::proofs::Spellings::varlong_shortest))]
pub fn what_is_written_is_shortest()
    ensures varint { (bytes rest : List ℕ) (value : ℤ) → varint_at bytes ≡ Ok (value, rest)
        → length (varint_bytes value) + length rest ≤ length bytes }
    ensures varlong { (bytes rest : List ℕ) (value : ℤ) → varlong_at bytes ≡ Ok (value, rest)
        → length (varlong_bytes value) + length rest ≤ length bytes }
{}
