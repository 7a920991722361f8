//! The calls of a device that are to fail.

ghost use Rattle.std.specs.Prelude.{◌≡◌, ◌<◌, ℕ};

/// A kind of call that a plan can name.
pub trait CallKind: Copy {
    /// A number below 8 that no other kind has.
    ghost code: { Self → ℕ };

    /// Returns the kind's number.
    fn to_code(self) -> usize
        ensures code { result ≡ code self }
        ensures small { result < 8 };
}

/// A call that is to fail: its kind, its number from 1 among the calls of that kind, and whether it
/// is done all the same.
#[derive(Clone, Copy, Debug, PartialEq, Eq)]
pub struct Planned<K> {
    pub call: K,
    pub number: u32,
    pub after: bool,
}
