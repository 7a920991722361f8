//! How a call of a device in memory ends, and what it answers then.

ghost use Rattle.std.specs.Prelude.{◌≡◌, IfOk};
ghost use Rattle.tier_base.specs.Device.{fate_of, failing};
ghost use Rattle.tier_base.specs.Faults.{is_done, goes_well};

use crate::fault::{Failed, Trouble};

/// How a call is going to end.
#[derive(Clone, Copy, Debug, PartialEq, Eq)]
pub enum Ending {
    /// It is done.
    Done,
    /// It is done, and returns that it failed.
    DoneAndFailed,
    /// It fails, and isn't done.
    Undone,
}

impl Ending {
    /// Returns whether the call is done.
    pub fn is_done(self) -> bool
        ensures { result ≡ is_done self }
    {
        match self {
            Ending::Done | Ending::DoneAndFailed => true,
            Ending::Undone => false,
        }
    }

    /// Returns whether it is done and doesn't fail.
    pub fn is_ok(self) -> bool
        ensures { result ≡ goes_well self }
    {
        match self {
            Ending::Done => true,
            Ending::DoneAndFailed | Ending::Undone => false,
        }
    }
}

/// Returns the value where the call went well. Fails if a device call fails or memory runs out.
pub fn give<T: Drop>(outcome: Result<(), Failed>, value: T) -> Result<T, Trouble>
    ensures fate { fate_of result ≡ failing outcome }
    ensures value { IfOk result (λ given. given ≡ value) }
{
    match outcome {
        Ok(()) => Ok(value),
        Err(Failed) => Err(Trouble::Failed),
    }
}
