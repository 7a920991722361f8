//! How a call on something outside the program fails.

ghost use Rattle.std.specs.Prelude.{◌≡◌};
ghost use Rattle.tier_base.specs.declared.fault.Trouble.TheVariants.{Failed, NoMemory};

use std::alloc::{AllocError, AllocFailed};
use thiserror::Error;

/// The call failed outside, as a read, or a store that doesn't answer. Who was called counted it.
#[derive(Clone, Copy, Debug, PartialEq, Eq, Error)]
#[error("failed")]
pub struct Failed;

/// Why a call that reaches outside and takes memory didn't succeed.
#[derive(Clone, Copy, Debug, PartialEq, Eq, Error)]
pub enum Trouble {
    /// The call failed outside, and was counted.
    #[error("failed")]
    Failed,
    /// Memory ran out.
    #[error("out of memory")]
    NoMemory,
}

impl From<Failed> for Trouble {
    ghost from_gives = { λ _ e. e ≡ Failed };

    fn from(_e: Failed) -> Trouble {
        Trouble::Failed
    }
}

impl From<AllocError> for Trouble {
    ghost from_gives = { λ _ e. e ≡ NoMemory };

    fn from(_e: AllocError) -> Trouble {
        Trouble::NoMemory
    }
}

impl<T: Drop> From<AllocFailed<T>> for Trouble {
    ghost from_gives = { λ _ e. e ≡ NoMemory };

    fn from(_e: AllocFailed<T>) -> Trouble {
        Trouble::NoMemory
    }
}
