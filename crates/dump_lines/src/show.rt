//! The receiver of a dump's batches, one by one as they are found.

ghost use Rattle.std.specs.Prelude.{◌≡◌, ◌++◌, ◌∷◌, [], List, OnOk, IsOk, None};
ghost use Rattle.record_batch.specs.Check.{checked};
ghost use Rattle.dump_lines.specs.declared.seeing.Shown.{Shown};

use crate::seeing::Shown;
use std::alloc::AllocError;
use thiserror::Error;
use tier_base::Failed;

/// Why a batch wasn't shown.
#[derive(Clone, Copy, Debug, PartialEq, Eq, Drop, Error)]
pub enum ShowRefusal {
    /// A write failed.
    #[error("write fault")]
    Failed,
    /// The text could not be allocated.
    #[error("out of memory")]
    NoMemory,
}

impl From<AllocError> for ShowRefusal {
    fn from(_error: AllocError) -> ShowRefusal {
        ShowRefusal::NoMemory
    }
}

impl From<Failed> for ShowRefusal {
    fn from(_error: Failed) -> ShowRefusal {
        ShowRefusal::Failed
    }
}

/// A receiver of batches.
pub trait Show {
    /// These batches were shown to it, and nothing else, where this is observable.
    ghost told: { Self → List Shown → Type 0 };

    /// Shows a batch, with its bytes.
    fn show(&mut self, one: &Shown, batch: &[u8]) -> Result<(), ShowRefusal>
        requires { one.now.refused ≡ None → IsOk (checked batch.now) }
        ensures { OnOk result ((batches : List Shown)
            → told self.old batches → told self.new (batches ++ one.now ∷ [])) };
}
