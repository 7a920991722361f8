//! Why bytes are not a manifest.

ghost use Rattle.std.specs.Prelude.{◌≡◌};

use std::alloc::AllocError;
use thiserror::Error;

/// Why bytes are not a manifest: the first fault from the left.
#[derive(Clone, Copy, Debug, PartialEq, Eq, Drop, Error)]
pub enum ManifestRefusal {
    /// The field at this position is missing, is cut short or breaks a rule, or this byte comes after the last field.
    /// A position past the end of its type is reported as that end.
    #[error("the manifest can't go on so at {at}")]
    Bad { at: u32 },
    /// Out of memory.
    #[error("no memory for the manifest")]
    NoMemory,
}

impl From<AllocError> for ManifestRefusal {
    ghost use Rattle.log_manifest.specs.declared.refusal.ManifestRefusal.TheVariants.{NoMemory};

    ghost from_gives = { λ _ why. why ≡ NoMemory };

    fn from(_error: AllocError) -> ManifestRefusal {
        ManifestRefusal::NoMemory
    }
}
