//! Custom metadata of a segment, as its events store it (KIP-917, CustomMetadata).

ghost use Rattle.std.specs.Prelude.{◌≡◌, IfOk};
ghost use Rattle.segment_meta.specs.Rules.{bare_custom};

use std::alloc::{AllocError, Global};
use tier_base::Blob;

/// A copy of custom metadata. Fails only if memory runs out.
pub fn copied_custom(alloc: Global, custom: &Option<Blob>) -> Result<Option<Blob>, AllocError>
    ensures { IfOk result (λ copy. copy ≡ custom.now) }
{
    match custom {
        Some(bytes) => Ok(Some(Blob::from_slice(alloc, bytes.as_slice())?)),
        None => Ok(None),
    }
}

/// The custom metadata of an update that has none to add, without allocating.
pub fn bare_custom(alloc: Global, packed: bool) -> Option<Blob>
    ensures { result ≡ bare_custom packed }
{
    if packed {
        Some(Blob::from_vec(Vec::new(alloc)))
    } else {
        None
    }
}
