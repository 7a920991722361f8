//! The bodies of the checksum, by name.

ghost use Rattle.std.specs.Prelude.{◌≡◌};
ghost use Rattle.batch_prims.specs.Crc.{crc32c as crc_of};

use batch_prims::{crc32c, crc32c_bitwise, crc32c_bytewise, crc32c_sliced};

/// A body of the checksum.
#[derive(Clone, Copy, Debug)]
pub enum Body {
    /// Sixteen bytes a step, by four registers.
    Braided,
    /// Sixteen bytes a step, by one register.
    Sliced,
    /// A byte a step.
    Bytewise,
    /// A bit a step.
    Bitwise,
}

impl Body {
    /// The checksum of the bytes by this body.
    pub fn checksum(self, bytes: &[u8]) -> u32
        ensures { result ≡ crc_of bytes.now }
    {
        match self {
            Body::Braided => crc32c(bytes),
            Body::Sliced => crc32c_sliced(bytes),
            Body::Bytewise => crc32c_bytewise(bytes),
            Body::Bitwise => crc32c_bitwise(bytes),
        }
    }
}
