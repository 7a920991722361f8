//! How long the parts of a packed segment are, and the bytes that say so. The module Layout of specs/ has the table.

ghost use Rattle.std.specs.Prelude.{◌≡◌, ◌+◌, ◌≤◌, ◌++◌, length, IfOk, OnOk};
ghost use Rattle.std.specs.Int.{w32, to_be_bytes};
ghost use Rattle.tier_base.specs.Layout.{layout_bytes, length_at, lengths_in, layout_in};

use crate::blob::Blob;
use std::alloc::{AllocError, Global};

/// The lengths of the parts of a packed segment, in bytes. Its object has the parts in this order.
#[derive(Clone, Copy, Debug, PartialEq, Eq)]
pub struct Layout {
    /// The log segment.
    pub log: u32,
    /// The offset index.
    pub index: u32,
    /// The time index.
    pub times: u32,
    /// The leader epochs.
    pub epochs: u32,
}

impl Layout {
    /// The bytes of this layout. Fails only if memory runs out.
    #[tactic(auto, unfolding(crate::specs::Layout::layout_bytes))]
    pub fn to_bytes(&self, alloc: Global) -> Result<Blob, AllocError>
        ensures { IfOk result (λ blob. blob ≡ layout_bytes self.now) }
    {
        let mut bytes = Vec::new(alloc);
        bytes.push(1)?;
        push(&mut bytes, self.log)?;
        push(&mut bytes, self.index)?;
        push(&mut bytes, self.times)?;
        push(&mut bytes, self.epochs)?;
        Ok(Blob::from_vec(bytes))
    }

    /// The layout of these bytes, where they are one's.
    pub fn from_bytes(bytes: &[u8]) -> Option<Layout>
        ensures { result ≡ layout_in bytes.now }
    {
        let [version, fields @ ..] = bytes else {
            return None;
        };
        if *version != 1 || fields.len() != 16 {
            return None;
        }
        Some(Layout {
            log: length_at(fields, 0),
            index: length_at(fields, 4),
            times: length_at(fields, 8),
            epochs: length_at(fields, 12),
        })
    }
}

/// Writes a length.
fn push(out: &mut Vec<u8>, length: u32) -> Result<(), AllocError>
    ensures { OnOk result (out.new.items ≡ out.old.items ++ to_be_bytes w32 length) }
{
    out.extend_from_slice(length.to_be_bytes().as_slice())
}

/// The length whose four bytes are at a place.
fn length_at(fields: &[u8], at: usize) -> u32
    requires { at + 4 ≤ length fields.now }
    ensures { result ≡ length_at at fields.now }
{
    let field = &fields[at..at + 4];
    u32::from_be_bytes([field[0], field[1], field[2], field[3]])
}
