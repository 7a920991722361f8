//! A registry's view into its file. The module Spelling of specs/ has the table.

ghost use Rattle.std.specs.Prelude.{◌≡◌, ◌++◌, ◌∷◌, [], take, OnOk, IfOk};
ghost use Rattle.std.specs.Int.{w16, w32, w64, to_be_bytes};
ghost use Rattle.registry_file.specs.Spelling.{front_bytes, marks_bytes, ends_bytes, view_bytes};

use registry::RegView;
use std::alloc::{AllocError, Global};

/// TLR1, the first four bytes.
const TAG: u32 = 0x544C_5231;

/// The file of a view. Fails only if memory runs out.
#[tactic(auto, unfolding(crate::specs::Spelling::view_bytes))]
pub fn reg_encode(alloc: Global, view: &RegView) -> Result<Vec<u8>, AllocError>
    ensures { IfOk result (λ bytes. bytes.items ≡ view_bytes view.now) }
{
    let mut out = Vec::new(alloc);
    push_front(&mut out, view)?;
    push_marks(&mut out, view)?;
    push_ends(&mut out, ends(view))?;
    Ok(out)
}

/// Lends the acknowledged ends of the brokers.
fn ends(view: &RegView) -> &[u64]
    ensures { result.now ≡ take view.now.brokers view.now.acked }
{
    let count = (view.brokers as usize).min(8);
    &view.acked[..count]
}

fn push_u8(out: &mut Vec<u8>, number: u8) -> Result<(), AllocError>
    ensures { OnOk result (out.new.items ≡ out.old.items ++ number ∷ []) }
{
    out.push(number)?;
    Ok(())
}

fn push_u16(out: &mut Vec<u8>, number: u16) -> Result<(), AllocError>
    ensures { OnOk result (out.new.items ≡ out.old.items ++ to_be_bytes w16 number) }
{
    out.extend_from_slice(number.to_be_bytes().as_slice())
}

fn push_u32(out: &mut Vec<u8>, number: u32) -> Result<(), AllocError>
    ensures { OnOk result (out.new.items ≡ out.old.items ++ to_be_bytes w32 number) }
{
    out.extend_from_slice(number.to_be_bytes().as_slice())
}

fn push_u64(out: &mut Vec<u8>, number: u64) -> Result<(), AllocError>
    ensures { OnOk result (out.new.items ≡ out.old.items ++ to_be_bytes w64 number) }
{
    out.extend_from_slice(number.to_be_bytes().as_slice())
}

/// Writes what precedes the marks.
#[tactic(auto, unfolding(crate::specs::Spelling::front_bytes))]
fn push_front(out: &mut Vec<u8>, view: &RegView) -> Result<(), AllocError>
    ensures { OnOk result (out.new.items
        ≡ out.old.items ++ front_bytes view.now.brokers view.now.epoch view.now.leader.0) }
{
    push_u32(out, TAG)?;
    push_u16(out, view.brokers)?;
    push_u32(out, view.epoch)?;
    push_u16(out, view.leader.0)
}

/// Writes the high watermark, the log start offset, and who is in sync.
#[tactic(auto, unfolding(crate::specs::Spelling::marks_bytes))]
fn push_marks(out: &mut Vec<u8>, view: &RegView) -> Result<(), AllocError>
    ensures { OnOk result (out.new.items
        ≡ out.old.items ++ marks_bytes view.now.mark view.now.start view.now.in_sync) }
{
    push_u64(out, view.mark)?;
    push_u64(out, view.start)?;
    push_u8(out, view.in_sync)
}

/// Writes acknowledged ends.
fn push_ends(out: &mut Vec<u8>, ends: &[u64]) -> Result<(), AllocError>
    ensures { OnOk result (out.new.items ≡ out.old.items ++ ends_bytes ends.now) }
{
    for end in ends {
        push_u64(out, *end)?;
    }
    Ok(())
}
