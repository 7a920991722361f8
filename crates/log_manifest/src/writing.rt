//! A manifest into its bytes. specs/Spelling.antt has their table.

ghost use Rattle.std.specs.Prelude.{◌≡◌, ◌≤◌, ◌++◌, length, OnOk, IfOk};
ghost use Rattle.std.specs.Int.{w32, w64, to_be_bytes};
ghost use Rattle.log_manifest.specs.Rules.{IsManifest};
ghost use Rattle.log_manifest.specs.Spelling.{front_bytes, segment_bytes, segments_bytes};
ghost use Rattle.log_manifest.specs.Spelling.{entry_bytes, entries_bytes, manifest_bytes};

use crate::manifest::{Extent, Manifest};
use std::alloc::{AllocError, Global};

/// TLM1, the first four bytes.
const TAG: u32 = 0x544C_4D31;

/// The bytes of a manifest. Fails only if memory runs out.
#[tactic(auto, unfolding(crate::specs::Spelling::manifest_bytes))]
pub fn encode(alloc: Global, manifest: &Manifest) -> Result<Vec<u8>, AllocError>
    requires { IsManifest manifest.now }
    ensures { IfOk result (λ bytes. bytes.items ≡ manifest_bytes manifest.now) }
{
    let segments = manifest.segments.as_slice();
    let entries = manifest.line.entries();
    let mut out = Vec::new(alloc);
    push_front(
        &mut out,
        manifest.incarnation,
        manifest.local_start,
        segments.len() as u32,
    )?;
    push_segments(&mut out, segments)?;
    push_u32(&mut out, entries.len() as u32)?;
    push_entries(&mut out, entries)?;
    Ok(out)
}

fn push_u32(out: &mut Vec<u8>, number: u32) -> Result<(), AllocError>
    ensures { OnOk result (out.new.items ≡ out.old.items ++ to_be_bytes w32 number) }
{
    out.extend_from_slice(number.to_be_bytes().as_slice())
}

fn push_u64(out: &mut Vec<u8>, number: u64) -> Result<(), AllocError>
    ensures { OnOk result (out.new.items ≡ out.old.items ++ to_be_bytes w64 number) }
{
    out.extend_from_slice(number.to_be_bytes().as_slice())
}

/// Writes what precedes the segments.
#[tactic(auto, unfolding(crate::specs::Spelling::front_bytes))]
fn push_front(
    out: &mut Vec<u8>,
    incarnation: u32,
    local_start: u64,
    count: u32,
) -> Result<(), AllocError>
    ensures { OnOk result (out.new.items ≡ out.old.items ++ front_bytes incarnation local_start count) }
{
    push_u32(out, TAG)?;
    push_u32(out, incarnation)?;
    push_u64(out, local_start)?;
    push_u32(out, count)
}

/// Writes a segment's base and length.
#[tactic(auto, unfolding(crate::specs::Spelling::segment_bytes))]
fn push_segment(out: &mut Vec<u8>, extent: Extent) -> Result<(), AllocError>
    ensures { OnOk result (out.new.items ≡ out.old.items ++ segment_bytes extent) }
{
    push_u64(out, extent.base)?;
    push_u32(out, extent.len)
}

/// Writes the segments.
fn push_segments(out: &mut Vec<u8>, segments: &[Extent]) -> Result<(), AllocError>
    ensures { OnOk result (out.new.items ≡ out.old.items ++ segments_bytes segments.now) }
{
    for extent in segments {
        push_segment(out, *extent)?;
    }
    Ok(())
}

/// Writes an epoch and its start.
#[tactic(auto, unfolding(crate::specs::Spelling::entry_bytes))]
fn push_entry(out: &mut Vec<u8>, entry: (u32, u64)) -> Result<(), AllocError>
    ensures { OnOk result (out.new.items ≡ out.old.items ++ entry_bytes entry) }
{
    push_u32(out, entry.0)?;
    push_u64(out, entry.1)
}

/// Writes the line's entries.
fn push_entries(out: &mut Vec<u8>, entries: &[(u32, u64)]) -> Result<(), AllocError>
    ensures { OnOk result (out.new.items ≡ out.old.items ++ entries_bytes entries.now) }
{
    for entry in entries {
        push_entry(out, *entry)?;
    }
    Ok(())
}
