//! The first part of an opening: the manifest is written again as it was read, so that no crash brings an older one
//! back; then each listed file is cut to its length and synced, and the log files that aren't listed are removed,
//! since a later roll appends to a new file.

ghost use Rattle.std.specs.Prelude.{◌≡◌, ◌≢◌, ◌↔◌, ◌+◌, ◌*◌, ◌≤◌, [], ℕ, length, OnOk, IsTrue, IsFalse};
ghost use Rattle.tier_base.specs.Device.{fate_of, failing};
ghost use Rattle.disk_model.specs.Content.{LeavesOnly};
ghost use Rattle.log_steps.specs.Fronts.{Rising};
ghost use Rattle.log_steps.specs.Runs.{Runs};
ghost use Rattle.log_steps.specs.Rewrites.{Restores, RestoresAll, AfterCuts, Removes};
ghost use Rattle.log_steps.specs.Rewrites.{RemovesOne, IsUnlisted, IsOther, Rewrites};

use disk_model::{Disk, FileName};
use log_manifest::Extent;
use tier_base::{Failed, Trouble};

/// Writes the manifest again, cuts the files to its lengths, and removes the log files of these names that it doesn't
/// list. Fails if a device call fails or memory runs out.
pub fn rewrite<D: Disk>(
    disk: &mut D,
    manifest: &[u8],
    extents: &[Extent],
    names: &[FileName],
) -> Result<(), Trouble>
    requires rising { Rising extents.now }
    requires room { 2 * length extents.now + length names.now ≤ D.spare disk.old }
    ensures content { Rewrites manifest.now extents.now names.now (fate_of result)
        (D.content disk.old) (D.content disk.new) }
    ensures control { Runs (fate_of result) (D.control disk.old) (D.control disk.new) }
{
    disk.replace(FileName::Manifest, manifest)?;
    restore_all(disk, extents)?;
    remove_others(disk, extents, names)?;
    Ok(())
}

/// Cuts a segment's file to its length, and syncs it.
fn restore<D: Disk>(disk: &mut D, extent: Extent) -> Result<(), Failed>
    requires { 2 ≤ D.spare disk.old }
    ensures content { Restores extent (failing result) (D.content disk.old) (D.content disk.new) }
    ensures room { OnOk result (D.spare disk.new + 2 ≡ D.spare disk.old) }
    ensures control { Runs (failing result) (D.control disk.old) (D.control disk.new) }
{
    let name = FileName::Log(extent.base);
    disk.cut(name, extent.len as u64)?;
    disk.sync(name)
}

/// Cuts all segments' files to their lengths.
fn restore_all<D: Disk>(disk: &mut D, extents: &[Extent]) -> Result<(), Failed>
    requires rising { Rising extents.now }
    requires room { 2 * length extents.now ≤ D.spare disk.old }
    ensures since { LeavesOnly (D.content disk.old) (D.content disk.new)
        (AfterCuts extents.now (D.content disk.old)) }
    ensures is_observable { (D.content disk.new).is_observable ≡ (D.content disk.old).is_observable }
    ensures ok { OnOk result
        (RestoresAll extents.now extents.now [] (D.content disk.old) (D.content disk.new)) }
    ensures room { OnOk result (D.spare disk.new + 2 * length extents.now ≡ D.spare disk.old) }
    ensures control { Runs (failing result) (D.control disk.old) (D.control disk.new) }
{
    for extent in extents {
        restore(disk, *extent)?;
    }
    Ok(())
}

/// Whether a segment has this base.
fn is_listed(extents: &[Extent], base: u64) -> bool
    ensures no { IsFalse result ↔ IsUnlisted extents.now base }
{
    for extent in extents {
        if extent.base == base {
            return true;
        }
    }
    false
}

/// Whether a file is a log segment's that isn't listed.
fn is_other(extents: &[Extent], name: FileName) -> bool
    ensures { IsTrue result ↔ IsOther extents.now name }
{
    match name {
        FileName::Log(base) => !is_listed(extents, base),
        _ => false,
    }
}

/// Removes a log file that isn't listed.
fn remove_other<D: Disk>(disk: &mut D, extents: &[Extent], name: FileName) -> Result<(), Failed>
    requires { 1 ≤ D.spare disk.old }
    ensures since { LeavesOnly (D.content disk.old) (D.content disk.new)
        (AfterCuts extents.now (D.content disk.old)) }
    ensures is_observable { (D.content disk.new).is_observable ≡ (D.content disk.old).is_observable }
    ensures ok { OnOk result (RemovesOne extents.now name (D.content disk.old) (D.content disk.new)) }
    ensures room { D.spare disk.old ≤ D.spare disk.new + 1 }
    ensures control { Runs (failing result) (D.control disk.old) (D.control disk.new) }
{
    if is_other(extents, name) {
        disk.remove(name)
    } else {
        Ok(())
    }
}

/// Removes the log files of these names that aren't listed.
fn remove_others<D: Disk>(
    disk: &mut D,
    extents: &[Extent],
    names: &[FileName],
) -> Result<(), Failed>
    requires room { length names.now ≤ D.spare disk.old }
    ensures since { LeavesOnly (D.content disk.old) (D.content disk.new)
        (AfterCuts extents.now (D.content disk.old)) }
    ensures is_observable { (D.content disk.new).is_observable ≡ (D.content disk.old).is_observable }
    ensures ok { OnOk result
        (Removes extents.now names.now (D.content disk.old) (D.content disk.new)) }
    ensures control { Runs (failing result) (D.control disk.old) (D.control disk.new) }
{
    for name in names {
        remove_other(disk, extents, *name)?;
    }
    Ok(())
}
