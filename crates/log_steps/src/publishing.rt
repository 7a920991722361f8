//! Making a manifest the present one: what it lists is synced first, so that no crash leaves a manifest that lists more
//! than there is.

ghost use Rattle.std.specs.Prelude.{◌≡◌, ◌≢◌, ◌+◌, ◌≤◌, OnOk};
ghost use Rattle.tier_base.specs.declared.plain.FileName.TheVariants as file;
ghost use Rattle.tier_base.specs.Device.{fate_of};
ghost use Rattle.log_steps.specs.Publishes.{Publishes, LeavesEither};
ghost use Rattle.log_steps.specs.Runs.{Runs};

use disk_model::{Disk, FileName};
use tier_base::Trouble;

/// Syncs a log segment's file and then makes these bytes the manifest. Fails if a device call fails or memory runs out.
pub fn publish<D: Disk>(disk: &mut D, name: FileName, bytes: &[u8]) -> Result<(), Trouble>
    requires room { 1 ≤ D.spare disk.old }
    requires other { name ≢ file.Manifest }
    ensures content { Publishes name bytes.now (fate_of result) (D.content disk.old) (D.content disk.new) }
    ensures either { LeavesEither (D.content disk.old) (D.content disk.new) }
    ensures control { Runs (fate_of result) (D.control disk.old) (D.control disk.new) }
    ensures spare { OnOk result (D.spare disk.new + 1 ≡ D.spare disk.old) }
{
    disk.sync(name)?;
    disk.replace(FileName::Manifest, bytes)
}
