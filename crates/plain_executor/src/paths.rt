//! The paths of leader epochs.

ghost use Rattle.std.specs.Prelude.{◌≡◌, option_map};
ghost use Rattle.plain_log.specs.State.{path_of, has_path as has_path_of};

use plain_log::{Path, State};
use shared_log::Batches;

/// The log of the leader of this epoch.
pub(crate) fn path(paths: &[Path], epoch: u32) -> Option<&Batches>
    ensures { option_map (λ log. log.now) result ≡ path_of paths.now epoch }
{
    for path in paths {
        if path.epoch == epoch {
            return Some(&path.log);
        }
    }
    None
}

/// Whether the lead of this epoch was taken.
pub(crate) fn has_path(p: &State, epoch: u32) -> bool
    ensures { result ≡ has_path_of p.now epoch }
{
    path(p.paths.as_slice(), epoch).is_some()
}
