//! Where a broker's log is: open, or only its disk.
//!
//! A call takes the open log out, works on it, and puts it back, as its disk alone where the disk failed.

ghost use Rattle.std.specs.Prelude.{◌≡◌, ◌↔◌, true, false, IsTrue, IsFalse, IsErrOf};
ghost use Rattle.log_steps.specs.Reopens.{Reopens};
ghost use Rattle.local_log.specs.Coheres.{Coheres};
ghost use Rattle.tier_base.specs.declared.fault.Trouble.TheVariants.{Failed};
ghost use Rattle.local_log.specs.declared.refusal.AppendRefusal.TheVariants as append;
ghost use Rattle.local_log.specs.declared.refusal.RollRefusal.TheVariants as roll;
ghost use Rattle.broker_log.specs.declared.place.LogOrDisk.TheVariants as place;
ghost use Rattle.broker_log.specs.Seen.{is_up, is_down, Up, Down};
ghost use Rattle.broker_log.specs.Inside.{kept_of};

use disk_model::Disk;
use local_log::{AppendRefusal, LocalLog, RollRefusal};
use std::mem;
use tier_base::{Settings, Trouble};

/// Where a log is.
#[derive(Drop)]
pub(crate) enum LogOrDisk<D: Disk> {
    /// It is open.
    Up(LocalLog<D>),
    /// The broker is down. Its log is opened with these settings again.
    Down(Settings, D),
    /// A call works on it.
    Away,
}

/// Takes an open log out.
pub(crate) fn taken<D: Disk>(place: &mut LogOrDisk<D>) -> LocalLog<D>
    requires { IsTrue (is_up (kept_of place.old)) }
    ensures { kept_of place.old ≡ Up result }
{
    match mem::replace(place, LogOrDisk::Away) {
        LogOrDisk::Up(log) => log,
        LogOrDisk::Down(..) | LogOrDisk::Away => unreachable!(),
    }
}

/// Takes the disk of a broker that is down out, and its log's settings.
pub(crate) fn taken_disk<D: Disk>(place: &mut LogOrDisk<D>) -> (Settings, D)
    requires { IsTrue (is_down (kept_of place.old)) }
    ensures { kept_of place.old ≡ Down result.0 result.1 }
{
    match mem::replace(place, LogOrDisk::Away) {
        LogOrDisk::Down(settings, disk) => (settings, disk),
        LogOrDisk::Up(_) | LogOrDisk::Away => unreachable!(),
    }
}

/// Puts a log where it was, or its disk and these settings alone where that failed.
pub(crate) fn placed<D: Disk>(settings: Settings, log: LocalLog<D>, failed: bool) -> LogOrDisk<D>
    ensures up { failed ≡ false → result ≡ place.Up log }
    ensures down { failed ≡ true → result ≡ place.Down settings log.disk }
    ensures again { failed ≡ true → Reopens (D.content log.disk) }
    ensures coheres { failed ≡ false → log.broken ≡ false → IsTrue (D.content log.disk).is_observable → Coheres log }
{
    log.coheres();
    if failed {
        LogOrDisk::Down(settings, log.close())
    } else {
        LogOrDisk::Up(log)
    }
}

/// Whether a write ended by a fault of the disk.
pub(crate) fn is_fault<T>(outcome: &Result<T, Trouble>) -> bool
    ensures { IsTrue result ↔ IsErrOf outcome.now Failed }
{
    matches!(outcome, Err(Trouble::Failed))
}

/// Whether an append ended so.
pub(crate) fn is_append_fault<T>(outcome: &Result<T, AppendRefusal>) -> bool
    ensures { IsTrue result ↔ IsErrOf outcome.now append.DiskFault }
{
    matches!(outcome, Err(AppendRefusal::DiskFault))
}

/// Whether a roll ended so.
pub(crate) fn is_roll_fault<T>(outcome: &Result<T, RollRefusal>) -> bool
    ensures { IsTrue result ↔ IsErrOf outcome.now roll.DiskFault }
{
    matches!(outcome, Err(RollRefusal::DiskFault))
}
