//! Whether bytes are a run that a log may take: each batch passes every test, and begins where the one before it ends.
//! Of batches that were checked before, only the heads are read.

ghost use Rattle.std.specs.Prelude.{◌≡◌, ◌↔◌, ◌+◌, ◌<◌, ◌≤◌, ◌^◌, None, length, drop, IsTrue, IfSome};
ghost use Rattle.record_batch.specs.Check.{AreChecked};
ghost use Rattle.segment_file.specs.Walk.{size_in};
ghost use Rattle.local_log.specs.Run.{IsRunFor};
ghost use Rattle.local_log.specs.Admitting.{AreFrom, Meets, AdvancesTo, spot_behind, spot_after};

use crate::log::LocalLog;
use crate::run::head_at;
use disk_model::Disk;
use record_batch::Head;
use segment_file::{Found, walk};

/// Epochs are below 2^31.
const EPOCHS: u32 = 1 << 31;

/// A place in a run, and what is asked of the batch there: that it begins at the base and so many offsets further on,
/// and the epoch that its own is not below.
#[derive(Clone, Copy)]
struct Spot {
    at: usize,
    base: u64,
    more: u64,
    epoch: u32,
}

impl<D: Disk> LocalLog<D> {
    /// Whether the log may take bytes as a run.
    pub fn takes(&self, run: &[u8]) -> bool
        ensures { IsTrue result ↔ IsRunFor self.now.end self.now.line run.now }
    {
        run.len() > 0 && are_from(run, self.first_spot())
    }

    /// Whether the log may take bytes as a run, of batches that were checked before: neither their checksums nor their
    /// records are read again.
    pub fn takes_checked(&self, run: &[u8]) -> bool
        requires { AreChecked run.now }
        ensures { IsTrue result ↔ IsRunFor self.now.end self.now.line run.now }
    {
        run.len() > 0 && checked_are_from(run, self.first_spot())
    }

    /// The spot at the front of a run for this log.
    fn first_spot(&self) -> Spot
        ensures { result ≡ spot_behind self.now.end self.now.line }
    {
        Spot {
            at: 0,
            base: self.active.end(),
            more: 0,
            epoch: self.line.last_epoch().unwrap_or(0),
        }
    }
}

/// Whether bytes are batches that may be taken, from a spot on.
fn are_from(run: &[u8], first: Spot) -> bool
    requires { first.at ≤ length run.now }
    ensures { IsTrue result ↔ AreFrom run.now first }
{
    let mut spot = first;
    while spot.at < run.len() {
        let Some(next) = next_spot(run, spot) else {
            return false;
        };
        spot = next;
    }
    true
}

/// The spot after the batch that is at one and meets what is asked there.
fn next_spot(run: &[u8], spot: Spot) -> Option<Spot>
    requires { spot.at < length run.now }
    ensures some { IfSome result (λ next. AdvancesTo run.now spot next) }
    ensures none { result ≡ None → AreFrom run.now spot → ⊥ }
{
    let Found::Batch(head) = walk(run, spot.at) else {
        return None;
    };
    if meets(spot, &head) {
        Some(spot_after(spot.at, &head))
    } else {
        None
    }
}

/// Whether bytes are batches that may be taken, from a spot on, where they are batches that were checked.
fn checked_are_from(run: &[u8], first: Spot) -> bool
    requires inside { first.at ≤ length run.now }
    requires checked { AreChecked (drop first.at run.now) }
    ensures { IsTrue result ↔ AreFrom run.now first }
{
    let mut spot = first;
    while spot.at < run.len() {
        let Some(next) = next_checked(run, spot) else {
            return false;
        };
        spot = next;
    }
    true
}

/// The spot after the checked batch that is at one, where that batch meets what is asked there.
fn next_checked(run: &[u8], spot: Spot) -> Option<Spot>
    requires inside { spot.at < length run.now }
    requires checked { AreChecked (drop spot.at run.now) }
    ensures some { IfSome result (λ next. AdvancesTo run.now spot next) }
    ensures rest { IfSome result (λ next. AreChecked (drop next.at run.now)) }
    ensures none { result ≡ None → AreFrom run.now spot → ⊥ }
{
    let head = head_at(run, spot.at);
    if meets(spot, &head) {
        Some(spot_after(spot.at, &head))
    } else {
        None
    }
}

/// Whether a batch of this head meets what a spot asks.
fn meets(spot: Spot, head: &Head) -> bool
    ensures { IsTrue result ↔ Meets spot head.now }
{
    let base = head.base_offset.cast_unsigned();
    let epoch = head.leader_epoch.cast_unsigned();
    if base < spot.base {
        return false;
    }
    if base - spot.base != spot.more {
        return false;
    }
    if epoch < spot.epoch {
        return false;
    }
    epoch < EPOCHS
}

/// The spot after a batch of this head, which is at a place.
fn spot_after(at: usize, head: &Head) -> Spot
    requires { at + size_in head.now < 2 ^ 64 }
    ensures { result ≡ spot_after at head.now }
{
    let size = 12 + head.batch_length.cast_unsigned() as usize;
    Spot {
        at: at + size,
        base: head.base_offset.cast_unsigned(),
        more: head.last_offset_delta.cast_unsigned() as u64 + 1,
        epoch: head.leader_epoch.cast_unsigned(),
    }
}
