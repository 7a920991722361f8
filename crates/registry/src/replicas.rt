//! All replicas of a registry at once: the high watermark over them, and what an election makes of them.

ghost use Rattle.std.specs.Prelude.{◌≡◌, Some, None, min, option_map, unwrap_or, if◌then◌else◌};
ghost use Rattle.registry.specs.Replicas.{least_acked as least_of, mark_over as mark_of};
ghost use Rattle.registry.specs.Replicas.{renewed as renewed_with, reset_acks, all_out as all_outside};

use crate::registry::Replica;
use tier_base::Items;

/// The least acknowledged end of the replicas in sync.
fn least_acked(replicas: &[Replica]) -> Option<u64>
    ensures { result ≡ least_of replicas.now }
{
    let mut least: Option<u64> = None;
    let mut at = replicas.len();
    while at > 0 {
        at -= 1;
        least = with_replica(&replicas[at], least);
    }
    least
}

/// The least with one replica more.
fn with_replica(replica: &Replica, least: Option<u64>) -> Option<u64>
    ensures { result ≡ (if replica.now.in_sync
        then Some (unwrap_or (option_map (min replica.now.acked) least) replica.now.acked) else least) }
{
    if !replica.in_sync {
        return least;
    }
    match least {
        Some(end) => Some(replica.acked.min(end)),
        None => Some(replica.acked),
    }
}

/// The high watermark, which never falls.
pub(crate) fn mark_over(mark: u64, replicas: &[Replica]) -> u64
    ensures { result ≡ mark_of mark replicas.now }
{
    match least_acked(replicas) {
        Some(least) => mark.max(least),
        None => mark,
    }
}

/// A replica in a new epoch.
fn renewed(replica: &Replica, mark: u64) -> Replica
    ensures { result ≡ renewed_with mark replica.now }
{
    Replica {
        in_sync: replica.in_sync,
        acked: if replica.in_sync { mark } else { 0 },
    }
}

/// Begins a new epoch: those in sync have acknowledged the high watermark, the others nothing.
pub(crate) fn reset(replicas: &mut Items<Replica>, mark: u64)
    ensures { replicas.new ≡ reset_acks mark replicas.old }
{
    for at in 0..replicas.len() {
        let replica = renewed(replicas.get(at), mark);
        let _ = replicas.replace(at, replica);
    }
}

/// Takes every replica out of those in sync, and forgets what they acknowledged.
pub(crate) fn all_out(replicas: &mut Items<Replica>)
    ensures { replicas.new ≡ all_outside replicas.old }
{
    for at in 0..replicas.len() {
        let outsider = Replica {
            in_sync: false,
            acked: 0,
        };
        let _ = replicas.replace(at, outsider);
    }
}
