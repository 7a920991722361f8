//! What a registry holds, as plain numbers that can be copied, and a registry out of them.

ghost use Rattle.std.specs.Prelude.{◌≡◌, ◌≤◌, ◌<◌, ◌+◌, ◌*◌, length, if◌then◌else◌, slice_get, Some, IfOk};
ghost use Rattle.registry.specs.View.{has_bit as is_set, eight, sync_bits as bits_of, acked_ends, view_of, registry_of};

use crate::registry::{Registry, Replica};
use std::alloc::{AllocError, Global};
use tier_base::{BrokerId, Items};

/// What a registry holds. The module View of specs/ has its rules, which a file of it keeps.
#[derive(Clone, Copy, Debug, PartialEq, Eq)]
pub struct RegView {
    /// How many brokers there are, 8 at most.
    pub brokers: u16,
    /// The leader epoch.
    pub epoch: u32,
    pub leader: BrokerId,
    /// Which brokers are in sync: bit b is set where broker b is.
    pub in_sync: u8,
    /// The flushed end that each broker acknowledged last in this epoch. The places past the last broker are 0.
    pub acked: [u64; 8],
    /// The high watermark.
    pub mark: u64,
    /// The log start offset.
    pub start: u64,
}

/// The bits with one more below them.
fn with_bit(in_sync: bool, bits: u8) -> u8
    requires { bits < 128 }
    ensures { result ≡ (if in_sync then 1 else 0) + 2 * bits }
{
    in_sync as u8 + 2 * bits
}

/// Who is in sync, bit by bit.
fn sync_bits(replicas: &[Replica]) -> u8
    requires { length replicas.now ≤ 8 }
    ensures { result ≡ bits_of replicas.now }
{
    let mut bits = 0u8;
    let mut at = replicas.len();
    while at > 0 {
        at -= 1;
        bits = with_bit(replicas[at].in_sync, bits);
    }
    bits
}

/// The ends that were acknowledged, and 0 past them.
fn ends(replicas: &[Replica]) -> [u64; 8]
    requires { length replicas.now ≤ 8 }
    ensures { result ≡ eight (acked_ends replicas.now) }
{
    let mut acked = [0; 8];
    for b in 0..replicas.len() {
        acked[b] = replicas[b].acked;
    }
    acked
}

/// A broker's replica.
fn replica(view: &RegView, b: u16) -> Replica
    requires { b < 8 }
    ensures in_sync { result.in_sync ≡ is_set view.now.in_sync b }
    ensures acked { slice_get view.now.acked b ≡ Some result.acked }
{
    Replica {
        in_sync: view.in_sync >> b & 1 == 1,
        acked: view.acked[b as usize],
    }
}

impl Registry {
    /// Returns what it holds.
    pub fn get(&self) -> RegView
        requires { length self.now.replicas ≤ 8 }
        ensures { result ≡ view_of self.now }
    {
        let replicas = self.replicas.as_slice();
        RegView {
            brokers: replicas.len() as u16,
            epoch: self.epoch,
            leader: self.leader,
            in_sync: sync_bits(replicas),
            acked: ends(replicas),
            mark: self.mark,
            start: self.start,
        }
    }

    /// Makes the registry that holds this. Fails only if memory runs out.
    pub fn of(alloc: Global, view: &RegView) -> Result<Registry, AllocError>
        requires { view.now.brokers ≤ 8 }
        ensures is { IfOk result (λ registry. registry ≡ registry_of view.now) }
        ensures count { IfOk result (λ registry. length registry.replicas ≡ view.now.brokers) }
    {
        let mut replicas = Items::new(alloc);
        for b in 0..view.brokers {
            replicas.push(replica(view, b))?;
        }
        Ok(Registry {
            epoch: view.epoch,
            leader: view.leader,
            mark: view.mark,
            start: view.start,
            replicas,
        })
    }
}
