//! The registry and its calls.

ghost use Rattle.std.specs.Prelude.{◌≡◌, ◌<◌, ◌≤◌, ◌^◌, ◌-◌, ◌↔◌, length, Some, IsOk, IfOk, IsErrOf, OnErr};
ghost use Rattle.registry.specs.Replicas.{AtReplica};
ghost use Rattle.registry.specs.Registry.{fresh_registry, elected, elected_alone};
ghost use Rattle.registry.specs.Calls.{after_elect, after_unclean, after_ack, after_shrink, after_expand, after_raise};

use crate::refusal::RegRefusal;
use crate::replicas::{all_out, mark_over, reset};
use std::alloc::{AllocError, Global};
use tier_base::{BrokerId, Items};

/// The greatest leader epoch: Kafka's is a signed number of 32 bits.
const LAST_EPOCH: u32 = 2_147_483_647;

/// What the registry has of one broker.
#[derive(Clone, Copy, Debug, PartialEq, Eq)]
pub struct Replica {
    pub in_sync: bool,
    /// The flushed end that it acknowledged last in this epoch.
    pub acked: u64,
}

/// What the controller has of a partition: the leader, the ISR, and the offsets between which the log can be read.
#[derive(Debug, Drop)]
pub struct Registry {
    /// The leader epoch.
    pub epoch: u32,
    pub leader: BrokerId,
    /// The high watermark.
    pub mark: u64,
    /// The log start offset.
    pub start: u64,
    /// The brokers in order, 8 at most.
    pub replicas: Items<Replica>,
}

impl Registry {
    /// Refuses an epoch below the current one: its leader may have been replaced.
    fn fence(&self, epoch: u32) -> Result<(), RegRefusal>
        ensures ok { IsOk result ↔ (self.now.epoch ≤ epoch) }
        ensures stale { IsErrOf result (RegRefusal.StaleEpoch self.now.epoch) ↔ (epoch < self.now.epoch) }
    {
        if epoch < self.epoch {
            return Err(RegRefusal::StaleEpoch {
                current: self.epoch,
            });
        }
        Ok(())
    }

    /// Makes the registry of a new partition with so many brokers, 1 to 8. Broker 0 leads in epoch 0, and all are in
    /// the ISR. Fails only if memory runs out.
    pub fn fresh(alloc: Global, brokers: u16) -> Result<Registry, AllocError>
        requires some { 1 ≤ brokers }
        requires few { brokers ≤ 8 }
        ensures { IfOk result (λ registry. registry ≡ fresh_registry brokers) }
    {
        let mut replicas = Items::new(alloc);
        for _ in 0..brokers {
            replicas.push(Replica {
                in_sync: true,
                acked: 0,
            })?;
        }
        Ok(Registry {
            epoch: 0,
            leader: BrokerId(0),
            mark: 0,
            start: 0,
            replicas,
        })
    }

    /// Starts the next epoch with this leader, whose election is allowed.
    pub fn lead(&mut self, broker: BrokerId)
        requires { self.old.epoch < 2 ^ 32 - 1 }
        ensures is { self.new ≡ elected self.old broker.0 }
        ensures count { length self.new.replicas ≡ length self.old.replicas }
    {
        let mark = self.mark;
        reset(&mut self.replicas, mark);
        self.epoch += 1;
        self.leader = broker;
    }

    /// Starts the next epoch with this leader, whose unclean election is allowed, and whose flushed end is
    /// `flushed_end`.
    pub fn lead_alone(&mut self, broker: BrokerId, flushed_end: u64)
        requires within { broker.0 < length self.old.replicas }
        requires follows { self.old.epoch < 2 ^ 32 - 1 }
        ensures is { self.new ≡ elected_alone self.old broker.0 flushed_end }
        ensures count { length self.new.replicas ≡ length self.old.replicas }
    {
        all_out(&mut self.replicas);
        let leader = Replica {
            in_sync: true,
            acked: flushed_end,
        };
        let _ = self.replicas.replace(broker.0 as usize, leader);
        self.epoch += 1;
        self.leader = broker;
        self.mark = flushed_end;
    }

    /// Elects a leader from the ISR, and returns the new leader epoch. `up` says whether the broker is up. `RegRefusal`
    /// has the causes of a failure.
    pub fn elect(&mut self, broker: BrokerId, up: bool) -> Result<u32, RegRefusal>
        requires { broker.0 < length self.old.replicas }
        ensures is { AtReplica self.old broker.0 (λ s. after_elect self.old broker.0 s up result ≡ Some self.new) }
        ensures count { length self.new.replicas ≡ length self.old.replicas }
        ensures err { OnErr result (self.new ≡ self.old) }
    {
        if self.epoch >= LAST_EPOCH {
            return Err(RegRefusal::LastEpoch);
        }
        if !self.replicas.get(broker.0 as usize).in_sync {
            return Err(RegRefusal::NotInSync);
        }
        if !up {
            return Err(RegRefusal::DownBroker);
        }
        self.lead(broker);
        Ok(self.epoch)
    }

    /// Elects a leader that may be outside the ISR, and returns the new leader epoch. From then on exactly what its log
    /// has below its flushed end, `flushed_end`, is committed. `RegRefusal` has the causes of a failure.
    pub fn elect_unclean(
        &mut self,
        broker: BrokerId,
        up: bool,
        flushed_end: u64,
    ) -> Result<u32, RegRefusal>
        requires { broker.0 < length self.old.replicas }
        ensures is { after_unclean self.old broker.0 up flushed_end result ≡ Some self.new }
        ensures count { length self.new.replicas ≡ length self.old.replicas }
        ensures err { OnErr result (self.new ≡ self.old) }
    {
        if self.epoch >= LAST_EPOCH {
            return Err(RegRefusal::LastEpoch);
        }
        if !up {
            return Err(RegRefusal::DownBroker);
        }
        if flushed_end < self.start {
            return Err(RegRefusal::BehindStart {
                end: flushed_end,
                start: self.start,
            });
        }
        self.lead_alone(broker, flushed_end);
        Ok(self.epoch)
    }

    /// Records that a broker acknowledges its flushed end, and returns the high watermark. `epoch` is the one in which
    /// the broker leads or has joined. `RegRefusal` has the causes of a failure.
    pub fn ack(&mut self, broker: BrokerId, epoch: u32, flushed_end: u64) -> Result<u64, RegRefusal>
        requires { broker.0 < length self.old.replicas }
        ensures is { AtReplica self.old broker.0
            (λ s. after_ack self.old broker.0 s epoch flushed_end result ≡ Some self.new) }
        ensures count { length self.new.replicas ≡ length self.old.replicas }
        ensures err { OnErr result (self.new ≡ self.old) }
    {
        self.fence(epoch)?;
        let b = broker.0 as usize;
        let in_sync = self.replicas.get(b).in_sync;
        let acked = Replica {
            in_sync,
            acked: flushed_end,
        };
        let _ = self.replicas.replace(b, acked);
        self.mark = mark_over(self.mark, self.replicas.as_slice());
        Ok(self.mark)
    }

    /// Removes a broker from the ISR. `RegRefusal` has the causes of a failure.
    pub fn shrink(&mut self, broker: BrokerId) -> Result<(), RegRefusal>
        requires { broker.0 < length self.old.replicas }
        ensures is { AtReplica self.old broker.0 (λ s. after_shrink self.old broker.0 s result ≡ Some self.new) }
        ensures count { length self.new.replicas ≡ length self.old.replicas }
        ensures err { OnErr result (self.new ≡ self.old) }
    {
        let b = broker.0 as usize;
        let replica = *self.replicas.get(b);
        if !replica.in_sync {
            return Err(RegRefusal::NotInSync);
        }
        if self.leader.0 == broker.0 {
            return Err(RegRefusal::IsLeader);
        }
        let out = Replica {
            in_sync: false,
            acked: replica.acked,
        };
        let _ = self.replicas.replace(b, out);
        Ok(())
    }

    /// Adds a broker to the ISR if it has acknowledged everything that is committed. `up` says whether it is up.
    /// `RegRefusal` has the causes of a failure.
    pub fn expand(&mut self, broker: BrokerId, up: bool) -> Result<(), RegRefusal>
        requires { broker.0 < length self.old.replicas }
        ensures is { AtReplica self.old broker.0 (λ s. after_expand self.old broker.0 s up result ≡ Some self.new) }
        ensures count { length self.new.replicas ≡ length self.old.replicas }
        ensures err { OnErr result (self.new ≡ self.old) }
    {
        if !up {
            return Err(RegRefusal::DownBroker);
        }
        let b = broker.0 as usize;
        let acked = self.replicas.get(b).acked;
        if acked < self.mark {
            return Err(RegRefusal::Behind {
                ack: acked,
                mark: self.mark,
            });
        }
        let member = Replica {
            in_sync: true,
            acked,
        };
        let _ = self.replicas.replace(b, member);
        Ok(())
    }

    /// Raises the log start offset, and returns the new one. `epoch` is the one that the caller leads. `RegRefusal` has
    /// the causes of a failure.
    pub fn raise(&mut self, epoch: u32, start: u64) -> Result<u64, RegRefusal>
        ensures is { after_raise self.old epoch start result ≡ Some self.new }
        ensures err { OnErr result (self.new ≡ self.old) }
    {
        self.fence(epoch)?;
        if start <= self.start {
            return Err(RegRefusal::NotAbove { start: self.start });
        }
        if self.mark < start {
            return Err(RegRefusal::AboveMark { mark: self.mark });
        }
        self.start = start;
        Ok(start)
    }
}
