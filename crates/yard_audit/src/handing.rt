//! The partitions of an environment, and a partition's store and metadata log, provided together and given back
//! together.

ghost use Rattle.std.specs.Prelude.{◌≡◌, ◌≤◌, ◌<◌, None, Some, IfOk, OnOk, OnErr, IsErrOf, IsTrue, false};
ghost use Rattle.tier_base.specs.Counts.{Rose};
ghost use Rattle.tier_base.specs.Device.{IsFreshDevice};
ghost use Rattle.device_yard.specs.YardContent.{HandsStore, HandsLog};
ghost use Rattle.yard_audit.specs.declared.refusal.RoundRefusal.TheVariants.{Fault};
ghost use Rattle.yard_audit.specs.Rounds.{AreAll};
ghost use Rattle.yard_audit.specs.Tiers.{YardRests, TierIs, StaysOut, AreOut, CameBack};

use crate::refusal::RoundRefusal;
use device_yard::Yard;
use meta_log::MetaLog;
use object_store::Store;
use tier_base::{Items, PartitionId};

/// What the tier of a partition is on.
#[derive(Drop)]
pub(crate) struct Tools<S: Store, M: MetaLog> {
    pub store: S,
    pub meta: M,
}

/// Names the partitions in use, in rising order.
pub(crate) fn list<Y: Yard>(yard: &mut Y) -> Result<Items<PartitionId>, RoundRefusal>
    ensures all { IfOk result (AreAll Y.D.content Y.S.content Y.M.content (Y.held yard.old)) }
    ensures rest { IsTrue (Y.held yard.old).is_observable
        → YardRests Y.D.content Y.S.content Y.M.content (Y.held yard.old) (Y.held yard.new) }
    ensures is_observable { (Y.held yard.new).is_observable ≡ (Y.held yard.old).is_observable }
    ensures back { StaysOut (Y.control yard.old) (Y.control yard.new) }
    ensures cause { IsErrOf result Fault → Rose (Y.control yard.old).faults (Y.control yard.new).faults }
{
    match yard.partitions() {
        Ok(list) => Ok(list),
        Err(trouble) => Err(RoundRefusal::from(trouble)),
    }
}

/// Provides a partition's store and metadata log.
pub(crate) fn hand_out<Y: Yard>(
    yard: &mut Y,
    partition: PartitionId,
) -> Result<Tools<Y::S, Y::M>, RoundRefusal>
    ensures store { IfOk result (λ tools. IsFreshDevice (Y.S.control tools.store)) }
    ensures meta { IfOk result (λ tools. IsFreshDevice (Y.M.control tools.meta)) }
    ensures objects_told { IfOk result
        (λ tools. (Y.S.content tools.store).is_observable ≡ (Y.held yard.old).is_observable) }
    ensures notes_told { IfOk result
        (λ tools. (Y.M.content tools.meta).is_observable ≡ (Y.held yard.old).is_observable) }
    ensures objects { IsTrue (Y.held yard.old).is_observable → IfOk result (λ tools.
        HandsStore Y.S.content ((Y.held yard.old).stores partition) (Y.S.content tools.store)) }
    ensures notes { IsTrue (Y.held yard.old).is_observable → IfOk result (λ tools.
        HandsLog Y.M.content ((Y.held yard.old).logs partition) (Y.M.content tools.meta)) }
    ensures out { IsTrue (Y.held yard.old).is_observable → OnOk result
        (TierIs partition None None (Y.held yard.old) (Y.held yard.new)) }
    ensures control { OnOk result (AreOut (Y.control yard.old) (Y.control yard.new)) }
    ensures is_observable { (Y.held yard.new).is_observable ≡ (Y.held yard.old).is_observable }
    ensures rest { IsTrue (Y.held yard.old).is_observable → OnErr result
        (YardRests Y.D.content Y.S.content Y.M.content (Y.held yard.old) (Y.held yard.new)) }
    ensures back { OnErr result (StaysOut (Y.control yard.old) (Y.control yard.new)) }
    ensures cause { IsErrOf result Fault → Rose (Y.control yard.old).faults (Y.control yard.new).faults }
{
    let store = match yard.store(partition) {
        Ok(store) => store,
        Err(trouble) => return Err(RoundRefusal::from(trouble)),
    };
    match yard.meta(partition) {
        Ok(meta) => Ok(Tools { store, meta }),
        Err(trouble) => {
            yard.keep_store(partition, store);
            Err(RoundRefusal::from(trouble))
        }
    }
}

/// Gives a partition's store and metadata log back. One that failed since it was provided is a fault of the
/// environment.
pub(crate) fn give_back<Y: Yard>(yard: &mut Y, partition: PartitionId, tools: Tools<Y::S, Y::M>)
    requires { 2 ≤ (Y.control yard.old).out }
    ensures held { IsTrue (Y.held yard.old).is_observable
        → TierIs partition (Some tools.store) (Some tools.meta) (Y.held yard.old) (Y.held yard.new) }
    ensures is_observable { (Y.held yard.new).is_observable ≡ (Y.held yard.old).is_observable }
    ensures back { CameBack (Y.control yard.old) (Y.control yard.new) }
    ensures store_failed { (Y.S.control tools.store).armed ≡ false → 0 < (Y.S.control tools.store).faults
        → Rose (Y.control yard.old).faults (Y.control yard.new).faults }
    ensures log_failed { (Y.M.control tools.meta).armed ≡ false → 0 < (Y.M.control tools.meta).faults
        → Rose (Y.control yard.old).faults (Y.control yard.new).faults }
{
    let Tools { store, meta } = tools;
    yard.keep_store(partition, store);
    yard.keep_meta(partition, meta);
}
