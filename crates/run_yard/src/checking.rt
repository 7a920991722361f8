//! Reading the registries of a script's partitions before the first of them is run.
//!
//! So a registry from which no run with the script's brokers can continue is reported while nothing has changed.

ghost use Rattle.std.specs.Prelude.{◌≡◌, ◌<◌, All, IfErr, OnOk, IsTrue};
ghost use Rattle.tier_base.specs.declared.names.PartitionId.{PartitionId as Id};
ghost use Rattle.script_lang.specs.Fit.{AreNumbered};
ghost use Rattle.run_yard.specs.Reading.{OnlyReads, Suits, ReadsMore, IsRefusedSo, judged};
ghost use Rattle.run_yard.specs.Yard.{AllCameBack};

use crate::refusal::{YardRefusal, refused};
use cold_start::ColdRefusal;
use device_yard::Yard;
use registry::RegView;
use registry_disk::{FindRefusal, find_registry};
use script_lang::PartScript;
use tier_base::PartitionId;

/// Whether a run with so many brokers continues from what was found.
fn judge(found: Result<Option<RegView>, FindRefusal>, asked: u16) -> Result<(), ColdRefusal>
    ensures { result ≡ judged asked found }
{
    match found {
        Ok(None) => Ok(()),
        Ok(Some(view)) if view.brokers == asked => Ok(()),
        Ok(Some(view)) => Err(ColdRefusal::Brokers {
            kept: view.brokers,
            asked,
        }),
        Err(why) => Err(why.into()),
    }
}

/// Reads a partition's registry, and refuses one that no run with so many brokers continues from.
fn check_one<Y: Yard>(yard: &mut Y, partition: PartitionId, asked: u16) -> Result<(), YardRefusal>
    requires before { IsTrue (Y.held yard.old).is_observable → (q : Id) → q.0 < partition.0
        → Suits Y.D.content Y.S.content Y.M.content asked (Y.held yard.old) q }
    ensures suits { OnOk result (IsTrue (Y.held yard.old).is_observable
        → Suits Y.D.content Y.S.content Y.M.content asked (Y.held yard.old) partition) }
    ensures refused { IfErr result (IsRefusedSo Y.D.content Y.S.content Y.M.content asked (Y.held yard.old)
        (Y.held yard.new)
        (Y.control yard.old) (Y.control yard.new)) }

    // Whatever it answers, nothing has changed.
    ensures read { IsTrue (Y.held yard.old).is_observable
        → OnlyReads Y.D.content Y.S.content Y.M.content (Y.held yard.old) (Y.held yard.new) }
    ensures is_observable { (Y.held yard.new).is_observable ≡ (Y.held yard.old).is_observable }
    ensures used { AllCameBack (Y.control yard.old) (Y.control yard.new) }
    ensures more { ReadsMore (Y.control yard.old) (Y.control yard.new) }
{
    let mut disk = match yard.registry(partition) {
        Ok(disk) => disk,
        Err(trouble) => return Err(YardRefusal::from(trouble)),
    };
    let found = find_registry(&mut disk);
    yard.keep_registry(partition, disk);
    match judge(found, asked) {
        Ok(()) => Ok(()),
        Err(why) => Err(refused(partition, why)),
    }
}

/// Reads the registry of each partition, in rising order, and refuses the first that no run with so many brokers
/// continues from.
pub(crate) fn check_all<Y: Yard>(
    yard: &mut Y,
    parts: &[PartScript],
    asked: u16,
) -> Result<(), YardRefusal>
    requires numbered { AreNumbered 0 parts.now }
    ensures suit { OnOk result (IsTrue (Y.held yard.old).is_observable
        → All (λ part. Suits Y.D.content Y.S.content Y.M.content asked (Y.held yard.old) part.partition) parts.now) }
    ensures refused { IfErr result (IsRefusedSo Y.D.content Y.S.content Y.M.content asked (Y.held yard.old)
        (Y.held yard.new)
        (Y.control yard.old) (Y.control yard.new)) }

    // Whatever it answers, nothing has changed.
    ensures read { IsTrue (Y.held yard.old).is_observable
        → OnlyReads Y.D.content Y.S.content Y.M.content (Y.held yard.old) (Y.held yard.new) }
    ensures is_observable { (Y.held yard.new).is_observable ≡ (Y.held yard.old).is_observable }
    ensures used { AllCameBack (Y.control yard.old) (Y.control yard.new) }
    ensures more { ReadsMore (Y.control yard.old) (Y.control yard.new) }
{
    for part in parts {
        match check_one(yard, part.partition, asked) {
            Ok(()) => {}
            Err(why) => return Err(why),
        }
    }
    Ok(())
}
