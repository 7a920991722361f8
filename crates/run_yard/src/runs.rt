//! Runs over an environment: of a partition, and of a whole script.

ghost use Rattle.std.specs.Prelude.{◌≡◌, ◌⊎◌, ◌++◌, All, IfOk, IfErr, OnOk, OnErr, IsTrue};
ghost use Rattle.tier_base.specs.declared.names.PartitionId.{PartitionId as Id};
ghost use Rattle.plain_log.specs.Orders.{AreListsFor, IsConfig};
ghost use Rattle.script_lang.specs.Fit.{StepsToEnds, AreNumbered};
ghost use Rattle.device_yard.specs.YardContent.{IsBare};
ghost use Rattle.run_yard.specs.Reading.{IsReady, ReadsMore, IsRefusedSo};
ghost use Rattle.run_yard.specs.Refusals.{IsOfDevices};
ghost use Rattle.run_yard.specs.Runs.{RunsIn, IsTextOfRuns, IsReadAndRun};
ghost use Rattle.run_yard.specs.Stopped.{AllTiersRest, IsStoppedIn, AreStopped, IsStoppedSo};
ghost use Rattle.run_yard.specs.Yard.{OnlyOf, AllCameBack};

use crate::checking::check_all;
use crate::handing::hand_out;
use crate::keeping::keep_all;
use crate::refusal::{YardRefusal, refused};
use crate::running::run_on;
use device_yard::Yard;
use plain_log::Config;
use script_lang::PartScript;
use std::alloc::{AllocError, Global};
use tier_base::Items;

/// Runs a partition over its devices in the environment, and returns the trace.
fn run_part<Y: Yard>(
    alloc: Global,
    yard: &mut Y,
    config: Config,
    part: PartScript,
) -> Result<Vec<u8>, YardRefusal>
    requires config { IsConfig config }
    requires fit { AreListsFor config part.lists }
    requires ends { StepsToEnds part }
    requires ready { IsTrue (Y.held yard.old).is_observable
        → IsReady Y.D.content Y.S.content Y.M.content config.brokers (Y.held yard.old) part.partition }
    ensures text { IfOk result (λ text. RunsIn Y.D.Disk Y.S.Store Y.M.MetaLog config part (Y.held yard.old)
        (Y.held yard.new) text.items (Y.control yard.old) (Y.control yard.new)) }
    ensures only { OnOk result (OnlyOf part.partition (Y.held yard.old) (Y.held yard.new)) }
    ensures refused { IfErr result (IsRefusedSo Y.D.content Y.S.content Y.M.content config.brokers (Y.held yard.old)
        (Y.held yard.new)
        (Y.control yard.old) (Y.control yard.new)) }
    ensures plain { IfErr result (λ why. IsTrue (Y.held yard.old).is_observable → IsOfDevices why) }
    ensures stopped { OnErr result (IsTrue (Y.held yard.old).is_observable
        → AllTiersRest Y.D.Disk Y.S.Store Y.M.MetaLog (Y.held yard.old) (Y.held yard.new)
        ⊎ IsStoppedIn Y.D.Disk Y.S.Store Y.M.MetaLog config part (Y.held yard.old) (Y.held yard.new)) }
    ensures err { OnErr result (AllCameBack (Y.control yard.old) (Y.control yard.new)) }
    ensures more { ReadsMore (Y.control yard.old) (Y.control yard.new) }
    ensures is_observable { (Y.held yard.new).is_observable ≡ (Y.held yard.old).is_observable }
{
    let partition = part.partition;
    match hand_out(alloc, yard, partition, config.brokers) {
        Ok((devices, registry)) => {
            let (devices, registry, text) = run_on(alloc, config, part, devices, registry);
            keep_all(yard, partition, devices, registry);
            match text {
                Ok(text) => Ok(text),
                Err(why) => Err(refused(partition, why)),
            }
        }
        Err(trouble) => Err(YardRefusal::from(trouble)),
    }
}

/// Puts a text after another. Fails only if memory runs out.
pub fn joined(front: Vec<u8>, back: Vec<u8>) -> Result<Vec<u8>, AllocError>
    ensures { IfOk result (λ text. text.items ≡ front.items ++ back.items) }
{
    if front.is_empty() {
        return Ok(back);
    }
    let mut text = front;
    text.extend_from_slice(back.as_slice())?;
    Ok(text)
}

/// Runs each partition over its devices in an environment, in rising order, and returns the trace.
fn run_parts<Y: Yard>(
    alloc: Global,
    yard: &mut Y,
    config: Config,
    parts: Items<PartScript>,
) -> Result<Vec<u8>, YardRefusal>
    requires config { IsConfig config }
    requires fit { All (λ part. AreListsFor config part.lists) parts }
    requires ends { All StepsToEnds parts }
    requires numbered { AreNumbered 0 parts }
    requires ready { IsTrue (Y.held yard.old).is_observable
        → All (λ part. IsReady Y.D.content Y.S.content Y.M.content config.brokers (Y.held yard.old) part.partition)
        parts }
    ensures text { IfOk result (λ text. IsTextOfRuns Y.D.Disk Y.S.Store Y.M.MetaLog config parts (Y.held yard.old)
        (Y.held yard.new) text.items (Y.control yard.old) (Y.control yard.new)) }
    ensures refused { IfErr result (IsRefusedSo Y.D.content Y.S.content Y.M.content config.brokers (Y.held yard.old)
        (Y.held yard.new)
        (Y.control yard.old) (Y.control yard.new)) }
    ensures stopped { OnErr result (IsTrue (Y.held yard.old).is_observable
        → AreStopped Y.D.Disk Y.S.Store Y.M.MetaLog config parts (Y.held yard.old) (Y.held yard.new)) }
    ensures err { OnErr result (AllCameBack (Y.control yard.old) (Y.control yard.new)) }
    ensures is_observable { (Y.held yard.new).is_observable ≡ (Y.held yard.old).is_observable }
{
    let mut text = Vec::new(alloc);
    for part in parts.into_vec() {
        let printed = match run_part(alloc, yard, config, part) {
            Ok(printed) => printed,
            Err(why) => return Err(why),
        };
        let Ok(more) = joined(text, printed) else {
            return Err(YardRefusal::NoMemory);
        };
        text = more;
    }
    Ok(text)
}

/// Runs each partition of a script over its devices in an environment, in rising order, and returns the trace. The
/// registries are read first, and where one of them refuses the run nothing is run. What faults the script plans isn't
/// looked at: the devices have their own. Each device that is provided comes back.
pub fn run_in_yard<Y: Yard>(
    alloc: Global,
    yard: &mut Y,
    config: Config,
    parts: Items<PartScript>,
) -> Result<Vec<u8>, YardRefusal>
    requires config { IsConfig config }
    requires fit { All (λ part. AreListsFor config part.lists) parts }
    requires ends { All StepsToEnds parts }
    requires numbered { AreNumbered 0 parts }
    requires bare { IsTrue (Y.held yard.old).is_observable → (p : Id)
        → IsBare Y.D.content Y.S.content Y.M.content (Y.held yard.old) p → ⊥ }
    ensures text { IfOk result (λ text. IsReadAndRun Y.D.Disk Y.S.Store Y.M.MetaLog config parts (Y.held yard.old)
        (Y.held yard.new) text.items (Y.control yard.old) (Y.control yard.new)) }

    // Each refusal has its cause: a fault the environment has counted, another count of brokers or a damaged file was
    // read.
    ensures refused { IfErr result (IsRefusedSo Y.D.content Y.S.content Y.M.content config.brokers (Y.held yard.old)
        (Y.held yard.new)
        (Y.control yard.old) (Y.control yard.new)) }

    // A refusal leaves each partition as it was, as a whole run leaves it, or as a run that was refused on its way.
    ensures stopped { OnErr result (IsTrue (Y.held yard.old).is_observable
        → IsStoppedSo Y.D.Disk Y.S.Store Y.M.MetaLog config parts (Y.held yard.old) (Y.held yard.new)) }
    ensures err { OnErr result (AllCameBack (Y.control yard.old) (Y.control yard.new)) }
    ensures is_observable { (Y.held yard.new).is_observable ≡ (Y.held yard.old).is_observable }
{
    match check_all(yard, parts.as_slice(), config.brokers) {
        Ok(()) => run_parts(alloc, yard, config, parts),
        Err(why) => Err(why),
    }
}
