//! What `gen` does: from a number to the summary of its script's run.
//!
//! The script of the number is made, parsed and run as any other. The executable model replays each partition's journal
//! and so has its final state. The summary is complete before its first byte is written.

ghost use Rattle.std.specs.Prelude.{◌≡◌, ℕ, All, Err, IfOk, IsErrOf};
ghost use Rattle.plain_log.specs.Orders.{AreListsFor, IsConfig};
ghost use Rattle.load_gen.specs.Script.{script_of as script_is};
ghost use Rattle.script_lang.specs.declared.refusal.Why.{Why};
ghost use Rattle.script_lang.specs.Fit.{StepsToEnds};
ghost use Rattle.script_lang.specs.Script.{script_in};
ghost use Rattle.tiered_call.specs.Headline.{IsSummary};
ghost use Rattle.tiered_call.specs.Telling.{IsToldRun, AreToldRuns};
ghost use Rattle.tiered_call.specs.Endings.{Generates};

use crate::status::Status;
use disk_model::{Disk, MemoryDisk};
use load_gen::script_of;
use meta_log::{MemoryLog, MetaLog};
use object_store::{MemoryStore, Store};
use plain_log::Config;
use run_memory::run_partition;
use run_summary::{Told, summary, tell};
use script_lang::{PartScript, ScriptRefusal, Why, parse};
use std::alloc::{AllocError, Global};
use tier_base::{Items, Sink, write_all};

/// Runs a partition, and returns what its journal comes to.
fn tell_part(alloc: Global, config: Config, part: PartScript) -> Result<Told, AllocError>
    requires config { IsConfig config }
    requires fit { AreListsFor config part.lists }
    requires ends { StepsToEnds part }
    ensures { IfOk result (IsToldRun ⟦<MemoryDisk as Disk>⟧ ⟦<MemoryStore as Store>⟧ ⟦<MemoryLog as MetaLog>⟧ config
        part) }
{
    let partition = part.partition;
    let world = run_partition(alloc, config, part)?;
    match tell(
        alloc,
        &config,
        partition,
        world.lists(),
        world.journal().items(),
    )? {
        Some(told) => Ok(told),
        // The journal is a run of the plain log.
        None => unreachable!(),
    }
}

/// Runs each partition, in rising order, and returns what its journal comes to.
fn tell_parts(
    alloc: Global,
    config: Config,
    parts: Items<PartScript>,
) -> Result<Vec<Told>, AllocError>
    requires config { IsConfig config }
    requires fit { All (λ part. AreListsFor config part.lists) parts }
    requires ends { All StepsToEnds parts }
    ensures { IfOk result (λ told. AreToldRuns ⟦<MemoryDisk as Disk>⟧ ⟦<MemoryStore as Store>⟧ ⟦<MemoryLog as MetaLog>⟧
        config parts told.items) }
{
    let mut told = Vec::new(alloc);
    for part in parts.into_vec() {
        told.push(tell_part(alloc, config, part)?)?;
    }
    Ok(told)
}

/// Makes the script of a number, runs it, and returns the summary.
fn summary_of(alloc: Global, number: u32) -> Result<Vec<u8>, ScriptRefusal>
    ensures summary { IfOk result (λ text. IsSummary ⟦<MemoryDisk as Disk>⟧ ⟦<MemoryStore as Store>⟧ ⟦<MemoryLog as MetaLog>⟧
        (script_is number) text.items) }
    ensures bad { (line : ℕ) (why : Why) → IsErrOf result (ScriptRefusal.Bad line why)
        → script_in (script_is number) ≡ Err (line, why) }
{
    let bytes = script_of(alloc, number)?;
    let script = parse(alloc, bytes.as_slice())?;
    let told = tell_parts(alloc, script.config, script.parts)?;
    Ok(summary(alloc, told.as_slice())?)
}

/// Runs the script of a number, and writes the summary.
pub fn generate<W: Sink>(alloc: Global, number: u32, out: &mut W) -> Status
    ensures { Generates ⟦<MemoryDisk as Disk>⟧ ⟦<MemoryStore as Store>⟧ ⟦<MemoryLog as MetaLog>⟧ W.Sink
        number out.old out.new result }
{
    let text = match summary_of(alloc, number) {
        Ok(text) => text,
        Err(ScriptRefusal::Bad { line, why }) => return Status::BadScript { line, why },
        Err(ScriptRefusal::NoMemory) => return Status::NoMemory,
    };
    match write_all(out, text.as_slice()) {
        Ok(()) => Status::Ok,
        Err(_) => Status::WriteFault,
    }
}
