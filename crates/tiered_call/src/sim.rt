//! What `sim` does: from a script's bytes to the trace's bytes.
//!
//! The trace is complete before its first byte is written, so nothing is written if the script is invalid or memory
//! runs out.

ghost use Rattle.std.specs.Prelude.{◌≡◌, ℕ, ◌-◌, ◌<◌, ◌^◌, All, Err, length, IfOk, IsErrOf};
ghost use Rattle.plain_log.specs.Orders.{AreListsFor, IsConfig};
ghost use Rattle.script_lang.specs.declared.refusal.Why.{Why};
ghost use Rattle.script_lang.specs.Fit.{StepsToEnds};
ghost use Rattle.script_lang.specs.Script.{script_in};
ghost use Rattle.tiered_call.specs.Headline.{IsTraceOfScript};
ghost use Rattle.tiered_call.specs.Running.{AddsRun, IsTextOfScript};
ghost use Rattle.tiered_call.specs.Endings.{Simulates};

use crate::status::Status;
use disk_model::{Disk, MemoryDisk};
use meta_log::{MemoryLog, MetaLog};
use object_store::{MemoryStore, Store};
use plain_log::Config;
use run_memory::run_partition;
use run_yard::joined;
use script_lang::{PartScript, ScriptRefusal, Why, parse};
use std::alloc::{AllocError, Global};
use tier_base::{Items, ReadRefusal, Sink, Source, read_all, write_all};
use trace_text::print;

/// The most bytes that a script may have.
pub const SCRIPT_LIMIT: usize = 16_777_216;

/// Runs a partition, and puts its trace after the text. The first partition's is not copied.
fn run_part(
    alloc: Global,
    config: Config,
    part: PartScript,
    text: Vec<u8>,
) -> Result<Vec<u8>, AllocError>
    requires config { IsConfig config }
    requires fit { AreListsFor config part.lists }
    requires ends { StepsToEnds part }
    ensures { IfOk result (λ new. AddsRun ⟦<MemoryDisk as Disk>⟧ ⟦<MemoryStore as Store>⟧ ⟦<MemoryLog as MetaLog>⟧
        config part text.items new.items) }
{
    let partition = part.partition;
    let world = run_partition(alloc, config, part)?;
    let printed = print(alloc, partition, world.journal())?;
    joined(text, printed)
}

/// Runs each partition, in rising order.
fn run_parts(alloc: Global, config: Config, parts: Items<PartScript>) -> Result<Vec<u8>, AllocError>
    requires config { IsConfig config }
    requires fit { All (λ part. AreListsFor config part.lists) parts }
    requires ends { All StepsToEnds parts }
    ensures { IfOk result (λ text. IsTextOfScript ⟦<MemoryDisk as Disk>⟧ ⟦<MemoryStore as Store>⟧ ⟦<MemoryLog as MetaLog>⟧
        config parts text.items) }
{
    let mut text = Vec::new(alloc);
    for part in parts.into_vec() {
        text = run_part(alloc, config, part, text)?;
    }
    Ok(text)
}

/// Reads a script, runs it, and returns the trace.
pub(crate) fn trace_of(alloc: Global, script: &[u8]) -> Result<Vec<u8>, ScriptRefusal>
    requires { length script.now < 2 ^ 32 - 1 }
    ensures trace { IfOk result (λ text. IsTraceOfScript ⟦<MemoryDisk as Disk>⟧ ⟦<MemoryStore as Store>⟧ ⟦<MemoryLog as MetaLog>⟧
        script.now text.items) }
    ensures bad { (line : ℕ) (why : Why) → IsErrOf result (ScriptRefusal.Bad line why)
        → script_in script.now ≡ Err (line, why) }
{
    let script = parse(alloc, script)?;
    match run_parts(alloc, script.config, script.parts) {
        Ok(text) => Ok(text),
        Err(_) => Err(ScriptRefusal::NoMemory),
    }
}

/// Reads a script, runs it, and writes what each of its commands was answered.
pub fn simulate<R: Source, W: Sink>(alloc: Global, script: &mut R, out: &mut W) -> Status
    ensures { Simulates (IsTraceOfScript ⟦<MemoryDisk as Disk>⟧ ⟦<MemoryStore as Store>⟧ ⟦<MemoryLog as MetaLog>⟧)
        R.Source W.Sink
        script.old script.new out.old out.new result }
{
    let bytes = match read_all(alloc, script, SCRIPT_LIMIT) {
        Ok(bytes) => bytes,
        Err(ReadRefusal::Failed) => return Status::ReadFault,
        Err(ReadRefusal::TooLong) => return Status::TooLong,
        Err(ReadRefusal::NoMemory) => return Status::NoMemory,
    };
    let text = match trace_of(alloc, bytes.as_slice()) {
        Ok(text) => text,
        Err(ScriptRefusal::Bad { line, why }) => return Status::BadScript { line, why },
        Err(ScriptRefusal::NoMemory) => return Status::NoMemory,
    };
    match write_all(out, text.as_slice()) {
        Ok(()) => Status::Ok,
        Err(_) => Status::WriteFault,
    }
}
