//! What `sim --threads` does: a script's bytes in, the trace's bytes out, and each actor of each partition in a
//! thread of its own.
//!
//! What comes back from behind the locks is compared with the script: of a value under a lock no more is known than
//! its type says. Where it is not the script's, which no run has shown, the script is run in its own order.

ghost use Rattle.std.specs.Prelude.{◌≡◌, ℕ, ◌-◌, ◌<◌, ◌^◌, Ok, Err, length, vec_len, IfOk, IfSome, IsErrOf};
ghost use Rattle.script_lang.specs.declared.refusal.Why.{Why};
ghost use Rattle.script_lang.specs.declared.script.Script.{Script as ScriptOf};
ghost use Rattle.script_lang.specs.Fit.{IsFit};
ghost use Rattle.script_lang.specs.Script.{script_in};
ghost use Rattle.run_threaded.specs.Traced.{IsPartScript};
ghost use Rattle.tiered_call.specs.Headline.{IsTraceByThreads};
ghost use Rattle.tiered_call.specs.Threads.{AddsThreadedRun, IsTextByThreads};
ghost use Rattle.tiered_call.specs.Endings.{Simulates};

use crate::sim::{SCRIPT_LIMIT, trace_of};
use crate::status::Status;
use bytes::Bytes;
use disk_model::{Disk, MemoryDisk};
use meta_log::{MemoryLog, MetaLog};
use object_store::{MemoryStore, Store};
use plain_log::Config;
use run_memory::fresh_world;
use run_threaded::{Gate, Traced, run_threads};
use run_yard::joined;
use script_lang::{PartScript, Script, ScriptRefusal, Why, parse};
use std::alloc::{AllocError, Global};
use std::sync::Wait;
use std::thread::Threads;
use tier_base::{ReadRefusal, Sink, Source, read_all, write_all};
use trace_text::print;

/// A partition's run over devices in memory.
type Run = Traced<MemoryDisk, MemoryStore, MemoryLog>;

/// Makes the fresh world of the partition that is at this place of a script.
fn begun(
    alloc: Global,
    script: Bytes,
    place: usize,
    config: Config,
    part: PartScript,
) -> Result<Run, AllocError>
    requires { IsPartScript script place config part }
{
    let PartScript {
        partition,
        lists,
        faults,
        ..
    } = part;
    let world = fresh_world(alloc, partition, config, lists, faults.as_slice())?;
    Ok(Traced::of(alloc, script, place, partition, world))
}

/// Makes the fresh world of each partition.
fn all_begun(alloc: Global, bytes: &Bytes, script: Script) -> Result<Vec<Run>, AllocError>
    requires reads { script_in bytes.now ≡ Ok script }
    requires fit { IsFit script }
    ensures { IfOk result (λ runs. vec_len runs ≡ length script.parts) }
{
    let mut runs = Vec::new(alloc);
    for part in script.parts.into_vec() {
        let place = runs.len();
        runs.push(begun(alloc, bytes.clone()?, place, script.config, part)?)?;
    }
    Ok(runs)
}

/// Ends a run, and puts its trace after the text.
fn add_run(alloc: Global, mut run: Run, text: Vec<u8>) -> Result<Vec<u8>, AllocError>
    ensures { IfOk result (λ new. AddsThreadedRun ⟦<MemoryDisk as Disk>⟧ ⟦<MemoryStore as Store>⟧ ⟦<MemoryLog as MetaLog>⟧
        run.script run.place text.items new.items) }
{
    let partition = run.partition();
    let printed = print(alloc, partition, run.finish(alloc)?)?;
    joined(text, printed)
}

/// Ends the runs, and returns the trace, where each is of the script's partition at its place.
fn text_of(alloc: Global, bytes: &Bytes, runs: Vec<Run>) -> Result<Option<Vec<u8>>, AllocError>
    ensures { (script : ScriptOf) → script_in bytes.now ≡ Ok script → vec_len runs ≡ length script.parts
        → IfOk result (λ text. IfSome text (λ t. IsTextByThreads ⟦<MemoryDisk as Disk>⟧ ⟦<MemoryStore as Store>⟧ ⟦<MemoryLog as MetaLog>⟧
        script.config script.parts t.items)) }
{
    let mut text = Vec::new(alloc);
    let mut place: usize = 0;
    for run in runs {
        if !run.is_of(bytes, place) {
            return Ok(None);
        }
        text = add_run(alloc, run, text)?;
        place += 1;
    }
    Ok(Some(text))
}

/// Runs the partitions of a script by threads, and returns the trace, if what came back is the script's.
fn run_parts<H: AllocGlobal + Threads + Wait + Sync, G: Gate + Sync>(
    rt: &H,
    gate: &G,
    bytes: &Bytes,
    script: Script,
) -> Result<Option<Vec<u8>>, AllocError>
    requires reads { script_in bytes.now ≡ Ok script }
    requires fit { IsFit script }
    ensures { IfOk result (λ text. IfSome text
        (λ t. IsTextByThreads ⟦<MemoryDisk as Disk>⟧ ⟦<MemoryStore as Store>⟧ ⟦<MemoryLog as MetaLog>⟧
        script.config script.parts t.items)) }
{
    let runs = all_begun(rt.alloc(), bytes, script)?;
    let runs = run_threads(rt, runs, gate)?;
    text_of(rt.alloc(), bytes, runs)
}

/// Reads a script, runs it by threads, and returns the trace.
fn trace_by_threads<H: AllocGlobal + Threads + Wait + Sync, G: Gate + Sync>(
    rt: &H,
    gate: &G,
    bytes: &Bytes,
) -> Result<Vec<u8>, ScriptRefusal>
    requires { length bytes.now < 2 ^ 32 - 1 }
    ensures trace { IfOk result (λ text. IsTraceByThreads ⟦<MemoryDisk as Disk>⟧ ⟦<MemoryStore as Store>⟧ ⟦<MemoryLog as MetaLog>⟧
        bytes.now text.items) }
    ensures bad { (line : ℕ) (why : Why) → IsErrOf result (ScriptRefusal.Bad line why)
        → script_in bytes.now ≡ Err (line, why) }
{
    let script = parse(rt.alloc(), bytes.as_slice())?;
    match run_parts(rt, gate, bytes, script) {
        Ok(Some(text)) => Ok(text),
        Ok(None) => trace_of(rt.alloc(), bytes.as_slice()),
        Err(_) => Err(ScriptRefusal::NoMemory),
    }
}

/// Reads a script, runs it by threads, and writes what each of its commands was answered.
pub fn simulate_by_threads<
    H: AllocGlobal + Threads + Wait + Sync,
    R: Source,
    W: Sink,
    G: Gate + Sync,
>(rt: &H, script: &mut R, out: &mut W, gate: &G) -> Status
    ensures { Simulates (IsTraceByThreads ⟦<MemoryDisk as Disk>⟧ ⟦<MemoryStore as Store>⟧ ⟦<MemoryLog as MetaLog>⟧)
        R.Source W.Sink
        script.old script.new out.old out.new result }
{
    let bytes = match read_all(rt.alloc(), script, SCRIPT_LIMIT) {
        Ok(bytes) => bytes,
        Err(ReadRefusal::Failed) => return Status::ReadFault,
        Err(ReadRefusal::TooLong) => return Status::TooLong,
        Err(ReadRefusal::NoMemory) => return Status::NoMemory,
    };
    let Ok(bytes) = Bytes::from_vec(bytes) else {
        return Status::NoMemory;
    };
    let text = match trace_by_threads(rt, gate, &bytes) {
        Ok(text) => text,
        Err(ScriptRefusal::Bad { line, why }) => return Status::BadScript { line, why },
        Err(ScriptRefusal::NoMemory) => return Status::NoMemory,
    };
    match write_all(out, text.as_slice()) {
        Ok(()) => Status::Ok,
        Err(_) => Status::WriteFault,
    }
}
