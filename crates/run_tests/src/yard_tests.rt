//! Runs over an environment and over devices in memory. The traces are worked by hand from the language's page.

ghost use Rattle.std.specs.Prelude.{All, IfSome};
ghost use Rattle.plain_log.specs.Orders.{AreListsFor, IsConfig};
ghost use Rattle.script_lang.specs.Fit.{StepsToEnds, AreNumbered, IsFit};

use crate::tests::{Wanted, is_wanted, sink_of, source_of, well, words_of};
use cold_start::ColdRefusal;
use disk_model::{DiskCall, MemoryDisk};
use memory_yard::MemoryYard;
use meta_log::MemoryLog;
use object_store::MemoryStore;
use partition_world::Devices;
use plain_log::Config;
use run_yard::{YardRefusal, run_in_yard, run_on};
use script_lang::{PartScript, Script, parse};
use std::alloc::Global;
use tier_base::{Items, MemorySink, MemorySource, Planned};
use tiered_call::tiered_in_order;

/// How a run ends.
#[derive(Clone, Copy, Debug, PartialEq, Eq)]
enum End {
    /// With the trace that is wanted, or with another one.
    Traced(bool),
    Fault,
    NoMemory,
    /// A registry refuses it.
    Refused,
    /// It doesn't begin.
    Unread,
}

/// Reads a script.
pub(crate) fn read(alloc: Global, text: &str) -> Option<Script>
    ensures { IfSome result IsFit }
{
    let bytes = text.as_bytes();
    if bytes.len() > 1000 {
        return None;
    }
    match parse(alloc, bytes) {
        Ok(script) => Some(script),
        Err(_) => None,
    }
}

/// Runs the partitions of a script over a new environment, and returns how that ends, how many faults the environment
/// counts, and how many devices come back.
fn over_a_yard(
    alloc: Global,
    failing: Vec<u32>,
    config: Config,
    parts: Items<PartScript>,
    trace: &str,
) -> (End, u64, usize)
    requires config { IsConfig config }
    requires fit { All (λ part. AreListsFor config part.lists) parts }
    requires ends { All StepsToEnds parts }
    requires numbered { AreNumbered 0 parts }
{
    let mut yard = MemoryYard::new(alloc, Vec::new(alloc), failing);
    let end = match run_in_yard(alloc, &mut yard, config, parts) {
        Ok(text) => End::Traced(text.as_slice() == trace.as_bytes()),
        Err(YardRefusal::Fault) => End::Fault,
        Err(YardRefusal::NoMemory) => End::NoMemory,
        Err(_) => End::Refused,
    };
    (end, yard.faults(), yard.returned().len())
}

/// Reads a script, and runs it over an environment, whose calls with these numbers fail.
fn run(alloc: Global, script: &str, failing: &[u32], trace: &str) -> (End, u64, usize) {
    match (read(alloc, script), Vec::from_slice(alloc, failing)) {
        (Some(script), Ok(failing)) => {
            over_a_yard(alloc, failing, script.config, script.parts, trace)
        }
        _ => (End::Unread, 0, 0),
    }
}

/// Two partitions of two brokers. A follow continues when its actor's turn comes; the line of a fault is for other
/// devices.
static TWO: &str = "\
    brokers 2\n\
    partitions 2\n\
    fault 0 disk 0 append 1 before\n\
    0 0 0 append 1000,-,:a\n\
    later 2 0 1 follow 1\n\
    turn 2 1\n\
    1 1 1 append 1000,-,:b\n\
    0 0 0 flush\n\
    turn 2 1\n\
    1 1 0 append 1000,-,:c\n";

static TRACE: &str = "\
    0 0 0 = Ok 0 0 0\n\
    0 2 0 begin\n\
    0 0 1 = Ok 1\n\
    0 2 0 = Copied 1\n\
    1 1 0 = NotLeader\n\
    1 1 1 = Ok 0 0 0\n";

#[test]
fn each_partition_is_run_by_its_schedule(rt: HostRuntime) {
    assert_eq!(rt;
        run(rt.alloc(), TWO, &[], TRACE),
        (End::Traced(true), 0, 12)
    );
}

/// Both registries are provided first. Then, for each partition, two disks are, a store, a metadata log and the
/// registry.
#[test]
fn devices_are_returned_after_a_fault(rt: HostRuntime) {
    for before in 0..12u32 {
        let ran = run(rt.alloc(), TWO, &[before + 1], TRACE);
        assert_eq!(rt;
            ran,
            (End::Fault, 1, before as usize),
            "{before} calls before it"
        );
    }
}

/// Makes a call of the program that runs a script over an environment: the number of its status, and whether what is
/// reported and written is as it should be.
fn called(
    rt: HostRuntime,
    yard: &mut MemoryYard,
    script: &mut MemorySource,
    out: &mut MemorySink,
    wanted: Wanted,
) -> Option<(u8, bool, bool)> {
    match words_of(rt.alloc(), &["run", "yard"]) {
        Some(words) => {
            let status = tiered_in_order(&rt, words.as_slice(), script, yard, out);
            let (is_told, is_written) = is_wanted(rt.alloc(), &status, out.written(), wanted);
            Some((status.number(), is_told, is_written))
        }
        None => None,
    }
}

/// The same of the script of two partitions, over a new environment, whose call with this number fails.
fn called_over(rt: HostRuntime, failing: u32, wanted: Wanted) -> Option<(u8, bool, bool)> {
    match (
        vec![in rt.alloc(); failing],
        source_of(rt.alloc(), TWO.as_bytes(), &[]),
        sink_of(rt.alloc(), (10_000, 100, &[])),
    ) {
        (Ok(failing), Some(mut script), Some(mut out)) => {
            let mut yard = MemoryYard::new(rt.alloc(), Vec::new(rt.alloc()), failing);
            called(rt, &mut yard, &mut script, &mut out, wanted)
        }
        _ => None,
    }
}

/// The environment is asked for its first name, and then for twelve devices.
#[test]
fn nothing_is_written_where_a_yard_fails(rt: HostRuntime) {
    let fault = Wanted::Whole("tiered: folder fault\n", b"");
    for before in 0..13u32 {
        assert!(rt;
            called_over(rt, before + 1, fault) == well(8),
            "{before} calls before it"
        );
    }
}

#[test]
fn a_trace_is_written_where_a_yard_goes_on(rt: HostRuntime) {
    let traced = Wanted::Whole("", TRACE.as_bytes());
    assert!(rt; called_over(rt, 14, traced) == well(0));
}

/// Runs a part over devices in memory, of whose disk the first append fails, and returns how that ends.
fn over_devices(alloc: Global, config: Config, part: PartScript, trace: &str) -> End
    requires config { IsConfig config }
    requires fit { AreListsFor config part.lists }
    requires ends { StepsToEnds part }
{
    let failing = Planned {
        call: DiskCall::Append,
        number: 1,
        after: false,
    };
    if config.brokers != 1 {
        return End::Unread;
    }
    let Ok(plan) = vec![in alloc; failing] else {
        return End::Unread;
    };
    let Ok(disks) = vec![in alloc; MemoryDisk::new(alloc, plan)] else {
        return End::Unread;
    };
    let store = MemoryStore::new(alloc, Vec::new(alloc));
    let meta = MemoryLog::new(alloc, Vec::new(alloc));
    let registry = MemoryDisk::new(alloc, Vec::new(alloc));
    let devices = Devices { disks, store, meta };
    let (_devices, _registry, ran) = run_on(alloc, config, part, devices, registry);
    match ran {
        Ok(text) => End::Traced(text.as_slice() == trace.as_bytes()),
        Err(ColdRefusal::DeviceFault | ColdRefusal::RegistryFault) => End::Fault,
        Err(ColdRefusal::NoMemory) => End::NoMemory,
        Err(_) => End::Refused,
    }
}

/// Reads a script, and runs its last partition over devices.
fn run_last(alloc: Global, script: &str, trace: &str) -> End {
    let Some(script) = read(alloc, script) else {
        return End::Unread;
    };
    let mut parts = script.parts;
    match parts.pop() {
        Some(part) => over_devices(alloc, script.config, part, trace),
        None => End::Unread,
    }
}

#[test]
fn a_fault_of_a_device_is_an_answer(rt: HostRuntime) {
    let end = run_last(
        rt.alloc(),
        "0 0 0 append 1000,-,:a\n0 0 0 up\n",
        "0 0 0 = DiskFault\n0 0 1 = Up 0\n",
    );
    assert_eq!(rt; end, End::Traced(true));
}
