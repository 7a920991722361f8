//! What `run` does: from a script's bytes to the trace's bytes, over the devices of an environment.
//!
//! The script is read before the environment is asked for its first name, and that before the first device is provided.
//! So the environment is unchanged if the script is invalid, and keeps its content if it returns a name. The trace is
//! complete before its first byte is written.

ghost use Rattle.std.specs.Prelude.{◌≡◌, ◌<◌, ◌-◌, ◌^◌, ℕ, Ok, None, length, IfOk, IfErr, OnOk, IsTrue};
ghost use Rattle.script_lang.specs.Fit.{IsFit};
ghost use Rattle.script_lang.specs.Script.{script_in};
ghost use Rattle.device_yard.specs.Control.{NamesFirst};
ghost use Rattle.device_yard.specs.YardContent.{IsFirstName, IsNameInYard, Same};
ghost use Rattle.run_yard.specs.Reading.{IsRefusedSo};
ghost use Rattle.tiered_call.specs.Yards.{ended, IsOfScript, AnswersName, StopsOver};
ghost use Rattle.tiered_call.specs.Yards.{HasNoTrace, RunsOver, IsTraceOver, RunsInYard};

use crate::sim::SCRIPT_LIMIT;
use crate::status::Status;
use device_yard::Yard;
use run_yard::{YardRefusal, run_in_yard};
use script_lang::{Script, ScriptRefusal, parse};
use std::alloc::Global;
use tier_base::{ReadRefusal, Sink, Source, Trouble, read_all, write_all};

/// Asks an environment for a name.
fn ask<Y: Yard>(yard: &mut Y) -> Result<(), Status>
    ensures names { OnOk result (NamesFirst (Ok None) (Y.control yard.old) (Y.control yard.new)) }
    ensures nameless { OnOk result (IsTrue (Y.held yard.old).is_observable
        → IsFirstName (IsNameInYard Y.D.content Y.S.content Y.M.content (Y.held yard.old)) None) }
    ensures same { OnOk result (Same Y.D.content Y.S.content Y.M.content (Y.held yard.old) (Y.held yard.new)) }
    ensures stops { IfErr result (λ status. (brokers : ℕ)
        → StopsOver Y.D.Disk Y.S.Store Y.M.MetaLog brokers (Y.held yard.old)
        (Y.held yard.new) (Y.control yard.old) (Y.control yard.new) status) }
    ensures out { (Y.control yard.new).out ≡ (Y.control yard.old).out }
    ensures is_observable { (Y.held yard.new).is_observable ≡ (Y.held yard.old).is_observable }
{
    match yard.first_name() {
        Ok(None) => Ok(()),
        Ok(Some(name)) => Err(Status::NotEmpty { name }),
        Err(Trouble::Failed) => Err(Status::YardFault),
        Err(Trouble::NoMemory) => Err(Status::NoMemory),
    }
}

/// The status of a run that was refused.
fn ended(why: YardRefusal) -> Status
    ensures { result ≡ ended why }
{
    match why {
        YardRefusal::Fault => Status::YardFault,
        YardRefusal::Mismatch {
            partition,
            kept,
            asked,
        } => Status::Mismatch {
            partition,
            kept,
            asked,
        },
        YardRefusal::BadRegistry { partition, at } => Status::BadRegistry { partition, at },
        YardRefusal::NoMemory => Status::NoMemory,
    }
}

/// Runs a script over an environment that has no names, and returns the trace.
#[tactic(auto, using(crate::proofs::Refused::stops_so))]
fn run_over<Y: Yard>(alloc: Global, script: Script, yard: &mut Y) -> Result<Vec<u8>, Status>
    requires { IsFit script }
    ensures runs { IfOk result (λ text. RunsOver Y.D.Disk Y.S.Store Y.M.MetaLog script text.items
        (Y.held yard.old) (Y.held yard.new) (Y.control yard.old) (Y.control yard.new)) }
    ensures stops { IfErr result (StopsOver Y.D.Disk Y.S.Store Y.M.MetaLog script.config.brokers (Y.held yard.old)
        (Y.held yard.new)
        (Y.control yard.old) (Y.control yard.new)) }
    ensures out { (Y.control yard.new).out ≡ (Y.control yard.old).out }
    ensures is_observable { (Y.held yard.new).is_observable ≡ (Y.held yard.old).is_observable }
{
    match ask(yard) {
        Ok(()) => {}
        Err(status) => return Err(status),
    }
    match run_in_yard(alloc, yard, script.config, script.parts) {
        Ok(text) => Ok(text),
        Err(why) => Err(ended(why)),
    }
}

/// Reads a script, runs it over an environment that has no names, and returns the trace.
#[tactic(auto, using(crate::proofs::Refused::stopped_has_none))]
fn trace_over<Y: Yard>(alloc: Global, script: &[u8], yard: &mut Y) -> Result<Vec<u8>, Status>
    requires { length script.now < 2 ^ 32 - 1 }
    ensures trace { IfOk result (λ text. IsTraceOver Y.D.Disk Y.S.Store Y.M.MetaLog script.now text.items
        (Y.held yard.old) (Y.held yard.new) (Y.control yard.old) (Y.control yard.new)) }
    ensures cause { IfErr result (HasNoTrace Y.D.Disk Y.S.Store Y.M.MetaLog (script_in script.now)
        (Y.held yard.old) (Y.held yard.new) (Y.control yard.old) (Y.control yard.new)) }
    ensures unasked { IfErr result (λ status. IsOfScript status → yard.new ≡ yard.old) }
    ensures out { (Y.control yard.new).out ≡ (Y.control yard.old).out }
    ensures is_observable { (Y.held yard.new).is_observable ≡ (Y.held yard.old).is_observable }
{
    let script = match parse(alloc, script) {
        Ok(script) => script,
        Err(ScriptRefusal::Bad { line, why }) => return Err(Status::BadScript { line, why }),
        Err(ScriptRefusal::NoMemory) => return Err(Status::NoMemory),
    };
    run_over(alloc, script, yard)
}

/// Reads a script, runs it over the devices of an environment that has no names, and writes what each of its commands
/// was answered.
pub fn run<R: Source, Y: Yard, W: Sink>(
    alloc: Global,
    script: &mut R,
    yard: &mut Y,
    out: &mut W,
) -> Status
    ensures runs { RunsInYard Y.D.Disk Y.S.Store Y.M.MetaLog R.Source W.Sink script.old script.new
        (Y.held yard.old) (Y.held yard.new) (Y.control yard.old) (Y.control yard.new) out.old out.new result }
    ensures unasked { IsOfScript result → yard.new ≡ yard.old }
{
    let bytes = match read_all(alloc, script, SCRIPT_LIMIT) {
        Ok(bytes) => bytes,
        Err(ReadRefusal::Failed) => return Status::ReadFault,
        Err(ReadRefusal::TooLong) => return Status::TooLong,
        Err(ReadRefusal::NoMemory) => return Status::NoMemory,
    };
    let text = match trace_over(alloc, bytes.as_slice(), yard) {
        Ok(text) => text,
        Err(status) => return status,
    };
    match write_all(out, text.as_slice()) {
        Ok(()) => Status::Ok,
        Err(_) => Status::WriteFault,
    }
}
