//! The call that the program makes: words, a source, an environment and a sink in, a status out.

ghost use Rattle.std.specs.Prelude.{◌≡◌, ◌≢◌, ◌↔◌, ◌⊎◌, ℕ, Some, None};
ghost use Rattle.tiered_call.specs.declared.words.Form.{Form};
ghost use Rattle.tiered_call.specs.Words.{form_of as form_is};
ghost use Rattle.tiered_call.specs.Headline.{IsTraceOfScript, IsTraceByThreads};
ghost use Rattle.tiered_call.specs.Endings.{Simulates, Generates};
ghost use Rattle.tiered_call.specs.Rounds.{AuditsYard, SweepsYard};
ghost use Rattle.tiered_call.specs.Yards.{IsOfScript, RunsInYard};
ghost use Rattle.tiered_call.specs.Forms.{Does, DoesInOrder};

use crate::by_threads::simulate_by_threads;
use crate::load::generate;
use crate::rounds::{audit, sweep};
use crate::run::run;
use crate::sim::simulate;
use crate::status::Status;
use crate::words::{Form, form_of};
use device_yard::Yard;
use disk_model::{Disk, MemoryDisk};
use meta_log::{MemoryLog, MetaLog};
use object_store::{MemoryStore, Store};
use run_threaded::Gate;
use std::sync::Wait;
use std::thread::Threads;
use tier_base::{Sink, Source};

/// Does what the words ask for. Only for `sim --threads` does it wait: for locks, and for threads to end.
pub fn tiered<H: AllocGlobal + Threads + Wait + Sync, R: Source, Y: Yard, W: Sink, G: Gate + Sync>(
    rt: &H,
    words: &[String],
    script: &mut R,
    yard: &mut Y,
    out: &mut W,
    gate: &G,
) -> Status
    // A script is run: every command of it is answered once and in order, as the plain log allows, and all of that is
    // written.
    ensures simulates { form_is words.now ≡ Some Form.Sim
        → Simulates (IsTraceOfScript ⟦<MemoryDisk as Disk>⟧ ⟦<MemoryStore as Store>⟧ ⟦<MemoryLog as MetaLog>⟧) R.Source
        W.Sink
        script.old script.new out.old out.new result }

    // The same where each actor has a thread of its own: each run is one by some schedule.
    ensures threads { form_is words.now ≡ Some Form.Threads
        → Simulates (IsTraceByThreads ⟦<MemoryDisk as Disk>⟧ ⟦<MemoryStore as Store>⟧ ⟦<MemoryLog as MetaLog>⟧) R.Source
        W.Sink
        script.old script.new out.old out.new result }

    // A script is run over the devices of an environment: over any environment every command is answered once and in
    // order, and each device is given back; over one that reports the trace is a run of the plain log, and the
    // environment holds the devices with what it left.
    ensures runs { form_is words.now ≡ Some Form.Run
        → RunsInYard Y.D.Disk Y.S.Store Y.M.MetaLog R.Source W.Sink script.old script.new
        (Y.held yard.old) (Y.held yard.new) (Y.control yard.old) (Y.control yard.new) out.old out.new result }
    ensures unasked { form_is words.now ≡ Some Form.Run → IsOfScript result → yard.new ≡ yard.old }

    // The remote tier of each partition in an environment is audited, or swept, and what was found or went is written.
    ensures audits { form_is words.now ≡ Some Form.Audit
        → AuditsYard Y.D.Disk Y.S.Store Y.M.MetaLog W.Sink (Y.held yard.old) (Y.held yard.new)
        (Y.control yard.old) (Y.control yard.new) out.old out.new result }
    ensures sweeps { form_is words.now ≡ Some Form.Sweep
        → SweepsYard Y.D.Disk Y.S.Store Y.M.MetaLog W.Sink (Y.held yard.old) (Y.held yard.new)
        (Y.control yard.old) (Y.control yard.new) out.old out.new result }
    ensures yard { form_is words.now ≢ Some Form.Run → form_is words.now ≢ Some Form.Audit
        → form_is words.now ≢ Some Form.Sweep
        → yard.new ≡ yard.old }

    // The script of a number is run, and what its journals come to is written.
    ensures generates { (number : ℕ) → form_is words.now ≡ Some (Form.Gen number)
        → Generates ⟦<MemoryDisk as Disk>⟧ ⟦<MemoryStore as Store>⟧ ⟦<MemoryLog as MetaLog>⟧ W.Sink
        number out.old out.new result }
    ensures unread { form_is words.now ≢ Some Form.Sim → form_is words.now ≢ Some Form.Threads
        → form_is words.now ≢ Some Form.Run
        → script.new ≡ script.old }

    // Other words have no form.
    ensures usage { result ≡ Status.Usage ↔ (form_is words.now ≡ None) }
    ensures untouched { result ≡ Status.Usage → out.new ≡ out.old }
{
    carry_out(rt, words, script, yard, out, gate)
}

/// Does what the words ask for, without a thread or a lock, so that it returns. For this call `sim --threads` has no
/// form.
pub fn tiered_in_order<H: AllocGlobal, R: Source, Y: Yard, W: Sink>(
    rt: &H,
    words: &[String],
    script: &mut R,
    yard: &mut Y,
    out: &mut W,
) -> Status
    // What `tiered` says of these forms.
    ensures simulates { form_is words.now ≡ Some Form.Sim
        → Simulates (IsTraceOfScript ⟦<MemoryDisk as Disk>⟧ ⟦<MemoryStore as Store>⟧ ⟦<MemoryLog as MetaLog>⟧) R.Source
        W.Sink
        script.old script.new out.old out.new result }
    ensures runs { form_is words.now ≡ Some Form.Run
        → RunsInYard Y.D.Disk Y.S.Store Y.M.MetaLog R.Source W.Sink script.old script.new
        (Y.held yard.old) (Y.held yard.new) (Y.control yard.old) (Y.control yard.new) out.old out.new result }
    ensures unasked { form_is words.now ≡ Some Form.Run → IsOfScript result → yard.new ≡ yard.old }
    ensures audits { form_is words.now ≡ Some Form.Audit
        → AuditsYard Y.D.Disk Y.S.Store Y.M.MetaLog W.Sink (Y.held yard.old) (Y.held yard.new)
        (Y.control yard.old) (Y.control yard.new) out.old out.new result }
    ensures sweeps { form_is words.now ≡ Some Form.Sweep
        → SweepsYard Y.D.Disk Y.S.Store Y.M.MetaLog W.Sink (Y.held yard.old) (Y.held yard.new)
        (Y.control yard.old) (Y.control yard.new) out.old out.new result }
    ensures yard { form_is words.now ≢ Some Form.Run → form_is words.now ≢ Some Form.Audit
        → form_is words.now ≢ Some Form.Sweep
        → yard.new ≡ yard.old }
    ensures generates { (number : ℕ) → form_is words.now ≡ Some (Form.Gen number)
        → Generates ⟦<MemoryDisk as Disk>⟧ ⟦<MemoryStore as Store>⟧ ⟦<MemoryLog as MetaLog>⟧ W.Sink
        number out.old out.new result }
    ensures unread { form_is words.now ≢ Some Form.Sim → form_is words.now ≢ Some Form.Run → script.new ≡ script.old }
    ensures usage { result ≡ Status.Usage ↔ ((form_is words.now ≡ None) ⊎ (form_is words.now ≡ Some Form.Threads)) }
    ensures untouched { result ≡ Status.Usage → out.new ≡ out.old }
{
    carry_out_in_order(rt, words, script, yard, out)
}

/// Does what the words ask for. The clauses of `tiered` follow from this one, which has a case for each form.
fn carry_out<H: AllocGlobal + Threads + Wait + Sync, R: Source, Y: Yard, W: Sink, G: Gate + Sync>(
    rt: &H,
    words: &[String],
    script: &mut R,
    yard: &mut Y,
    out: &mut W,
    gate: &G,
) -> Status
    ensures { Does ⟦<MemoryDisk as Disk>⟧ ⟦<MemoryStore as Store>⟧ ⟦<MemoryLog as MetaLog>⟧ Y.D.Disk Y.S.Store
        Y.M.MetaLog
        Y.held Y.control R.Source W.Sink (form_is words.now) script.old script.new yard.old yard.new out.old out.new
        result }
{
    match form_of(words) {
        Some(Form::Threads) => simulate_by_threads(rt, script, out, gate),
        _ => carry_out_in_order(rt, words, script, yard, out),
    }
}

/// Does what the words ask for, without a thread or a lock.
fn carry_out_in_order<H: AllocGlobal, R: Source, Y: Yard, W: Sink>(
    rt: &H,
    words: &[String],
    script: &mut R,
    yard: &mut Y,
    out: &mut W,
) -> Status
    ensures { DoesInOrder ⟦<MemoryDisk as Disk>⟧ ⟦<MemoryStore as Store>⟧ ⟦<MemoryLog as MetaLog>⟧ Y.D.Disk Y.S.Store
        Y.M.MetaLog
        Y.held Y.control R.Source W.Sink (form_is words.now) script.old script.new yard.old yard.new out.old out.new
        result }
{
    match form_of(words) {
        None | Some(Form::Threads) => Status::Usage,
        Some(Form::Sim) => simulate(rt.alloc(), script, out),
        Some(Form::Run) => run(rt.alloc(), script, yard, out),
        Some(Form::Gen(number)) => generate(rt.alloc(), number, out),
        Some(Form::Audit) => audit(rt.alloc(), yard, out),
        Some(Form::Sweep) => sweep(rt.alloc(), yard, out),
    }
}
