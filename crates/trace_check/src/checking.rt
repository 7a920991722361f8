//! The call that the program makes: the bytes of scripts and of their traces in, a verdict out.

ghost use Rattle.std.specs.Prelude.{◌≡◌, ◌-◌, ◌<◌, ◌^◌, ◌↔◌, length, map, All, IfOk};
ghost use Rattle.trace_text.specs.Read.{told};
ghost use Rattle.trace_check.specs.Chain.{AreWholeTraces};
ghost use Rattle.trace_check.specs.Verdicts.{IsPairJudged, IsVerdict};

use crate::judging::judge;
use crate::pair::Pair;
use crate::verdict::{Flaw, Verdict};
use plain_executor::Plain;
use script_lang::{ScriptRefusal, parse};
use std::alloc::{AllocError, Global};
use tier_base::Items;
use trace_text::{TraceRefusal, one_text_one_trace, print_is_read, read};

/// Judges a trace, from the states that the runs before it left, and leaves those that it leaves.
fn judge_pair(
    alloc: Global,
    pair: &Pair,
    states: &mut Items<Plain>,
) -> Result<Option<Flaw>, AllocError>
    requires { length pair.now.script < 2 ^ 32 - 1 }
    ensures { IfOk result (λ found. IsPairJudged states.old pair.now states.new found) }
{
    let said = match parse(alloc, pair.script.as_slice()) {
        Ok(said) => said,
        Err(ScriptRefusal::Bad { line, why }) => return Ok(Some(Flaw::BadScript { line, why })),
        Err(ScriptRefusal::NoMemory) => return Err(AllocError),
    };
    let journals = match read(alloc, pair.trace.as_slice()) {
        Ok(journals) => journals,
        Err(TraceRefusal::Bad { line }) => return Ok(Some(Flaw::BadTrace { line })),
        Err(TraceRefusal::NoMemory) => return Err(AllocError),
    };
    let found = judge(alloc, &said, journals.as_slice(), states)?;
    Ok(found)
}

/// Returns whether traces are whole runs of the plain log of their scripts, each from the states that the one before it
/// left. If not, it reports which is the first that is none, and why.
pub fn check(alloc: Global, pairs: &[Pair]) -> Result<Verdict, AllocError>
    requires { All (λ pair. length pair.script < 2 ^ 32 - 1) pairs.now }
    ensures verdict { IfOk result (IsVerdict pairs.now) }
    ensures whole { IfOk result (λ verdict. verdict ≡ Verdict.Whole ↔ AreWholeTraces pairs.now) }
{
    print_is_read();
    one_text_one_trace();
    let mut states = Items::new(alloc);
    for (before, pair) in pairs.iter().enumerate() {
        if let Some(flaw) = judge_pair(alloc, pair, &mut states)? {
            return Ok(Verdict::Flawed {
                run: before + 1,
                flaw,
            });
        }
    }
    Ok(Verdict::Whole)
}
