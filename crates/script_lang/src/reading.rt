//! Reading a script line by line. It goes over the bytes once, and copies only keys, values, headers and the bytes of
//! `raw`.

ghost use Rattle.std.specs.Prelude.{◌≡◌, ◌-◌, ◌<◌, ◌^◌, length, IfOk};
ghost use Rattle.script_lang.specs.Lines.{lines_of};
ghost use Rattle.script_lang.specs.Reading.{ReadsLine};
ghost use Rattle.script_lang.specs.Script.{nothing_told, line_behind, lines_behind, script_in, ReadsScript};
ghost use Rattle.script_lang.specs.Fit.{IsFit};

use crate::lines::cut_line;
use crate::refusal::{LineRefusal, ScriptRefusal};
use crate::script::Script;
use crate::told::Told;
use std::alloc::Global;

/// Reads the line with this number.
fn read_line(alloc: Global, told: Told, number: u32, line: &[u8]) -> Result<Told, ScriptRefusal>
    ensures { ReadsLine number result (line_behind told line.now) }
{
    match told.with_line(alloc, line) {
        Ok(next) => Ok(next),
        Err(LineRefusal::Because(why)) => Err(ScriptRefusal::Bad { line: number, why }),
        Err(LineRefusal::NoMemory) => Err(ScriptRefusal::NoMemory),
    }
}

/// Reads all lines.
fn read(alloc: Global, bytes: &[u8]) -> Result<Told, ScriptRefusal>
    requires { length bytes.now < 2 ^ 32 - 1 }
    ensures { ReadsScript result (lines_behind nothing_told 1 (lines_of bytes.now)) }
{
    let mut told = Told::new(alloc)?;
    let mut rest = bytes;
    let mut number: u32 = 1;
    while !rest.is_empty() {
        let (line, behind) = cut_line(rest);
        told = match read_line(alloc, told, number, line) {
            Ok(next) => next,
            Err(refusal) => return Err(refusal),
        };
        rest = behind;
        number += 1;
    }
    Ok(told)
}

/// Reads a script. Fails at the first invalid line, or if it is out of memory.
#[tactic(auto, unfolding(crate::specs::Script::script_in))]
pub fn parse(alloc: Global, bytes: &[u8]) -> Result<Script, ScriptRefusal>
    requires { length bytes.now < 2 ^ 32 - 1 }
    ensures read { ReadsScript result (script_in bytes.now) }
    ensures fit { IfOk result IsFit }
{
    let told = read(alloc, bytes)?;
    Ok(told.into_script()?)
}
