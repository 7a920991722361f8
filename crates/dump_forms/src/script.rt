//! A script that appends the batches of a log segment, so that they can be run through `tiered sim`.

ghost use Rattle.std.specs.Prelude.{⊤};

use crate::batches::{failed, print_broken};
use crate::files::open;
use dump_lines::{Ending, Show, ShowRefusal, Shown, dump};
use std::alloc::Global;
use std::io::{self, Write};
use tier_base::StdSource;

/// Writes a line for each batch.
#[derive(Drop)]
struct Writer<'a, W: Write> {
    alloc: Global,
    out: &'a mut W,
}

impl<'a, W: Write> Show for Writer<'a, W> {
    ghost told = { λ _ _. ⊤ };

    fn show(&mut self, _one: &Shown, batch: &[u8]) -> Result<(), ShowRefusal> {
        let digits = hex::encode(self.alloc, batch)?;
        match write_raw(self.out, digits.as_str()) {
            Ok(()) => Ok(()),
            Err(_) => Err(ShowRefusal::Failed),
        }
    }
}

/// Writes the line that appends a batch.
fn write_raw<W: Write>(out: &mut W, digits: &str) -> io::Result<()> {
    out.write_all(b"0 0 0 raw ")?;
    out.write_all(digits.as_bytes())?;
    out.write_all(b"\n")
}

/// Prints a script that appends the batches of a log segment in their order.
pub fn print_script<W: Write>(rt: &HostRuntime, out: &mut W, name: &str) -> io::Result<u8> {
    let Some(file) = open(rt, name)? else {
        return Ok(1);
    };
    let mut source = StdSource::new(file);
    let mut writer = Writer {
        alloc: rt.alloc(),
        out,
    };
    match dump(rt.alloc(), &mut source, &mut writer) {
        Ok(Ending::End { .. }) => Ok(0),
        Ok(Ending::NoBatch(broken)) => print_broken(rt, out, name, &broken),
        Err(why) => failed(rt, out, name, why),
    }
}
