//! The batches of log segments, as `kafka-dump-log` prints them.

ghost use Rattle.std.specs.Prelude.{◌≡◌, ⊤, IsOk};
ghost use Rattle.record_batch.specs.Check.{checked};
ghost use Rattle.dump_forms.specs.Chosen.{is_below as is_below_it, is_above as is_above_it, is_chosen as is_chosen_of};

use crate::files::open;
use crate::output::{complain, print_line};
use dump_lines::{
    Broken, DumpRefusal, Ending, Show, ShowRefusal, Shown, Style, batch_line, broken_line, dump,
    last_offset, record_text, text_of,
};
use record_batch::records;
use std::alloc::Global;
use std::io::{self, Write};
use tier_base::StdSource;

/// Which batches are printed, and how.
#[derive(Clone, Copy)]
pub struct Choice {
    pub style: Style,
    /// With their records.
    pub records: bool,
    /// Batches that end below this offset are left out.
    pub from: u64,
    /// Batches that begin above this offset are left out.
    pub to: u64,
}

/// Prints batches.
#[derive(Drop)]
struct Printer<'a, W: Write> {
    alloc: Global,
    choice: Choice,
    out: &'a mut W,
}

impl<'a, W: Write> Printer<'a, W> {
    /// Writes a text.
    fn put(&mut self, text: &str) -> Result<(), ShowRefusal> {
        match self.out.write_all(text.as_bytes()) {
            Ok(()) => Ok(()),
            Err(_) => Err(ShowRefusal::Failed),
        }
    }

    /// Prints the line of a batch.
    fn batch(&mut self, one: &Shown) -> Result<(), ShowRefusal> {
        let line = batch_line(self.alloc, one)?;
        let text = text_of(self.alloc, self.choice.style, line.as_slice())?;
        self.put(text.as_str())
    }

    /// Prints the lines of a batch's records.
    fn records(&mut self, one: &Shown, batch: &[u8]) -> Result<(), ShowRefusal>
        requires { IsOk (checked batch.now) }
    {
        let recs = records(self.alloc, batch)?;
        let mut index: u32 = 0;
        for rec in recs.as_slice() {
            let text = record_text(self.alloc, self.choice.style, &one.head, index, rec)?;
            if !self.choice.style.json {
                self.put("| ")?;
            }
            self.put(text.as_str())?;
            index = index.saturating_add(1);
        }
        Ok(())
    }
}

/// Whether an offset is below a bound. A negative one isn't.
fn is_below(offset: i64, bound: u64) -> bool
    ensures { result ≡ is_below_it offset bound }
{
    0 <= offset && (offset as i128) < bound as i128
}

/// Whether an offset is above a bound.
fn is_above(offset: i64, bound: u64) -> bool
    ensures { result ≡ is_above_it offset bound }
{
    (bound as i128) < offset as i128
}

/// Whether a batch may have an offset in the range.
fn is_chosen(choice: &Choice, one: &Shown) -> bool
    ensures { result ≡ is_chosen_of choice.now.from choice.now.to one.now }
{
    let ends_below = is_below(last_offset(&one.head), choice.from);
    let begins_above = is_above(one.head.base_offset, choice.to);
    !(ends_below || begins_above)
}

impl<'a, W: Write> Show for Printer<'a, W> {
    ghost told = { λ _ _. ⊤ };

    fn show(&mut self, one: &Shown, batch: &[u8]) -> Result<(), ShowRefusal> {
        if !is_chosen(&self.choice, one) {
            return Ok(());
        }
        self.batch(one)?;
        if self.choice.records && one.refused.is_none() {
            self.records(one, batch)?;
        }
        Ok(())
    }
}

/// Prints the batches of a log segment. Returns status 0 if they are the whole file.
pub fn print_log<W: Write>(
    rt: &HostRuntime,
    out: &mut W,
    choice: Choice,
    name: &str,
) -> io::Result<u8> {
    let Some(file) = open(rt, name)? else {
        return Ok(1);
    };
    let mut source = StdSource::new(file);
    let mut printer = Printer {
        alloc: rt.alloc(),
        choice,
        out,
    };
    let ending = dump(rt.alloc(), &mut source, &mut printer);
    match ending {
        Ok(Ending::End { .. }) => Ok(0),
        Ok(Ending::NoBatch(broken)) => {
            print_broken_line(rt, out, choice.style, &broken)?;
            print_broken(rt, out, name, &broken)
        }
        Err(why) => failed(rt, out, name, why),
    }
}

/// Prints why a dump stopped.
pub fn failed<W: Write>(
    rt: &HostRuntime,
    out: &mut W,
    name: &str,
    why: DumpRefusal,
) -> io::Result<u8> {
    out.flush()?;
    match why {
        DumpRefusal::Failed => complain(rt, name, "a read failed"),
        DumpRefusal::TooLong => complain(rt, name, "too long"),
        DumpRefusal::WriteFailed => complain(rt, name, "a write failed"),
        DumpRefusal::NoMemory => complain(rt, name, "out of memory"),
    }
}

/// Prints the line of the batch at which a dump ends, if the file has all of its bytes.
fn print_broken_line<W: Write>(
    rt: &HostRuntime,
    out: &mut W,
    style: Style,
    broken: &Broken,
) -> io::Result<()> {
    match broken_line(rt.alloc(), broken)? {
        Some(line) => print_line(rt, out, style, line.as_slice()),
        None => Ok(()),
    }
}

/// Prints the position at which a log has no batch, and why.
pub fn print_broken<W: Write>(
    rt: &HostRuntime,
    out: &mut W,
    name: &str,
    broken: &Broken,
) -> io::Result<u8> {
    out.flush()?;
    let position = broken.position;
    let why = broken.why;
    eprint!(rt; "tier_dump: {name}: no batch at position {position}: {why}\n")?;
    Ok(1)
}
