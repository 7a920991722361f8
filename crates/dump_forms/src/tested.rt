//! An index's entries, each tested against its log segment.
//!
//! The log is dumped once, beside the entries. `specs/Tested.antt` says which entries are right.

ghost use Rattle.std.specs.Prelude.{◌≡◌, ⊤};
ghost use Rattle.dump_forms.specs.Tested.{offset_of as entry_offset, last_in, offset_verdict as verdict_of_offset};
ghost use Rattle.dump_forms.specs.Tested.{time_verdict as verdict_of_time};

use crate::batches::{failed, print_broken};
use crate::files::open;
use dump_lines::{
    DumpRefusal, Ending, Field, IndexEntry, Name, Show, ShowRefusal, Shown, Style, TimeEntry,
    Value, dump, last_offset, text_of,
};
use std::alloc::Global;
use std::io::{self, Write};
use tier_base::StdSource;

/// Where the lines of tested entries go.
#[derive(Drop)]
struct Lines<'a, W: Write> {
    alloc: Global,
    style: Style,
    out: &'a mut W,
    /// How many entries were tested.
    done: usize,
    /// Whether an entry was wrong.
    wrong: bool,
}

impl<'a, W: Write> Lines<'a, W> {
    /// Prints an entry, and whether it is right.
    fn put(&mut self, fields: [Field; 2], is_right: bool) -> Result<(), ShowRefusal> {
        let valid = Field {
            name: Name::IsValid,
            value: Value::Flag(is_right),
        };
        let [first, second] = fields;
        let line = [first, second, valid];
        let text = text_of(self.alloc, self.style, line.as_slice())?;
        self.done = self.done.saturating_add(1);
        self.wrong = self.wrong || !is_right;
        match self.out.write_all(text.as_bytes()) {
            Ok(()) => Ok(()),
            Err(_) => Err(ShowRefusal::Failed),
        }
    }
}

/// The offset of an entry, at most 2^64 - 1.
fn offset_of(base: u64, relative: u32) -> u64
    ensures { result ≡ entry_offset base relative }
{
    base.saturating_add(relative as u64)
}

/// The last offset of a batch.
fn last_of(one: &Shown) -> u64
    ensures { result ≡ last_in one.now }
{
    last_offset(&one.head).cast_unsigned()
}

/// What a batch says of an entry of an offset index: nothing if the entry is of a later batch, else whether it is
/// right.
fn offset_verdict(base: u64, entry: IndexEntry, one: &Shown) -> Option<bool>
    ensures { result ≡ verdict_of_offset base entry one.now }
{
    let (relative, position) = entry;
    if position as u64 > one.position {
        return None;
    }
    Some(position as u64 == one.position && offset_of(base, relative) == last_of(one))
}

/// What a batch says of an entry of a time index, if the batches before it have timestamps up to `greatest`.
fn time_verdict(base: u64, entry: TimeEntry, greatest: i64, one: &Shown) -> Option<bool>
    ensures { result ≡ verdict_of_time base entry greatest one.now }
{
    let (time, relative) = entry;
    let offset = offset_of(base, relative);
    let last = last_of(one);
    if offset > last {
        return None;
    }
    Some(greatest < one.head.max_ts && offset == last && time == one.head.max_ts)
}

/// Tests the entries of an offset index, batch by batch.
#[derive(Drop)]
struct Offsets<'a, 'b, W: Write> {
    base: u64,
    entries: &'b [IndexEntry],
    lines: Lines<'a, W>,
}

impl<'a, 'b, W: Write> Offsets<'a, 'b, W> {
    /// Prints the next entry, and whether it is right.
    fn put(&mut self, entry: IndexEntry, is_right: bool) -> Result<(), ShowRefusal> {
        let (relative, position) = entry;
        let fields = [
            Field {
                name: Name::Offset,
                value: Value::Unsigned(offset_of(self.base, relative)),
            },
            Field {
                name: Name::Position,
                value: Value::Unsigned(position as u64),
            },
        ];
        self.lines.put(fields, is_right)
    }

    /// Prints the entries of which no batch says anything. They are wrong.
    fn finish(&mut self) -> Result<(), ShowRefusal> {
        for _ in 0..self.entries.len() {
            if let Some(entry) = self.entries.get(self.lines.done) {
                let entry = *entry;
                self.put(entry, false)?;
            }
        }
        Ok(())
    }
}

impl<'a, 'b, W: Write> Show for Offsets<'a, 'b, W> {
    ghost told = { λ _ _. ⊤ };

    fn show(&mut self, one: &Shown, _batch: &[u8]) -> Result<(), ShowRefusal> {
        for _ in 0..self.entries.len() {
            let Some(entry) = self.entries.get(self.lines.done) else {
                return Ok(());
            };
            let entry = *entry;
            match offset_verdict(self.base, entry, one) {
                Some(is_right) => self.put(entry, is_right)?,
                None => return Ok(()),
            }
        }
        Ok(())
    }
}

/// Prints the entries of an offset index, and whether each is right in a log segment.
pub fn test_offsets<W: Write>(
    rt: &HostRuntime,
    out: &mut W,
    style: Style,
    base: u64,
    entries: &[IndexEntry],
    log: &str,
) -> io::Result<u8> {
    let Some(file) = open(rt, log)? else {
        return Ok(1);
    };
    let mut source = StdSource::new(file);
    let lines = Lines {
        alloc: rt.alloc(),
        style,
        out,
        done: 0,
        wrong: false,
    };
    let mut test = Offsets {
        base,
        entries,
        lines,
    };
    let ending = dump(rt.alloc(), &mut source, &mut test);
    let finished = test.finish();
    let wrong = test.lines.wrong;
    ended(rt, out, log, joined(ending, finished), wrong)
}

/// How a dump and the lines after it ended.
fn joined(
    ending: Result<Ending, DumpRefusal>,
    finished: Result<(), ShowRefusal>,
) -> Result<Ending, DumpRefusal> {
    match finished {
        Ok(()) => ending,
        Err(error) => Err(DumpRefusal::from(error)),
    }
}

/// Says why the log ended before its file did, and returns the status.
fn ended<W: Write>(
    rt: &HostRuntime,
    out: &mut W,
    log: &str,
    ending: Result<Ending, DumpRefusal>,
    wrong: bool,
) -> io::Result<u8> {
    match ending {
        Ok(Ending::End { .. }) => Ok(u8::from(wrong)),
        Ok(Ending::NoBatch(broken)) => print_broken(rt, out, log, &broken),
        Err(why) => failed(rt, out, log, why),
    }
}

/// Tests the entries of a time index, batch by batch.
#[derive(Drop)]
struct Times<'a, 'b, W: Write> {
    base: u64,
    entries: &'b [TimeEntry],
    /// The greatest timestamp of the batches so far.
    greatest: i64,
    lines: Lines<'a, W>,
}

impl<'a, 'b, W: Write> Times<'a, 'b, W> {
    /// Prints the next entry, and whether it is right.
    fn put(&mut self, entry: TimeEntry, is_right: bool) -> Result<(), ShowRefusal> {
        let (time, relative) = entry;
        let fields = [
            Field {
                name: Name::Timestamp,
                value: Value::Time(time),
            },
            Field {
                name: Name::Offset,
                value: Value::Unsigned(offset_of(self.base, relative)),
            },
        ];
        self.lines.put(fields, is_right)
    }

    /// Prints the entries of which no batch says anything. They are wrong.
    fn finish(&mut self) -> Result<(), ShowRefusal> {
        for _ in 0..self.entries.len() {
            if let Some(entry) = self.entries.get(self.lines.done) {
                let entry = *entry;
                self.put(entry, false)?;
            }
        }
        Ok(())
    }
}

impl<'a, 'b, W: Write> Show for Times<'a, 'b, W> {
    ghost told = { λ _ _. ⊤ };

    fn show(&mut self, one: &Shown, _batch: &[u8]) -> Result<(), ShowRefusal> {
        let greatest = self.greatest;
        self.greatest = greatest.max(one.head.max_ts);
        for _ in 0..self.entries.len() {
            let Some(entry) = self.entries.get(self.lines.done) else {
                return Ok(());
            };
            let entry = *entry;
            match time_verdict(self.base, entry, greatest, one) {
                Some(is_right) => self.put(entry, is_right)?,
                None => return Ok(()),
            }
        }
        Ok(())
    }
}

/// Prints the entries of a time index, and whether each is right in a log segment.
pub fn test_times<W: Write>(
    rt: &HostRuntime,
    out: &mut W,
    style: Style,
    base: u64,
    entries: &[TimeEntry],
    log: &str,
) -> io::Result<u8> {
    let Some(file) = open(rt, log)? else {
        return Ok(1);
    };
    let mut source = StdSource::new(file);
    let lines = Lines {
        alloc: rt.alloc(),
        style,
        out,
        done: 0,
        wrong: false,
    };
    let mut test = Times {
        base,
        entries,
        greatest: -1,
        lines,
    };
    let ending = dump(rt.alloc(), &mut source, &mut test);
    let finished = test.finish();
    let wrong = test.lines.wrong;
    ended(rt, out, log, joined(ending, finished), wrong)
}
