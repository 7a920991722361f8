//! The happy path of each public call, and streams that fail in mid-stream. Worked by hand.

use std::alloc::{AllocError, Global};
use std::io::Write;
use tier_base::{
    Blob, Failed, Items, MemorySink, MemorySource, ReadRefusal, Reserved, Sink, Source, StdSink,
    StdSource, Trouble, read_all, write_all,
};

/// A call of a list, or a look at it.
#[derive(Clone, Copy)]
enum Step {
    Push(u64),
    /// An item in the place of another, which is answered.
    Replace(usize, u64, u64),
    /// A place is written through what is lent.
    Write(usize, u64),
    Get(usize, u64),
    Pop(Option<u64>),
    Holds(&'static [u64]),
}

fn replace(row: &mut Items<u64>, i: usize, item: u64) -> Option<u64> {
    if i >= row.len() {
        return None;
    }
    Some(row.replace(i, item))
}

fn write(row: &mut Items<u64>, i: usize, item: u64) -> bool {
    if i >= row.len() {
        return false;
    }
    *row.at_mut(i) = item;
    true
}

fn get(row: &Items<u64>, i: usize) -> Option<u64> {
    if i >= row.len() {
        return None;
    }
    Some(*row.get(i))
}

fn is_row(row: &Items<u64>, items: &[u64]) -> bool {
    let counted = (row.len(), row.is_empty()) == (items.len(), items.is_empty());
    counted & (row.as_slice() == items)
}

/// Makes a call, and returns whether it went as the row says.
fn call(row: &mut Items<u64>, step: Step) -> bool {
    match step {
        Step::Push(item) => row.push(item).is_ok(),
        Step::Replace(i, item, old) => replace(row, i, item) == Some(old),
        Step::Write(i, item) => write(row, i, item),
        Step::Get(i, item) => get(row, i) == Some(item),
        Step::Pop(item) => row.pop() == item,
        Step::Holds(items) => is_row(row, items),
    }
}

/// Makes calls, and returns how many went well at first.
fn run(row: &mut Items<u64>, steps: &[Step]) -> usize {
    for (i, step) in steps.iter().enumerate() {
        if !call(row, *step) {
            return i;
        }
    }
    steps.len()
}

/// Makes calls of a new list, and returns how many went well at first, and how many items are passed on.
fn run_new(alloc: Global, steps: &[Step]) -> (usize, usize) {
    let mut row = Items::new(alloc);
    let well = run(&mut row, steps);
    (well, Items::from_vec(row.into_vec()).len())
}

/// The calls of a list.
static STEPS: [Step; 10] = [
    Step::Holds(&[]),
    Step::Pop(None),
    Step::Push(5),
    Step::Push(6),
    Step::Push(7),
    Step::Replace(1, 60, 6),
    Step::Write(0, 50),
    Step::Get(0, 50),
    Step::Pop(Some(7)),
    Step::Holds(&[50, 60]),
];

#[test]
fn a_row_has_what_was_put_into_it(rt: HostRuntime) {
    assert_eq!(rt; run_new(rt.alloc(), &STEPS), (STEPS.len(), 2));
}

/// Puts two items into the room that is made for them.
fn put_two(roll: &mut Reserved<u64>) -> bool {
    match roll.reserve(2) {
        Ok(()) => {
            roll.put(8);
            roll.put(9);
            true
        }
        Err(_) => false,
    }
}

/// Whether a list takes two items.
fn takes_two(alloc: Global) -> (bool, usize, bool) {
    let mut roll = Reserved::new(alloc);
    let put = put_two(&mut roll);
    (put, roll.len(), roll.items() == [8, 9].as_slice())
}

#[test]
fn a_roll_takes_what_it_has_room_for(rt: HostRuntime) {
    assert_eq!(rt; takes_two(rt.alloc()), (true, 2, true));
}

/// Whether a blob's bytes are these, also when it is passed on.
fn is_blob(blob: Blob, bytes: &[u8]) -> (usize, bool, bool, bool) {
    let told = (blob.len(), blob.is_empty(), blob.as_slice() == bytes);
    let again = Blob::from_vec(blob.into_vec());
    (told.0, told.1, told.2, again.as_slice() == bytes)
}

/// The length of a blob of these bytes, whether it is empty, and whether they are its own.
fn blob_of(alloc: Global, bytes: &[u8]) -> Option<(usize, bool, bool, bool)> {
    match Blob::from_slice(alloc, bytes) {
        Ok(blob) => Some(is_blob(blob, bytes)),
        Err(_) => None,
    }
}

#[test]
fn a_blob_is_its_bytes(rt: HostRuntime) {
    assert_eq!(rt; blob_of(rt.alloc(), b"key"), Some((3, false, true, true)));
}

/// So many bytes, no two neighbours alike.
fn ramp(alloc: Global, count: u32) -> Result<Vec<u8>, AllocError> {
    let mut bytes = Vec::new(alloc);
    for i in 0..count {
        bytes.push((i % 251) as u8)?;
    }
    Ok(bytes)
}

/// Whether bytes are a ramp.
fn is_ramp(bytes: &[u8], count: u32) -> bool {
    for (i, byte) in bytes.iter().enumerate() {
        if *byte != (i % 251) as u8 {
            return false;
        }
    }
    bytes.len() == count as usize
}

/// A source of a ramp whose calls of these numbers fail.
fn source_of(alloc: Global, count: u32, plan: &[u32]) -> Option<MemorySource> {
    match (ramp(alloc, count), plan.to_vec(alloc)) {
        (Ok(bytes), Ok(plan)) => Some(MemorySource::new(bytes, plan)),
        _ => None,
    }
}

/// What `read_all` answers over a source: whether it is the whole ramp.
fn read_ramp(alloc: Global, count: u32, plan: &[u32], limit: u32) -> Result<bool, ReadRefusal> {
    let mut source = match source_of(alloc, count, plan) {
        Some(source) => source,
        None => return Err(ReadRefusal::NoMemory),
    };
    match read_all(alloc, &mut source, limit as usize) {
        Ok(bytes) => Ok(is_ramp(bytes.as_slice(), count)),
        Err(refusal) => Err(refusal),
    }
}

/// The bytes of a source, its calls that fail, a limit, and what `read_all` answers.
static READS: [(u32, &[u32], u32, Result<bool, ReadRefusal>); 10] = [
    (0, &[], 0, Ok(true)),
    (1, &[], 1, Ok(true)),
    (65536, &[], 65536, Ok(true)),
    (200000, &[], 200000, Ok(true)),
    (200000, &[], 300000, Ok(true)),
    (1, &[], 0, Err(ReadRefusal::TooLong)),
    (5, &[], 4, Err(ReadRefusal::TooLong)),
    (65537, &[], 65536, Err(ReadRefusal::TooLong)),
    (200000, &[], 199999, Err(ReadRefusal::TooLong)),
    (200000, &[2], 200000, Err(ReadRefusal::Failed)),
];

#[test]
fn a_source_is_read_to_its_end_or_limit(rt: HostRuntime) {
    for (count, plan, limit, wanted) in &READS {
        let read = read_ramp(rt.alloc(), *count, plan, *limit);
        assert_eq!(rt; read, *wanted, "{count} bytes within {limit}");
    }
}

/// A read: how many bytes it gives, and which.
type Read = Result<(usize, u8, u8), Failed>;

/// Reads two bytes.
fn read_two(source: &mut MemorySource) -> Read {
    let mut buf = [9u8; 2];
    match source.read(&mut buf) {
        Ok(count) => Ok((count, buf[0], buf[1])),
        Err(failed) => Err(failed),
    }
}

/// Two reads of a source whose first call fails.
fn read_twice(alloc: Global) -> Option<(Read, Read)> {
    match source_of(alloc, 3, &[1]) {
        Some(mut source) => Some((read_two(&mut source), read_two(&mut source))),
        None => None,
    }
}

#[test]
fn a_failed_read_takes_no_bytes(rt: HostRuntime) {
    let wanted = (Err(Failed), Ok((2, 0, 1)));
    assert_eq!(rt; read_twice(rt.alloc()), Some(wanted));
}

/// A call of a sink and its answer, or a look at it.
#[derive(Clone, Copy)]
enum Piece {
    One(&'static [u8], Result<usize, Failed>),
    All(&'static [u8], Result<(), Failed>),
    Wrote(&'static [u8]),
}

fn give(sink: &mut MemorySink, piece: Piece) -> bool {
    match piece {
        Piece::One(bytes, answer) => sink.write(bytes) == answer,
        Piece::All(bytes, answer) => write_all(sink, bytes) == answer,
        Piece::Wrote(bytes) => sink.written() == bytes,
    }
}

/// Makes calls, and returns how many went well at first.
fn give_each(sink: &mut MemorySink, pieces: &[Piece]) -> usize {
    for (i, piece) in pieces.iter().enumerate() {
        if !give(sink, *piece) {
            return i;
        }
    }
    pieces.len()
}

/// A sink with so much room that takes four bytes a call, and whose calls of these numbers fail.
fn sink_of(alloc: Global, room: usize, plan: &[u32]) -> Option<MemorySink> {
    match plan.to_vec(alloc) {
        Ok(plan) => MemorySink::new(alloc, room, 4, plan).ok(),
        Err(_) => None,
    }
}

/// How many calls of a sink went well at first.
fn given(alloc: Global, room: usize, plan: &[u32], pieces: &[Piece]) -> usize {
    match sink_of(alloc, room, plan) {
        Some(mut sink) => give_each(&mut sink, pieces),
        None => 0,
    }
}

/// What happens, the room, the calls that fail, and those that are made.
static WRITES: [(&str, usize, &[u32], &[Piece]); 2] = [
    (
        "a piece is written in several calls, until the room is used up",
        10,
        &[],
        &[
            Piece::One(b"0123456789", Ok(4)),
            Piece::All(b"456789", Ok(())),
            Piece::All(b"", Ok(())),
            Piece::All(b"a", Err(Failed)),
            Piece::Wrote(b"0123456789"),
        ],
    ),
    (
        "a fault in mid-stream leaves a front",
        100,
        &[2],
        &[
            Piece::All(b"0123456789", Err(Failed)),
            Piece::Wrote(b"0123"),
            Piece::All(b"456", Ok(())),
            Piece::Wrote(b"0123456"),
        ],
    ),
];

#[test]
fn pieces_are_written_as_in_the_cases(rt: HostRuntime) {
    for (name, room, plan, pieces) in &WRITES {
        let well = given(rt.alloc(), *room, plan, pieces);
        assert_eq!(rt; well, pieces.len(), "{name}");
    }
}

/// Whether a source over these bytes is read as they are.
fn reads_std(alloc: Global, text: &[u8]) -> bool {
    let mut source = StdSource::new(text);
    match read_all(alloc, &mut source, 10) {
        Ok(bytes) => bytes.as_slice() == text,
        Err(_) => false,
    }
}

/// Writes a text to a writer of std.
fn write_std<W: Write + Drop>(writer: W, text: &[u8]) -> Result<(), Failed> {
    let mut sink = StdSink::new(writer);
    write_all(&mut sink, text)
}

/// Whether a text is written to a vector as it is.
fn writes_vec(alloc: Global, text: &[u8]) -> (bool, bool) {
    let mut written: Vec<u8> = Vec::new(alloc);
    let well = write_std(&mut written, text).is_ok();
    (well, written.as_slice() == text)
}

/// Writes two bytes where there is room for one.
fn overfill() -> Result<(), Failed> {
    let mut one = [0u8; 1];
    write_std(one.as_mut_slice(), b"ab")
}

#[test]
fn a_source_of_std_is_read(rt: HostRuntime) {
    assert!(rt; reads_std(rt.alloc(), b"some bytes"));
}

#[test]
fn a_sink_of_std_is_written_to(rt: HostRuntime) {
    assert!(rt; writes_vec(rt.alloc(), b"some bytes") == (true, true));
}

#[test]
fn a_full_sink_of_std_takes_nothing_more(rt: HostRuntime) {
    assert!(rt; overfill() == Err(Failed));
}

/// Fails by the one or the other cause.
fn troubled(outside: bool) -> Result<(), Trouble> {
    if outside {
        Err(Failed)?;
    }
    Err(AllocError)?;
    Ok(())
}

#[test]
fn a_fault_is_not_out_of_memory(rt: HostRuntime) {
    assert_eq!(rt; troubled(true), Err(Trouble::Failed));
    assert_eq!(rt; troubled(false), Err(Trouble::NoMemory));
}
