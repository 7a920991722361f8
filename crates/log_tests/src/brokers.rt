//! A broker's log over a disk in memory: stories, each a list of turns with their results. Worked by hand. A batch of
//! one record of a letter has 69 bytes, and two of them don't fit a segment of 100.
//!
//! Each call is a function without a contract that asks first whether the call may be made. A test never holds a log.

use crate::trial::stamped;
use crate::vectors::FIRST;
use broker_log::BrokerLog;
use disk_model::MemoryDisk;
use epoch_line::Line;
use std::alloc::Global;
use tier_base::{Settings, Stop};

/// A call of a broker's log, and what it comes to.
#[derive(Clone, Copy)]
enum Turn {
    /// A batch of this base offset and epoch is taken.
    Put(u64, u32),
    /// It isn't.
    Leave(u64, u32),
    Lead(u32, u64),
    Flush(u64),
    Roll(u64),
    Stop,
    Up(u64),
    /// A run at an offset, up to a mark: where the next one begins, and why it ends.
    Read(u64, u64, u64, Stop),
    /// A cut to an offset, and the end then.
    Cut(u64, u64),
    /// There is no closed segment, or the first one isn't flushed.
    Hold,
    /// The first closed segment goes: its base and its last offset.
    Drop(u64, u64),
    /// The closed segment from an offset on has so many bytes.
    Closed(u64, usize),
    Restart(u64),
    Arm,
    /// What it reports.
    Tell(Told),
}

/// What a broker's log reports: the end, the flushed end, the local start, how often it was opened, and how many
/// segments are closed.
type Told = (Option<u64>, Option<u64>, Option<u64>, Option<u32>, usize);

/// A log over a disk in memory.
type Log = BrokerLog<MemoryDisk>;

/// Whether a run is taken.
fn append(log: &mut Log, run: &[u8]) -> bool {
    if !log.is_up() || !log.takes(run) {
        return false;
    }
    log.append(run).is_ok()
}

/// Whether the batch of this base offset and epoch is taken.
fn put(alloc: Global, log: &mut Log, base: u64, epoch: u32) -> Option<bool> {
    match stamped(alloc, FIRST.as_slice(), base, epoch) {
        Some(run) => Some(append(log, run.as_slice())),
        None => None,
    }
}

/// Enters an epoch, where the log was in none.
fn lead(log: &mut Log, epoch: u32) -> Option<u64> {
    if !log.is_up() || epoch >= 1 << 31 {
        return None;
    }
    match log.line() {
        Some(line) if line.last_epoch().is_none() => {}
        _ => return None,
    }
    log.lead(epoch).ok()
}

fn flush(log: &mut Log) -> Option<u64> {
    if !log.is_up() {
        return None;
    }
    log.flush().ok()
}

fn roll(log: &mut Log) -> Option<u64> {
    if !log.is_up() {
        return None;
    }
    log.roll().ok()
}

fn stop(log: &mut Log) -> bool {
    if !log.is_up() {
        return false;
    }
    log.stop();
    !log.is_up()
}

fn up(log: &mut Log) -> Option<u64> {
    if log.is_up() {
        return None;
    }
    log.up().ok()
}

/// Reads a run: where the next one begins, why it ends, and how many bytes it has.
fn read(log: &mut Log, offset: u64, mark: u64) -> Option<(u64, Stop, usize)> {
    match log.local_start() {
        Some(start) if start <= offset && offset < mark => {}
        _ => return None,
    }
    match log.read_run(offset, 1000, mark) {
        Ok(run) => Some((run.next, run.stop, run.bytes.len())),
        Err(_) => None,
    }
}

/// Cuts the log to an offset: the end that is reported before, and that of the cut.
fn cut(log: &mut Log, to: u64) -> Option<(u64, Option<u64>)> {
    match log.end() {
        Some(now) if to <= now => {}
        _ => return None,
    }
    let end = log.end_up_to(to);
    Some((end, log.cut_to(to).ok()))
}

fn drop_first(log: &mut Log) -> Option<(u64, u64)> {
    if !log.may_drop() {
        return None;
    }
    log.drop_first().ok()
}

/// How many bytes the closed segment from an offset on has.
fn closed(log: &mut Log, offset: u64) -> Option<usize> {
    if !log.is_up() {
        return None;
    }
    match log.closed_from(offset) {
        Ok(Some(segment)) => Some(segment.bytes().len()),
        _ => None,
    }
}

fn restart(alloc: Global, log: &mut Log, start: u64) -> bool {
    if !log.is_up() || start > 1 << 62 {
        return false;
    }
    log.restart_at(start, Line::new(alloc)).is_ok()
}

fn arm(log: &mut Log) -> bool {
    log.arm();
    true
}

fn told(log: &Log) -> Told {
    (
        log.end(),
        log.stable(),
        log.local_start(),
        log.incarnation(),
        log.closed().len(),
    )
}

/// Whether a look at the log comes to what it says.
fn looks(log: &mut Log, turn: Turn) -> bool {
    match turn {
        Turn::Read(offset, mark, next, stop) => read(log, offset, mark) == Some((next, stop, 69)),
        Turn::Hold => !log.may_drop(),
        Turn::Closed(offset, bytes) => closed(log, offset) == Some(bytes),
        Turn::Tell(wanted) => told(log) == wanted,
        _ => false,
    }
}

/// Whether a turn comes to what it says.
fn goes(alloc: Global, log: &mut Log, turn: Turn) -> bool {
    match turn {
        Turn::Put(base, epoch) => put(alloc, log, base, epoch) == Some(true),
        Turn::Leave(base, epoch) => put(alloc, log, base, epoch) == Some(false),
        Turn::Lead(epoch, end) => lead(log, epoch) == Some(end),
        Turn::Flush(end) => flush(log) == Some(end),
        Turn::Roll(base) => roll(log) == Some(base),
        Turn::Stop => stop(log),
        Turn::Up(end) => up(log) == Some(end),
        Turn::Cut(to, end) => cut(log, to) == Some((end, Some(end))),
        Turn::Drop(base, last) => drop_first(log) == Some((base, last)),
        Turn::Restart(start) => restart(alloc, log, start),
        Turn::Arm => arm(log),
        _ => looks(log, turn),
    }
}

/// The number of the first turn that comes to something else.
fn run(alloc: Global, log: &mut Log, turns: &[Turn]) -> Option<usize> {
    for (i, turn) in turns.iter().enumerate() {
        if !goes(alloc, log, *turn) {
            return Some(i);
        }
    }
    None
}

/// Whether a broker that is down over this disk starts.
fn comes_up(alloc: Global, disk: MemoryDisk) -> bool {
    let settings = Settings {
        segment_bytes: 100,
        index_interval: 0,
    };
    let mut log = BrokerLog::from_disk(alloc, disk, settings);
    let end = up(&mut log);
    log.close();
    end.is_some()
}

/// The number of the first turn that comes to something else. The log is closed then, and opened over its disk again.
fn run_and_close(alloc: Global, log: Log, turns: &[Turn]) -> Option<usize> {
    let mut log = log;
    let wrong = run(alloc, &mut log, turns);
    if comes_up(alloc, log.close()) {
        wrong
    } else {
        Some(turns.len())
    }
}

/// The number of the first turn of a new log that comes to something else.
fn first_wrong(alloc: Global, turns: &[Turn]) -> Option<usize> {
    let settings = Settings {
        segment_bytes: 100,
        index_interval: 0,
    };
    match BrokerLog::create(alloc, MemoryDisk::new(alloc, Vec::new(alloc)), settings) {
        Ok(log) => run_and_close(alloc, log, turns),
        Err((_disk, _)) => Some(turns.len()),
    }
}

/// What brokers' logs go through.
static STORIES: [(&str, &[Turn]); 4] = [
    (
        "a stop drops what isn't flushed",
        &[
            Turn::Leave(1, 0),
            Turn::Lead(3, 0),
            Turn::Put(0, 3),
            Turn::Leave(1, 2),
            Turn::Put(1, 3),
            Turn::Flush(2),
            Turn::Put(2, 3),
            Turn::Tell((Some(3), Some(2), Some(0), Some(1), 2)),
            Turn::Stop,
            Turn::Tell((None, None, None, None, 0)),
            Turn::Up(2),
            Turn::Tell((Some(2), Some(2), Some(0), Some(2), 1)),
        ],
    ),
    (
        "a cut log reads up to its end",
        &[
            Turn::Put(0, 0),
            Turn::Put(1, 0),
            Turn::Roll(2),
            Turn::Put(2, 0),
            Turn::Arm,
            Turn::Closed(1, 69),
            Turn::Read(1, 3, 2, Stop::Piece),
            Turn::Cut(1, 1),
            Turn::Tell((Some(1), Some(1), Some(0), Some(1), 1)),
        ],
    ),
    (
        "a local log begins later",
        &[
            Turn::Put(0, 0),
            Turn::Put(1, 0),
            Turn::Put(2, 0),
            Turn::Hold,
            Turn::Flush(3),
            Turn::Drop(0, 0),
            Turn::Tell((Some(3), Some(3), Some(1), Some(1), 1)),
            Turn::Stop,
            Turn::Up(3),
            Turn::Tell((Some(3), Some(3), Some(1), Some(2), 1)),
            Turn::Cut(0, 0),
            Turn::Tell((Some(0), Some(0), Some(0), Some(2), 0)),
        ],
    ),
    (
        "a local log begins anew",
        &[
            Turn::Put(0, 0),
            Turn::Restart(7),
            Turn::Tell((Some(7), Some(7), Some(7), Some(1), 0)),
            Turn::Put(7, 1),
            Turn::Flush(8),
            Turn::Read(7, 8, 8, Stop::Mark),
        ],
    ),
];

/// The name of the first story that comes to something else, and the number of its turn.
fn first_wrong_story(alloc: Global) -> Option<(&'static str, usize)> {
    for (story, turns) in &STORIES {
        if let Some(turn) = first_wrong(alloc, turns) {
            return Some((*story, turn));
        }
    }
    None
}

#[test]
fn brokers_logs_go_through_stories(rt: HostRuntime) {
    assert_eq!(rt; first_wrong_story(rt.alloc()), None);
}
