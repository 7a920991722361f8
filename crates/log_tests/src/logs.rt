//! Logs over a disk in memory, turn by turn: what is in their files, what crashes and faults leave, and where
//! segments end. Values worked by hand; a batch of one record has 69 bytes, and one of three has 85.

use crate::files::{FLUSHED, LED, SEGMENT, SIZE, THREE};
use crate::trial::{LARGE, Trial, part};
use disk_model::{DiskCall, FileName, Planned};
use local_log::{AppendRefusal, ReadRefusal, RollRefusal};
use std::alloc::Global;
use tier_base::Stop;

const LOG: FileName = FileName::Log(0);

/// The greatest offset, 2^62 - 1, and the end after it.
const LAST: u64 = 4_611_686_018_427_387_903;

const END: u64 = 4_611_686_018_427_387_904;

/// A turn of a log, with what it is to come to.
#[derive(Clone, Copy)]
enum Turn {
    /// The two batches of the segment worked by hand are appended and flushed.
    Fills,
    /// The batches at 0, 1 to 3, 4, and 5 to 7 are appended, the first two in a closed segment. The flushed end is 5.
    FillsFour,
    /// So many batches are appended.
    AddsEach(u64),
    /// A batch is appended at these offsets, or is not.
    Adds(u64, u64),
    AddsNot(AppendRefusal),
    /// The third batch is appended and flushed, or is not.
    Third(bool),
    Flushes(u64),
    Rolls(u64),
    RollsNot(RollRefusal),
    Leads(u32, u64),
    Cuts(u64),
    Restarts(u64),
    Drops(u64, u64),
    /// Offset, limit and mark; the part of the segment worked by hand that is read, the next offset, and why it stops.
    Reads((u64, u64, u64), (usize, usize), u64, Stop),
    ReadsNot(u64, ReadRefusal),
    /// The closed segment from an offset on has these offsets, or there is none.
    Closed(u64, u64, u64),
    NoneClosed(u64),
    Arms,
    Crashes,
    /// The local start, the flushed end and the end.
    Spans(u64, u64, u64),
    /// How many segments are closed, and the bytes of the open one.
    Sizes(usize, u64),
    /// Whether a batch begins or the log ends at an offset.
    Edge(u64, bool),
    EndUpTo(u64, u64),
    IsOf(u32),
    IsSound,
}

/// Whether the next batch is appended at these offsets: one of one record, or one of three.
fn adds(log: &mut Trial, first: u64, last: u64) -> bool {
    let batch = if first == last {
        part(SEGMENT.as_slice(), 0, SIZE)
    } else {
        THREE.as_slice()
    };
    log.add(batch) == Some(Ok((first, last)))
}

/// Whether the two batches are appended, and flushed.
fn fills(log: &mut Trial) -> bool {
    let first = log.append(part(SEGMENT.as_slice(), 0, SIZE)) == Some(Ok((0, 0)));
    let second = log.append(part(SEGMENT.as_slice(), SIZE, 138)) == Some(Ok((1, 1)));
    let flushed = log.flush() == Some(Ok(2));
    first & second & flushed
}

/// Whether the four batches are appended, and the first three are flushed.
fn fills_four(log: &mut Trial) -> bool {
    let first = adds(log, 0, 0);
    let second = adds(log, 1, 3);
    let rolled = log.roll() == Some(Ok(4));
    let third = adds(log, 4, 4);
    let flushed = log.flush() == Some(Ok(5));
    let fourth = adds(log, 5, 7);
    first & second & rolled & third & flushed & fourth
}

/// Whether so many batches are appended.
fn adds_each(log: &mut Trial, many: u64) -> bool {
    for offset in 0..many {
        if !adds(log, offset, offset) {
            return false;
        }
    }
    true
}

/// Whether the third batch is appended and flushed.
fn adds_third(log: &mut Trial) -> bool {
    let added = adds(log, 2, 2);
    let flushed = log.flush() == Some(Ok(3));
    added & flushed
}

fn arms(log: &mut Trial) -> bool {
    log.arm();
    true
}

/// Whether a turn that changes the log goes as it should.
fn goes(log: &mut Trial, turn: Turn) -> bool {
    match turn {
        Turn::Fills => fills(log),
        Turn::FillsFour => fills_four(log),
        Turn::AddsEach(many) => adds_each(log, many),
        Turn::Adds(first, last) => adds(log, first, last),
        Turn::AddsNot(why) => log.add(part(SEGMENT.as_slice(), 0, SIZE)) == Some(Err(why)),
        Turn::Third(flushed) => adds_third(log) == flushed,
        Turn::Flushes(end) => log.flush() == Some(Ok(end)),
        Turn::Rolls(base) => log.roll() == Some(Ok(base)),
        Turn::RollsNot(why) => log.roll() == Some(Err(why)),
        Turn::Leads(epoch, end) => log.leads(epoch, end),
        Turn::Cuts(end) => log.cuts(end),
        Turn::Restarts(start) => log.restarts(start),
        Turn::Drops(base, last) => log.drop_first() == Some(Ok((base, last))),
        Turn::Arms => arms(log),
        other => reads(log, other),
    }
}

/// Whether a turn that reads goes as it should.
fn reads(log: &mut Trial, turn: Turn) -> bool {
    match turn {
        Turn::Reads(asked, (from, to), next, stop) => {
            log.read(asked, part(SEGMENT.as_slice(), from, to)) == Some(Ok((true, next, stop)))
        }
        Turn::ReadsNot(mark, why) => log.read((0, 1000, mark), b"") == Some(Err(why)),
        Turn::Closed(offset, base, last) => log.closed_from(offset) == Ok(Some((base, last))),
        Turn::NoneClosed(offset) => log.closed_from(offset) == Ok(None),
        Turn::Spans(start, flushed_end, end) => log.span() == (start, flushed_end, end),
        Turn::Sizes(closed, open) => log.sizes() == (closed, open),
        Turn::Edge(offset, is_edge) => log.is_edge(offset) == is_edge,
        Turn::EndUpTo(offset, end) => log.end_up_to(offset) == end,
        Turn::IsOf(incarnation) => log.incarnation() == incarnation,
        Turn::IsSound => log.is_sound(),
        _ => false,
    }
}

/// The log after a turn that went as it should.
fn after(log: Trial, turn: Turn) -> Option<Trial> {
    if let Turn::Crashes = turn {
        return log.crash().ok();
    }
    let mut log = log;
    if goes(&mut log, turn) {
        Some(log)
    } else {
        log.close();
        None
    }
}

/// The log after turns that went as they should, or the number of the first that didn't.
fn run(log: Trial, turns: &[Turn]) -> Result<Trial, usize> {
    let mut log = log;
    for (i, turn) in turns.iter().enumerate() {
        match after(log, *turn) {
            Some(next) => log = next,
            None => return Err(i),
        }
    }
    Ok(log)
}

/// What is in the files at the end.
#[derive(Clone, Copy)]
enum Left {
    Any,
    Flushed,
    Segment,
    Led,
}

fn leaves(log: Trial, left: Left) -> bool {
    match left {
        Left::Any => log.close(),
        Left::Flushed => log.leaves(FileName::Manifest, FLUSHED.as_slice()),
        Left::Segment => log.leaves(LOG, SEGMENT.as_slice()),
        Left::Led => log.leaves(FileName::Manifest, LED.as_slice()),
    }
}

/// A log's story: whether a segment has room for more than a batch, the planned faults, how many calls of the disk
/// pass, the turns, and what is left.
struct Story {
    name: &'static str,
    large: bool,
    plan: &'static [Planned],
    fuse: u64,
    turns: &'static [Turn],
    left: Left,
}

/// The number of the first turn that doesn't go as it should. That of the start is 1000, that of the files left 1001.
fn first_wrong(alloc: Global, story: &Story) -> Option<usize> {
    let size = if story.large { LARGE } else { 100 };
    let log = match Trial::create(alloc, size, story.plan, story.fuse) {
        Some(log) => log,
        None => return Some(1000),
    };
    match run(log, story.turns) {
        Ok(log) => (!leaves(log, story.left)).then_some(1001),
        Err(turn) => Some(turn),
    }
}

static STORIES: [Story; 26] = [
    Story {
        name: "a flushed log leaves its manifest",
        large: true,
        plan: &[],
        fuse: u64::MAX,
        turns: &[Turn::Fills],
        left: Left::Flushed,
    },
    Story {
        name: "a flushed log leaves its segment",
        large: true,
        plan: &[],
        fuse: u64::MAX,
        turns: &[Turn::Fills],
        left: Left::Segment,
    },
    Story {
        name: "a led log has its epoch",
        large: true,
        plan: &[],
        fuse: u64::MAX,
        turns: &[Turn::Leads(0, 0)],
        left: Left::Led,
    },
    Story {
        name: "runs are read by offset",
        large: true,
        plan: &[],
        fuse: u64::MAX,
        turns: &[
            Turn::Fills,
            Turn::Reads((0, 1000, 2), (0, 138), 2, Stop::Mark),
            Turn::Reads((1, 1, 2), (69, 138), 2, Stop::Mark),
            Turn::Reads((0, 137, 2), (0, 69), 1, Stop::Limit),
            Turn::Reads((0, 138, 1), (0, 69), 1, Stop::Mark),
            Turn::IsSound,
        ],
        left: Left::Any,
    },
    Story {
        name: "a fuse of 5",
        large: true,
        plan: &[],
        fuse: 5,
        turns: &[
            Turn::Fills,
            Turn::Third(false),
            Turn::Crashes,
            Turn::Spans(0, 2, 2),
        ],
        left: Left::Any,
    },
    Story {
        name: "a fuse of 6",
        large: true,
        plan: &[],
        fuse: 6,
        turns: &[
            Turn::Fills,
            Turn::Third(false),
            Turn::Crashes,
            Turn::Spans(0, 2, 2),
        ],
        left: Left::Any,
    },
    Story {
        name: "a fuse of 7",
        large: true,
        plan: &[],
        fuse: 7,
        turns: &[
            Turn::Fills,
            Turn::Third(false),
            Turn::Crashes,
            Turn::Spans(0, 2, 2),
        ],
        left: Left::Any,
    },
    Story {
        name: "a fuse of 8",
        large: true,
        plan: &[],
        fuse: 8,
        turns: &[
            Turn::Fills,
            Turn::Third(true),
            Turn::Crashes,
            Turn::Spans(0, 3, 3),
        ],
        left: Left::Any,
    },
    Story {
        name: "append fails",
        large: true,
        plan: &[Planned {
            call: DiskCall::Append,
            number: 1,
            after: false,
        }],
        fuse: u64::MAX,
        turns: &[
            Turn::Fills,
            Turn::Arms,
            Turn::Third(false),
            Turn::Crashes,
            Turn::Spans(0, 2, 2),
        ],
        left: Left::Any,
    },
    Story {
        name: "append fails, done",
        large: true,
        plan: &[Planned {
            call: DiskCall::Append,
            number: 1,
            after: true,
        }],
        fuse: u64::MAX,
        turns: &[
            Turn::Fills,
            Turn::Arms,
            Turn::Third(false),
            Turn::Crashes,
            Turn::Spans(0, 2, 2),
        ],
        left: Left::Any,
    },
    Story {
        name: "sync fails",
        large: true,
        plan: &[Planned {
            call: DiskCall::Sync,
            number: 1,
            after: false,
        }],
        fuse: u64::MAX,
        turns: &[
            Turn::Fills,
            Turn::Arms,
            Turn::Third(false),
            Turn::Crashes,
            Turn::Spans(0, 2, 2),
        ],
        left: Left::Any,
    },
    Story {
        name: "sync fails, done",
        large: true,
        plan: &[Planned {
            call: DiskCall::Sync,
            number: 1,
            after: true,
        }],
        fuse: u64::MAX,
        turns: &[
            Turn::Fills,
            Turn::Arms,
            Turn::Third(false),
            Turn::Crashes,
            Turn::Spans(0, 2, 2),
        ],
        left: Left::Any,
    },
    Story {
        name: "replace fails",
        large: true,
        plan: &[Planned {
            call: DiskCall::Replace,
            number: 1,
            after: false,
        }],
        fuse: u64::MAX,
        turns: &[
            Turn::Fills,
            Turn::Arms,
            Turn::Third(false),
            Turn::Crashes,
            Turn::Spans(0, 2, 2),
        ],
        left: Left::Any,
    },
    Story {
        name: "replace fails, done",
        large: true,
        plan: &[Planned {
            call: DiskCall::Replace,
            number: 1,
            after: true,
        }],
        fuse: u64::MAX,
        turns: &[
            Turn::Fills,
            Turn::Arms,
            Turn::Third(false),
            Turn::Crashes,
            Turn::Spans(0, 3, 3),
        ],
        left: Left::Any,
    },
    Story {
        name: "a failed read leaves the log",
        large: true,
        plan: &[Planned {
            call: DiskCall::Read,
            number: 1,
            after: false,
        }],
        fuse: u64::MAX,
        turns: &[
            Turn::Fills,
            Turn::Arms,
            Turn::ReadsNot(2, ReadRefusal::DiskFault),
            Turn::Reads((0, 1000, 2), (0, 138), 2, Stop::Mark),
        ],
        left: Left::Any,
    },
    Story {
        name: "each batch fills a small segment",
        large: false,
        plan: &[],
        fuse: u64::MAX,
        turns: &[
            Turn::AddsEach(3),
            Turn::Spans(0, 0, 3),
            Turn::Sizes(2, 69),
            Turn::Closed(0, 0, 0),
            Turn::Closed(1, 1, 1),
            Turn::NoneClosed(2),
            Turn::Rolls(3),
            Turn::RollsNot(RollRefusal::EmptySegment),
            Turn::Flushes(3),
            Turn::Sizes(3, 0),
        ],
        left: Left::Any,
    },
    Story {
        name: "a full log takes no more",
        large: false,
        plan: &[],
        fuse: u64::MAX,
        turns: &[
            Turn::AddsEach(4096),
            Turn::Sizes(4095, 69),
            Turn::AddsNot(AppendRefusal::TooManySegments),
            Turn::RollsNot(RollRefusal::TooManySegments),
            Turn::Flushes(4096),
            Turn::Drops(0, 0),
            Turn::Adds(4096, 4096),
        ],
        left: Left::Any,
    },
    Story {
        name: "the last offset ends the log",
        large: true,
        plan: &[],
        fuse: u64::MAX,
        turns: &[
            Turn::Restarts(LAST),
            Turn::Adds(LAST, LAST),
            Turn::AddsNot(AppendRefusal::LastOffset),
            Turn::Flushes(END),
            Turn::Crashes,
            Turn::Spans(LAST, END, END),
        ],
        left: Left::Any,
    },
    Story {
        name: "cut to 0",
        large: true,
        plan: &[],
        fuse: u64::MAX,
        turns: &[
            Turn::FillsFour,
            Turn::Spans(0, 5, 8),
            Turn::EndUpTo(0, 0),
            Turn::Cuts(0),
            Turn::Spans(0, 0, 0),
            Turn::Crashes,
            Turn::IsOf(2),
            Turn::Sizes(0, 0),
            Turn::Spans(0, 0, 0),
        ],
        left: Left::Any,
    },
    Story {
        name: "cut to 2",
        large: true,
        plan: &[],
        fuse: u64::MAX,
        turns: &[
            Turn::FillsFour,
            Turn::Spans(0, 5, 8),
            Turn::EndUpTo(2, 1),
            Turn::Cuts(2),
            Turn::Spans(0, 1, 1),
            Turn::Crashes,
            Turn::IsOf(2),
            Turn::Sizes(0, 69),
            Turn::Spans(0, 1, 1),
        ],
        left: Left::Any,
    },
    Story {
        name: "cut to 4",
        large: true,
        plan: &[],
        fuse: u64::MAX,
        turns: &[
            Turn::FillsFour,
            Turn::Spans(0, 5, 8),
            Turn::EndUpTo(4, 4),
            Turn::Cuts(4),
            Turn::Spans(0, 4, 4),
            Turn::Crashes,
            Turn::IsOf(2),
            Turn::Sizes(1, 0),
            Turn::Spans(0, 4, 4),
        ],
        left: Left::Any,
    },
    Story {
        name: "cut to 6",
        large: true,
        plan: &[],
        fuse: u64::MAX,
        turns: &[
            Turn::FillsFour,
            Turn::Spans(0, 5, 8),
            Turn::EndUpTo(6, 5),
            Turn::Cuts(6),
            Turn::Spans(0, 5, 5),
            Turn::Crashes,
            Turn::IsOf(2),
            Turn::Sizes(1, 69),
            Turn::Spans(0, 5, 5),
        ],
        left: Left::Any,
    },
    Story {
        name: "cut to 8",
        large: true,
        plan: &[],
        fuse: u64::MAX,
        turns: &[
            Turn::FillsFour,
            Turn::Spans(0, 5, 8),
            Turn::EndUpTo(8, 8),
            Turn::Cuts(8),
            Turn::Spans(0, 8, 8),
            Turn::Crashes,
            Turn::IsOf(2),
            Turn::Sizes(1, 154),
            Turn::Spans(0, 8, 8),
        ],
        left: Left::Any,
    },
    Story {
        name: "a cut below the start begins anew",
        large: true,
        plan: &[],
        fuse: u64::MAX,
        turns: &[
            Turn::FillsFour,
            Turn::Drops(0, 3),
            Turn::Spans(4, 5, 8),
            Turn::Crashes,
            Turn::Spans(4, 5, 5),
            Turn::Cuts(1),
            Turn::Spans(1, 1, 1),
            Turn::Crashes,
            Turn::Spans(1, 1, 1),
            Turn::Adds(1, 1),
        ],
        left: Left::Any,
    },
    Story {
        name: "a mark inside a batch is told",
        large: true,
        plan: &[],
        fuse: u64::MAX,
        turns: &[
            Turn::FillsFour,
            Turn::ReadsNot(
                2,
                ReadRefusal::Damaged {
                    file: FileName::Log(0),
                    at: 69,
                },
            ),
            Turn::ReadsNot(
                6,
                ReadRefusal::Damaged {
                    file: FileName::Log(4),
                    at: 69,
                },
            ),
            Turn::ReadsNot(
                9,
                ReadRefusal::Damaged {
                    file: FileName::Log(4),
                    at: 154,
                },
            ),
            Turn::Edge(2, false),
            Turn::Edge(4, true),
            Turn::Edge(6, false),
            Turn::Edge(8, true),
            Turn::Edge(9, false),
        ],
        left: Left::Any,
    },
    Story {
        name: "a closed segment is read whole",
        large: true,
        plan: &[],
        fuse: u64::MAX,
        turns: &[
            Turn::FillsFour,
            Turn::Closed(0, 0, 3),
            Turn::Closed(3, 0, 3),
            Turn::NoneClosed(4),
            Turn::NoneClosed(9),
        ],
        left: Left::Any,
    },
];

/// The name of the first story that doesn't go as it should, and the number of its turn.
fn first_wrong_story(alloc: Global) -> Option<(&'static str, usize)> {
    for story in &STORIES {
        if let Some(turn) = first_wrong(alloc, story) {
            return Some((story.name, turn));
        }
    }
    None
}

#[test]
fn logs_go_through_their_stories(rt: HostRuntime) {
    assert_eq!(rt; first_wrong_story(rt.alloc()), None);
}
