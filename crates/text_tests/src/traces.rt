//! Each form of line once, both ways; worked journals; and invalid texts. The expected texts are worked by hand; the
//! batches' bytes are those of Kafka's record batch, magic 2.

use std::alloc::{AllocError, Global};
use trace_text::{PartJournal, print, read};

/// The text of journals that are printed one after another.
fn printed(alloc: Global, parts: &[PartJournal]) -> Result<Vec<u8>, AllocError> {
    let mut text = Vec::new(alloc);
    for part in parts {
        text.extend_from_slice(print(alloc, part.partition, &part.journal)?.as_slice())?;
    }
    Ok(text)
}

/// What the first entry of a part says.
fn first_event(alloc: Global, parts: &[PartJournal]) -> Result<String, AllocError> {
    let [part, ..] = parts else {
        return Ok(String::new(alloc));
    };
    let [entry, ..] = part.journal.items() else {
        return Ok(String::new(alloc));
    };
    format!(in alloc; "{:?}", entry.event)
}

/// What the first line of a text says, and whether the text is printed again.
fn event_in(alloc: Global, text: &[u8]) -> Result<(String, bool), AllocError> {
    match read(alloc, text) {
        Ok(parts) => {
            let again = printed(alloc, parts.as_slice())?;
            let event = first_event(alloc, parts.as_slice())?;
            Ok((event, again.as_slice() == text))
        }
        Err(refusal) => Ok((format!(in alloc; "{refusal}")?, false)),
    }
}

/// Lines, without their line feed, and what they say.
static LINES: [(&str, &str); 77] = [
    ("7 3 0 = Ok", "Answers(Ok)"),
    ("7 3 0 = Down", "Answers(Down)"),
    ("7 3 0 = NotLeader", "Answers(NotLeader)"),
    ("7 3 0 = LastOffset", "Answers(LastOffset)"),
    ("7 3 0 = TooManySegments", "Answers(TooManySegments)"),
    ("7 3 0 = DiskFault", "Answers(DiskFault)"),
    ("7 3 0 = EmptySegment", "Answers(EmptySegment)"),
    ("7 3 0 = LastEpoch", "Answers(LastEpoch)"),
    ("7 3 0 = NotInSync", "Answers(NotInSync)"),
    ("7 3 0 = DownBroker", "Answers(DownBroker)"),
    ("7 3 0 = Known", "Answers(Known)"),
    ("7 3 0 = NotFollower", "Answers(NotFollower)"),
    ("7 3 0 = NoLeader", "Answers(NoLeader)"),
    ("7 3 0 = Stopped", "Answers(Stopped)"),
    ("7 3 0 = MetaFault", "Answers(MetaFault)"),
    ("7 3 0 = StoreFault", "Answers(StoreFault)"),
    ("7 3 0 = NotJoined", "Answers(NotJoined)"),
    ("7 3 0 = Level", "Answers(Level)"),
    ("7 3 0 = IsLeader", "Answers(IsLeader)"),
    ("7 3 0 = LostLead", "Answers(LostLead)"),
    ("7 3 0 = Kept", "Answers(Kept)"),
    ("7 3 0 = IsUp", "Answers(IsUp)"),
    ("7 3 0 = LastIncarnation", "Answers(LastIncarnation)"),
    ("7 3 0 = Empty", "Answers(Empty)"),
    ("7 3 0 = CopyOff", "Answers(CopyOff)"),
    ("7 3 0 = NoOffset", "Answers(NoOffset)"),
    ("7 3 0 = Ok 0", "Answers(OkAt(0))"),
    (
        "7 3 0 = Ok 18446744073709551615",
        "Answers(OkAt(18446744073709551615))",
    ),
    ("7 3 0 = Ok 4 5 6", "Answers(OkSpan(4, 5, 6))"),
    ("7 3 0 = DiskFault 10", "Answers(DiskFaultAt(10))"),
    ("7 3 0 = BehindStart 1 2", "Answers(BehindStart(1, 2))"),
    ("7 3 0 = Follows 1", "Answers(Follows(1))"),
    ("7 3 0 = NeedsElection 2", "Answers(NeedsElection(2))"),
    ("7 3 0 = Leads 3", "Answers(Leads(3))"),
    ("7 3 0 = StaleEpoch 8", "Answers(StaleEpoch(8))"),
    ("7 3 0 = Cut 9", "Answers(Cut(9))"),
    ("7 3 0 = Passed 11", "Answers(Passed(11))"),
    ("7 3 0 = BelowStart 12", "Answers(BelowStart(12))"),
    ("7 3 0 = Rebuilt 13", "Answers(Rebuilt(13))"),
    ("7 3 0 = Moved 14", "Answers(Moved(14))"),
    ("7 3 0 = Copied 15", "Answers(Copied(15))"),
    ("7 3 0 = Behind 16 17", "Answers(Behind(16, 17))"),
    ("7 3 0 = Dropped 18 19", "Answers(Dropped(18, 19))"),
    ("7 3 0 = Raised 20", "Answers(Raised(20))"),
    ("7 3 0 = NotAbove 21", "Answers(NotAbove(21))"),
    ("7 3 0 = AboveMark 22", "Answers(AboveMark(22))"),
    ("7 3 0 = Up 23", "Answers(Up(23))"),
    (
        "7 3 0 = OutOfRange 5 4611686018427387904",
        "Answers(OutOfRange(5, 4611686018427387904))",
    ),
    ("7 3 0 = Offset 24", "Answers(Offset(24))"),
    ("7 3 0 = Refused Short", "Answers(Refused(Short))"),
    ("7 3 0 = Refused BadMagic", "Answers(Refused(BadMagic))"),
    ("7 3 0 = Refused BadLength", "Answers(Refused(BadLength))"),
    (
        "7 3 0 = Refused BadCrc 4294967295 7",
        "Answers(Refused(BadCrc { kept: 4294967295, computed: 7 }))",
    ),
    ("7 3 0 = Refused Compressed", "Answers(Refused(Compressed))"),
    (
        "7 3 0 = Refused Transactional",
        "Answers(Refused(Transactional))",
    ),
    ("7 3 0 = Refused Control", "Answers(Refused(Control))"),
    (
        "7 3 0 = Refused BadRecords 61",
        "Answers(Refused(BadRecords { at: 61 }))",
    ),
    ("7 3 0 = Damaged meta 3", "Answers(Damaged(Meta, 3))"),
    (
        "7 3 0 = Damaged manifest 4",
        "Answers(Damaged(File(Manifest), 4))",
    ),
    (
        "7 3 0 = Damaged notes 5",
        "Answers(Damaged(File(Notes), 5))",
    ),
    ("7 3 0 = Damaged gate 6", "Answers(Damaged(File(Gate), 6))"),
    (
        "7 3 0 = Damaged 00000000000000000020.log 0",
        "Answers(Damaged(File(Log(20)), 0))",
    ),
    (
        "7 3 0 = Overtaken CopyStarted",
        "Answers(Overtaken(CopyStarted))",
    ),
    (
        "7 3 0 = Overtaken CopyFinished",
        "Answers(Overtaken(CopyFinished))",
    ),
    (
        "7 3 0 = Overtaken DeleteStarted",
        "Answers(Overtaken(DeleteStarted))",
    ),
    (
        "7 3 0 = Overtaken DeleteFinished",
        "Answers(Overtaken(DeleteFinished))",
    ),
    (
        "7 3 0 = Copied 00000000-0000-0001-0000-000000000000 0 1",
        "Answers(CopiedSegment(SegmentId(00000000-0000-0001-0000-000000000000), 0, 1))",
    ),
    (
        "7 3 0 = Deleted 00000000-0000-0001-0000-000000000000",
        "Answers(Deleted(SegmentId(00000000-0000-0001-0000-000000000000)))",
    ),
    (
        "7 3 0 = Damaged 0/00000000-0000-0001-0000-000000000000.log 5",
        "\
        Answers(Damaged(Key(ObjectKey { partition: PartitionId(0), id: \
        SegmentId(00000000-0000-0001-0000-000000000000), part: Log }), 5))",
    ),
    (
        "7 3 0 = Damaged 0/00000000-0000-0001-0000-000000000000.index 0",
        "\
        Answers(Damaged(Key(ObjectKey { partition: PartitionId(0), id: \
        SegmentId(00000000-0000-0001-0000-000000000000), part: Index }), 0))",
    ),
    (
        "7 3 0 = Damaged 0/00000000-0000-0001-0000-000000000000.timeindex 0",
        "\
        Answers(Damaged(Key(ObjectKey { partition: PartitionId(0), id: \
        SegmentId(00000000-0000-0001-0000-000000000000), part: TimeIndex }), 0))",
    ),
    (
        "7 3 0 = Damaged 0/00000000-0000-0001-0000-000000000000.epochs 0",
        "\
        Answers(Damaged(Key(ObjectKey { partition: PartitionId(0), id: \
        SegmentId(00000000-0000-0001-0000-000000000000), part: Epochs }), 0))",
    ),
    (
        "7 3 0 = Damaged 0/00000000-0000-0001-0000-000000000000.pack 17",
        "\
        Answers(Damaged(Key(ObjectKey { partition: PartitionId(0), id: \
        SegmentId(00000000-0000-0001-0000-000000000000), part: Pack }), 17))",
    ),
    (
        "7 3 0 = Run remote 00000000-0000-0001-0000-000000000000 69 Piece 0fa0",
        "\
        Answers(Run { tier: Remote(SegmentId(00000000-0000-0001-0000-000000000000)), size: 69, stop: Piece, bytes: \
        b\"\\x0f\\xa0\" })",
    ),
    (
        "7 3 0 = Run local 0 138 Limit 0061",
        "Answers(Run { tier: Local(0), size: 138, stop: Limit, bytes: b\"\\0a\" })",
    ),
    ("7 3 0 begin", "Begins { cut: None }"),
    ("7 3 0 begin cut 0", "Begins { cut: Some(0) }"),
];

/// Whether a line says this, and is printed again.
fn goes(alloc: Global, line: &str, wanted: &str) -> Result<bool, AllocError> {
    let text = format!(in alloc; "{line}\n")?;
    match event_in(alloc, text.as_bytes()) {
        Ok((event, again)) => Ok((event.as_str() == wanted) & again),
        Err(refusal) => Err(refusal),
    }
}

#[test]
fn each_line_is_written_and_read_back(rt: HostRuntime) {
    for (line, wanted) in &LINES {
        assert_eq!(rt; goes(rt.alloc(), line, wanted), Ok(true), "{line}");
    }
}

/// Whether a text is read as parts of these partitions, with so many entries, and printed again.
fn has_parts(alloc: Global, text: &str, wanted: &[(u16, usize)]) -> Result<bool, AllocError> {
    match read(alloc, text.as_bytes()) {
        Ok(parts) => {
            let again = printed(alloc, parts.as_slice())?;
            Ok(are_of(parts.as_slice(), wanted) && again.as_slice() == text.as_bytes())
        }
        Err(_) => Ok(false),
    }
}

/// Whether parts are of these partitions, with so many entries.
fn are_of(parts: &[PartJournal], wanted: &[(u16, usize)]) -> bool {
    for (part, (partition, entries)) in parts.iter().zip(wanted) {
        if (part.partition.0, part.journal.len()) != (*partition, *entries) {
            return false;
        }
    }
    parts.len() == wanted.len()
}

/// Texts of whole journals, and the partitions with their entries. The bytes of the run are two batches of one record
/// each: timestamp 1000, no key, values `a` and `b`, base offsets 0 and 1.
static TEXTS: [(&str, &[(u16, usize)]); 4] = [
    ("", &[]),
    (
        "\
        0 0 0 = Ok 0 0 0\n\
        0 0 1 = Ok 1 1 0\n\
        0 0 2 = Ok 3\n\
        0 0 3 = Ok 3\n\
        0 0 4 = Run local 0 138 Limit \
        0000000000000000000000390000000002ebf1884b00000000000000000000000003e800000000000003e8fffffffffffffffffffffff\
        fffff000000010e000000010261000000000000000001000000390000000002df1620d200000000000000000000000003e80000000000\
        0003e8ffffffffffffffffffffffffffff000000010e00000001026200\n",
        &[(0, 5)],
    ),
    (
        "\
        65535 2 3 begin\n\
        65535 2 4 begin cut 0\n\
        65535 2 4 = Rebuilt 2\n",
        &[(65535, 3)],
    ),
    (
        "\
        0 0 0 = Ok\n\
        0 1 0 = Ok\n\
        3 0 0 begin\n\
        3 0 0 = Kept\n\
        9 0 0 = Ok\n",
        &[(0, 2), (3, 2), (9, 1)],
    ),
];

#[test]
fn whole_journals_are_written_and_read_back(rt: HostRuntime) {
    for (text, parts) in &TEXTS {
        assert_eq!(rt; has_parts(rt.alloc(), text, parts), Ok(true), "{text}");
    }
}

/// What a text is read as, or why it isn't.
fn shown(alloc: Global, text: &[u8]) -> Result<String, AllocError> {
    match read(alloc, text) {
        Ok(parts) => format!(in alloc; "{:?}", parts.as_slice()),
        Err(refusal) => format!(in alloc; "{refusal}"),
    }
}

/// Texts, and the number of the first line that is none.
static BAD: [(&str, u32); 38] = [
    ("0 0 00 = Ok", 1),
    ("0 0 0 = Ok", 1),
    ("0 0 0 = Ok\n0 0 1 = Ok", 2),
    ("0 0 0 = Ok\n\n", 2),
    ("0 0 0 = Ok 01\n", 1),
    ("0 0 0 = Ok  1\n", 1),
    ("0 0 0  = Ok 1\n", 1),
    ("0 0 0 = Ok 1 \n", 1),
    (" 0 0 0 = Ok 1\n", 1),
    ("0 0 0 = Ok\r\n", 1),
    ("0 0 0 = Ok 1 2\n", 1),
    ("0 0 0 = OkAt 1\n", 1),
    ("0 0 0 = ok\n", 1),
    ("0 0 0 Ok\n", 1),
    ("0 0 0 begin cut\n", 1),
    ("0 0 0 = Ok\n1 0 0 = Ok\n0 0 1 = Ok\n", 3),
    ("65536 0 0 = Ok\n", 1),
    ("0 65536 0 = Ok\n", 1),
    ("0 0 4294967296 = Ok\n", 1),
    ("0 0 0 = Up 18446744073709551616\n", 1),
    ("0 0 0 = Up -1\n", 1),
    ("0 0 0 = Run local 0 1 Mark 0A\n", 1),
    ("0 0 0 = Run local 0 1 Mark 0\n", 1),
    ("0 0 0 = Run local 0 0 Mark \n", 1),
    ("0 0 0 = Run local 0 0 Mark\n", 1),
    ("0 0 0 = Run local 0 1 End 00\n", 1),
    ("0 0 0 = Deleted 00000000-0000-0001-0000-00000000000A\n", 1),
    ("0 0 0 = Deleted 00000000000000010000000000000000\n", 1),
    (
        "0 0 0 = Damaged 00/00000000-0000-0001-0000-000000000000.log 0\n",
        1,
    ),
    (
        "0 0 0 = Damaged 0/00000000-0000-0001-0000-000000000000.txt 0\n",
        1,
    ),
    ("0 0 0 = Damaged 5.log 0\n", 1),
    ("0 0 0 = Damaged 18446744073709551616.log 0\n", 1),
    ("0 0 0 = Damaged 99999999999999999999.log 0\n", 1),
    ("0 0 0 = Damaged Meta 0\n", 1),
    ("0 0 0 = Refused\n", 1),
    ("0 0 0 = Refused BadCrc\n", 1),
    ("0 0 0 = Refused BadRecords 4294967296\n", 1),
    ("0 0 0 = Overtaken copy-started\n", 1),
];

/// Whether a text is read as this, or this is reported of it.
fn is_shown(alloc: Global, text: &str, wanted: &str) -> bool {
    match shown(alloc, text.as_bytes()) {
        Ok(found) => found.as_str() == wanted,
        Err(_) => false,
    }
}

/// Whether this line of a text is reported to be no line of a trace.
fn is_bad(alloc: Global, text: &str, line: u32) -> bool {
    match format!(in alloc; "line {line} is no line of a trace") {
        Ok(wanted) => is_shown(alloc, text, wanted.as_str()),
        Err(_) => false,
    }
}

#[test]
fn invalid_texts_are_refused(rt: HostRuntime) {
    for (text, line) in &BAD {
        assert!(rt; is_bad(rt.alloc(), text, *line), "{text}");
    }
}

/// A journal of one entry.
static ENTRY: &str = concat!(
    "[PartJournal { partition: PartitionId(5), journal: Reserved { items: [",
    "JournalEntry { actor: ActorId(3), number: 7, event: Answers(OkAt(1)) }] } }]"
);

#[test]
fn a_line_is_an_entry(rt: HostRuntime) {
    assert!(rt; is_shown(rt.alloc(), "5 3 7 = Ok 1\n", ENTRY));
}
