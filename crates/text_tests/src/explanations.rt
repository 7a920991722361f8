//! Refused lines, and their explanations. The positions and the ranges are worked by hand from docs/SCRIPT.md.

use script_help::{KeptSource, explanation};
use script_lang::{ScriptRefusal, Why, parse};
use std::alloc::{AllocError, Global};
use tier_base::{MemorySource, Source};

/// Invalid scripts, and what is reported of them.
static CASES: [(&str, &str, &str); 33] = [
    (
        "an unknown command",
        "# c\n0 0 0 frob\n",
        concat!(
            "    0 0 0 frob\n",
            "          ^\n",
            "this word isn't valid here\n",
            "expected a command, one of append, raw, flush, roll, fetch, offset, elect, unclean, learn, join, follow, ",
            "ack, shrink, expand, copy, trim, expire, raise, stop or up\n",
            "see docs/SCRIPT.md, \"Actors and the schedule\"\n",
        ),
    ),
    (
        "a broker's command for the partition",
        "0\t0 - flush\r\n",
        concat!(
            "    0 0 - flush\n",
            "          ^\n",
            "this word isn't valid here\n",
            "expected a command, one of copying, pack or clock\n",
            "see docs/SCRIPT.md, \"Actors and the schedule\"\n",
        ),
    ),
    (
        "an unknown first word",
        "x 0 0 flush",
        concat!(
            "    x 0 0 flush\n",
            "    ^\n",
            "this word isn't valid here\n",
            "expected brokers, partitions, segment_bytes, index_interval_bytes, retention_ms, retention_bytes, ",
            "local_retention_ms, local_retention_bytes, later, turn, fault or a number from 0 to 63\n",
            "see docs/SCRIPT.md, \"Actors and the schedule\"\n",
        ),
    ),
    (
        "no partition",
        "partitions 3\n63\n",
        concat!(
            "    63\n",
            "      ^\n",
            "a word is missing here\n",
            "expected a number from 0 to 2\n",
            "see docs/SCRIPT.md, \"Actors and the schedule\"\n",
        ),
    ),
    (
        "no broker",
        " 0 0  \n",
        concat!(
            "     0 0  \n",
            "          ^\n",
            "a word is missing here\n",
            "expected - or the number 0\n",
            "see docs/SCRIPT.md, \"Actors and the schedule\"\n",
        ),
    ),
    (
        "no record",
        "0 0 0 append\n",
        concat!(
            "    0 0 0 append\n",
            "                ^\n",
            "a word is missing here\n",
            "expected a record such as 1000,:key,:value\n",
            "see docs/SCRIPT.md, \"append\"\n",
        ),
    ),
    (
        "no digits",
        "0 0 0 raw\n",
        concat!(
            "    0 0 0 raw\n",
            "             ^\n",
            "a word is missing here\n",
            "expected hexadecimal digits, two a byte\n",
            "see docs/SCRIPT.md, \"raw\"\n",
        ),
    ),
    (
        "a word too many",
        "0 0 0 flush # c\n",
        concat!(
            "    0 0 0 flush # c\n",
            "                ^\n",
            "one word too many\n",
            "expected the end of the line\n",
            "see docs/SCRIPT.md, \"flush\"\n",
        ),
    ),
    (
        "no limit",
        "later 5 0 0 fetch 0\n",
        concat!(
            "    later 5 0 0 fetch 0\n",
            "                       ^\n",
            "a word is missing here\n",
            "expected a number from 0 to 2147483647\n",
            "see docs/SCRIPT.md, \"fetch\"\n",
        ),
    ),
    (
        "an unknown offset",
        "0 0 0 offset now\n",
        concat!(
            "    0 0 0 offset now\n",
            "                 ^\n",
            "this word isn't valid here\n",
            "expected earliest, latest, earliest_local, latest_tiered or at\n",
            "see docs/SCRIPT.md, \"offset\"\n",
        ),
    ),
    (
        "a call that the device lacks",
        "fault 0 store sync 1 after\n",
        concat!(
            "    fault 0 store sync 1 after\n",
            "                  ^\n",
            "this word isn't valid here\n",
            "expected put, get or delete\n",
            "see docs/SCRIPT.md, \"Faults\"\n",
        ),
    ),
    (
        "an unknown device",
        "fault 0 tape read 1 before\n",
        concat!(
            "    fault 0 tape read 1 before\n",
            "            ^\n",
            "this word isn't valid here\n",
            "expected disk, store or meta\n",
            "see docs/SCRIPT.md, \"Faults\"\n",
        ),
    ),
    (
        "an unknown side",
        "fault 0 meta append 1 during\n",
        concat!(
            "    fault 0 meta append 1 during\n",
            "                          ^\n",
            "this word isn't valid here\n",
            "expected before or after\n",
            "see docs/SCRIPT.md, \"Faults\"\n",
        ),
    ),
    (
        "brokers out of range",
        "brokers 9\n",
        concat!(
            "    brokers 9\n",
            "            ^\n",
            "not a decimal number, or out of range\n",
            "expected a number from 1 to 8\n",
            "see docs/SCRIPT.md, \"Options\"\n",
        ),
    ),
    (
        "a size out of range",
        "segment_bytes 99\n",
        concat!(
            "    segment_bytes 99\n",
            "                  ^\n",
            "not a decimal number, or out of range\n",
            "expected a number from 100 to 16777216\n",
            "see docs/SCRIPT.md, \"Options\"\n",
        ),
    ),
    (
        "no bound to take over",
        "retention_bytes -2\n",
        concat!(
            "    retention_bytes -2\n",
            "                    ^\n",
            "not a decimal number, or out of range\n",
            "expected a number from -1 to 9223372036854775807\n",
            "see docs/SCRIPT.md, \"Options\"\n",
        ),
    ),
    (
        "the greatest range",
        "local_retention_ms -3\n",
        concat!(
            "    local_retention_ms -3\n",
            "                       ^\n",
            "not a decimal number, or out of range\n",
            "expected a number from -2 to 9223372036854775807\n",
            "see docs/SCRIPT.md, \"Options\"\n",
        ),
    ),
    (
        "a broker out of range",
        "brokers 2\n# c\n0 0 2 flush\n",
        concat!(
            "    0 0 2 flush\n",
            "        ^\n",
            "not a decimal number, or out of range\n",
            "expected - or a number from 0 to 1\n",
            "see docs/SCRIPT.md, \"Actors and the schedule\"\n",
        ),
    ),
    (
        "turns out of range",
        "turn 0 1048577\n",
        concat!(
            "    turn 0 1048577\n",
            "           ^\n",
            "not a decimal number, or out of range\n",
            "expected a number from 1 to 1048576\n",
            "see docs/SCRIPT.md, \"Actors and the schedule\"\n",
        ),
    ),
    (
        "a disk's broker out of range",
        "brokers 8\nfault 0 disk 8 read 1 after\n",
        concat!(
            "    fault 0 disk 8 read 1 after\n",
            "                 ^\n",
            "not a decimal number, or out of range\n",
            "expected a number from 0 to 7\n",
            "see docs/SCRIPT.md, \"Faults\"\n",
        ),
    ),
    (
        "a flag",
        "0 0 - pack 2\n",
        concat!(
            "    0 0 - pack 2\n",
            "               ^\n",
            "not a decimal number, or out of range\n",
            "expected a number from 0 to 1\n",
            "see docs/SCRIPT.md, \"pack\"\n",
        ),
    ),
    (
        "the second record",
        "0 0 0 append 1,-,: 1,-\n",
        concat!(
            "    0 0 0 append 1,-,: 1,-\n",
            "                       ^\n",
            "invalid record, key, value or header\n",
            "expected a record such as 1000,:key,:value or the end of the line\n",
            "see docs/SCRIPT.md, \"Records\"\n",
        ),
    ),
    (
        "odd digits",
        "0 0 0 raw 123\n",
        concat!(
            "    0 0 0 raw 123\n",
            "              ^\n",
            "not pairs of hexadecimal digits\n",
            "expected hexadecimal digits, two a byte\n",
            "see docs/SCRIPT.md, \"raw\"\n",
        ),
    ),
    (
        "a byte that isn't text",
        "0 0 0 flush \u{e9}\n",
        concat!(
            "    0 0 0 flush ??\n",
            "                ^\n",
            "this byte isn't allowed: a line has printable ASCII, spaces and tabs\n",
            "see docs/SCRIPT.md, \"Lines and words\"\n",
        ),
    ),
    (
        "an option behind a command",
        "0 0 0 flush\nbrokers 2\n",
        concat!(
            "    brokers 2\n",
            "    ^\n",
            "an option must come before all command, later, turn and fault lines\n",
            "see docs/SCRIPT.md, \"Options\"\n",
        ),
    ),
    (
        "an option again",
        "brokers 2\nbrokers 2\n",
        concat!(
            "    brokers 2\n",
            "    ^\n",
            "this option is given twice\n",
            "see docs/SCRIPT.md, \"Options\"\n",
        ),
    ),
    (
        "an actor of two partitions",
        "partitions 2\nlater 0 0 0 up\nlater 0 1 0 up\n",
        concat!(
            "    later 0 1 0 up\n",
            "            ^\n",
            "this actor has commands of another partition\n",
            "see docs/SCRIPT.md, \"Actors and the schedule\"\n",
        ),
    ),
    (
        "an actor without commands",
        "turn 1 1\n",
        concat!(
            "    turn 1 1\n",
            "         ^\n",
            "this actor has no command before this line\n",
            "see docs/SCRIPT.md, \"Actors and the schedule\"\n",
        ),
    ),
    (
        "fetches past their sum",
        "0 0 0 fetch 0 268435457\n",
        concat!(
            "    0 0 0 fetch 0 268435457\n",
            "          ^\n",
            "with this line all fetches together exceed 268435456 bytes\n",
            "see docs/SCRIPT.md, \"Limits\"\n",
        ),
    ),
    (
        "turns past their sum",
        "0 0 0 up\nturn 0 1048576\nturn 0 1\n",
        concat!(
            "    turn 0 1\n",
            "           ^\n",
            "with this line there are more than 1048576 turns\n",
            "see docs/SCRIPT.md, \"Limits\"\n",
        ),
    ),
    (
        "the seventh record",
        "0 0 0 append 1,-,:a 2,-,:b 3,-,:c 4,-,:d 5,-,:e 6,-,:f 7 8,-,:h\n",
        concat!(
            "    ppend 1,-,:a 2,-,:b 3,-,:c 4,-,:d 5,-,:e 6,-,:f 7 8,-,:h\n",
            "                                                    ^\n",
            "invalid record, key, value or header\n",
            "expected a record such as 1000,:key,:value or the end of the line\n",
            "see docs/SCRIPT.md, \"Records\"\n",
        ),
    ),
    (
        "a count behind many blanks",
        "\tbrokers    08 \n0 0 8 flush\n",
        concat!(
            "    0 0 8 flush\n",
            "        ^\n",
            "not a decimal number, or out of range\n",
            "expected - or a number from 0 to 7\n",
            "see docs/SCRIPT.md, \"Actors and the schedule\"\n",
        ),
    ),
    (
        "a long line",
        "\
        0 0 0 append \
        1,-,:vvvvvvvvvvvvvvvvvvvvvvvvvvvvvvvvvvvvvvvvvvvvvvvvvvvvvvvvvvvvvvvvvvvvvvvvvvvvvvvvvvvvvvvvvvvvvvvvvvvv 1 \
        2\n",
        concat!(
            "    vvvvvvvvvvvvvvvvvvvvvvvvvvvvvvvvvvvvvvvvvvvvvvv 1 2\n",
            "                                                    ^\n",
            "invalid record, key, value or header\n",
            "expected a record such as 1000,:key,:value or the end of the line\n",
            "see docs/SCRIPT.md, \"Records\"\n",
        ),
    ),
];

/// What is reported of a line for a cause that only a long script has, or that it hasn't.
static GIVEN: [(&str, &str, u32, Why, &str); 4] = [
    (
        "too many commands",
        "0 0 0 up\n",
        1,
        Why::TooMany,
        concat!(
            "    0 0 0 up\n",
            "          ^\n",
            "a script has at most 65536 commands\n",
            "see docs/SCRIPT.md, \"Limits\"\n",
        ),
    ),
    (
        "a batch that is too large",
        "0 0 0 raw 00\n",
        1,
        Why::BatchTooLarge,
        concat!(
            "    0 0 0 raw 00\n",
            "          ^\n",
            "a batch has at most 1048576 bytes\n",
            "see docs/SCRIPT.md, \"Limits\"\n",
        ),
    ),
    (
        "copies past their sum",
        "\n\n0 0 0 copy",
        3,
        Why::CopySum,
        concat!(
            "    0 0 0 copy\n",
            "          ^\n",
            "with this line all copies together exceed 2147483648 bytes\n",
            "see docs/SCRIPT.md, \"Limits\"\n",
        ),
    ),
    (
        "a line that the script lacks",
        "0 0 0 up\n",
        7,
        Why::Word,
        concat!(
            "    \n",
            "    ^\n",
            "a word is missing here\n",
            "expected brokers, partitions, segment_bytes, index_interval_bytes, retention_ms, retention_bytes, ",
            "local_retention_ms, local_retention_bytes, later, turn, fault or a number from 0 to 63\n",
            "see docs/SCRIPT.md, \"Actors and the schedule\"\n",
        ),
    ),
];

/// What is reported of a script that is invalid.
fn told_of(alloc: Global, text: &str) -> Result<String, AllocError> {
    if text.len() > 1000 {
        return Ok(String::new(alloc));
    }
    match parse(alloc, text.as_bytes()) {
        Err(ScriptRefusal::Bad { line, why }) => explanation(alloc, text.as_bytes(), line, why),
        _ => Ok(String::new(alloc)),
    }
}

/// Whether this is reported of a script that is invalid.
fn is_told(alloc: Global, text: &str, told: &str) -> bool {
    match told_of(alloc, text) {
        Ok(found) => found.as_str() == told,
        Err(_) => false,
    }
}

/// Whether this is reported of a line for a cause.
fn is_explained(alloc: Global, text: &str, line: u32, why: Why, told: &str) -> bool {
    match explanation(alloc, text.as_bytes(), line, why) {
        Ok(found) => found.as_str() == told,
        Err(_) => false,
    }
}

#[test]
fn refused_lines_are_explained(rt: HostRuntime) {
    for (name, text, told) in &CASES {
        assert!(rt; is_told(rt.alloc(), text, told), "{name}");
    }
}

#[test]
fn a_given_cause_is_explained(rt: HostRuntime) {
    for (name, text, line, why, told) in &GIVEN {
        assert!(rt; is_explained(rt.alloc(), text, *line, *why, told), "{name}");
    }
}

/// How many bytes a source gives at a read of three, or 9 where it fails.
fn read<S: Source>(source: &mut S) -> usize {
    let mut room = [0; 3];
    source.read(&mut room).unwrap_or(9)
}

/// A source whose second read fails.
fn failing(alloc: Global) -> Result<MemorySource, AllocError> {
    let mut plan = Vec::new(alloc);
    plan.push(2)?;
    let bytes = Vec::from_slice(alloc, b"0 0 0 up".as_slice())?;
    Ok(MemorySource::new(bytes, plan))
}

/// How many bytes a source gives at its first two reads of three bytes, and whether it has kept these after a third.
fn keeps(alloc: Global, wanted: &[u8]) -> Result<(usize, usize, bool), AllocError> {
    let mut source = KeptSource::new(alloc, failing(alloc)?);
    let first = read(&mut source);
    let failed = read(&mut source);
    let _third = read(&mut source);
    Ok((first, failed, source.kept() == wanted))
}

/// How many bytes a source gives at its first read of three bytes, where it only passes them on, and whether it has
/// kept none of them.
fn passes(alloc: Global) -> Result<(usize, bool), AllocError> {
    let bytes = Vec::from_slice(alloc, b"0 0 0 up".as_slice())?;
    let mut source = KeptSource::passing(MemorySource::new(bytes, Vec::new(alloc)));
    let given = read(&mut source);
    Ok((given, source.kept().is_empty()))
}

#[test]
fn bytes_that_are_read_are_kept(rt: HostRuntime) {
    let came = keeps(rt.alloc(), b"0 0 0 ".as_slice());
    assert_eq!(rt; came, Ok((3, 9, true)));
}

#[test]
fn what_is_passed_on_is_not_kept(rt: HostRuntime) {
    assert_eq!(rt; passes(rt.alloc()), Ok((3, true)));
}
