//! Scripts and their traces, each status, and the faults of a source and a sink.

use crate::script_cases::{RAW, REMOTE, SCRIPTS};
use folder_yard::FolderYard;
use std::alloc::{AllocError, Global};
use std::fs;
use tier_base::{Blob, MemorySink, MemorySource, PartitionId};
use tiered_call::{Form, Status, Why, explained, folder, form_of, printed, tiered_in_order};

/// Adds a word.
fn add(alloc: Global, words: &mut Vec<String>, word: &str) -> bool {
    match String::from_str(alloc, word) {
        Ok(word) => words.push(word).is_ok(),
        Err(_) => false,
    }
}

/// The words of a call.
pub(crate) fn words_of(alloc: Global, list: &[&str]) -> Option<Vec<String>> {
    let mut words = Vec::new(alloc);
    for word in list {
        if !add(alloc, &mut words, word) {
            return None;
        }
    }
    Some(words)
}

/// A source of these bytes, whose calls of the plan fail.
pub(crate) fn source_of(alloc: Global, bytes: &[u8], plan: &[u32]) -> Option<MemorySource> {
    match (bytes.to_vec(alloc), plan.to_vec(alloc)) {
        (Ok(bytes), Ok(plan)) => Some(MemorySource::new(bytes, plan)),
        _ => None,
    }
}

/// Where a call writes: how much room there is, how many bytes are taken at a time, and which calls fail.
pub(crate) type Room<'a> = (usize, usize, &'a [u32]);

pub(crate) fn sink_of(alloc: Global, (room, most, plan): Room) -> Option<MemorySink> {
    match plan.to_vec(alloc) {
        Ok(plan) => MemorySink::new(alloc, room, most.max(1), plan).ok(),
        Err(_) => None,
    }
}

/// What a call is to report on standard error, and to write.
#[derive(Clone, Copy)]
pub(crate) enum Wanted<'a> {
    /// The line of its status, and all that is written.
    Whole(&'a str, &'a [u8]),
    /// The line with what explains it, and the end of what is written.
    Shown(&'a str, &'a [u8]),
}

fn is_text(text: Result<String, AllocError>, wanted: &str) -> bool {
    match text {
        Ok(text) => text.as_str() == wanted,
        Err(AllocError) => false,
    }
}

/// Whether a text with another one after it is this.
fn is_joined(text: String, more: &str, wanted: &str) -> bool {
    let mut text = text;
    match text.push_str(more) {
        Ok(()) => text.as_str() == wanted,
        Err(_) => false,
    }
}

/// Whether a status's line with what explains it is this text.
fn is_explained(alloc: Global, status: &Status, wanted: &str) -> bool {
    match (status.line(alloc), explained(alloc, status, &[])) {
        (Ok(line), Ok(more)) => is_joined(line, more.as_str(), wanted),
        _ => false,
    }
}

/// Whether a status is reported, and bytes are written, as they should be.
pub(crate) fn is_wanted(
    alloc: Global,
    status: &Status,
    written: &[u8],
    wanted: Wanted,
) -> (bool, bool) {
    match wanted {
        Wanted::Whole(line, bytes) => (is_text(status.line(alloc), line), written == bytes),
        Wanted::Shown(told, end) => (is_explained(alloc, status, told), written.ends_with(end)),
    }
}

/// What a call of the program comes to, with an environment over the folder that the words name.
pub(crate) fn made(
    rt: HostRuntime,
    words: &[String],
    script: &mut MemorySource,
    out: &mut MemorySink,
) -> Option<Status> {
    match FolderYard::new(rt, folder(words)) {
        Ok(mut yard) => Some(tiered_in_order(&rt, words, script, &mut yard, out)),
        Err(_) => None,
    }
}

/// The number of a call's status, and whether what is reported and written is as it should be.
fn ended(
    rt: HostRuntime,
    words: &[String],
    script: &mut MemorySource,
    out: &mut MemorySink,
    wanted: Wanted,
) -> Option<(u8, bool, bool)> {
    match made(rt, words, script, out) {
        Some(status) => {
            let (is_told, is_written) = is_wanted(rt.alloc(), &status, out.written(), wanted);
            Some((status.number(), is_told, is_written))
        }
        None => None,
    }
}

/// The same, of a call with these words.
fn ended_of(
    rt: HostRuntime,
    list: &[&str],
    script: &mut MemorySource,
    out: &mut MemorySink,
    wanted: Wanted,
) -> Option<(u8, bool, bool)> {
    match words_of(rt.alloc(), list) {
        Some(words) => ended(rt, words.as_slice(), script, out, wanted),
        None => None,
    }
}

/// Makes a call with these words and this input, whose calls of the plan fail: the number of its status, and whether
/// what is reported and written is as it should be.
pub(crate) fn called(
    rt: HostRuntime,
    list: &[&str],
    (input, plan): (&[u8], &[u32]),
    room: Room,
    wanted: Wanted,
) -> Option<(u8, bool, bool)> {
    match (
        source_of(rt.alloc(), input, plan),
        sink_of(rt.alloc(), room),
    ) {
        (Some(mut script), Some(mut out)) => { ended_of(rt, list, &mut script, &mut out, wanted) }
        _ => None,
    }
}

/// A call that ends with this number, and reports and writes what it should.
pub(crate) fn well(number: u8) -> Option<(u8, bool, bool)> {
    Some((number, true, true))
}

/// Simulates a script, in pieces of 7 bytes.
pub(crate) fn simulated(rt: HostRuntime, script: &str, trace: &str) -> Option<(u8, bool, bool)> {
    let wanted = Wanted::Whole("", trace.as_bytes());
    called(
        rt,
        &["sim"],
        (script.as_bytes(), &[]),
        (10_000, 7, &[]),
        wanted,
    )
}

/// The name, the script and the trace of a case.
fn parts(case: &str) -> Option<(&str, &str, &str)> {
    match case.split_once('\n') {
        Some((name, rest)) => match rest.split_once("---\n") {
            Some((script, trace)) => Some((name, script, trace)),
            None => None,
        },
        None => None,
    }
}

/// How many cases of a text give their traces, up to the first one that doesn't, and the name of that one. A case is a
/// line `=== ` with its name, its script, a line `---` and its trace.
///
/// The cases are one text and no table: a proof pays for a table by its rows times its bytes, and for a text next to
/// nothing.
pub(crate) fn first_wrong(rt: HostRuntime, cases: &'static str) -> (u32, Option<&'static str>) {
    let mut right: u32 = 0;
    for case in cases.split("=== ") {
        if let Some((name, script, trace)) = parts(case) {
            if simulated(rt, script, trace) != well(0) {
                return (right, Some(name));
            }
            right = right.wrapping_add(1);
        }
    }
    (right, None)
}

#[test]
fn scripts_give_their_traces(rt: HostRuntime) {
    assert_eq!(rt; first_wrong(rt, SCRIPTS), (6, None));
}

#[test]
fn batches_from_outside_give_their_traces(rt: HostRuntime) {
    assert_eq!(rt; first_wrong(rt, RAW), (17, None));
}

#[test]
fn examples_of_the_remote_tier_give_their_traces(rt: HostRuntime) {
    assert_eq!(rt; first_wrong(rt, REMOTE), (3, None));
}

/// Words, the input, its calls that fail, the status's line, what is written, and the status's number.
static STATUSES: [(&[&str], &str, &[u32], &str, &str, u8); 7] = [
    (
        &["sim"],
        "0 0 - pack 2\n",
        &[],
        "tiered: line 1: Number\n",
        "",
        3,
    ),
    (
        &["sim"],
        "# c\n0 0 0 frob\n",
        &[],
        "tiered: line 2: Word\n",
        "",
        3,
    ),
    (
        &["sim"],
        "0 0 0 fetch 0 268435457\n",
        &[],
        "tiered: line 1: FetchSum\n",
        "",
        3,
    ),
    (
        &["sim"],
        "0 0 0 flush\n",
        &[1],
        "tiered: read fault\n",
        "",
        4,
    ),
    (
        &["sim", "x"],
        "0 0 0 flush\n",
        &[],
        "tiered: usage: tiered sim [--threads] or run DIR or gen N or audit DIR or sweep DIR\n",
        "",
        2,
    ),
    (
        &["run", "broker_none"],
        "frob",
        &[],
        "tiered: line 1: Word\n",
        "",
        3,
    ),
    (&["sim"], "0 0 0 flush\n", &[], "", "0 0 0 = Ok 0\n", 0),
];

/// The number of the first row that comes to something else.
fn first_wrong_status(rt: HostRuntime) -> Option<usize> {
    for (i, (words, script, plan, line, written, number)) in STATUSES.iter().enumerate() {
        let wanted = Wanted::Whole(line, written.as_bytes());
        let input = (script.as_bytes(), *plan);
        if called(rt, words, input, (10_000, 100, &[]), wanted) != well(*number) {
            return Some(i);
        }
    }
    None
}

#[test]
fn statuses_report_their_causes(rt: HostRuntime) {
    assert_eq!(rt; first_wrong_status(rt), None);
}

/// A call's status.
fn status(alloc: Global, number: u8) -> Option<Status> {
    match number {
        0 => Some(Status::Ok),
        2 => Some(Status::Usage),
        3 => Some(Status::BadScript {
            line: 12,
            why: Why::Twice,
        }),
        4 => Some(Status::ReadFault),
        5 => Some(Status::WriteFault),
        6 => Some(Status::NoMemory),
        7 => Some(Status::TooLong),
        8 => Some(Status::YardFault),
        9 => named(alloc, b"x"),
        10 => Some(Status::Unsound {
            partition: PartitionId(3),
        }),
        11 => Some(Status::Mismatch {
            partition: PartitionId(3),
            kept: 1,
            asked: 2,
        }),
        _ => Some(Status::BadRegistry {
            partition: PartitionId(3),
            at: 20,
        }),
    }
}

/// The status that reports this name.
fn named(alloc: Global, name: &[u8]) -> Option<Status> {
    match Blob::from_slice(alloc, name) {
        Ok(name) => Some(Status::NotEmpty { name }),
        Err(_) => None,
    }
}

/// The number of a status, and whether its line is this one.
fn told(alloc: Global, number: u8, line: &str) -> Option<(u8, bool)> {
    match status(alloc, number) {
        Some(status) => Some((status.number(), is_text(status.line(alloc), line))),
        None => None,
    }
}

/// The number and the line of each status.
static LINES: [(u8, &str); 12] = [
    (0, ""),
    (
        2,
        "tiered: usage: tiered sim [--threads] or run DIR or gen N or audit DIR or sweep DIR\n",
    ),
    (3, "tiered: line 12: Twice\n"),
    (4, "tiered: read fault\n"),
    (5, "tiered: write fault\n"),
    (6, "tiered: out of memory\n"),
    (7, "tiered: script over 16777216 bytes\n"),
    (8, "tiered: folder fault\n"),
    (9, "tiered: folder not empty: x\n"),
    (10, "tiered: partition 3 unsound\n"),
    (11, "tiered: partition 3 has 1 brokers, not 2\n"),
    (12, "tiered: partition 3 registry damaged at 20\n"),
];

/// The number of the first status that has another number or line.
fn first_wrong_line(alloc: Global) -> Option<u8> {
    for (number, line) in &LINES {
        if told(alloc, *number, line) != Some((*number, true)) {
            return Some(*number);
        }
    }
    None
}

#[test]
fn each_status_has_its_number_and_line(rt: HostRuntime) {
    assert_eq!(rt; first_wrong_line(rt.alloc()), None);
}

/// Names of what may be in a folder, and the line that reports each. Worked by hand, by the escapes of Rust's `char`.
static NAMES: [(&[u8], &str); 6] = [
    (b"it's a \\n", "tiered: folder not empty: it's a \\n\n"),
    (
        b"\xc3\xa9t\xc3\xa9",
        "tiered: folder not empty: \u{e9}t\u{e9}\n",
    ),
    (
        b"a\xffb\xc3",
        "tiered: folder not empty: a\u{fffd}b\u{fffd}\n",
    ),
    (b"a\nb\r\tc", "tiered: folder not empty: a\\nb\\r\\tc\n"),
    (
        b"\x1b[1m\x7f\xc2\x85",
        "tiered: folder not empty: \\u{1b}[1m\\u{7f}\\u{85}\n",
    ),
    (b"", "tiered: folder not empty: \n"),
];

/// The number of the first name whose line is another one.
fn first_wrong_name(alloc: Global) -> Option<usize> {
    for (i, (name, line)) in NAMES.iter().enumerate() {
        match named(alloc, name) {
            Some(status) if is_text(status.line(alloc), line) => {}
            _ => return Some(i),
        }
    }
    None
}

#[test]
fn a_name_breaks_no_line(rt: HostRuntime) {
    assert_eq!(rt; first_wrong_name(rt.alloc()), None);
}

/// A status's number, bytes that were kept of a script, and what follows the status's line. Of a bad script the second
/// line has an invalid word.
static EXPLAINED: [(u8, &str, &str); 4] = [
    (
        3,
        "# c\n0 0 0 flush x\n",
        concat!(
            "    0 0 0 flush x\n",
            "                ^\n",
            "one word too many\n",
            "expected the end of the line\n",
            "see docs/SCRIPT.md, \"flush\"\n",
        ),
    ),
    (3, "", ""),
    (
        2,
        "",
        "for example: tiered sim < examples/first.script\ntiered --help tells more\n",
    ),
    (0, "0 0 0 up\n", ""),
];

/// Whether this follows a status's line.
fn follows(alloc: Global, number: u8, script: &str, told: &str) -> bool {
    let status = match number {
        0 => Status::Ok,
        2 => Status::Usage,
        _ => Status::BadScript {
            line: 2,
            why: Why::Word,
        },
    };
    is_text(explained(alloc, &status, script.as_bytes()), told)
}

/// The number of the first row that is explained by something else.
fn first_unexplained(alloc: Global) -> Option<usize> {
    for (i, (number, script, told)) in EXPLAINED.iter().enumerate() {
        if !follows(alloc, *number, script, told) {
            return Some(i);
        }
    }
    None
}

#[test]
fn a_kept_script_is_explained(rt: HostRuntime) {
    assert_eq!(rt; first_unexplained(rt.alloc()), None);
}

/// Words, and the form that they have.
static FORMS: [(&[&str], Option<Form>); 18] = [
    (&["sim"], Some(Form::Sim)),
    (&["audit", "d"], Some(Form::Audit)),
    (&["sweep", "d"], Some(Form::Sweep)),
    (&["sweep"], None),
    (&["run", "d"], Some(Form::Run)),
    (&["run"], None),
    (&["run", "d", "e"], None),
    (&["gen", "0"], Some(Form::Gen(0))),
    (&["gen", "4294967295"], Some(Form::Gen(4_294_967_295))),
    (&["gen", "4294967296"], None),
    (&["gen", "01"], None),
    (&["gen", "00"], None),
    (&["gen", "+1"], None),
    (&["gen", "-1"], None),
    (&["gen", "1x"], None),
    (&["gen", ""], None),
    (&["gen"], None),
    (&[], None),
];

/// Whether words have this form.
fn have_form(alloc: Global, list: &[&str], want: Option<Form>) -> bool {
    match words_of(alloc, list) {
        Some(words) => form_of(words.as_slice()) == want,
        None => false,
    }
}

/// The number of the first row that has another form.
fn first_wrong_form(alloc: Global) -> Option<usize> {
    for (i, (list, form)) in FORMS.iter().enumerate() {
        if !have_form(alloc, list, *form) {
            return Some(i);
        }
    }
    None
}

#[test]
fn words_have_their_forms(rt: HostRuntime) {
    assert_eq!(rt; first_wrong_form(rt.alloc()), None);
}

/// The summary of the script of 1, as a simulator made apart from this repository gives it.
static SUMMARY: &str = "\
    append Ok 6012\n\
    flush Ok 2027\n\
    ack Ok 2027\n\
    join Cut 968\n\
    follow Copied 925\n\
    follow Level 40\n\
    copy Copied 241\n\
    copy Level 1809\n\
    trim Dropped 704\n\
    trim Kept 1290\n\
    expire Deleted 184\n\
    expire Kept 642\n\
    expire Raised 177\n\
    clock Ok 960\n\
    fetch Empty 139\n\
    fetch OutOfRange 3074\n\
    fetch Run 808\n\
    bytes 1677710\n\
    partition 0 end 1495 mark 1373 start 1097\n\
    partition 1 end 1519 mark 1490 start 1110\n\
    partition 2 end 1505 mark 1487 start 1097\n\
    partition 3 end 1493 mark 1455 start 1059\n\
";

/// It takes longer than `rt try` waits for a test. The input isn't read.
#[test]
fn a_load_is_summed_up(rt: HostRuntime) {
    let wanted = Wanted::Whole("", SUMMARY.as_bytes());
    let end = called(
        rt,
        &["gen", "1"],
        (b"0 0 0 flush\n", &[1]),
        (10_000, 100, &[]),
        wanted,
    );
    assert!(rt; end == well(0));
}

/// A script over two brokers, a follower among them, and a copy to the remote tier.
static FOLDER_SCRIPT: &str = "\
    brokers 2\n\
    segment_bytes 100\n\
    0 0 0 append 1000,-,:a\n\
    0 0 0 append 1000,-,:b\n\
    0 0 0 flush\n\
    1 0 1 follow 1000\n\
    1 0 1 flush\n\
    1 0 1 ack\n\
    0 0 0 ack\n\
    0 0 0 copy\n";

static FOLDER_TRACE: &str = "\
    0 0 0 = Ok 0 0 0\n\
    0 0 1 = Ok 1 1 0\n\
    0 0 2 = Ok 2\n\
    0 1 0 begin\n\
    0 1 0 = Copied 1\n\
    0 1 1 = Ok 1\n\
    0 1 2 = Ok 0\n\
    0 0 3 = Ok 1\n\
    0 0 4 begin\n\
    0 0 4 = Copied 00000000-0000-0001-0000-000000000000 0 0\n";

/// The same script over what the first run left: every broker is down.
static FOLDER_AGAIN: &str = "\
    0 0 0 = Down\n\
    0 0 1 = Down\n\
    0 0 2 = Down\n\
    0 1 0 = Down\n\
    0 1 1 = Down\n\
    0 1 2 = Down\n\
    0 0 3 = Down\n\
    0 0 4 = Down\n";

/// Runs the script over a folder.
fn runs_over(rt: HostRuntime, dir: &str, wanted: Wanted) -> Option<(u8, bool, bool)> {
    let script = (FOLDER_SCRIPT.as_bytes(), [].as_slice());
    called(rt, &["run", dir], script, (10_000, 100, &[]), wanted)
}

/// Files that are in the folder then.
static FILES: [&str; 4] = [
    "broker_run/p0/b0/manifest",
    "broker_run/p0/b1/manifest",
    "broker_run/p0/meta/notes",
    "broker_run/p0/store/00000000-0000-0001-0000-000000000000.log",
];

/// The first of the files that isn't there.
fn first_missing(rt: HostRuntime) -> Option<&'static str> {
    for path in &FILES {
        if fs::metadata(&rt, path).is_err() {
            return Some(path);
        }
    }
    None
}

/// Two runs over a folder: what the first comes to, the file that it lacks then, what the second comes to, and whether
/// the folder is removed at the end.
fn run_twice(
    rt: HostRuntime,
) -> (
    Option<(u8, bool, bool)>,
    Option<&'static str>,
    Option<(u8, bool, bool)>,
    bool,
) {
    let _ = fs::remove_dir_all(&rt, "broker_run");
    let first = runs_over(rt, "broker_run", Wanted::Whole("", FOLDER_TRACE.as_bytes()));
    let missing = first_missing(rt);
    let second = runs_over(rt, "broker_run", Wanted::Whole("", FOLDER_AGAIN.as_bytes()));
    (
        first,
        missing,
        second,
        fs::remove_dir_all(&rt, "broker_run").is_ok(),
    )
}

#[test]
fn a_folder_is_run_over_again(rt: HostRuntime) {
    assert!(rt; run_twice(rt) == (well(0), None, well(0), true));
}

/// Whether words print this text, or nothing, without a call.
fn is_printed(alloc: Global, list: &[&str], text: Option<&str>) -> bool {
    match words_of(alloc, list) {
        Some(words) => printed(words.as_slice()) == text,
        None => false,
    }
}

/// Whether words print the help.
fn is_help(alloc: Global, list: &[&str]) -> bool {
    match words_of(alloc, list) {
        Some(words) => printed(words.as_slice()).is_some(),
        None => false,
    }
}

/// Words, and what they print.
static PRINTED: [(&[&str], Option<&str>); 3] = [
    (&["--version"], Some("tiered 0.3.0\n")),
    (&["sim"], None),
    (&["--help", "x"], None),
];

/// The number of the first row that prints something else.
fn first_misprinted(alloc: Global) -> Option<usize> {
    for (i, (list, text)) in PRINTED.iter().enumerate() {
        if !is_printed(alloc, list, *text) {
            return Some(i);
        }
    }
    None
}

#[test]
fn help_and_version_are_words_of_their_own(rt: HostRuntime) {
    assert!(rt; is_help(rt.alloc(), &["--help"]));
    assert_eq!(rt; first_misprinted(rt.alloc()), None);
}

#[test]
fn a_failed_write_leaves_a_front(rt: HostRuntime) {
    let wanted = Wanted::Whole("tiered: write fault\n", b"0 0 ");
    let end = called(
        rt,
        &["sim"],
        (b"0 0 0 flush\n", &[]),
        (10_000, 4, &[2]),
        wanted,
    );
    assert!(rt; end == well(5));
}

/// Simulates a script of so many bytes.
fn simulated_long(rt: HostRuntime, bytes: usize) -> Option<(u8, bool, bool)> {
    let mut script = Vec::new(rt.alloc());
    let wanted = Wanted::Whole("tiered: script over 16777216 bytes\n", b"");
    match script.resize(bytes, b'#') {
        Ok(()) => called(
            rt,
            &["sim"],
            (script.as_slice(), &[]),
            (100, 100, &[]),
            wanted,
        ),
        Err(_) => None,
    }
}

#[test]
fn a_script_past_the_limit_is_too_long(rt: HostRuntime) {
    assert!(rt; simulated_long(rt, 16_777_217) == well(7));
}
