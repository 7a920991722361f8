//! What lines say, form by form. The expected values are worked by hand from the grammar.

use crate::scripts::read;
use script_lang::{PartScript, Script};
use std::alloc::{AllocError, Global};

/// Lines, and the command or the fault that they name.
static FORMS: [(&str, &str); 35] = [
    (
        "fault 0 disk 0 sync 4294967295 after",
        "Fault { device: Disk(BrokerId(0)), call: Sync, number: 4294967295, after: true }",
    ),
    (
        "fault 0 store delete 1 before",
        "Fault { device: Store, call: Delete, number: 1, after: false }",
    ),
    (
        "fault 0 meta read 02 after",
        "Fault { device: Meta, call: Read, number: 2, after: true }",
    ),
    ("later 5 0 0 roll", "Roll"),
    ("63 0 - clock 7", "Clock { ms: 7 }"),
    (
        "fault 0 meta read 1 before",
        "Fault { device: Meta, call: Read, number: 1, after: false }",
    ),
    (
        "fault 0 disk 0 append 1 before",
        "Fault { device: Disk(BrokerId(0)), call: Append, number: 1, after: false }",
    ),
    (
        "fault 0 disk 0 read 1 before",
        "Fault { device: Disk(BrokerId(0)), call: Read, number: 1, after: false }",
    ),
    (
        "fault 0 disk 0 replace 1 before",
        "Fault { device: Disk(BrokerId(0)), call: Replace, number: 1, after: false }",
    ),
    ("0 0 0 flush", "Flush"),
    ("0 0 0 roll", "Roll"),
    ("0 0 0 elect", "Elect"),
    ("0 0 0 unclean", "Unclean"),
    ("0 0 0 learn", "Learn"),
    ("0 0 0 join", "Join"),
    ("0 0 0 ack", "Ack"),
    ("0 0 0 shrink", "Shrink"),
    ("0 0 0 expand", "Expand"),
    ("0 0 0 copy", "Copy"),
    ("0 0 0 trim", "Trim"),
    ("0 0 0 expire", "Expire"),
    ("0 0 0 stop", "Stop"),
    ("0 0 0 up", "Up"),
    ("0 0 0 follow 2147483647", "Follow { limit: 2147483647 }"),
    (
        "0 0 0 raise 4611686018427387904",
        "Raise { start: 4611686018427387904 }",
    ),
    ("0 0 0 fetch 7 9", "Fetch { offset: 7, limit: 9 }"),
    ("0 0 0 offset earliest", "Offset(Earliest)"),
    ("0 0 0 offset latest", "Offset(Latest)"),
    ("0 0 0 offset earliest_local", "Offset(EarliestLocal)"),
    ("0 0 0 offset latest_tiered", "Offset(LatestTiered)"),
    (
        "0 0 0 offset at 9223372036854775807",
        "Offset(At(9223372036854775807))",
    ),
    (
        "0 0 - clock 9223372036854775807",
        "Clock { ms: 9223372036854775807 }",
    ),
    ("0 0 - pack 01", "Pack(true)"),
    ("0 0 - copying 00", "Copying(false)"),
    (
        "0 0 0 append 0005,x6bfF,-,:h=-,x=:v.1 6,-,:",
        "\
        Append(Items { items: [Rec { ts: 5, key: Some(Blob { bytes: [107, 255] }), value: None, headers: Items { \
        items: [Header { key: Blob { bytes: [104] }, value: None }, Header { key: Blob { bytes: [] }, \
        value: Some(Blob { bytes: [118, 46, 49] }) }] } }, Rec { ts: 6, key: None, \
        value: Some(Blob { bytes: [] }), headers: Items { items: [] } }] })",
    ),
];

/// The first fault of a part, or else its first command, as text.
fn shown(alloc: Global, part: &PartScript) -> Result<String, AllocError> {
    if let Some(fault) = part.faults.as_slice().first() {
        return format!(in alloc; "{fault:?}");
    }
    match part.lists.as_slice().first() {
        Some(list) => match list.orders.as_slice().first() {
            Some(order) => format!(in alloc; "{:?}", order.command),
            None => Ok(String::new(alloc)),
        },
        None => Ok(String::new(alloc)),
    }
}

/// What a script of this line says, as text.
fn told(alloc: Global, line: &str) -> Result<String, AllocError> {
    match read(alloc, line.as_bytes()) {
        Ok(Script { parts, .. }) => match parts.as_slice().first() {
            Some(part) => shown(alloc, part),
            None => Ok(String::new(alloc)),
        },
        Err(refusal) => format!(in alloc; "{refusal:?}"),
    }
}

/// Whether a script of this line says this.
fn says(alloc: Global, line: &str, wanted: &str) -> bool {
    match told(alloc, line) {
        Ok(found) => found.as_str() == wanted,
        Err(_) => false,
    }
}

#[test]
fn each_form_is_read(rt: HostRuntime) {
    for (line, wanted) in &FORMS {
        assert!(rt; says(rt.alloc(), line, wanted), "{line}");
    }
}
