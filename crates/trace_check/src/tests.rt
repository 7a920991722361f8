//! Scripts, traces, and what is reported of them: a row each, worked by hand.

use crate::{Pair, Report, check};
use std::alloc::{AllocError, Global};
use std::test::Fail;
use tier_base::Blob;

/// Scripts and their traces, and the line that is printed.
static CASES: [(&[(&str, &str)], &str); 15] = [
    (
        &[("0 0 0 flush\n", "0 0 0 = Ok 0\n")],
        "a whole run of the plain log",
    ),
    (
        &[("partitions 2\n0 1 0 flush\n", "1 0 0 = Ok 0\n")],
        "a whole run of the plain log",
    ),
    (&[("brokers 2\n", "")], "a whole run of the plain log"),
    (
        &[("\n0 0 0 flush 1\n", "no trace")],
        "line 2 of the script: Word",
    ),
    (
        &[("0 0 0 flush\n0 0 0 ack\n", "0 0 0 = Ok 0\n0 0 1 = Ok 00\n")],
        "line 2 of the trace is none of a trace",
    ),
    (
        &[("0 0 0 flush\n0 0 0 ack\n", "0 0 0 = Ok 0\n0 0 1 = Ok 1\n")],
        "partition 0: entry 1, line 2 of the trace, is no step of the plain log",
    ),
    (
        &[("0 0 0 flush\n0 0 0 ack\n", "0 0 0 = Ok 0\n")],
        "partition 0: no whole run, a command has no answer",
    ),
    (
        &[(
            "partitions 2\n0 0 0 flush\n1 1 0 flush\n",
            "0 0 0 = Ok 0\n1 0 0 = Ok 0\n",
        )],
        "partition 1: entry 0, line 2 of the trace, is no step of the plain log",
    ),
    (
        &[("0 0 0 flush\n", "0 0 0 = Ok 0\n1 0 0 = Ok 0\n")],
        "partition 1: the script has no such partition",
    ),
    // A second run begins with the broker down, in the epoch and with the log that the first one left.
    (
        &[
            (
                "0 0 0 append 0,-,:a\n0 0 0 flush\n0 0 0 ack\n0 0 0 append 0,-,:b\n",
                "0 0 0 = Ok 0 0 0\n0 0 1 = Ok 1\n0 0 2 = Ok 1\n0 0 3 = Ok 1 1 0\n",
            ),
            (
                "0 0 0 flush\n0 0 0 up\n0 0 0 learn\n0 0 0 elect\n0 0 0 learn\n",
                "0 0 0 = Down\n0 0 1 = Up 1\n0 0 2 = NeedsElection 0\n0 0 3 = Ok 1\n0 0 4 = Leads 1\n",
            ),
        ],
        "2 whole runs of the plain log, each from where the one before it ended",
    ),
    (
        &[
            ("0 0 0 flush\n", "0 0 0 = Ok 0\n"),
            ("0 0 0 flush\n", "0 0 0 = Ok 0\n"),
        ],
        "run 2: partition 0: entry 0, line 1 of the trace, is no step of the plain log",
    ),
    // A partition that a script doesn't have stays as it was, and one that had no line has run all the same.
    (
        &[
            ("partitions 2\n0 1 0 flush\n", "1 0 0 = Ok 0\n"),
            ("0 0 0 flush\n", "0 0 0 = Down\n"),
            (
                "partitions 3\n0 0 0 up\n1 1 0 up\n2 2 0 up\n",
                "0 0 0 = Up 0\n1 1 0 = Up 0\n2 2 0 = IsUp\n",
            ),
        ],
        "3 whole runs of the plain log, each from where the one before it ended",
    ),
    (
        &[("0 0 0 flush\n", "0 0 0 = Ok 0\n"), ("brokers 2\n", "")],
        "run 2: partition 0 has 1 brokers, not 2",
    ),
    (
        &[("", ""), ("nothing\n", ""), ("nothing\n", "")],
        "run 2: line 1 of the script: Word",
    ),
    (
        &[("", ""), ("", "0 0 0 = Down\n")],
        "run 2: partition 0: entry 0, line 1 of the trace, is no step of the plain log",
    ),
];

/// A script and a trace.
fn pair(alloc: Global, row: &(&str, &str)) -> Result<Pair, AllocError> {
    Ok(Pair {
        script: Blob::from_slice(alloc, row.0.as_bytes())?,
        trace: Blob::from_slice(alloc, row.1.as_bytes())?,
    })
}

/// What is printed of them.
fn told(alloc: Global, rows: &[(&str, &str)]) -> Result<String, AllocError> {
    let mut pairs = Vec::new(alloc);
    for row in rows {
        pairs.push(pair(alloc, row)?)?;
    }
    if !crate::are_short(pairs.as_slice()) {
        return Err(AllocError);
    }
    let verdict = check(alloc, pairs.as_slice())?;
    let report = Report {
        verdict,
        runs: pairs.len(),
    };
    format!(in alloc; "{report}")
}

#[test]
fn verdict_rows(rt: HostRuntime) -> Result<(), Fail> {
    for (rows, line) in &CASES {
        let text = told(rt.alloc(), rows)?;
        assert_eq!(rt; text.as_str(), *line);
    }
    Ok(())
}
