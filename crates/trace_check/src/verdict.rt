//! What is reported of scripts and traces.

use script_lang::Why;
use std::fmt;
use tier_base::PartitionId;

/// Why a trace is no whole run of the plain log of a script from where the runs before it ended. The first cause is
/// reported: of the script's lines, of the trace's, of the script's partitions as they rise, and of other partitions.
#[derive(Clone, Copy, Debug, PartialEq, Eq)]
pub enum Flaw {
    /// The script's line of this number, from 1 on, is the first that is invalid.
    BadScript {
        line: u32,
        why: Why,
    },
    /// The trace's line of this number, from 1 on, is the first that is none.
    BadTrace {
        line: u32,
    },
    /// The runs before made the partition with this many brokers, and the script asks for another count.
    Brokers {
        partition: PartitionId,
        kept: usize,
        asked: u16,
    },
    /// The partition's entry of this number, from 0 on, is the first that is no step of the plain log. It is this
    /// line of the trace, from 1 on.
    NoStep {
        partition: PartitionId,
        entry: usize,
        line: u64,
    },
    /// The partition's entries are steps, and leave a command without an answer.
    Unfinished {
        partition: PartitionId,
    },
    /// The script has no such partition.
    Unasked {
        partition: PartitionId,
    },
}

/// What is reported of traces.
#[derive(Clone, Copy, Debug, PartialEq, Eq)]
pub enum Verdict {
    /// Each is a whole run of the plain log, from where those before it ended.
    Whole,
    /// The trace of this number, from 1 on, is the first that is none, and this is the first cause.
    Flawed { run: usize, flaw: Flaw },
}

impl fmt::Display for Flaw {
    fn fmt<W: fmt::Write>(&self, f: &mut fmt::Formatter<W>) -> fmt::Result {
        match self {
            Flaw::BadScript { line, why } => write!(f, "line {line} of the script: {why}"),
            Flaw::BadTrace { line } => write!(f, "line {line} of the trace is none of a trace"),
            Flaw::Brokers {
                partition,
                kept,
                asked,
            } => write!(
                f,
                "partition {} has {kept} brokers, not {asked}",
                partition.0
            ),
            Flaw::NoStep {
                partition,
                entry,
                line,
            } => write!(
                f,
                "partition {}: entry {entry}, line {line} of the trace, is no step of the plain log",
                partition.0
            ),
            Flaw::Unfinished { partition } => write!(
                f,
                "partition {}: no whole run, a command has no answer",
                partition.0
            ),
            Flaw::Unasked { partition } => write!(
                f,
                "partition {}: the script has no such partition",
                partition.0
            ),
        }
    }
}

/// What is printed of so many runs.
#[derive(Clone, Copy, Debug)]
pub struct Report {
    pub verdict: Verdict,
    pub runs: usize,
}

impl fmt::Display for Report {
    fn fmt<W: fmt::Write>(&self, f: &mut fmt::Formatter<W>) -> fmt::Result {
        match &self.verdict {
            Verdict::Whole if self.runs == 1 => f.write_str("a whole run of the plain log"),
            Verdict::Whole => write!(
                f,
                "{} whole runs of the plain log, each from where the one before it ended",
                self.runs
            ),
            Verdict::Flawed { flaw, .. } if self.runs == 1 => write!(f, "{flaw}"),
            Verdict::Flawed { run, flaw } => write!(f, "run {run}: {flaw}"),
        }
    }
}
