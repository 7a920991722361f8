//! The call that the program makes: the bytes of a script and of its trace in, a story for each partition out.

ghost use Rattle.std.specs.Prelude.{◌≡◌, ◌<◌, ◌≤◌, ◌+◌, ◌^◌, ◌-◌, length, map, slice_get, Some, OnOk, IfOk};
ghost use Rattle.plain_log.specs.Orders.{AreListsFor, IsConfig};
ghost use Rattle.script_lang.specs.Fit.{IsFit};
ghost use Rattle.trace_text.specs.Read.{told};
ghost use Rattle.plain_log.specs.Fresh.{fresh};
ghost use Rattle.run_story.specs.Moments.{IsStory, journal_of};
ghost use Rattle.run_story.specs.Stories.{AreStories, HasStories};

use crate::moment::Moment;
use crate::remote::{EpochStart, RemoteSegment};
use crate::telling::{TellRefusal, tell};
use crate::text::answer_in;
use crate::tracked::Tracked;
use plain_log::{Config, JournalEntry};
use script_lang::{PartScript, Script, ScriptRefusal, Why, parse};
use std::alloc::{AllocError, Global};
use thiserror::Error;
use tier_base::{Items, PartitionId};
use trace_text::{PartJournal, TraceRefusal, read};

/// What happened to a partition in a run.
#[derive(Debug, Drop)]
pub struct Story {
    pub partition: PartitionId,
    /// One for each entry of the partition's journal, in order.
    pub moments: Items<Moment>,
    /// The segments that the remote tier has had.
    pub remote: Vec<RemoteSegment>,
    /// Where leader epochs start in the leaders' logs.
    pub epochs: Vec<EpochStart>,
}

/// Why a run has no story.
#[derive(Clone, Copy, Debug, Drop, Error)]
pub enum StoryRefusal {
    #[error("line {line} of the script: {why}")]
    BadScript {
        line: u32,
        why: Why,
    },
    #[error("line {line} of the trace is none of a trace")]
    BadTrace {
        line: u32,
    },
    #[error("partition {partition} has {kept} brokers, not {asked}")]
    Brokers {
        partition: u16,
        kept: usize,
        asked: u16,
    },
    #[error("partition {partition}: entry {entry}, line {line} of the trace, is no step of the plain log")]
    NoStep {
        partition: u16,
        entry: usize,
        line: usize,
    },
    #[error("partition {partition}: the script has no such partition")]
    Unasked {
        partition: u16,
    },
    #[error("out of memory")]
    NoMemory,
}

impl From<AllocError> for StoryRefusal {
    fn from(_error: AllocError) -> StoryRefusal {
        StoryRefusal::NoMemory
    }
}

/// The journal of a partition.
fn find(journals: &[PartJournal], partition: PartitionId) -> &[JournalEntry]
    ensures { result.now ≡ journal_of (map told journals.now) partition.0 }
{
    for journal in journals {
        if journal.partition.0 == partition.0 {
            return journal.journal.items();
        }
    }
    &[]
}

/// How many lines of a trace come before those of a partition.
fn lines_before(journals: &[PartJournal], partition: PartitionId) -> usize {
    let mut count: usize = 0;
    for journal in journals {
        if journal.partition.0 == partition.0 {
            return count;
        }
        count = count.saturating_add(journal.journal.items().len());
    }
    count
}

/// The lines of a trace after the first so many.
fn after<'a, 'b>(lines: &'a [&'b str], count: usize) -> &'a [&'b str] {
    &lines[count.min(lines.len())..]
}

/// Returns the story of a partition, and leaves the partition as the run leaves it.
fn tell_part(
    alloc: Global,
    config: &Config,
    part: &PartScript,
    journals: &[PartJournal],
    lines: &[&str],
    tracked: &mut Tracked,
) -> Result<Story, StoryRefusal>
    requires { AreListsFor config.now part.now.lists }
    ensures partition { IfOk result (λ story. story.partition ≡ part.now.partition) }
    ensures story { IfOk result (λ story. IsStory part.now.lists tracked.old.plain
        (journal_of (map told journals.now) part.now.partition.0) tracked.new.plain story.moments) }
{
    let partition = part.partition;
    let before = lines_before(journals, partition);
    let journal = find(journals, partition);
    match tell(alloc, config, part, journal, after(lines, before), tracked) {
        Ok(moments) => story_with(alloc, partition, moments, tracked),
        Err(TellRefusal::NoStep { place }) => Err(StoryRefusal::NoStep {
            partition: partition.0,
            entry: place,
            line: before.saturating_add(place).saturating_add(1),
        }),
        Err(TellRefusal::NoMemory) => Err(StoryRefusal::NoMemory),
    }
}

/// The story with these moments.
fn story_with(
    alloc: Global,
    partition: PartitionId,
    moments: Items<Moment>,
    tracked: &Tracked,
) -> Result<Story, StoryRefusal>
    ensures { IfOk result (λ story. (story.partition ≡ partition) × (story.moments ≡ moments)) }
{
    let Ok(remote) = Vec::from_slice(alloc, tracked.remote.as_slice()) else {
        return Err(StoryRefusal::NoMemory);
    };
    let Ok(epochs) = Vec::from_slice(alloc, tracked.epochs.as_slice()) else {
        return Err(StoryRefusal::NoMemory);
    };
    Ok(Story {
        partition,
        moments,
        remote,
        epochs,
    })
}

/// Refuses a partition that has another number of brokers than the script.
fn check_brokers(
    config: &Config,
    partition: PartitionId,
    tracked: &Tracked,
) -> Result<(), StoryRefusal> {
    let kept = tracked.plain.count();
    let asked = config.brokers;
    if kept == asked as usize {
        return Ok(());
    }
    Err(StoryRefusal::Brokers {
        partition: partition.0,
        kept,
        asked,
    })
}

/// Makes a fresh state for a partition that no run had so far.
fn reach(
    alloc: Global,
    config: &Config,
    states: &mut Items<Tracked>,
    at: usize,
) -> Result<(), AllocError>
    requires config { IsConfig config.now }
    requires near { at ≤ length states.old }
    ensures within { OnOk result (at < length states.new) }
    ensures count { OnOk result (length states.old ≡ at → length states.new ≡ at + 1) }
    ensures fresh { OnOk result (length states.old ≡ at
        → (t : Tracked) → slice_get states.new at ≡ Some t → t.plain ≡ fresh config.now) }
{
    if at == states.len() {
        let tracked = Tracked::fresh(alloc, config)?;
        states.push(tracked)?;
    }
    Ok(())
}

/// Returns the story of each partition of a script.
fn tell_parts(
    alloc: Global,
    script: &Script,
    journals: &[PartJournal],
    lines: &[&str],
    states: &mut Items<Tracked>,
) -> Result<Items<Story>, StoryRefusal>
    requires { IsFit script.now }
    ensures { IfOk result (λ stories. AreStories script.now.config states.old
        (map told journals.now) script.now.parts stories) }
{
    let mut stories = Items::new(alloc);
    for (at, part) in script.parts.as_slice().iter().enumerate() {
        reach(alloc, &script.config, states, at)?;
        let tracked = states.at_mut(at);
        check_brokers(&script.config, part.partition, tracked)?;
        let story = tell_part(alloc, &script.config, part, journals, lines, tracked)?;
        tracked.cool(alloc);
        stories.push(story)?;
    }
    Ok(stories)
}

/// Refuses a journal of a partition that the script doesn't have.
fn check_partitions(count: usize, journals: &[PartJournal]) -> Result<(), StoryRefusal> {
    for journal in journals {
        if journal.partition.0 as usize >= count {
            return Err(StoryRefusal::Unasked {
                partition: journal.partition.0,
            });
        }
    }
    Ok(())
}

/// The answers of a trace, line by line.
fn answers_in(alloc: Global, trace: &str) -> Result<Vec<&str>, AllocError> {
    let mut lines = Vec::new(alloc);
    for line in trace.lines() {
        lines.push(answer_in(line))?;
    }
    Ok(lines)
}

/// Returns the story of each partition of a script in a run whose trace this is. `states` has the partitions as the
/// runs before it left them, none before the first run, and then as this run leaves them. `StoryRefusal` has the causes
/// of a failure.
pub fn tell_run(
    alloc: Global,
    script: &str,
    trace: &str,
    states: &mut Items<Tracked>,
) -> Result<Items<Story>, StoryRefusal>
    requires { length script.now < 2 ^ 32 - 1 }
    ensures { IfOk result (λ stories. HasStories script.now trace.now states.old stories) }
{
    let said = match parse(alloc, script.as_bytes()) {
        Ok(said) => said,
        Err(ScriptRefusal::Bad { line, why }) => return Err(StoryRefusal::BadScript { line, why }),
        Err(ScriptRefusal::NoMemory) => return Err(StoryRefusal::NoMemory),
    };
    let journals = match read(alloc, trace.as_bytes()) {
        Ok(journals) => journals,
        Err(TraceRefusal::Bad { line }) => return Err(StoryRefusal::BadTrace { line }),
        Err(TraceRefusal::NoMemory) => return Err(StoryRefusal::NoMemory),
    };
    check_partitions(said.parts.len(), journals.as_slice())?;
    let lines = answers_in(alloc, trace)?;
    tell_parts(alloc, &said, journals.as_slice(), lines.as_slice(), states)
}
