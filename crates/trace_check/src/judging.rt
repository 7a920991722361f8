//! Whether journals are whole runs of a script's partitions, each from the state that the runs before it left.

ghost use Rattle.std.specs.Prelude.{◌≡◌, ◌≤◌, ◌+◌, ◌<◌, length, map, IfOk, OnOk};
ghost use Rattle.plain_log.specs.Fresh.{fresh};
ghost use Rattle.plain_log.specs.Orders.{AreListsFor, IsConfig};
ghost use Rattle.script_lang.specs.Fit.{IsFit};
ghost use Rattle.trace_text.specs.Read.{told};
ghost use Rattle.trace_check.specs.Places.{with_one};
ghost use Rattle.trace_check.specs.Whole.{journal_of};
ghost use Rattle.trace_check.specs.Verdicts.{line_of as line_in, IsPartJudged, ArePartsJudged};
ghost use Rattle.trace_check.specs.Verdicts.{IsFirstBeyond, AreJudged};

use crate::verdict::Flaw;
use plain_executor::{Plain, is_complete, take_all};
use plain_log::{Config, JournalEntry};
use script_lang::{PartScript, Script};
use std::alloc::{AllocError, Global};
use tier_base::{Items, PartitionId};
use trace_text::PartJournal;

/// The journal of a partition.
fn find(journals: &[PartJournal], partition: PartitionId) -> &[JournalEntry]
    ensures { result.now ≡ journal_of (map told journals.now) partition.0 }
{
    for journal in journals {
        if journal.partition.0 == partition.0 {
            return journal.journal.items();
        }
    }
    &[]
}

/// A sum. Past 64 bits there is no memory for it.
fn add(sum: u64, more: usize) -> Result<u64, AllocError>
    ensures { IfOk result (λ all. all ≡ sum + more) }
{
    match sum.checked_add(more as u64) {
        Some(all) => Ok(all),
        None => Err(AllocError),
    }
}

/// The line of a partition's entry, from 1 on.
fn line_of(
    journals: &[PartJournal],
    partition: PartitionId,
    entry: usize,
) -> Result<u64, AllocError>
    ensures { IfOk result (λ line. line ≡ line_in (map told journals.now) partition.0 entry) }
{
    let mut line = add(1, entry)?;
    for journal in journals {
        if journal.partition.0 == partition.0 {
            return Ok(line);
        }
        line = add(line, journal.journal.items().len())?;
    }
    Ok(line)
}

/// Judges the journal of a partition, and leaves what its run leaves.
fn judge_part(
    alloc: Global,
    config: &Config,
    journals: &[PartJournal],
    plain: &mut Plain,
    part: &PartScript,
) -> Result<Option<Flaw>, AllocError>
    requires config { IsConfig config.now }
    requires fit { AreListsFor config.now part.now.lists }
    ensures { IfOk result (λ found. IsPartJudged config.now
        (map told journals.now) plain.old part.now plain.new found) }
{
    let partition = part.partition;
    let kept = plain.count();
    let asked = config.brokers;
    if kept != asked as usize {
        return Ok(Some(Flaw::Brokers {
            partition,
            kept,
            asked,
        }));
    }
    let lists = part.lists.as_slice();
    let journal = find(journals, partition);
    if let Some(entry) = take_all(alloc, plain, lists, journal)? {
        let line = line_of(journals, partition, entry)?;
        return Ok(Some(Flaw::NoStep {
            partition,
            entry,
            line,
        }));
    }
    if !is_complete(alloc, lists, journal)? {
        return Ok(Some(Flaw::Unfinished { partition }));
    }
    plain.cool(alloc);
    Ok(None)
}

/// Makes a fresh state for a partition that no run had so far.
fn reach(
    alloc: Global,
    config: &Config,
    states: &mut Items<Plain>,
    at: usize,
) -> Result<(), AllocError>
    requires config { IsConfig config.now }
    requires near { at ≤ length states.old }
    ensures { OnOk result (states.new ≡ with_one (fresh config.now) at states.old) }
{
    if at == states.len() {
        let plain = Plain::fresh(alloc, config)?;
        states.push(plain)?;
    }
    Ok(())
}

/// Judges the journals of a script's partitions, and leaves what their runs leave.
fn judge_parts(
    alloc: Global,
    script: &Script,
    journals: &[PartJournal],
    states: &mut Items<Plain>,
) -> Result<Option<Flaw>, AllocError>
    requires { IsFit script.now }
    ensures { IfOk result (λ found. ArePartsJudged script.now states.old (map told journals.now) states.new found) }
{
    for (at, part) in script.parts.as_slice().iter().enumerate() {
        reach(alloc, &script.config, states, at)?;
        let plain = states.at_mut(at);
        if let Some(flaw) = judge_part(alloc, &script.config, journals, plain, part)? {
            return Ok(Some(flaw));
        }
    }
    Ok(None)
}

/// The first journal of a partition that isn't among the first so many.
fn beyond(count: usize, journals: &[PartJournal]) -> Option<PartitionId>
    ensures { IsFirstBeyond count (map told journals.now) result }
{
    for journal in journals {
        if journal.partition.0 as usize >= count {
            return Some(journal.partition);
        }
    }
    None
}

/// Judges the journals of a trace, from the states that the runs before it left, and leaves those that it leaves.
pub fn judge(
    alloc: Global,
    script: &Script,
    journals: &[PartJournal],
    states: &mut Items<Plain>,
) -> Result<Option<Flaw>, AllocError>
    requires { IsFit script.now }
    ensures { IfOk result (λ found. AreJudged script.now states.old (map told journals.now) states.new found) }
{
    if let Some(flaw) = judge_parts(alloc, script, journals, states)? {
        return Ok(Some(flaw));
    }
    match beyond(script.parts.len(), journals) {
        Some(partition) => Ok(Some(Flaw::Unasked { partition })),
        None => Ok(None),
    }
}
