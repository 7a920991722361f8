//! Writing a partition's journal as text.

ghost use Rattle.std.specs.Prelude.{◌≡◌, ◌++◌, OnOk, IfOk};
ghost use Rattle.trace_text.specs.Trace.{entry_line, journal_text};

use crate::answers::write_event;
use crate::page::Page;
use crate::room::room;
use plain_log::{Journal, JournalEntry};
use std::alloc::{AllocError, Global};
use tier_base::PartitionId;

/// Writes an entry's line.
#[tactic(auto, unfolding(crate::specs::Trace::entry_line))]
fn write_entry(
    page: &mut Page,
    partition: PartitionId,
    entry: &JournalEntry,
) -> Result<(), AllocError>
    ensures { OnOk result (page.new ≡ page.old ++ entry_line partition.0 entry.now) }
{
    page.number(u64::from(partition.0))?;
    page.then_number(u64::from(entry.actor.0))?;
    page.then_number(u64::from(entry.number))?;
    write_event(page, &entry.event)?;
    page.word("\n")
}

/// Returns the text of a partition's journal, a line for each entry. Fails only if it is out of memory. An empty run
/// has no valid spelling: its line ends with a space, and `read` refuses it.
pub fn print(
    alloc: Global,
    partition: PartitionId,
    journal: &Journal,
) -> Result<Vec<u8>, AllocError>
    ensures { IfOk result (λ text. text.items ≡ journal_text partition.0 journal.now.items) }
{
    let entries = journal.items();
    let mut page = Page::with_room(alloc, room(partition, entries))?;
    for entry in entries {
        write_entry(&mut page, partition, entry)?;
    }
    Ok(page.into_text())
}
