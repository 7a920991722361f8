//! The moments of a journal.

ghost use Rattle.plain_log.specs.Orders.{AreListsFor};
ghost use Rattle.run_story.specs.Moments.{Tells};

use crate::moment::Moment;
use crate::tracked::Tracked;
use plain_log::{Config, JournalEntry};
use script_lang::PartScript;
use std::alloc::Global;
use tier_base::Items;

/// Why a journal has no moments.
#[derive(Clone, Copy, Debug, PartialEq, Eq)]
pub enum TellRefusal {
    /// The entry at this place is no step of the plain log.
    NoStep { place: usize },
    NoMemory,
}

/// The line of an entry.
fn line_at<'a>(lines: &[&'a str], place: usize) -> &'a str {
    match lines.get(place) {
        Some(line) => *line,
        None => "",
    }
}

/// Carries out a journal from where the partition is, and returns a moment for each entry. `lines` has the answers as
/// the trace has them; an answer that it lacks is empty. `TellRefusal` has the causes of a failure.
pub fn tell(
    alloc: Global,
    config: &Config,
    part: &PartScript,
    journal: &[JournalEntry],
    lines: &[&str],
    tracked: &mut Tracked,
) -> Result<Items<Moment>, TellRefusal>
    requires { AreListsFor config.now part.now.lists }
    ensures { Tells part.now.lists tracked.old.plain journal.now tracked.new.plain result }
{
    let _brokers = config.brokers;
    let lists = part.lists.as_slice();
    let mut moments = Items::new(alloc);
    for (place, entry) in journal.iter().enumerate() {
        let line = line_at(lines, place);
        match tracked.advance(alloc, lists, entry, line, moments.as_slice()) {
            Ok(Some(moment)) => match moments.push(moment) {
                Ok(()) => {}
                Err(_) => return Err(TellRefusal::NoMemory),
            },
            Ok(None) => return Err(TellRefusal::NoStep { place }),
            Err(_) => return Err(TellRefusal::NoMemory),
        }
    }
    Ok(moments)
}
