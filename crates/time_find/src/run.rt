//! What a run of batches has of a timestamp.

ghost use Rattle.std.specs.Prelude.{◌≡◌, ◌<◌, ◌^◌, ℕ, List};
ghost use Rattle.log_terms.specs.Log.{joined, end_from};
ghost use Rattle.time_find.specs.Dates.{AreAllChecked, IsDated};
ghost use Rattle.time_find.specs.Turns.{SearchContinues, IsSearched};

use crate::turn::{Asked, SearchStep};
use plain_log::{Answer, Turn};
use record_batch::read_head;

/// The bytes of a batch before its batch_length counts.
const FRONT_BYTES: usize = 12;

/// What a run has of a timestamp.
#[derive(Clone, Copy, Debug, PartialEq, Eq)]
pub enum Dated {
    /// The offset of the first batch that isn't below it, or the log start offset where that is greater.
    At(u64),
    /// All of its batches are below it, and this is where they end.
    Behind(u64),
}

/// Looks for the first batch of a run whose greatest timestamp isn't below one. The run begins at or below an offset,
/// and is made of batches that were checked.
pub fn date_in(run: &[u8], ts: i64, start: u64, offset: u64) -> Dated
    ensures { (batches : List (List ℕ)) → AreAllChecked batches → end_from offset batches < 2 ^ 64
        → run.now ≡ joined batches
        → IsDated ts start offset batches result }
{
    let mut rest = run;
    let mut end = offset;
    while !rest.is_empty() {
        let Ok(head) = read_head(rest) else {
            return Dated::Behind(end);
        };
        let base = head.base_offset.cast_unsigned();
        if head.max_ts >= ts {
            return Dated::At(base.max(start));
        }
        end = base
            .saturating_add(head.last_offset_delta.cast_unsigned() as u64)
            .saturating_add(1);
        let size = FRONT_BYTES + head.batch_length.cast_unsigned() as usize;
        let (_, behind) = rest.split_at(size.min(rest.len()));
        rest = behind;
    }
    Dated::Behind(end)
}

/// What a search comes to with a run that was read at an offset.
pub(crate) fn search_run(run: &[u8], asked: &Asked, offset: u64) -> Turn<(u64, SearchStep)>
    requires { offset < asked.now.mark }
    ensures row { IsSearched asked.now offset run.now result }
    ensures goes { SearchContinues offset result }
{
    match date_in(run, asked.ts, asked.start, offset) {
        Dated::At(offset) => Turn::Ends(Answer::Offset(offset)),
        Dated::Behind(end) => Turn::Goes((end.max(offset + 1), SearchStep::Seek)),
    }
}
