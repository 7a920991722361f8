//! A dump of a log segment: its batches one by one, read through a window.

ghost use Rattle.std.specs.Prelude.{◌≡◌, IfOk};
ghost use Rattle.dump_lines.specs.Dump.{Dumps};

use crate::seeing::{Ending, Seen, look, size_in};
use crate::show::{Show, ShowRefusal};
use crate::window::Window;
use std::alloc::{AllocError, Global};
use thiserror::Error;
use tier_base::{Failed, Source};

/// Why a dump stopped before its end. Every batch found until then was shown.
#[derive(Clone, Copy, Debug, PartialEq, Eq, Drop, Error)]
pub enum DumpRefusal {
    /// A read failed.
    #[error("read fault")]
    Failed,
    /// A position doesn't fit in 64 bits.
    #[error("too long")]
    TooLong,
    /// A write failed.
    #[error("write fault")]
    WriteFailed,
    /// The window or a line could not be allocated.
    #[error("out of memory")]
    NoMemory,
}

impl From<AllocError> for DumpRefusal {
    fn from(_error: AllocError) -> DumpRefusal {
        DumpRefusal::NoMemory
    }
}

impl From<Failed> for DumpRefusal {
    fn from(_error: Failed) -> DumpRefusal {
        DumpRefusal::Failed
    }
}

impl From<ShowRefusal> for DumpRefusal {
    fn from(error: ShowRefusal) -> DumpRefusal {
        match error {
            ShowRefusal::Failed => DumpRefusal::WriteFailed,
            ShowRefusal::NoMemory => DumpRefusal::NoMemory,
        }
    }
}

/// Shows the batches of a source's bytes from its position on, and returns where and why they end. Needs a few MiB,
/// however long the source is. `DumpRefusal` has the causes of a failure.
#[tactic(auto, using(crate::proofs::Going::begins, crate::proofs::Going::filled, crate::proofs::Going::passes, crate::proofs::Going::ends))]
pub fn dump<R: Source, S: Show>(
    alloc: Global,
    source: &mut R,
    show: &mut S,
) -> Result<Ending, DumpRefusal>
    ensures { IfOk result (λ ending. Dumps (R.left source.old) (R.left source.new)
        (S.told show.old) (S.told show.new) ending) }
{
    let mut window = Window::new(alloc);
    let mut at: u64 = 0;
    for _ in 0..u64::MAX {
        window.fill(alloc, source)?;
        let one = match look(window.rest(), at) {
            Seen::Batch(one) => one,
            Seen::Ends(ending) => return Ok(ending),
        };
        let size = size_in(&one.head);
        let Some(next) = at.checked_add(size as u64) else {
            return Err(DumpRefusal::TooLong);
        };
        let (batch, _) = window.rest().split_at(size);
        show.show(&one, batch)?;
        window.pass(size);
        at = next;
    }
    Err(DumpRefusal::TooLong)
}
