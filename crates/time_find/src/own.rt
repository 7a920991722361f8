//! A turn of a search in the local log.

ghost use Rattle.std.specs.Prelude.{◌≡◌, ◌<◌, ◌≤◌, true, OnErr, IfOk};
ghost use Rattle.broker_log.specs.Seen.{is_up, WhileUp, Quiet, LogStays};
ghost use Rattle.time_find.specs.Turns.{SearchContinues, LocalSearchRow};

use crate::passing::passed_over;
use crate::run::search_run;
use crate::turn::{Asked, SearchStep};
use broker_log::{BrokerLog, ReadRefusal};
use disk_model::Disk;
use plain_log::{Answer, Place, Turn};
use std::alloc::AllocError;

/// Takes a turn of a search whose cursor is in the local log: it passes over closed segments, and reads a run where it
/// comes to. The run has no limit but the known high watermark, the segment's end and its leader epoch's. Fails only if
/// memory runs out.
pub fn own_turn<D: Disk>(
    log: &mut BrokerLog<D>,
    asked: &Asked,
    cursor: u64,
) -> Result<Turn<(u64, SearchStep)>, AllocError>
    requires up { is_up log.old ≡ true }
    requires local { WhileUp log.old (λ l. l.local_start ≤ cursor) }
    requires mark { cursor < asked.now.mark }
    ensures row { IfOk result (λ turn. LocalSearchRow D.content D.control log.old asked.now cursor turn log.new) }
    ensures goes { IfOk result (SearchContinues cursor) }
    ensures stays { OnErr result (LogStays D.content log.old log.new) }
    ensures quiet { OnErr result (Quiet D.control log.old log.new) }
{
    let at = passed_over(log.closed(), cursor, asked.ts);
    if at >= asked.mark {
        return Ok(Turn::Goes((at, SearchStep::Seek)));
    }
    match log.read_run(at, u64::MAX, asked.mark) {
        Ok(run) => Ok(search_run(run.bytes.as_slice(), asked, at)),
        Err(ReadRefusal::Damaged { file, at }) => Ok(Turn::Ends(Answer::Damaged(
            Place::File(file),
            at,
        ))),
        Err(ReadRefusal::DiskFault) => Ok(Turn::Ends(Answer::DiskFault)),
        Err(ReadRefusal::NoMemory) => Err(AllocError),
    }
}
