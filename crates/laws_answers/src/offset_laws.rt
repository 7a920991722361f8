//! The law of what `offset` returns, as the contract of a function that does nothing: calling it cites the law.

ghost use Rattle.laws_answers.specs.LawsOfOffsets.{OffsetsHaveCauses};

use disk_model::Disk;
use meta_log::MetaLog;
use object_store::Store;

/// Each answer of a question for an offset has its cause, over any devices.
pub fn offsets_have_causes<D: Disk, S: Store, M: MetaLog>()
    ensures { OffsetsHaveCauses D.Disk S.Store M.MetaLog }
{}
