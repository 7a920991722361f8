//! Laws of answers that are never `Damaged`. Each is the contract of a function that does nothing:
//! calling it cites the law.

ghost use Rattle.laws_answers.specs.LawsOfDamage.{NoAnswerIsDamaged, RunsMeetNoDamage};

use disk_model::Disk;
use meta_log::MetaLog;
use object_store::Store;

/// No turn answers a command `Damaged`, over observable devices.
pub fn no_answer_is_damaged<D: Disk, S: Store, M: MetaLog>()
    ensures { NoAnswerIsDamaged D.Disk S.Store M.MetaLog }
{}

/// Nor does the journal report such an answer, of a world that a schedule reaches from a fresh one.
pub fn runs_meet_no_damage<D: Disk, S: Store, M: MetaLog>()
    ensures { RunsMeetNoDamage D.Disk S.Store M.MetaLog }
{}
