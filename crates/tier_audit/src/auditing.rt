//! The audit: a view of the metadata log, the keys of the store, and then each finished copy.

ghost use Rattle.std.specs.Prelude.{◌≡◌, IfOk, IsTrue, Err};
ghost use Rattle.tier_base.specs.Device.{Lasts, fate_of};
ghost use Rattle.tier_base.specs.Counts.{Rose};
ghost use Rattle.object_store.specs.Content.{Keeps};
ghost use Rattle.meta_log.specs.Content.{Keeps as KeepsNotes};
ghost use Rattle.remote_view.specs.Fold.{fold};
ghost use Rattle.tier_audit.specs.declared.refusal.AuditRefusal.TheVariants.{StoreFault, MetaFault};
ghost use Rattle.tier_audit.specs.Asking.{OnlyAsks, Audits, AsksStore, AsksLog};
ghost use Rattle.tier_audit.specs.Flaws.{IsAuditVerdict};

use crate::copies::find_unreadable;
use crate::keys::find_stray;
use crate::refusal::AuditRefusal;
use crate::verdict::Verdict;
use meta_log::MetaLog;
use object_store::Store;
use remote_view::View;
use std::alloc::Global;
use tier_base::Trouble;
use view_refresh::refresh;

/// Audits a remote tier at rest: reports that it is sound, or its first flaw. `AuditRefusal` has the causes of a
/// failure.
pub fn audit<S: Store, M: MetaLog>(
    alloc: Global,
    store: &mut S,
    meta: &mut M,
) -> Result<Verdict, AuditRefusal>
    ensures verdict { IsTrue (S.content store.old).is_observable → IsTrue (M.content meta.old).is_observable
        → IfOk result (λ verdict. IsAuditVerdict (S.content store.old).objects
        (fold (M.content meta.old).notes) verdict) }
    ensures store_kept { Keeps (S.content store.old) (S.content store.new) }
    ensures meta_kept { KeepsNotes (M.content meta.old) (M.content meta.new) }
    ensures store_calls { Lasts (S.control store.old) (S.control store.new) }
    ensures meta_calls { Lasts (M.control meta.old) (M.control meta.new) }

    // No call is made again, whatever it answered.
    ensures asks_store { AsksStore result (S.control store.old) (S.control store.new) }
    ensures asks_log { AsksLog result (M.control meta.old) (M.control meta.new) }

    // Each cause.
    ensures store_fault { result ≡ Err StoreFault → Rose (S.control store.old).faults (S.control store.new).faults }
    ensures meta_fault { result ≡ Err MetaFault → Rose (M.control meta.old).faults (M.control meta.new).faults }
{
    let mut view = View::new(alloc);
    match refresh(&mut view, meta) {
        Ok(()) => {}
        Err(Trouble::Failed) => return Err(AuditRefusal::MetaFault),
        Err(Trouble::NoMemory) => return Err(AuditRefusal::NoMemory),
    }
    match audit_store(alloc, &view, store) {
        Ok(verdict) => Ok(verdict),
        Err(Trouble::Failed) => Err(AuditRefusal::StoreFault),
        Err(Trouble::NoMemory) => Err(AuditRefusal::NoMemory),
    }
}

/// Says whether the store holds what a view of the whole metadata log says.
fn audit_store<S: Store>(alloc: Global, view: &View, store: &mut S) -> Result<Verdict, Trouble>
    ensures asks { OnlyAsks S.content S.control (fate_of result) store.old store.new }
    ensures calls { Audits (fate_of result) (S.control store.old) (S.control store.new) }
    ensures verdict { IsTrue (S.content store.old).is_observable
        → IfOk result (λ verdict. IsAuditVerdict (S.content store.old).objects view.now.entries verdict) }
{
    let keys = store.keys()?;
    if let Some(flaw) = find_stray(alloc, view, keys.as_slice())? {
        return Ok(Verdict::Unsound(flaw));
    }
    if let Some(flaw) = find_unreadable(alloc, view.entries(), store)? {
        return Ok(Verdict::Unsound(flaw));
    }
    Ok(Verdict::Sound {
        entries: view.entries().len() as u64,
        objects: keys.len() as u64,
    })
}
