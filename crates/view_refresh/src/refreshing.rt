//! Refreshing a view.

ghost use Rattle.std.specs.Prelude.{◌≡◌, ℕ, take, OnOk, OnErr};
ghost use Rattle.meta_log.specs.Content.{AreNotes, Keeps};
ghost use Rattle.view_refresh.specs.Refreshing.{fed_all, RefreshMakes, RefreshLeaves, ReadsNotes, ReadsOnce};

use meta_log::MetaLog;
use remote_view::View;
use segment_meta::Note;
use std::alloc::AllocError;
use tier_base::{Items, Trouble};

/// Reads on in the metadata log: adds all events to the view that it hasn't read yet. After `NoMemory` it may have
/// added some of them.
#[tactic(auto, using(crate::proofs::Feeding::failed_takes))]
pub fn refresh<M: MetaLog>(view: &mut View, meta: &mut M) -> Result<(), Trouble>
    ensures view { RefreshMakes result (M.content meta.old) view.old view.new }
    ensures control { ReadsNotes result (M.control meta.old) (M.control meta.new) }
    ensures once { ReadsOnce result (M.control meta.old) (M.control meta.new) }
    ensures content { Keeps (M.content meta.old) (M.content meta.new) }
    ensures left { RefreshLeaves result view.old view.new (M.content meta.old) (M.content meta.new) }
{
    let notes = meta.read(view.seen())?;
    match feed_all(view, notes) {
        Ok(()) => Ok(()),
        Err(_) => Err(Trouble::NoMemory),
    }
}

/// Feeds a view these events. Where memory runs out it has some of them.
fn feed_all(view: &mut View, notes: Items<Note>) -> Result<(), AllocError>
    requires { AreNotes notes }
    ensures ok { OnOk result (view.new ≡ fed_all view.old notes) }
    ensures err { OnErr result ((k : ℕ) × (view.new ≡ fed_all view.old (take k notes))) }
{
    for note in notes.into_vec() {
        view.feed(note)?;
    }
    Ok(())
}
