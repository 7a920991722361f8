//! A broker's view of the remote metadata (Kafka's RemoteLogMetadataCache) and its calls.
//!
//! Entries are found by their ids and ranges by their leader epochs, both by binary search; only what is below a log
//! start is found by a pass. An event changes the entry and the ranges of its epochs together, once there is memory
//! for all of it.

ghost use Rattle.std.specs.Prelude.{◌≡◌, ◌≢◌, [], OnOk, OnErr, IfSome};
ghost use Rattle.std.specs.Option.{option_map};
ghost use Rattle.tier_base.specs.declared.plain.State.TheVariants.{CopyStarted};
ghost use Rattle.segment_meta.specs.declared.note.Note.TheVariants.{Add, Update};
ghost use Rattle.segment_meta.specs.Rules.{IsNote, IsAdded};
ghost use Rattle.remote_view.specs.Fold.{IsEntryValid, AreEntriesValid, AreDistinct, entry_of, state_of, recorded, fed};
ghost use Rattle.remote_view.specs.Lookup.{finished, due, IsReach};
ghost use Rattle.remote_view.specs.Stairs.{IsStair};

use crate::changing::has_id;
use crate::in_place::{lay_behind, take_first};
use crate::known::Known;
use crate::seeking::id_at;
use crate::spread::Spread;
use crate::stairs::Stairs;
use crate::stepping::fresh;
use crate::tread::Tread;
use segment_meta::{Entry, Note, next_state};
use std::alloc::{AllocError, Global};
use std::marker::Model;
use tier_base::{Blob, BrokerId, SegmentId, State};

/// The remote segments that a broker knows of, in the order of their first events.
#[derive(Drop)]
pub struct View {
    alloc: Global,
    known: Known,
    stairs: Stairs,
    spread: Spread,
    notes: u64,
}

impl Model for View {
    ghost use Rattle.remote_view.specs.Fold.{EntriesSeen};
    ghost use Rattle.remote_view.specs.Storing.{IsViewed};
    ghost use Rattle.remote_view.specs.Spread.{AreSpread};

    ghost Value = { EntriesSeen };

    ghost view = { λ v. record { entries = v.known; notes = v.notes } };

    ghost invariant = { λ v. IsViewed v.known v.stairs × AreSpread v.spread v.known };
}

impl View {
    /// A view that has read no event.
    pub fn new(alloc: Global) -> View
        ensures { result ≡ record { entries = []; notes = 0 } }
    {
        View {
            alloc,
            known: Known::new(alloc),
            stairs: Stairs::new(alloc),
            spread: Spread { past: 0, alone: 0 },
            notes: 0,
        }
    }

    /// Adds the next event of the metadata log. An event that is no step from its segment's state is counted, and
    /// changes nothing else. After an `Err` the view is as before.
    pub fn feed(&mut self, note: Note) -> Result<(), AllocError>
        requires { IsNote note }
        ensures ok { OnOk result (self.new ≡ fed self.old note) }
        ensures err { OnErr result (self.new ≡ self.old) }
    {
        match note {
            Note::Add(entry) => self.add(entry)?,
            Note::Update {
                id,
                broker,
                event_ts,
                state,
                custom,
            } => self.update(&id, broker, event_ts, state, custom)?,
        }
        self.notes = self.notes.saturating_add(1);
        Ok(())
    }

    /// How many events the view has read: where in the metadata log it reads on.
    pub fn seen(&self) -> u64
        ensures { result ≡ self.now.notes }
    {
        self.notes
    }

    /// The entry of a segment, if the view has one.
    pub fn entry(&self, id: SegmentId) -> Option<&Entry>
        ensures { option_map (λ e. e.now) result ≡ entry_of id self.now.entries }
    {
        self.known.get(&id)
    }

    /// The state of a segment, if the view has its entry.
    pub fn state(&self, id: SegmentId) -> Option<State>
        ensures { result ≡ state_of id self.now.entries }
    {
        match self.known.get(&id) {
            Some(entry) => Some(entry.state),
            None => None,
        }
    }

    /// The finished copy to read an offset of a leader epoch from: of those that have the offset in this epoch, the
    /// one that ends last.
    pub fn finished(&self, epoch: u32, offset: u64) -> Option<&Entry>
        ensures best { option_map (λ e. e.now) result ≡ finished epoch offset self.now.entries }
        ensures kept { IfSome result (λ e. IsEntryValid e.now) }
    {
        match id_at(self.stair(epoch), offset) {
            Some(id) => self.known.get(&id),
            None => None,
        }
    }

    /// Which finished copies an epoch is read from, by ranges of offsets that rise.
    pub fn stair(&self, epoch: u32) -> &[Tread]
        ensures { IsStair self.now.entries epoch result.now }
    {
        self.stairs.stair(epoch)
    }

    /// The first offset from `at` on that no finished copy has in an epoch.
    pub fn reach(&self, epoch: u32, at: u64) -> u64
        ensures { IsReach epoch self.now.entries at result }
    {
        self.stairs.end_from(epoch, at)
    }

    /// All entries, in the order of their first events.
    pub fn entries(&self) -> &[Entry]
        ensures entries { result.now ≡ self.now.entries }
        ensures kept { AreEntriesValid self.now.entries }
        ensures distinct { AreDistinct self.now.entries }
    {
        self.known.entries()
    }

    /// The first entry that ends below a log start and whose deletion isn't finished.
    pub fn due(&self, start: u64) -> Option<&Entry>
        ensures { option_map (λ e. e.now) result ≡ due start self.now.entries }
    {
        self.known.due(start)
    }

    /// Adds an entry, where its id is new.
    fn add(&mut self, entry: Entry) -> Result<(), AllocError>
        requires { IsAdded entry }
        ensures ok { OnOk result (self.new ≡ record self.old { entries = recorded self.old.entries (Add entry) }) }
        ensures err { OnErr result (self.new ≡ self.old) }
    {
        if self.known.get(&entry.id).is_some() {
            return Ok(());
        }
        has_id(&entry);
        self.known.add(entry)
    }

    /// Updates an entry, where that is a step.
    fn update(
        &mut self,
        id: &SegmentId,
        broker: BrokerId,
        event_ts: i64,
        state: State,
        custom: Option<Blob>,
    ) -> Result<(), AllocError>
        requires { state ≢ CopyStarted }
        ensures ok { OnOk result (self.new
            ≡ record self.old { entries = recorded self.old.entries (Update id.now broker event_ts state custom) }) }
        ensures err { OnErr result (self.new ≡ self.old) }
    {
        let Some(entry) = self.known.get(id) else {
            return Ok(());
        };
        if next_state(Some(entry.state), state).is_none() {
            return Ok(());
        }
        let spread = self.spread.after(entry, state);
        if lay_behind(self.alloc, &mut self.stairs, entry, state)? {
            self.known.change(id, broker, event_ts, state, custom);
            self.spread = spread;
            return Ok(());
        }
        if take_first(&mut self.stairs, self.spread, entry, state) {
            self.known.change(id, broker, event_ts, state, custom);
            self.spread = spread;
            return Ok(());
        }
        let fresh = fresh(self.alloc, &self.known, &mut self.stairs, entry, state)?;
        self.known.change(id, broker, event_ts, state, custom);
        self.stairs.replace_all(fresh);
        self.spread = spread;
        Ok(())
    }
}
