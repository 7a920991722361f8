//! Entries in the order of their first events, each found by its id's number.
//!
//! Deletions mostly come in that order too. So a count of entries in front, whose objects are all gone, spares the
//! search for what is due a walk over them.

ghost use Rattle.std.specs.Prelude.{◌≡◌, [], ◌∷◌, ◌++◌, false, None, OnOk, OnErr, IfSome};
ghost use Rattle.std.specs.Option.{option_map};
ghost use Rattle.tier_base.specs.Key.{IsId};
ghost use Rattle.remote_view.specs.Fold.{entry_of, changed, updated};
ghost use Rattle.remote_view.specs.Lookup.{id_number, is_gone, due};

use crate::changing::update;
use crate::lookup::{due_in, gone_from};
use segment_meta::Entry;
use std::alloc::{AllocError, Global};
use std::collections::BTreeMap;
use std::marker::Model;
use tier_base::{Blob, BrokerId, SegmentId, State};

/// The entries.
#[derive(Drop)]
pub(crate) struct Known {
    entries: Vec<Entry>,
    places: BTreeMap<u128, usize>,
    gone: usize,
}

impl Model for Known {
    ghost use Rattle.std.specs.Prelude.{List};
    ghost use Rattle.segment_meta.specs.declared.note.Entry.{Entry};
    ghost use Rattle.remote_view.specs.Places.{IsOrdered};

    ghost Value = { List Entry };

    ghost view = { λ k. k.entries.items };

    ghost invariant = { λ k. IsOrdered k.places k.gone k.entries.items };
}

/// An id as a number, which no other id has.
fn number_of(id: &SegmentId) -> u128
    ensures value { result ≡ id_number id.now }
    ensures kept { IsId id.now }
{
    id.as_bytes();
    id.0.as_u128()
}

impl Known {
    /// No entries yet.
    pub fn new(alloc: Global) -> Known
        ensures { result ≡ [] }
    {
        Known {
            entries: Vec::new(alloc),
            places: BTreeMap::new(alloc),
            gone: 0,
        }
    }

    /// All entries, in their order.
    pub fn entries(&self) -> &[Entry]
        ensures { result.now ≡ self.now }
    {
        self.entries.as_slice()
    }

    /// The entry of an id.
    pub fn get(&self, id: &SegmentId) -> Option<&Entry>
        ensures { option_map (λ e. e.now) result ≡ entry_of id.now self.now }
    {
        match self.places.get(&number_of(id)) {
            Some(place) => Some(&self.entries[*place]),
            None => None,
        }
    }

    /// The first entry that is due.
    pub fn due(&self, start: u64) -> Option<&Entry>
        ensures { option_map (λ e. e.now) result ≡ due start self.now }
    {
        due_in(self.entries.as_slice().split_at(self.gone).1, start)
    }

    /// Adds an entry of a new id.
    pub fn add(&mut self, entry: Entry) -> Result<(), AllocError>
        requires { entry_of entry.id self.old ≡ None }
        ensures ok { OnOk result (self.new ≡ self.old ++ entry ∷ []) }
        ensures err { OnErr result (self.new ≡ self.old) }
    {
        self.entries.reserve(1)?;
        self.places
            .insert(number_of(&entry.id), self.entries.len())?;
        self.entries.push_reserved(entry);
        Ok(())
    }

    /// Updates an id's entry, whose objects aren't gone yet.
    pub fn change(
        &mut self,
        id: &SegmentId,
        broker: BrokerId,
        event_ts: i64,
        state: State,
        custom: Option<Blob>,
    )
        requires { IfSome (entry_of id.now self.old) (λ e. is_gone e.state ≡ false) }
        ensures { self.new ≡ changed id.now (updated broker event_ts state custom) self.old }
    {
        if let Some(place) = self.places.get(&number_of(id)).copied() {
            update(&mut self.entries[place], broker, event_ts, state, custom);
            self.gone = gone_from(self.entries.as_slice(), self.gone);
        }
    }
}
