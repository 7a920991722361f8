//! The events of a metadata log in memory. The rules of an event hold of each.

ghost use Rattle.std.specs.Prelude.{◌≡◌, ◌++◌, ◌∷◌, [], length, drop, IfOk, OnOk, OnErr};
ghost use Rattle.segment_meta.specs.Rules.{IsNote};
ghost use Rattle.meta_log.specs.Content.{AreNotes, appended_if};

use crate::copying::copied;
use segment_meta::Note;
use std::alloc::{AllocError, Global};
use std::marker::Model;
use tier_base::Items;

/// Events, the oldest first.
#[derive(Drop)]
pub struct Notes {
    alloc: Global,
    notes: Vec<Note>,
}

impl Model for Notes {
    ghost use Rattle.std.specs.Prelude.{List};
    ghost use Rattle.segment_meta.specs.declared.note.Note.{Note};
    ghost use Rattle.meta_log.specs.Content.{AreNotes};

    ghost Value = { List Note };

    ghost view = { λ n. n.notes.items };

    ghost invariant = { λ n. AreNotes n.notes.items };
}

impl Notes {
    /// No events.
    pub fn new(alloc: Global) -> Notes
        ensures { result ≡ [] }
    {
        Notes {
            alloc,
            notes: Vec::new(alloc),
        }
    }

    /// Counts the events.
    pub fn len(&self) -> usize
        ensures { result ≡ length self.now }
    {
        self.notes.len()
    }

    /// Puts a copy of an event at the end, where that is to be done.
    pub fn append_if(&mut self, note: &Note, done: bool) -> Result<(), AllocError>
        requires { IsNote note.now }
        ensures ok { OnOk result (self.new ≡ appended_if done note.now self.old) }
        ensures err { OnErr result (self.new ≡ self.old) }
    {
        if done { self.append(note) } else { Ok(()) }
    }

    fn append(&mut self, note: &Note) -> Result<(), AllocError>
        requires { IsNote note.now }
        ensures ok { OnOk result (self.new ≡ self.old ++ note.now ∷ []) }
        ensures err { OnErr result (self.new ≡ self.old) }
    {
        let note = copied(self.alloc, note)?;
        self.notes.push(note)?;
        Ok(())
    }

    /// Copies the events from a place on.
    pub fn read(&self, at: usize) -> Result<Items<Note>, AllocError>
        ensures notes { IfOk result (λ notes. notes ≡ drop at self.now) }
        ensures rules { IfOk result AreNotes }
    {
        let from = at.min(self.notes.len());
        copied_all(self.alloc, &self.notes[from..])
    }
}

fn copied_all(alloc: Global, notes: &[Note]) -> Result<Items<Note>, AllocError>
    requires { AreNotes notes.now }
    ensures { IfOk result (λ copies. copies ≡ notes.now) }
{
    let mut copies = Items::new(alloc);
    for note in notes {
        copies.push(copied(alloc, note)?)?;
    }
    Ok(copies)
}
