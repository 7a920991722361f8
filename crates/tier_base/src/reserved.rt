//! A list with reserved room, which contracts see: the room is made first, and putting an item into
//! it can't fail.
//!
//! Who must record what a change came to reserves before it, so that nothing has to be undone.

ghost use Rattle.std.specs.Prelude.{◌≡◌, ◌<◌, ◌≤◌, ◌+◌, ◌-◌, ◌++◌, ◌∷◌, [], length, IsOk, OnOk, OnErr};

use std::alloc::{AllocError, Global};
use std::marker::Model;

/// A list with room for more.
#[derive(Debug, Drop)]
pub struct Reserved<T> {
    items: Vec<T>,
}

impl<T> Model for Reserved<T> {
    ghost use Rattle.std.specs.Prelude.{vec_len, vec_capacity, ◌-◌};
    ghost use Rattle.tier_base.specs.Reserved.{ReservedItems};

    ghost Value = { ReservedItems T };

    ghost view = { λ s. record {
      items = s.items.items;
      room = vec_capacity s.items - vec_len s.items;
    } };
}

impl<T> Reserved<T> {
    /// Makes an empty list. It takes no memory yet.
    pub fn new(alloc: Global) -> Reserved<T>
        ensures { result.items ≡ [] }
    {
        Reserved {
            items: Vec::new(alloc),
        }
    }

    /// Makes room for at least so many more, if it isn't there. Fails only if memory runs out.
    pub fn reserve(&mut self, more: usize) -> Result<(), AllocError>
        ensures there { more ≤ self.old.room → IsOk result }
        ensures items { self.new.items ≡ self.old.items }
        ensures ok { OnOk result (more ≤ self.new.room) }
        ensures kept { self.old.room ≤ self.new.room }
        ensures err { OnErr result (self.new ≡ self.old) }
    {
        self.items.reserve(more)
    }

    /// Lends the items.
    pub fn items(&self) -> &[T]
        ensures { result.now ≡ self.now.items }
    {
        self.items.as_slice()
    }

    /// Counts the items.
    pub fn len(&self) -> usize
        ensures { result ≡ length self.now.items }
    {
        self.items.len()
    }

    /// Puts an item at the end, into the room that was made.
    pub fn put(&mut self, item: T)
        requires { 0 < self.old.room }
        ensures items { self.new.items ≡ self.old.items ++ item ∷ [] }
        ensures room { self.new.room ≡ self.old.room - 1 }
    {
        self.items.push_reserved(item);
    }
}
