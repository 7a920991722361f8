//! A vector that contracts see as the list of its items.

ghost use Rattle.std.specs.Prelude.{◌≡◌, ◌<◌, ◌++◌, ◌∷◌, [], ◌↔◌, length, slice_get};
ghost use Rattle.std.specs.Prelude.{slice_set, OnOk, OnErr, Some, IsTrue, IsNone};
ghost use Rattle.std.specs.Option.{option_to_list};
ghost use Rattle.std.specs.Borrow.{Lends, sem};
ghost use Rattle.tier_base.specs.contracts.items.Items.{the_row};

use std::alloc::{AllocError, Global};
use std::marker::Model;
use std::mem;

/// A list.
#[derive(Debug, Drop)]
pub struct Items<T> {
    items: Vec<T>,
}

impl<T> Model for Items<T> {
    ghost use Rattle.std.specs.Prelude.{List};

    ghost Value = { List T };

    ghost view = { λ s. s.items.items };
}

impl<T> Items<T> {
    /// Makes an empty list. It takes no memory yet.
    pub fn new(alloc: Global) -> Items<T>
        ensures { result ≡ [] }
    {
        Items {
            items: Vec::new(alloc),
        }
    }

    /// Takes the items over, without memory.
    pub fn from_vec(items: Vec<T>) -> Items<T>
        ensures { result ≡ items.items }
    {
        Items { items }
    }

    /// Gives the items back, without memory.
    pub fn into_vec(self) -> Vec<T>
        ensures { result.items ≡ self }
    {
        self.items
    }

    /// Counts the items.
    pub fn len(&self) -> usize
        ensures { result ≡ length self.now }
    {
        self.items.len()
    }

    /// Returns whether there are no items.
    pub fn is_empty(&self) -> bool
        ensures { IsTrue result ↔ (self.now ≡ []) }
    {
        self.items.is_empty()
    }

    /// Lends the items.
    pub fn as_slice(&self) -> &[T]
        ensures { result.now ≡ self.now }
    {
        self.items.as_slice()
    }

    /// Lends an item.
    pub fn get(&self, i: usize) -> &T
        requires { i < length self.now }
        ensures { slice_get self.now i ≡ Some result.now }
    {
        &self.items[i]
    }

    /// Lends an item to be changed. The list ends with what is last written there in its place.
    pub fn at_mut(&mut self, i: usize) -> &mut T
        requires { i < length self.old }
        ensures* writes { sem 𝓛
            (Lends (the_row T.row) T.row self.entry result (slice_set self.old i)) }
        ensures value { slice_get self.old i ≡ Some result.now }
    {
        &mut self.items[i]
    }

    /// Takes the last item off.
    pub fn pop(&mut self) -> Option<T>
        ensures items { self.old ≡ self.new ++ option_to_list result }
        ensures none { IsNone result ↔ (self.old ≡ []) }
    {
        self.items.pop()
    }
}

impl<T: Drop> Items<T> {
    /// Puts an item at the end. Fails only if memory runs out.
    pub fn push(&mut self, item: T) -> Result<(), AllocError>
        ensures ok { OnOk result (self.new ≡ self.old ++ item ∷ []) }
        ensures err { OnErr result (self.new ≡ self.old) }
    {
        self.items.push(item)?;
        Ok(())
    }

    /// Puts an item in the place of another, and returns that one.
    pub fn replace(&mut self, i: usize, item: T) -> T
        requires { i < length self.old }
        ensures now { self.new ≡ slice_set self.old i item }
        ensures before { slice_get self.old i ≡ Some result }
    {
        mem::replace(&mut self.items[i], item)
    }
}
