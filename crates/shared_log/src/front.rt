//! A tree of batches behind those in front of it. Nothing of it is ever changed.

ghost use Rattle.std.specs.Prelude.{◌≡◌, ◌<◌, ◌≤◌, ◌++◌, ◌∷◌, [], Some, length, take, slice_get, IfOk, IfSome};
ghost use Rattle.shared_log.specs.Rests.{batches_in};

use crate::tree::Tree;
use bytes::Bytes;
use std::alloc::{AllocError, Global};
use std::marker::Model;
use std::rc::Rc;

/// A tree, what is in front of it, and how many batches both have.
#[cycle(front)]
#[derive(Debug, Drop)]
pub(crate) struct Front {
    len: usize,
    rest: Rest,
    tree: Rc<Tree>,
}

/// What is in front of a tree, if anything.
#[cycle(front)]
#[derive(Debug, Drop)]
pub(crate) enum Rest {
    Nothing,
    Behind(Rc<Front>),
}

impl Model for Front {
    ghost use Rattle.std.specs.Prelude.{◌≡◌, ◌≤◌, ◌++◌, ℕ, List, length};

    ghost Value = { List (List ℕ) };

    ghost use Rattle.shared_log.specs.Rests.{batches_in};

    ghost view = { λ f. batches_in f.rest ++ f.tree.value };

    ghost invariant = { λ f. (f.len ≡ length (batches_in f.rest ++ f.tree.value)) × (1 ≤ length f.tree.value) };

    ghost size = { length };

    ghost use Rattle.shared_log.specs.FrontFalls.{depth_le-length-batches};

    ghost size_decreases = { λ f h. depth_le-length-batches f.rest f.tree.value h.1 };
}

impl Rest {
    /// Counts the batches.
    pub(crate) fn len(&self) -> usize
        ensures { result ≡ length (batches_in self.now) }
    {
        match self {
            Rest::Nothing => 0,
            Rest::Behind(front) => front.len(),
        }
    }

    /// The same again.
    pub(crate) fn share(&self) -> Result<Rest, AllocError>
        ensures { IfOk result (λ rest. batches_in rest ≡ batches_in self.now) }
    {
        match self {
            Rest::Nothing => Ok(Rest::Nothing),
            Rest::Behind(front) => Ok(Rest::Behind(front.clone()?)),
        }
    }

    /// Lends a batch.
    pub(crate) fn get(&self, i: usize) -> &Bytes
        requires { i < length (batches_in self.now) }
        ensures { slice_get (batches_in self.now) i ≡ Some result.now }
    {
        match self {
            Rest::Nothing => unreachable!(),
            Rest::Behind(front) => front.get(i),
        }
    }
}

impl Front {
    /// Counts the batches.
    fn len(&self) -> usize
        ensures { result ≡ length self.now }
    {
        self.len
    }

    /// Lends a batch.
    fn get(&self, i: usize) -> &Bytes
        requires { i < length self.now }
        ensures { slice_get self.now i ≡ Some result.now }
    {
        let before = self.rest.len();
        match &self.rest {
            Rest::Behind(older) if i < before => older.get(i),
            _ => self.tree.get(i - before),
        }
    }

    /// The first batches, so many.
    #[tactic(auto, using(crate::proofs::Takes::take_front))]
    fn first(&self, alloc: Global, count: usize) -> Result<Rest, AllocError>
        ensures { IfOk result (λ new. batches_in new ≡ take count self.now) }
    {
        match &self.rest {
            Rest::Nothing => placed_first(alloc, Rest::Nothing, &self.tree, count),
            Rest::Behind(older) => {
                let before = older.len();
                if count <= before {
                    return older.first(alloc, count);
                }
                placed_first(alloc, self.rest.share()?, &self.tree, count - before)
            }
        }
    }

    /// Its tree and the one in front of that, where both are of one size, and what is in front of them.
    fn last_two(&self) -> Option<(&Rest, &Rc<Tree>, &Rc<Tree>)>
        ensures { IfSome result (λ two. self.now ≡ batches_in two.0.now ++ two.1.now.value ++ two.2.now.value) }
    {
        match &self.rest {
            Rest::Nothing => None,
            Rest::Behind(front) => {
                let (rest, older) = front.parts();
                if older.len() == self.tree.len() {
                    Some((rest, older, &self.tree))
                } else {
                    None
                }
            }
        }
    }

    /// What is in front of its tree, and that.
    fn parts(&self) -> (&Rest, &Rc<Tree>)
        ensures { self.now ≡ batches_in result.0.now ++ result.1.now.value }
    {
        (&self.rest, &self.tree)
    }
}

/// The first batches, so many.
pub(crate) fn first(alloc: Global, rest: &Rest, count: usize) -> Result<Rest, AllocError>
    ensures { IfOk result (λ new. batches_in new ≡ take count (batches_in rest.now)) }
{
    match rest {
        Rest::Nothing => Ok(Rest::Nothing),
        Rest::Behind(front) => front.first(alloc, count),
    }
}

/// Puts a batch behind others: over the last two trees where these are of one size, else as a tree of its own.
pub(crate) fn pushed(alloc: Global, rest: &Rest, batch: Bytes) -> Result<Rest, AllocError>
    ensures { IfOk result (λ new. batches_in new ≡ batches_in rest.now ++ batch ∷ []) }
{
    let Some((front, older, newer)) = last_two(rest) else {
        let tree = Rc::new(alloc, Tree::leaf(batch))?;
        return placed(alloc, rest.share()?, tree);
    };
    let tree = Tree::fork(older.clone()?, newer.clone()?, batch)?;
    placed(alloc, front.share()?, Rc::new(alloc, tree)?)
}

/// The last two trees, where they are of one size, and what is in front of them.
fn last_two(rest: &Rest) -> Option<(&Rest, &Rc<Tree>, &Rc<Tree>)>
    ensures { IfSome result (λ two. batches_in rest.now ≡ batches_in two.0.now ++ two.1.now.value ++ two.2.now.value) }
{
    match rest {
        Rest::Nothing => None,
        Rest::Behind(front) => front.last_two(),
    }
}

/// Puts a tree behind others.
pub(crate) fn placed(alloc: Global, rest: Rest, tree: Rc<Tree>) -> Result<Rest, AllocError>
    ensures { IfOk result (λ new. batches_in new ≡ batches_in rest ++ tree.value) }
{
    let Some(len) = rest.len().checked_add(tree.len()) else {
        return Err(AllocError);
    };
    let front = Front { len, rest, tree };
    Ok(Rest::Behind(Rc::new(alloc, front)?))
}

/// Puts the first batches of a tree, so many, behind others.
#[tactic(auto, using(crate::proofs::Takes::placed_within))]
fn placed_first(
    alloc: Global,
    rest: Rest,
    tree: &Rc<Tree>,
    count: usize,
) -> Result<Rest, AllocError>
    ensures { IfOk result (λ new. batches_in new ≡ batches_in rest ++ take count tree.now.value) }
{
    if count == 0 {
        return Ok(rest);
    }
    if tree.len() <= count {
        return placed(alloc, rest, tree.clone()?);
    }
    let Some((older, newer)) = tree.kids() else {
        return Ok(rest);
    };
    let before = older.len();
    if count <= before {
        return placed_first(alloc, rest, older, count);
    }
    let rest = placed(alloc, rest, older.clone()?)?;
    placed_first(alloc, rest, newer, count - before)
}
