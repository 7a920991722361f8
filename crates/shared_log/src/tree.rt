//! A tree of batches, oldest first. Several trees and lists may have it in common, so it is never changed.

ghost use Rattle.std.specs.Prelude.{◌≡◌, ◌<◌, ◌≤◌, ◌++◌, ◌∷◌, [], Some, length, slice_get, None, ℕ, List, IfOk, IfSome};

use bytes::Bytes;
use std::alloc::{AllocError, Global};
use std::marker::Model;
use std::rc::Rc;

/// A tree, and how many batches it has.
#[cycle(tree)]
#[derive(Debug, Drop)]
pub(crate) struct Tree {
    len: usize,
    node: Node,
}

/// A batch, alone or behind those of two trees, the older one first.
#[cycle(tree)]
#[derive(Debug, Drop)]
pub(crate) enum Node {
    Leaf(Bytes),
    Fork(Rc<Tree>, Rc<Tree>, Bytes),
}

impl Model for Tree {
    ghost use Rattle.std.specs.Prelude.{◌≡◌, ◌≤◌, ℕ, List, length};

    ghost Value = { List (List ℕ) };

    ghost use Rattle.shared_log.specs.Trees.{items};

    ghost view = { λ t. items t.node };

    ghost invariant = { λ t. (t.len ≡ length (items t.node)) × (1 ≤ t.len) };

    ghost size = { length };

    ghost use Rattle.shared_log.specs.TreeFalls.{depth_le-length-items};

    ghost size_decreases = { λ t h. depth_le-length-items t.node };
}

impl Tree {
    /// A tree of one batch.
    pub(crate) fn leaf(batch: Bytes) -> Tree
        ensures { result ≡ batch ∷ [] }
    {
        Tree {
            len: 1,
            node: Node::Leaf(batch),
        }
    }

    /// A batch behind those of two trees.
    pub(crate) fn fork(older: Rc<Tree>, newer: Rc<Tree>, batch: Bytes) -> Result<Tree, AllocError>
        ensures { IfOk result (λ t. t ≡ older.value ++ newer.value ++ batch ∷ []) }
    {
        let Some(before) = older.len().checked_add(newer.len()) else {
            return Err(AllocError);
        };
        let Some(len) = before.checked_add(1) else {
            return Err(AllocError);
        };
        Ok(Tree {
            len,
            node: Node::Fork(older, newer, batch),
        })
    }

    /// Counts the batches, of which there is one at least.
    pub(crate) fn len(&self) -> usize
        ensures is { result ≡ length self.now }
        ensures some { 1 ≤ result }
    {
        self.len
    }

    /// Lends a batch.
    pub(crate) fn get(&self, i: usize) -> &Bytes
        requires { i < length self.now }
        ensures { slice_get self.now i ≡ Some result.now }
    {
        match &self.node {
            Node::Leaf(batch) => batch,
            Node::Fork(older, newer, batch) => {
                let before = older.len();
                if i < before {
                    return older.get(i);
                }
                let at = i - before;
                if at < newer.len() {
                    newer.get(at)
                } else {
                    batch
                }
            }
        }
    }

    /// The two trees before the last batch, the older one first.
    pub(crate) fn kids(&self) -> Option<(&Rc<Tree>, &Rc<Tree>)>
        ensures two { IfSome result (λ kids. (batch : List ℕ)
            × (self.now ≡ kids.0.now.value ++ kids.1.now.value ++ batch ∷ [])) }
        ensures one { result ≡ None → length self.now ≡ 1 }
    {
        match &self.node {
            Node::Leaf(_) => None,
            Node::Fork(older, newer, _) => Some((older, newer)),
        }
    }
}
