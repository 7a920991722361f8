//! The first object that is to go, in the order of the keys' texts.
//!
//! One pass keeps the first one so far, and its text.

ghost use Rattle.std.specs.Prelude.{◌≡◌, ◌↔◌, IfOk, OnOk, IsTrue};
ghost use Rattle.tier_audit.specs.Flaws.{is_stray, IsTextUpTo};
ghost use Rattle.tier_audit.specs.Strays.{FindsStray, Offers, ComesBehind, flaw_of};

use crate::verdict::Flaw;
use object_store::ObjectKey;
use remote_view::View;
use std::alloc::{AllocError, Global};
use tier_base::State;

/// An object that is to go, by its key, and the key's text.
#[derive(Drop)]
pub(crate) struct Stray {
    pub key: ObjectKey,
    pub text: Vec<u8>,
}

/// Finds the first object that is to go.
pub(crate) fn find_stray(
    alloc: Global,
    view: &View,
    keys: &[ObjectKey],
) -> Result<Option<Flaw>, AllocError>
    ensures { IfOk result (λ found. FindsStray view.now.entries keys.now found) }
{
    let mut first = None;
    for key in keys {
        if is_stray(view.state(key.id)) {
            offer(alloc, &mut first, key)?;
        }
    }
    match &first {
        Some(stray) => Ok(Some(flaw_of(view.state(stray.key.id), stray.key))),
        None => Ok(None),
    }
}

/// Whether an object of an id in this state, or without an entry, is to go.
fn is_stray(state: Option<State>) -> bool
    ensures { result ≡ is_stray state }
{
    match state {
        None | Some(State::DeleteFinished) => true,
        Some(_) => false,
    }
}

/// What is reported of such an object.
fn flaw_of(state: Option<State>, key: ObjectKey) -> Flaw
    ensures { result ≡ flaw_of state key }
{
    match state {
        None => Flaw::NoEntry { key },
        Some(_) => Flaw::Left { key },
    }
}

/// Makes a key the first one, unless that doesn't come after it.
fn offer(alloc: Global, first: &mut Option<Stray>, key: &ObjectKey) -> Result<(), AllocError>
    ensures { OnOk result (Offers key.now first.old first.new) }
{
    let text = key.to_text(alloc)?;
    if !is_behind(text.as_slice(), first) {
        *first = Some(Stray { key: *key, text });
    }
    Ok(())
}

/// Whether the first one so far doesn't come after a text.
fn is_behind(text: &[u8], first: &Option<Stray>) -> bool
    ensures { IsTrue result ↔ ComesBehind text.now first.now }
{
    match first {
        Some(first) => is_up_to(first.text.as_slice(), text),
        None => false,
    }
}

/// Whether a text doesn't come after another.
fn is_up_to(text: &[u8], other: &[u8]) -> bool
    ensures { IsTrue result ↔ IsTextUpTo text.now other.now }
{
    !text.cmp(other).is_gt()
}
