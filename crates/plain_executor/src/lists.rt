//! Lists that are changed whole or not at all.

ghost use Rattle.std.specs.Prelude.{◌≡◌, ◌∷◌, take, IfOk, OnOk, OnErr};

use shared_log::Batches;
use std::alloc::{AllocError, Global};
use std::mem;
use tier_base::Items;

/// Puts an item before the others.
pub(crate) fn prepend<T: Drop>(alloc: Global, row: &mut Items<T>, item: T) -> Result<(), AllocError>
    ensures ok { OnOk result (row.new ≡ item ∷ row.old) }
    ensures err { OnErr result (row.new ≡ row.old) }
{
    let mut items = mem::replace(row, Items::new(alloc)).into_vec();
    let done = items.insert(0, item).is_ok();
    *row = Items::from_vec(items);
    if done { Ok(()) } else { Err(AllocError) }
}

/// The first batches of a log, so many, in a list that shares them.
pub(crate) fn first(alloc: Global, log: &Batches, count: usize) -> Result<Batches, AllocError>
    ensures { IfOk result (λ batches. batches ≡ take count log.now) }
{
    let mut batches = log.share()?;
    batches.truncate(alloc, count)?;
    Ok(batches)
}
