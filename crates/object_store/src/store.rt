//! The trait of an object store.
//!
//! A call is done as a whole or not at all. One that returns `Failed` may have been done; one that runs out of memory
//! changes nothing.

ghost use Rattle.std.specs.Prelude.{◌≡◌, take, drop, IfOk, IsTrue, option_map};
ghost use Rattle.tier_base.specs.Device.{Control, Ran, RanQuietly, MayBeDone, Arms, FailsAsPlanned, fate_of, failing};
ghost use Rattle.object_store.specs.declared.call.StoreCall.TheVariants.{Put, Get, Delete, Keys};
ghost use Rattle.object_store.specs.Call.{call_code};
ghost use Rattle.tier_base.specs.Told.{NamesAllHeld, replaced, removed, last_read_after};
ghost use Rattle.object_store.specs.Content.{Content, Changes, Keeps};

use bytes::Bytes;
use tier_base::{Failed, Items, ObjectKey, Trouble};

/// The objects of a partition's remote segments, by key. After `Failed` the call's object is as before or as if the
/// call was done, the others are as before, and any call may follow.
pub trait Store: Drop {
    /// The objects.
    ghost content: { Self → Content };

    /// The number of failed calls, the plan of faults, the calls made, and the bytes that the last read returned.
    ghost control: { Self → Control call_code };

    /// Stores an object, in place of the old one if there is one.
    fn put(&mut self, key: &ObjectKey, bytes: &Bytes) -> Result<(), Trouble>
        ensures control { RanQuietly Put (fate_of result) (control self.old) (control self.new) }
        ensures content { Changes key.now (replaced bytes.now)
            (MayBeDone Put (fate_of result) (control self.old))
            (content self.old) (content self.new) };

    /// Returns an object's bytes from a position on, none past its end, or `None` if the object is absent.
    fn get(&mut self, key: &ObjectKey, at: u64) -> Result<Option<Bytes>, Trouble>
        ensures control { Ran Get (fate_of result) (control self.old) (control self.new) }
        ensures last_read { (control self.new).last_read
            ≡ last_read_after result (control self.old).last_read }
        ensures content { Keeps (content self.old) (content self.new) }
        ensures bytes { IsTrue (content self.old).is_observable → IfOk result (λ bytes. bytes
            ≡ option_map (drop at) ((content self.old).objects key.now)) };

    /// Returns at most so many of the bytes that `get` returns, and fewer only if these end.
    fn get_part(&mut self, key: &ObjectKey, at: u64, most: u64) -> Result<Option<Bytes>, Trouble>
        ensures control { Ran Get (fate_of result) (control self.old) (control self.new) }
        ensures last_read { (control self.new).last_read
            ≡ last_read_after result (control self.old).last_read }
        ensures content { Keeps (content self.old) (content self.new) }
        ensures bytes { IsTrue (content self.old).is_observable → IfOk result (λ bytes. bytes
            ≡ option_map (λ object. take most (drop at object))
            ((content self.old).objects key.now)) };

    /// Deletes an object. Does nothing if it is absent.
    fn delete(&mut self, key: &ObjectKey) -> Result<(), Failed>
        ensures control { RanQuietly Delete (failing result) (control self.old) (control self.new) }
        ensures content { Changes key.now removed
            (MayBeDone Delete (failing result) (control self.old))
            (content self.old) (content self.new) };

    /// Lists the keys of the objects.
    fn keys(&mut self) -> Result<Items<ObjectKey>, Trouble>
        ensures control { RanQuietly Keys (fate_of result) (control self.old) (control self.new) }
        ensures content { Keeps (content self.old) (content self.new) }
        ensures keys { IsTrue (content self.old).is_observable
            → IfOk result (λ keys. NamesAllHeld (content self.old).objects keys) };

    /// From the first `arm` on planned calls fail. Further calls of `arm` change nothing.
    fn arm(&mut self)
        ensures control { Arms (control self.old) (control self.new) }
        ensures content { Keeps (content self.old) (content self.new) };

    /// If its plan alone decides which calls fail, as many failed as the plan names of those that were made.
    ghost planned: { (store : Self) → FailsAsPlanned (control store) };
}
