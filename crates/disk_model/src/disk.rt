//! The trait of a disk: what its calls do to its files, and what a crash may leave.
//!
//! A crash leaves one of the disk's images. What is synced stays; past that a file may have any bytes and any length,
//! and what was cut, removed or created since may be as it was before. A call that returns `Failed` may have been
//! done or not. One that runs out of memory changes nothing.

ghost use Rattle.std.specs.Prelude.{◌≡◌, ◌+◌, ◌≤◌, List, [], ℕ, drop, IfOk, OnOk, IsTrue, Some, option_map};
ghost use Rattle.tier_base.specs.Device.{Control, Ran, RanQuietly, MayBeDone, NoCalls, Arms};
ghost use Rattle.tier_base.specs.Device.{FailsAsPlanned, fate_of, failing};
ghost use Rattle.disk_model.specs.declared.call.DiskCall.TheVariants.{Append, Sync, Read, Cut, Replace};
ghost use Rattle.disk_model.specs.declared.call.DiskCall.TheVariants.{Remove, List as Listing};
ghost use Rattle.disk_model.specs.Call.{call_code};
ghost use Rattle.tier_base.specs.Told.{NamesAllHeld, replaced, removed, last_read_after};
ghost use Rattle.disk_model.specs.Content.{Content, Lawful, Files, Image, Changes, Keeps, appended, HasGrown};
ghost use Rattle.disk_model.specs.Content.{cut_to, CutBack, Swapped, Gone, BeginsWith, part_of};

use bytes::Bytes;
use std::alloc::AllocError;
use tier_base::{Failed, FileName, Items, Trouble};

/// The files of a local log or of a metadata log, by name. After `Failed` the call's file reads as before or as if
/// the call was done, and the other files as before; after a failed sync nothing is promised to be durable. A
/// reserved call is used up all the same, and any call may follow.
pub trait Disk: Drop {
    /// The files, and what a crash may leave of them.
    ghost content: { Self → Content };

    /// The number of failed calls, the plan of faults, the calls made, and the bytes that the last read returned.
    ghost control: { Self → Control call_code };

    /// How many further calls of `sync`, `cut` and `remove` are reserved.
    ghost spare: { Self → ℕ };

    /// Appends bytes to a file, which is created if it is absent.
    fn append(&mut self, name: FileName, bytes: &[u8]) -> Result<(), Trouble>
        ensures control { RanQuietly Append (fate_of result)
            (control self.old) (control self.new) }
        ensures room { spare self.new ≡ spare self.old }
        ensures content { Changes name (appended bytes.now) HasGrown
            (MayBeDone Append (fate_of result) (control self.old))
            (content self.old) (content self.new) };

    /// Reserves memory for so many further calls of `sync`, `cut` and `remove`, which then can't run out of it. No
    /// plan can make this call fail.
    fn reserve(&mut self, calls: u32) -> Result<(), AllocError>
        ensures room { OnOk result (calls ≤ spare self.new) }
        ensures no_less { spare self.old ≤ spare self.new }
        ensures control { NoCalls (control self.old) (control self.new) }
        ensures content { Keeps (content self.old) (content self.new) };

    /// Makes a file's bytes durable. Does nothing if the file is absent.
    fn sync(&mut self, name: FileName) -> Result<(), Failed>
        requires { 1 ≤ spare self.old }
        ensures control { RanQuietly Sync (failing result) (control self.old) (control self.new) }
        ensures room { spare self.new + 1 ≡ spare self.old }
        ensures content { Keeps (content self.old) (content self.new) }
        ensures durable { OnOk result ((c : Files) → Image (content self.new) c
            → BeginsWith ((content self.old).files name) (c name)) };

    /// Returns a file's bytes from a position on, none past its end, or `None` if the file is absent.
    fn read(&mut self, name: FileName, at: u64) -> Result<Option<Bytes>, Trouble>
        ensures control { Ran Read (fate_of result) (control self.old) (control self.new) }
        ensures last_read { (control self.new).last_read
            ≡ last_read_after result (control self.old).last_read }
        ensures room { spare self.new ≡ spare self.old }
        ensures content { Keeps (content self.old) (content self.new) }
        ensures bytes { IsTrue (content self.old).is_observable → IfOk result (λ bytes. bytes
            ≡ option_map (drop at) ((content self.old).files name)) };

    /// Returns at most so many of the bytes that `read` returns, and fewer only if these end.
    fn read_part(&mut self, name: FileName, at: u64, most: u64) -> Result<Option<Bytes>, Trouble>
        ensures control { Ran Read (fate_of result) (control self.old) (control self.new) }
        ensures last_read { (control self.new).last_read
            ≡ last_read_after result (control self.old).last_read }
        ensures room { spare self.new ≡ spare self.old }
        ensures content { Keeps (content self.old) (content self.new) }
        ensures bytes { IsTrue (content self.old).is_observable → IfOk result (λ bytes. bytes
            ≡ option_map (part_of at most) ((content self.old).files name)) };

    /// Cuts a file to a length in bytes. Does nothing if the file is shorter or absent.
    fn cut(&mut self, name: FileName, len: u64) -> Result<(), Failed>
        requires { 1 ≤ spare self.old }
        ensures control { RanQuietly Cut (failing result) (control self.old) (control self.new) }
        ensures room { spare self.new + 1 ≡ spare self.old }
        ensures content { Changes name (cut_to len) (CutBack len)
            (MayBeDone Cut (failing result) (control self.old))
            (content self.old) (content self.new) };

    /// Creates a file with these bytes, or replaces the old one, atomically and durably.
    fn replace(&mut self, name: FileName, bytes: &[u8]) -> Result<(), Trouble>
        ensures control { RanQuietly Replace (fate_of result)
            (control self.old) (control self.new) }
        ensures room { spare self.new ≡ spare self.old }
        ensures content { Changes name (replaced bytes.now) (Swapped bytes.now)
            (MayBeDone Replace (fate_of result) (control self.old))
            (content self.old) (content self.new) }
        ensures durable { OnOk result ((c : Files) → Image (content self.new) c
            → c name ≡ Some bytes.now) };

    /// Removes a file. Does nothing if it is absent.
    fn remove(&mut self, name: FileName) -> Result<(), Failed>
        requires { 1 ≤ spare self.old }
        ensures control { RanQuietly Remove (failing result)
            (control self.old) (control self.new) }
        ensures room { spare self.new + 1 ≡ spare self.old }
        ensures content { Changes name removed Gone
            (MayBeDone Remove (failing result) (control self.old))
            (content self.old) (content self.new) };

    /// Lists the names of the files.
    fn list(&mut self) -> Result<Items<FileName>, Trouble>
        ensures control { RanQuietly Listing (fate_of result)
            (control self.old) (control self.new) }
        ensures room { spare self.new ≡ spare self.old }
        ensures content { Keeps (content self.old) (content self.new) }
        ensures names { IsTrue (content self.old).is_observable
            → IfOk result (λ names. NamesAllHeld (content self.old).files names) };

    /// Takes out the bytes that the last read returned, without using memory. None are kept then until the next read.
    /// No plan can make this call fail.
    fn take_last_read(&mut self) -> Bytes
        ensures taken { result ≡ (control self.old).last_read }
        ensures control { control self.new ≡ record (control self.old) { last_read = [] } }
        ensures room { spare self.new ≡ spare self.old }
        ensures content { Keeps (content self.old) (content self.new) };

    /// From the first `arm` on planned calls fail. Further calls of `arm` change nothing.
    fn arm(&mut self)
        ensures control { Arms (control self.old) (control self.new) }
        ensures room { spare self.new ≡ spare self.old }
        ensures content { Keeps (content self.old) (content self.new) };

    /// What holds of every disk's content.
    ghost lawful: { (disk : Self) → Lawful (content disk) };

    /// If its plan alone decides which calls fail, as many failed as the plan names of those that were made.
    ghost planned: { (disk : Self) → FailsAsPlanned (control disk) };
}
