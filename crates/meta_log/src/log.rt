//! The trait of a metadata log.
//!
//! A call is done as a whole or not at all. One that returns `Failed` may have been done; one that runs out of memory
//! changes nothing. No call reports raw bytes.

ghost use Rattle.std.specs.Prelude.{◌≡◌, length, drop, IfOk, OnOk, IsTrue};
ghost use Rattle.tier_base.specs.Device.{Control, RanQuietly, MayBeDone, Arms, FailsAsPlanned, fate_of};
ghost use Rattle.segment_meta.specs.Rules.{IsNote};
ghost use Rattle.meta_log.specs.declared.call.MetaCall.TheVariants.{Append, Read};
ghost use Rattle.meta_log.specs.Call.{call_code};
ghost use Rattle.meta_log.specs.Content.{Content, AreNotes, LeavesTold, AppendsNote, Keeps};

use segment_meta::Note;
use tier_base::{Items, Trouble};

/// The metadata events of a partition's remote segments, in order. After an `append` that returns `Failed` its event
/// is at the end or nowhere, all earlier ones stay, and any call may follow.
pub trait MetaLog: Drop {
    /// The events.
    ghost content: { Self → Content };

    /// The number of failed calls, the plan of faults, and the calls made.
    ghost control: { Self → Control call_code };

    /// Appends an event, and returns its position, counted from 0.
    fn append(&mut self, note: &Note) -> Result<u64, Trouble>
        requires { IsNote note.now }
        ensures control { RanQuietly Append (fate_of result) (control self.old) (control self.new) }
        ensures content { AppendsNote note.now (MayBeDone Append (fate_of result) (control self.old))
            (content self.old) (content self.new) }
        ensures place { IsTrue (content self.old).is_observable
            → IfOk result (λ at. at ≡ length (content self.old).notes) };

    /// Returns the events from a position on, none if the log ends there or before. After that a power cut leaves
    /// exactly the events that the log has.
    fn read(&mut self, at: u64) -> Result<Items<Note>, Trouble>
        ensures control { RanQuietly Read (fate_of result) (control self.old) (control self.new) }
        ensures content { Keeps (content self.old) (content self.new) }
        ensures left { IsTrue (content self.old).is_observable → OnOk result (LeavesTold (content self.new)) }
        ensures notes { IsTrue (content self.old).is_observable
            → IfOk result (λ notes. notes ≡ drop at (content self.old).notes) }
        ensures rules { IfOk result AreNotes };

    /// From the first `arm` on planned calls fail. Further calls of `arm` change nothing.
    fn arm(&mut self)
        ensures control { Arms (control self.old) (control self.new) }
        ensures content { Keeps (content self.old) (content self.new) };

    /// If its plan alone decides which calls fail, as many failed as the plan names of those that were made.
    ghost planned: { (log : Self) → FailsAsPlanned (control log) };
}
