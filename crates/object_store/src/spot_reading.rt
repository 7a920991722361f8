//! Reading a part of a remote segment, and nothing else of its object.
//!
//! The object may be shorter than its layout says. Then fewer bytes are returned than the part should have, and the
//! object is damaged where they end. So test what was returned with `short` or `short_in` before you look into the
//! bytes.

ghost use Rattle.std.specs.Prelude.{◌≡◌, ◌+◌, ◌-◌, ◌<◌, ◌^◌, min, option_map};
ghost use Rattle.object_store.specs.Calls.{Gets};
ghost use Rattle.object_store.specs.Place.{all_of, some_of, short_at, short_of, short_in};

use crate::placing::Spot;
use crate::store::Store;
use bytes::Bytes;
use tier_base::Trouble;

/// Returns a part's bytes, fewer if its object ends before, or `None` if the object is absent. Fails if a device call
/// fails or memory runs out.
pub fn get_spot<S: Store>(store: &mut S, spot: &Spot) -> Result<Option<Bytes>, Trouble>
    ensures { Gets S.content S.control spot.now.key (all_of spot.now) result store.old store.new }
{
    match spot.len {
        Some(len) => store.get_part(&spot.key, spot.at, len),
        None => store.get(&spot.key, spot.at),
    }
}

/// Returns at most `most` of a part's bytes, from a position in the part on. Fails if a device call fails or memory
/// runs out.
pub fn get_in_spot<S: Store>(
    store: &mut S,
    spot: &Spot,
    from: u64,
    most: u64,
) -> Result<Option<Bytes>, Trouble>
    requires { spot.now.at + from < 2 ^ 64 }
    ensures { Gets S.content S.control spot.now.key (some_of spot.now from most) result store.old store.new }
{
    store.get_part(
        &spot.key,
        spot.at + from,
        spot.owed(from, most).unwrap_or(most),
    )
}

impl Spot {
    /// Where in the object bytes of the part are missing, if only these were returned; `None` if none are.
    pub fn short(&self, bytes: &[u8]) -> Option<u64>
        requires { self.now.at < 2 ^ 34 }
        ensures { result ≡ short_of self.now bytes.now }
    {
        short_at(self.at, self.len, bytes.len() as u64)
    }

    /// Where in the object bytes are missing, if of at most `most` bytes from a position in the part on only these
    /// were returned; `None` if none are.
    pub fn short_in(&self, from: u64, most: u64, bytes: &[u8]) -> Option<u64>
        requires { self.now.at + from < 2 ^ 63 }
        ensures { result ≡ short_in self.now from most bytes.now }
    {
        short_at(self.at + from, self.owed(from, most), bytes.len() as u64)
    }

    /// How many bytes are of a whole part, at most so many from a place in it on, where its length is reported.
    fn owed(&self, from: u64, most: u64) -> Option<u64>
        ensures { result ≡ option_map (λ len. min most (len - from)) self.now.len }
    {
        match self.len {
            Some(len) => Some(most.min(len.saturating_sub(from))),
            None => None,
        }
    }
}

/// Where bytes are lacking, of which fewer are from a place on than are owed.
fn short_at(at: u64, owed: Option<u64>, got: u64) -> Option<u64>
    requires { at + got < 2 ^ 64 }
    ensures { result ≡ short_at at owed got }
{
    match owed {
        Some(owed) if got < owed => Some(at + got),
        _ => None,
    }
}
