//! A registry's view read from its file. The module Reading of specs/ says which bytes are valid, and Spelling has the
//! table.
//!
//! The fields are read from left to right, so the first fault is reported. It takes no memory.

ghost use Rattle.std.specs.Prelude.{◌≡◌, ◌≤◌, ◌<◌, ◌^◌, IfOk};
ghost use Rattle.registry.specs.View.{IsView};
ghost use Rattle.registry_file.specs.Reading.{sync_may as sync_may_be, front_at, marks_at, end_at, eight_at};
ghost use Rattle.registry_file.specs.Reading.{joined as joined_of, view_in, seen};

use crate::fields::{read_u8, read_u16, read_u32, read_u64};
use crate::parts::{Front, Marks};
use crate::refusal::RegFileRefusal::{self, Bad};
use registry::RegView;
use tier_base::{BrokerId, OFFSET_LIMIT};

/// TLR1, the first four bytes.
const TAG: u32 = 0x544C_5231;
/// The most brokers of a partition.
const MOST_BROKERS: u16 = 8;
/// Epochs are below 2^31.
const EPOCH_BOUND: u32 = 1 << 31;
/// Where the acknowledged ends begin: 4 + 2 + 4 + 2 + 8 + 8 + 1.
const ENDS: u32 = 29;
/// The bytes of an acknowledged end.
const END: u32 = 8;

/// The view that these bytes are, or the place of their first fault.
pub fn reg_decode(bytes: &[u8]) -> Result<RegView, RegFileRefusal>
    ensures exact { result ≡ view_in bytes.now }
    ensures rules { IfOk result IsView }
{
    view(bytes)
}

#[tactic(auto, unfolding(crate::specs::Reading::view_in))]
fn view(bytes: &[u8]) -> Result<RegView, RegFileRefusal>
    ensures { result ≡ view_in bytes.now }
{
    let (front, rest) = front(bytes)?;
    let (marks, rest) = marks(front.brokers, front.leader, rest)?;
    let (acked, rest) = ends(front.brokers, rest)?;
    let [] = rest else {
        return Err(Bad {
            at: ENDS + END * front.brokers as u32,
        });
    };
    Ok(joined(front, marks, acked))
}

/// A view out of its parts.
fn joined(front: Front, marks: Marks, acked: [u64; 8]) -> RegView
    ensures { result ≡ joined_of front marks acked }
{
    RegView {
        brokers: front.brokers,
        epoch: front.epoch,
        leader: front.leader,
        in_sync: marks.in_sync,
        acked,
        mark: marks.mark,
        start: marks.start,
    }
}

/// What precedes the marks.
#[tactic(auto, unfolding(crate::specs::Reading::front_at))]
fn front(bytes: &[u8]) -> Result<(Front, &[u8]), RegFileRefusal>
    ensures exact { seen (λ x. (x.0, x.1.now)) result ≡ front_at bytes.now }
    ensures few { IfOk result (λ x. x.0.brokers ≤ 8) }
    ensures leader { IfOk result (λ x. x.0.leader.0 < x.0.brokers) }
{
    let (tag, rest) = read_u32(bytes, 0)?;
    if tag != TAG {
        return Err(Bad { at: 0 });
    }
    let (brokers, rest) = read_u16(rest, 4)?;
    if brokers == 0 || brokers > MOST_BROKERS {
        return Err(Bad { at: 4 });
    }
    let (epoch, rest) = read_u32(rest, 6)?;
    if epoch >= EPOCH_BOUND {
        return Err(Bad { at: 6 });
    }
    let (leader, rest) = read_u16(rest, 10)?;
    if leader >= brokers {
        return Err(Bad { at: 10 });
    }
    let leader = BrokerId(leader);
    Ok((
        Front {
            brokers,
            epoch,
            leader,
        },
        rest,
    ))
}

/// Whether the brokers in sync, of so many, may be these under this leader.
fn sync_may(brokers: u16, leader: BrokerId, bits: u8) -> bool
    requires few { brokers ≤ 8 }
    requires leader { leader.0 < brokers }
    ensures { result ≡ sync_may_be brokers leader.0 bits }
{
    (bits as u16) < 1 << brokers && bits >> leader.0 & 1 == 1
}

/// The marks, and who is in sync of so many brokers under this leader.
#[tactic(auto, unfolding(crate::specs::Reading::marks_at))]
fn marks(brokers: u16, leader: BrokerId, bytes: &[u8]) -> Result<(Marks, &[u8]), RegFileRefusal>
    requires few { brokers ≤ 8 }
    requires leader { leader.0 < brokers }
    ensures { seen (λ x. (x.0, x.1.now)) result ≡ marks_at brokers leader.0 bytes.now }
{
    let (mark, rest) = read_u64(bytes, 12)?;
    if mark > OFFSET_LIMIT {
        return Err(Bad { at: 12 });
    }
    let (start, rest) = read_u64(rest, 20)?;
    if start > mark {
        return Err(Bad { at: 20 });
    }
    let (in_sync, rest) = read_u8(rest, 28)?;
    if !sync_may(brokers, leader, in_sync) {
        return Err(Bad { at: 28 });
    }
    Ok((
        Marks {
            mark,
            start,
            in_sync,
        },
        rest,
    ))
}

/// The acknowledged end at a place.
fn end(at: u32, bytes: &[u8]) -> Result<(u64, &[u8]), RegFileRefusal>
    ensures { seen (λ x. (x.0, x.1.now)) result ≡ end_at at bytes.now }
{
    let (end, rest) = read_u64(bytes, at)?;
    if end > OFFSET_LIMIT {
        return Err(Bad { at });
    }
    Ok((end, rest))
}

/// The acknowledged ends of so many brokers, and 0 past them.
fn ends(count: u16, bytes: &[u8]) -> Result<([u64; 8], &[u8]), RegFileRefusal>
    requires { count ≤ 8 }
    ensures { seen (λ x. (x.0, x.1.now)) result ≡ eight_at count bytes.now }
{
    let mut acked = [0; 8];
    let mut rest = bytes;
    for b in 0..count {
        let (end, behind) = end(ENDS + END * b as u32, rest)?;
        acked[b as usize] = end;
        rest = behind;
    }
    Ok((acked, rest))
}
