//! Where the next planned fault of each kind of call is in a plan. It moves forward as calls are made, so that all of
//! them together pass over the plan once for each kind.

ghost use Rattle.std.specs.Prelude.{◌≡◌, ◌^◌, ◌≤◌, ◌<◌, ◌&&◌, ◌==◌, if◌then◌else◌, ℕ, None, drop};
ghost use Rattle.std.proofs.Math.ListN.{get_or, set};
ghost use Rattle.tier_base.specs.Counts.{counted};
ghost use Rattle.tier_base.specs.Device.{planned};
ghost use Rattle.tier_base.specs.Faults.{NumbersFit};
ghost use Rattle.tier_base.specs.Nexts.{rises_from, coming, IsNextFault, AreNext, said_first};

use crate::planned::{CallKind, Planned};

/// Each number of a plan is one of 32 bits: it reads them, and does nothing else.
pub(crate) fn fit<K: CallKind>(plan: &[Planned<K>])
    ensures { NumbersFit plan.now }
{
    for item in plan {
        fits(item.number);
    }
}

/// A number of 32 bits.
fn fits(number: u32)
    ensures { number < 2 ^ 32 }
{
    let _number = number;
}

/// The first planned call of each kind.
pub(crate) fn all_nexts<K: CallKind>(plan: &[Planned<K>]) -> [Option<usize>; 8]
    ensures { (kind : ℕ) → IsNextFault K.code kind 0 plan.now (get_or result kind None) }
{
    let mut nexts = [None; 8];
    for kind in 0..8usize {
        nexts[kind] = first_next(plan, kind);
    }
    nexts
}

/// The first planned call of a kind.
fn first_next<K: CallKind>(plan: &[Planned<K>], kind: usize) -> Option<usize>
    ensures { IsNextFault K.code kind 0 plan.now result }
{
    if rises(plan, kind) {
        Some(skip(plan, kind, 0, 0))
    } else {
        None
    }
}

/// The next planned call of a kind, once more of them are made.
#[tactic(auto, using(crate::proofs::Coming::next_later))]
fn next_after<K: CallKind>(
    plan: &[Planned<K>],
    kind: usize,
    made: u64,
    next: Option<usize>,
) -> Option<usize>
    ensures { (before : ℕ) → before ≤ made
        → IsNextFault K.code kind before plan.now next → IsNextFault K.code kind made plan.now result }
{
    let at = next?;
    Some(skip(plan, kind, made, at))
}

/// Whether the numbers of a kind's calls don't fall along a plan.
fn rises<K: CallKind>(plan: &[Planned<K>], kind: usize) -> bool
    ensures { result ≡ rises_from K.code kind 0 plan.now }
{
    let mut low = 0;
    for item in plan {
        if item.call.to_code() == kind {
            if item.number < low {
                return false;
            }
            low = item.number;
        }
    }
    true
}

/// The place at or past `from` of the next call of a kind whose number is past those made, or the plan's end.
fn skip<K: CallKind>(plan: &[Planned<K>], kind: usize, made: u64, from: usize) -> usize
    ensures { drop result plan.now ≡ coming K.code kind made (drop from plan.now) }
{
    let mut at = from;
    while at < plan.len() {
        let item = plan[at];
        if item.call.to_code() == kind && u64::from(item.number) > made {
            return at;
        }
        at += 1;
    }
    at
}

/// What a plan says of a kind's next call, where so many were made and its next planned one is there.
#[tactic(auto, using(crate::proofs::Coming::said_next))]
pub(crate) fn said<K: CallKind>(
    plan: &[Planned<K>],
    call: K,
    made: u64,
    next: Option<usize>,
) -> Option<bool>
    requires { IsNextFault K.code (K.code call) made plan.now next }
    ensures { result ≡ planned K.code call (counted made 1) plan.now }
{
    match next {
        Some(at) if made < u64::MAX => said_at(plan, at, made + 1),
        _ => find(plan, call, made.saturating_add(1)),
    }
}

/// What the call at a place says, where it has this number.
fn said_at<K: CallKind>(plan: &[Planned<K>], at: usize, number: u64) -> Option<bool>
    ensures { result ≡ said_first number (drop at plan.now) }
{
    match plan.get(at) {
        Some(item) if u64::from(item.number) == number => Some(item.after),
        _ => None,
    }
}

/// What a plan says of the call with this number.
fn find<K: CallKind>(plan: &[Planned<K>], call: K, number: u64) -> Option<bool>
    ensures { result ≡ planned K.code call number plan.now }
{
    let code = call.to_code();
    for item in plan {
        if item.call.to_code() == code && u64::from(item.number) == number {
            return Some(item.after);
        }
    }
    None
}

/// Counts a call of a kind where planned calls fail.
pub(crate) fn count_if<K: CallKind>(
    armed: bool,
    plan: &[Planned<K>],
    kind: usize,
    counts: &mut [u64; 8],
    nexts: &mut [Option<usize>; 8],
)
    requires small { kind < 8 }
    requires are { AreNext K.code plan.now counts.old nexts.old }
    ensures are { AreNext K.code plan.now counts.new nexts.new }
    ensures made { (other : ℕ) → get_or counts.new other 0 ≡ if armed && (kind == other)
        then counted (get_or counts.old other 0) 1 else get_or counts.old other 0 }
{
    if armed {
        count(plan, kind, counts, nexts);
    }
}

/// Counts a call of a kind.
fn count<K: CallKind>(
    plan: &[Planned<K>],
    kind: usize,
    counts: &mut [u64; 8],
    nexts: &mut [Option<usize>; 8],
)
    requires small { kind < 8 }
    requires are { AreNext K.code plan.now counts.old nexts.old }
    ensures counts { counts.new ≡ set counts.old kind (counted (get_or counts.old kind 0) 1) }
    ensures are { AreNext K.code plan.now counts.new nexts.new }
{
    let made = counts[kind].saturating_add(1);
    counts[kind] = made;
    nexts[kind] = next_after(plan, kind, made, nexts[kind]);
}
