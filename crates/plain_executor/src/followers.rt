//! The rows of a follower that comes to where its log meets the leader's, and copies from there on, which aren't
//! refused.

ghost use Rattle.std.specs.Prelude.{◌≡◌, ◌≤◌, ◌==◌, ◌&&◌, not, ℕ, List, take, drop, length, option_map, Some, None, IfSome};
ghost use Rattle.std.specs.Option.{option_copied};
ghost use Rattle.log_terms.specs.Log.{IsConsecutive, end_of};
ghost use Rattle.registry.specs.Calls.{when};
ghost use Rattle.registry.specs.declared.registry.Replica.{Replica};
ghost use Rattle.plain_log.specs.declared.command.Command.{Command};
ghost use Rattle.plain_log.specs.Ends.{common};
ghost use Rattle.plain_log.specs.Fetch.{is_within};
ghost use Rattle.plain_log.specs.State.{path_of};
ghost use Rattle.plain_log.specs.RowsOfFollowers.{cut_to, ends_as, extended, was_passed};
ghost use Rattle.plain_log.specs.RowsOfFollowers.{rebuilt, copied, join_row, follow_row};
ghost use Rattle.plain_log.specs.Safe.{PlainSafe};
ghost use Rattle.plain_executor.specs.Change.{AreMatching, MatchesPaths, changed, cut, path_in};

use crate::change::{Change, given};
use crate::ends::{count_up_to, end, end_in};
use crate::part::Part;
use crate::paths::path;
use crate::reads::fits_limit;
use crate::refusals::leading_end;
use plain_log::{Answer, Broker, PlainSnapshot, State, followed_in};

/// How many batches two logs have in common: those up to the last place where both have the same one.
#[tactic(auto, using(crate::proofs::Commons::common_before, crate::proofs::Commons::common_up_to))]
fn count_common(log: &Part, other: &Part) -> usize
    requires { AreMatching log.now other.now }
    ensures within { result ≤ length log.now }
    ensures is { common log.now other.now ≡ take result log.now }
{
    let mut count = log.len().min(other.len());
    while count > 0 && log.get(count - 1).as_slice() != other.get(count - 1).as_slice() {
        count -= 1;
    }
    count
}

/// Where a join cuts the log that is reported to end at n.
pub(crate) fn cut_at(p: &State, x: &Broker, n: u64) -> Option<(u32, usize)>
    requires { MatchesPaths p.now x.now }
    ensures { cut_to p.now x.now n ≡ option_map (λ at. cut x.now at.0 at.1 n) result }
{
    let epoch = followed_in(x.role)?;
    let path = path(p.paths.as_slice(), epoch)?;
    let log = Part::of(&x.log);
    let count = count_common(&log, &Part::of(path));
    if u128::from(n) == end_in(&log.first(count)) {
        Some((epoch, count))
    } else {
        None
    }
}

/// Whether the log ends as it was recorded.
fn ends_so(x: &Broker, recorded: &PlainSnapshot) -> bool
    ensures { result ≡ ends_as x.now recorded.now }
{
    end(&x.log) == u128::from(recorded.end)
}

/// Whether it ends elsewhere, here.
fn has_passed(x: &Broker, recorded: &PlainSnapshot, n: u64) -> bool
    ensures { result ≡ (not (ends_as x.now recorded.now) && (n == end_of x.now.log)) }
{
    !ends_so(x, recorded) && u128::from(n) == end(&x.log)
}

/// How the log becomes longer that ends at n then: as the first batches, so many, of the path of this epoch.
fn longer_to(p: &State, x: &Broker, n: u64) -> Option<(u32, usize)>
    requires { (e : ℕ) (path : List (List ℕ)) → path_of p.now.paths e ≡ Some path → IsConsecutive 0 path }
    ensures within { IfSome result (λ at. at.1 ≤ length (path_in p.now at.0)) }
    ensures is { extended p.now x.now n ≡ option_map
        (λ at. record x.now { log = take at.1 (path_in p.now at.0) }) result }
{
    let epoch = followed_in(x.role)?;
    let path = path(p.paths.as_slice(), epoch)?;
    let path = Part::of(path);
    let count = count_up_to(n, &path);
    if end_in(&path.first(count)) == u128::from(n) && end(&x.log) < u128::from(n) {
        Some((epoch, count))
    } else {
        None
    }
}

/// Whether the log start offset has reached n since the command began.
fn was_passed_by(p: &State, recorded: &PlainSnapshot, n: u64) -> bool
    ensures { result ≡ was_passed p.now recorded.now n }
{
    recorded.start < n && n <= p.registry.start
}

/// How the log is restarted at n.
fn rebuilt_to(p: &State, x: &Broker, recorded: &PlainSnapshot, n: u64) -> Option<(u32, usize)>
    requires { (e : ℕ) (path : List (List ℕ)) → path_of p.now.paths e ≡ Some path → IsConsecutive 0 path }
    ensures { rebuilt p.now x.now recorded.now n
        ≡ option_map (λ at. record x.now { log = take at.1 (path_in p.now at.0) }) result }
{
    let at = longer_to(p, x, n)?;
    if ends_so(x, recorded) && !was_passed_by(p, recorded, n) {
        Some(at)
    } else {
        None
    }
}

/// What the first turn of a join changes.
fn join_first(p: &State, b: usize, x: &Broker, answer: &Answer) -> Option<Change>
    requires { MatchesPaths p.now x.now }
    ensures { (s : Replica) (command : Command)
        → join_row p.now b x.now None answer.now ≡ option_map (changed p.now b x.now s command) result }
{
    match answer {
        Answer::DiskFaultAt(n) => match cut_at(p, x, *n) {
            Some(_) => Some(Change::Breaks(x.flushed_end.min(*n))),
            None => None,
        },
        Answer::Cut(n) => match cut_at(p, x, *n) {
            Some((epoch, count)) => Some(Change::Cuts {
                epoch,
                count,
                end: *n,
            }),
            None => None,
        },
        _ => None,
    }
}

/// What a later turn of a join changes.
fn join_later(
    p: &State,
    b: usize,
    x: &Broker,
    recorded: &PlainSnapshot,
    answer: &Answer,
) -> Option<Change>
    requires { (e : ℕ) (path : List (List ℕ)) → path_of p.now.paths e ≡ Some path → IsConsecutive 0 path }
    ensures { (s : Replica) (command : Command)
        → join_row p.now b x.now (Some recorded.now) answer.now ≡ option_map (changed p.now b x.now s command) result }
{
    let on = ends_so(x, recorded);
    match answer {
        Answer::Passed(n) => given(has_passed(x, recorded, *n), Change::Same),
        Answer::BelowStart(start) => given(
            on && *start == p.registry.start && recorded.start < *start,
            Change::Same,
        ),
        Answer::MetaFault | Answer::StoreFault | Answer::Damaged(..) => given(on, Change::Same),
        Answer::DiskFaultAt(n) => match rebuilt_to(p, x, recorded, *n) {
            Some((epoch, count)) => Some(Change::BreaksLonger { epoch, count }),
            None => None,
        },
        Answer::Rebuilt(n) => match rebuilt_to(p, x, recorded, *n) {
            Some((epoch, count)) => Some(Change::Extends {
                epoch,
                count,
                flushed_end: *n,
            }),
            None => None,
        },
        _ => None,
    }
}

/// What a join changes.
pub(crate) fn join(
    p: &State,
    b: usize,
    x: &Broker,
    recorded: Option<&PlainSnapshot>,
    answer: &Answer,
) -> Option<Change>
    requires paths { (e : ℕ) (path : List (List ℕ)) → path_of p.now.paths e ≡ Some path → IsConsecutive 0 path }
    requires matches { MatchesPaths p.now x.now }
    ensures { (s : Replica) (command : Command)
        → join_row p.now b x.now (option_copied recorded.entry) answer.now
        ≡ option_map (changed p.now b x.now s command) result }
{
    match recorded {
        None => join_first(p, b, x, answer),
        Some(recorded) => join_later(p, b, x, recorded, answer),
    }
}

/// What the first turn of a follow changes: nothing.
fn follow_first(p: &State, x: &Broker, answer: &Answer) -> bool
    requires safe { PlainSafe p.now }
    ensures { (b limit : ℕ) → follow_row p.now b x.now limit None answer.now ≡ when result p.now }
{
    match answer {
        Answer::Moved(n) => end(&x.log) < u128::from(*n) && *n <= leading_end(p),
        Answer::DiskFault | Answer::Damaged(..) => true,
        _ => false,
    }
}

/// Whether the batches after the first so many, up to others, are one, or several that fit the limit.
fn adds_within(limit: u64, path: &Part, from: usize, to: usize) -> bool
    requires { to ≤ length path.now }
    ensures { result ≡ is_within limit (drop from (take to path.now)) }
{
    if to <= from {
        return false;
    }
    fits_limit(limit, &path.first(to).after(from))
}

/// How a follow's copy makes the log longer, which ends at n then.
fn copied_to(
    p: &State,
    x: &Broker,
    recorded: &PlainSnapshot,
    limit: u64,
    n: u64,
) -> Option<(u32, usize)>
    requires { (e : ℕ) (path : List (List ℕ)) → path_of p.now.paths e ≡ Some path → IsConsecutive 0 path }
    ensures { copied p.now x.now recorded.now limit n
        ≡ option_map (λ at. record x.now { log = take at.1 (path_in p.now at.0) }) result }
{
    let (epoch, count) = longer_to(p, x, n)?;
    let path = path(p.paths.as_slice(), epoch)?;
    if ends_so(x, recorded) && adds_within(limit, &Part::of(path), x.log.len(), count) {
        Some((epoch, count))
    } else {
        None
    }
}

/// What a follow changes.
pub(crate) fn follow(
    p: &State,
    x: &Broker,
    limit: u32,
    recorded: Option<&PlainSnapshot>,
    answer: &Answer,
) -> Option<Change>
    requires paths { (e : ℕ) (path : List (List ℕ)) → path_of p.now.paths e ≡ Some path → IsConsecutive 0 path }
    requires safe { PlainSafe p.now }
    ensures { (b : ℕ) (s : Replica) (command : Command)
        → follow_row p.now b x.now limit (option_copied recorded.entry) answer.now
        ≡ option_map (changed p.now b x.now s command) result }
{
    match recorded {
        None => given(follow_first(p, x, answer), Change::Same),
        Some(recorded) => follow_later(p, x, u64::from(limit), recorded, answer),
    }
}

/// What a later turn of a follow changes.
fn follow_later(
    p: &State,
    x: &Broker,
    limit: u64,
    recorded: &PlainSnapshot,
    answer: &Answer,
) -> Option<Change>
    requires { (e : ℕ) (path : List (List ℕ)) → path_of p.now.paths e ≡ Some path → IsConsecutive 0 path }
    ensures { (b : ℕ) (s : Replica) (command : Command)
        → follow_row p.now b x.now limit (Some recorded.now) answer.now
        ≡ option_map (changed p.now b x.now s command) result }
{
    match answer {
        Answer::Passed(n) => given(has_passed(x, recorded, *n), Change::Same),
        Answer::TooManySegments => given(ends_so(x, recorded), Change::Same),
        Answer::DiskFault => given(ends_so(x, recorded), Change::Breaks(x.flushed_end)),
        Answer::Copied(n) => match copied_to(p, x, recorded, limit, *n) {
            Some((epoch, count)) => Some(Change::Extends {
                epoch,
                count,
                flushed_end: x.flushed_end,
            }),
            None => None,
        },
        _ => None,
    }
}
