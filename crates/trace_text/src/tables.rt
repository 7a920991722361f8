//! The names of answers, read. An answer is identified by its name and by how many fields follow.

ghost use Rattle.std.specs.Prelude.{◌≡◌, drop};
ghost use Rattle.trace_text.specs.Fields.{named};
ghost use Rattle.trace_text.specs.Reading.{bare_answers, counted_answers, bare_in, counted_in, paired_in};
ghost use Rattle.trace_text.specs.Trace.{name_of};

use crate::words::is;
use plain_log::Answer;

/// Reads an answer without fields.
#[tactic(auto, unfolding(crate::specs::Reading::bare_in))]
pub fn bare(name: &[u8]) -> Option<Answer>
    ensures { result ≡ bare_in name.now }
{
    if is(name, "Ok") {
        return Some(Answer::Ok);
    }
    if is(name, "Down") {
        return Some(Answer::Down);
    }
    if is(name, "NotLeader") {
        return Some(Answer::NotLeader);
    }
    if is(name, "LastOffset") {
        return Some(Answer::LastOffset);
    }
    if is(name, "TooManySegments") {
        return Some(Answer::TooManySegments);
    }
    if is(name, "DiskFault") {
        return Some(Answer::DiskFault);
    }
    if is(name, "EmptySegment") {
        return Some(Answer::EmptySegment);
    }
    bare_of_brokers(name)
}

/// Continues with the answers to elections, joins and followers.
fn bare_of_brokers(name: &[u8]) -> Option<Answer>
    ensures { result ≡ named name_of name.now (drop 7 bare_answers) }
{
    if is(name, "LastEpoch") {
        return Some(Answer::LastEpoch);
    }
    if is(name, "NotInSync") {
        return Some(Answer::NotInSync);
    }
    if is(name, "DownBroker") {
        return Some(Answer::DownBroker);
    }
    if is(name, "Known") {
        return Some(Answer::Known);
    }
    if is(name, "NotFollower") {
        return Some(Answer::NotFollower);
    }
    if is(name, "NoLeader") {
        return Some(Answer::NoLeader);
    }
    if is(name, "Stopped") {
        return Some(Answer::Stopped);
    }
    bare_of_tier(name)
}

/// Continues with the answers that report devices and the remote tier.
fn bare_of_tier(name: &[u8]) -> Option<Answer>
    ensures { result ≡ named name_of name.now (drop 14 bare_answers) }
{
    if is(name, "MetaFault") {
        return Some(Answer::MetaFault);
    }
    if is(name, "StoreFault") {
        return Some(Answer::StoreFault);
    }
    if is(name, "NotJoined") {
        return Some(Answer::NotJoined);
    }
    if is(name, "Level") {
        return Some(Answer::Level);
    }
    if is(name, "IsLeader") {
        return Some(Answer::IsLeader);
    }
    if is(name, "LostLead") {
        return Some(Answer::LostLead);
    }
    bare_of_reads(name)
}

/// Continues with the answers to trims, starts of brokers, and reads.
fn bare_of_reads(name: &[u8]) -> Option<Answer>
    ensures { result ≡ named name_of name.now (drop 20 bare_answers) }
{
    if is(name, "Kept") {
        return Some(Answer::Kept);
    }
    if is(name, "IsUp") {
        return Some(Answer::IsUp);
    }
    if is(name, "LastIncarnation") {
        return Some(Answer::LastIncarnation);
    }
    if is(name, "Empty") {
        return Some(Answer::Empty);
    }
    if is(name, "CopyOff") {
        return Some(Answer::CopyOff);
    }
    if is(name, "NoOffset") {
        return Some(Answer::NoOffset);
    }
    None
}

/// Reads an answer of one number.
#[tactic(auto, unfolding(crate::specs::Reading::counted_in))]
pub fn counted(name: &[u8], n: u64) -> Option<Answer>
    ensures { result ≡ counted_in name.now n }
{
    if is(name, "Ok") {
        return Some(Answer::OkAt(n));
    }
    if is(name, "DiskFault") {
        return Some(Answer::DiskFaultAt(n));
    }
    if is(name, "Follows") {
        return Some(Answer::Follows(n));
    }
    if is(name, "NeedsElection") {
        return Some(Answer::NeedsElection(n));
    }
    if is(name, "Leads") {
        return Some(Answer::Leads(n));
    }
    if is(name, "StaleEpoch") {
        return Some(Answer::StaleEpoch(n));
    }
    counted_of_followers(name, n)
}

/// Continues with the answers to followers.
fn counted_of_followers(name: &[u8], n: u64) -> Option<Answer>
    ensures { result ≡ named name_of name.now (drop 6 (counted_answers n)) }
{
    if is(name, "Cut") {
        return Some(Answer::Cut(n));
    }
    if is(name, "Passed") {
        return Some(Answer::Passed(n));
    }
    if is(name, "BelowStart") {
        return Some(Answer::BelowStart(n));
    }
    if is(name, "Rebuilt") {
        return Some(Answer::Rebuilt(n));
    }
    if is(name, "Moved") {
        return Some(Answer::Moved(n));
    }
    counted_of_tier(name, n)
}

/// Continues with the answers of the remote tier, of starts and of reads.
fn counted_of_tier(name: &[u8], n: u64) -> Option<Answer>
    ensures { result ≡ named name_of name.now (drop 11 (counted_answers n)) }
{
    if is(name, "Copied") {
        return Some(Answer::Copied(n));
    }
    if is(name, "Raised") {
        return Some(Answer::Raised(n));
    }
    if is(name, "NotAbove") {
        return Some(Answer::NotAbove(n));
    }
    if is(name, "AboveMark") {
        return Some(Answer::AboveMark(n));
    }
    if is(name, "Up") {
        return Some(Answer::Up(n));
    }
    if is(name, "Offset") {
        return Some(Answer::Offset(n));
    }
    None
}

/// Reads an answer of two numbers.
#[tactic(auto, unfolding(crate::specs::Reading::paired_in))]
pub fn paired(name: &[u8], a: u64, b: u64) -> Option<Answer>
    ensures { result ≡ paired_in name.now a b }
{
    if is(name, "BehindStart") {
        return Some(Answer::BehindStart(a, b));
    }
    if is(name, "Behind") {
        return Some(Answer::Behind(a, b));
    }
    if is(name, "Dropped") {
        return Some(Answer::Dropped(a, b));
    }
    if is(name, "OutOfRange") {
        return Some(Answer::OutOfRange(a, b));
    }
    None
}
