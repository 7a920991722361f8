//! The names that a trace uses for answers and for what they carry.

ghost use Rattle.std.specs.Prelude.{◌≡◌, ◌≤◌, length};
ghost use Rattle.tier_base.specs.Key.{part_text};
ghost use Rattle.trace_text.specs.Names.{cause_name, state_text, stop_text};
ghost use Rattle.trace_text.specs.Trace.{name_of};

use plain_log::Answer;
use record_batch::BatchRefusal;
use tier_base::{Part, State, Stop};

/// Returns the name of the reason why a run ends.
pub fn stop_name(stop: Stop) -> &'static str
    ensures { result.now ≡ stop_text stop }
{
    match stop {
        Stop::Mark => "Mark",
        Stop::Piece => "Piece",
        Stop::Limit => "Limit",
    }
}

/// Returns the name of a remote segment's state.
pub fn state_name(state: State) -> &'static str
    ensures { result.now ≡ state_text state }
{
    match state {
        State::CopyStarted => "CopyStarted",
        State::CopyFinished => "CopyFinished",
        State::DeleteStarted => "DeleteStarted",
        State::DeleteFinished => "DeleteFinished",
    }
}

/// Returns the name of the reason why bytes are not a valid batch.
pub fn cause_name(cause: BatchRefusal) -> &'static str
    ensures value { result.now ≡ cause_name cause }
    ensures short { length result.now ≤ 13 }
{
    match cause {
        BatchRefusal::Short => "Short",
        BatchRefusal::BadMagic => "BadMagic",
        BatchRefusal::BadLength => "BadLength",
        BatchRefusal::BadCrc { .. } => "BadCrc",
        BatchRefusal::Compressed => "Compressed",
        BatchRefusal::Transactional => "Transactional",
        BatchRefusal::Control => "Control",
        BatchRefusal::BadRecords { .. } => "BadRecords",
    }
}

/// Returns the suffix of the object keys of a part.
pub fn part_ending(part: Part) -> &'static str
    ensures { result.now ≡ part_text part }
{
    match part {
        Part::Log => ".log",
        Part::Index => ".index",
        Part::TimeIndex => ".timeindex",
        Part::Epochs => ".epochs",
        Part::Pack => ".pack",
    }
}

/// Returns the name of an answer, without its fields. Answers that differ in their fields alone share a name.
pub fn answer_name(answer: &Answer) -> &'static str
    ensures value { result.now ≡ name_of answer.now }
    ensures short { length result.now ≤ 15 }
{
    match answer {
        Answer::Ok | Answer::OkAt(_) | Answer::OkSpan(..) => "Ok",
        Answer::Down => "Down",
        Answer::NotLeader => "NotLeader",
        Answer::Refused(_) => "Refused",
        Answer::LastOffset => "LastOffset",
        Answer::TooManySegments => "TooManySegments",
        Answer::DiskFault | Answer::DiskFaultAt(_) => "DiskFault",
        Answer::EmptySegment => "EmptySegment",
        Answer::LastEpoch => "LastEpoch",
        Answer::NotInSync => "NotInSync",
        Answer::DownBroker => "DownBroker",
        Answer::BehindStart(..) => "BehindStart",
        Answer::Known => "Known",
        Answer::Follows(_) => "Follows",
        Answer::NeedsElection(_) => "NeedsElection",
        Answer::Leads(_) => "Leads",
        Answer::NotFollower => "NotFollower",
        Answer::StaleEpoch(_) => "StaleEpoch",
        Answer::NoLeader => "NoLeader",
        Answer::Cut(_) => "Cut",
        Answer::Stopped => "Stopped",
        Answer::Passed(_) => "Passed",
        Answer::BelowStart(_) => "BelowStart",
        Answer::MetaFault => "MetaFault",
        Answer::StoreFault => "StoreFault",
        Answer::Damaged(..) => "Damaged",
        Answer::Rebuilt(_) => "Rebuilt",
        Answer::NotJoined => "NotJoined",
        Answer::Level => "Level",
        Answer::Moved(_) => "Moved",
        Answer::Copied(_) | Answer::CopiedSegment(..) => "Copied",
        Answer::IsLeader => "IsLeader",
        Answer::Behind(..) => "Behind",
        Answer::LostLead => "LostLead",
        Answer::Overtaken(_) => "Overtaken",
        Answer::Kept => "Kept",
        Answer::Dropped(..) => "Dropped",
        Answer::Raised(_) => "Raised",
        Answer::Deleted(_) => "Deleted",
        Answer::NotAbove(_) => "NotAbove",
        Answer::AboveMark(_) => "AboveMark",
        Answer::IsUp => "IsUp",
        Answer::LastIncarnation => "LastIncarnation",
        Answer::Up(_) => "Up",
        Answer::OutOfRange(..) => "OutOfRange",
        Answer::Empty => "Empty",
        Answer::Run { .. } => "Run",
        Answer::CopyOff => "CopyOff",
        Answer::Offset(_) => "Offset",
        Answer::NoOffset => "NoOffset",
    }
}
