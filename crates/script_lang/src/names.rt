//! The names of the language: first words, commands, offsets, devices and device calls. Other words are `Unknown`.

ghost use Rattle.std.specs.Prelude.{◌≡◌, ◌==◌};
ghost use Rattle.script_lang.specs.Names.{begins_with, lead_of, verb_of, offset_of, device_of, call_of};
ghost use Rattle.script_lang.specs.Words.{is_digit};

use crate::fault::FaultCall;
use crate::numbers::is_digit;

/// The kind of a line, by its first word.
#[derive(Clone, Copy)]
pub enum Lead {
    Comment,
    Brokers,
    Partitions,
    SegmentBytes,
    IndexIntervalBytes,
    RetentionMs,
    RetentionBytes,
    LocalRetentionMs,
    LocalRetentionBytes,
    Later,
    Turn,
    Fault,
    Actor,
    Unknown,
}

/// The name of a command.
#[derive(Clone, Copy)]
pub enum Verb {
    Append,
    Raw,
    Flush,
    Roll,
    Elect,
    Unclean,
    Learn,
    Join,
    Follow,
    Ack,
    Shrink,
    Expand,
    Copy,
    Trim,
    Expire,
    Raise,
    Clock,
    Stop,
    Up,
    Fetch,
    Pack,
    Copying,
    Offset,
    Unknown,
}

/// Which offset is asked for.
#[derive(Clone, Copy)]
pub enum OffsetName {
    Earliest,
    Latest,
    EarliestLocal,
    LatestTiered,
    At,
    Unknown,
}

/// The kind of a device.
#[derive(Clone, Copy)]
pub enum DeviceName {
    Disk,
    Store,
    Meta,
    Unknown,
}

fn begins_with_hash(word: &[u8]) -> bool
    ensures { result ≡ begins_with (λ b. b == 35) word.now }
{
    match word {
        [first, ..] => *first == b'#',
        [] => false,
    }
}

fn begins_with_digit(word: &[u8]) -> bool
    ensures { result ≡ begins_with is_digit word.now }
{
    match word {
        [first, ..] => is_digit(*first),
        [] => false,
    }
}

/// The kinds of lines by their first words.
static LEADS: [(&str, Lead); 11] = [
    ("brokers", Lead::Brokers),
    ("partitions", Lead::Partitions),
    ("segment_bytes", Lead::SegmentBytes),
    ("index_interval_bytes", Lead::IndexIntervalBytes),
    ("retention_ms", Lead::RetentionMs),
    ("retention_bytes", Lead::RetentionBytes),
    ("local_retention_ms", Lead::LocalRetentionMs),
    ("local_retention_bytes", Lead::LocalRetentionBytes),
    ("later", Lead::Later),
    ("turn", Lead::Turn),
    ("fault", Lead::Fault),
];

/// Returns the kind of the line with this first word.
#[tactic(auto, unfolding(crate::specs::Names::lead_of))]
pub fn find_lead(word: &[u8]) -> Lead
    ensures { result ≡ lead_of word.now }
{
    if begins_with_hash(word) {
        return Lead::Comment;
    }
    for (name, lead) in &LEADS {
        if word == name.as_bytes() {
            return *lead;
        }
    }
    if begins_with_digit(word) {
        return Lead::Actor;
    }
    Lead::Unknown
}

/// The commands by their names.
static VERBS: [(&str, Verb); 23] = [
    ("append", Verb::Append),
    ("raw", Verb::Raw),
    ("flush", Verb::Flush),
    ("roll", Verb::Roll),
    ("elect", Verb::Elect),
    ("unclean", Verb::Unclean),
    ("learn", Verb::Learn),
    ("join", Verb::Join),
    ("follow", Verb::Follow),
    ("ack", Verb::Ack),
    ("shrink", Verb::Shrink),
    ("expand", Verb::Expand),
    ("copy", Verb::Copy),
    ("trim", Verb::Trim),
    ("expire", Verb::Expire),
    ("raise", Verb::Raise),
    ("clock", Verb::Clock),
    ("stop", Verb::Stop),
    ("up", Verb::Up),
    ("fetch", Verb::Fetch),
    ("pack", Verb::Pack),
    ("copying", Verb::Copying),
    ("offset", Verb::Offset),
];

/// Returns the command of this name.
#[tactic(auto, unfolding(crate::specs::Names::verb_of))]
pub fn find_verb(word: &[u8]) -> Verb
    ensures { result ≡ verb_of word.now }
{
    for (name, verb) in &VERBS {
        if word == name.as_bytes() {
            return *verb;
        }
    }
    Verb::Unknown
}

/// Which offset each word asks for.
static OFFSETS: [(&str, OffsetName); 5] = [
    ("earliest", OffsetName::Earliest),
    ("latest", OffsetName::Latest),
    ("earliest_local", OffsetName::EarliestLocal),
    ("latest_tiered", OffsetName::LatestTiered),
    ("at", OffsetName::At),
];

/// Returns which offset a word asks for.
#[tactic(auto, unfolding(crate::specs::Names::offset_of))]
pub fn find_offset(word: &[u8]) -> OffsetName
    ensures { result ≡ offset_of word.now }
{
    for (name, offset) in &OFFSETS {
        if word == name.as_bytes() {
            return *offset;
        }
    }
    OffsetName::Unknown
}

/// The kinds of devices by their names.
static DEVICES: [(&str, DeviceName); 3] = [
    ("disk", DeviceName::Disk),
    ("store", DeviceName::Store),
    ("meta", DeviceName::Meta),
];

/// Returns the kind of device of this name.
#[tactic(auto, unfolding(crate::specs::Names::device_of))]
pub fn find_device(word: &[u8]) -> DeviceName
    ensures { result ≡ device_of word.now }
{
    for (name, device) in &DEVICES {
        if word == name.as_bytes() {
            return *device;
        }
    }
    DeviceName::Unknown
}

/// The device calls by their names.
static CALLS: [(&str, FaultCall); 10] = [
    ("append", FaultCall::Append),
    ("sync", FaultCall::Sync),
    ("read", FaultCall::Read),
    ("cut", FaultCall::Cut),
    ("replace", FaultCall::Replace),
    ("remove", FaultCall::Remove),
    ("list", FaultCall::List),
    ("put", FaultCall::Put),
    ("get", FaultCall::Get),
    ("delete", FaultCall::Delete),
];

/// Returns the device call of this name.
#[tactic(auto, unfolding(crate::specs::Names::call_of))]
pub fn find_call(word: &[u8]) -> Option<FaultCall>
    ensures { result ≡ call_of word.now }
{
    for (name, call) in &CALLS {
        if word == name.as_bytes() {
            return Some(*call);
        }
    }
    None
}
