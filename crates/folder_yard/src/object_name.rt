//! The names of a partition's objects as text, both ways. The module Object of specs/ has the grammar.

ghost use Rattle.std.specs.Prelude.{◌≡◌, ◌+◌, ◌≤◌, ◌++◌, length, string_bytes, string_len, string_capacity};
ghost use Rattle.tier_base.specs.Key.{id_text, part_text, ReadsKeyEnd};
ghost use Rattle.folder_yard.specs.Object.{object_text, ReadsObject};

use tier_base::{ObjectKey, Part, PartitionId, SegmentId};

/// How many letters an id has.
const ID_LETTERS: usize = 36;

/// How the name of a part's object ends.
fn end_of(part: Part) -> &'static str
    ensures text { result.now ≡ part_text part }
    ensures len { length result.now ≤ 10 }
{
    match part {
        Part::Log => ".log",
        Part::Index => ".index",
        Part::TimeIndex => ".timeindex",
        Part::Epochs => ".epochs",
        Part::Pack => ".pack",
    }
}

/// Writes the text of an object's id to the front of a buffer, and lends it.
fn id_of<'b>(key: &ObjectKey, buffer: &'b mut [u8; 36]) -> &'b str
    ensures text { result.now ≡ id_text key.now.id }
    ensures len { length result.now ≡ 36 }
{
    key.id.write_text(buffer)
}

/// Writes the name of an object's file and an ending after a text that has the room, without memory.
pub fn push_object(text: &mut String, key: &ObjectKey, ending: &str)
    requires room { string_len text.old + 50 ≤ string_capacity text.old }
    requires ending { length ending.now ≤ 4 }
    ensures bytes { string_bytes text.new
        ≡ string_bytes text.old ++ (object_text key.now ++ ending.now) }
    ensures len { string_len text.new ≤ string_len text.old + 50 }
    ensures capacity { string_capacity text.old ≤ string_capacity text.new }
{
    let mut buffer = [0u8; 36];
    let id = id_of(key, &mut buffer);
    let end = end_of(key.part);
    let _ = text.push_str(id);
    let _ = text.push_str(end);
    let _ = text.push_str(ending);
}

/// The part whose object's name ends so.
fn part_of(end: &[u8]) -> Option<Part>
    ensures { ReadsKeyEnd end.now result }
{
    if end == b".log".as_slice() {
        return Some(Part::Log);
    }
    if end == b".index".as_slice() {
        return Some(Part::Index);
    }
    if end == b".timeindex".as_slice() {
        return Some(Part::TimeIndex);
    }
    if end == b".epochs".as_slice() {
        return Some(Part::Epochs);
    }
    if end == b".pack".as_slice() {
        return Some(Part::Pack);
    }
    None
}

/// The object of a partition whose file has this name. Other names are no objects.
pub fn read_object(partition: PartitionId, text: &[u8]) -> Option<ObjectKey>
    ensures { ReadsObject partition text.now result }
{
    if text.len() < ID_LETTERS {
        return None;
    }
    let (id, end) = text.split_at(ID_LETTERS);
    let Some(id) = SegmentId::from_text(id) else {
        return None;
    };
    let Some(part) = part_of(end) else {
        return None;
    };
    Some(ObjectKey {
        partition,
        id,
        part,
    })
}
