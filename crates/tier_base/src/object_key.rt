//! The key of an object in the remote store, and its text. The module Key of specs/ has the grammar.

ghost use Rattle.std.specs.Prelude.{◌≡◌, IfOk};
ghost use Rattle.tier_base.specs.Key.{key_text, part_text, ReadsKey, ReadsKeyEnd};

use crate::names::{PartitionId, SegmentId};
use crate::numeral::number;
use crate::plain::Part;
use std::alloc::{AllocError, Global};
use std::fmt::Write;

/// The key of an object: one part of a remote segment.
#[derive(Clone, Copy, Debug, PartialEq, Eq)]
pub struct ObjectKey {
    pub partition: PartitionId,
    pub id: SegmentId,
    pub part: Part,
}

/// How a part's keys end.
fn suffix(part: Part) -> &'static str
    ensures { result.now ≡ part_text part }
{
    match part {
        Part::Log => ".log",
        Part::Index => ".index",
        Part::TimeIndex => ".timeindex",
        Part::Epochs => ".epochs",
        Part::Pack => ".pack",
    }
}

/// The part whose keys end so.
fn part_of(text: &[u8]) -> Option<Part>
    ensures { ReadsKeyEnd text.now result }
{
    if text == b".log".as_slice() {
        return Some(Part::Log);
    }
    if text == b".index".as_slice() {
        return Some(Part::Index);
    }
    if text == b".timeindex".as_slice() {
        return Some(Part::TimeIndex);
    }
    if text == b".epochs".as_slice() {
        return Some(Part::Epochs);
    }
    if text == b".pack".as_slice() {
        return Some(Part::Pack);
    }
    None
}

impl ObjectKey {
    /// The text of this key. Fails only if memory runs out.
    #[tactic(auto, unfolding(crate::specs::Key::key_text))]
    pub fn to_text(&self, alloc: Global) -> Result<Vec<u8>, AllocError>
        ensures { IfOk result (λ text. text.items ≡ key_text self.now) }
    {
        let mut buffer = [0u8; 36];
        let id = self.id.write_text(&mut buffer);
        let partition = self.partition.0;
        let suffix = suffix(self.part);
        let mut text = String::new(alloc);
        write!(text, "{partition}/{id}{suffix}")?;
        Ok(text.into_bytes())
    }

    /// The key of a text.
    #[tactic(auto, unfolding(crate::specs::Key::key_text))]
    pub fn from_text(text: &[u8]) -> Option<ObjectKey>
        ensures { ReadsKey text.now result }
    {
        let Some((partition, rest)) = number(text, 65_535, b'/') else {
            return None;
        };
        if rest.len() < 36 {
            return None;
        }
        let (id, end) = rest.split_at(36);
        let Some(id) = SegmentId::from_text(id) else {
            return None;
        };
        let Some(part) = part_of(end) else {
            return None;
        };
        Some(ObjectKey {
            partition: PartitionId(partition as u16),
            id,
            part,
        })
    }
}
