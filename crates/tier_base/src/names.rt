//! The names of partitions, brokers, actors and remote segments.

ghost use Rattle.std.specs.Prelude.{◌≡◌, ◌<◌, length, All};
ghost use Rattle.tier_base.specs.Key.{id_bytes, id_text, IsId, ReadsId};

use uuid::Uuid;

/// A partition's number.
#[derive(Clone, Copy, Debug, PartialEq, Eq, PartialOrd, Ord)]
pub struct PartitionId(pub u16);

/// A broker's number (Kafka's broker id). The leader of a fresh partition is broker 0.
#[derive(Clone, Copy, Debug, PartialEq, Eq, PartialOrd, Ord)]
pub struct BrokerId(pub u16);

/// The number of an actor, who runs a list of orders against one partition.
#[derive(Clone, Copy, Debug, PartialEq, Eq, PartialOrd, Ord)]
pub struct ActorId(pub u16);

/// The id of a remote segment (Kafka's RemoteLogSegmentId).
#[derive(Clone, Copy, Debug, PartialEq, Eq, PartialOrd, Ord)]
pub struct SegmentId(pub Uuid);

/// Makes the id of one attempt to copy a segment, which no other attempt has.
#[tactic(auto, unfolding(crate::specs::Key::id_bytes))]
pub fn segment_id(
    partition: PartitionId,
    broker: BrokerId,
    incarnation: u32,
    attempt: u64,
) -> SegmentId
    ensures { result.0 ≡ id_bytes partition.0 broker.0 incarnation attempt }
{
    let mut bytes = [0u8; 16];
    bytes[..2].copy_from_slice(partition.0.to_be_bytes().as_slice());
    bytes[2..4].copy_from_slice(broker.0.to_be_bytes().as_slice());
    bytes[4..8].copy_from_slice(incarnation.to_be_bytes().as_slice());
    bytes[8..].copy_from_slice(attempt.to_be_bytes().as_slice());
    SegmentId(Uuid::from_bytes(bytes))
}

/// Lends an array as a slice, whose items are known to be bytes.
fn lent(array: &[u8; 16]) -> &[u8]
    ensures value { result.now ≡ array.now }
    ensures size { length result.now ≡ 16 }
    ensures fits { All (λ b. b < 256) result.now }
{
    let bytes = array.as_slice();
    bytes
}

impl SegmentId {
    /// Lends the id's bytes.
    pub fn as_bytes(&self) -> &[u8]
        ensures value { result.now ≡ self.now.0 }
        ensures fits { IsId self.now }
    {
        lent(self.0.as_bytes())
    }

    /// Writes the text to the front of a buffer, and lends it.
    #[tactic(auto, unfolding(crate::specs::Key::id_text))]
    pub fn write_text<'b>(&self, buffer: &'b mut [u8; 36]) -> &'b str
        ensures { result.now ≡ id_text self.now }
    {
        self.0.hyphenated().encode_lower(buffer)
    }

    /// Reads an id.
    pub fn from_text(text: &[u8]) -> Option<SegmentId>
        ensures { ReadsId text.now result }
    {
        let Ok(id) = Uuid::try_parse_ascii(text) else {
            return None;
        };
        let id = SegmentId(id);
        id.as_bytes();
        let mut buffer = [0u8; 36];
        if id.write_text(&mut buffer).as_bytes() == text {
            Some(id)
        } else {
            None
        }
    }
}
