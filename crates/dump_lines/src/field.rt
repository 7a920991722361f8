//! The fields of a line, from which both plain text and JSON are printed.

use tier_base::{SegmentId, State};

/// The name of a field, Kafka's where Kafka has the field.
#[derive(Clone, Copy, Debug, PartialEq, Eq)]
pub enum Name {
    BaseOffset,
    LastOffset,
    Count,
    BaseSequence,
    ProducerId,
    ProducerEpoch,
    PartitionLeaderEpoch,
    IsTransactional,
    IsControl,
    Position,
    CreateTime,
    LogAppendTime,
    Size,
    Magic,
    CompressCodec,
    Crc,
    IsValid,
    Offset,
    KeySize,
    ValueSize,
    Key,
    Value,
    Headers,
    Timestamp,
    Epoch,
    StartOffset,
    EndOffset,
    Incarnation,
    LocalLogStartOffset,
    Segments,
    FlushedSize,
    FlushedEndOffset,
    Brokers,
    Leader,
    LeaderEpoch,
    LogStartOffset,
    HighWatermark,
    Broker,
    InSync,
    AckedOffset,
    RemoteLogSegmentId,
    Partition,
    MaxTimestamp,
    EventTimestamp,
    SegmentSize,
    State,
    Packed,
    CustomMetadata,
    Part,
    File,
    Kind,
    Epochs,
    Objects,
    Counts,
    Gate,
    RemoteSegments,
}

impl Name {
    /// The name as it is printed.
    pub fn word(self) -> &'static str {
        match self {
            Name::BaseOffset => "baseOffset",
            Name::LastOffset => "lastOffset",
            Name::Count => "count",
            Name::BaseSequence => "baseSequence",
            Name::ProducerId => "producerId",
            Name::ProducerEpoch => "producerEpoch",
            Name::PartitionLeaderEpoch => "partitionLeaderEpoch",
            Name::IsTransactional => "isTransactional",
            Name::IsControl => "isControl",
            Name::Position => "position",
            Name::CreateTime => "CreateTime",
            Name::LogAppendTime => "LogAppendTime",
            Name::Size => "size",
            Name::Magic => "magic",
            Name::CompressCodec => "compresscodec",
            Name::Crc => "crc",
            Name::IsValid => "isvalid",
            Name::Offset => "offset",
            Name::KeySize => "keySize",
            Name::ValueSize => "valueSize",
            Name::Key => "key",
            Name::Value => "payload",
            Name::Headers => "headers",
            Name::Timestamp => "timestamp",
            other => other.state_word(),
        }
    }

    /// The names of fields that aren't a batch's or a record's.
    fn state_word(self) -> &'static str {
        match self {
            Name::Epoch => "epoch",
            Name::StartOffset => "startOffset",
            Name::EndOffset => "endOffset",
            Name::Incarnation => "incarnation",
            Name::LocalLogStartOffset => "localLogStartOffset",
            Name::Segments => "segments",
            Name::FlushedSize => "flushedSize",
            Name::FlushedEndOffset => "flushedEndOffset",
            Name::Brokers => "brokers",
            Name::Leader => "leader",
            Name::LeaderEpoch => "leaderEpoch",
            Name::LogStartOffset => "logStartOffset",
            Name::HighWatermark => "highWatermark",
            Name::Broker => "broker",
            Name::InSync => "inSync",
            Name::AckedOffset => "ackedOffset",
            Name::RemoteLogSegmentId => "remoteLogSegmentId",
            Name::Partition => "partition",
            Name::MaxTimestamp => "maxTimestamp",
            Name::EventTimestamp => "eventTimestamp",
            Name::SegmentSize => "segmentSize",
            Name::State => "state",
            Name::Packed => "packed",
            Name::CustomMetadata => "customMetadata",
            Name::Part => "part",
            Name::File => "file",
            Name::Kind => "kind",
            Name::Epochs => "epochs",
            Name::Objects => "objects",
            Name::Counts => "counts",
            Name::Gate => "gate",
            _ => "remoteSegments",
        }
    }
}

/// The value of a field.
#[derive(Clone, Copy, Debug, PartialEq, Eq)]
pub enum Value {
    Number(i64),
    Unsigned(u64),
    Flag(bool),
    /// A time in milliseconds since 1970.
    Time(i64),
    /// A size in bytes.
    Bytes(u64),
    /// A compression type, as its number in the attributes.
    Codec(u8),
    /// A remote segment's state.
    State(State),
    Id(SegmentId),
}

/// A field of a line.
#[derive(Clone, Copy, Debug, PartialEq, Eq)]
pub struct Field {
    pub name: Name,
    pub value: Value,
}

/// The fields of a line, in their order.
pub type Line = Vec<Field>;
