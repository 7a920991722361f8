//! Files of a log worked by hand, field by field; the checksums are those of a program that was written apart from
//! this one.

/// The bytes of a batch of one letter.
pub(crate) const SIZE: usize = 69;

/// The batches of the records `a` and `b` at 1000.
pub(crate) static SEGMENT: [u8; 138] = [
    0, 0, 0, 0, 0, 0, 0, 0, // base_offset
    0, 0, 0, 0x39, // batch_length
    0, 0, 0, 0, // leader_epoch
    0x2, // magic
    0xeb, 0xf1, 0x88, 0x4b, // crc
    0, 0, // attributes
    0, 0, 0, 0, // last_offset_delta
    0, 0, 0, 0, 0, 0, 0x3, 0xe8, // base_ts
    0, 0, 0, 0, 0, 0, 0x3, 0xe8, // max_ts
    0xff, 0xff, 0xff, 0xff, 0xff, 0xff, 0xff, 0xff, // producer_id
    0xff, 0xff, // producer_epoch
    0xff, 0xff, 0xff, 0xff, // base_sequence
    0, 0, 0, 0x1, // records_count
    0xe, 0, 0, 0, 0x1, 0x2, 0x61, 0, // record 0
    0, 0, 0, 0, 0, 0, 0, 0x1, // base_offset
    0, 0, 0, 0x39, // batch_length
    0, 0, 0, 0, // leader_epoch
    0x2, // magic
    0xdf, 0x16, 0x20, 0xd2, // crc
    0, 0, // attributes
    0, 0, 0, 0, // last_offset_delta
    0, 0, 0, 0, 0, 0, 0x3, 0xe8, // base_ts
    0, 0, 0, 0, 0, 0, 0x3, 0xe8, // max_ts
    0xff, 0xff, 0xff, 0xff, 0xff, 0xff, 0xff, 0xff, // producer_id
    0xff, 0xff, // producer_epoch
    0xff, 0xff, 0xff, 0xff, // base_sequence
    0, 0, 0, 0x1, // records_count
    0xe, 0, 0, 0, 0x1, 0x2, 0x62, 0, // record 0
];

/// The manifest of the log of that segment, flushed in epoch 0.
pub(crate) static FLUSHED: [u8; 48] = [
    0x54, 0x4c, 0x4d, 0x31, // TLM1
    0, 0, 0, 1, // incarnation
    0, 0, 0, 0, 0, 0, 0, 0, // local start
    0, 0, 0, 1, // count of segments
    0, 0, 0, 0, 0, 0, 0, 0, // base
    0, 0, 0, 0x8a, // flushed length
    0, 0, 0, 1, // count of line entries
    0, 0, 0, 0, // epoch
    0, 0, 0, 0, 0, 0, 0, 0, // its start
];

/// The manifest of an empty log that was led in epoch 0.
pub(crate) static LED: [u8; 48] = [
    0x54, 0x4c, 0x4d, 0x31, // TLM1
    0, 0, 0, 1, // incarnation
    0, 0, 0, 0, 0, 0, 0, 0, // local start
    0, 0, 0, 1, // count of segments
    0, 0, 0, 0, 0, 0, 0, 0, // base
    0, 0, 0, 0, // flushed length
    0, 0, 0, 1, // count of line entries
    0, 0, 0, 0, // epoch
    0, 0, 0, 0, 0, 0, 0, 0, // its start
];

/// The batch of three records at 1000, of the values `a`, `b` and `c`.
pub(crate) static THREE: [u8; 85] = [
    0, 0, 0, 0, 0, 0, 0, 0, // base_offset
    0, 0, 0, 0x49, // batch_length
    0, 0, 0, 0, // leader_epoch
    0x2, // magic
    0x4b, 0x7d, 0x1a, 0x51, // crc
    0, 0, // attributes
    0, 0, 0, 0x2, // last_offset_delta
    0, 0, 0, 0, 0, 0, 0x3, 0xe8, // base_ts
    0, 0, 0, 0, 0, 0, 0x3, 0xe8, // max_ts
    0xff, 0xff, 0xff, 0xff, 0xff, 0xff, 0xff, 0xff, // producer_id
    0xff, 0xff, // producer_epoch
    0xff, 0xff, 0xff, 0xff, // base_sequence
    0, 0, 0, 0x3, // records_count
    0xe, 0, 0, 0, 0x1, 0x2, 0x61, 0, // record 0
    0xe, 0, 0, 0x2, 0x1, 0x2, 0x62, 0, // record 1
    0xe, 0, 0, 0x4, 0x1, 0x2, 0x63, 0, // record 2
];
