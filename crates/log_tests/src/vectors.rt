//! Batches worked by hand, field by field; their checksums are those of a program that was written apart from this one.

/// One record at 1000, of the value `a`.
pub(crate) static FIRST: [u8; 69] = [
    0, 0, 0, 0, 0, 0, 0, 0, // base_offset
    0, 0, 0, 0x39, // batch_length
    0, 0, 0, 0, // leader_epoch
    0x2, // magic
    0xeb, 0xf1, 0x88, 0x4b, // crc
    0, 0, // attributes
    0, 0, 0, 0, // last_offset_delta
    0, 0, 0, 0, 0, 0, 0x3, 0xe8, // base_ts
    0, 0, 0, 0, 0, 0, 0x3, 0xe8, // max_ts
    0xff, 0xff, 0xff, 0xff, 0xff, 0xff, 0xff, 0xff, // producer_id
    0xff, 0xff, // producer_epoch
    0xff, 0xff, 0xff, 0xff, // base_sequence
    0, 0, 0, 0x1, // records_count
    0xe, 0, 0, 0, 0x1, 0x2, 0x61, 0, // record 0
];

/// One record at 1000, of the value `b`, at base offset 1.
pub(crate) static SECOND: [u8; 69] = [
    0, 0, 0, 0, 0, 0, 0, 0x1, // base_offset
    0, 0, 0, 0x39, // batch_length
    0, 0, 0, 0, // leader_epoch
    0x2, // magic
    0xdf, 0x16, 0x20, 0xd2, // crc
    0, 0, // attributes
    0, 0, 0, 0, // last_offset_delta
    0, 0, 0, 0, 0, 0, 0x3, 0xe8, // base_ts
    0, 0, 0, 0, 0, 0, 0x3, 0xe8, // max_ts
    0xff, 0xff, 0xff, 0xff, 0xff, 0xff, 0xff, 0xff, // producer_id
    0xff, 0xff, // producer_epoch
    0xff, 0xff, 0xff, 0xff, // base_sequence
    0, 0, 0, 0x1, // records_count
    0xe, 0, 0, 0, 0x1, 0x2, 0x62, 0, // record 0
];

/// One record at 5, of the key `k`, no value, and a header `h` with no value.
pub(crate) static HEADER: [u8; 72] = [
    0, 0, 0, 0, 0, 0, 0, 0, // base_offset
    0, 0, 0, 0x3c, // batch_length
    0, 0, 0, 0, // leader_epoch
    0x2, // magic
    0xbb, 0x6f, 0xd, 0x38, // crc
    0, 0, // attributes
    0, 0, 0, 0, // last_offset_delta
    0, 0, 0, 0, 0, 0, 0, 0x5, // base_ts
    0, 0, 0, 0, 0, 0, 0, 0x5, // max_ts
    0xff, 0xff, 0xff, 0xff, 0xff, 0xff, 0xff, 0xff, // producer_id
    0xff, 0xff, // producer_epoch
    0xff, 0xff, 0xff, 0xff, // base_sequence
    0, 0, 0, 0x1, // records_count
    0x14, 0, 0, 0, 0x2, 0x6b, 0x1, 0x2, 0x2, 0x68, 0x1, // record 0
];

/// Three records at 1000, of the values `a`, `b` and `c`.
pub(crate) static THREE: [u8; 85] = [
    0, 0, 0, 0, 0, 0, 0, 0, // base_offset
    0, 0, 0, 0x49, // batch_length
    0, 0, 0, 0, // leader_epoch
    0x2, // magic
    0x4b, 0x7d, 0x1a, 0x51, // crc
    0, 0, // attributes
    0, 0, 0, 0x2, // last_offset_delta
    0, 0, 0, 0, 0, 0, 0x3, 0xe8, // base_ts
    0, 0, 0, 0, 0, 0, 0x3, 0xe8, // max_ts
    0xff, 0xff, 0xff, 0xff, 0xff, 0xff, 0xff, 0xff, // producer_id
    0xff, 0xff, // producer_epoch
    0xff, 0xff, 0xff, 0xff, // base_sequence
    0, 0, 0, 0x3, // records_count
    0xe, 0, 0, 0, 0x1, 0x2, 0x61, 0, // record 0
    0xe, 0, 0, 0x2, 0x1, 0x2, 0x62, 0, // record 1
    0xe, 0, 0, 0x4, 0x1, 0x2, 0x63, 0, // record 2
];

/// The least timestamp and the greatest, whose distance wraps to -1, at base offset 2^40 + 1, in leader epoch 7.
pub(crate) static WRAPPED: [u8; 83] = [
    0, 0, 0x1, 0, 0, 0, 0, 0x1, // base_offset
    0, 0, 0, 0x47, // batch_length
    0, 0, 0, 0x7, // leader_epoch
    0x2, // magic
    0x3a, 0xe5, 0x10, 0xe1, // crc
    0, 0, // attributes
    0, 0, 0, 0x1, // last_offset_delta
    0x80, 0, 0, 0, 0, 0, 0, 0, // base_ts
    0x7f, 0xff, 0xff, 0xff, 0xff, 0xff, 0xff, 0xff, // max_ts
    0xff, 0xff, 0xff, 0xff, 0xff, 0xff, 0xff, 0xff, // producer_id
    0xff, 0xff, // producer_epoch
    0xff, 0xff, 0xff, 0xff, // base_sequence
    0, 0, 0, 0x2, // records_count
    0xc, 0, 0, 0, 0x1, 0, 0, // record 0
    0x1c, 0, 0x1, 0x2, 0, 0x2, 0x78, 0x4, 0, 0, 0x2, 0x6e, 0x4, 0x76, 0x77, // record 1
];

/// `FIRST` from a producer of id 7, at base offset 99, in leader epoch 5.
pub(crate) static FOREIGN: [u8; 69] = [
    0, 0, 0, 0, 0, 0, 0, 0x63, // base_offset
    0, 0, 0, 0x39, // batch_length
    0, 0, 0, 0x5, // leader_epoch
    0x2, // magic
    0x28, 0x83, 0x5a, 0x5e, // crc
    0, 0, // attributes
    0, 0, 0, 0, // last_offset_delta
    0, 0, 0, 0, 0, 0, 0x3, 0xe8, // base_ts
    0, 0, 0, 0, 0, 0, 0x3, 0xe8, // max_ts
    0, 0, 0, 0, 0, 0, 0, 0x7, // producer_id
    0xff, 0xff, // producer_epoch
    0xff, 0xff, 0xff, 0xff, // base_sequence
    0, 0, 0, 0x1, // records_count
    0xe, 0, 0, 0, 0x1, 0x2, 0x61, 0, // record 0
];
