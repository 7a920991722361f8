//! Valid scripts, and invalid ones with the cause that is reported. The expected values are worked by hand from the
//! grammar; the bytes of `raw` come from a writer of record batches that was made apart from this repository.

use crate::scripts::is_told;

/// Valid scripts.
static GOOD: [(&str, &str); 30] = [
    ("", "no line"),
    ("\n", "an empty line"),
    (
        "# c\n\n \t \n#\n  # d\r\n\r\n#",
        "comments and blanks, the last without a line feed",
    ),
    (" \t0\t0 0   flush \t\r\n", "blanks around words, and CR LF"),
    ("0 0 0 flush", "no line feed at the end"),
    ("partitions 1\n00 000 0 ack\n", "zeros that lead"),
    ("partitions 0001\n", "the option alone"),
    (
        "0 0 0 append 9223372036854775807,-,-\n",
        "the last timestamp, no value",
    ),
    (
        "0 0 0 append 0,x,: 1,:aZ_.9,x0aFf,:h=-,x=:,x00=x 2,-,:\n",
        "records of every spelling",
    ),
    ("0 0 0 raw 0aFf\n", "digits of either case"),
    ("0 0 0 fetch 4611686018427387904 000\n", "the last offset"),
    (
        "0 0 0 fetch 0 268435455\n0 0 0 raw 00\n",
        "a sum at its bound",
    ),
    (
        "\
        0 0 0 raw \
        000000000000006300000039000000050228835a5e00000000000000000000000003e800000000000003e80000000000000007fffffff\
        fffff000000010e00000001026100\n\
        0 0 0 flush\n\
        0 0 0 ack\n\
        0 0 0 fetch 0 1000\n",
        "a batch of an idempotent producer, and its answers",
    ),
    (
        "\
        0 0 0 raw \
        0000000000000000000000390000000002a4f98f1700010000000000000000000003e800000000000003e8fffffffffffffffffffffff\
        fffff000000010e00000001026100\n",
        "a compressed batch",
    ),
    (
        "\
        0 0 0 raw \
        0000000000000000000000390000000002ebf1884b00000000000000000000000003e800000000000003e8fffffffffffffffffffffff\
        fffff000000\n",
        "a batch that is cut short",
    ),
    (
        "\
        0 0 0 raw \
        0000000000000000000000390000000002ebf1884b00000000000000000000000003e800000000000003e8fffffffffffffffffffffff\
        fffff000000010e0000000102610000\n",
        "a batch and a byte behind it",
    ),
    (
        "\
        0 0 0 append 5,:k,-,:h=-\n\
        0 0 0 flush\n\
        0 0 0 ack\n\
        0 0 0 fetch 0 100\n",
        "a header without a value",
    ),
    (
        "0 0 0 fetch 0 268435456\n",
        "one fetch at the bound of the sum",
    ),
    (
        "brokers 8\npartitions 64\n63 63 7 stop\n",
        "the last actor, partition and broker",
    ),
    (
        "\
        brokers 2\n\
        0 0 1 elect\n\
        0 0 1 learn\n\
        0 0 0 unclean\n\
        0 0 1 join\n\
        0 0 1 follow 2147483647\n",
        "elections and followers",
    ),
    (
        "\
        0 0 0 shrink\n\
        0 0 0 expand\n\
        0 0 0 raise 4611686018427387904\n\
        0 0 0 stop\n\
        0 0 0 up\n",
        "the registry, stop and up",
    ),
    ("0 0 - clock 9223372036854775807\n", "the last time"),
    (
        "later 1 0 0 flush\nturn 1 1048576\n",
        "turns at their bound",
    ),
    (
        "partitions 64\n0 0 0 roll\n63 63 0 copy\n",
        "a copy in the last partition",
    ),
    (
        "\
        fault 0 store put 1 before\n\
        fault 0 store get 1 after\n\
        fault 0 store delete 1 after\n",
        "faults of the store",
    ),
    (
        "fault 0 meta append 4294967295 after\nfault 0 meta read 1 before\n",
        "faults of the metadata log",
    ),
    (
        "\
        retention_ms -1\n\
        retention_bytes 9223372036854775807\n\
        local_retention_ms -2\n\
        local_retention_bytes -1\n",
        "retention with no bound, the greatest, and the whole log's",
    ),
    (
        "\
        local_retention_bytes -2\n\
        local_retention_ms 9223372036854775807\n\
        retention_bytes -1\n\
        retention_ms 0\n\
        0 0 0 trim\n",
        "retention in any order, and a trim",
    ),
    (
        "0 0 0 offset at 0\n0 0 0 offset at 9223372036854775807\n",
        "offsets of the first time and of the last",
    ),
    (
        "\
        brokers 8\n\
        0 0 7 expire\n\
        0 0 - pack 01\n\
        later 0 0 - pack 0\n",
        "segments that are packed, and no more",
    ),
];

/// Scripts without one, and what is reported of them.
static BAD: [(&str, &str); 145] = [
    // bytes that no line has
    ("# \x7f\n", "line 1: NotText"),
    ("#\u{e9}\n", "line 1: NotText"),
    ("0 0 0 flush\r", "line 1: NotText"),
    ("0 0\r0 flush\n", "line 1: NotText"),
    ("\r\r\n", "line 1: NotText"),
    ("0 0 0 flush\x00\n", "line 1: NotText"),
    ("0 0 0 frob\x0b\n", "line 1: NotText"),
    // words that cannot be there
    ("# c\n0 0 0 frob\n", "line 2: Word"),
    ("brokers 1\n# c\n0 0 0 frob\n", "line 3: Word"),
    ("\n0 0 - flush\n", "line 2: Word"),
    ("\n0 0 0 clock 5\n", "line 2: Word"),
    ("x 0 0 flush\n", "line 1: Word"),
    ("-1 0 0 flush\n", "line 1: Word"),
    ("+0 0 0 flush\n", "line 1: Word"),
    ("Brokers 1\n", "line 1: Word"),
    ("0\n", "line 1: Word"),
    ("0 0\n", "line 1: Word"),
    ("0 0 0\n", "line 1: Word"),
    ("0 0 0 Flush\n", "line 1: Word"),
    ("0 0 0 flush # c\n", "line 1: Word"),
    ("0 0 0 flush 0\n", "line 1: Word"),
    ("0 0 0 append\n", "line 1: Word"),
    ("0 0 0 raw\n", "line 1: Word"),
    ("0 0 0 raw 00 00\n", "line 1: Word"),
    ("0 0 0 fetch 0\n", "line 1: Word"),
    ("0 0 0 fetch 0 0 0\n", "line 1: Word"),
    ("0 0 0 follow\n", "line 1: Word"),
    ("0 0 0 offset\n", "line 1: Word"),
    ("0 0 0 offset now\n", "line 1: Word"),
    ("0 0 0 offset at\n", "line 1: Word"),
    ("0 0 0 offset earliest 1\n", "line 1: Word"),
    ("0 0 -\n", "line 1: Word"),
    ("0 0 - clock\n", "line 1: Word"),
    ("0 0 - pack\n", "line 1: Word"),
    ("0 0 - offset latest\n", "line 1: Word"),
    ("0 0 0 copying 1\n", "line 1: Word"),
    ("brokers\n", "line 1: Word"),
    ("brokers 2 x\n", "line 1: Word"),
    ("retention_ms\n", "line 1: Word"),
    ("local_retention_bytes -2 -2\n", "line 1: Word"),
    ("0 0 0 trim 1\n", "line 1: Word"),
    ("0 0 - trim\n", "line 1: Word"),
    ("later\n", "line 1: Word"),
    ("later 0 0 0\n", "line 1: Word"),
    ("turn\n", "line 1: Word"),
    ("turn 0\n", "line 1: Word"),
    ("turn 0 1 1\n", "line 1: Word"),
    ("fault\n", "line 1: Word"),
    ("fault 0\n", "line 1: Word"),
    ("fault 0 tape read 1 before\n", "line 1: Word"),
    ("fault 0 store append 1 before\n", "line 1: Word"),
    ("fault 0 meta get 1 before\n", "line 1: Word"),
    ("fault 0 disk 0 put 1 before\n", "line 1: Word"),
    ("fault 0 store list 1 before\n", "line 1: Word"),
    ("fault 0 store put 1\n", "line 1: Word"),
    ("fault 0 store put 1 during\n", "line 1: Word"),
    ("fault 0 store put 1 after x\n", "line 1: Word"),
    // numbers out of form or range
    ("brokers 0\n", "line 1: Number"),
    ("brokers 9\n", "line 1: Number"),
    ("brokers x\n", "line 1: Number"),
    ("brokers -1\n", "line 1: Number"),
    ("partitions 0\n", "line 1: Number"),
    ("partitions 65\n", "line 1: Number"),
    ("segment_bytes 99\n", "line 1: Number"),
    ("segment_bytes 16777217\n", "line 1: Number"),
    ("index_interval_bytes -1\n", "line 1: Number"),
    ("index_interval_bytes 16777217\n", "line 1: Number"),
    ("retention_ms -2\n", "line 1: Number"),
    ("retention_ms -01\n", "line 1: Number"),
    ("retention_ms 9223372036854775808\n", "line 1: Number"),
    ("retention_bytes -2\n", "line 1: Number"),
    ("retention_bytes 9223372036854775808\n", "line 1: Number"),
    ("local_retention_ms -3\n", "line 1: Number"),
    ("local_retention_ms -\n", "line 1: Number"),
    ("local_retention_bytes +1\n", "line 1: Number"),
    ("local_retention_bytes -02\n", "line 1: Number"),
    (
        "local_retention_bytes 9223372036854775808\n",
        "line 1: Number",
    ),
    ("64 0 0 flush\n", "line 1: Number"),
    ("0x 0 0 flush\n", "line 1: Number"),
    ("0 1 0 flush\n", "line 1: Number"),
    ("0 0 1 flush\n", "line 1: Number"),
    ("0 0 -- flush\n", "line 1: Number"),
    ("0 x frob\n", "line 1: Number"),
    ("0 0 0 fetch x 0\n", "line 1: Number"),
    ("0 0 0 fetch 4611686018427387905 0\n", "line 1: Number"),
    ("0 0 0 fetch 0 2147483648\n", "line 1: Number"),
    ("0 0 0 follow 2147483648\n", "line 1: Number"),
    ("0 0 0 raise 4611686018427387905\n", "line 1: Number"),
    ("0 0 0 offset at 9223372036854775808\n", "line 1: Number"),
    ("0 0 - clock 9223372036854775808\n", "line 1: Number"),
    ("0 0 - clock -1\n", "line 1: Number"),
    ("0 0 - pack 2\n", "line 1: Number"),
    ("0 0 - copying x\n", "line 1: Number"),
    ("later 64 0 0 flush\n", "line 1: Number"),
    ("later 0 1 0 flush\n", "line 1: Number"),
    ("turn 64 1\n", "line 1: Number"),
    ("turn 0 0\n", "line 1: Number"),
    ("turn 0 1048577\n", "line 1: Number"),
    ("fault 1 store put 1 before\n", "line 1: Number"),
    ("fault 0 disk 1 read 1 after\n", "line 1: Number"),
    ("fault 0 store put 0 before\n", "line 1: Number"),
    ("fault 0 store put 4294967296 before\n", "line 1: Number"),
    // invalid records
    ("0 0 0 append 1\n", "line 1: Field"),
    ("0 0 0 append 1,-\n", "line 1: Field"),
    ("0 0 0 append x,-,-\n", "line 1: Field"),
    ("0 0 0 append ,-,-\n", "line 1: Field"),
    ("0 0 0 append -1,-,-\n", "line 1: Field"),
    ("0 0 0 append 9223372036854775808,-,-\n", "line 1: Field"),
    ("0 0 0 append 1,,-\n", "line 1: Field"),
    ("0 0 0 append 1,-,\n", "line 1: Field"),
    ("0 0 0 append 1,-,k\n", "line 1: Field"),
    ("0 0 0 append 1,-,:v,\n", "line 1: Field"),
    ("0 0 0 append 1,-,:v,:h\n", "line 1: Field"),
    ("0 0 0 append 1,-,:v,-=:b\n", "line 1: Field"),
    ("0 0 0 append 1,-,:v,:h=\n", "line 1: Field"),
    ("0 0 0 append 1,-,:v,:h=:b=:c\n", "line 1: Field"),
    ("0 0 0 append 1,-,x0\n", "line 1: Field"),
    ("0 0 0 append 1,-,x0g\n", "line 1: Field"),
    ("0 0 0 append 1,-,:a-b\n", "line 1: Field"),
    ("0 0 0 append 1,-,:a 2\n", "line 1: Field"),
    // raw bytes that are not hexadecimal
    ("0 0 0 raw 0\n", "line 1: Hex"),
    ("0 0 0 raw 0g\n", "line 1: Hex"),
    ("0 0 0 raw x00\n", "line 1: Hex"),
    ("0 0 0 raw 0 1\n", "line 1: Hex"),
    // options after a command
    ("0 0 0 flush\npartitions 1\n", "line 2: TooLate"),
    ("0 0 0 flush\nbrokers 1\n", "line 2: TooLate"),
    ("later 0 0 0 trim\nretention_ms -1\n", "line 2: TooLate"),
    (
        "partitions 1\n0 0 0 flush\npartitions 1\n",
        "line 3: TooLate",
    ),
    // options given again
    ("partitions 1\n# c\npartitions 1\n", "line 3: Twice"),
    ("partitions 1\npartitions 64\n", "line 2: Twice"),
    (
        "\
        local_retention_ms -2\n\
        retention_ms 1\n\
        local_retention_ms -2\n",
        "line 3: Twice",
    ),
    // turns of an actor without commands
    ("turn 0 1\n", "line 1: NoActor"),
    ("0 0 0 flush\nturn 1 1\n", "line 2: NoActor"),
    // fetches past the sum
    ("0 0 0 fetch 0 268435457\n", "line 1: FetchSum"),
    (
        "0 0 0 fetch 0 268435456\n0 0 0 raw 00\n",
        "line 2: FetchSum",
    ),
    (
        "0 0 0 raw 00\n0 0 0 fetch 0 268435456\n",
        "line 2: FetchSum",
    ),
    (
        "0 0 0 fetch 0 268435455\n0 0 0 raw 00\n0 0 0 raw 0000\n",
        "line 3: FetchSum",
    ),
    (
        "0 0 0 raw 0000\n0 0 0 raw 00\n0 0 0 fetch 0 268435455\n",
        "line 3: FetchSum",
    ),
    (
        "0 0 0 fetch 0 268435388\n0 0 0 append 0,-,:a\n",
        "line 2: FetchSum",
    ),
    // a command of the partition that goes to a broker
    ("0 0 0 pack 1\n", "line 1: Word"),
    // actors of two partitions
    (
        "\
        partitions 2\n\
        0 0 0 append 1000,-,:a\n\
        1 1 0 append 1000,-,:b\n\
        2 0 0 flush\n\
        1 0 0 flush\n",
        "line 5: ActorPartition",
    ),
    (
        "partitions 2\nlater 0 0 0 up\nlater 0 1 0 roll\n",
        "line 3: ActorPartition",
    ),
    (
        "partitions 64\n63 63 0 up\n63 62 0 up\n",
        "line 3: ActorPartition",
    ),
    // turns past the sum
    ("0 0 0 up\nturn 0 1048576\nturn 0 1\n", "line 3: TurnSum"),
    (
        "0 0 0 up\nlater 1 0 0 up\nturn 1 1048575\nturn 0 2\n",
        "line 4: TurnSum",
    ),
];

/// Bytes that are no text, and what is reported of them.
static BYTES: [(&[u8], &str); 2] = [
    (b"\x80\n", "line 1: NotText"),
    (b"#\n\n#\xff\n0 x\n", "line 3: NotText"),
];

#[test]
fn valid_scripts_are_read(rt: HostRuntime) {
    for (text, what) in &GOOD {
        assert!(rt; is_told(rt.alloc(), text.as_bytes(), ""), "{what}");
    }
}

#[test]
fn the_first_invalid_line_is_reported(rt: HostRuntime) {
    for (text, told) in &BAD {
        assert!(rt;
            is_told(rt.alloc(), text.as_bytes(), told),
            "{told}: {text}"
        );
    }
}

#[test]
fn bytes_that_are_not_text_are_reported(rt: HostRuntime) {
    for (bytes, told) in &BYTES {
        assert!(rt; is_told(rt.alloc(), bytes, told), "{told}");
    }
}
