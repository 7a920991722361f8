//! What the documents show as refused, and of a shell. Made by docs/snippets.py, which also reports a difference.

/// Words, texts of the input, each with how often it comes, the status, what standard error has, and the end of what
/// is written.
pub(crate) static SHELL: [(&[&str], &[(u32, &str)], u8, &str, &str); 6] = [
    (
        &[],
        &[],
        2,
        "\
        tiered: usage: tiered sim [--threads] or run DIR or gen N or audit DIR or sweep DIR\n\
        for example: tiered sim < examples/first.script\n\
        tiered --help tells more\n",
        "",
    ),
    (
        &["gen", "01"],
        &[],
        2,
        "\
        tiered: usage: tiered sim [--threads] or run DIR or gen N or audit DIR or sweep DIR\n\
        for example: tiered sim < examples/first.script\n\
        tiered --help tells more\n",
        "",
    ),
    (
        &["sim"],
        &[(1, "0 0 0 frob\n")],
        3,
        "tiered: line 1: Word\n",
        "",
    ),
    (
        &["sim"],
        &[
            (1, "segment_bytes 100\n"),
            (4097, "0 0 0 append 1000,-,:a\n"),
        ],
        0,
        "",
        "0 0 4095 = Ok 4095 4095 0\n0 0 4096 = TooManySegments\n",
    ),
    (
        &["sim"],
        &[
            (1, "segment_bytes 100\n"),
            (4096, "0 0 0 append 1,-,:a\n"),
            (1, "0 0 0 roll\n"),
        ],
        0,
        "",
        "0 0 4096 = TooManySegments\n",
    ),
    (
        &["sim"],
        &[(1, "0 0 0 append 1000,-,:"), (1048576, "0"), (1, "\n")],
        3,
        "tiered: line 1: BatchTooLarge\n",
        "",
    ),
];

/// The lines of a script, each with how often it stands there, and what is told of it.
pub(crate) static REFUSED: [(&[(u32, &str)], &str); 26] = [
    (&[(1, "0 0 0 flush é")], "tiered: line 1: NotText\n"),
    (&[(1, "0 0 0 frob")], "tiered: line 1: Word\n"),
    (&[(1, "brokers 9")], "tiered: line 1: Number\n"),
    (&[(1, "0 0 0 append 1000,a,:b")], "tiered: line 1: Field\n"),
    (&[(1, "0 0 0 raw 123")], "tiered: line 1: Hex\n"),
    (
        &[(1, "0 0 0 flush"), (1, "brokers 2")],
        "tiered: line 2: TooLate\n",
    ),
    (
        &[(1, "brokers 2"), (1, "brokers 2")],
        "tiered: line 2: Twice\n",
    ),
    (
        &[(1, "partitions 2"), (1, "0 0 0 flush"), (1, "0 1 0 flush")],
        "tiered: line 3: ActorPartition\n",
    ),
    (&[(1, "turn 1 1")], "tiered: line 1: NoActor\n"),
    (&[(65537, "0 0 0 flush")], "tiered: line 65537: TooMany\n"),
    (
        &[(1, "0 0 0 fetch 0 268435456"), (1, "0 0 0 fetch 0 1")],
        "tiered: line 2: FetchSum\n",
    ),
    (&[(2049, "0 0 0 copy")], "tiered: line 2049: CopySum\n"),
    (
        &[(1, "0 0 0 flush"), (1, "turn 0 1048576"), (1, "turn 0 1")],
        "tiered: line 3: TurnSum\n",
    ),
    (&[(1, "0x 0 0 flush")], "tiered: line 1: Number\n"),
    (&[(1, "x 0 0 flush")], "tiered: line 1: Word\n"),
    (&[(1, "0 0 - flush")], "tiered: line 1: Word\n"),
    (&[(1, "0 0 0 clock 5")], "tiered: line 1: Word\n"),
    (&[(1, "0 0 0 offset first")], "tiered: line 1: Word\n"),
    (&[(1, "0 0 - copying 2")], "tiered: line 1: Number\n"),
    (&[(1, "0 0 0 trim 1")], "tiered: line 1: Word\n"),
    (&[(1, "retention_bytes -2")], "tiered: line 1: Number\n"),
    (&[(1, "local_retention_ms -01")], "tiered: line 1: Number\n"),
    (
        &[(1, "0 0 0 trim"), (1, "local_retention_bytes 0")],
        "tiered: line 2: TooLate\n",
    ),
    (
        &[(1, "retention_ms 5"), (1, "retention_ms 5")],
        "tiered: line 2: Twice\n",
    ),
    (
        &[(1, "fault 0 store sync 1 after")],
        "tiered: line 1: Word\n",
    ),
    (
        &[
            (1, "0 0 0 fetch 0 268435456"),
            (1, "0 0 0 append 1000,-,:a"),
        ],
        "tiered: line 2: FetchSum\n",
    ),
];
