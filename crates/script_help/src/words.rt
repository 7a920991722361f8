//! The words that are worth asking for, and what may follow one.

/// The options.
pub static OPTIONS: [&str; 8] = [
    "brokers",
    "partitions",
    "segment_bytes",
    "index_interval_bytes",
    "retention_ms",
    "retention_bytes",
    "local_retention_ms",
    "local_retention_bytes",
];

/// The first words of other lines.
pub static LINES: [&str; 3] = ["later", "turn", "fault"];

/// The commands.
pub static COMMANDS: [&str; 23] = [
    "append", "raw", "flush", "roll", "fetch", "offset", "elect", "unclean", "learn", "join",
    "follow", "ack", "shrink", "expand", "copy", "copying", "pack", "trim", "expire", "raise",
    "clock", "stop", "up",
];

/// The words after others.
pub static OTHERS: [&str; 20] = [
    "-",
    "earliest",
    "latest",
    "earliest_local",
    "latest_tiered",
    "at",
    "disk",
    "store",
    "meta",
    "sync",
    "read",
    "cut",
    "replace",
    "remove",
    "list",
    "put",
    "get",
    "delete",
    "before",
    "after",
];

/// What may follow the words so far of some line, for each place of each form.
pub static TAILS: [&str; 20] = [
    "",
    " 1",
    " 0",
    " 100",
    " 1 1",
    " 00",
    " 0,-,-",
    " latest",
    " flush",
    " clock 1",
    " 0 flush",
    " 0 0 flush",
    " 0 0 0 flush",
    " before",
    " 1 before",
    " read 1 before",
    " put 1 before",
    " 0 read 1 before",
    " store put 1 before",
    " 0 store put 1 before",
];
