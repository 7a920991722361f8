//! What the documents and the examples show as run, part 5. Made by docs/snippets.py, which also reports a difference.

/// Scripts and their traces.
pub(crate) static RUNS: &str = "# examples/two-tiers.script
# A closed segment is copied to the remote tier, dropped from the local log, and read back.
segment_bytes 200
local_retention_bytes 0

# Three batches of 69 bytes. The third one doesn't fit the first segment, so it opens a second.
0 0 0 append 1000,-,:a
0 0 0 append 1000,-,:b
0 0 0 append 1000,-,:c

# The log is flushed up to its end, and the high watermark rises to it.
0 0 0 flush
0 0 0 ack

# The leader copies its closed segment, and then drops it from its own disk.
0 0 0 copy
0 0 0 trim

# Offset 0 is read from the object store, offset 2 from the local log.
0 0 0 fetch 0 1000
0 0 0 fetch 2 1000
`0 0 0 = Ok 0 0 0
0 0 1 = Ok 1 1 0
0 0 2 = Ok 2 2 0
0 0 3 = Ok 3
0 0 4 = Ok 3
0 0 5 begin
0 0 5 = Copied 00000000-0000-0001-0000-000000000000 0 1
0 0 6 begin
0 0 6 = Dropped 0 1
0 0 7 begin
0 0 7 = Run remote 00000000-0000-0001-0000-000000000000 138 Piece 0000000000000000000000390000000002ebf1884b00000000000000000000000003e800000000000003e8ffffffffffffffffffffffffffff000000010e000000010261000000000000000001000000390000000002df1620d200000000000000000000000003e800000000000003e8ffffffffffffffffffffffffffff000000010e00000001026200
0 0 8 = Run local 2 69 Mark 0000000000000002000000390000000002ccb4b8a500000000000000000000000003e800000000000003e8ffffffffffffffffffffffffffff000000010e00000001026300
`";
