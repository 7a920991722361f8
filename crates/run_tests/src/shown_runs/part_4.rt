//! What the documents and the examples show as run, part 4. Made by docs/snippets.py, which also reports a difference.

/// Scripts and their traces.
pub(crate) static RUNS: &str = "# examples/limits.script
# How many batches a fetch returns, and why it ends. The three batches have 73, 74 and 74 bytes.
0 0 0 append 1700000000000,-,:apple
0 0 0 append 1700000000001,-,:banana
0 0 0 append 1700000000002,-,:cherry
0 0 0 flush
0 0 0 ack

# One batch is always returned, even if it doesn't fit the limit.
0 0 0 fetch 0 1

# 147 bytes are just two batches, and with a byte less the second doesn't fit.
0 0 0 fetch 0 147
0 0 0 fetch 0 146

# A run that reaches the high watermark ends with Mark, even if its one batch doesn't fit the limit.
0 0 0 fetch 1 1000
0 0 0 fetch 2 0
`0 0 0 = Ok 0 0 0
0 0 1 = Ok 1 1 0
0 0 2 = Ok 2 2 0
0 0 3 = Ok 3
0 0 4 = Ok 3
0 0 5 = Run local 0 73 Limit 00000000000000000000003d0000000002e05277fc0000000000000000018bcfe568000000018bcfe56800ffffffffffffffffffffffffffff0000000116000000010a6170706c6500
0 0 6 = Run local 0 147 Limit 00000000000000000000003d0000000002e05277fc0000000000000000018bcfe568000000018bcfe56800ffffffffffffffffffffffffffff0000000116000000010a6170706c650000000000000000010000003e0000000002c25ba6780000000000000000018bcfe568010000018bcfe56801ffffffffffffffffffffffffffff0000000118000000010c62616e616e6100
0 0 7 = Run local 0 73 Limit 00000000000000000000003d0000000002e05277fc0000000000000000018bcfe568000000018bcfe56800ffffffffffffffffffffffffffff0000000116000000010a6170706c6500
0 0 8 = Run local 0 148 Mark 00000000000000010000003e0000000002c25ba6780000000000000000018bcfe568010000018bcfe56801ffffffffffffffffffffffffffff0000000118000000010c62616e616e610000000000000000020000003e000000000272c7976a0000000000000000018bcfe568020000018bcfe56802ffffffffffffffffffffffffffff0000000118000000010c63686572727900
0 0 9 = Run local 0 74 Mark 00000000000000020000003e000000000272c7976a0000000000000000018bcfe568020000018bcfe56802ffffffffffffffffffffffffffff0000000118000000010c63686572727900
`# examples/packed.script
# Segments are packed: a copy uploads one object in place of four, and reads find the parts in it.
segment_bytes 100
local_retention_bytes 0

# Three closed segments of a batch each, and an open one, committed.
0 0 0 append 1000,-,:a
0 0 0 append 2000,-,:b
0 0 0 append 3000,-,:c
0 0 0 append 4000,-,:d
0 0 0 flush
0 0 0 ack

# The first one is copied as four objects.
0 0 0 copy

# From now on copies are packed. The second one is copied as one object, by the fifth put. The sixth
# fails, and leaves the third one to the next copy.
fault 0 store put 6 before
0 0 - pack 1
0 0 0 copy
0 0 0 copy
0 0 0 copy
0 0 0 offset latest_tiered

# All three are trimmed, and served from the tier in both forms.
0 0 0 trim
0 0 0 trim
0 0 0 trim
0 0 0 fetch 0 1000
0 0 0 fetch 1 1000
0 0 0 fetch 2 1000
0 0 0 offset at 2000

# An expiry of the first one deletes four objects, of the second one a single object.
0 0 0 raise 2
0 0 0 expire
0 0 0 expire
0 0 0 fetch 1 1000
0 0 0 fetch 2 1000
`0 0 0 = Ok 0 0 0
0 0 1 = Ok 1 1 0
0 0 2 = Ok 2 2 0
0 0 3 = Ok 3 3 0
0 0 4 = Ok 4
0 0 5 = Ok 4
0 0 6 begin
0 0 6 = Copied 00000000-0000-0001-0000-000000000000 0 0
0 0 7 = Ok
0 0 8 begin
0 0 8 = Copied 00000000-0000-0001-0000-000000000001 1 1
0 0 9 begin
0 0 9 = StoreFault
0 0 10 begin
0 0 10 = Copied 00000000-0000-0001-0000-000000000003 2 2
0 0 11 begin
0 0 11 = Offset 2
0 0 12 begin
0 0 12 = Dropped 0 0
0 0 13 begin
0 0 13 = Dropped 1 1
0 0 14 begin
0 0 14 = Dropped 2 2
0 0 15 begin
0 0 15 = Run remote 00000000-0000-0001-0000-000000000000 69 Piece 0000000000000000000000390000000002ebf1884b00000000000000000000000003e800000000000003e8ffffffffffffffffffffffffffff000000010e00000001026100
0 0 16 begin
0 0 16 = Run remote 00000000-0000-0001-0000-000000000001 69 Piece 00000000000000010000003900000000024dbddfc300000000000000000000000007d000000000000007d0ffffffffffffffffffffffffffff000000010e00000001026200
0 0 17 begin
0 0 17 = Run remote 00000000-0000-0001-0000-000000000003 69 Piece 000000000000000200000039000000000225e957490000000000000000000000000bb80000000000000bb8ffffffffffffffffffffffffffff000000010e00000001026300
0 0 18 begin
0 0 18 = Offset 1
0 0 19 = Ok 2
0 0 20 begin
0 0 20 = Deleted 00000000-0000-0001-0000-000000000000
0 0 21 begin
0 0 21 = Deleted 00000000-0000-0001-0000-000000000001
0 0 22 = OutOfRange 2 4
0 0 23 begin
0 0 23 = Run remote 00000000-0000-0001-0000-000000000003 69 Piece 000000000000000200000039000000000225e957490000000000000000000000000bb80000000000000bb8ffffffffffffffffffffffffffff000000010e00000001026300
`# examples/remote-faults.script
# Store and metadata log fail: a copy ends where its call fails, and the next one starts over, under
# another id.
segment_bytes 200

# A copy appends a start event, puts four objects, appends a finish event, and reads the events at its
# first and its last turn. A call that fails *before* isn't done; one that fails *after* is done, but
# its broker doesn't learn that.
fault 0 meta append 1 before
fault 0 store put 2 before
fault 0 store put 6 after
fault 0 meta append 5 before
fault 0 meta append 7 after
fault 0 meta read 6 before
fault 0 meta read 8 before

# Two closed segments, of two batches each, and an open one.
0 0 0 append 1000,-,:a
0 0 0 append 1000,-,:b
0 0 0 append 1000,-,:c
0 0 0 append 1000,-,:d
0 0 0 append 1000,-,:e
0 0 0 flush
0 0 0 ack

# The start event isn't appended.
0 0 0 copy

# The second object isn't put. The first one stays, under an id that is never finished.
0 0 0 copy

# The fourth object is put, but the broker doesn't know it.
0 0 0 copy

# All four objects exist, but the finish event isn't appended.
0 0 0 copy

# That event is appended, so the segment is copied, but the broker doesn't know it.
0 0 0 copy

# The next copy can't read the events, and doesn't begin. The one after it finds the first segment
# copied, under the fifth id, and copies the second segment. Its last read of the events fails.
0 0 0 copy
0 0 0 copy

# Both segments are copied. Six copies have begun so far, so the next one has the seventh id.
0 0 0 copy
0 0 0 roll
0 0 0 copy
`0 0 0 = Ok 0 0 0
0 0 1 = Ok 1 1 0
0 0 2 = Ok 2 2 0
0 0 3 = Ok 3 3 0
0 0 4 = Ok 4 4 0
0 0 5 = Ok 5
0 0 6 = Ok 5
0 0 7 begin
0 0 7 = MetaFault
0 0 8 begin
0 0 8 = StoreFault
0 0 9 begin
0 0 9 = StoreFault
0 0 10 begin
0 0 10 = MetaFault
0 0 11 begin
0 0 11 = MetaFault
0 0 12 = MetaFault
0 0 13 begin
0 0 13 = MetaFault
0 0 14 begin
0 0 14 = Level
0 0 15 = Ok 5
0 0 16 begin
0 0 16 = Copied 00000000-0000-0001-0000-000000000006 4 4
`# examples/replaced-leader.script
# A leader is replaced in the middle of a copy, and the new leader copies the segment again.
brokers 2
segment_bytes 200

# Broker 0 leads, and broker 1 follows. Everything is flushed on both, and committed.
0 0 0 append 1000,-,:a
0 0 0 append 1000,-,:b
0 0 0 append 1000,-,:c
1 0 1 follow 1000
1 0 1 follow 1000
1 0 1 flush
1 0 1 ack
0 0 0 flush
0 0 0 ack

# Broker 0 begins a copy, and has put three of the four objects when it stops.
later 2 0 0 copy
turn 2 6
0 0 0 stop

# Broker 1 is elected, learns that it leads, and copies the segment under an id of its own.
1 0 1 elect
1 0 1 learn
1 0 1 copy

# Broker 0's copy ends at its next turn. Three objects stay, under an id that is never finished.
turn 2 1

# A leader that was replaced and hasn't learned of it continues. Broker 1 begins to copy its next
# segment; broker 0 has the batches by then, is elected, and copies the segment too.
1 0 1 append 1000,-,:d
1 0 1 append 1000,-,:e
0 0 0 up
0 0 0 learn
0 0 0 join
0 0 0 follow 1000
0 0 0 follow 1000
0 0 0 flush
0 0 0 ack
1 0 1 flush
1 0 1 ack
0 0 0 expand
later 3 0 1 copy
turn 3 5
0 0 0 elect
0 0 0 learn
0 0 0 copy

# Both copies finish. They have the same batches.
turn 3 4
`0 0 0 = Ok 0 0 0
0 0 1 = Ok 1 1 0
0 0 2 = Ok 2 2 0
0 1 0 begin
0 1 0 = Copied 2
0 1 1 begin
0 1 1 = Copied 3
0 1 2 = Ok 3
0 1 3 = Ok 0
0 0 3 = Ok 3
0 0 4 = Ok 3
0 2 0 begin
0 0 5 = Ok
0 1 4 = Ok 1
0 1 5 = Leads 1
0 1 6 begin
0 1 6 = Copied 00000001-0000-0001-0000-000000000000 0 1
0 2 0 = LostLead
0 1 7 = Ok 3 3 1
0 1 8 = Ok 4 4 1
0 0 6 = Up 3
0 0 7 = Follows 1
0 0 8 = Cut 3
0 0 9 begin
0 0 9 = Copied 4
0 0 10 begin
0 0 10 = Copied 5
0 0 11 = Ok 5
0 0 12 = Ok 3
0 1 9 = Ok 5
0 1 10 = Ok 5
0 0 13 = Ok
0 3 0 begin
0 0 14 = Ok 2
0 0 15 = Leads 2
0 0 16 begin
0 0 16 = Copied 00000000-0000-0002-0000-000000000000 2 3
0 3 0 = Copied 00000001-0000-0001-0000-000000000001 2 3
`# examples/retention.script
# Retention raises the log start offset, and then the remote segments below it are deleted, the oldest
# first.
brokers 3
segment_bytes 200
retention_bytes 345
retention_ms 5000
local_retention_bytes 0

# Three closed segments of two batches each, and an open one, on three brokers, committed.
0 0 0 append 1000,-,:a
0 0 0 append 1000,-,:b
0 0 0 append 2000,-,:c
0 0 0 append 2000,-,:d
0 0 0 append 3000,-,:e
0 0 0 append 3000,-,:f
0 0 0 append 4000,-,:g
1 0 1 follow 1000
1 0 1 follow 1000
1 0 1 follow 1000
1 0 1 follow 1000
1 0 1 flush
1 0 1 ack
2 0 2 follow 1000
2 0 2 follow 1000
2 0 2 follow 1000
2 0 2 follow 1000
2 0 2 flush
2 0 2 ack
0 0 0 flush
0 0 0 ack

# The first two are copied and trimmed: the local log starts at 4.
0 0 0 copy
0 0 0 copy
0 0 0 trim
0 0 0 trim

# Of 483 bytes 345 are kept: the log start offset rises past the first segment. The next expiry
# deletes its objects, and the third one finds nothing to do.
0 0 0 expire
0 0 0 fetch 0 1000
0 0 0 expire
0 0 0 expire
0 0 0 fetch 2 1000

# More than five seconds after its last record the second segment is too old.
0 0 - clock 7001
0 0 0 expire
0 0 0 expire
0 0 0 fetch 2 1000
0 0 0 fetch 4 1000

# A copy of the third segment begins, and after four of its turns broker 1 is elected. The new leader
# raises the log start offset past that segment, and its expiry deletes what was uploaded so far.
later 3 0 0 copy
turn 3 4
1 0 1 elect
1 0 1 learn
1 0 1 raise 6
1 0 1 expire

# The old leader hasn't learned of it, and continues its copy. At its end it sees that the segment was
# deleted, and deletes its objects again.
`0 0 0 = Ok 0 0 0
0 0 1 = Ok 1 1 0
0 0 2 = Ok 2 2 0
0 0 3 = Ok 3 3 0
0 0 4 = Ok 4 4 0
0 0 5 = Ok 5 5 0
0 0 6 = Ok 6 6 0
0 1 0 begin
0 1 0 = Copied 2
0 1 1 begin
0 1 1 = Copied 4
0 1 2 begin
0 1 2 = Copied 6
0 1 3 begin
0 1 3 = Copied 7
0 1 4 = Ok 7
0 1 5 = Ok 0
0 2 0 begin
0 2 0 = Copied 2
0 2 1 begin
0 2 1 = Copied 4
0 2 2 begin
0 2 2 = Copied 6
0 2 3 begin
0 2 3 = Copied 7
0 2 4 = Ok 7
0 2 5 = Ok 0
0 0 7 = Ok 7
0 0 8 = Ok 7
0 0 9 begin
0 0 9 = Copied 00000000-0000-0001-0000-000000000000 0 1
0 0 10 begin
0 0 10 = Copied 00000000-0000-0001-0000-000000000001 2 3
0 0 11 begin
0 0 11 = Dropped 0 1
0 0 12 begin
0 0 12 = Dropped 2 3
0 0 13 begin
0 0 13 = Raised 2
0 0 14 = OutOfRange 2 7
0 0 15 begin
0 0 15 = Deleted 00000000-0000-0001-0000-000000000000
0 0 16 begin
0 0 16 = Kept
0 0 17 begin
0 0 17 = Run remote 00000000-0000-0001-0000-000000000001 138 Piece 00000000000000020000003900000000025e1f47b400000000000000000000000007d000000000000007d0ffffffffffffffffffffffffffff000000010e00000001026300000000000000000300000039000000000224728ef100000000000000000000000007d000000000000007d0ffffffffffffffffffffffffffff000000010e00000001026400
0 0 18 = Ok
0 0 19 begin
0 0 19 = Raised 4
0 0 20 begin
0 0 20 = Deleted 00000000-0000-0001-0000-000000000001
0 0 21 = OutOfRange 4 7
0 0 22 = Run local 4 138 Piece 00000000000000040000003900000000024c26067b0000000000000000000000000bb80000000000000bb8ffffffffffffffffffffffffffff000000010e00000001026500000000000000000500000039000000000278c1aee20000000000000000000000000bb80000000000000bb8ffffffffffffffffffffffffffff000000010e00000001026600
0 3 0 begin
0 1 6 = Ok 1
0 1 7 = Leads 1
0 1 8 = Ok 6
0 1 9 begin
0 1 9 = Deleted 00000000-0000-0001-0000-000000000002
0 3 0 = Overtaken DeleteFinished
`# examples/segments.script
# A log in segments, a stop, and what comes back.

# a batch that doesn't fit a segment of 200 bytes opens a new one, and each batch has an index entry
segment_bytes 200
index_interval_bytes 0

# three batches of 69 bytes: the third rolls the log, so a fetch at 0 returns two
0 0 0 append 1000,-,:a
0 0 0 append 1000,-,:b
0 0 0 append 1000,-,:c
0 0 0 flush
0 0 0 ack
0 0 0 fetch 0 1000
0 0 0 fetch 2 1000

# a roll by command, and one of an empty segment
0 0 0 roll
0 0 0 roll

# this batch isn't flushed, and is lost in the stop
0 0 0 append 1000,-,:d
0 0 0 stop
0 0 0 up

# the broker has led epoch 0 before, so it must be elected again to lead
0 0 0 learn
0 0 0 elect
0 0 0 learn
0 0 0 append 1000,-,:e
0 0 0 flush
0 0 0 ack
0 0 0 fetch 2 1000
0 0 0 fetch 3 1000
`0 0 0 = Ok 0 0 0
0 0 1 = Ok 1 1 0
0 0 2 = Ok 2 2 0
0 0 3 = Ok 3
0 0 4 = Ok 3
0 0 5 = Run local 0 138 Piece 0000000000000000000000390000000002ebf1884b00000000000000000000000003e800000000000003e8ffffffffffffffffffffffffffff000000010e000000010261000000000000000001000000390000000002df1620d200000000000000000000000003e800000000000003e8ffffffffffffffffffffffffffff000000010e00000001026200
0 0 6 = Run local 2 69 Mark 0000000000000002000000390000000002ccb4b8a500000000000000000000000003e800000000000003e8ffffffffffffffffffffffffffff000000010e00000001026300
0 0 7 = Ok 3
0 0 8 = EmptySegment
0 0 9 = Ok 3 3 0
0 0 10 = Ok
0 0 11 = Up 3
0 0 12 = NeedsElection 0
0 0 13 = Ok 1
0 0 14 = Leads 1
0 0 15 = Ok 3 3 1
0 0 16 = Ok 4
0 0 17 = Ok 4
0 0 18 = Run local 2 69 Piece 0000000000000002000000390000000002ccb4b8a500000000000000000000000003e800000000000003e8ffffffffffffffffffffffffffff000000010e00000001026300
0 0 19 = Run local 2 69 Mark 0000000000000003000000390000000102a57be99700000000000000000000000003e800000000000003e8ffffffffffffffffffffffffffff000000010e00000001026500
`# examples/tiered-fetch.script
# A log is served half from the remote tier: what was copied is trimmed from the local log, and
# fetched from the store.
brokers 2
segment_bytes 200
local_retention_bytes 138
fault 0 store get 2 before

# Three closed segments of two batches each, and an open one. Everything is flushed on both brokers,
# and committed.
0 0 0 append 1000,-,:a
0 0 0 append 1000,-,:b
0 0 0 append 1000,-,:c
0 0 0 append 1000,-,:d
0 0 0 append 1000,-,:e
0 0 0 append 1000,-,:f
0 0 0 append 1000,-,:g
1 0 1 follow 1000
1 0 1 follow 1000
1 0 1 follow 1000
1 0 1 follow 1000
1 0 1 flush
1 0 1 ack
0 0 0 flush
0 0 0 ack

# What isn't copied isn't trimmed.
0 0 0 trim
0 0 0 copy
0 0 0 copy
0 0 0 copy

# Each trim drops the oldest segment. The third one stays: without it 69 bytes would be left, and
# 138 must stay.
0 0 0 trim
0 0 0 trim
0 0 0 trim

# A fetch below the local log is served from the store, and one at the log's end from the disk. The
# second read of the store fails; the same fetch succeeds after that.
0 0 0 fetch 0 1000
0 0 0 fetch 0 1000
0 0 0 fetch 3 1000
0 0 0 fetch 4 1000
0 0 0 fetch 6 1000

# Broker 0 stops, and broker 1 is elected. It has the whole log on its own disk so far.
0 0 0 stop
1 0 1 elect
1 0 1 learn
1 0 1 fetch 0 1000

# It trims by the copies that broker 0 made, because its log has those batches in the same epochs, and
# serves from them.
1 0 1 trim
1 0 1 trim
1 0 1 fetch 0 1000
1 0 1 fetch 2 70

# It copies the next segment, which has a batch of each epoch. A run ends where its epoch does, in
# the store as on a disk.
1 0 1 append 1000,-,:h
1 0 1 append 1000,-,:i
1 0 1 append 1000,-,:j
1 0 1 append 1000,-,:k
1 0 1 flush
0 0 0 shrink
1 0 1 ack
1 0 1 copy
1 0 1 trim
1 0 1 trim
1 0 1 trim
1 0 1 fetch 4 1000
1 0 1 fetch 6 1000
1 0 1 fetch 7 1000
1 0 1 fetch 8 1000
1 0 1 fetch 10 1000
`0 0 0 = Ok 0 0 0
0 0 1 = Ok 1 1 0
0 0 2 = Ok 2 2 0
0 0 3 = Ok 3 3 0
0 0 4 = Ok 4 4 0
0 0 5 = Ok 5 5 0
0 0 6 = Ok 6 6 0
0 1 0 begin
0 1 0 = Copied 2
0 1 1 begin
0 1 1 = Copied 4
0 1 2 begin
0 1 2 = Copied 6
0 1 3 begin
0 1 3 = Copied 7
0 1 4 = Ok 7
0 1 5 = Ok 0
0 0 7 = Ok 7
0 0 8 = Ok 7
0 0 9 begin
0 0 9 = Kept
0 0 10 begin
0 0 10 = Copied 00000000-0000-0001-0000-000000000000 0 1
0 0 11 begin
0 0 11 = Copied 00000000-0000-0001-0000-000000000001 2 3
0 0 12 begin
0 0 12 = Copied 00000000-0000-0001-0000-000000000002 4 5
0 0 13 begin
0 0 13 = Dropped 0 1
0 0 14 begin
0 0 14 = Dropped 2 3
0 0 15 begin
0 0 15 = Kept
0 0 16 begin
0 0 16 = StoreFault
0 0 17 begin
0 0 17 = Run remote 00000000-0000-0001-0000-000000000000 138 Piece 0000000000000000000000390000000002ebf1884b00000000000000000000000003e800000000000003e8ffffffffffffffffffffffffffff000000010e000000010261000000000000000001000000390000000002df1620d200000000000000000000000003e800000000000003e8ffffffffffffffffffffffffffff000000010e00000001026200
0 0 18 begin
0 0 18 = Run remote 00000000-0000-0001-0000-000000000001 69 Piece 0000000000000003000000390000000002b6d971e000000000000000000000000003e800000000000003e8ffffffffffffffffffffffffffff000000010e00000001026400
0 0 19 = Run local 4 138 Piece 0000000000000004000000390000000002a57be99700000000000000000000000003e800000000000003e8ffffffffffffffffffffffffffff000000010e000000010265000000000000000005000000390000000002919c410e00000000000000000000000003e800000000000003e8ffffffffffffffffffffffffffff000000010e00000001026600
0 0 20 = Run local 6 69 Mark 0000000000000006000000390000000002823ed97900000000000000000000000003e800000000000003e8ffffffffffffffffffffffffffff000000010e00000001026700
0 0 21 = Ok
0 1 6 = Ok 1
0 1 7 = Leads 1
0 1 8 = Run local 0 138 Piece 0000000000000000000000390000000002ebf1884b00000000000000000000000003e800000000000003e8ffffffffffffffffffffffffffff000000010e000000010261000000000000000001000000390000000002df1620d200000000000000000000000003e800000000000003e8ffffffffffffffffffffffffffff000000010e00000001026200
0 1 9 begin
0 1 9 = Dropped 0 1
0 1 10 begin
0 1 10 = Dropped 2 3
0 1 11 begin
0 1 11 = Run remote 00000000-0000-0001-0000-000000000000 138 Piece 0000000000000000000000390000000002ebf1884b00000000000000000000000003e800000000000003e8ffffffffffffffffffffffffffff000000010e000000010261000000000000000001000000390000000002df1620d200000000000000000000000003e800000000000003e8ffffffffffffffffffffffffffff000000010e00000001026200
0 1 12 begin
0 1 12 = Run remote 00000000-0000-0001-0000-000000000001 69 Limit 0000000000000002000000390000000002ccb4b8a500000000000000000000000003e800000000000003e8ffffffffffffffffffffffffffff000000010e00000001026300
0 1 13 = Ok 7 7 1
0 1 14 = Ok 8 8 1
0 1 15 = Ok 9 9 1
0 1 16 = Ok 10 10 1
0 1 17 = Ok 11
0 0 22 = Ok
0 1 18 = Ok 11
0 1 19 begin
0 1 19 = Copied 00000001-0000-0001-0000-000000000000 6 7
0 1 20 begin
0 1 20 = Dropped 4 5
0 1 21 begin
0 1 21 = Dropped 6 7
0 1 22 begin
0 1 22 = Kept
0 1 23 begin
0 1 23 = Run remote 00000000-0000-0001-0000-000000000002 138 Piece 0000000000000004000000390000000002a57be99700000000000000000000000003e800000000000003e8ffffffffffffffffffffffffffff000000010e000000010265000000000000000005000000390000000002919c410e00000000000000000000000003e800000000000003e8ffffffffffffffffffffffffffff000000010e00000001026600
0 1 24 begin
0 1 24 = Run remote 00000001-0000-0001-0000-000000000000 69 Piece 0000000000000006000000390000000002823ed97900000000000000000000000003e800000000000003e8ffffffffffffffffffffffffffff000000010e00000001026700
0 1 25 begin
0 1 25 = Run remote 00000001-0000-0001-0000-000000000000 69 Piece 00000000000000070000003900000001026547d38400000000000000000000000003e800000000000003e8ffffffffffffffffffffffffffff000000010e00000001026800
0 1 26 = Run local 8 138 Piece 000000000000000800000039000000010276e54bf300000000000000000000000003e800000000000003e8ffffffffffffffffffffffffffff000000010e0000000102690000000000000000090000003900000001024202e36a00000000000000000000000003e800000000000003e8ffffffffffffffffffffffffffff000000010e00000001026a00
0 1 27 = Run local 10 69 Mark 000000000000000a00000039000000010251a07b1d00000000000000000000000003e800000000000003e8ffffffffffffffffffffffffffff000000010e00000001026b00
`";
