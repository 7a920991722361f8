//! What the documents and the examples show as run, part 2. Made by docs/snippets.py, which also reports a difference.

/// Scripts and their traces.
pub(crate) static RUNS: &str = "# docs/SCRIPT.md, script 23
brokers 2
segment_bytes 200
local_retention_bytes 0
fault 0 meta read 4 before
fault 0 store get 1 before
1 0 1 shrink
0 0 0 append 1000,-,:a
0 0 0 append 1000,-,:b
0 0 0 append 1000,-,:c
0 0 0 flush
0 0 0 ack
0 0 0 copy
0 0 0 trim
# the metadata log fails at the second turn of a join, the store at the third of another
1 0 1 join
1 0 1 join
# the leader is down at the last turn of this one
later 2 0 1 join
turn 2 3
0 0 0 stop
turn 2 1
`0 1 0 = Ok
0 0 0 = Ok 0 0 0
0 0 1 = Ok 1 1 0
0 0 2 = Ok 2 2 0
0 0 3 = Ok 3
0 0 4 = Ok 3
0 0 5 begin
0 0 5 = Copied 00000000-0000-0001-0000-000000000000 0 1
0 0 6 begin
0 0 6 = Dropped 0 1
0 1 1 begin cut 0
0 1 1 = MetaFault
0 1 2 begin cut 0
0 1 2 = StoreFault
0 2 0 begin cut 0
0 0 7 = Ok
0 2 0 = Rebuilt 2
`# docs/SCRIPT.md, script 24
brokers 2
fault 0 disk 0 read 1 before
fault 0 disk 1 append 3 before
0 0 0 follow 1000
1 0 1 follow 1000
0 0 0 append 1000,-,:a
1 0 1 follow 1000
1 0 1 follow 1000
# two actors make broker 1 follow at once: the second one is too late
0 0 0 append 1000,-,:b
later 2 0 1 follow 1000
turn 2 1
1 0 1 follow 1000
turn 2 1
0 0 0 append 1000,-,:c
1 0 1 follow 1000
1 0 1 follow 1000
1 0 1 up
1 0 1 learn
1 0 1 join
# broker 1 stops between the turns; then an epoch starts between them
later 2 0 1 follow 1000
turn 2 1
1 0 1 stop
1 0 1 up
1 0 1 learn
1 0 1 join
turn 2 1
later 2 0 1 follow 1000
turn 2 1
0 0 0 elect
turn 2 1
1 0 1 follow 1000
1 0 1 learn
1 0 1 follow 1000
1 0 1 join
0 0 0 learn
1 0 1 join
0 0 0 stop
1 0 1 follow 1000
`0 0 0 = NotJoined
0 1 0 = Level
0 0 1 = Ok 0 0 0
0 1 1 = DiskFault
0 1 2 begin
0 1 2 = Copied 1
0 0 2 = Ok 1 1 0
0 2 0 begin
0 1 3 begin
0 1 3 = Copied 2
0 2 0 = Passed 2
0 0 3 = Ok 2 2 0
0 1 4 begin
0 1 4 = DiskFault
0 1 5 = Down
0 1 6 = Up 0
0 1 7 = Follows 0
0 1 8 = Cut 0
0 2 1 begin
0 1 9 = Ok
0 1 10 = Up 0
0 1 11 = Follows 0
0 1 12 = Cut 0
0 2 1 = Stopped
0 2 2 begin
0 0 4 = Ok 1
0 2 2 = StaleEpoch 1
0 1 13 = StaleEpoch 1
0 1 14 = Follows 1
0 1 15 = NotJoined
0 1 16 = NoLeader
0 0 5 = Leads 1
0 1 17 = Cut 0
0 0 6 = Ok
0 1 18 = NoLeader
`# docs/SCRIPT.md, script 25
brokers 2
segment_bytes 200
1 0 1 shrink
0 0 0 append 1000,-,:a
0 0 0 append 1000,-,:b
0 0 0 append 1000,-,:c
0 0 0 flush
0 0 0 ack
0 0 0 raise 2
0 0 0 trim
1 0 1 follow 1000
1 0 1 join
1 0 1 follow 1000
`0 1 0 = Ok
0 0 0 = Ok 0 0 0
0 0 1 = Ok 1 1 0
0 0 2 = Ok 2 2 0
0 0 3 = Ok 3
0 0 4 = Ok 3
0 0 5 = Ok 2
0 0 6 begin
0 0 6 = Dropped 0 1
0 1 1 = Moved 2
0 1 2 begin cut 0
0 1 2 = Rebuilt 2
0 1 3 begin
0 1 3 = Copied 3
`# docs/SCRIPT.md, script 26
brokers 2
0 0 0 append 1000,-,:a
0 0 0 flush
0 0 0 ack
1 0 1 follow 1000
1 0 1 ack
1 0 1 flush
1 0 1 ack
1 0 1 elect
0 0 0 ack
0 0 0 learn
0 0 0 ack
0 0 0 stop
0 0 0 ack
`0 0 0 = Ok 0 0 0
0 0 1 = Ok 1
0 0 2 = Ok 0
0 1 0 begin
0 1 0 = Copied 1
0 1 1 = Ok 0
0 1 2 = Ok 1
0 1 3 = Ok 1
0 1 4 = Ok 1
0 0 3 = StaleEpoch 1
0 0 4 = Follows 1
0 0 5 = NotJoined
0 0 6 = Ok
0 0 7 = Down
`# docs/SCRIPT.md, script 27
brokers 2
0 0 0 shrink
1 0 1 shrink
1 0 1 shrink
`0 0 0 = IsLeader
0 1 0 = Ok
0 1 1 = NotInSync
`# docs/SCRIPT.md, script 28
brokers 2
1 0 1 shrink
0 0 0 append 1000,-,:a
0 0 0 flush
0 0 0 ack
1 0 1 expand
1 0 1 stop
1 0 1 expand
1 0 1 up
1 0 1 learn
1 0 1 join
1 0 1 follow 1000
1 0 1 flush
1 0 1 ack
1 0 1 expand
`0 1 0 = Ok
0 0 0 = Ok 0 0 0
0 0 1 = Ok 1
0 0 2 = Ok 1
0 1 1 = Behind 0 1
0 1 2 = Ok
0 1 3 = DownBroker
0 1 4 = Up 0
0 1 5 = Follows 0
0 1 6 = Cut 0
0 1 7 begin
0 1 7 = Copied 1
0 1 8 = Ok 1
0 1 9 = Ok 1
0 1 10 = Ok
`# docs/SCRIPT.md, script 29
0 0 0 stop
0 0 0 stop
`0 0 0 = Ok
0 0 1 = Down
`# docs/SCRIPT.md, script 30
fault 0 disk 0 list 1 before
0 0 0 append 1000,-,:a
0 0 0 flush
0 0 0 append 1000,-,:b
0 0 0 up
0 0 0 stop
0 0 0 up
0 0 0 up
`0 0 0 = Ok 0 0 0
0 0 1 = Ok 1
0 0 2 = Ok 1 1 0
0 0 3 = IsUp
0 0 4 = Ok
0 0 5 = DiskFault
0 0 6 = Up 1
`# docs/SCRIPT.md, script 31
0 0 - clock 86400000
`0 0 0 = Ok
`# docs/SCRIPT.md, script 32
brokers 2
segment_bytes 200
fault 0 meta read 3 before
fault 0 disk 0 read 1 before
fault 0 store put 3 after
fault 0 meta append 3 before
1 0 1 shrink
# a segment has two of these batches, so the third one closes it
0 0 0 append 1000,-,:a
0 0 0 append 1000,-,:b
0 0 0 append 1000,-,:c
1 0 1 copy
0 0 0 copy
0 0 0 flush
0 0 0 ack
0 0 0 copy
0 0 0 copy
0 0 0 copy
0 0 0 copy
0 0 0 copy
0 0 0 copy
# a roll closes the open segment, and its copy ends at the fourth turn: the broker stopped
0 0 0 roll
later 2 0 0 copy
turn 2 3
0 0 0 stop
0 0 0 copy
turn 2 1
`0 1 0 = Ok
0 0 0 = Ok 0 0 0
0 0 1 = Ok 1 1 0
0 0 2 = Ok 2 2 0
0 1 1 = NotLeader
0 0 3 begin
0 0 3 = Level
0 0 4 = Ok 3
0 0 5 = Ok 3
0 0 6 begin
0 0 6 = DiskFault
0 0 7 = MetaFault
0 0 8 begin
0 0 8 = StoreFault
0 0 9 begin
0 0 9 = MetaFault
0 0 10 begin
0 0 10 = Copied 00000000-0000-0001-0000-000000000002 0 1
0 0 11 begin
0 0 11 = Level
0 0 12 = Ok 3
0 2 0 begin
0 0 13 = Ok
0 0 14 = Down
0 2 0 = LostLead
`# docs/SCRIPT.md, script 33
segment_bytes 200
0 0 0 append 1000,-,:a
0 0 0 append 1000,-,:b
0 0 0 append 1000,-,:c
0 0 0 flush
0 0 0 ack
later 1 0 0 copy
turn 1 1
0 0 - copying 0
0 0 0 copy
turn 1 8
0 0 - copying 0
0 0 - copying 1
0 0 0 copy
`0 0 0 = Ok 0 0 0
0 0 1 = Ok 1 1 0
0 0 2 = Ok 2 2 0
0 0 3 = Ok 3
0 0 4 = Ok 3
0 1 0 begin
0 0 5 = Ok
0 0 6 = CopyOff
0 1 0 = Copied 00000000-0000-0001-0000-000000000000 0 1
0 0 7 = Ok
0 0 8 = Ok
0 0 9 begin
0 0 9 = Level
`# docs/SCRIPT.md, script 34
segment_bytes 200
0 0 0 append 1000,-,:a
0 0 0 append 1000,-,:b
0 0 0 append 1000,-,:c
0 0 0 append 1000,-,:d
0 0 0 roll
0 0 0 flush
0 0 0 ack
0 0 - pack 1
0 0 0 copy
0 0 - pack 0
0 0 0 copy
`0 0 0 = Ok 0 0 0
0 0 1 = Ok 1 1 0
0 0 2 = Ok 2 2 0
0 0 3 = Ok 3 3 0
0 0 4 = Ok 4
0 0 5 = Ok 4
0 0 6 = Ok 4
0 0 7 = Ok
0 0 8 begin
0 0 8 = Copied 00000000-0000-0001-0000-000000000000 0 1
0 0 9 = Ok
0 0 10 begin
0 0 10 = Copied 00000000-0000-0001-0000-000000000001 2 3
`# docs/SCRIPT.md, script 35
segment_bytes 200
local_retention_bytes 0
fault 0 meta read 4 before
fault 0 disk 0 replace 3 before
0 0 0 append 1000,-,:a
0 0 0 append 1000,-,:b
0 0 0 append 1000,-,:c
0 0 0 append 1000,-,:d
0 0 0 append 1000,-,:e
0 0 0 flush
0 0 0 ack
# the segment isn't copied yet
0 0 0 trim
0 0 0 copy
0 0 0 trim
0 0 0 trim
# the next one is kept until it is copied; then the trim's disk call fails
0 0 0 trim
0 0 0 copy
later 1 0 0 trim
turn 1 1
0 0 0 trim
0 0 0 trim
turn 1 1
0 0 0 up
# the segment is still there, but the broker has no high watermark until it leads
0 0 0 trim
0 0 0 elect
0 0 0 learn
0 0 0 trim
0 0 0 fetch 2 1000
`0 0 0 = Ok 0 0 0
0 0 1 = Ok 1 1 0
0 0 2 = Ok 2 2 0
0 0 3 = Ok 3 3 0
0 0 4 = Ok 4 4 0
0 0 5 = Ok 5
0 0 6 = Ok 5
0 0 7 begin
0 0 7 = Kept
0 0 8 begin
0 0 8 = Copied 00000000-0000-0001-0000-000000000000 0 1
0 0 9 = MetaFault
0 0 10 begin
0 0 10 = Dropped 0 1
0 0 11 begin
0 0 11 = Kept
0 0 12 begin
0 0 12 = Copied 00000000-0000-0001-0000-000000000001 2 3
0 1 0 begin
0 0 13 begin
0 0 13 = DiskFault
0 0 14 = Down
0 1 0 = Stopped
0 0 15 = Up 5
0 0 16 begin
0 0 16 = Kept
0 0 17 = Ok 1
0 0 18 = Leads 1
0 0 19 begin
0 0 19 = Dropped 2 3
0 0 20 begin
0 0 20 = Run remote 00000000-0000-0001-0000-000000000001 138 Piece 0000000000000002000000390000000002ccb4b8a500000000000000000000000003e800000000000003e8ffffffffffffffffffffffffffff000000010e000000010263000000000000000003000000390000000002b6d971e000000000000000000000000003e800000000000003e8ffffffffffffffffffffffffffff000000010e00000001026400
`# docs/SCRIPT.md, script 36
segment_bytes 200
retention_ms -1
0 0 0 append 1000,-,:a
0 0 0 append 1000,-,:b
0 0 0 append 1000,-,:c
0 0 0 flush
0 0 0 ack
0 0 0 raise 1
0 0 0 trim
0 0 0 raise 2
0 0 0 trim
`0 0 0 = Ok 0 0 0
0 0 1 = Ok 1 1 0
0 0 2 = Ok 2 2 0
0 0 3 = Ok 3
0 0 4 = Ok 3
0 0 5 = Ok 1
0 0 6 begin
0 0 6 = Kept
0 0 7 = Ok 2
0 0 8 begin
0 0 8 = Dropped 0 1
`# docs/SCRIPT.md, script 37
segment_bytes 200
retention_ms 1000
fault 0 store delete 3 before
0 0 0 append 1000,-,:a
0 0 0 append 1500,-,:b
0 0 0 append 3000,-,:c
0 0 0 append 3000,-,:d
0 0 0 append 3000,-,:e
0 0 0 flush
0 0 0 ack
# nothing is copied yet, so nothing goes
0 0 - clock 2501
0 0 0 expire
0 0 0 copy
0 0 0 expire
0 0 0 fetch 1 1000
# the third object stays; the next expiry starts over
0 0 0 expire
0 0 0 expire
0 0 0 expire
# the second copy goes too, and nothing is left but the open segment
0 0 0 copy
0 0 - clock 9000
0 0 0 expire
0 0 0 expire
0 0 0 expire
`0 0 0 = Ok 0 0 0
0 0 1 = Ok 1 1 0
0 0 2 = Ok 2 2 0
0 0 3 = Ok 3 3 0
0 0 4 = Ok 4 4 0
0 0 5 = Ok 5
0 0 6 = Ok 5
0 0 7 = Ok
0 0 8 begin
0 0 8 = Kept
0 0 9 begin
0 0 9 = Copied 00000000-0000-0001-0000-000000000000 0 1
0 0 10 begin
0 0 10 = Raised 2
0 0 11 = OutOfRange 2 5
0 0 12 begin
0 0 12 = StoreFault
0 0 13 begin
0 0 13 = Deleted 00000000-0000-0001-0000-000000000000
0 0 14 begin
0 0 14 = Kept
0 0 15 begin
0 0 15 = Copied 00000000-0000-0001-0000-000000000001 2 3
0 0 16 = Ok
0 0 17 begin
0 0 17 = Raised 4
0 0 18 begin
0 0 18 = Deleted 00000000-0000-0001-0000-000000000001
0 0 19 begin
0 0 19 = Kept
`# docs/SCRIPT.md, script 38
segment_bytes 200
retention_bytes 138
retention_ms -1
0 0 0 append 1000,-,:a
0 0 0 append 1000,-,:b
0 0 0 append 1000,-,:c
0 0 0 append 1000,-,:d
0 0 0 append 1000,-,:e
0 0 0 flush
0 0 0 ack
0 0 0 expire
0 0 - copying 0
# of 345 bytes 207 are left without the first segment, and 69 without the second
0 0 0 expire
0 0 0 expire
0 0 0 trim
`0 0 0 = Ok 0 0 0
0 0 1 = Ok 1 1 0
0 0 2 = Ok 2 2 0
0 0 3 = Ok 3 3 0
0 0 4 = Ok 4 4 0
0 0 5 = Ok 5
0 0 6 = Ok 5
0 0 7 begin
0 0 7 = Kept
0 0 8 = Ok
0 0 9 begin
0 0 9 = Raised 2
0 0 10 begin
0 0 10 = Kept
0 0 11 begin
0 0 11 = Dropped 0 1
`# docs/SCRIPT.md, script 39
brokers 2
segment_bytes 200
retention_bytes 100
0 0 0 append 1000,-,:a
0 0 0 append 1000,-,:b
0 0 0 append 1000,-,:c
0 0 0 flush
1 0 1 follow 1000
1 0 1 flush
1 0 1 ack
0 0 0 ack
0 0 0 copy
# of 207 bytes 69 would be left
0 0 0 expire
0 0 0 append 1000,-,:d
0 0 0 flush
1 0 1 elect
# the old leader hasn't learned that it was replaced
0 0 0 expire
1 0 1 expire
1 0 1 learn
later 2 0 1 expire
turn 2 1
1 0 1 stop
turn 2 1
`0 0 0 = Ok 0 0 0
0 0 1 = Ok 1 1 0
0 0 2 = Ok 2 2 0
0 0 3 = Ok 3
0 1 0 begin
0 1 0 = Copied 2
0 1 1 = Ok 2
0 1 2 = Ok 0
0 0 4 = Ok 2
0 0 5 begin
0 0 5 = Copied 00000000-0000-0001-0000-000000000000 0 1
0 0 6 begin
0 0 6 = Kept
0 0 7 = Ok 3 3 0
0 0 8 = Ok 4
0 1 3 = Ok 1
0 0 9 begin
0 0 9 = StaleEpoch 1
0 1 4 = NotLeader
0 1 5 = Leads 1
0 2 0 begin
0 1 6 = Ok
0 2 0 = LostLead
`# docs/SCRIPT.md, script 40
segment_bytes 200
0 0 0 append 1000,-,:a
0 0 0 append 1000,-,:b
0 0 0 append 1000,-,:c
0 0 0 flush
0 0 0 ack
# all objects are uploaded, but not yet recorded as finished
later 1 0 0 copy
turn 1 7
0 0 0 raise 2
0 0 0 expire
turn 1 6
0 0 0 fetch 1 1000
`0 0 0 = Ok 0 0 0
0 0 1 = Ok 1 1 0
0 0 2 = Ok 2 2 0
0 0 3 = Ok 3
0 0 4 = Ok 3
0 1 0 begin
0 0 5 = Ok 2
0 0 6 begin
0 0 6 = Deleted 00000000-0000-0001-0000-000000000000
0 1 0 = Overtaken DeleteFinished
0 0 7 = OutOfRange 2 3
`# examples/before-ack.script
# Only what is acknowledged can be fetched, and only what is flushed can be acknowledged.
0 0 0 append 1000,-,:a
0 0 0 fetch 0 1000

# An ack before the flush acknowledges a flushed end of 0. A flush alone doesn't raise the high
# watermark.
0 0 0 ack
0 0 0 flush
0 0 0 fetch 0 1000

# After a flush and an ack the first batch can be fetched.
0 0 0 ack
0 0 0 append 1000,-,:b
0 0 0 fetch 0 1000

# The second one is in the log but not committed, so fetches at offset 1 and at the log end, 2, are
# empty. Past the log end nothing is in range.
0 0 0 fetch 1 1000
0 0 0 fetch 2 1000
0 0 0 fetch 3 1000
`0 0 0 = Ok 0 0 0
0 0 1 = Empty
0 0 2 = Ok 0
0 0 3 = Ok 1
0 0 4 = Empty
0 0 5 = Ok 1
0 0 6 = Ok 1 1 0
0 0 7 = Run local 0 69 Mark 0000000000000000000000390000000002ebf1884b00000000000000000000000003e800000000000003e8ffffffffffffffffffffffffffff000000010e00000001026100
0 0 8 = Empty
0 0 9 = Empty
0 0 10 = OutOfRange 0 2
`";
