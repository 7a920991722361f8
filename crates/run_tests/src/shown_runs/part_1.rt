//! What the documents and the examples show as run, part 1. Made by docs/snippets.py, which also reports a difference.

/// Scripts and their traces.
pub(crate) static RUNS: &str = "# docs/SCRIPT.md, script 1
# two records: appended, flushed, committed and read
0 0 0 append 1000,:k,:v 1000,-,:w
0 0 0 flush
0 0 0 ack
0 0 0 fetch 0 1000
`0 0 0 = Ok 0 1 0
0 0 1 = Ok 2
0 0 2 = Ok 2
0 0 3 = Run local 0 78 Mark 000000000000000000000042000000000254c6652100000000000100000000000003e800000000000003e8ffffffffffffffffffffffffffff0000000210000000026b0276000e00000201027700
`# docs/SCRIPT.md, script 2
# blanks, tabs and leading zeros have no meaning

  00   0\t0   append 05,-,:a
0 0 0 flush
`0 0 0 = Ok 0 0 0
0 0 1 = Ok 1
`# docs/SCRIPT.md, script 3
brokers 1
partitions 2
segment_bytes 100
index_interval_bytes 0
0 0 0 append 1000,-,:a
1 1 0 append 1000,-,:b
`0 0 0 = Ok 0 0 0
1 1 0 = Ok 0 0 0
`# docs/SCRIPT.md, script 4
segment_bytes 200
local_retention_ms 1000
local_retention_bytes 138
# the segments 0 to 1 and 2 to 3 have 138 bytes each, and the open one has 69
0 0 0 append 1000,-,:a
0 0 0 append 1500,-,:b
0 0 0 append 2000,-,:c
0 0 0 append 2500,-,:d
0 0 0 append 3000,-,:e
0 0 0 flush
0 0 0 ack
0 0 0 copy
0 0 0 copy
# 207 bytes are left without the first segment, and 69 without the second
0 0 0 trim
0 0 0 trim
# the second one's greatest timestamp is 2500
0 0 - clock 3500
0 0 0 trim
0 0 - clock 3501
0 0 0 trim
`0 0 0 = Ok 0 0 0
0 0 1 = Ok 1 1 0
0 0 2 = Ok 2 2 0
0 0 3 = Ok 3 3 0
0 0 4 = Ok 4 4 0
0 0 5 = Ok 5
0 0 6 = Ok 5
0 0 7 begin
0 0 7 = Copied 00000000-0000-0001-0000-000000000000 0 1
0 0 8 begin
0 0 8 = Copied 00000000-0000-0001-0000-000000000001 2 3
0 0 9 begin
0 0 9 = Dropped 0 1
0 0 10 begin
0 0 10 = Kept
0 0 11 = Ok
0 0 12 begin
0 0 12 = Kept
0 0 13 = Ok
0 0 14 begin
0 0 14 = Dropped 2 3
`# docs/SCRIPT.md, script 5
brokers 2
0 0 0 append 1000,-,:a
later 1 0 1 follow 1000
turn 1 1
0 0 0 append 1000,-,:b
turn 1 1
`0 0 0 = Ok 0 0 0
0 1 0 begin
0 0 1 = Ok 1 1 0
0 1 0 = Copied 1
`# docs/SCRIPT.md, script 6
0 0 0 append 1000,-,:a
0 0 0 append 5,:user.7,x00ff 5,:k,-,:h=-,x00=:v
`0 0 0 = Ok 0 0 0
0 0 1 = Ok 1 2 0
`# docs/SCRIPT.md, script 7
fault 0 disk 0 sync 1 before
fault 0 disk 0 replace 2 after
0 0 0 append 1000,-,:a
0 0 0 flush
# the sync wasn't done, so the batch is lost
# opening the log replaces the manifest twice; the second replace fails
0 0 0 up
0 0 0 up
`0 0 0 = Ok 0 0 0
0 0 1 = DiskFault
0 0 2 = DiskFault
0 0 3 = Up 0
`# docs/SCRIPT.md, script 8
0 0 0 append 1000,-,:a
0 0 0 fetch 0 1000
0 0 0 flush
0 0 0 ack
0 0 0 fetch 0 0
0 0 0 fetch 1 1000
0 0 0 fetch 2 1000
0 0 0 raw 0000
`0 0 0 = Ok 0 0 0
0 0 1 = Empty
0 0 2 = Ok 1
0 0 3 = Ok 1
0 0 4 = Run local 0 69 Mark 0000000000000000000000390000000002ebf1884b00000000000000000000000003e800000000000003e8ffffffffffffffffffffffffffff000000010e00000001026100
0 0 5 = Empty
0 0 6 = OutOfRange 0 1
0 0 7 = Refused Short
`# docs/SCRIPT.md, script 9
brokers 2
fault 0 disk 0 append 3 before
0 0 0 append 1000,-,:a 1000,-,:b
0 0 0 append 1000,-,:c
1 0 1 append 1000,-,:d
0 0 0 append 1000,-,:e
0 0 0 append 1000,-,:f
`0 0 0 = Ok 0 1 0
0 0 1 = Ok 2 2 0
0 1 0 = NotLeader
0 0 2 = DiskFault
0 0 3 = Down
`# docs/SCRIPT.md, script 10
# the bytes end inside the head
0 0 0 raw 0000000000000000000000390000000002ebf1884b00000000000000000000000003e800000000000003e8ffffffffffffffffffffffffffff000000
# an older magic
0 0 0 raw 0000000000000000000000390000000001ebf1884b00000000000000000000000003e800000000000003e8ffffffffffffffffffffffffffff000000010e00000001026100
# a length below that of a head
0 0 0 raw 0000000000000000000000300000000002ebf1884b00000000000000000000000003e800000000000003e8ffffffffffffffffffffffffffff000000010e00000001026100
# a byte after the batch
0 0 0 raw 0000000000000000000000390000000002ebf1884b00000000000000000000000003e800000000000003e8ffffffffffffffffffffffffffff000000010e0000000102610000
# one bit of the value is wrong
0 0 0 raw 0000000000000000000000390000000002ebf1884b00000000000000000000000003e800000000000003e8ffffffffffffffffffffffffffff000000010e00000001026000
# compressed records, with the right checksum
0 0 0 raw 0000000000000000000000390000000002a4f98f1700010000000000000000000003e800000000000003e8ffffffffffffffffffffffffffff000000010e00000001026100
# a control batch of a transaction
0 0 0 raw 0000000000000000000000390000000002c74f0cb600300000000000000000000003e800000000000003e8ffffffffffffffffffffffffffff000000010e00000001026100
# a control batch
0 0 0 raw 0000000000000000000000390000000002207ea2b200200000000000000000000003e800000000000003e8ffffffffffffffffffffffffffff000000010e00000001026100
# no records
0 0 0 raw 00000000000000000000003900000000021fcf5e0300000000000000000000000003e800000000000003e8ffffffffffffffffffffffffffff000000000e00000001026100
# the last offset delta is not the count less 1
0 0 0 raw 000000000000000000000039000000000279aaa3da00000000000100000000000003e800000000000003e8ffffffffffffffffffffffffffff000000010e00000001026100
# the record's offset delta is 1, and it is the first
0 0 0 raw 00000000000000000000003900000000029bd3571300000000000000000000000003e800000000000003e8ffffffffffffffffffffffffffff000000010e00000201026100
# a batch with base offset 99, leader epoch 5 and producer 7: the first two are overwritten
0 0 0 raw 000000000000006300000039000000050228835a5e00000000000000000000000003e800000000000003e80000000000000007ffffffffffff000000010e00000001026100
0 0 0 flush
0 0 0 ack
0 0 0 fetch 0 1000
`0 0 0 = Refused Short
0 0 1 = Refused BadMagic
0 0 2 = Refused BadLength
0 0 3 = Refused BadLength
0 0 4 = Refused BadCrc 3958474827 4166193212
0 0 5 = Refused Compressed
0 0 6 = Refused Transactional
0 0 7 = Refused Control
0 0 8 = Refused BadRecords 57
0 0 9 = Refused BadRecords 23
0 0 10 = Refused BadRecords 61
0 0 11 = Ok 0 0 0
0 0 12 = Ok 1
0 0 13 = Ok 1
0 0 14 = Run local 0 69 Mark 000000000000000000000039000000000228835a5e00000000000000000000000003e800000000000003e80000000000000007ffffffffffff000000010e00000001026100
`# docs/SCRIPT.md, script 11
fault 0 disk 0 replace 2 after
0 0 0 append 1000,-,:a
0 0 0 flush
0 0 0 append 1000,-,:b
0 0 0 flush
0 0 0 flush
# the second replace was done, so both batches are durable
0 0 0 up
`0 0 0 = Ok 0 0 0
0 0 1 = Ok 1
0 0 2 = Ok 1 1 0
0 0 3 = DiskFault
0 0 4 = Down
0 0 5 = Up 2
`# docs/SCRIPT.md, script 12
fault 0 disk 0 sync 2 before
0 0 0 roll
0 0 0 append 1000,-,:a
0 0 0 roll
0 0 0 append 1000,-,:b
0 0 0 roll
0 0 0 roll
`0 0 0 = EmptySegment
0 0 1 = Ok 0 0 0
0 0 2 = Ok 1
0 0 3 = Ok 1 1 0
0 0 4 = DiskFault
0 0 5 = Down
`# docs/SCRIPT.md, script 13
brokers 2
1 0 1 shrink
0 0 0 append 1000,-,:a 1000,-,:b
0 0 0 flush
0 0 0 ack
0 0 0 raise 3
0 0 0 raise 1
0 0 0 raise 1
0 0 0 fetch 0 1000
1 0 1 raise 2
0 0 0 elect
0 0 0 raise 2
0 0 0 stop
0 0 0 raise 2
`0 1 0 = Ok
0 0 0 = Ok 0 1 0
0 0 1 = Ok 2
0 0 2 = Ok 2
0 0 3 = AboveMark 2
0 0 4 = Ok 1
0 0 5 = NotAbove 1
0 0 6 = OutOfRange 1 2
0 1 1 = NotLeader
0 0 7 = Ok 1
0 0 8 = StaleEpoch 1
0 0 9 = Ok
0 0 10 = Down
`# docs/SCRIPT.md, script 14
brokers 2
fault 0 disk 0 read 1 before
0 0 0 append 1000,-,:a
0 0 0 append 1000,-,:b
0 0 0 fetch 0 1000
0 0 0 flush
1 0 1 shrink
0 0 0 ack
0 0 0 fetch 0 1000
0 0 0 fetch 0 69
0 0 0 fetch 0 1000
0 0 0 fetch 2 1000
0 0 0 fetch 3 1000
1 0 1 fetch 0 1000
0 0 0 stop
0 0 0 fetch 0 1000
`0 0 0 = Ok 0 0 0
0 0 1 = Ok 1 1 0
0 0 2 = Empty
0 0 3 = Ok 2
0 1 0 = Ok
0 0 4 = Ok 2
0 0 5 = DiskFault
0 0 6 = Run local 0 69 Limit 0000000000000000000000390000000002ebf1884b00000000000000000000000003e800000000000003e8ffffffffffffffffffffffffffff000000010e00000001026100
0 0 7 = Run local 0 138 Mark 0000000000000000000000390000000002ebf1884b00000000000000000000000003e800000000000003e8ffffffffffffffffffffffffffff000000010e000000010261000000000000000001000000390000000002df1620d200000000000000000000000003e800000000000003e8ffffffffffffffffffffffffffff000000010e00000001026200
0 0 8 = Empty
0 0 9 = OutOfRange 0 2
0 1 1 = NotLeader
0 0 10 = Ok
0 0 11 = Down
`# docs/SCRIPT.md, script 15
brokers 2
segment_bytes 200
local_retention_bytes 0
fault 0 meta read 4 before
fault 0 store get 1 before
fault 0 store get 3 before
1 0 1 shrink
0 0 0 append 1000,-,:a
0 0 0 append 1000,-,:b
0 0 0 append 1000,-,:c
0 0 0 flush
0 0 0 ack
0 0 0 copy
0 0 0 trim
0 0 0 fetch 0 1000
0 0 0 fetch 0 1000
0 0 0 fetch 0 1000
0 0 0 fetch 0 1000
0 0 0 fetch 1 1000
0 0 0 fetch 2 1000
later 2 0 0 fetch 0 1000
later 2 0 0 fetch 1 1000
later 2 0 0 fetch 1 1000
turn 2 1
0 0 0 raise 1
turn 2 2
0 0 0 elect
0 0 0 learn
turn 2 1
turn 2 1
0 0 0 stop
turn 2 1
`0 1 0 = Ok
0 0 0 = Ok 0 0 0
0 0 1 = Ok 1 1 0
0 0 2 = Ok 2 2 0
0 0 3 = Ok 3
0 0 4 = Ok 3
0 0 5 begin
0 0 5 = Copied 00000000-0000-0001-0000-000000000000 0 1
0 0 6 begin
0 0 6 = Dropped 0 1
0 0 7 begin
0 0 7 = MetaFault
0 0 8 begin
0 0 8 = StoreFault
0 0 9 begin
0 0 9 = StoreFault
0 0 10 begin
0 0 10 = Run remote 00000000-0000-0001-0000-000000000000 138 Piece 0000000000000000000000390000000002ebf1884b00000000000000000000000003e800000000000003e8ffffffffffffffffffffffffffff000000010e000000010261000000000000000001000000390000000002df1620d200000000000000000000000003e800000000000003e8ffffffffffffffffffffffffffff000000010e00000001026200
0 0 11 begin
0 0 11 = Run remote 00000000-0000-0001-0000-000000000000 69 Piece 0000000000000001000000390000000002df1620d200000000000000000000000003e800000000000003e8ffffffffffffffffffffffffffff000000010e00000001026200
0 0 12 = Run local 2 69 Mark 0000000000000002000000390000000002ccb4b8a500000000000000000000000003e800000000000003e8ffffffffffffffffffffffffffff000000010e00000001026300
0 2 0 begin
0 0 13 = Ok 1
0 2 0 = OutOfRange 1 3
0 2 1 begin
0 0 14 = Ok 1
0 0 15 = Leads 1
0 2 1 = NotLeader
0 2 2 begin
0 0 16 = Ok
0 2 2 = Stopped
`# docs/SCRIPT.md, script 16
brokers 2
segment_bytes 200
local_retention_bytes 0
fault 0 meta read 6 before
1 0 1 shrink
0 0 0 append 1000,-,:a
0 0 0 append 1000,-,:b
0 0 0 append 1000,-,:c
# before it is committed the log end offset is no answer
0 0 0 offset latest
0 0 0 flush
0 0 0 ack
0 0 0 offset latest
0 0 0 offset latest_tiered
0 0 0 copy
0 0 0 trim
0 0 0 offset earliest
0 0 0 offset earliest_local
0 0 0 offset latest_tiered
0 0 0 offset latest_tiered
# once the log start offset is past the local one, it is the earliest local offset
0 0 0 raise 3
0 0 0 offset earliest
0 0 0 offset earliest_local
0 0 0 offset latest_tiered
1 0 1 offset earliest
later 2 0 0 offset latest_tiered
turn 2 1
0 0 0 stop
turn 2 1
0 0 0 offset latest
`0 1 0 = Ok
0 0 0 = Ok 0 0 0
0 0 1 = Ok 1 1 0
0 0 2 = Ok 2 2 0
0 0 3 = Offset 0
0 0 4 = Ok 3
0 0 5 = Ok 3
0 0 6 = Offset 3
0 0 7 begin
0 0 7 = NoOffset
0 0 8 begin
0 0 8 = Copied 00000000-0000-0001-0000-000000000000 0 1
0 0 9 begin
0 0 9 = Dropped 0 1
0 0 10 = Offset 0
0 0 11 = Offset 2
0 0 12 begin
0 0 12 = Offset 1
0 0 13 = MetaFault
0 0 14 = Ok 3
0 0 15 = Offset 3
0 0 16 = Offset 3
0 0 17 begin
0 0 17 = NoOffset
0 1 1 = NotLeader
0 2 0 begin
0 0 18 = Ok
0 2 0 = Stopped
0 0 19 = Down
`# docs/SCRIPT.md, script 17
brokers 2
segment_bytes 200
local_retention_bytes 0
fault 0 meta read 4 before
fault 0 meta read 6 before
fault 0 store get 1 before
fault 0 store get 3 before
fault 0 disk 0 read 2 before
1 0 1 shrink
0 0 0 append 1000,-,:a
0 0 0 append 3000,-,:b
0 0 0 append 2000,-,:c 4000,-,:d
0 0 0 flush
0 0 0 ack
0 0 0 copy
0 0 0 trim
# each call may fail: both of the metadata log, those for the two indexes, and that of the disk
0 0 0 offset at 1001
0 0 0 offset at 1001
0 0 0 offset at 1001
0 0 0 offset at 1001
0 0 0 offset at 1001
0 0 0 offset at 3001
# the record of 4000 has offset 3, and its batch starts at 2
0 0 0 offset at 3001
0 0 0 offset at 4001
1 0 1 offset at 0
later 2 0 0 offset at 1001
later 2 0 0 offset at 0
later 2 0 0 offset at 0
turn 2 2
# the log start offset passes the search
0 0 0 raise 2
turn 2 2
0 0 0 elect
0 0 0 learn
turn 2 1
turn 2 1
0 0 0 stop
turn 2 1
0 0 0 offset at 0
`0 1 0 = Ok
0 0 0 = Ok 0 0 0
0 0 1 = Ok 1 1 0
0 0 2 = Ok 2 3 0
0 0 3 = Ok 4
0 0 4 = Ok 4
0 0 5 begin
0 0 5 = Copied 00000000-0000-0001-0000-000000000000 0 1
0 0 6 begin
0 0 6 = Dropped 0 1
0 0 7 = MetaFault
0 0 8 begin
0 0 8 = MetaFault
0 0 9 begin
0 0 9 = StoreFault
0 0 10 begin
0 0 10 = StoreFault
0 0 11 begin
0 0 11 = Offset 1
0 0 12 begin
0 0 12 = DiskFault
0 0 13 begin
0 0 13 = Offset 2
0 0 14 begin
0 0 14 = NoOffset
0 1 1 = NotLeader
0 2 0 begin
0 0 15 = Ok 2
0 2 0 = Offset 2
0 2 1 begin
0 0 16 = Ok 1
0 0 17 = Leads 1
0 2 1 = NotLeader
0 2 2 begin
0 0 18 = Ok
0 2 2 = Stopped
0 0 19 = Down
`# docs/SCRIPT.md, script 18
brokers 3
1 0 1 shrink
1 0 1 elect
2 0 2 stop
2 0 2 elect
2 0 2 up
2 0 2 elect
`0 1 0 = Ok
0 1 1 = NotInSync
0 2 0 = Ok
0 2 1 = DownBroker
0 2 2 = Up 0
0 2 3 = Ok 1
`# docs/SCRIPT.md, script 19
brokers 3
1 0 1 shrink
2 0 2 shrink
0 0 0 append 1000,-,:a
0 0 0 flush
0 0 0 ack
1 0 1 stop
1 0 1 unclean
1 0 1 up
1 0 1 unclean
1 0 1 learn
0 0 0 elect
# broker 0 raises the log start offset before broker 2 is elected
0 0 0 unclean
0 0 0 learn
0 0 0 ack
0 0 0 raise 1
2 0 2 unclean
`0 1 0 = Ok
0 2 0 = Ok
0 0 0 = Ok 0 0 0
0 0 1 = Ok 1
0 0 2 = Ok 1
0 1 1 = Ok
0 1 2 = DownBroker
0 1 3 = Up 0
0 1 4 = Ok 1
0 1 5 = Leads 1
0 0 3 = NotInSync
0 0 4 = Ok 2
0 0 5 = Leads 2
0 0 6 = Ok 1
0 0 7 = Ok 1
0 2 1 = BehindStart 0 1
`# docs/SCRIPT.md, script 20
brokers 2
fault 0 disk 0 sync 2 before
0 0 0 learn
0 0 0 stop
0 0 0 learn
0 0 0 up
0 0 0 learn
0 0 0 elect
0 0 0 learn
0 0 0 up
0 0 0 learn
0 0 0 elect
0 0 0 learn
1 0 1 learn
`0 0 0 = Known
0 0 1 = Ok
0 0 2 = Down
0 0 3 = Up 0
0 0 4 = NeedsElection 0
0 0 5 = Ok 1
0 0 6 = DiskFault
0 0 7 = Up 0
0 0 8 = Leads 1
0 0 9 = Ok 2
0 0 10 = Leads 2
0 1 0 = Follows 2
`# docs/SCRIPT.md, script 21
brokers 2
fault 0 disk 0 cut 1 before
0 0 0 append 1000,-,:a
0 0 0 flush
1 0 1 elect
0 0 0 join
0 0 0 learn
0 0 0 join
1 0 1 learn
1 0 1 elect
0 0 0 join
1 0 1 learn
0 0 0 learn
0 0 0 join
0 0 0 join
0 0 0 up
0 0 0 learn
0 0 0 join
`0 0 0 = Ok 0 0 0
0 0 1 = Ok 1
0 1 0 = Ok 1
0 0 2 = NotFollower
0 0 3 = Follows 1
0 0 4 = NoLeader
0 1 1 = Leads 1
0 1 2 = Ok 2
0 0 5 = StaleEpoch 2
0 1 3 = Leads 2
0 0 6 = Follows 2
0 0 7 = DiskFault 0
0 0 8 = Down
0 0 9 = Up 0
0 0 10 = Follows 2
0 0 11 = Cut 0
`# docs/SCRIPT.md, script 22
brokers 2
segment_bytes 200
local_retention_bytes 0
fault 0 disk 1 replace 10 after
1 0 1 shrink
0 0 0 append 1000,-,:a
0 0 0 append 1000,-,:b
0 0 0 append 1000,-,:c
0 0 0 flush
0 0 0 ack
0 0 0 copy
0 0 0 trim
# the leader's local log starts at 2 now, and broker 1 has nothing. Actor 2 gives the joins, so that
# a stop and another join come between their turns
later 2 0 1 join
later 2 0 1 join
later 2 0 1 join
later 2 0 1 join
turn 2 1
1 0 1 stop
turn 2 1
1 0 1 up
1 0 1 learn
turn 2 1
1 0 1 join
turn 2 1
# now the leader's starts at 4. The log start offset reaches it between two turns, and then an
# election comes between two
0 0 0 append 1000,-,:d
0 0 0 append 1000,-,:e
0 0 0 flush
0 0 0 ack
0 0 0 copy
0 0 0 trim
turn 2 1
0 0 0 raise 4
turn 2 1
turn 2 1
0 0 0 elect
turn 2 1
0 0 0 learn
1 0 1 learn
1 0 1 join
1 0 1 up
`0 1 0 = Ok
0 0 0 = Ok 0 0 0
0 0 1 = Ok 1 1 0
0 0 2 = Ok 2 2 0
0 0 3 = Ok 3
0 0 4 = Ok 3
0 0 5 begin
0 0 5 = Copied 00000000-0000-0001-0000-000000000000 0 1
0 0 6 begin
0 0 6 = Dropped 0 1
0 2 0 begin cut 0
0 1 1 = Ok
0 2 0 = Stopped
0 1 2 = Up 0
0 1 3 = Follows 0
0 2 1 begin cut 0
0 1 4 begin cut 0
0 1 4 = Rebuilt 2
0 2 1 = Passed 2
0 0 7 = Ok 3 3 0
0 0 8 = Ok 4 4 0
0 0 9 = Ok 5
0 0 10 = Ok 5
0 0 11 begin
0 0 11 = Copied 00000000-0000-0001-0000-000000000001 2 3
0 0 12 begin
0 0 12 = Dropped 2 3
0 2 2 begin cut 2
0 0 13 = Ok 4
0 2 2 = BelowStart 4
0 2 3 begin cut 2
0 0 14 = Ok 1
0 2 3 = StaleEpoch 1
0 0 15 = Leads 1
0 1 5 = Follows 1
0 1 6 begin cut 2
0 1 6 = DiskFault 4
0 1 7 = Up 4
`";
