//! Laws of the rows. Each is the contract of a function that does nothing: calling it cites the law.

ghost use Rattle.partition_commands.specs.Laws.{RowsAreSeen, RowsKeepSound, RowsLast};
ghost use Rattle.partition_commands.specs.Laws.{RowsCountFaults, RowsStayInfallible};

use disk_model::Disk;

/// Where the partition is seen, each row is one of what is seen.
pub fn rows_are_seen<D: Disk>()
    ensures { RowsAreSeen D.content D.control }
{}

/// Each row keeps what later turns need, over any disks.
pub fn rows_keep_sound<D: Disk>()
    ensures { RowsKeepSound D.content D.control }
{}

/// Over any disks each of them lasts over each row.
pub fn rows_last<D: Disk>()
    ensures { RowsLast D.content D.control }
{}

/// Over a row that reports a fault of a disk one call of a disk fails, and over any other none, whatever the disks.
pub fn rows_count_faults<D: Disk>()
    ensures { RowsCountFaults D.content D.control }
{}

/// Over disks of which no call can fail each row stays so, and reports no fault.
pub fn rows_stay_infallible<D: Disk>()
    ensures { RowsStayInfallible D.content D.control }
{}
