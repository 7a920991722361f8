//! A broker's log and its calls.

ghost use Rattle.std.specs.Prelude.{◌≡◌, ◌≢◌, ◌⊎◌, ◌↔◌, ◌≤◌, ◌<◌, ◌^◌, ◌+◌, ℕ, List, true};
ghost use Rattle.std.specs.Prelude.{false, IfOk, OnOk, OnErr, IsTrue, IsErrOf};
ghost use Rattle.std.specs.Prelude.{length, Some, None, Ok, Err, IsOk, IfErr, IfSome, option_map};
ghost use Rattle.tier_base.specs.declared.plain.FileName.{FileName};
ghost use Rattle.tier_base.specs.Counts.{counted, Rose};
ghost use Rattle.tier_base.specs.Device.{Lasts, Arms};
ghost use Rattle.log_steps.specs.Reopens.{Reopens};
ghost use Rattle.log_terms.specs.Log.{up_to, end_of, EndsAt};
ghost use Rattle.disk_model.specs.Content.{LeavesOnly};
ghost use Rattle.local_log.specs.Log.{AreSettings, Creating};
ghost use Rattle.local_log.specs.Cutting.{cut_point};
ghost use Rattle.local_log.specs.Reading.{RunFails, IsOfDevice, ReadOnce, first_past, segment_at, is_edge};
ghost use Rattle.local_log.specs.declared.refusal.CreateRefusal.TheVariants as create;
ghost use Rattle.std.specs.Option.{ForSome};
ghost use Rattle.log_terms.specs.Batch.{last_of};
ghost use Rattle.record_batch.specs.Check.{AreChecked};
ghost use Rattle.epoch_line.specs.Line.{last_epoch, assign, cut_end};
ghost use Rattle.local_log.specs.Stored.{size_of};
ghost use Rattle.local_log.specs.Run.{IsRunFor, is_due};
ghost use Rattle.tier_base.specs.declared.fault.Trouble.TheVariants.{Failed, NoMemory};
ghost use Rattle.local_log.specs.declared.refusal.AppendRefusal.TheVariants as append;
ghost use Rattle.local_log.specs.declared.refusal.RollRefusal.TheVariants as roll;
ghost use Rattle.local_log.specs.declared.refusal.ReadRefusal.TheVariants as reading;
ghost use Rattle.local_log.specs.declared.refusal.OpenRefusal.TheVariants as opening;
ghost use Rattle.broker_log.specs.Seen.{LogSeen, Down, ShowsSeen, ChangesSeen, LogStays, WhileUp, OnDisk, Lasting};
ghost use Rattle.broker_log.specs.Seen.{Faulted, NoFault, OneFault, is_up, end_in, flushed_end_in, line_in, local_in};
ghost use Rattle.broker_log.specs.Seen.{incarnation_in, closed_in, layout_in, settings_in};
ghost use Rattle.broker_log.specs.Effects.{MayCutLog, cut_back, loosened, torn};
ghost use Rattle.broker_log.specs.Failure.{DropBreaks, RestartBreaks, Breaks, BreaksIf, BreaksUnsaved};
ghost use Rattle.broker_log.specs.Write.{IsNewBrokerLog, Appends, Settles, CutsLog, DropsFirst, Restarts, Rolls};
ghost use Rattle.broker_log.specs.Read.{IsSegmentOf, IsEndUpTo, ReadsRun, Misreads};
ghost use Rattle.broker_log.specs.Open.{Unopened, IsSpent, StopsBroker, ComesUp};
ghost use Rattle.log_steps.specs.Fronts.{Each};
ghost use Rattle.local_log.specs.Dropping.{IsFirstFlushed};
ghost use Rattle.local_log.specs.Reading.{IsClosedFrom, ClosedFails};

use crate::place::{
    LogOrDisk, is_append_fault, is_fault, is_roll_fault, placed, taken, taken_disk,
};
use disk_model::Disk;
use epoch_line::Line;
use local_log::{
    AppendRefusal, CreateRefusal, LocalLog, OpenRefusal, ReadRefusal, RollRefusal, RunOut,
};
use segment_file::{Closed, Growing};
use std::alloc::Global;
use std::marker::Model;
use tier_base::{Settings, Trouble};

/// The log of a broker that is up or down.
#[derive(Drop)]
pub struct BrokerLog<D: Disk> {
    alloc: Global,
    place: LogOrDisk<D>,
}

impl<D: Disk> Model for BrokerLog<D> {
    ghost use Rattle.broker_log.specs.Seen.{LogState};

    ghost Value = { LogState D };

    ghost use Rattle.broker_log.specs.Inside.{kept_in, IsWellPlaced};

    ghost view = { kept_in };

    ghost invariant = { IsWellPlaced };
}

impl<D: Disk> BrokerLog<D> {
    /// Makes the empty log at 0 over a disk with no files. The broker is up. `CreateRefusal` has the causes of a
    /// failure.
    pub fn create(
        alloc: Global,
        disk: D,
        settings: Settings,
    ) -> Result<BrokerLog<D>, (D, CreateRefusal)>
        requires settings { AreSettings settings }
        requires empty { IsTrue (D.content disk).is_observable → (n : FileName) → (D.content disk).files n ≡ None }
        ensures ok { IfOk result (λ broker. IsNewBrokerLog D.content disk settings broker) }

        // A crash at any moment of the call leaves what it might have left before, or the new log.
        ensures any_moment { IfOk result (λ broker. OnDisk broker (λ d.
            LeavesOnly (D.content disk) (D.content d) (Creating (D.content disk)))) }
        ensures any_moment_err { IfErr result
            (λ e. LeavesOnly (D.content disk) (D.content e.0) (Creating (D.content disk))) }
        ensures again { IfErr result (λ e. Reopens (D.content disk) → Reopens (D.content e.0)) }

        ensures control { IfOk result (λ broker. OnDisk broker (λ d. Lasts (D.control disk) (D.control d))) }
        ensures control_err { IfErr result (λ e. Lasts (D.control disk) (D.control e.0)) }
        ensures cause { IfErr result (λ e. e.1 ≡ create.DiskFault
            → Rose (D.control disk).faults (D.control e.0).faults) }
        ensures quiet { IfOk result (λ broker. OnDisk broker (λ d. (D.control d).faults ≡ (D.control disk).faults)) }
        ensures quiet_err { IfErr result (λ e. (e.1 ≡ create.DiskFault → ⊥)
            → (D.control e.0).faults ≡ (D.control disk).faults) }
        ensures once { IfErr result (λ e. e.1 ≡ create.DiskFault
            → (D.control e.0).faults ≡ counted (D.control disk).faults 1) }
    {
        match LocalLog::create(alloc, disk, settings) {
            Ok(log) => Ok(BrokerLog {
                alloc,
                place: LogOrDisk::Up(log),
            }),
            Err(refused) => Err(refused),
        }
    }

    /// The log of a broker that is down, over any disk.
    pub fn from_disk(alloc: Global, disk: D, settings: Settings) -> BrokerLog<D>
        requires { AreSettings settings }
        ensures { result ≡ Down settings disk }
    {
        BrokerLog {
            alloc,
            place: LogOrDisk::Down(settings, disk),
        }
    }

    /// Whether the broker is up.
    pub fn is_up(&self) -> bool
        ensures { result ≡ is_up self.now }
    {
        matches!(self.place, LogOrDisk::Up(_))
    }

    /// The log end offset, while the broker is up.
    pub fn end(&self) -> Option<u64>
        ensures { result ≡ end_in self.now }
    {
        match &self.place {
            LogOrDisk::Up(log) => Some(log.end()),
            LogOrDisk::Down(..) | LogOrDisk::Away => None,
        }
    }

    /// The offset up to which the log is flushed, while the broker is up.
    pub fn stable(&self) -> Option<u64>
        ensures { result ≡ flushed_end_in self.now }
    {
        match &self.place {
            LogOrDisk::Up(log) => Some(log.stable()),
            LogOrDisk::Down(..) | LogOrDisk::Away => None,
        }
    }

    /// Which leader epoch starts where, while the broker is up.
    pub fn line(&self) -> Option<&Line>
        ensures { option_map (λ line. line.now) result ≡ line_in self.now }
    {
        match &self.place {
            LogOrDisk::Up(log) => Some(log.line()),
            LogOrDisk::Down(..) | LogOrDisk::Away => None,
        }
    }

    /// Where the local log begins, while the broker is up.
    pub fn local_start(&self) -> Option<u64>
        ensures is { result ≡ local_in self.now }
        ensures low { IfSome result (λ start. start ≤ 2 ^ 62) }
    {
        match &self.place {
            LogOrDisk::Up(log) => Some(log.local_start()),
            LogOrDisk::Down(..) | LogOrDisk::Away => None,
        }
    }

    /// How often the log was opened, while the broker is up.
    pub fn incarnation(&self) -> Option<u32>
        ensures { result ≡ incarnation_in self.now }
    {
        match &self.place {
            LogOrDisk::Up(log) => Some(log.incarnation()),
            LogOrDisk::Down(..) | LogOrDisk::Away => None,
        }
    }

    /// The closed segments, each with its base, its end and its size. There is none while the broker is down.
    pub fn closed(&self) -> &[Growing]
        ensures { result.now ≡ closed_in self.now }
    {
        match &self.place {
            LogOrDisk::Up(log) => log.closed(),
            LogOrDisk::Down(..) | LogOrDisk::Away => &[],
        }
    }

    /// The first closed segment that ends past an offset. There is none while the broker is down.
    pub fn first_past(&self, offset: u64) -> Option<&Growing>
        ensures { option_map (λ segment. segment.now) result ≡ first_past offset (closed_in self.now) }
    {
        match &self.place {
            LogOrDisk::Up(log) => log.first_past(offset),
            LogOrDisk::Down(..) | LogOrDisk::Away => None,
        }
    }

    /// The bytes of the open segment, while the broker is up.
    pub fn open_size(&self) -> Option<u64>
        ensures { result ≡ option_map (λ layout. size_of layout.active) (layout_in self.now) }
    {
        match &self.place {
            LogOrDisk::Up(log) => Some(log.open_size()),
            LogOrDisk::Down(..) | LogOrDisk::Away => None,
        }
    }

    /// The settings of the log, also while the broker is down.
    pub fn settings(&self) -> Option<Settings>
        ensures { result ≡ settings_in self.now }
    {
        match &self.place {
            LogOrDisk::Up(log) => Some(*log.settings()),
            LogOrDisk::Down(settings, _) => Some(*settings),
            LogOrDisk::Away => None,
        }
    }

    /// Whether the log may take bytes as a run: each batch passes every test, and continues where the one before it
    /// ends.
    pub fn takes(&self, run: &[u8]) -> bool
        requires { IsTrue (is_up self.now) }
        ensures { WhileUp self.now (λ log. IsTrue result ↔ IsRunFor log.end log.line run.now) }
    {
        let LogOrDisk::Up(log) = &self.place else {
            unreachable!()
        };
        log.takes(run)
    }

    /// Whether the log may take bytes as a run, of batches that were checked before: neither their checksums nor their
    /// records are read again.
    pub fn takes_checked(&self, run: &[u8]) -> bool
        requires up { IsTrue (is_up self.now) }
        requires checked { AreChecked run.now }
        ensures { WhileUp self.now (λ log. IsTrue result ↔ IsRunFor log.end log.line run.now) }
    {
        let LogOrDisk::Up(log) = &self.place else {
            unreachable!()
        };
        log.takes_checked(run)
    }

    /// The disk.
    pub fn disk(&self) -> &D
        ensures { OnDisk self.now (λ d. result.now ≡ d) }
    {
        match &self.place {
            LogOrDisk::Up(log) => log.disk(),
            LogOrDisk::Down(_, disk) => disk,
            LogOrDisk::Away => unreachable!(),
        }
    }

    /// Where the log would end that is cut to an offset: where the last batch ends that ends at or below it, or at
    /// the offset itself where the local log begins later.
    pub fn end_up_to(&self, offset: u64) -> u64
        requires { IsTrue (is_up self.now) }
        ensures { IsEndUpTo D.content self.now offset result }
    {
        let LogOrDisk::Up(log) = &self.place else {
            unreachable!()
        };
        log.coheres();
        if offset < log.local_start() {
            return offset;
        }
        log.end_up_to(offset)
    }

    /// Makes all of the log flushed, and returns its end. Fails if a disk call fails, which stops the broker's log, or
    /// if memory runs out.
    pub fn flush(&mut self) -> Result<u64, Trouble>
        requires { IsTrue (is_up self.old) }
        ensures ok { IfOk result (λ end. Settles D.content self.old self.new (λ line _. line) end) }
        ensures refused { OnErr result (IsErrOf result NoMemory ⊎ IsErrOf result Failed) }
        ensures no_memory { IsErrOf result NoMemory → LogStays D.content self.old self.new }
        ensures fault { IsErrOf result Failed
            → Breaks D.content self.old self.new (λ s. loosened s (end_of s.batches, s.line, s.local)) }
        ensures control { Lasting D.control self.old self.new }
        ensures cause { IsErrOf result Failed → Faulted D.control self.old self.new }
        ensures quiet { (IsErrOf result Failed → ⊥) → NoFault D.control self.old self.new }
        ensures once { IsErrOf result Failed → OneFault D.control self.old self.new }
    {
        let mut log = taken(&mut self.place);
        let settings = *log.settings();
        log.coheres();
        let outcome = log.flush();
        self.place = placed(settings, log, is_fault(&outcome));
        outcome
    }

    /// Appends the first batches of a run that fit one segment, and returns their first and their last offset. They
    /// come back after a stop once they are flushed. `AppendRefusal` has the causes of a failure.
    pub fn append(&mut self, run: &[u8]) -> Result<(u64, u64), AppendRefusal>
        requires { WhileUp self.old (λ log. IsRunFor log.end log.line run.now) }
        ensures ok { IfOk result (λ answer. Appends D.content self.old self.new run.now answer) }

        // Each cause, where no earlier one holds.
        ensures last_offset { IsErrOf result append.LastOffset ↔ (2 ^ 62 ≤ last_of run.now) }
        ensures many { IsErrOf result append.TooManySegments ↔ (last_of run.now < 2 ^ 62)
            × WhileUp self.old (λ log. IsTrue (is_due log run.now) × (4095 ≤ length log.closed)) }
        ensures unchanged { (IsErrOf result append.LastOffset ⊎ IsErrOf result append.TooManySegments)
            → self.new ≡ self.old }
        ensures refused { OnErr result ((IsErrOf result append.LastOffset ⊎ IsErrOf result append.TooManySegments)
            ⊎ (IsErrOf result append.NoMemory ⊎ IsErrOf result append.DiskFault)) }
        ensures no_memory { IsErrOf result append.NoMemory → LogStays D.content self.old self.new }
        ensures fault { IsErrOf result append.DiskFault → BreaksUnsaved D.content self.old self.new }
        ensures control { Lasting D.control self.old self.new }
        ensures cause { IsErrOf result append.DiskFault → Faulted D.control self.old self.new }
        ensures quiet { (IsErrOf result append.DiskFault → ⊥) → NoFault D.control self.old self.new }
        ensures once { IsErrOf result append.DiskFault → OneFault D.control self.old self.new }
    {
        let mut log = taken(&mut self.place);
        let settings = *log.settings();
        log.coheres();
        let outcome = log.append(run);
        self.place = placed(settings, log, is_append_fault(&outcome));
        outcome
    }

    /// Enters a leader epoch that begins at the log's end, makes all flushed, and returns the end. Fails if a disk call
    /// fails, which stops the broker's log, or if memory runs out.
    pub fn lead(&mut self, epoch: u32) -> Result<u64, Trouble>
        requires fits { epoch < 2 ^ 31 }
        requires above { WhileUp self.old (λ log. ForSome (last_epoch log.line) (λ last. last < epoch)) }
        ensures ok { IfOk result (λ end. Settles D.content self.old self.new (λ line end. assign line epoch end) end) }
        ensures refused { OnErr result (IsErrOf result NoMemory ⊎ IsErrOf result Failed) }
        ensures no_memory { IsErrOf result NoMemory → LogStays D.content self.old self.new }
        ensures fault { IsErrOf result Failed → Breaks D.content self.old self.new
            (λ s. loosened s (end_of s.batches, assign s.line epoch (end_of s.batches), s.local)) }
        ensures control { Lasting D.control self.old self.new }
        ensures cause { IsErrOf result Failed → Faulted D.control self.old self.new }
        ensures quiet { (IsErrOf result Failed → ⊥) → NoFault D.control self.old self.new }
        ensures once { IsErrOf result Failed → OneFault D.control self.old self.new }
    {
        let mut log = taken(&mut self.place);
        let settings = *log.settings();
        log.coheres();
        let outcome = log.lead(epoch);
        self.place = placed(settings, log, is_fault(&outcome));
        outcome
    }

    /// Closes the open segment, and opens a new one at the log's end. `RollRefusal` has the causes of a failure.
    pub fn roll(&mut self) -> Result<u64, RollRefusal>
        requires { IsTrue (is_up self.old) }
        ensures base { IfOk result (λ base. end_in self.old ≡ Some base) }
        ensures ok { OnOk result (Rolls D.content self.old self.new) }
        ensures may { (IsOk result ⊎ IsErrOf result roll.DiskFault)
            → WhileUp self.old (λ log. (0 < size_of log.active) × (length log.closed < 4095)) }

        // Each cause, where no earlier one holds.
        ensures empty { IsErrOf result roll.EmptySegment ↔ WhileUp self.old (λ log. size_of log.active ≡ 0) }
        ensures many { IsErrOf result roll.TooManySegments ↔ WhileUp self.old (λ log. (0 < size_of log.active)
            × (4095 ≤ length log.closed)) }
        ensures unchanged { (IsErrOf result roll.EmptySegment ⊎ IsErrOf result roll.TooManySegments)
            → self.new ≡ self.old }
        ensures refused { OnErr result ((IsErrOf result roll.EmptySegment ⊎ IsErrOf result roll.TooManySegments)
            ⊎ (IsErrOf result roll.NoMemory ⊎ IsErrOf result roll.DiskFault)) }
        ensures no_memory { IsErrOf result roll.NoMemory → LogStays D.content self.old self.new }
        ensures fault { IsErrOf result roll.DiskFault → BreaksUnsaved D.content self.old self.new }
        ensures control { Lasting D.control self.old self.new }
        ensures cause { IsErrOf result roll.DiskFault → Faulted D.control self.old self.new }
        ensures quiet { (IsErrOf result roll.DiskFault → ⊥) → NoFault D.control self.old self.new }
        ensures once { IsErrOf result roll.DiskFault → OneFault D.control self.old self.new }
    {
        let mut log = taken(&mut self.place);
        let settings = *log.settings();
        let outcome = log.roll();
        self.place = placed(settings, log, is_roll_fault(&outcome));
        outcome
    }

    /// Cuts the log to an offset, durably, and returns its new end; where a batch holds the offset, that batch's base.
    /// Below the local start nothing is left of it on the disk. Fails if a disk call fails, which stops the broker's
    /// log, or if memory runs out.
    pub fn cut_to(&mut self, end: u64) -> Result<u64, Trouble>
        requires { WhileUp self.old (λ log. end ≤ log.end) }
        ensures ok { IfOk result (λ now. CutsLog D.content self.old self.new end now) }
        ensures refused { OnErr result (IsErrOf result NoMemory ⊎ IsErrOf result Failed) }
        ensures no_memory { IsErrOf result NoMemory → LogStays D.content self.old self.new }
        ensures fault { IsErrOf result Failed
            → BreaksIf D.content self.old self.new (MayCutLog end) (λ s. torn s (cut_back s end)) }
        ensures control { Lasting D.control self.old self.new }
        ensures cause { IsErrOf result Failed → Faulted D.control self.old self.new }
        ensures quiet { (IsErrOf result Failed → ⊥) → NoFault D.control self.old self.new }
        ensures once { IsErrOf result Failed → OneFault D.control self.old self.new }
    {
        let mut log = taken(&mut self.place);
        let settings = *log.settings();
        log.coheres();
        let outcome = log.cut_to(end);
        let now = log.end();
        self.place = placed(settings, log, is_fault(&outcome));
        ended(outcome, now)
    }

    /// Whether there is a closed segment, and the first one is flushed.
    pub fn may_drop(&self) -> bool
        ensures { IsTrue result ↔ WhileUp self.now (λ log. IsFirstFlushed log.flushed_end log.closed) }
    {
        match &self.place {
            LogOrDisk::Up(log) => {
                let closed = log.closed();
                !closed.is_empty() && closed[0].end() <= log.stable()
            }
            LogOrDisk::Down(..) | LogOrDisk::Away => false,
        }
    }

    /// Drops the first closed segment, durably, and returns its base and its last offset. Fails if a disk call fails,
    /// which stops the broker's log, or if memory runs out.
    pub fn drop_first(&mut self) -> Result<(u64, u64), Trouble>
        requires { WhileUp self.old (λ log. IsFirstFlushed log.flushed_end log.closed) }
        ensures ok { IfOk result (λ answer. DropsFirst D.content self.old self.new answer) }
        ensures refused { OnErr result (IsErrOf result NoMemory ⊎ IsErrOf result Failed) }
        ensures no_memory { IsErrOf result NoMemory → LogStays D.content self.old self.new }
        ensures fault { IsErrOf result Failed → DropBreaks D.content self.old self.new }
        ensures control { Lasting D.control self.old self.new }
        ensures cause { IsErrOf result Failed → Faulted D.control self.old self.new }
        ensures quiet { (IsErrOf result Failed → ⊥) → NoFault D.control self.old self.new }
        ensures once { IsErrOf result Failed → OneFault D.control self.old self.new }
    {
        let mut log = taken(&mut self.place);
        let settings = *log.settings();
        log.coheres();
        let outcome = log.drop_first();
        self.place = placed(settings, log, is_fault(&outcome));
        outcome
    }

    /// Restarts the local log at an offset, empty and durable, with these leader epochs. Fails if a disk call fails,
    /// which stops the broker's log, or if memory runs out.
    pub fn restart_at(&mut self, start: u64, line: Line) -> Result<(), Trouble>
        requires up { IsTrue (is_up self.old) }
        requires low { start ≤ 2 ^ 62 }
        requires within { Each (λ (entry : ℕ × ℕ). entry.1 ≤ start) line }
        ensures ok { OnOk result (Restarts D.content self.old self.new start line) }
        ensures refused { OnErr result (IsErrOf result NoMemory ⊎ IsErrOf result Failed) }
        ensures no_memory { IsErrOf result NoMemory → LogStays D.content self.old self.new }
        ensures fault { IsErrOf result Failed → RestartBreaks D.content self.old self.new start line }
        ensures control { Lasting D.control self.old self.new }
        ensures cause { IsErrOf result Failed → Faulted D.control self.old self.new }
        ensures quiet { (IsErrOf result Failed → ⊥) → NoFault D.control self.old self.new }
        ensures once { IsErrOf result Failed → OneFault D.control self.old self.new }
    {
        let mut log = taken(&mut self.place);
        let settings = *log.settings();
        let outcome = log.restart_at(start, line);
        self.place = placed(settings, log, is_fault(&outcome));
        outcome
    }

    /// Reads the first closed segment that ends past an offset. The log is as it was also where the read failed.
    pub fn closed_from(&mut self, offset: u64) -> Result<Option<Closed>, ReadRefusal>
        requires { IsTrue (is_up self.old) }
        ensures stays { LogStays D.content self.old self.new }
        ensures segment { IfOk result (λ segment. WhileUp self.old (λ log. OnDisk self.new (λ d.
            IsClosedFrom log offset (D.control d).last_read segment))) }
        ensures part { IfOk result (λ segment. (s : LogSeen) → ShowsSeen D.content self.old s
            → IfSome segment (λ segment. IsSegmentOf s segment)) }
        ensures err { IfErr result
            (λ e. WhileUp self.old (λ log. OnDisk self.new (λ d. ClosedFails log offset (D.control d).last_read e))) }
        ensures whole { IfErr result (λ e. (s : LogSeen) → ShowsSeen D.content self.old s → IsOfDevice e) }
        ensures ran { WhileUp self.old (λ log. first_past offset log.closed ≢ None
            → OnDisk self.old (λ d. OnDisk self.new (λ d'. ReadOnce result (D.control d) (D.control d')))) }
        ensures control { Lasting D.control self.old self.new }
        ensures cause { IsErrOf result reading.DiskFault → Faulted D.control self.old self.new }
        ensures quiet { (IsErrOf result reading.DiskFault → ⊥) → NoFault D.control self.old self.new }
        ensures once { IsErrOf result reading.DiskFault → OneFault D.control self.old self.new }
    {
        let mut log = taken(&mut self.place);
        log.coheres();
        let outcome = log.closed_from(offset);
        self.place = LogOrDisk::Up(log);
        outcome
    }

    /// Reads the run at an offset: the batch that holds it, and further ones that end at or below the high watermark
    /// and together fit the limit, in bytes. The log is as it was also where the read failed.
    pub fn read_run(&mut self, offset: u64, limit: u64, mark: u64) -> Result<RunOut, ReadRefusal>
        requires start { WhileUp self.old (λ log. log.local_start ≤ offset) }
        requires below { offset < mark }
        ensures stays { LogStays D.content self.old self.new }
        ensures ok { IfOk result (ReadsRun D.content D.control self.old self.new offset limit mark) }

        // Each cause. Where the disk is observable and a batch ends at the high watermark, nothing is damaged.
        ensures damaged { (name : FileName) (at : ℕ) → IsErrOf result (reading.Damaged name at)
            → Misreads D.content D.control self.old self.new offset limit mark name at }
        ensures refused { IfErr result (λ e. WhileUp self.old (λ log. OnDisk self.new (λ d.
            RunFails log offset limit mark (D.control d).last_read e))) }
        ensures ran { WhileUp self.old (λ log. is_edge (segment_at log mark) mark ≡ true
            → OnDisk self.old (λ d. OnDisk self.new (λ d'. ReadOnce result (D.control d) (D.control d')))) }
        ensures control { Lasting D.control self.old self.new }
        ensures cause { IsErrOf result reading.DiskFault → Faulted D.control self.old self.new }
        ensures quiet { (IsErrOf result reading.DiskFault → ⊥) → NoFault D.control self.old self.new }
        ensures once { IsErrOf result reading.DiskFault → OneFault D.control self.old self.new }
    {
        let mut log = taken(&mut self.place);
        log.coheres();
        let outcome = log.read_run(offset, limit, mark);
        self.place = LogOrDisk::Up(log);
        outcome
    }

    /// Arms the disk: planned calls fail from now on.
    pub fn arm(&mut self)
        ensures stays { LogStays D.content self.old self.new }
        ensures control { OnDisk self.old (λ d. OnDisk self.new (λ d'. Arms (D.control d) (D.control d'))) }
    {
        match &mut self.place {
            LogOrDisk::Up(log) => log.arm(),
            LogOrDisk::Down(_, disk) => disk.arm(),
            LogOrDisk::Away => unreachable!(),
        }
    }

    /// Gives the disk back. From that of a log that is open or seen a log can be opened again, also after a crash.
    pub fn close(self) -> D
        ensures disk { OnDisk self (λ d. result ≡ d) }
        ensures again { IsTrue (is_up self) ⊎ ((s : LogSeen) × ShowsSeen D.content self s)
            → Reopens (D.content result) }
    {
        match self.place {
            LogOrDisk::Up(log) => log.close(),
            LogOrDisk::Down(_, disk) => disk,
            LogOrDisk::Away => unreachable!(),
        }
    }

    /// While the broker is up, its log can be opened again from the disk, also after a power cut. It does nothing
    /// when it runs, and cites what the type of a log keeps.
    pub fn reopens(&self)
        ensures { IsTrue (is_up self.now) → OnDisk self.now (λ d. Reopens (D.content d)) }
    {
        if let LogOrDisk::Up(log) = &self.place {
            log.reopens();
        }
    }

    /// Closes the log: the broker is down.
    pub fn stop(&mut self)
        requires { IsTrue (is_up self.old) }
        ensures stops { StopsBroker D.content self.old self.new }
        ensures control { OnDisk self.old (λ d. OnDisk self.new (λ d'. d' ≡ d)) }
    {
        let log = taken(&mut self.place);
        let settings = *log.settings();
        self.place = placed(settings, log, true);
    }

    /// Opens the log of a broker that is down, and returns its end. `OpenRefusal` has the causes of a failure.
    pub fn up(&mut self) -> Result<u64, OpenRefusal>
        requires { is_up self.old ≡ false }
        ensures ok { IfOk result (λ end. ComesUp D.content self.old self.new end) }
        ensures refused { OnErr result (is_up self.new ≡ false) }
        ensures stays { OnErr result (LogStays D.content self.old self.new) }

        // Each cause, by what the disk last returned. Where the log is seen, or the files open, nothing is damaged.
        ensures damaged { (name : FileName) (at : ℕ) → IsErrOf result (opening.Damaged name at)
            → Unopened D.content D.control self.old self.new name at }
        ensures last { IsErrOf result opening.LastIncarnation → IsSpent D.content D.control self.old self.new }
        ensures control { Lasting D.control self.old self.new }
        ensures cause { IsErrOf result opening.DiskFault → Faulted D.control self.old self.new }
        ensures quiet { (IsErrOf result opening.DiskFault → ⊥) → NoFault D.control self.old self.new }
        ensures once { IsErrOf result opening.DiskFault → OneFault D.control self.old self.new }
    {
        let (settings, disk) = taken_disk(&mut self.place);
        match LocalLog::open_at(self.alloc, disk, settings) {
            Ok(log) => {
                log.coheres();
                let end = log.end();
                self.place = LogOrDisk::Up(log);
                Ok(end)
            }
            Err((disk, refusal)) => {
                self.place = LogOrDisk::Down(settings, disk);
                Err(refusal)
            }
        }
    }
}

/// The end of a log where a call went well.
fn ended(outcome: Result<(), Trouble>, end: u64) -> Result<u64, Trouble>
    ensures ok { IsOk outcome → result ≡ Ok end }
    ensures err { IfErr outcome (λ e. result ≡ Err e) }
{
    match outcome {
        Ok(()) => Ok(end),
        Err(refusal) => Err(refusal),
    }
}
