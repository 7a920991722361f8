//! The totals of the lines so far, and their limits.

ghost use Rattle.std.specs.Prelude.{◌≡◌, ◌+◌, ◌≤◌, OnOk, IfOk};
ghost use Rattle.record_batch.specs.Size.{IsSize};
ghost use Rattle.script_lang.specs.Limits.{size_of, fetches_of, limit_of, copies_of, none_so_far, within};
ghost use Rattle.script_lang.specs.Limits.{turns_within, with_command, with_turns, AreSmall};

use crate::refusal::Why;
use plain_log::Command;
use record_batch::built_size;

/// Returns the size in bytes of the batch that a command appends, 0 without a batch, or `None` over the limit.
fn batch_size(command: &Command) -> Option<usize>
    ensures { IsSize result (size_of command.now) }
{
    match command {
        Command::Append(recs) => built_size(recs.as_slice()),
        Command::Raw(bytes) => {
            if bytes.len() > 1_048_576 {
                return None;
            }
            Some(bytes.len())
        }
        _ => Some(0),
    }
}

fn fetches_of(command: &Command) -> u64
    ensures value { result ≡ fetches_of command.now }
    ensures one { result ≤ 1 }
{
    match command {
        Command::Fetch { .. } => 1,
        _ => 0,
    }
}

fn limit_of(command: &Command) -> u64
    ensures value { result ≡ limit_of command.now }
    ensures fits { result ≤ 4294967295 }
{
    match command {
        Command::Fetch { limit, .. } => *limit as u64,
        _ => 0,
    }
}

fn copies_of(command: &Command) -> u64
    ensures value { result ≡ copies_of command.now }
    ensures one { result ≤ 1 }
{
    match command {
        Command::Copy => 1,
        _ => 0,
    }
}

/// The totals of the lines so far.
#[derive(Clone, Copy)]
pub struct Counts {
    pub commands: u64,
    /// The bytes of the largest batch.
    pub largest: u64,
    pub fetches: u64,
    /// The sum of the limits of fetches.
    pub limits: u64,
    pub copies: u64,
    /// The sum of the turns of `turn` lines.
    pub turns: u64,
}

impl Counts {
    /// Returns the totals of no lines.
    pub fn new() -> Counts
        ensures value { result ≡ none_so_far }
        ensures small { AreSmall result }
    {
        Counts {
            commands: 0,
            largest: 0,
            fetches: 0,
            limits: 0,
            copies: 0,
            turns: 0,
        }
    }

    /// Adds a command.
    #[tactic(auto, unfolding(crate::specs::Limits::within))]
    pub fn with_command(self, segment_bytes: u32, command: &Command) -> Result<Counts, Why>
        requires { AreSmall self }
        ensures value { result ≡ within segment_bytes (with_command self command.now) (size_of command.now) }
        ensures small { IfOk result AreSmall }
        ensures one { IfOk result (λ counts. counts.commands ≡ self.commands + 1) }
        ensures fits { OnOk result (size_of command.now ≤ 1048576) }
    {
        let commands = self.commands + 1;
        if commands > 65_536 {
            return Err(Why::TooMany);
        }
        let Some(size) = batch_size(command) else {
            return Err(Why::BatchTooLarge);
        };
        let largest = self.largest.max(size as u64);
        let fetches = self.fetches + fetches_of(command);
        let limits = self.limits + limit_of(command);
        if limits + fetches * largest > 1 << 28 {
            return Err(Why::FetchSum);
        }
        let copies = self.copies + copies_of(command);
        if copies * (segment_bytes as u64).max(largest) > 1 << 31 {
            return Err(Why::CopySum);
        }
        Ok(Counts {
            commands,
            largest,
            fetches,
            limits,
            copies,
            turns: self.turns,
        })
    }

    /// Adds the turns of a `turn` line.
    pub fn with_turns(self, turns: u32) -> Result<Counts, Why>
        requires { AreSmall self }
        ensures value { result ≡ turns_within (with_turns self turns) }
        ensures small { IfOk result AreSmall }
        ensures none { IfOk result (λ counts. counts.commands ≡ self.commands) }
    {
        let turns = self.turns + turns as u64;
        if turns > 1_048_576 {
            return Err(Why::TurnSum);
        }
        Ok(Counts { turns, ..self })
    }
}
