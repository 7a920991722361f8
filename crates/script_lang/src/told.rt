//! What the lines so far say, and which line may follow them.
//!
//! A line is read in steps: its text, its form, whether the form is allowed here, and whether its counts stay within
//! the limits; then it is added to the lines so far. The causes of each step come before those of the next.

ghost use Rattle.std.specs.Prelude.{◌≡◌, ◌<◌, false, Ok, IfOk, OnOk};
ghost use Rattle.script_lang.specs.Reading.{AnswersReading};
ghost use Rattle.script_lang.specs.declared.form.Form.{Form};
ghost use Rattle.script_lang.specs.Script.{nothing_told, same_partition, known_actor, may_stand, sums_with};
ghost use Rattle.script_lang.specs.Script.{told_with, form_behind, line_behind, script_of, segment_bytes_of, slot_at};
ghost use Rattle.script_lang.specs.Fit.{IsOptionInRange, IsFormInRange, FitsBatch, AreCountsWith, IsFit};

use crate::actors::Actors;
use crate::counting::Counts;
use crate::fault::Fault;
use crate::form::Form;
use crate::forms::form;
use crate::lines::text;
use crate::options::{OptionLine, Options};
use crate::partitions::Partitions;
use crate::refusal::{LineRefusal, Why};
use crate::script::Script;
use crate::words::Words;
use plain_log::{Order, Pace};
use std::alloc::{AllocError, Global};
use std::marker::Model;
use tier_base::{ActorId, PartitionId};

/// The script so far.
#[derive(Drop)]
pub struct Told {
    options: Options,
    begun: bool,
    counts: Counts,
    actors: Actors,
    partitions: Partitions,
}

impl Model for Told {
    ghost use Rattle.script_lang.specs.Script.{Told as SpecTold};
    ghost use Rattle.script_lang.specs.Fit.{IsScriptSound};

    ghost Value = { SpecTold };

    ghost view = { λ t. record {
      options = t.options;
      begun = t.begun;
      sums = t.counts;
      actors = t.actors;
      parts = t.partitions;
    } };

    ghost invariant = { λ t. IsScriptSound (record {
      options = t.options;
      begun = t.begun;
      sums = t.counts;
      actors = t.actors;
      parts = t.partitions;
    }) };
}

/// Fails if an actor of one partition has a command of another.
fn same_partition(own: Option<PartitionId>, partition: PartitionId) -> Result<(), Why>
    ensures { result ≡ same_partition own partition }
{
    match own {
        Some(other) if other.0 != partition.0 => Err(Why::ActorPartition),
        _ => Ok(()),
    }
}

/// Fails if an actor has no command yet.
fn known_actor(own: Option<PartitionId>) -> Result<(), Why>
    ensures { result ≡ known_actor own }
{
    match own {
        Some(_) => Ok(()),
        None => Err(Why::NoActor),
    }
}

impl Told {
    /// Returns a script without lines.
    pub fn new(alloc: Global) -> Result<Told, AllocError>
        ensures { IfOk result (λ told. told ≡ nothing_told) }
    {
        Ok(Told {
            options: Options::new(),
            begun: false,
            counts: Counts::new(),
            actors: Actors::new(alloc)?,
            partitions: Partitions::new(alloc)?,
        })
    }

    /// Fails if a form may not follow.
    fn allow(&self, form: &Form) -> Result<(), Why>
        requires { IsFormInRange self.now.options form.now }
        ensures { result ≡ may_stand self.now form.now }
    {
        match form {
            Form::Blank => Ok(()),
            Form::Given(option) => self.options.allow(self.begun, *option),
            Form::Placed {
                actor,
                partition,
                ..
            } => same_partition(self.actors.partition(*actor), *partition),
            Form::Turn { actor, .. } => known_actor(self.actors.partition(*actor)),
            Form::Faulty { .. } => Ok(()),
        }
    }

    /// Returns the totals with a form added.
    fn count(&self, form: &Form) -> Result<Counts, Why>
        ensures value { result ≡ sums_with (segment_bytes_of self.now.options) self.now.sums form.now }
        ensures counts { IfOk result (AreCountsWith self.now.sums form.now) }
        ensures batch { OnOk result (FitsBatch form.now) }
    {
        match form {
            Form::Placed { order, .. } => self
                .counts
                .with_command(self.options.segment_bytes(), &order.command),
            Form::Turn { turns, .. } => self.counts.with_turns(*turns),
            _ => Ok(self.counts),
        }
    }

    /// Sets an option.
    fn with_option(self, option: OptionLine) -> Told
        requires range { IsOptionInRange option }
        requires unbegun { self.begun ≡ false }
        ensures { result ≡ told_with self self.sums (Form.Given option) }
    {
        let mut told = self;
        told.options.give(option);
        told
    }

    /// Appends an order to its actor's list.
    fn with_order(
        self,
        counts: Counts,
        actor: ActorId,
        partition: PartitionId,
        order: Order,
        at_once: bool,
    ) -> Result<Told, AllocError>
        requires range { IsFormInRange self.options (Form.Placed actor partition order at_once) }
        requires counts { AreCountsWith self.sums (Form.Placed actor partition order at_once) counts }
        requires batch { FitsBatch (Form.Placed actor partition order at_once) }
        ensures { IfOk result (λ told. told ≡ told_with self counts (Form.Placed actor partition order at_once)) }
    {
        let mut told = self;
        let number = told.actors.len(actor) as u32 + 1;
        told.partitions.step(at_once, actor, number, partition)?;
        told.actors.put(actor, partition, order)?;
        told.begun = true;
        told.counts = counts;
        Ok(told)
    }

    /// Steps an actor in its partition's schedule.
    fn with_turns(self, counts: Counts, actor: ActorId, turns: u32) -> Result<Told, AllocError>
        requires range { actor.0 < 64 }
        requires counts { AreCountsWith self.sums (Form.Turn actor turns) counts }
        ensures { IfOk result (λ told. told ≡ told_with self counts (Form.Turn actor turns)) }
    {
        let mut told = self;
        let partition = told.actors.partition(actor).unwrap_or(PartitionId(0));
        told.partitions
            .put_pace(partition, Pace::Times { actor, turns })?;
        told.begun = true;
        told.counts = counts;
        Ok(told)
    }

    /// Appends a fault to those of its partition.
    fn with_fault(
        self,
        counts: Counts,
        partition: PartitionId,
        fault: Fault,
    ) -> Result<Told, AllocError>
        ensures { IfOk result (λ told. told ≡ told_with self counts (Form.Faulty partition fault)) }
    {
        let mut told = self;
        told.partitions.put_fault(partition, fault)?;
        told.begun = true;
        Ok(told)
    }

    /// Adds a form.
    fn with_form(self, counts: Counts, form: Form) -> Result<Told, AllocError>
        requires range { IsFormInRange self.options form }
        requires stands { may_stand self form ≡ Ok tt }
        requires counts { AreCountsWith self.sums form counts }
        requires batch { FitsBatch form }
        ensures { IfOk result (λ told. told ≡ told_with self counts form) }
    {
        match form {
            Form::Blank => Ok(self),
            Form::Given(option) => Ok(self.with_option(option)),
            Form::Placed {
                actor,
                partition,
                order,
                at_once,
            } => self.with_order(counts, actor, partition, order, at_once),
            Form::Turn { actor, turns } => self.with_turns(counts, actor, turns),
            Form::Faulty { partition, fault } => self.with_fault(counts, partition, fault),
        }
    }

    /// Adds a form, or fails if it may not follow.
    #[tactic(auto, unfolding(crate::specs::Script::form_behind))]
    fn try_form(self, form: Form) -> Result<Told, LineRefusal>
        requires { IsFormInRange self.options form }
        ensures { AnswersReading result (form_behind self form) }
    {
        self.allow(&form)?;
        let counts = self.count(&form)?;
        Ok(self.with_form(counts, form)?)
    }

    /// Reads a line.
    #[tactic(auto, unfolding(crate::specs::Script::line_behind))]
    pub fn with_line(self, alloc: Global, line: &[u8]) -> Result<Told, LineRefusal>
        ensures { AnswersReading result (line_behind self line.now) }
    {
        let form = form(alloc, self.options, Words::of(text(line)?))?;
        self.try_form(form)
    }

    /// Returns the script, after its last line.
    pub fn into_script(self) -> Result<Script, AllocError>
        ensures value { IfOk result (λ script. script ≡ script_of self) }
        ensures fit { IfOk result IsFit }
    {
        let config = self.options.config();
        let count = self.options.partitions.unwrap_or(1);
        let parts = self.partitions.with_lists(self.actors, count)?;
        Ok(Script { config, parts })
    }
}
