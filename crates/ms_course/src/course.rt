//! The course of a whole run: its columns, and what else is gathered as lines are answered.
ghost use Rattle.std.specs.Prelude.{◌≡◌, ◌<◌, ◌++◌, ◌∷◌, [], ℕ, List, IfOk, OnOk, OnErr, IsTrue, ◌↔◌, length, slice_get, Some};
ghost use Rattle.ms_course.specs.Gathering.{CourseView, Gathers, birth_in, number_of};
ghost use Rattle.ms_course.specs.declared.moment.Moment.{Moment as MomentOf};

use crate::births::{Birth, Births};
use crate::columns::Columns;
use crate::moment::Moment;
use crate::reason::Reason;
use crate::refusals::{Refusals, Refused};
use crate::schedule::Schedule;
use crate::stretch::{Stretch, go_on, lies_between};
use ms_base::Kind;
use std::alloc::{AllocError, Global};
use std::marker::Model;

/// A loader as it stood half-way. This project's choice.
#[derive(Clone, Copy, Debug, PartialEq, Eq)]
pub struct LoaderThen {
    /// The loader's name.
    pub name: u16,
    /// What kind of loader it is.
    pub kind: Kind,
    /// Words of its live blocks, in both spaces.
    pub live: u64,
}

/// The course of a run: its columns, the refused lines by their reasons, how few loaders there were
/// before half-way and after, since when each loader is there, and which there were half-way. Takes
/// constant memory beside an entry for each loader. This project's choice.
#[derive(Drop)]
pub struct Course {
    schedule: Schedule,
    columns: Columns,
    refusals: Refusals,
    // From the first unloading on, before half-way.
    before: Stretch,
    // From half-way on.
    after: Stretch,
    births: Births,
    // The loaders half-way, in rising order of name.
    halfway: Vec<LoaderThen>,
}

impl Model for Course {
    ghost use Rattle.ms_course.specs.Gathering.{CourseView, IsGathering};

    ghost Value = { CourseView };

    ghost view = { λ c. record {
      schedule = c.schedule;
      columns = c.columns;
      refusals = c.refusals;
      before = c.before;
      after = c.after;
      births = c.births;
      halfway = c.halfway.items;
    } };

    ghost invariant = { λ c. IsGathering c.schedule c.columns c.refusals };
}

impl Course {
    /// Makes the course of a run of which no line was answered yet. Takes memory for at most 512
    /// columns; an error means that it was refused.
    pub fn new(alloc: Global, schedule: Schedule) -> Result<Course, AllocError>
        ensures none { IfOk result (λ course. Gathers course []) }
        ensures schedule { IfOk result (λ course. course.schedule ≡ schedule) }
        ensures halfway { IfOk result (λ course. course.halfway ≡ []) }
    {
        Ok(Course {
            schedule,
            columns: Columns::new(alloc, schedule.lines)?,
            refusals: Refusals::new(alloc)?,
            before: Stretch::NONE,
            after: Stretch::NONE,
            births: Births::new(alloc),
            halfway: Vec::new(alloc),
        })
    }

    /// Adds the moment after the next line; one past the last line changes nothing. Takes memory
    /// where the line made a loader. An error means that it was refused, and nothing changed.
    pub fn push(&mut self, moment: &Moment) -> Result<(), AllocError>
        ensures gathered { OnOk result ((moments : List MomentOf)
            → length moments < self.old.schedule.lines → Gathers self.old moments
            → Gathers self.new (moments ++ moment.now ∷ [])) }
        ensures schedule { self.new.schedule ≡ self.old.schedule }
        ensures halfway { self.new.halfway ≡ self.old.halfway }
        ensures unchanged { OnErr result (self.new ≡ self.old) }
    {
        let position = self.columns.answered();
        if position == self.schedule.lines {
            return Ok(());
        }
        self.births.note(position, moment)?;
        self.refusals.note(moment);
        let Schedule { lines, turn, half } = self.schedule;
        let is_before = lies_between(turn, half, position);
        let is_after = lies_between(half, lines, position);
        go_on(&mut self.before, is_before, moment);
        go_on(&mut self.after, is_after, moment);
        self.columns.push(moment);
        Ok(())
    }

    /// Says whether the line half-way is next, before which `keep_halfway` is due.
    pub fn is_halfway(&self) -> bool
        ensures { IsTrue result ↔ (self.now.columns.answered ≡ self.now.schedule.half) }
    {
        self.columns.answered() == self.schedule.half
    }

    /// Keeps the loaders that there are half-way, in rising order of name. Takes no memory.
    pub fn keep_halfway(&mut self, loaders: Vec<LoaderThen>)
        ensures { self.new ≡ record self.old { halfway = loaders.items } }
    {
        self.halfway = loaders;
    }
}

impl Course {
    /// Returns where the run turns.
    pub fn schedule(&self) -> Schedule
        ensures { result ≡ self.now.schedule }
    {
        self.schedule
    }

    /// Lends the columns.
    pub fn columns(&self) -> &Columns
        ensures { result.now ≡ self.now.columns }
    {
        &self.columns
    }

    /// Returns the lines that were refused for a reason.
    pub fn refused(&self, reason: Reason) -> Refused
        ensures { slice_get self.now.refusals (number_of reason) ≡ Some result }
    {
        self.refusals.of_reason(reason)
    }

    /// Returns the stretch from the first unloading on, before half-way.
    pub fn before_half(&self) -> Stretch
        ensures { result ≡ self.now.before }
    {
        self.before
    }

    /// Returns the stretch from half-way on.
    pub fn after_half(&self) -> Stretch
        ensures { result ≡ self.now.after }
    {
        self.after
    }

    /// Returns the line that made a loader, where it is there.
    pub fn birth(&self, name: u16) -> Option<Birth>
        ensures { result ≡ birth_in self.now.births name }
    {
        self.births.of_loader(name)
    }

    /// Lends the loaders that there were half-way, in rising order of name.
    pub fn halfway(&self) -> &[LoaderThen]
        ensures { result.now ≡ self.now.halfway }
    {
        self.halfway.as_slice()
    }
}
