//! The course of a run, gathered as its lines are seen: what a page shows beside the totals of the
//! end.
//!
//! Kept true: the course has gathered the moments after the lines that were seen, and the loaders
//! half-way. Apart from `charting` because a document needs the columns alone. Takes memory for the
//! course, and an entry for each loader; nothing waits.
ghost use Rattle.std.specs.Prelude.{◌≡◌, ◌<◌, ◌^◌, [], IfOk, IfErr, length, map, ⊤};
ghost use Rattle.ms_session.specs.Watching.{IsWatched, Watches, asks_unload, first_unload, lines_before_unload};
ghost use Rattle.ms_session.specs.Watching.{loaders_then, then_in};
ghost use Rattle.ms_course.specs.Gathering.{Gathers};
ghost use Rattle.ms_run.specs.declared.fault.RunFault.TheVariants as fault;

use crate::charting::moment_after;
use ms_answers::{Answer, AnswerSink, LoaderRow, Totals};
use ms_base::{Reply, Settings, Step};
use ms_course::{Course, LoaderThen, Schedule, Standing};
use ms_loaders::System;
use ms_run::{Observer, RunFault, replay_observed};
use ms_trace::{Command, Line, Trace};
use std::alloc::{AllocError, Global};

/// What sees a run and gathers its course. This project's choice.
#[derive(Drop)]
struct Watch {
    alloc: Global,
    course: Course,
}

impl Observer for Watch {
    ghost saw = { λ first now sights. Watches first.course now.course sights };

    /// Takes memory where the line made a loader, and half-way for the loaders that there are.
    fn see(
        &mut self,
        line: &Line,
        reply: &Reply,
        standing: &Standing,
        system: &System,
    ) -> Result<(), AllocError> {
        self.course.push(&moment_after(line, reply, standing))?;
        if self.course.is_halfway() {
            let loaders = loaders_in(self.alloc, system)?;
            self.course.keep_halfway(loaders);
        }
        Ok(())
    }
}

/// Lists the loaders of a system, in rising order of name. Takes memory for the list, and for the
/// totals of the system.
fn loaders_in(alloc: Global, system: &System) -> Result<Vec<LoaderThen>, AllocError>
    ensures { IfOk result (λ loaders. loaders.items ≡ loaders_then system.now) }
{
    let totals = system.totals()?;
    loaders_of(alloc, totals.rows.as_slice())
}

/// Lists the loaders of these rows, in their order. Takes memory for the list.
fn loaders_of(alloc: Global, rows: &[LoaderRow]) -> Result<Vec<LoaderThen>, AllocError>
    ensures { IfOk result (λ loaders. loaders.items ≡ map then_in rows.now) }
{
    let mut loaders = Vec::new(alloc);
    for row in rows {
        loaders.push(LoaderThen {
            name: row.name,
            kind: row.kind,
            live: row.live,
        })?;
    }
    Ok(loaders)
}

/// A sink that keeps no answer.
#[derive(Drop)]
struct Unkept;

impl AnswerSink for Unkept {
    ghost use Rattle.std.specs.Prelude.{⊤};

    ghost took = { λ _ _ _. ⊤ };

    fn put(&mut self, _answer: Answer) -> Result<(), AllocError> {
        Ok(())
    }
}

/// Runs a trace by one worker, and returns its course and the full totals of its end. Takes memory
/// as a full report does, and for the course; an error means that it was refused.
pub fn watched(
    alloc: Global,
    settings: Settings,
    trace: &Trace,
) -> Result<(Course, Totals), RunFault>
    requires few { length trace.now.lines < 2 ^ 32 }
    ensures watched { IfOk result (λ run. IsWatched settings trace.now run.0 run.1) }
    ensures wanting { IfErr result (λ why. why ≡ fault.OutOfMemory) }
{
    let lines = trace.lines.as_slice();
    let schedule = Schedule::new(lines.len() as u32, first_unload(lines));
    let course = Course::new(alloc, schedule)?;
    let mut watch = Watch { alloc, course };
    let end = replay_observed(alloc, trace, settings, &mut Unkept, &mut watch)?;
    Ok((watch.course, end))
}

/// Returns the position of the first line that asks for an unloading, accepted or not.
fn first_unload(lines: &[Line]) -> Option<u32>
    requires few { length lines.now < 2 ^ 32 }
    ensures { result ≡ first_unload lines.now }
{
    let position = lines_before_unload(lines);
    if position < lines.len() {
        Some(position as u32)
    } else {
        None
    }
}

/// Counts the lines before the first one that asks for an unloading.
fn lines_before_unload(lines: &[Line]) -> usize
    ensures { result ≡ lines_before_unload lines.now }
{
    for (position, line) in lines.iter().enumerate() {
        if asks_unload(line) {
            return position;
        }
    }
    lines.len()
}

/// Says whether a line asks for an unloading.
fn asks_unload(line: &Line) -> bool
    ensures { result ≡ asks_unload line.now.command }
{
    matches!(line.command(), Command::Step(Step::Unload { .. }))
}
