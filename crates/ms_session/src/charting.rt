//! The columns of a run, filled as its lines are seen.
//!
//! Kept true: the columns show the moments after the lines that were seen. Apart because neither
//! the replay nor the columns know the other. Only `Chart::new` takes memory; nothing waits.
ghost use Rattle.std.specs.Prelude.{◌≡◌, [], IfOk};
ghost use Rattle.ms_course.specs.Course.{Shows};
ghost use Rattle.ms_session.specs.Charting.{Charts, asked_of, moment_by};

use ms_base::Reply;
use ms_course::{Asked, Columns, Moment, Standing};
use ms_loaders::System;
use ms_run::Observer;
use ms_trace::{Command, Line};
use std::alloc::{AllocError, Global};

/// What sees a run and fills its columns. This project's choice.
#[derive(Drop)]
pub struct Chart {
    pub columns: Columns,
}

impl Chart {
    /// Makes one for a run of so many lines, of which it has seen none. Takes memory for at most
    /// 512 columns; an error means that it was refused.
    pub fn new(alloc: Global, lines: u32) -> Result<Chart, AllocError>
        ensures none { IfOk result (λ chart. Shows chart.columns []) }
        ensures lines { IfOk result (λ chart. chart.columns.lines ≡ lines) }
    {
        Ok(Chart {
            columns: Columns::new(alloc, lines)?,
        })
    }
}

impl Observer for Chart {
    ghost saw = { λ first now sights. Charts first.columns now.columns sights };

    /// Takes no memory.
    fn see(
        &mut self,
        line: &Line,
        reply: &Reply,
        standing: &Standing,
        _system: &System,
    ) -> Result<(), AllocError> {
        self.columns.push(&moment_after(line, reply, standing));
        Ok(())
    }
}

/// Returns the moment after a line that was answered so and left the metaspace so.
pub(crate) fn moment_after(line: &Line, reply: &Reply, standing: &Standing) -> Moment
    ensures { result ≡ moment_by line.now reply.now standing.now }
{
    Moment {
        line: line.number(),
        asked: asked_in(line),
        reply: *reply,
        standing: *standing,
    }
}

/// Names what a line asks as a course does.
fn asked_in(line: &Line) -> Asked
    ensures { result ≡ asked_of line.now.command }
{
    match line.command() {
        Command::Step(step) => Asked::Step(step),
        Command::Sync => Asked::Sync,
        Command::Report => Asked::Report,
    }
}
