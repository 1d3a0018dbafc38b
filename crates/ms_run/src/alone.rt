//! Lines run by one worker: by the caller itself, line by line, over one system. They are a whole
//! trace, or a phase of which one worker has all lines.
//!
//! Kept true: each line has one answer, in the trace's order, which goes to a sink: a list of
//! answers, or what only tells them; where they are counted, the words in use follow, and so do the
//! peaks, for full reports. A line costs the same however many loaders stand by. Takes memory;
//! nothing waits.
ghost use Rattle.std.specs.Prelude.{◌≡◌, IfOk, OnOk, [], ◌∷◌, None, IsTrue};
ghost use Rattle.ms_base.specs.Good.{IsGood};
ghost use Rattle.ms_base.specs.State.{empty_machine, limits_of};
ghost use Rattle.ms_run.specs.Course.{begun};
ghost use Rattle.ms_run.specs.Replay.{AreKept};
ghost use Rattle.ms_run.specs.Metering.{used_words_of};
ghost use Rattle.ms_run.specs.Counting.{HasTaken, IsCounted, used_around};
ghost use Rattle.ms_run.specs.Gating.{AreGated, IsGatedBy};
ghost use Rattle.ms_run.specs.Sink.{AreOfLines, AreOfRun, IsOfLine, Puts, PutsAll};
ghost use Rattle.ms_trace.specs.Steps.{step_of};

use crate::between::answer_between;
use crate::gate::{Gate, Manner, Worker};
use crate::peaks::{begin, raise};
use ms_answers::{Answer, AnswerSink, Peaks, Replies, Verbosity};
use ms_base::{Reply, Settings, Step};
use ms_loaders::System;
use ms_trace::{Command, Line};
use std::alloc::{AllocError, Global};

/// A system, with the words that it has in use and its peaks, as they were counted on.
#[derive(Drop)]
pub struct Metered {
    /// The system.
    pub system: System,
    /// The words in use, in both spaces: the sum of all tops.
    pub used: u64,
    /// The peaks so far, where reports shall be full.
    pub peaks: Option<Peaks>,
}

/// Answers the lines in their order as worker 0, from a system without loaders on, that goes with
/// them. The words in use are counted on where the gate looks at them, or full reports need them.
pub fn answer_alone<G: Gate, S: AnswerSink>(
    manner: &Manner<'_, G>,
    settings: Settings,
    lines: &[Line],
    sink: &mut S,
) -> Result<(), AllocError>
    ensures answers { OnOk result (Puts S.took
        (AreOfRun (limits_of settings) manner.now.verbosity lines.now) sink.old sink.new) }
    ensures gated { OnOk result (AreGated (G.told manner.now.gate.now) (λ name. 0) lines.now) }
{
    let mut run = begin_run(manner.alloc, settings, manner.verbosity)?;
    let worker = Worker {
        manner,
        number: 0,
        counts: manner.gate.looks() | run.peaks.is_some(),
    };
    answer_lines(&worker, lines, &mut run, sink)
}

/// Begins a run: a system without loaders, and peaks where reports shall be full.
pub fn begin_run(
    alloc: Global,
    settings: Settings,
    verbosity: Verbosity,
) -> Result<Metered, AllocError>
    ensures taken { IfOk result (HasTaken (begun (empty_machine (limits_of settings)))) }
    ensures good { IfOk result (λ run. IsGood run.system) }
    ensures used { IfOk result (λ run. run.used ≡ used_words_of run.system) }
    ensures kept { IfOk result (λ run. AreKept verbosity run.peaks) }
{
    let system = System::new(alloc, settings)?;
    let peaks = begin(&system, verbosity);
    Ok(Metered {
        system,
        used: 0,
        peaks,
    })
}

/// Answers the lines in their order. The words in use are counted on where that is asked for, and
/// else stay as they were; for full reports they have to be, and peaks are kept from line to line.
pub fn answer_lines<G: Gate, S: AnswerSink>(
    worker: &Worker<'_, G>,
    lines: &[Line],
    run: &mut Metered,
    sink: &mut S,
) -> Result<(), AllocError>
    requires { IsCounted worker.now.counts worker.now.manner.now.verbosity run.old }
    ensures answers { OnOk result
        (Puts S.took (AreOfLines worker.now.manner.now.verbosity run.old lines.now run.new) sink.old sink.new) }
    ensures counted { OnOk result (IsCounted worker.now.counts worker.now.manner.now.verbosity run.new) }
    ensures gated { OnOk result (AreGated (G.told worker.now.manner.now.gate.now) (λ name. worker.now.number) lines.now) }
{
    for line in lines {
        answer_line(worker, line, run, sink)?;
    }
    Ok(())
}

/// Answers a line: one that asks a step between the gate's two calls. Returns the reply.
pub fn answer_line<G: Gate, S: AnswerSink>(
    worker: &Worker<'_, G>,
    line: &Line,
    run: &mut Metered,
    sink: &mut S,
) -> Result<Reply, AllocError>
    requires { IsCounted worker.now.counts worker.now.manner.now.verbosity run.old }
    ensures answered { IfOk result (λ reply.
        Puts S.took (IsOfLine worker.now.manner.now.verbosity run.old line.now reply run.new) sink.old sink.new) }
    ensures counted { OnOk result (IsCounted worker.now.counts worker.now.manner.now.verbosity run.new) }
    ensures gated { OnOk result (IsGatedBy (G.told worker.now.manner.now.gate.now) (λ name. worker.now.number)
        line.now (step_of line.now.command)) }
{
    let Command::Step(step) = line.command() else {
        answer_between(worker.manner, run, None, line, sink)?;
        return Ok(Reply::Ok);
    };
    let number = line.number();
    worker.manner.gate.before(worker.number, number);
    let before = used_by(worker.counts, &run.system, &step);
    let reply = run.system.step(step);
    put_reply(number, &reply, sink)?;
    let after = used_by(worker.counts, &run.system, &step);
    // A difference modulo 2^64, as the meter counts.
    run.used = run.used.wrapping_add(after).wrapping_sub(before);
    raise(&mut run.peaks, &run.system, run.used);
    worker.manner.gate.after(worker.number, number, run.used);
    Ok(reply)
}

/// Puts the answer to a line that asks no report: its reply.
#[inline(always)]
fn put_reply<S: AnswerSink>(line: u32, reply: &Reply, sink: &mut S) -> Result<(), AllocError>
    ensures { OnOk result
        (PutsAll S.took (record { line = line; reply = reply.now; report = None } ∷ []) sink.old sink.new) }
{
    sink.put(Answer {
        line,
        reply: *reply,
        report: None,
    })
}

/// Returns the words in use of the loader whose tops a step may move, and 0 where it moves none, or
/// where they aren't counted.
#[inline(always)]
fn used_by(counts: bool, system: &System, step: &Step) -> u64
    ensures { IsTrue counts → result ≡ used_around step.now system.now.loaders }
{
    if !counts {
        return 0;
    }
    match *step {
        Step::Alloc { loader, .. } => system.used_by(loader),
        Step::Calloc { loader, .. } => system.used_by(loader),
        Step::Unload { loader } => system.used_by(loader),
        _ => 0,
    }
}
