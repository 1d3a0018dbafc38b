//! Replaying a trace: by the caller alone, or phase by phase on threads.
//!
//!     steps .. steps  sync   steps .. steps  report   steps
//!     `- run_phase -´  Ok    `- run_phase -´ totals   `- run_phase
//!
//! Kept true: between two phases all is one good system, and each line so far has its answer. Takes
//! memory; waits as its phases do.
ghost use Rattle.std.specs.Prelude.{◌≡◌, ◌≤◌, IfOk, IfErr, OnOk, Some, None, length, take};
ghost use Rattle.std.specs.Prelude.{slice_get};
ghost use Rattle.ms_base.specs.State.{empty_machine, limits_of};
ghost use Rattle.ms_trace.specs.declared.trace.Line.{Line as LineOf};
ghost use Rattle.ms_trace.specs.Steps.{step_of};
ghost use Rattle.std.specs.List.{All};
ghost use Rattle.ms_run.specs.Course.{Course, begun};
ghost use Rattle.ms_run.specs.Metering.{used_words_of};
ghost use Rattle.ms_run.specs.Gating.{AreGatedByTurn};
ghost use Rattle.ms_run.specs.Replay.{IsReplay, Answers, AreKept, IsDetailed, IsWanting};
ghost use Rattle.ms_run.specs.Sink.{AreOfPhases, AreToTrace, IsOfEnd, Puts};
ghost use Rattle.ms_run.specs.Shares.{AreSteps};
ghost use Rattle.ms_run.specs.Turn.{AreFirst, IsNextTurn};

use crate::alone::{Metered, answer_alone, begin_run};
use crate::between::answer_between;
use crate::fault::RunFault;
use crate::gate::{Gate, Manner};
use crate::phase::run_phase;
use crate::turn::Turn;
use ms_answers::{AnswerSink, Replies, Verbosity};
use ms_base::Settings;
use ms_trace::{Command, Line, Trace};
use std::alloc::{AllocError, Global};
use std::sync::Wait;
use std::thread::Threads;

/// Replays a trace with as many workers as the settings say, and answers each of its lines; reports
/// are basic.
///
/// One worker is the caller itself, and runs all lines in their order. With two or more, a phase
/// ends at each `sync`, at each `report` and at the end of the trace; loader number j, from 0 on by
/// first appearance, is worked by worker (j + k) mod W in phase k, from 0 on, and a `purge` by
/// worker 0. Workers are threads, but for a phase in which only one has lines. A line's worker calls
/// the gate before the line and after it, with the line's number, where the line asks a step.
/// `OutOfMemory` comes where a growth of the run itself is refused, `NoThread` where a thread can't
/// be started; a line that is refused for want of memory is answered so. Takes memory; with two
/// workers or more it waits for the lock of the pool and for threads to end. This project's choice.
pub fn replay<R: Threads + Wait + Sync, G: Gate + Sync>(
    rt: &R,
    alloc: Global,
    trace: &Trace,
    settings: Settings,
    gate: &G,
) -> Result<Replies, RunFault>
    ensures own { IfOk result (λ replies. IsReplay (limits_of settings) settings.workers
        trace.now.lines replies.answers.items) }
    ensures run { settings.workers ≡ 1 → IfOk result (λ replies. (last : Course) × Answers
        (begun (empty_machine (limits_of settings))) trace.now.lines replies.answers.items last) }
    ensures detailed { IfOk result (λ replies.
        All (IsDetailed Verbosity.Basic) replies.answers.items) }
    ensures gated { OnOk result
        (AreGatedByTurn (G.told gate.now) settings.workers trace.now.lines) }
    ensures wanting { IfErr result IsWanting }
    ensures no_thread { settings.workers ≡ 1
        → IfErr result (λ fault. fault ≡ RunFault.OutOfMemory) }
{
    replay_detailed(rt, alloc, trace, settings, Verbosity::Basic, gate)
}

/// Replays a trace as `replay` does, with reports of the verbosity asked for. Takes memory,
/// and waits as `replay` does. This project's choice.
pub fn replay_detailed<R: Threads + Wait + Sync, G: Gate + Sync>(
    rt: &R,
    alloc: Global,
    trace: &Trace,
    settings: Settings,
    verbosity: Verbosity,
    gate: &G,
) -> Result<Replies, RunFault>
    ensures own { IfOk result (λ replies. IsReplay (limits_of settings) settings.workers
        trace.now.lines replies.answers.items) }
    ensures run { settings.workers ≡ 1 → IfOk result (λ replies. (last : Course) × Answers
        (begun (empty_machine (limits_of settings))) trace.now.lines replies.answers.items last) }
    ensures detailed { IfOk result (λ replies. All (IsDetailed verbosity) replies.answers.items) }
    ensures gated { OnOk result
        (AreGatedByTurn (G.told gate.now) settings.workers trace.now.lines) }
    ensures wanting { IfErr result IsWanting }
    ensures no_thread { settings.workers ≡ 1
        → IfErr result (λ fault. fault ≡ RunFault.OutOfMemory) }
{
    // Room for all answers, so that no push takes memory once a step is done.
    let mut answers = Vec::with_capacity(alloc, trace.lines.as_slice().len())?;
    replay_into(rt, alloc, trace, settings, verbosity, gate, &mut answers)?;
    Ok(Replies { answers })
}

/// Replays a trace as `replay` does, and puts the answers into a sink in their order, so that none
/// is kept: those of one worker as they come, and those of a phase of several once it has been
/// worked. An error leaves in the sink what it leaves. Takes memory, and waits as `replay` does.
/// This project's choice.
pub fn replay_into<R: Threads + Wait + Sync, G: Gate + Sync, S: AnswerSink>(
    rt: &R,
    alloc: Global,
    trace: &Trace,
    settings: Settings,
    verbosity: Verbosity,
    gate: &G,
    sink: &mut S,
) -> Result<(), RunFault>
    ensures answers { OnOk result (Puts S.took (AreToTrace settings verbosity trace.now.lines) sink.old sink.new) }
    ensures gated { OnOk result
        (AreGatedByTurn (G.told gate.now) settings.workers trace.now.lines) }
    ensures wanting { IfErr result IsWanting }
    ensures no_thread { settings.workers ≡ 1
        → IfErr result (λ fault. fault ≡ RunFault.OutOfMemory) }
{
    let lines = trace.lines.as_slice();
    let manner = Manner {
        alloc,
        gate,
        verbosity,
    };
    if settings.workers != 1 {
        return take_turns(rt, &manner, settings, lines, sink);
    }
    answer_alone(&manner, settings, lines, sink)?;
    Ok(())
}

/// Answers the lines phase by phase, by turns from the first phase's on.
fn take_turns<R: Threads + Wait + Sync, G: Gate + Sync, S: AnswerSink>(
    rt: &R,
    manner: &Manner<'_, G>,
    settings: Settings,
    lines: &[Line],
    sink: &mut S,
) -> Result<(), RunFault>
    ensures answers { OnOk result (Puts S.took
        (AreOfPhases settings manner.now.verbosity lines.now) sink.old sink.new) }
    ensures gated { OnOk result
        (AreGatedByTurn (G.told manner.now.gate.now) settings.workers lines.now) }
    ensures wanting { IfErr result IsWanting }
{
    let mut turn = Turn::new(manner.alloc, settings, lines)?;
    answer_phases(rt, manner, settings, lines, &mut turn, sink)
}

/// Answers the lines phase by phase, from a system without loaders on.
fn answer_phases<R: Threads + Wait + Sync, G: Gate + Sync, S: AnswerSink>(
    rt: &R,
    manner: &Manner<'_, G>,
    settings: Settings,
    lines: &[Line],
    turn: &mut Turn,
    sink: &mut S,
) -> Result<(), RunFault>
    requires numbered { AreFirst lines.now settings.workers turn.old.first }
    requires workers { turn.old.workers ≡ settings.workers }
    requires phase { turn.old.phase ≡ 0 }
    ensures answers { OnOk result (Puts S.took
        (AreOfPhases settings manner.now.verbosity lines.now) sink.old sink.new) }
    ensures gated { OnOk result
        (AreGatedByTurn (G.told manner.now.gate.now) settings.workers lines.now) }
    ensures wanting { IfErr result IsWanting }
{
    let mut run = begin_run(manner.alloc, settings, manner.verbosity)?;
    let mut at = 0;
    while at < lines.len() {
        let count = steps_first(&lines[at..]);
        let steps = &lines[at..at + count];
        run = run_phase(rt, manner, turn, steps, run, sink)?;
        at += count;
        if at < lines.len() {
            end_phase(manner, turn, &run, &lines[at], sink)?;
            at += 1;
        }
    }
    Ok(())
}

/// Ends a phase: the line that asks no step is answered, and the next phase's turn comes.
fn end_phase<G, S: AnswerSink>(
    manner: &Manner<'_, G>,
    turn: &mut Turn,
    run: &Metered,
    line: &Line,
    sink: &mut S,
) -> Result<(), AllocError>
    requires no_step { step_of line.now.command ≡ None }
    requires used { run.now.used ≡ used_words_of run.now.system }
    requires kept { AreKept manner.now.verbosity run.now.peaks }
    ensures answered { OnOk result (Puts S.took (IsOfEnd manner.now.verbosity run.now line.now) sink.old sink.new) }
    ensures turn { OnOk result (IsNextTurn turn.old turn.new) }
{
    answer_between(manner, run, Some(run.used), line, sink)?;
    turn.go_on();
    Ok(())
}

/// Returns how many of the first lines ask steps, up to one that asks none.
fn steps_first(lines: &[Line]) -> usize
    ensures within { result ≤ length lines.now }
    ensures steps { AreSteps (take result lines.now) }
    ensures stops { (line : LineOf) → slice_get lines.now result ≡ Some line
        → step_of line.command ≡ None }
{
    for (count, line) in lines.iter().enumerate() {
        let Command::Step(_) = line.command() else {
            return count;
        };
    }
    lines.len()
}
