//! A replay by one worker that an observer watches: after each line it sees how the metaspace
//! stands.
//!
//!     line 7 ──> answer_line ──> reply       counters of the pool ──┐
//!        `── its loader, before and after ──> amounts of all ───────┴──> Standing ──> see
//!
//! Kept true: the words in use and live of all loaders follow from those of the one loader that a
//! line names, before and after it. So a line costs the same however many loaders and chunks there
//! are. Takes memory as the lines, the sink and the observer do; nothing waits.
ghost use Rattle.std.specs.Prelude.{◌≡◌, [], ◌∷◌, true, IfOk, IfErr, OnOk};
ghost use Rattle.ms_base.specs.Good.{IsGood};
ghost use Rattle.ms_base.specs.State.{limits_of};
ghost use Rattle.ms_base.specs.Totals.{committed_words};
ghost use Rattle.ms_base.specs.declared.kind.Space.TheVariants.{Class};
ghost use Rattle.ms_course.specs.Standing.{standing_of};
ghost use Rattle.ms_loader.specs.Amounts.{amounts_of, no_amounts};
ghost use Rattle.ms_run.specs.Counting.{HasTaken, IsCounted};
ghost use Rattle.ms_run.specs.Course.{Course};
ghost use Rattle.ms_run.specs.Observing.{IsObserved, PutsAndSees, WatchesLines, amounts_in, moved_by};
ghost use Rattle.ms_run.specs.Sink.{AreToTrace, Puts};
ghost use Rattle.ms_run.specs.Workers.{named_by};

use crate::alone::{Metered, answer_line, begin_run};
use crate::between::totals_of;
use crate::fault::RunFault;
use crate::gate::{Manner, NoGate, Worker};
use crate::observer::Observer;
use crate::turn::loader_named;
use ms_answers::{AnswerSink, Totals, Verbosity};
use ms_base::{NODE_WORDS, Settings};
use ms_course::{Extent, Standing};
use ms_loader::Amounts;
use ms_loaders::System;
use ms_trace::{Command, Line, Trace};
use std::alloc::{AllocError, Global};

/// Replays a trace by one worker, the caller itself: puts the answer to each line into a sink, with
/// full reports, and lets an observer see the line and how the metaspace stands after it. Returns
/// the full totals of the end. So many workers as the settings say count for nothing here.
/// `OutOfMemory` comes where a growth is refused, and leaves in sink and observer what it leaves.
/// Takes memory as a full report does, and no more for the observer's sake. This project's choice.
pub fn replay_observed<S: AnswerSink, O: Observer>(
    alloc: Global,
    trace: &Trace,
    settings: Settings,
    sink: &mut S,
    observer: &mut O,
) -> Result<Totals, RunFault>
    ensures answers { settings.workers ≡ 1 → OnOk result
        (Puts S.took (AreToTrace settings Verbosity.Full trace.now.lines) sink.old sink.new) }
    ensures observed { IfOk result (λ totals. PutsAndSees S.took O.saw (λ answers sights.
        IsObserved (limits_of settings) trace.now.lines answers sights totals)
        sink.old sink.new observer.old observer.new) }
    ensures wanting { IfErr result (λ fault. fault ≡ RunFault.OutOfMemory) }
{
    let mut run = begin_run(alloc, settings, Verbosity::Full)?;
    watch_lines(alloc, trace.lines.as_slice(), &mut run, sink, observer)?;
    Ok(totals_of(&run, Some(run.used), Verbosity::Full)?)
}

/// Answers the lines in their order, each of which the observer then sees.
fn watch_lines<S: AnswerSink, O: Observer>(
    alloc: Global,
    lines: &[Line],
    run: &mut Metered,
    sink: &mut S,
    observer: &mut O,
) -> Result<(), AllocError>
    requires counted { IsCounted true Verbosity.Full run.old }
    requires taken { (course : Course) × HasTaken course run.old }
    requires none { amounts_of run.old.system ≡ no_amounts }
    ensures watched { OnOk result (PutsAndSees S.took O.saw
        (WatchesLines run.old lines.now run.new) sink.old sink.new observer.old observer.new) }
    ensures counted { OnOk result (IsCounted true Verbosity.Full run.new) }
{
    let mut amounts = Amounts::NONE;
    for line in lines {
        amounts = watch_line(alloc, line, amounts, run, sink, observer)?;
    }
    Ok(())
}

/// Answers a line, lets the observer see it, and returns the amounts of all loaders after it.
fn watch_line<S: AnswerSink, O: Observer>(
    alloc: Global,
    line: &Line,
    amounts: Amounts,
    run: &mut Metered,
    sink: &mut S,
    observer: &mut O,
) -> Result<Amounts, AllocError>
    requires counted { IsCounted true Verbosity.Full run.old }
    requires taken { (course : Course) × HasTaken course run.old }
    requires amounts { amounts ≡ amounts_of run.old.system }
    ensures watched { OnOk result (PutsAndSees S.took O.saw
        (WatchesLines run.old (line.now ∷ []) run.new) sink.old sink.new observer.old observer.new) }
    ensures counted { OnOk result (IsCounted true Verbosity.Full run.new) }
    ensures amounts { IfOk result (λ after. after ≡ amounts_of run.new.system) }
{
    let name = name_in(line);
    let before = amounts_at(&run.system, name);
    let manner = Manner {
        alloc,
        gate: &NoGate,
        verbosity: Verbosity::Full,
    };
    let worker = Worker {
        manner: &manner,
        number: 0,
        counts: true,
    };
    let reply = answer_line(&worker, line, run, sink)?;
    let after = amounts_at(&run.system, name);
    let now = moved(amounts, before, after);
    let stands = standing(&run.system, now);
    observer.see(line, &reply, &stands, &run.system)?;
    Ok(now)
}

/// Returns the name of the loader that a line names, where it names one.
fn name_in(line: &Line) -> Option<u16>
    ensures { result ≡ named_by line.now }
{
    match line.command() {
        Command::Step(step) => loader_named(&step),
        Command::Sync | Command::Report => None,
    }
}

/// Returns the amounts of the loader of a name, where there is one.
fn amounts_at(system: &System, name: Option<u16>) -> Amounts
    ensures { result ≡ amounts_in name system.now.loaders }
{
    match name {
        Some(name) => system.amounts_by(name),
        None => Amounts::NONE,
    }
}

/// Returns the amounts of all loaders where those of one went from the first to the second: the
/// difference is counted modulo 2^64.
fn moved(all: Amounts, before: Amounts, after: Amounts) -> Amounts
    ensures used { result.used ≡ moved_by all.used before.used after.used }
    ensures live { result.live ≡ moved_by all.live before.live after.live }
    ensures class_used { result.class_used ≡ moved_by all.class_used before.class_used after.class_used }
    ensures class_live { result.class_live ≡ moved_by all.class_live before.class_live after.class_live }
{
    Amounts {
        used: all.used.wrapping_add(after.used).wrapping_sub(before.used),
        live: all.live.wrapping_add(after.live).wrapping_sub(before.live),
        class_used: all
            .class_used
            .wrapping_add(after.class_used)
            .wrapping_sub(before.class_used),
        class_live: all
            .class_live
            .wrapping_add(after.class_live)
            .wrapping_sub(before.class_live),
    }
}

/// Returns how a system stands of which the amounts of all loaders are known.
fn standing(system: &System, amounts: Amounts) -> Standing
    requires good { IsGood system.now }
    requires amounts { amounts ≡ amounts_of system.now }
    ensures { result ≡ standing_of system.now }
{
    let counts = system.counts();
    let class_reserved = u64::from(counts.class_nodes) * NODE_WORDS;
    Standing {
        both: Extent {
            reserved: u64::from(counts.nodes) * NODE_WORDS + class_reserved,
            committed: system.committed(),
            used: amounts.used + amounts.class_used,
            live: amounts.live + amounts.class_live,
        },
        class_space: Extent {
            reserved: class_reserved,
            committed: class_committed(system, counts.class_nodes),
            used: amounts.class_used,
            live: amounts.class_live,
        },
        loaders: system.loader_count(),
    }
}

/// Returns the committed words of a class space of so many nodes, which are none where it has none.
fn class_committed(system: &System, class_nodes: u32) -> u64
    requires good { IsGood system.now }
    requires nodes { class_nodes ≡ system.now.limits.class_nodes }
    ensures { result ≡ committed_words Class system.now }
{
    if class_nodes == 0 {
        0
    } else {
        system.class_committed()
    }
}
