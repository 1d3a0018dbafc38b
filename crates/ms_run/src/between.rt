//! Lines between two stretches of steps: a report, or a meeting of the workers.
//!
//! Where the words in use were counted on, a report has them from that count, and else from the
//! loaders; its sums are the same. It has details and peaks only where it shall be full. Takes
//! memory for a report and for answers; nothing waits.
ghost use Rattle.std.specs.Prelude.{◌≡◌, ◌+◌, IfOk, IfSome, OnOk, None};
ghost use Rattle.std.specs.Option.{is_some};
ghost use Rattle.ms_answers.specs.Details.{details_in, details_of};
ghost use Rattle.ms_base.specs.Totals.{sums_of};
ghost use Rattle.ms_answers.specs.Sums.{sums_in};
ghost use Rattle.ms_trace.specs.Steps.{step_of};
ghost use Rattle.ms_run.specs.Course.{Course};
ghost use Rattle.ms_run.specs.Counting.{HasTaken};
ghost use Rattle.ms_run.specs.Replay.{AreKept, AreOf, HasVerbosity, Reports};
ghost use Rattle.ms_run.specs.Replay.{is_full};
ghost use Rattle.ms_run.specs.Sink.{IsOfEnd, Puts};
ghost use Rattle.ms_run.specs.Metering.{used_words_of};

use crate::alone::Metered;
use crate::gate::Manner;
use ms_answers::{Answer, AnswerSink, Details, SpaceTotals, Totals, Verbosity};
use ms_base::Reply;
use ms_loaders::System;
use ms_trace::{Command, Line};
use std::alloc::{AllocError, Global};

/// Answers a line that asks no step: a report with the totals as they are, of the manner's verbosity,
/// and with the peaks that are kept. The words in use, of both spaces, are taken from a count of them
/// where there is one.
pub fn answer_between<G, S: AnswerSink>(
    manner: &Manner<'_, G>,
    run: &Metered,
    used: Option<u64>,
    line: &Line,
    sink: &mut S,
) -> Result<(), AllocError>
    requires no_step { step_of line.now.command ≡ None }
    requires used { IfSome used (λ words. words ≡ used_words_of run.now.system) }
    requires kept { AreKept manner.now.verbosity run.now.peaks }
    ensures { OnOk result (Puts S.took (IsOfEnd manner.now.verbosity run.now line.now) sink.old sink.new) }
{
    let report = report_for(manner.alloc, run, used, manner.verbosity, line.command())?;
    sink.put(Answer {
        line: line.number(),
        reply: Reply::Ok,
        report,
    })
}

/// Gathers the totals where a command asks for them, and boxes them.
fn report_for(
    alloc: Global,
    run: &Metered,
    used: Option<u64>,
    verbosity: Verbosity,
    command: Command,
) -> Result<Option<Box<Totals>>, AllocError>
    requires used { IfSome used (λ words. words ≡ used_words_of run.now.system) }
    requires kept { AreKept verbosity run.now.peaks }
    ensures reports { IfOk result (λ report. (course : Course) → HasTaken course run.now
        → Reports command course report) }
    ensures detailed { IfOk result (λ report.
        IfSome report (λ totals. HasVerbosity verbosity totals.value)) }
{
    match command {
        Command::Report => Ok(Some(Box::new(alloc, totals_of(run, used, verbosity)?)?)),
        Command::Step(_) | Command::Sync => Ok(None),
    }
}

/// Gathers the totals, with the words in use from a count where there is one, the peaks where they
/// are kept, and their details where they are asked for.
pub fn totals_of(
    run: &Metered,
    used: Option<u64>,
    verbosity: Verbosity,
) -> Result<Totals, AllocError>
    requires used { IfSome used (λ words. words ≡ used_words_of run.now.system) }
    requires kept { AreKept verbosity run.now.peaks }
    ensures of { IfOk result (λ totals. (course : Course) → HasTaken course run.now
        → AreOf course totals) }
    ensures detailed { IfOk result (λ totals. HasVerbosity verbosity totals) }
{
    let details = details_for(&run.system, verbosity)?;
    let totals = counted(&run.system, used)?;
    Ok(Totals {
        details,
        peaks: run.peaks,
        ..totals
    })
}

/// Gathers the details where they are asked for.
fn details_for(system: &System, verbosity: Verbosity) -> Result<Option<Details>, AllocError>
    ensures of { IfOk result (λ details.
        IfSome details (λ its. details_in its ≡ details_of system.now)) }
    ensures detailed { IfOk result (λ details. is_some details ≡ is_full verbosity) }
{
    match verbosity {
        Verbosity::Basic => Ok(None),
        Verbosity::Full => Ok(Some(system.details()?)),
    }
}

/// Gathers the totals, with the words in use from a count where there is one.
fn counted(system: &System, used: Option<u64>) -> Result<Totals, AllocError>
    requires { IfSome used (λ words. words ≡ used_words_of system.now) }
    ensures { IfOk result (λ totals. sums_in totals ≡ sums_of system.now) }
{
    let totals = system.totals()?;
    match used {
        Some(used) => Ok(with_used(totals, used)),
        None => Ok(totals),
    }
}

/// Puts the words in use as the meter counted them into totals: those of the class space are the
/// sum of its tops, and the others are what is left.
fn with_used(totals: Totals, used: u64) -> Totals
    requires { used ≡ totals.space.used + totals.class_space.used }
    ensures { sums_in result ≡ sums_in totals }
{
    let Totals {
        loaders,
        space,
        class_space,
        rows,
        details,
        peaks,
    } = totals;
    let (held, free) = (space.held, space.free);
    let space = SpaceTotals {
        nodes: space.nodes,
        reserved: space.reserved,
        granules: space.granules,
        committed: space.committed,
        chunks: space.chunks,
        capacity: space.capacity,
        fronts: space.fronts,
        used: used - class_space.used,
        live: space.live,
        free_blocks: space.free_blocks,
        waste: space.waste,
        held,
        free,
    };
    Totals {
        loaders,
        space,
        class_space,
        rows,
        details,
        peaks,
    }
}
