//! One phase of two workers or more: dealt, worked, merged and gathered. A phase of which one
//! worker has all lines is answered by the caller, over the system as it is.
//!
//!     System ── deal ──> shares ── work_all ──> shares ── gather ──> System
//!                                                   └──── merge ───> sink
//!
//! Kept true: the system is good before and after, and nothing of it is lost between; the phase's
//! meter moved as its words in use did. Peaks are raised at the end, or line by line by one worker.
//! Takes memory; waits for the lock and for threads where two
//! workers have lines.
ghost use Rattle.std.specs.Prelude.{◌≡◌, IsOk, IfOk, IfErr, OnOk, map, true, vec_len};
ghost use Rattle.std.specs.List.{All};
ghost use Rattle.ms_base.specs.Good.{IsGood};
ghost use Rattle.ms_run.specs.Replay.{AreKept, IsWanting};
ghost use Rattle.ms_run.specs.Sink.{AreOfPhase, Puts, PutsAll};
ghost use Rattle.ms_shared.specs.MeterRule.{MeterSeatState};
ghost use Rattle.ms_run.specs.Counting.{IsCounted};
ghost use Rattle.ms_run.specs.Joined.{IsEnded};
ghost use Rattle.ms_run.specs.Gating.{AreGated};
ghost use Rattle.ms_run.specs.Shares.{AreApart, AreSteps, Position, StandOver};
ghost use Rattle.ms_run.specs.Metering.{amount_of, meter_of, used_words_of};
ghost use Rattle.ms_run.specs.Turn.{worker_in, HaveOwnShares, IsSameTurn, TurnState};

use crate::alone::{Metered, answer_lines};
use crate::dealing::deal;
use crate::fault::RunFault;
use crate::gate::{Gate, Manner, Worker};
use crate::gathering::{fault_of, gather};
use crate::merging::merge;
use crate::peaks::raise;
use crate::share::Share;
use crate::turn::Turn;
use crate::working::{Context, work_all};
use ms_answers::{Answer, AnswerSink};
use ms_loaders::System;
use ms_shared::{MeterSeat, SharedPool, UsedMeter};
use ms_trace::Line;
use std::alloc::{AllocError, Global};
use std::sync::Wait;
use std::thread::Threads;

/// Runs a phase, and puts the answers to its lines into a sink.
pub fn run_phase<R: Threads + Wait + Sync, G: Gate + Sync, S: AnswerSink>(
    rt: &R,
    manner: &Manner<'_, G>,
    turn: &mut Turn,
    lines: &[Line],
    run: Metered,
    sink: &mut S,
) -> Result<Metered, RunFault>
    requires counted { IsCounted true manner.now.verbosity run }
    requires steps { AreSteps lines.now }
    ensures phase { IfOk result (λ after. Puts S.took
        (AreOfPhase manner.now.verbosity (worker_in turn.old) run lines.now after) sink.old sink.new) }
    ensures gated { OnOk result
        (AreGated (G.told manner.now.gate.now) (worker_in turn.old) lines.now) }
    ensures turn { IsSameTurn turn.old turn.new }
    ensures counted { IfOk result (IsCounted true manner.now.verbosity) }
    ensures wanting { IfErr result IsWanting }
{
    turn.activate(lines);
    if turn.shares() == 1 {
        let mut run = run;
        // Into a list, so that the loop that puts each answer into the sink has one user, and is
        // inlined there.
        let mut answers = Vec::new(manner.alloc);
        let worker = Worker {
            manner,
            number: turn.worker(0),
            counts: true,
        };
        answer_lines(&worker, lines, &mut run, &mut answers)?;
        put_all(answers, sink)?;
        return Ok(run);
    }
    run_shares(rt, manner, turn, lines, run, sink)
}

/// Puts answers into a sink, in their order.
fn put_all<S: AnswerSink>(answers: Vec<Answer>, sink: &mut S) -> Result<(), AllocError>
    ensures { OnOk result (PutsAll S.took answers.items sink.old sink.new) }
{
    for answer in answers {
        sink.put(answer)?;
    }
    Ok(())
}

/// Runs a phase of several workers with lines, each with its share.
fn run_shares<R: Threads + Wait + Sync, G: Gate + Sync, S: AnswerSink>(
    rt: &R,
    manner: &Manner<'_, G>,
    turn: &Turn,
    lines: &[Line],
    run: Metered,
    sink: &mut S,
) -> Result<Metered, RunFault>
    requires good { IsGood run.system }
    requires used { run.used ≡ used_words_of run.system }
    requires steps { AreSteps lines.now }
    requires shared { HaveOwnShares turn.now lines.now }
    ensures phase { (before : TurnState) → IsSameTurn before turn.now → IfOk result (λ after. Puts S.took
        (AreOfPhase manner.now.verbosity (worker_in before) run lines.now after) sink.old sink.new) }
    ensures gated { OnOk result (AreGated (G.told manner.now.gate.now) (worker_in turn.now) lines.now) }
    ensures counted { AreKept manner.now.verbosity run.peaks
        → IfOk result (IsCounted true manner.now.verbosity) }
    ensures wanting { IfErr result IsWanting }
{
    let Metered {
        system,
        used,
        mut peaks,
    } = run;
    let (pool, loaders) = system.into_parts();
    let alloc = manner.alloc;
    let (shared, shares, meter) = deal(alloc, turn, lines, pool, loaders)?;
    let context = Context {
        rt,
        alloc,
        shared: &shared,
        meter: &meter,
        before: used,
        gate: manner.gate,
        lines,
    };
    let shares = work_all(&context, shares)?;
    merge(alloc, turn, lines, &shares, sink)?;
    let (system, amount) = end_shares(alloc, shared, shares, meter)?;
    let used = used.wrapping_add(amount);
    raise(&mut peaks, &system, used);
    Ok(Metered {
        system,
        used,
        peaks,
    })
}

/// Ends the shares of a phase: the system comes together again, and the meter returns its sum.
fn end_shares(
    alloc: Global,
    shared: SharedPool,
    shares: Vec<Share>,
    meter: UsedMeter,
) -> Result<(System, u64), RunFault>
    requires stand { StandOver shared (vec_len shares) shares.items }
    requires apart { (position : Position) × AreApart position shares.items }
    requires own { All (λ (seat : MeterSeatState). seat.id ≡ meter.id)
        (map meter_of shares.items) }
    requires count { meter.seats ≡ vec_len shares }
    ensures gathered { IfOk result (λ ended. IsEnded shared.first shares.items ended.0) }
    ensures amount { IfOk result (λ ended. ended.1 ≡ amount_of (map meter_of shares.items)) }
    ensures wanting { IfErr result IsWanting }
{
    let (system, meters) = gather(alloc, shared, shares)?;
    let amount = close(meter, meters)?;
    Ok((system, amount))
}

/// Ends the phase's meter, to which all seats are given back, and returns what they sum to.
fn close(meter: UsedMeter, seats: Vec<MeterSeat>) -> Result<u64, RunFault>
    requires own { All (λ (seat : MeterSeatState). seat.id ≡ meter.id) seats.items }
    requires count { meter.seats ≡ vec_len seats }
    ensures closes { IsOk result }
    ensures amount { IfOk result (λ amount. amount ≡ amount_of seats.items) }
{
    match meter.close(seats) {
        Ok(amount) => Ok(amount),
        Err((refusal, meter, seats)) => {
            drop((meter, seats));
            Err(fault_of(refusal))
        }
    }
}
