//! The work on the shares of a phase, each in a thread of its own.
//!
//! Kept true: a share is worked by one thread, in the order of its tasks, and there is room for
//! each reply before its thread starts; the share's seat of the meter counts what its loaders get
//! and give back. Takes memory for the threads and their results; waits for the lock, and for the
//! threads to end.
ghost use Rattle.std.specs.Prelude.{◌≡◌, IfOk, IfErr, OnOk};
ghost use Rattle.std.specs.List.{All};
ghost use Rattle.ms_run.specs.Replay.{IsWanting};
ghost use Rattle.ms_run.specs.Metering.{after_look};
ghost use Rattle.ms_run.specs.Shares.{IsReadyFor, IsWorked, AllWorked, tasks_in};
ghost use Rattle.ms_run.specs.declared.share.Share.{Share as ShareOf};
ghost use Rattle.ms_run.specs.Gating.{AreTasksGated};

use crate::fault::RunFault;
use crate::gate::Gate;
use crate::metering::answer_metered;
use crate::share::{Share, read_task};
use ms_shared::{MeterSeat, SharedPool, UsedMeter};
use ms_trace::Line;
use std::alloc::Global;
use std::snapshot::Snapshot;
use std::sync::Wait;
use std::thread;
use std::thread::{Promise, Threads};

/// What the workers of a phase have in common.
#[derive(Drop)]
pub(crate) struct Context<'a, R, G> {
    /// What waits.
    pub rt: &'a R,
    /// What replies and results are taken from.
    pub alloc: Global,
    /// The pool behind its lock.
    pub shared: &'a SharedPool,
    /// The meter of the phase.
    pub meter: &'a UsedMeter,
    /// The words in use before the phase, which the gate learns.
    pub before: u64,
    /// The gate round each task.
    pub gate: &'a G,
    /// The lines of the phase.
    pub lines: &'a [Line],
}

/// That a thread works the share of a phase's lines that was handed to it, and calls the gate for
/// each task.
struct WorkOf<'a, G> {
    lines: Snapshot<&'a [Line]>,
    share: Snapshot<Share>,
    gate: Snapshot<G>,
}

impl<'a, G> Drop for WorkOf<'a, G> {
    /// Lets the snapshots go, which have no bytes.
    fn drop(self) {
        let WorkOf {
            lines: _,
            share: _,
            gate: _,
        } = self;
    }
}

impl<'a, G: Gate> Promise<Share> for WorkOf<'a, G> {
    ghost use Rattle.ms_run.specs.Gating.{AreTasksGated};
    ghost use Rattle.ms_run.specs.Shares.{IsWorked, tasks_in};

    ghost kept_by = { λ work done. IsWorked work.lines.value.now work.share.value done
        × AreTasksGated (G.told work.gate.value) work.share.value.worker
        (tasks_in work.lines.value.now work.share.value) };
}

/// Works all shares of a phase's lines, each by a thread. An error means that memory or a thread was
/// wanting; then what was worked is lost. Takes memory.
pub(crate) fn work_all<R: Threads + Wait + Sync, G: Gate + Sync>(
    context: &Context<'_, R, G>,
    shares: Vec<Share>,
) -> Result<Vec<Share>, RunFault>
    requires { All (IsReadyFor context.now.shared.now context.now.meter.now) shares.items }
    ensures worked { IfOk result (λ done. AllWorked context.now.lines.now shares.items done.items) }
    ensures gated { OnOk result (All (λ (share : ShareOf).
        AreTasksGated (G.told context.now.gate.now) share.worker (tasks_in context.now.lines.now share))
        shares.items) }
    ensures wanting { IfErr result IsWanting }
{
    // A thread is handed these one by one: of a closure with a `Context` no clause would be known.
    let Context {
        rt,
        alloc,
        shared,
        meter,
        before,
        gate,
        lines,
    } = *context;
    thread::scope(
        thread::scope_env(),
        rt,
        |scope| -> Result<Vec<Share>, RunFault>
            requires { All (IsReadyFor shared.now meter.now) shares.items }
            ensures worked { IfOk result (λ done.
                AllWorked lines.entry.now shares.items done.items) }
            ensures gated { OnOk result (All (λ (share : ShareOf).
                AreTasksGated (G.told gate.entry.now) share.worker
                (tasks_in lines.entry.now share)) shares.items) }
            ensures wanting { IfErr result IsWanting }
        {
            let mut handles = Vec::with_capacity(alloc, shares.len())?;
            for share in shares {
                let work_of = WorkOf {
                    lines: Snapshot::of(&lines),
                    share: Snapshot::of(&share),
                    gate: Snapshot::of(gate),
                };
                let started = scope.spawn_with(
                    work_of,
                    move || -> Share
                        requires { IsReadyFor shared.now meter.now share }
                        ensures worked { IsWorked lines.entry.now share result }
                        ensures gated { AreTasksGated (G.told gate.entry.now) share.worker
                            (tasks_in lines.entry.now share) }
                    {
                        let context = Context {
                            rt,
                            alloc,
                            shared,
                            meter,
                            before,
                            gate,
                            lines,
                        };
                        work(&context, share)
                    },
                );
                match started {
                    Ok(handle) => handles.push_reserved(handle),
                    Err(refused) => {
                        drop(refused);
                        return Err(RunFault::NoThread);
                    }
                }
            }
            match thread::join_promised(rt, handles) {
                Ok(done) => Ok(done),
                Err(refused) => {
                    drop(refused);
                    Err(RunFault::OutOfMemory)
                }
            }
        },
    )
}

/// Works a share of a phase's lines: each task between the gate's two calls.
fn work<R: Wait, G: Gate>(context: &Context<'_, R, G>, share: Share) -> Share
    requires { IsReadyFor context.now.shared.now context.now.meter.now share }
    ensures worked { IsWorked context.now.lines.now share result }
    ensures gated { AreTasksGated (G.told context.now.gate.now) share.worker
        (tasks_in context.now.lines.now share) }
{
    let Context {
        rt,
        alloc,
        shared,
        meter,
        before,
        gate,
        lines,
    } = *context;
    let Share {
        worker,
        seat,
        meter: mut counted,
        mut loaders,
        indices,
        mut replies,
    } = share;
    let mut pool = shared.at(rt, seat);
    for at in &indices {
        let task = read_task(lines, *at);
        gate.before(worker, task.line);
        let step = task.step;
        let reply = answer_metered(alloc, &mut pool, &mut loaders, meter, &mut counted, step);
        replies.push_reserved(reply);
        let used = used_now(gate.looks(), meter, &mut counted, before);
        gate.after(worker, task.line, used);
    }
    Share {
        worker,
        seat: pool.into_seat(),
        meter: counted,
        loaders,
        indices,
        replies,
    }
}

/// Reads the words in use where they are looked at: those before, and what the meter says.
fn used_now(looks: bool, meter: &UsedMeter, seat: &mut MeterSeat, before: u64) -> u64
    requires { seat.old.id ≡ meter.now.id }
    ensures { seat.new ≡ after_look looks seat.old }
{
    if !looks {
        return 0;
    }
    meter.now(seat).wrapping_add(before)
}
