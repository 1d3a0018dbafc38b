//! A worker's share of a phase.
ghost use Rattle.std.specs.Prelude.{◌≡◌};
ghost use Rattle.ms_run.specs.Shares.{task_at};

use ms_base::{Reply, Step};
use ms_loader_map::Loaders;
use ms_shared::{MeterSeat, PoolSeat};
use ms_trace::{Command, Line};

/// A step, and the number of its line.
#[derive(Clone, Copy)]
pub struct Task {
    /// The line's number, from 1 on.
    pub line: u32,
    /// What it asks.
    pub step: Step,
}

/// A worker's share of a phase: its loaders with a seat that serves them, the indices of its lines
/// in the phase's lines, in their order, and the replies to them so far. Its seat of the meter has
/// counted what its loaders got and gave back.
#[derive(Drop)]
pub struct Share {
    /// The worker's number, from 0 on.
    pub worker: usize,
    /// The seat of the lock.
    pub seat: PoolSeat,
    /// The seat of the meter.
    pub meter: MeterSeat,
    /// The loaders by name.
    pub loaders: Loaders,
    /// The indices of its lines, of which each asks a task.
    pub indices: Vec<usize>,
    /// The replies to the first tasks.
    pub replies: Vec<Reply>,
}

/// Reads the task of the line at an index. A line that asks no step, and an index past the end, have
/// a purge.
pub fn read_task(lines: &[Line], index: usize) -> Task
    ensures { result ≡ task_at lines.now index }
{
    let Some(line) = lines.get(index) else {
        return Task {
            line: 0,
            step: Step::Purge,
        };
    };
    let step = match line.command() {
        Command::Step(step) => step,
        Command::Sync | Command::Report => Step::Purge,
    };
    Task {
        line: line.number(),
        step,
    }
}
