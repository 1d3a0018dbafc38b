//! What is called round each line of a replay.
ghost use Rattle.std.specs.Prelude.{⊤};
ghost use Rattle.ms_run.specs.Gating.{GateCall, Before, After};

use ms_answers::Verbosity;
use std::alloc::Global;

/// What is called round each line that asks a step, by the worker that works it. A test can hold
/// workers there. This project's choice.
pub trait Gate {
    /// The gate was called so. A gate for which nothing is said of its calls needs none of its own.
    ghost told: { Self → GateCall → Type 0 } = { λ gate call. ⊤ };

    /// Is called before a line: by which worker, from 0 on, and the line's number, from 1 on.
    fn before(&self, worker: usize, line: u32)
        ensures { told self.now (Before worker line) };

    /// Is called after it, with the words in use as the worker reads them, without the lock: those
    /// before the phase, and what all workers got in use since less what they gave back, modulo
    /// 2^64. With one worker they are the system's.
    fn after(&self, worker: usize, line: u32, used: u64)
        requires { told self.now (Before worker line) }
        ensures { told self.now (After worker line used) };

    /// Returns whether `after` reads the words in use. Where it doesn't, a worker needn't count
    /// or read them and passes 0.
    fn looks(&self) -> bool {
        true
    }
}

/// A gate that holds nobody: both its calls return at once. This project's choice.
pub struct NoGate;

impl Gate for NoGate {
    fn before(&self, _worker: usize, _line: u32) {}

    fn after(&self, _worker: usize, _line: u32, _used: u64) {}

    fn looks(&self) -> bool {
        false
    }
}

/// How a replay answers lines: in what memory, which gate it calls round them, and how much reports
/// tell.
#[derive(Drop)]
pub struct Manner<'a, G> {
    /// What memory is taken from.
    pub alloc: Global,
    /// The gate.
    pub gate: &'a G,
    /// What reports tell.
    pub verbosity: Verbosity,
}

/// Who answers lines, in a replay's manner.
#[derive(Drop)]
pub struct Worker<'a, G> {
    /// The replay's manner.
    pub manner: &'a Manner<'a, G>,
    /// The worker's number, from 0 on.
    pub number: usize,
    /// Whether the worker counts the words in use on.
    pub counts: bool,
}
