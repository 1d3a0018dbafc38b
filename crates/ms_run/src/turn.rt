//! Whose turn it is: which worker works each loader in a phase, and which share has its lines.
//!
//!     loader number j, phase k:  worker (j + k) mod W
//!
//! A loader's number is its position by first appearance in the trace, from 0 on. A `purge` is
//! worked by worker 0. Only workers with lines have a share. Takes memory once, for a position for
//! each name.
ghost use Rattle.std.specs.Prelude.{◌≡◌, ◌+◌, ◌%◌, ◌<◌, ◌≤◌, ◌++◌, ◌∷◌, [], List, IfOk, length};
ghost use Rattle.std.specs.Prelude.{vec_len, vec_capacity, slice_index_or};
ghost use Rattle.ms_base.specs.Request.{loader_of};
ghost use Rattle.ms_trace.specs.declared.trace.Line.{Line as LineOf};
ghost use Rattle.ms_run.specs.Turn.{IsTurn, shares_in, position_in, worker_by, AreFirst, IsNumbered};
ghost use Rattle.ms_run.specs.Turn.{AddsWorker, Assigns, HaveOwnShares};

use ms_base::{Settings, Step};
use ms_trace::{Command, Line};
use std::alloc::{AllocError, Global};
use std::marker::Model;

/// How many names of loaders there are.
const NAMES: usize = 65_536;

/// The most workers that there are.
const MOST_WORKERS: usize = 8;

/// Stands for the worker of a name that the trace doesn't have.
const UNNAMED: u8 = 255;

/// Which share has each loader's lines.
#[derive(Drop)]
pub struct Turn {
    // By loader name: its worker in phase 0, and `UNNAMED` where no line has the name.
    first: Vec<u8>,
    // How many workers there are, 1 to 8.
    workers: usize,
    // The phase's number, modulo the workers.
    phase: usize,
    // The workers with lines in this phase, in order of their first lines: a share each. Worker 0
    // alone where there are none.
    active: Vec<usize>,
    // By worker: the position of its share.
    positions: Vec<usize>,
}

impl Model for Turn {
    ghost use Rattle.ms_run.specs.Turn.{TurnState};

    ghost Value = { TurnState };

    ghost use Rattle.std.specs.Prelude.{◌≡◌, ◌<◌, ◌≤◌, length, vec_capacity};

    ghost view = { λ turn. record {
      first = turn.first.items;
      phase = turn.phase;
      workers = turn.workers;
      active = turn.active.items;
      positions = turn.positions.items;
    } };

    ghost invariant = { λ turn. (1 ≤ length turn.active.items) × (length turn.active.items ≤ 8)
        × (8 ≤ vec_capacity turn.active) × (1 ≤ turn.workers) × (turn.workers ≤ 8)
        × (turn.phase < turn.workers) × (length turn.positions.items ≡ 8) };
}

impl Turn {
    /// Numbers the loaders of a trace. Takes memory.
    pub fn new(alloc: Global, settings: Settings, lines: &[Line]) -> Result<Turn, AllocError>
        ensures workers { IfOk result (λ turn. turn.workers ≡ settings.workers) }
        ensures phase { IfOk result (λ turn. turn.phase ≡ 0) }
        ensures first { IfOk result (λ turn. AreFirst lines.now settings.workers turn.first) }
    {
        let workers = settings.workers as usize;
        let first = first_workers(alloc, workers, lines)?;
        let mut active = Vec::with_capacity(alloc, MOST_WORKERS)?;
        active.push_reserved(0);
        let positions = vec![in alloc; 0; MOST_WORKERS]?;
        Ok(Turn {
            first,
            workers,
            phase: 0,
            active,
            positions,
        })
    }

    /// Finds the workers that have lines in this phase. Each then has a share, to which its lines
    /// go.
    pub fn activate(&mut self, lines: &[Line])
        ensures shares { HaveOwnShares self.new lines.now }
        ensures first { self.new.first ≡ self.old.first }
        ensures phase { self.new.phase ≡ self.old.phase }
        ensures workers { self.new.workers ≡ self.old.workers }
    {
        self.positions.fill(0);
        find_active(
            self.first.as_slice(),
            self.phase,
            self.workers,
            lines,
            &mut self.active,
            self.positions.as_mut_slice(),
        );
    }

    /// Goes on to the next phase.
    pub fn go_on(&mut self)
        ensures phase { self.new.phase ≡ (self.old.phase + 1) % self.old.workers }
        ensures first { self.new.first ≡ self.old.first }
        ensures workers { self.new.workers ≡ self.old.workers }
        ensures active { self.new.active ≡ self.old.active }
        ensures positions { self.new.positions ≡ self.old.positions }
    {
        self.phase = (self.phase + 1) % self.workers;
    }

    /// Returns how many shares there are, 1 to 8.
    pub fn shares(&self) -> usize
        ensures count { result ≡ shares_in self.now }
        ensures turn { IsTurn self.now }
    {
        self.active.len()
    }

    /// Returns the worker of a share; 0 where there is no such share.
    pub fn worker(&self, position: usize) -> usize
        ensures { result ≡ slice_index_or self.now.active position 0 }
    {
        entry(self.active.as_slice(), position)
    }

    /// Returns which share has the lines of a loader, or of a purge.
    pub fn position(&self, name: Option<u16>) -> usize
        ensures position { result ≡ position_in self.now name }
        ensures within { result < shares_in self.now }
    {
        let worker = worker_at(self.first.as_slice(), self.phase, self.workers, name);
        entry(self.positions.as_slice(), worker).min(self.active.len() - 1)
    }
}

/// Returns the loader that a step names; a purge names none.
pub fn loader_named(step: &Step) -> Option<u16>
    ensures { result ≡ loader_of step.now }
{
    match *step {
        Step::New { loader, .. } => Some(loader),
        Step::Alloc { loader, .. } => Some(loader),
        Step::Calloc { loader, .. } => Some(loader),
        Step::Write { loader, .. } => Some(loader),
        Step::Read { loader, .. } => Some(loader),
        Step::Free { loader, .. } => Some(loader),
        Step::Unload { loader } => Some(loader),
        Step::Purge => None,
    }
}

/// Reads an entry, which is 0 past the end.
fn entry(items: &[usize], at: usize) -> usize
    ensures { result ≡ slice_index_or items.now at 0 }
{
    if at < items.len() { items[at] } else { 0 }
}

/// Reads the worker of a name in phase 0, which is 0 past the end.
fn first_of(first: &[u8], name: u16) -> usize
    ensures value { result ≡ slice_index_or first.now name 0 }
    ensures small { result < 256 }
{
    let at = usize::from(name);
    if at < first.len() {
        usize::from(first[at])
    } else {
        0
    }
}

/// Returns the worker of a loader's lines in a phase, or of a purge.
fn worker_at(first: &[u8], phase: usize, workers: usize, name: Option<u16>) -> usize
    requires some { 1 ≤ workers }
    requires phase { phase < workers }
    requires few { workers ≤ 8 }
    ensures { result ≡ worker_by first.now phase workers name }
{
    match name {
        None => 0,
        Some(name) => (first_of(first, name) + phase) % workers,
    }
}

/// Returns the worker of each name in phase 0: names in the order of their first lines go to the
/// workers by turns. Takes memory.
fn first_workers(alloc: Global, workers: usize, lines: &[Line]) -> Result<Vec<u8>, AllocError>
    requires some { 1 ≤ workers }
    requires few { workers ≤ 8 }
    ensures first { IfOk result (λ first. AreFirst lines.now workers first.items) }
{
    let mut first = vec![in alloc; UNNAMED; NAMES]?;
    let mut next = 0;
    for line in lines {
        next = number(first.as_mut_slice(), line, workers, next);
    }
    Ok(first)
}

/// Gives the loader that a line names the next worker, where it has none yet, and returns the
/// worker that comes next.
fn number(first: &mut [u8], line: &Line, workers: usize, next: usize) -> usize
    requires below { next < workers }
    requires few { workers ≤ 8 }
    requires names { length first.old ≡ 65536 }
    ensures below { result < workers }
    ensures names { length first.new ≡ length first.old }
    ensures numbered { (lines : List LineOf) → IsNumbered lines workers first.old next
        → IsNumbered (lines ++ line.now ∷ []) workers first.new result }
{
    let Command::Step(step) = line.command() else {
        return next;
    };
    if assign(first, loader_named(&step), next as u8) {
        return (next + 1) % workers;
    }
    next
}

/// Gives a name its worker where it has none yet, and returns whether it had none.
fn assign(first: &mut [u8], name: Option<u16>, worker: u8) -> bool
    requires names { length first.old ≡ 65536 }
    ensures names { length first.new ≡ length first.old }
    ensures assigns { Assigns first.old name worker first.new result }
{
    let Some(name) = name else {
        return false;
    };
    let at = usize::from(name);
    if first[at] != UNNAMED {
        return false;
    }
    first[at] = worker;
    true
}

/// Finds the workers that have lines, in order of their first lines, and by worker the position of
/// its share.
fn find_active(
    first: &[u8],
    phase: usize,
    workers: usize,
    lines: &[Line],
    active: &mut Vec<usize>,
    positions: &mut [usize],
)
    requires phase { phase < workers }
    requires few { workers ≤ 8 }
    requires room { 8 ≤ vec_capacity active.old }
    requires positions { length positions.old ≡ 8 }
    ensures some { 1 ≤ vec_len active.new }
    ensures few { vec_len active.new ≤ 8 }
    ensures room { 8 ≤ vec_capacity active.new }
    ensures shares { HaveOwnShares (record {
      first = first.now;
      phase = phase;
      workers = workers;
      active = active.new.items;
      positions = positions.new;
    }) lines.now }
{
    active.clear();
    for line in lines {
        if active.len() == workers {
            return;
        }
        if let Command::Step(step) = line.command() {
            let worker = worker_at(first, phase, workers, loader_named(&step));
            add_active(active, positions, worker);
        }
    }
    if active.is_empty() {
        add_active(active, positions, 0);
    }
}

/// Adds a worker with its share's position, where it isn't there yet.
fn add_active(active: &mut Vec<usize>, positions: &mut [usize], worker: usize)
    requires few { vec_len active.old < 8 }
    requires room { 8 ≤ vec_capacity active.old }
    requires within { worker < length positions.old }
    ensures added { AddsWorker active.old.items positions.old worker active.new.items positions.new }
    ensures room { 8 ≤ vec_capacity active.new }
{
    if active.contains(&worker) {
        return;
    }
    positions[worker] = active.len();
    active.push_reserved(worker);
}
