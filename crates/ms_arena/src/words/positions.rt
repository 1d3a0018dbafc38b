//! Which position each stretch of the space has in one arena's list of words.
//!
//!     stretch       70            3       71
//!     position   |  3  |       |  1  |  |  2  |     0 where there is none
//!                 newest            others
//!
//! The stretch that got its position last is looked at before the others (`others`), since an arena
//! mostly allocates there, and small arenas have no other. Beside them, once a large block comes, a
//! run of stretches that all have positions is noted for each root chunk of the space, so that a
//! large block needs no look at each of its own: no block reaches past its root. Only `reserve`
//! takes memory.
ghost use Rattle.std.specs.Prelude.{◌≡◌, ℕ, ◌+◌, ◌-◌, ◌^◌, ◌<◌, ◌≤◌, IsTrue, OnOk, Option, cond, nat_eq};
ghost use Rattle.ms_arena.specs.declared.words.positions.Positioned.{Positioned};
ghost use Rattle.ms_arena.specs.Others.{OthersView};
ghost use Rattle.ms_arena.specs.Positions.{HavePositions, StayPositions, position_given, position_in, position_of};

use super::others::Others;
use std::alloc::{AllocError, Global};
use std::marker::Model;

/// Into how many stretches a large block may reach at least.
const LARGE: usize = 32;

/// How many stretches a root chunk has, of 2^19 words.
const ROOT: usize = 256;

/// How many root chunks the space has, whose words are numbered below 2^27.
const ROOTS: usize = 256;

/// A run of no stretch.
const NONE: Run = Run { first: 0, past: 0 };

/// A stretch with its position.
#[derive(Clone, Copy, Drop)]
pub struct Positioned {
    /// The stretch.
    pub(crate) stretch: u16,
    /// Its position.
    pub(crate) position: usize,
}

/// A run of stretches: the first, and the one past the last.
#[derive(Clone, Copy, Drop)]
pub struct Run {
    /// The first.
    first: usize,
    /// The one past the last.
    past: usize,
}

/// The positions of stretches, counted from 1. A stretch has its number in the space.
#[derive(Drop)]
pub struct Positions {
    /// The one that got its position last.
    newest: Option<Positioned>,
    /// The position of each other stretch that has one.
    others: Others,
    /// For each root chunk a run of its stretches of which each has a position; nothing before a
    /// large block comes.
    runs: Vec<Run>,
}

impl Model for Positions {
    ghost use Rattle.ms_arena.specs.Positions.{PositionsView, HavePositions};

    ghost Value = { PositionsView };

    ghost view = { λ p. record { newest = p.newest; others = p.others } };

    ghost invariant = { λ p. HavePositions p.newest p.others p.runs.items };
}

impl Positions {
    /// Makes a map of no position, which takes its memory from the allocator. Takes none yet.
    pub(crate) fn new(alloc: Global) -> Positions
        ensures { (stretch : ℕ) → position_of result stretch ≡ 0 }
    {
        Positions {
            newest: None,
            others: Others::new(alloc),
            runs: Vec::new(alloc),
        }
    }

    /// Takes all positions away, and keeps the memory that they had.
    pub(crate) fn clear(&mut self)
        ensures { (stretch : ℕ) → position_of self.new stretch ≡ 0 }
    {
        self.newest = None;
        self.others.clear();
        self.runs.clear();
    }

    /// Returns for how many stretches there is memory.
    pub(crate) fn capacity(&self) -> usize {
        self.others.capacity()
    }

    /// Returns for how many stretches more there is room at least.
    pub(crate) fn spare(&self) -> usize
        ensures { result ≤ self.now.others.spare }
    {
        self.others.spare()
    }

    /// Makes room for so many stretches more; the positions stay.
    pub(crate) fn reserve(&mut self, alloc: Global, stretches: usize) -> Result<(), AllocError>
        ensures room { OnOk result (stretches ≤ self.new.others.spare) }
        ensures stay { StayPositions self.old self.new }
    {
        make_run_room(&mut self.runs, stretches);
        self.others.reserve(alloc, stretches)
    }

    /// Returns the position of a stretch, counted from 1, or 0 where it has none.
    #[inline(always)]
    pub(crate) fn get(&self, stretch: usize) -> usize
        ensures { result ≡ position_of self.now stretch }
    {
        if let Some(newest) = self.newest {
            if usize::from(newest.stretch) == stretch {
                return newest.position;
            }
        }
        self.others.get(stretch)
    }

    /// Returns whether no stretch from one up to another has a position.
    pub(crate) fn has_none(&self, first: usize, past: usize) -> bool
        ensures { IsTrue result
            → (stretch : ℕ) → first ≤ stretch → stretch < past → position_of self.now stretch ≡ 0 }
    {
        for stretch in first..past {
            if self.get(stretch) != 0 {
                return false;
            }
        }
        true
    }

    /// Gives the stretches from one up to another their positions, which follow one another, in
    /// room that there is.
    pub(crate) fn put(&mut self, first: usize, past: usize, position: usize)
        requires order { first ≤ past }
        requires within { past ≤ 65536 }
        requires room { past - first ≤ self.old.others.spare }
        requires some { 0 < position }
        requires fits { position + (past - first) < 2 ^ 64 }
        ensures put { (other : ℕ) → position_of self.new other
            ≡ position_given first past position other (position_of self.old other) }
        ensures room { self.old.others.spare ≤ self.new.others.spare + (past - first) }
    {
        enter_all(&mut self.newest, &mut self.others, first, past, position);
    }

    /// Returns whether all stretches from one up to another are known to have positions.
    pub(crate) fn has_all(&self, first: usize, past: usize) -> bool
        ensures { IsTrue result
            → (stretch : ℕ) → first ≤ stretch → stretch < past → 0 < position_of self.now stretch }
    {
        let root = first / ROOT;
        if root >= self.runs.len() {
            return false;
        }
        let run = self.runs[root];
        run.first <= first && past <= run.past
    }

    /// Notes that all stretches from one up to another have positions.
    pub(crate) fn note(&mut self, first: usize, past: usize)
        requires order { first ≤ past }
        requires positions { (stretch : ℕ) → first ≤ stretch → stretch < past → 0 < position_of self.old stretch }
        ensures { self.new ≡ self.old }
    {
        note_in(&self.newest, &self.others, &mut self.runs, first, past);
    }
}

/// Makes room for a run of each root chunk where a block may reach into so many stretches; where
/// that is refused none is noted.
#[inline(always)]
fn make_run_room(runs: &mut Vec<Run>, stretches: usize)
    ensures { (newest : Option Positioned) (others : OthersView) → HavePositions newest others runs.old.items
        → HavePositions newest others runs.new.items }
{
    if stretches >= LARGE && runs.is_empty() {
        let _ = runs.resize(ROOTS, NONE);
    }
}

/// Notes a run as its root's: together with the one that is noted there where they meet or touch,
/// else in its place where it is longer.
fn note_in(
    newest: &Option<Positioned>,
    others: &Others,
    runs: &mut Vec<Run>,
    first: usize,
    past: usize,
)
    requires order { first ≤ past }
    requires positions { (stretch : ℕ) → first ≤ stretch → stretch < past
        → 0 < position_in newest.now others.now stretch }
    requires runs { HavePositions newest.now others.now runs.old.items }
    ensures { HavePositions newest.now others.now runs.new.items }
{
    let root = first / ROOT;
    if root >= runs.len() {
        return;
    }
    let run = runs[root];
    if first <= run.past && run.first <= past {
        runs[root] = Run {
            first: run.first.min(first),
            past: run.past.max(past),
        };
    } else if past - first > run.past.saturating_sub(run.first) {
        runs[root] = Run { first, past };
    }
}

/// Gives stretches their positions, one after the other.
#[inline(always)]
fn enter_all(
    newest: &mut Option<Positioned>,
    others: &mut Others,
    first: usize,
    past: usize,
    position: usize,
)
    requires order { first ≤ past }
    requires within { past ≤ 65536 }
    requires room { past - first ≤ others.old.spare }
    requires fits { position + (past - first) < 2 ^ 64 }
    ensures put { (other : ℕ) → position_in newest.new others.new other
        ≡ position_given first past position other (position_in newest.old others.old other) }
    ensures room { others.old.spare ≤ others.new.spare + (past - first) }
{
    for stretch in first..past {
        enter(newest, others, stretch as u16, position + (stretch - first));
    }
}

/// Gives a stretch a position: it is the newest then, and the former one goes to the others.
#[inline(always)]
fn enter(newest: &mut Option<Positioned>, others: &mut Others, stretch: u16, position: usize)
    requires room { 0 < others.old.spare }
    ensures put { (other : ℕ) → position_in newest.new others.new other
        ≡ cond (nat_eq stretch other) position (position_in newest.old others.old other) }
    ensures room { others.old.spare ≤ others.new.spare + 1 }
{
    if let Some(former) = *newest {
        others.insert(former.stretch, former.position);
    }
    *newest = Some(Positioned { stretch, position });
}
