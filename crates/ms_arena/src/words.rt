//! The words of one arena's blocks, by their numbers in the space.
//!
//!     space    stretch 3           stretch 70          stretch 71
//!              |..####..........|  |##.............|   |####...........|     # written
//!     list     | stretch 3      | stretch 71     | stretch 70     |  room  |
//!     position      1                  2                3
//!              0                2048             4096             6144
//!
//! A stretch of 2048 words that a block reaches into gets the next position of the list, and keeps
//! it: so a word has one home, by its number, and a block that starts where another did finds what
//! that one wrote, which is cleared first. A word whose stretch has no position is 0. Kept true: no
//! two stretches have one position, and the list has room for all. Only `reserve` takes memory.
//! Stands on `positions` and `pages`. HotSpot's arenas are memory themselves; this stands for it.
ghost use Rattle.std.specs.Prelude.{◌≡◌, ℕ, ◌+◌, ◌-◌, ◌*◌, ◌/◌, ◌^◌, ◌<◌, ◌≤◌, OnOk};
ghost use Rattle.ms_arena.specs.Positions.{position_of};
ghost use Rattle.ms_arena.specs.Words.{StayWords, HasRoom, Opens, OpensIn, IsThere, Writes, position_at, value_at};

mod others;
mod pages;
mod positions;

use pages::Pages;
use positions::Positions;
use std::alloc::{AllocError, Global};
use std::marker::Model;

/// The words of a stretch.
const STRETCH: usize = 2048;

/// For how many positions room is made at least, where few blocks are to come.
const FEW: usize = 4;

/// For how many where many are: so few arenas ask again.
const MANY: usize = 7;

/// The words of an arena's blocks. A word has its number in the space.
#[derive(Drop)]
pub struct Words {
    /// The positions of stretches, counted from 1.
    positions: Positions,
    /// The words, position by position.
    list: Pages,
    /// How many positions were given.
    given: usize,
    /// For how many positions more there is room.
    ready: usize,
}

impl Model for Words {
    ghost use Rattle.ms_arena.specs.Words.{WordsView, AreWords};

    ghost Value = { WordsView };

    ghost view = { λ w. record { positions = w.positions; list = w.list; given = w.given; ready = w.ready } };

    ghost invariant = { λ w. AreWords w.positions w.list.room w.given w.ready };
}

impl Words {
    /// Makes a list of no position, which takes its memory from the allocator. Takes none yet.
    pub(crate) fn new(alloc: Global) -> Words
        ensures { (word : ℕ) → position_at result word ≡ 0 }
    {
        Words {
            positions: Positions::new(alloc),
            list: Pages::new(alloc),
            given: 0,
            ready: 0,
        }
    }

    /// Takes all positions away, and keeps the memory that they had, with the room for more. What
    /// the words held stays there, and is cleared where a position is given again. Out of line,
    /// since many an arena that starts anew had none.
    #[inline(never)]
    pub(crate) fn clear(&mut self)
        ensures { (word : ℕ) → position_at self.new word ≡ 0 }
    {
        self.positions.clear();
        self.given = 0;
        self.ready = self.positions.spare().min(self.list.words() / STRETCH);
    }

    /// Returns for how many stretches there is memory, and how many pages of words are in it.
    pub(crate) fn sizes(&self) -> (usize, usize) {
        (self.positions.capacity(), self.list.stored())
    }

    /// Makes room for a run of n words, and for more where many blocks are to come; the words stay.
    #[inline(always)]
    pub(crate) fn reserve(&mut self, alloc: Global, n: u64, many: bool) -> Result<(), AllocError>
        ensures room { OnOk result (HasRoom self.new n) }
        ensures stay { StayWords self.old self.new }
    {
        // A run that doesn't begin with a stretch reaches into one more at each end.
        let more = n as usize / STRETCH + 2;
        if more <= self.ready {
            return Ok(());
        }
        let least = if many { MANY } else { FEW };
        self.make_room(alloc, more.max(least))
    }

    /// Makes room for so many positions more; the words stay.
    #[inline(never)]
    fn make_room(&mut self, alloc: Global, more: usize) -> Result<(), AllocError>
        requires { more < 2 ^ 55 }
        ensures room { OnOk result (more ≤ self.new.ready) }
        ensures stay { StayWords self.old self.new }
    {
        self.ready = 0;
        self.positions.reserve(alloc, more)?;
        let given = self.given + more;
        self.list.reserve(alloc, STRETCH.saturating_mul(given))?;
        self.ready = more;
        Ok(())
    }

    /// Reads a word.
    pub(crate) fn read(&self, word: u64) -> u64
        ensures { result ≡ value_at self.now word }
    {
        let position = self.positions.get(word as usize / STRETCH);
        if position == 0 {
            return 0;
        }
        self.list
            .read((position - 1) * STRETCH + word as usize % STRETCH)
    }

    /// Writes a word that is there.
    pub(crate) fn write(&mut self, word: u64, value: u64)
        requires { IsThere self.old word }
        ensures { Writes self.old word value self.new }
    {
        let position = self.positions.get(word as usize / STRETCH);
        self.list
            .write((position - 1) * STRETCH + word as usize % STRETCH, value);
    }

    /// Opens a run of n words, which are there and 0 then, in room that there is. Most runs lie in
    /// one stretch.
    #[inline(always)]
    pub(crate) fn open(&mut self, start: u64, n: u64)
        requires some { 0 < n }
        requires room { HasRoom self.old n }
        requires ends { start + n < 2 ^ 27 }
        ensures { Opens self.old start (start + n) self.new }
    {
        let from = start as usize;
        let end = from + n as usize;
        let stretch = from / STRETCH;
        if end > STRETCH * stretch + STRETCH {
            self.open_across(start, n);
        } else {
            self.open_in(stretch, from, end);
        }
    }

    /// Opens a run of n words stretch by stretch, where they aren't there and 0 anyway: a large
    /// block costs nothing until a word is written.
    #[inline(never)]
    fn open_across(&mut self, start: u64, n: u64)
        requires some { 0 < n }
        requires room { HasRoom self.old n }
        requires ends { start + n < 2 ^ 27 }
        ensures { Opens self.old start (start + n) self.new }
    {
        let from = start as usize;
        let end = from + n as usize;
        let first = from / STRETCH;
        let past = end.div_ceil(STRETCH);
        if self.list.is_blank() && self.positions.has_all(first, past) {
            return;
        }
        if self.positions.has_none(first, past) {
            self.give(first, past);
        } else {
            for stretch in first..past {
                self.open_in(stretch, from, end);
            }
        }
        self.positions.note(first, past);
    }

    /// Opens the words from a start up to an end that lie in a stretch.
    #[inline(always)]
    fn open_in(&mut self, stretch: usize, start: usize, end: usize)
        requires low { start < 2048 * stretch + 2048 }
        requires high { 2048 * stretch < end }
        requires order { start ≤ end }
        requires within { stretch < 65536 }
        requires room { 0 < self.old.ready }
        ensures opens { OpensIn self.old stretch start end self.new }
        ensures room { self.old.ready ≤ self.new.ready + 1 }
    {
        let position = self.positions.get(stretch);
        if position == 0 {
            self.give(stretch, stretch + 1);
            return;
        }
        let base = (position - 1) * STRETCH;
        let first = start.saturating_sub(STRETCH * stretch);
        let last = (end - STRETCH * stretch).min(STRETCH);
        self.list.clear(base + first, base + last);
    }

    /// Gives the next positions to stretches from one up to another, which have none; their words
    /// are 0.
    #[inline(never)]
    fn give(&mut self, first: usize, past: usize)
        requires order { first ≤ past }
        requires none { (stretch : ℕ) → first ≤ stretch → stretch < past → position_of self.old.positions stretch ≡ 0 }
        requires within { past ≤ 65536 }
        requires room { past - first ≤ self.old.ready }
        ensures here { (word : ℕ) → first ≤ word / 2048 → word / 2048 < past → IsThere self.new word }
        ensures there { (word : ℕ) → IsThere self.old word → IsThere self.new word }
        ensures values { (word : ℕ) → value_at self.new word ≡ value_at self.old word }
        ensures room { self.old.ready ≤ self.new.ready + (past - first) }
    {
        let count = past - first;
        let position = self.given + 1;
        let base = self.given * STRETCH;
        self.list.clear(base, base + count * STRETCH);
        self.given += count;
        self.ready -= count;
        self.positions.put(first, past, position);
    }
}
