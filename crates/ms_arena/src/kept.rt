//! The free blocks of one arena: those that are in order, and those that came since.
//!
//!     came      | [12, 20) | [64, 66) |   room   |      as they came
//!     ordered   [30, 42)  [0, 16)  [80, 120)  ..        by size, a fork of a tree for each
//!
//! Most blocks are never freed before their loader goes, so no fork is made for a block while it is
//! live: a block that comes is only noted, in room that was made when it was placed, and put in
//! order before the next placement. Kept true: each block that came may be kept beside those that
//! were there before it, and their words are summed. Only `make_room` takes memory.
ghost use Rattle.std.specs.Prelude.{◌≡◌, ◌+◌, ◌^◌, ◌<◌, ◌≤◌, IsFalse, [], length, OnOk, IfSome, IfNone};
ghost use Rattle.std.specs.Option.{option_map};
ghost use Rattle.ms_base.specs.Interval.{meets_any};
ghost use Rattle.ms_base.specs.Names.{with_new, without};
ghost use Rattle.ms_base.specs.Place.{best_fit};
ghost use Rattle.ms_blocks.specs.FreeBlocks.{IsBestFit, MayBeKept, run_of, words_in};
ghost use Rattle.ms_arena.specs.Kept.{MayAllBeKept, with_all};

use ms_base::Block;
use ms_blocks::FreeBlocks;
use std::alloc::{AllocError, Global};
use std::marker::Model;

/// The free blocks of one arena, and room for more of them. A start is a word number.
#[derive(Drop)]
pub struct Kept {
    /// Those that are in order, of two words at least.
    ordered: FreeBlocks,
    /// Those that came since, each its start and its words: words are numbered below 2^27, so 32
    /// bits are enough for both, and as much room is made as blocks are live.
    came: Vec<(u32, u32)>,
    /// How many words these have together, modulo 2^64.
    words: u64,
}

impl Model for Kept {
    ghost use Rattle.std.specs.Prelude.{◌-◌, vec_len, vec_capacity};
    ghost use Rattle.ms_arena.specs.Kept.{KeptView, HaveCome, with_all};

    ghost Value = { KeptView };

    ghost view = { λ k. record {
      kept = with_all k.ordered.kept k.came.items;
      room = vec_capacity k.came - vec_len k.came;
      came = vec_len k.came;
    } };

    ghost invariant = { λ k. HaveCome k.ordered.kept k.came.items k.words };
}

impl Kept {
    /// Makes a collection of no block, which takes its memory from the allocator. Takes none yet.
    pub(crate) fn new(alloc: Global) -> Kept
        ensures { result.kept ≡ [] }
    {
        Kept {
            ordered: FreeBlocks::new(alloc),
            came: Vec::new(alloc),
            words: 0,
        }
    }

    /// Takes all blocks out, and keeps the memory for those that come. Out of line, since many an
    /// arena that starts anew held none.
    #[inline(never)]
    pub(crate) fn clear(&mut self, alloc: Global)
        ensures { self.new.kept ≡ [] }
    {
        self.ordered = FreeBlocks::new(alloc);
        self.came.clear();
        self.words = 0;
    }

    /// Returns for how many blocks that come there is memory.
    pub(crate) fn capacity(&self) -> usize {
        self.came.capacity()
    }

    /// Puts all blocks in order, and makes room for so many more; the blocks stay.
    #[inline(always)]
    pub(crate) fn make_room(&mut self, blocks: usize) -> Result<(), AllocError>
        ensures room { OnOk result (blocks ≤ self.new.room) }
        ensures few { OnOk result (self.new.room < 2 ^ 63) }
        ensures ordered { OnOk result (self.new.came ≡ 0) }
        ensures more { self.old.room ≤ self.new.room }
        ensures kept { self.new.kept ≡ self.old.kept }
    {
        if !self.came.is_empty() {
            self.order()?;
        }
        self.came.reserve(blocks)
    }

    /// Puts all blocks in order.
    #[inline(never)]
    fn order(&mut self) -> Result<(), AllocError>
        ensures ordered { OnOk result (self.new.came ≡ 0) }
        ensures more { self.old.room ≤ self.new.room }
        ensures kept { self.new.kept ≡ self.old.kept }
    {
        if self.ordered.reserve(self.came.len()).is_err() {
            return Err(AllocError);
        }
        add_all(&mut self.ordered, self.came.as_slice());
        self.came.clear();
        self.words = 0;
        Ok(())
    }

    /// Keeps one block more, of at least two words, in room that there is.
    pub(crate) fn add(&mut self, block: Block)
        requires room { 0 < self.old.room }
        requires words { 2 ≤ block.words }
        requires small { block.start + block.words < 2 ^ 32 }
        requires apart { IsFalse (meets_any (run_of block) self.old.kept) }
        ensures kept { self.new.kept ≡ with_new self.old.kept block.start block.words }
        ensures room { self.new.room + 1 ≡ self.old.room }
    {
        self.came
            .push_reserved((block.start as u32, block.words as u32));
        self.words = self.words.wrapping_add(block.words);
    }

    /// Takes out the best fit whole, where all blocks are in order.
    #[inline(always)]
    pub(crate) fn remove(&mut self, words: u64) -> Option<Block>
        requires { self.old.came ≡ 0 }
        ensures best { IfSome result (λ block. IsBestFit self.old.kept words (run_of block)) }
        ensures answer { option_map run_of result ≡ best_fit self.old.kept words }
        ensures taken { IfSome result (λ block. self.new.kept ≡ without self.old.kept block.start) }
        ensures back { IfSome result (λ block. MayBeKept self.new.kept (run_of block)) }
        ensures room { self.new.room ≡ self.old.room }
        ensures unchanged { IfNone result (self.new ≡ self.old) }
    {
        self.ordered.remove(words)
    }

    /// Returns how many words the blocks have together.
    pub(crate) fn total(&self) -> u64
        requires { words_in self.now.kept < 2 ^ 64 }
        ensures { result ≡ words_in self.now.kept }
    {
        self.ordered.total().wrapping_add(self.words)
    }
}

/// Adds blocks in order, in room that there is.
fn add_all(ordered: &mut FreeBlocks, runs: &[(u32, u32)])
    requires room { length runs.now ≤ ordered.old.room }
    requires may { MayAllBeKept ordered.old.kept runs.now }
    ensures { ordered.new.kept ≡ with_all ordered.old.kept runs.now }
{
    for run in runs {
        ordered.add(Block {
            start: u64::from(run.0),
            words: u64::from(run.1),
        });
    }
}
