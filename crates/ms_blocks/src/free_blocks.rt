//! The free blocks of one arena, in room that is made ahead.
//!
//!     store    4 words (20, 4)  4 words (40, 4)  10 words (0, 10)
//!     room for 5 more     count 3     total 18     none has more than 10
//!
//! Neither adding a block nor removing one takes memory. Kept true: the store has the blocks by
//! rank, they lie apart, the count and the total are theirs, there is the room of the view, and no
//! block has more words than the bound: so where a larger one is asked for, the store isn't looked
//! at, as in most allocations.
ghost use Rattle.std.specs.Prelude.{◌≡◌, ◌+◌, ◌^◌, ◌%◌, ◌<◌, ◌≤◌, max, IsFalse, [], length, OnOk, OnErr, IfErr, IsOk};
ghost use Rattle.std.specs.Prelude.{IfSome, OnSome, IfNone, vec_len, vec_capacity};
ghost use Rattle.std.specs.Option.{option_map};
ghost use Rattle.ms_base.specs.Interval.{meets_any};
ghost use Rattle.ms_base.specs.Names.{with_new, without};
ghost use Rattle.ms_base.specs.Place.{best_fit};
ghost use Rattle.ms_blocks.specs.FreeBlocks.{KeptBlocks, AreKept, EndInWords, MayBeKept, IsBestFit, NoneFits, run_of, words_in};

use crate::store::{Store, insert, make_room, take};
use ms_base::{Block, Refusal};
use std::alloc::{Allocator, Global};
use std::marker::Model;

/// The words that an arena keeps for its next allocations: blocks that don't meet, each of at
/// least two words, and room for more of them. A start is a word number, and a size is in words.
/// Adding and removing take time that grows like the logarithm of the blocks kept.
pub struct FreeBlocks<A: Allocator = Global> {
    /// The free blocks by rank.
    store: Store<A>,
    /// For how many more there is room.
    room: usize,
    /// How many there are.
    count: usize,
    /// How many words they have together, modulo 2 ^ 64.
    total: u64,
    /// None of them has more words; one may have had so many.
    most: u64,
}

impl<A: Allocator> Drop for FreeBlocks<A> {
    /// Lets its parts go. Written out, so that crates above drop it by a call and see no part.
    fn drop(self) {
        let FreeBlocks {
            store: _,
            room: _,
            count: _,
            total: _,
            most: _,
        } = self;
    }
}

impl<A: Allocator> Model for FreeBlocks<A> {
    ghost use Rattle.ms_blocks.specs.FreeBlocks.{KeptBlocks};

    ghost Value = { KeptBlocks };

    ghost use Rattle.ms_blocks.specs.Tended.{kept_blocks, IsTended};

    ghost view = { kept_blocks };

    ghost invariant = { IsTended };
}

impl<A: Allocator> FreeBlocks<A> {
    /// Makes an empty collection with no room, which takes its memory from the allocator. Takes
    /// none yet.
    pub fn new(alloc: A) -> FreeBlocks<A>
        ensures { result ≡ record { kept = []; room = 0 } }
    {
        FreeBlocks {
            store: Store::new(alloc),
            room: 0,
            count: 0,
            total: 0,
            most: 0,
        }
    }

    /// Keeps one block more, of at least two words, in room that there is. It meets no free block.
    /// Takes no memory.
    pub fn add(&mut self, block: Block)
        requires room { 0 < self.old.room }
        requires words { 2 ≤ block.words }
        requires apart { IsFalse (meets_any (run_of block) self.old.kept) }
        ensures kept { self.new.kept ≡ with_new self.old.kept block.start block.words }
        ensures room { self.new.room + 1 ≡ self.old.room }
    {
        insert(&mut self.store, block);
        self.room -= 1;
        self.count += 1;
        self.total = self.total.wrapping_add(block.words);
        self.most = self.most.max(block.words);
    }

    /// Takes out the best fit whole: the free block with the fewest words that has at least so
    /// many, and of those the one with the lowest start. Answers `None`, and changes nothing,
    /// where no free block is large enough. Takes no memory: the room grows by one, so that the
    /// block, or what is left of it, can be added again. Best fit is this project's choice.
    #[inline(always)]
    pub fn remove(&mut self, words: u64) -> Option<Block>
        ensures best { IfSome result (λ block. IsBestFit self.old.kept words (run_of block)) }
        ensures none { IfNone result (NoneFits self.old.kept words) }
        ensures answer { option_map run_of result ≡ best_fit self.old.kept words }
        ensures taken { IfSome result (λ block. self.new.kept ≡ without self.old.kept block.start) }
        ensures room { OnSome result (self.new.room ≡ self.old.room + 1) }
        ensures back { IfSome result (λ block. MayBeKept self.new.kept (run_of block)) }
        ensures unchanged { IfNone result (self.new ≡ self.old) }
    {
        if self.most < words {
            return None;
        }
        let Some(block) = take(&mut self.store, words) else {
            self.most = words.saturating_sub(1);
            return None;
        };
        self.room += 1;
        self.count -= 1;
        self.total = self.total.wrapping_sub(block.words);
        Some(block)
    }

    /// Returns how many words the free blocks have together: exactly where each ends at a word
    /// number below 2 ^ 64, as in every arena, and else modulo 2 ^ 64. They lie apart, and each has
    /// at least two words.
    pub fn total(&self) -> u64
        ensures sum { result ≡ words_in self.now.kept % 2 ^ 64 }
        ensures exact { EndInWords self.now.kept → result ≡ words_in self.now.kept }
        ensures apart { AreKept self.now.kept }
    {
        self.total
    }

    /// Returns how many blocks are kept. They lie apart, and each has at least two words.
    pub fn len(&self) -> usize
        ensures count { result ≡ length self.now.kept }
        ensures apart { AreKept self.now.kept }
    {
        self.count
    }

    /// Returns how many more blocks can be added.
    pub fn room(&self) -> usize
        ensures { result ≡ self.now.room }
    {
        self.room
    }
}

impl<A: Allocator + Clone> FreeBlocks<A> {
    /// Makes room for `n` more blocks, where there is less; the blocks stay. Answers OutOfMemory
    /// where a growth was refused, and then blocks and room are as before. The memory of a block
    /// that is removed stays as room. This project's choice.
    pub fn reserve(&mut self, n: usize) -> Result<(), Refusal>
        ensures ok { OnOk result (self.new ≡ record self.old { room = max self.old.room n }) }
        ensures enough { n ≤ self.old.room → IsOk result }
        ensures refusal { IfErr result (λ refusal. refusal ≡ Refusal.OutOfMemory) }
        ensures unchanged { OnErr result (self.new ≡ self.old) }
    {
        if n <= self.room {
            return Ok(());
        }
        match make_room(&mut self.store, self.count, n) {
            Ok(()) => {
                self.room = n;
                Ok(())
            }
            Err(_) => Err(Refusal::OutOfMemory),
        }
    }
}
