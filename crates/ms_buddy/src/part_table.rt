//! The splits of one root chunk as bits and entries: a bit for each part says whether it is a free
//! leaf (`free_bits`), and each lent leaf stands at the entry of its first word (`entries`). The free
//! leaves of each level are counted too (`levels`).
//!
//! No split stands in memory. By the bits the lowest free leaf of a level is found, and how far a
//! leaf merges that is released; by the entries which leaf is lent, to whom and with which front.
//!
//! What each call reads: `is_whole` a bit; `can_enlarge` a bit; `free_count` a count; `free_levels`
//! the 13 counts; `lowest_free` and `next_free` the bits of one level, 64 at a time, and no more of
//! these words than have a bit set; `leaf_at` a bit and an entry for each level down to the leaf's, 13
//! of each at most; `set_front` an entry; `carve`, `release` and `enlarge` 13 bits and an entry at most,
//! and they change the counts of the levels between. `free_leaves` reads a bit and an entry of each
//! part that it visits: the leaves and what is split (`part_walk`). Only `carve` takes memory, once,
//! where the root is split for the first time; it goes back with the table. After RootChunkArea in
//! HotSpot's rootChunkArea.hpp, which has a list in place of the bits.
ghost use Rattle.std.specs.Prelude.{◌≡◌, ℕ, ◌+◌, ◌*◌, ◌/◌, ◌%◌, ◌<◌, ◌≤◌, ◌≢◌, ◌↔◌, [], ◌∷◌, Some, Err, IsTrue, IsFalse};
ghost use Rattle.std.specs.Prelude.{IsOk, IfOk, OnOk, IfErr, OnErr, IfSome, IfNone};
ghost use Rattle.std.specs.List.{find, list_any};
ghost use Rattle.ms_base.specs.declared.sizes.TheConstants.{ROOT_WORDS};
ghost use Rattle.ms_base.specs.Level.{size_of};
ghost use Rattle.ms_buddy.specs.Counts.{count_at_level};
ghost use Rattle.ms_buddy.specs.Leaves.{AreLeaves, IsCarveRefusal, IsFront, IsLeafAt, can_enlarge, covers, fits_in, free_of};
ghost use Rattle.ms_buddy.specs.Leaves.{LendsAt, has_level, is_lent, is_of, is_of_from, leaf_of};
ghost use Rattle.ms_buddy.specs.Leaves.{parent_of, root};
ghost use Rattle.ms_buddy.specs.Leaves.{span_at, with_front, with_leaf, with_parent, without_leaf};
ghost use Rattle.ms_buddy.specs.Row.{AreWithin, IsSeen};
ghost use Rattle.ms_buddy.specs.Tree.{IsRootPart};

use crate::area::RootChunkArea;
use crate::entries::{ENTRY, Entries, Entry, Lending, NONE};
use crate::free_bits::{FreeBits, first_from, number, start_of, start_of_holder};
use crate::leaf::Leaf;
use crate::leaves::{FreeLeaves, LeavesOf};
use crate::levels::{LEVELS, join_counts, levels_of, part_counts};
use crate::part_walk::Seen;
use crate::parts::{part, words_of};
use ms_base::{Level, ROOT_WORDS, Refusal, Span};
use std::alloc::Allocator;
use std::marker::Model;

/// The parts of one root chunk, whose words are numbered from 0 to 524287, in a table of 32,760 bytes
/// once the root is split. Contracts see the list of its lent leaves, in order of address. After
/// JEP 387.
pub struct PartTable<A: Allocator> {
    /// What is lent from each entry on.
    entries: Entries<A>,
    /// How many free leaves there are of each level.
    counts: [u16; LEVELS],
    /// Which parts of the root are free leaves.
    free: FreeBits,
}

impl<A: Allocator> Drop for PartTable<A> {
    /// Lets its parts go. Written out, so that crates above drop it by a call and see no part.
    fn drop(self) {
        let PartTable {
            entries: _,
            counts: _,
            free: _,
        } = self;
    }
}

impl<A: Allocator> Model for PartTable<A> {
    ghost use Rattle.std.specs.Prelude.{List};
    ghost use Rattle.ms_buddy.specs.Leaves.{LentLeaf};
    ghost use Rattle.std.specs.Prelude.{length};
    ghost use Rattle.ms_buddy.specs.FreeBits.{IsKept};
    ghost use Rattle.ms_buddy.specs.Entries.{lent_from};

    ghost Value = { List LentLeaf };

    ghost view = { λ t. lent_from 0 t.entries };

    ghost invariant = { λ t. IsKept (lent_from 0 t.entries) (length t.entries) t.counts t.free.words t.free.filled };
}

impl<A: Allocator> PartTable<A> {
    /// Makes a table of one free leaf, the whole root. Takes no memory.
    pub fn new() -> PartTable<A>
        ensures { result ≡ [] }
    {
        PartTable {
            entries: Entries::new(),
            counts: [1, 0, 0, 0, 0, 0, 0, 0, 0, 0, 0, 0, 0],
            free: FreeBits::whole(),
        }
    }

    /// Returns whether the root is one free leaf. A caller also learns here what is true of the lent
    /// leaves of every tree. Takes no memory.
    pub fn is_whole(&self) -> bool
        ensures whole { IsTrue result ↔ (free_of self.now ≡ root ∷ []) }
        ensures none_lent { IsTrue result ↔ (self.now ≡ []) }
        ensures leaves { AreLeaves self.now }
    {
        self.free.has(1)
    }

    /// Answers the leaf that covers an offset in words, 0 to 524287, and where it is. This is the
    /// caller's test for a lent leaf. Takes no memory.
    pub fn leaf_at(&self, offset: u64) -> (Span, Leaf)
        requires { offset < ROOT_WORDS }
        ensures covers { IsTrue (covers offset result.0) }
        ensures leaf { IsLeafAt offset result.0 result.1 self.now (free_of self.now) }
        ensures lent { result.1 ≢ Leaf.Free → IsTrue (is_lent self.now result.0) }
    {
        for level in 0..13 {
            let start = start_of_holder(level, offset);
            if self.free.has(number(level, offset)) {
                return (part(start, level), Leaf::Free);
            }
            if let Some(leaf) = self.lent_at(level, start) {
                return (part(start, level), leaf);
            }
        }
        unreachable!()
    }

    /// Goes through the free leaves in order of address, each as large as it can be. Takes no
    /// memory.
    pub fn free_leaves(&self) -> FreeLeaves<'_, A>
        ensures { result ≡ free_of self.now }
    {
        FreeLeaves::of_parts(self)
    }

    /// Returns the levels of the free leaves as bits, that of level 0 the lowest. Takes no memory.
    /// This project's choice.
    pub fn free_levels(&self) -> u16
        ensures { (level : ℕ) → has_level result level ≡ list_any (is_of level) (free_of self.now) }
    {
        levels_of(&self.counts)
    }

    /// Returns how many free leaves there are of a level, without a walk over them. Takes no memory.
    /// This project's choice.
    pub fn free_count(&self, level: Level) -> u16
        ensures { result ≡ count_at_level level (free_of self.now) }
    {
        self.counts[level.number() as usize]
    }

    /// Returns whether a lent leaf can become its parent, as `enlarge` asks: it is no root, the
    /// leader, and its buddy is one free leaf. Looks at one bit. Takes no memory. After HotSpot,
    /// rootChunkArea.cpp.
    pub fn can_enlarge(&self, span: Span) -> bool
        requires { IsTrue (is_lent self.now span) }
        ensures { result ≡ can_enlarge span (free_of self.now) }
    {
        let free = &self.free;
        let level = span.level.number();
        let words = words_of(level);
        if level == 0 || span.start % (2 * words) != 0 {
            return false;
        }
        free.has(number(level, span.start + words))
    }

    /// Finds the lowest free leaf of a level, by the bits of the free leaves alone. Takes no
    /// memory. This project's choice.
    pub fn lowest_free(&self, level: Level) -> Option<Span>
        ensures { result ≡ find (is_of level) (free_of self.now) }
    {
        self.next_free(level, 0)
    }

    /// Finds the lowest free leaf of a level that starts at an offset in words or past it, by the
    /// bits of the free leaves alone. Takes no memory. This project's choice.
    pub fn next_free(&self, level: Level, from: u64) -> Option<Span>
        ensures { result ≡ find (is_of_from level from) (free_of self.now) }
    {
        let free = &self.free;
        if from >= ROOT_WORDS {
            return None;
        }
        let number = level.number();
        match free.next(first_from(number, from), 2 << number) {
            Some(found) => Some(part(start_of(number, found), number)),
            None => None,
        }
    }

    /// Looks at a part that starts there, which no larger free leaf meets: at its bit, and at what is
    /// lent from its first word on. Takes no memory.
    pub(crate) fn look(&self, level: u8, start: u64) -> Seen
        requires of_root { IsRootPart level start }
        requires within { AreWithin level start (free_of self.now) }
        ensures { IsSeen level start (free_of self.now) result }
    {
        if self.free.has(number(level, start)) {
            return Seen::Free;
        }
        // A part of the smallest size is not split, so it lies in a leaf that is lent.
        if level == 12 {
            return Seen::Lent;
        }
        match self.lent_at(level, start) {
            Some(_) => Seen::Lent,
            None => Seen::Split,
        }
    }

    /// Returns the lent leaf of a level that starts there, where there is one.
    fn lent_at(&self, level: u8, start: u64) -> Option<Leaf>
        requires in_root { start < ROOT_WORDS }
        requires whole { 128 * (start / 128) ≡ start }
        ensures lent { IfSome result (λ leaf. LendsAt self.now level start leaf) }
        ensures none { IfNone result (IsFalse (is_lent self.now (span_at start level))) }
    {
        let lending = self.entries.get((start / ENTRY) as usize)?;
        if lending.level.number() != level {
            return None;
        }
        Some(Leaf::Lent {
            owner: lending.owner,
            front: u64::from(lending.front),
        })
    }

    /// Changes the front of a lent leaf, in words from 1 to its size; the other leaves stay. Takes
    /// no memory.
    pub fn set_front(&mut self, span: Span, front: u64)
        requires lent { IsTrue (is_lent self.old span) }
        requires front { IsFront (size_of span.level) front }
        ensures front { self.new ≡ with_front span front self.old }
        ensures leaves { AreLeaves self.new }
    {
        self.entries
            .change((span.start / ENTRY) as usize, span.level, front as u32);
    }

    /// Takes a lent leaf out and answers the free leaf that results: it merges with its buddy for
    /// as long as that is one free leaf. The other lent leaves stay. Takes no memory. After
    /// HotSpot, rootChunkArea.cpp.
    pub fn release(&mut self, span: Span) -> Span
        requires { IsTrue (is_lent self.old span) }
        ensures lent { self.new ≡ without_leaf span self.old }
        ensures free { find (covers span.start) (free_of self.new) ≡ Some result }
        ensures leaves { AreLeaves self.new }
    {
        let start = span.start;
        let lent = span.level.number();
        let free = self.free.merge(lent, start);
        self.entries.put((start / ENTRY) as usize, NONE);
        join_counts(&mut self.counts, free, lent);
        part(start_of_holder(free, start), free)
    }

    /// Makes a lent leaf its parent, with a front in words from 1 to the parent's size, and answers
    /// the parent. The other lent leaves stay. Refuses with `NoRoom` and the leaf's level where the
    /// leaf is the root or a follower, or its buddy is not one free leaf; then nothing changes.
    /// Takes no memory. After HotSpot, rootChunkArea.cpp.
    pub fn enlarge(&mut self, span: Span, front: u64) -> Result<Span, Refusal>
        requires lent { IsTrue (is_lent self.old span) }
        requires front { IsFront (2 * size_of span.level) front }
        ensures parent { IfOk result (λ part. part ≡ parent_of span) }
        ensures lent { OnOk result (self.new ≡ with_parent span front self.old) }
        ensures room { IsOk result ↔ IsTrue (can_enlarge span (free_of self.old)) }
        ensures no_room { IfErr result (λ refusal. refusal ≡ Refusal.NoRoom span.level) }
        ensures unchanged { OnErr result (self.new ≡ self.old) }
        ensures leaves { OnOk result (AreLeaves self.new) }
    {
        let no_room = Err(Refusal::NoRoom { level: span.level });
        let start = span.start;
        let level = span.level.number();
        if !self.can_enlarge(span) {
            return no_room;
        }
        let follower = number(level, start + words_of(level));
        self.entries.change(
            (start / ENTRY) as usize,
            Level::new(level - 1),
            front as u32,
        );
        part_counts(&mut self.counts, level, level);
        self.free.put(follower, false);
        Ok(part(start, level - 1))
    }

    /// Lends the part of that level at an offset in words, 0 to 524287, to an owner, with a front
    /// in words from 1 to the part's size. The other lent leaves stay. Refuses with `NoRoom` and
    /// the level where the part does not lie in one free leaf, and with `OutOfMemory` where the
    /// allocator refuses the table of entries, which a root has from the first time on that it is
    /// split. A refusal changes nothing. After HotSpot, rootChunkArea.cpp.
    pub fn carve(
        &mut self,
        alloc: A,
        level: Level,
        at: u64,
        owner: u32,
        front: u64,
    ) -> Result<(), Refusal>
        requires in_root { at < ROOT_WORDS }
        requires aligned { at % size_of level ≡ 0 }
        requires front { IsFront (size_of level) front }
        ensures lent { OnOk result
            (self.new ≡ with_leaf (leaf_of (span_at at level) owner front) self.old) }
        ensures no_room { (result ≡ Err (Refusal.NoRoom level))
            ↔ IsFalse (fits_in (span_at at level) (free_of self.old)) }
        ensures refusal { IfErr result
            (λ refusal. IsCarveRefusal (span_at at level) (free_of self.old) refusal) }
        ensures unchanged { OnErr result (self.new ≡ self.old) }
        ensures leaves { OnOk result (AreLeaves self.new) }
    {
        // Learnt here: the level is at most 12, so its words are those of a part.
        let lent = level.number();
        let Some(free) = self.free.holder(lent, at) else {
            return Err(Refusal::NoRoom { level });
        };
        if self.entries.make(alloc, free < lent).is_err() {
            return Err(Refusal::OutOfMemory);
        }
        let lending = Lending {
            level,
            owner,
            front: front as u32,
        };
        self.entries.put((at / ENTRY) as usize, Entry::of(lending));
        part_counts(&mut self.counts, free, lent);
        self.free.part(free, at, lent);
        Ok(())
    }
}

impl<A: Allocator> RootChunkArea<A> for PartTable<A> {
    ghost lent = { λ lent. lent };

    fn new() -> PartTable<A> {
        PartTable::new()
    }

    fn is_whole(&self) -> bool {
        PartTable::is_whole(self)
    }

    fn leaf_at(&self, offset: u64) -> (Span, Leaf) {
        PartTable::leaf_at(self, offset)
    }

    fn free_leaves(&self) -> LeavesOf<'_, A> {
        LeavesOf::of_table(self)
    }

    fn set_front(&mut self, span: Span, front: u64) {
        PartTable::set_front(self, span, front);
    }

    fn release(&mut self, span: Span) -> Span {
        PartTable::release(self, span)
    }

    fn enlarge(&mut self, span: Span, front: u64) -> Result<Span, Refusal> {
        PartTable::enlarge(self, span, front)
    }

    fn carve(
        &mut self,
        alloc: A,
        level: Level,
        at: u64,
        owner: u32,
        front: u64,
    ) -> Result<(), Refusal> {
        PartTable::carve(self, alloc, level, at, owner, front)
    }
}
