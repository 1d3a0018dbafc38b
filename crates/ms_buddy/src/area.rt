//! What manages the splits of one root chunk, and what its callers may do with it.
//!
//!     word 0          512        1024                  2048
//!          +----------+----------+---------------------+----
//!          | lent, 10 | free, 10 |      free, 9        | ...      (a number is a level)
//!          +----------+----------+---------------------+----
//!            leader     follower
//!
//! Kept true: the leaves cover the root, none overlap, and no split has two free halves, so a free
//! leaf is as large as it can be. `release` of the lent leaf merges up to the root:
//!
//!          | lent, 10 | free, 10 |      free, 9        |        free, 8        | ...
//!          | free, 10 | free, 10 |      free, 9        |        free, 8        | ...
//!          |      free, 9        |      free, 9        |        free, 8        | ...
//!          |                  free, 8                  |        free, 8        | ...
//!          |                             free, 0                                   |
//!
//! Two bodies meet the contract: `SplitTree` has a box for each half, and takes what is split and
//! no more; `PartTable` has a bit for each part and an entry for each lent one, and serves a pool.
//! Only `carve` takes memory. After RootChunkArea in HotSpot's rootChunkArea.hpp, whose body is a
//! list of chunk headers.
ghost use Rattle.std.specs.Prelude.{◌≡◌, ◌+◌, ◌*◌, ◌%◌, ◌<◌, ◌≤◌, ◌≢◌, ◌↔◌, List, [], ◌∷◌, Some, Err};
ghost use Rattle.std.specs.Prelude.{IsTrue, IsFalse, IsOk, IfOk, OnOk, IfErr, OnErr};
ghost use Rattle.std.specs.List.{find};
ghost use Rattle.ms_base.specs.declared.sizes.TheConstants.{ROOT_WORDS};
ghost use Rattle.ms_base.specs.Level.{size_of};
ghost use Rattle.ms_buddy.specs.Leaves.{AreLeaves, IsCarveRefusal, IsFront, IsLeafAt, LentLeaf, can_enlarge, covers};
ghost use Rattle.ms_buddy.specs.Leaves.{fits_in, free_of, is_lent, leaf_of, parent_of, root, span_at};
ghost use Rattle.ms_buddy.specs.Leaves.{with_front, with_leaf, with_parent, without_leaf};

use crate::leaf::Leaf;
use crate::leaves::LeavesOf;
use ms_base::{Level, Refusal, Span};
use std::alloc::Allocator;

/// The leaves of one root chunk, whose words are numbered from 0 to 524287: the lent ones, each
/// with its owner and its front, and the free ones that these leave over. After JEP 387 and
/// HotSpot's rootChunkArea.hpp.
pub trait RootChunkArea<A: Allocator> {
    /// The lent leaves, in order of address.
    ghost lent: { Self → List LentLeaf };

    /// Makes the area of a root that is one free leaf. Takes no memory.
    fn new() -> Self
        ensures { lent result ≡ [] };

    /// Answers whether the root is one free leaf. A caller also learns here what is true of the
    /// lent leaves of every root. Takes no memory.
    fn is_whole(&self) -> bool
        ensures whole { IsTrue result ↔ (free_of (lent self.now) ≡ root ∷ []) }
        ensures none_lent { IsTrue result ↔ (lent self.now ≡ []) }
        ensures leaves { AreLeaves (lent self.now) };

    /// Answers the leaf that covers an offset in words, 0 to 524287, and where it is. This is the
    /// caller's test for a lent leaf. Takes no memory.
    fn leaf_at(&self, offset: u64) -> (Span, Leaf)
        requires { offset < ROOT_WORDS }
        ensures covers { IsTrue (covers offset result.0) }
        ensures leaf { IsLeafAt offset result.0 result.1 (lent self.now) (free_of (lent self.now)) }
        ensures lent { result.1 ≢ Leaf.Free → IsTrue (is_lent (lent self.now) result.0) };

    /// Goes through the free leaves in order of address, each as large as it can be. Takes no
    /// memory.
    fn free_leaves(&self) -> LeavesOf<'_, A>
        ensures { result ≡ free_of (lent self.now) };

    /// Changes the front of a lent leaf, in words from 1 to its size; the other leaves stay. Takes
    /// no memory.
    fn set_front(&mut self, span: Span, front: u64)
        requires lent { IsTrue (is_lent (lent self.old) span) }
        requires front { IsFront (size_of span.level) front }
        ensures front { lent self.new ≡ with_front span front (lent self.old) }
        ensures leaves { AreLeaves (lent self.new) };

    /// Takes a lent leaf out and answers the free leaf that results: it merges with its buddy for
    /// as long as that is one free leaf. The other lent leaves stay. Takes no memory. After
    /// HotSpot, rootChunkArea.cpp.
    fn release(&mut self, span: Span) -> Span
        requires { IsTrue (is_lent (lent self.old) span) }
        ensures lent { lent self.new ≡ without_leaf span (lent self.old) }
        ensures free { find (covers span.start) (free_of (lent self.new)) ≡ Some result }
        ensures leaves { AreLeaves (lent self.new) };

    /// Makes a lent leaf its parent, with a front in words from 1 to the parent's size, and answers
    /// the parent. The other lent leaves stay. Refuses with `NoRoom` and the leaf's level where the
    /// leaf is the root or a follower, or its buddy is not one free leaf; then nothing changes.
    /// Takes no memory. After HotSpot, rootChunkArea.cpp.
    fn enlarge(&mut self, span: Span, front: u64) -> Result<Span, Refusal>
        requires lent { IsTrue (is_lent (lent self.old) span) }
        requires front { IsFront (2 * size_of span.level) front }
        ensures parent { IfOk result (λ part. part ≡ parent_of span) }
        ensures lent { OnOk result (lent self.new ≡ with_parent span front (lent self.old)) }
        ensures room { IsOk result ↔ IsTrue (can_enlarge span (free_of (lent self.old))) }
        ensures no_room { IfErr result (λ refusal. refusal ≡ Refusal.NoRoom span.level) }
        ensures unchanged { OnErr result (self.new ≡ self.old) }
        ensures leaves { OnOk result (AreLeaves (lent self.new)) };

    /// Lends the part of that level at an offset in words, 0 to 524287, to an owner, with a front
    /// in words from 1 to the part's size. The other lent leaves stay. Refuses with `NoRoom` and
    /// the level where the part does not lie in one free leaf, and with `OutOfMemory` where the
    /// allocator refuses what the split needs; a part that is a free leaf itself needs nothing. All
    /// memory is taken before anything changes, so a refusal changes nothing. After HotSpot,
    /// rootChunkArea.cpp.
    fn carve(
        &mut self,
        alloc: A,
        level: Level,
        at: u64,
        owner: u32,
        front: u64,
    ) -> Result<(), Refusal>
        requires in_root { at < ROOT_WORDS }
        requires aligned { at % size_of level ≡ 0 }
        requires front { IsFront (size_of level) front }
        ensures lent { OnOk result
            (lent self.new ≡ with_leaf (leaf_of (span_at at level) owner front) (lent self.old)) }
        ensures no_room { (result ≡ Err (Refusal.NoRoom level))
            ↔ IsFalse (fits_in (span_at at level) (free_of (lent self.old))) }
        ensures refusal { IfErr result
            (λ refusal. IsCarveRefusal (span_at at level) (free_of (lent self.old)) refusal) }
        ensures unchanged { OnErr result (self.new ≡ self.old) }
        ensures leaves { OnOk result (AreLeaves (lent self.new)) };
}
