//! The split tree of one root chunk as it is drawn: a node for each part that is split, with its
//! two halves in boxes of any allocator.
//!
//!                      split, 0
//!                     /        \
//!              split, 1        free, 1          (a number is a level)
//!             /        \
//!        lent, 2      free, 2
//!
//! Kept true: no split has two free halves, so a free leaf is as large as it can be. Nothing else
//! is kept, so a tree takes what is split and no more: a whole root has no box. Each call but
//! `free_leaves` visits the 13 nodes at most on one path, and `free_leaves` visits each node once.
//! Only `carve` takes memory, two boxes for each level that it splits; `release` and `enlarge` give
//! the boxes of the halves that merge back.
ghost use Rattle.std.specs.Prelude.{◌≡◌};
ghost use Rattle.ms_buddy.specs.Leaves.{free_of};

use crate::area::RootChunkArea;
use crate::leaf::Leaf;
use crate::leaves::{FreeLeaves, LeavesOf};
use crate::node::Node;
use crate::parts::part;
use ms_base::{Level, Refusal, Span};
use std::alloc::Allocator;
use std::marker::Model;

/// The split tree of one root chunk, whose words are numbered from 0 to 524287. Contracts see the
/// list of its lent leaves, in order of address. After JEP 387.
#[derive(Drop)]
pub struct SplitTree<A: Allocator> {
    node: Node<A>,
}

impl<A: Allocator> Model for SplitTree<A> {
    ghost use Rattle.std.specs.Prelude.{List};
    ghost use Rattle.ms_buddy.specs.Leaves.{LentLeaf};
    ghost use Rattle.ms_buddy.specs.Boxes.{shape_of};
    ghost use Rattle.ms_buddy.specs.Tree.{IsTree, lent_in};

    ghost Value = { List LentLeaf };

    ghost view = { λ t. lent_in 0 0 (shape_of t.node) };

    ghost invariant = { λ t. IsTree 0 (shape_of t.node) };
}

impl<A: Allocator> SplitTree<A> {
    /// Goes through the free leaves in order of address, each as large as it can be. Takes no
    /// memory.
    pub fn free_leaves(&self) -> FreeLeaves<'_, A>
        ensures { result ≡ free_of self.now }
    {
        FreeLeaves::of_nodes(&self.node)
    }
}

impl<A: Allocator + Clone> RootChunkArea<A> for SplitTree<A> {
    ghost lent = { λ lent. lent };

    fn new() -> SplitTree<A> {
        SplitTree { node: Node::Free }
    }

    fn is_whole(&self) -> bool {
        self.node.is_free()
    }

    fn leaf_at(&self, offset: u64) -> (Span, Leaf) {
        self.node.leaf_at(0, 0, offset)
    }

    fn free_leaves(&self) -> LeavesOf<'_, A> {
        LeavesOf::of_tree(self)
    }

    fn set_front(&mut self, span: Span, front: u64) {
        self.node.set_front(0, 0, span, front);
    }

    fn release(&mut self, span: Span) -> Span {
        self.node.release(0, 0, span)
    }

    fn enlarge(&mut self, span: Span, front: u64) -> Result<Span, Refusal> {
        let start = span.start;
        let level = span.level.number();
        match self.node.enlarge(0, 0, span, front) {
            Ok(()) => Ok(part(start, level - 1)),
            Err(refusal) => Err(refusal),
        }
    }

    fn carve(
        &mut self,
        alloc: A,
        level: Level,
        at: u64,
        owner: u32,
        front: u64,
    ) -> Result<(), Refusal> {
        let _ = level.number();
        self.node
            .carve(alloc, 0, 0, Span { start: at, level }, owner, front)
    }
}
