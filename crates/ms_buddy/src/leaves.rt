//! The free leaves of a root chunk, from low to high addresses.
//!
//! Each body of a root chunk's area has a walk of its own. Code that is generic over the bodies gets
//! `LeavesOf`, of which a walk is made. Takes no memory.
ghost use Rattle.std.specs.Prelude.{◌≡◌};
ghost use Rattle.ms_buddy.specs.Boxes.{shape_of};
ghost use Rattle.ms_buddy.specs.Leaves.{free_of};
ghost use Rattle.ms_buddy.specs.Tree.{IsTree, free_in};

use crate::node::Node;
use crate::node_walk::NodeWalk;
use crate::part_table::PartTable;
use crate::part_walk::PartWalk;
use crate::tree::SplitTree;
use ms_base::Span;
use std::alloc::Allocator;
use std::marker::Model;

/// How the free leaves are found that are left.
#[derive(Drop)]
enum Walk<'a, A: Allocator> {
    /// By the nodes of a tree in boxes.
    Nodes(NodeWalk<'a, A>),
    /// By the parts of a table.
    Parts(PartWalk<'a, A>),
}

/// The free leaves of a root chunk that a walk has still to give, in order of address. Takes no
/// memory. This project's choice.
#[derive(Drop)]
pub struct FreeLeaves<'a, A: Allocator> {
    walk: Walk<'a, A>,
}

impl<'a, A: Allocator> Model for FreeLeaves<'a, A> {
    ghost use Rattle.std.specs.Prelude.{List};
    ghost use Rattle.ms_base.specs.declared.span.Span.{Span};
    ghost use Rattle.ms_buddy.specs.Walks.{left_in};

    ghost Value = { List Span };

    ghost view = { λ leaves. left_in leaves.walk };
}

impl<'a, A: Allocator> FreeLeaves<'a, A> {
    /// Starts the walk over a tree in boxes.
    pub(crate) fn of_nodes(node: &'a Node<A>) -> FreeLeaves<'a, A>
        requires { IsTree 0 (shape_of node.now) }
        ensures { result ≡ free_in 0 0 (shape_of node.now) }
    {
        FreeLeaves {
            walk: Walk::Nodes(NodeWalk::new(node)),
        }
    }

    /// Starts the walk over a table of parts.
    pub(crate) fn of_parts(table: &'a PartTable<A>) -> FreeLeaves<'a, A>
        ensures { result ≡ free_of table.now }
    {
        FreeLeaves {
            walk: Walk::Parts(PartWalk::new(table)),
        }
    }
}

impl<'a, A: Allocator> Iterator for FreeLeaves<'a, A> {
    ghost use Rattle.std.specs.Iterator.{YieldsFirst, item_count};

    type Item = Span;

    ghost next_gives = { YieldsFirst (λ parts. parts) };

    ghost remaining = { item_count (λ parts. parts) };

    fn next(&mut self) -> Option<Span> {
        match &mut self.walk {
            Walk::Nodes(nodes) => nodes.next(),
            Walk::Parts(parts) => parts.next(),
        }
    }
}

/// Whose leaves they are.
#[derive(Drop)]
enum Area<'a, A: Allocator> {
    Tree(&'a SplitTree<A>),
    Table(&'a PartTable<A>),
}

/// The free leaves of a root chunk, of whichever body, in order of address: `into_iter` starts the
/// walk. Takes no memory. This project's choice.
#[derive(Drop)]
pub struct LeavesOf<'a, A: Allocator> {
    area: Area<'a, A>,
}

impl<'a, A: Allocator> Model for LeavesOf<'a, A> {
    ghost use Rattle.std.specs.Prelude.{List};
    ghost use Rattle.ms_base.specs.declared.span.Span.{Span};
    ghost use Rattle.ms_buddy.specs.Walks.{free_of_area};

    ghost Value = { List Span };

    ghost view = { λ leaves. free_of_area leaves.area };
}

impl<'a, A: Allocator> LeavesOf<'a, A> {
    /// Those of a tree in boxes.
    pub(crate) fn of_tree(tree: &'a SplitTree<A>) -> LeavesOf<'a, A>
        ensures { result ≡ free_of tree.now }
    {
        LeavesOf {
            area: Area::Tree(tree),
        }
    }

    /// Those of a table of parts.
    pub(crate) fn of_table(table: &'a PartTable<A>) -> LeavesOf<'a, A>
        ensures { result ≡ free_of table.now }
    {
        LeavesOf {
            area: Area::Table(table),
        }
    }
}

impl<'a, A: Allocator> IntoIterator for LeavesOf<'a, A> {
    type Item = Span;

    type IntoIter = FreeLeaves<'a, A>;

    ghost into_iter_gives = { λ leaves walk. walk ≡ leaves };

    fn into_iter(self) -> FreeLeaves<'a, A> {
        match self.area {
            Area::Tree(tree) => tree.free_leaves(),
            Area::Table(table) => table.free_leaves(),
        }
    }
}
