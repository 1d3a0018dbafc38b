//! The walk over the free leaves of a tree in boxes, from low to high addresses.
//!
//! References to the nodes that are still to be visited lie on a stack of fixed size, the next one
//! on top. A split puts its halves there, the lower one last. A node of level n has at most n nodes
//! below it on the stack, one for each upper half on the way, so room for 13 is enough. Each node
//! is visited once. Takes no memory.
ghost use Rattle.std.specs.Prelude.{◌≡◌};
ghost use Rattle.std.specs.Iterator.{YieldsFirst};
ghost use Rattle.ms_buddy.specs.Boxes.{shape_of};
ghost use Rattle.ms_buddy.specs.Tree.{IsTree, free_in};
ghost use Rattle.ms_buddy.specs.Walk.{IsStack, left_of};

use crate::node::{Node, half_of};
use crate::parts::part;
use arrayvec::ArrayVec;
use ms_base::Span;
use std::alloc::Allocator;
use std::marker::Model;

/// A node that the walk has still to visit, with its level and where it starts.
#[derive(Drop)]
struct Visit<'a, A: Allocator> {
    node: &'a Node<A>,
    level: u8,
    start: u64,
}

/// The free leaves of a tree in boxes that a walk has still to give, in order of address.
#[derive(Drop)]
pub(crate) struct NodeWalk<'a, A: Allocator> {
    /// Each cell in use has a visit; `None` only fills the others.
    stack: ArrayVec<Option<Visit<'a, A>>, 13>,
}

impl<'a, A: Allocator> Model for NodeWalk<'a, A> {
    ghost use Rattle.std.specs.Prelude.{List};
    ghost use Rattle.ms_base.specs.declared.span.Span.{Span};
    ghost use Rattle.ms_buddy.specs.Walk.{IsStack, left_of};

    ghost Value = { List Span };

    ghost view = { λ walk. left_of walk.stack.items };

    ghost invariant = { λ walk. IsStack 0 walk.stack.items };
}

impl<'a, A: Allocator> NodeWalk<'a, A> {
    /// Starts the walk at the root.
    pub(crate) fn new(node: &'a Node<A>) -> NodeWalk<'a, A>
        requires { IsTree 0 (shape_of node.now) }
        ensures { result ≡ free_in 0 0 (shape_of node.now) }
    {
        let mut stack = ArrayVec::new();
        stack.push(Some(Visit {
            node,
            level: 0,
            start: 0,
        }));
        NodeWalk { stack }
    }

    /// Answers the next free leaf.
    pub(crate) fn next(&mut self) -> Option<Span>
        ensures { YieldsFirst (λ parts. parts) self.old result self.new }
    {
        next_free(&mut self.stack)
    }
}

/// Goes on to the next free leaf, and answers it.
fn next_free<'a, A: Allocator>(stack: &mut ArrayVec<Option<Visit<'a, A>>, 13>) -> Option<Span>
    requires { IsStack 0 stack.old.items }
    ensures stack { IsStack 0 stack.new.items }
    ensures next { YieldsFirst left_of stack.old.items result stack.new.items }
{
    while let Some(top) = stack.pop() {
        let Some(visit) = top else {
            return None;
        };
        match visit.node {
            Node::Free => return Some(part(visit.start, visit.level)),
            Node::Lent { .. } => {}
            Node::Split(lower, upper) => {
                let level = visit.level + 1;
                stack.push(Some(Visit {
                    node: upper,
                    level,
                    start: visit.start + half_of(visit.level),
                }));
                stack.push(Some(Visit {
                    node: lower,
                    level,
                    start: visit.start,
                }));
            }
        }
    }
    None
}
