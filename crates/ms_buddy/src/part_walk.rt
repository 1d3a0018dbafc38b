//! The walk over the free leaves of a table of parts, from low to high addresses.
//!
//! The parts that are still to be visited lie side by side, from where the walk is to the root's
//! end: so a stack of their levels says which they are, the next one on top. A part that is split
//! puts the level of its halves there twice. A part of level n has at most n parts below it on the
//! stack, one for each upper half on the way, so room for 13 is enough. Each part is visited once.
//! Takes no memory.
ghost use Rattle.std.specs.Prelude.{◌≡◌};
ghost use Rattle.std.specs.Iterator.{YieldsFirst};
ghost use Rattle.ms_base.specs.Level.{root_words};
ghost use Rattle.ms_buddy.specs.Leaves.{free_of, from_on};
ghost use Rattle.ms_buddy.specs.Row.{IsRow};

use crate::part_table::PartTable;
use crate::parts::{part, words_of};
use arrayvec::ArrayVec;
use ms_base::Span;
use std::alloc::Allocator;
use std::marker::Model;

/// What a visit to a part finds: a free leaf, no free leaf, or a part that is split.
#[derive(Clone, Copy, Drop)]
pub(crate) enum Seen {
    Free,
    Lent,
    Split,
}

/// The free leaves of a table of parts that a walk has still to give, in order of address.
#[derive(Drop)]
pub(crate) struct PartWalk<'a, A: Allocator> {
    table: &'a PartTable<A>,
    /// The levels of the parts that are still to be visited, the next one last.
    levels: ArrayVec<u8, 13>,
    /// Where the next part starts.
    at: u64,
}

impl<'a, A: Allocator> Model for PartWalk<'a, A> {
    ghost use Rattle.std.specs.Prelude.{List};
    ghost use Rattle.ms_base.specs.Level.{root_words};
    ghost use Rattle.ms_base.specs.declared.span.Span.{Span};
    ghost use Rattle.ms_buddy.specs.Leaves.{free_of, from_on};
    ghost use Rattle.ms_buddy.specs.Row.{IsRow};

    ghost Value = { List Span };

    ghost view = { λ walk. from_on walk.at (free_of walk.table.now) };

    ghost invariant = { λ walk. IsRow 0 root_words walk.levels.items walk.at (free_of walk.table.now) };
}

impl<'a, A: Allocator> PartWalk<'a, A> {
    /// Starts the walk at the root.
    pub(crate) fn new(table: &'a PartTable<A>) -> PartWalk<'a, A>
        ensures { result ≡ free_of table.now }
    {
        let mut levels = ArrayVec::new();
        levels.push(0);
        PartWalk {
            table,
            levels,
            at: 0,
        }
    }

    /// Answers the next free leaf.
    pub(crate) fn next(&mut self) -> Option<Span>
        ensures { YieldsFirst (λ parts. parts) self.old result self.new }
    {
        next_part(self.table, &mut self.levels, &mut self.at)
    }
}

/// Goes on to the next free leaf, and answers it.
fn next_part<A: Allocator>(
    table: &PartTable<A>,
    levels: &mut ArrayVec<u8, 13>,
    at: &mut u64,
) -> Option<Span>
    requires { IsRow 0 root_words levels.old.items at.old (free_of table.now) }
    ensures row { IsRow 0 root_words levels.new.items at.new (free_of table.now) }
    ensures next { YieldsFirst (λ offset. from_on offset (free_of table.now)) at.old result at.new }
{
    while let Some(level) = levels.pop() {
        let start = *at;
        match table.look(level, start) {
            Seen::Free => {
                *at = start + words_of(level);
                return Some(part(start, level));
            }
            Seen::Lent => *at = start + words_of(level),
            Seen::Split => {
                levels.push(level + 1);
                levels.push(level + 1);
            }
        }
    }
    None
}
