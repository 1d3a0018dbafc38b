//! The sums over a space: what `lent` has counted, and the free parts that the tree of each
//! reserved root has counted by level.
ghost use Rattle.std.specs.Prelude.{◌≡◌, ◌+◌, ◌<◌, ◌≤◌, ◌^◌, ◌==◌, cond, [], get_or, length};
ghost use Rattle.ms_base.specs.Part.{is_reserved};
ghost use Rattle.ms_base.specs.FreeParts.{free_in_slot};
ghost use Rattle.ms_base.specs.Spaces.{by_space, first_class_slot};
ghost use Rattle.ms_base.specs.Totals.{free_by_level, pool_sums};
ghost use Rattle.ms_commit.specs.Nodes.{all_slots, granules_in};
ghost use Rattle.ms_buddy.specs.Leaves.{free_of};
ghost use Rattle.ms_pool.specs.Ledger.{held_in, opened_in, state_in};
ghost use Rattle.ms_pool.specs.Keeping.{IsCounted, IsKept, ledger_of};
ghost use Rattle.ms_pool.specs.Calls.{sums_in};
ghost use Rattle.ms_pool.specs.Tallies.{AreTallies};
ghost use Rattle.ms_buddy.specs.Counts.{AreRaised, count_at_level};
ghost use Rattle.ms_pool.specs.Counting.{HasRoom};

use crate::lender::Lender;
use crate::totals::{LEVELS, PoolTotals};
use ms_base::{Level, NODE_WORDS, Space, granule};
use ms_buddy::PartTable;
use std::alloc::Global;

/// What was counted of parts that are free: how many of each level.
#[derive(Clone, Copy)]
pub(crate) struct FreeCounted {
    /// Parts by level.
    pub(crate) free: [u32; LEVELS],
}

impl Lender {
    /// Returns the sums over a space.
    pub(crate) fn totals(&self, space: Space) -> PoolTotals
        requires kept { IsKept self.now }
        requires counted { IsCounted self.now }
        ensures { sums_in result
            ≡ pool_sums (state_in space (ledger_of self.now)) (opened_in (ledger_of self.now) space) }
    {
        let (nodes, accounts) = match space {
            Space::NonClass => (self.nodes.reserved(), self.opened),
            Space::Class => (self.nodes.class_slots(), self.class_opened),
        };
        let granules = self.committed_in(space);
        let counted = self.lent.counted(space);
        let lent = counted.lent;
        let free_counted = self.free_in(space);
        let free = free_counted.free;
        PoolTotals {
            nodes,
            granules,
            lent,
            free,
            capacity: counted.capacity,
            fronts: counted.fronts,
            accounts,
        }
    }

    /// Reads the tallies, so that a caller learns that each is a number of 64 bits.
    pub(crate) fn read_tallies(&self)
        ensures { AreTallies (ledger_of self.now).tallies }
    {
        let _take_commit = self.counts.take_commit;
        let _take_reserve = self.counts.take_reserve;
        let _grow_commit = self.counts.grow_commit;
        let _grow_room = self.counts.grow_room;
        let _open_ids = self.counts.open_ids;
    }

    /// Returns how many granules of a space are committed, counted over its own slots.
    pub(crate) fn committed_in(&self, space: Space) -> u64
        requires { IsKept self.now }
        ensures { result ≡ length (granules_in space self.now.nodes) }
    {
        let (first, end) = self.slots_of(space);
        let each = NODE_WORDS / granule(self.policy);
        let count = u64::from(end - first) * each;
        count - self.nodes.missing(u64::from(first) * each, count)
    }

    /// Counts the free parts of a space by level.
    fn free_in(&self, space: Space) -> FreeCounted
        requires { IsKept self.now }
        ensures { result.free ≡ free_by_level (state_in space (ledger_of self.now)) }
    {
        let (first, end) = self.slots_of(space);
        let mut counted = FreeCounted { free: [0; LEVELS] };
        for slot in first..end {
            counted = self.free_in_slot(space, slot, counted);
        }
        counted
    }

    /// Counts the free parts of a slot of the space, where it is reserved, beside those before.
    fn free_in_slot(&self, space: Space, slot: u32, before: FreeCounted) -> FreeCounted
        requires kept { IsKept self.now }
        requires low { by_space space 0 first_class_slot ≤ slot }
        requires high { slot
            < by_space space first_class_slot (first_class_slot + self.now.nodes.class_slots) }
        requires room { HasRoom before.free
            (λ level. count_at_level level
            (cond (is_reserved (all_slots self.now.nodes) slot)
            (free_in_slot (held_in space (ledger_of self.now)) slot) [])) }
        ensures { AreRaised before.free
            (λ level. count_at_level level
            (cond (is_reserved (all_slots self.now.nodes) slot)
            (free_in_slot (held_in space (ledger_of self.now)) slot) []))
            result.free }
    {
        if !self.nodes.is_reserved(slot) {
            return before;
        }
        let root = 2 * slot as usize;
        let lower = self.free_in_root(root, before);
        self.free_in_root(root + 1, lower)
    }

    /// Counts the free leaves of a root, beside those before.
    fn free_in_root(&self, root: usize, before: FreeCounted) -> FreeCounted
        requires there { root < length self.now.trees.items }
        requires room { HasRoom before.free
            (λ level. count_at_level level (free_of (get_or self.now.trees.items root []))) }
        ensures { AreRaised before.free
            (λ level. count_at_level level (free_of (get_or self.now.trees.items root []))) result.free }
    {
        let tree = self.trees.tree(root);
        let mut counted = before;
        for level in 0..LEVELS as u8 {
            count_parts(&mut counted, tree, Level::new(level));
        }
        counted
    }
}

/// Counts the free leaves of a level that a tree has.
fn count_parts(counted: &mut FreeCounted, tree: &PartTable<Global>, level: Level)
    requires { get_or counted.old.free level 0 + count_at_level level (free_of tree.now) < 2 ^ 32 }
    ensures { AreRaised counted.old.free
        (λ other. cond (level == other) (count_at_level level (free_of tree.now)) 0) counted.new.free }
{
    counted.free[level.number() as usize] += u32::from(tree.free_count(level));
}
