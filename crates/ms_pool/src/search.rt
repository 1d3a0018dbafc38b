//! The searches for a free part, in their order, each with its reason.
//!
//!     1 near       committed enough, from the wanted level up to two numbers more
//!     2 larger     committed enough, from the wanted level down to 0
//!     3 smaller    committed enough, from the wanted level up to the most that serves
//!     4 fresh      any, from the wanted level up to the most that serves
//!     5 split      any, from the wanted level down to 0
//!
//! The first that finds a part decides; within a level the lowest address comes first. Where none
//! does, the lower root of a new node is taken. Only levels are asked of which the index of `trees`
//! tells a free part, and for committed words only those whose parts may have them (`levels_for`).
//! The index tells the roots too, `lowest_free` alone decides whether the mask of granules has to
//! be asked, and `lowest_in_root` alone looks for leaves, by the bits of one root. So what a search
//! costs doesn't grow with the chunks that are lent or free, but under policy none with the larger
//! free parts of a level. Nothing here takes memory. After HotSpot's chunkManager.cpp; the order is
//! this project's choice.
ghost use Rattle.std.specs.Prelude.{◌≡◌, ℕ, ◌+◌, ◌-◌, ◌*◌, ◌/◌, ◌<◌, ◌≤◌, ◌^◌, ◌||◌, false, not, [], length, get_or, min};
ghost use Rattle.ms_base.specs.Level.{root_words, size_of, highest_level};
ghost use Rattle.ms_buddy.specs.Leaves.{has_level};
ghost use Rattle.ms_base.specs.Policy.{granule_of};
ghost use Rattle.ms_base.specs.Part.{is_reserved};
ghost use Rattle.ms_base.specs.Spaces.{by_space, first_class_slot};
ghost use Rattle.ms_commit.specs.Nodes.{all_slots};
ghost use Rattle.ms_commit.specs.NumberSet.{count_missing};
ghost use Rattle.ms_pool.specs.Ledger.{state_in};
ghost use Rattle.ms_pool.specs.Lending.{MayTake};
ghost use Rattle.ms_pool.specs.Keeping.{IsKept, ledger_of};
ghost use Rattle.ms_pool.specs.Searching.{least_granule, GrantNone, are_among, first_at, first_down, first_found};
ghost use Rattle.ms_pool.specs.Searching.{first_in, first_in_slot, first_up, part_at};

use crate::index::{highest_level, lowest_level};
use crate::lender::Lender;
use ms_base::{Level, Policy, ROOT_WORDS, SLOTS, Space, Span, granule};
use ms_commit::Nodes;

/// What is looked for: where, how many words, and whether they have to be committed.
#[derive(Clone, Copy)]
pub(crate) struct Wish {
    /// Where the part has to lie.
    pub(crate) space: Space,
    /// The words of the chunk's front, 1 to those of the part.
    pub(crate) words: u64,
    /// Whether the front has to be committed already.
    pub(crate) committed: bool,
    pub ghost some: { 1 ≤ words },
}

impl Lender {
    /// Finds the part that the searches find first. A wish is put together once and lent to them
    /// all: its copies would cost more than a search that finds no level.
    pub(crate) fn found(&self, space: Space, wanted: Level, most: Level, words: u64) -> Option<Span>
        requires kept { IsKept self.now }
        requires asks { MayTake wanted most words }
        ensures first { result ≡ first_found (state_in space (ledger_of self.now)) wanted most words }
        ensures level { most ≤ highest_level }
    {
        let committed = Wish {
            space,
            words,
            committed: true,
        };
        let enough = self.levels_for(&committed);
        if let Some(part) = self.near(enough, &committed, wanted, most) {
            return Some(part);
        }
        if let Some(part) = self.larger(enough, &committed, wanted) {
            return Some(part);
        }
        if let Some(part) = self.smaller(enough, &committed, wanted, most) {
            return Some(part);
        }
        let any = Wish {
            space,
            words,
            committed: false,
        };
        let all = self.levels_for(&any);
        if let Some(part) = self.smaller(all, &any, wanted, most) {
            return Some(part);
        }
        self.larger(all, &any, wanted)
    }

    /// The levels of the free parts that may grant the wish, as bits. A free part of a granule or
    /// more is committed under policy none alone.
    fn levels_for(&self, wish: &Wish) -> u16
        requires kept { IsKept self.now }
        ensures { GrantNone result (state_in wish.now.space (ledger_of self.now))
            wish.now.words wish.now.committed }
    {
        let levels = self.trees.free_levels(wish.space);
        if wish.committed && self.policy != Policy::None {
            return levels & small_levels(self.policy);
        }
        levels
    }

    /// Looks near the wanted level: small splinters that are committed already serve first.
    fn near(&self, levels: u16, wish: &Wish, wanted: Level, most: Level) -> Option<Span>
        requires kept { IsKept self.now }
        requires told { GrantNone levels (state_in wish.now.space (ledger_of self.now))
            wish.now.words wish.now.committed }
        requires levels { wanted ≤ most }
        requires fits { wish.now.words ≤ size_of most }
        ensures first { result
            ≡ first_up (state_in wish.now.space (ledger_of self.now)) wish.now.words
            wish.now.committed wanted (min (wanted + 2) most) }
        ensures level { most ≤ highest_level }
    {
        let two_more = wanted.number() + 2;
        if two_more < most.number() {
            self.smaller(levels, wish, wanted, Level::new(two_more))
        } else {
            self.smaller(levels, wish, wanted, most)
        }
    }

    /// Looks from the wanted level up to the most that serves: a smaller chunk now is better than
    /// more granules, or than a large part that is split.
    fn smaller(&self, levels: u16, wish: &Wish, wanted: Level, most: Level) -> Option<Span>
        requires kept { IsKept self.now }
        requires told { GrantNone levels (state_in wish.now.space (ledger_of self.now))
            wish.now.words wish.now.committed }
        requires fits { wish.now.words ≤ size_of most }
        ensures { result
            ≡ first_up (state_in wish.now.space (ledger_of self.now)) wish.now.words
            wish.now.committed wanted most }
    {
        let end = most.number() + 1;
        let mut from = wanted.number();
        while let Some(level) = lowest_level(levels, from, end) {
            if let Some(start) = self.lowest_free(wish, level) {
                return Some(Span { start, level });
            }
            from = level.number() + 1;
        }
        None
    }

    /// Looks from the wanted level down to 0: a larger part is split, the smallest that does first.
    fn larger(&self, levels: u16, wish: &Wish, wanted: Level) -> Option<Span>
        requires kept { IsKept self.now }
        requires told { GrantNone levels (state_in wish.now.space (ledger_of self.now))
            wish.now.words wish.now.committed }
        requires fits { wish.now.words ≤ size_of wanted }
        ensures { result
            ≡ first_down (state_in wish.now.space (ledger_of self.now)) wish.now.words
            wish.now.committed wanted }
    {
        let mut end = wanted.number() + 1;
        while let Some(level) = highest_level(levels, end) {
            if let Some(start) = self.lowest_free(wish, level) {
                return Some(Span { start, level });
            }
            end = level.number();
        }
        None
    }

    /// Finds where the lowest free part of a level that grants the wish starts. A free part smaller
    /// than a granule is committed: its buddy is not free, and a front there meets the granule of
    /// both. Of any other the mask has to be asked. A start is answered in registers, a part isn't.
    #[inline(never)]
    fn lowest_free(&self, wish: &Wish, level: Level) -> Option<u64>
        requires kept { IsKept self.now }
        requires fits { wish.now.words ≤ size_of level }
        ensures { part_at level result
            ≡ first_at (state_in wish.now.space (ledger_of self.now)) wish.now.words
            wish.now.committed level }
    {
        let asked = Wish {
            space: wish.space,
            words: wish.words,
            committed: wish.committed && level.words() >= granule(self.policy),
        };
        self.lowest_among(&asked, level)
    }

    /// Finds where the lowest free part of a level that grants the wish starts, in the roots that
    /// have one of the level. A root that isn't reserved is whole, so at level 0 a slot may be
    /// passed over.
    fn lowest_among(&self, wish: &Wish, level: Level) -> Option<u64>
        requires kept { IsKept self.now }
        requires fits { wish.now.words ≤ size_of level }
        ensures { part_at level result
            ≡ first_at (state_in wish.now.space (ledger_of self.now)) wish.now.words
            wish.now.committed level }
    {
        let (first, end) = self.slots_of(wish.space);
        let mut slot = first;
        while let Some(root) = self
            .trees
            .next_root(level, 2 * slot as usize, 2 * end as usize)
        {
            let here = (root / 2) as u32;
            if let Some(start) = self.lowest_in_slot(here, wish, level) {
                return Some(start);
            }
            slot = here + 1;
        }
        None
    }

    /// Finds where the lowest free part of a slot of the space starts, where it is reserved.
    fn lowest_in_slot(&self, slot: u32, wish: &Wish, level: Level) -> Option<u64>
        requires kept { IsKept self.now }
        requires low { by_space wish.now.space 0 first_class_slot ≤ slot }
        requires high { slot
            < by_space wish.now.space first_class_slot
            (first_class_slot + self.now.nodes.class_slots) }
        requires fits { wish.now.words ≤ size_of level }
        ensures { part_at level result
            ≡ first_in_slot (state_in wish.now.space (ledger_of self.now))
            (is_reserved (all_slots self.now.nodes) slot) wish.now.words wish.now.committed level
            slot }
    {
        if self.nodes.is_reserved(slot) {
            let root = 2 * slot as usize;
            if let Some(start) = self.lowest_in_root(root, wish, level) {
                return Some(start);
            }
            return self.lowest_in_root(root + 1, wish, level);
        }
        None
    }

    /// The slots that a space may have: the first, and the one past the last.
    pub(crate) fn slots_of(&self, space: Space) -> (u32, u32)
        requires { IsKept self.now }
        ensures first { result.0 ≡ by_space space 0 first_class_slot }
        ensures end { result.1
            ≡ by_space space first_class_slot (first_class_slot + self.now.nodes.class_slots) }
        ensures few { result.1 ≤ 80 }
    {
        match space {
            Space::NonClass => (0, SLOTS),
            Space::Class => (SLOTS, SLOTS + self.nodes.class_slots()),
        }
    }

    /// Finds where the lowest free part of a root starts. A call of its own would cost as much as a
    /// short walk.
    #[inline(always)]
    fn lowest_in_root(&self, root: usize, wish: &Wish, level: Level) -> Option<u64>
        requires kept { IsKept self.now }
        requires there { root < length self.now.trees.items }
        requires fits { wish.now.words ≤ root_words }
        ensures { part_at level result
            ≡ first_in self.now.nodes.granules (granule_of self.now.policy) wish.now.words
            wish.now.committed level root (get_or self.now.trees.items root []) }
    {
        let base = root as u64 * ROOT_WORDS;
        let mut from = 0;
        while let Some(leaf) = self.trees.tree(root).next_free(level, from) {
            let start = leaf.start + base;
            if self.is_enough(start, wish) {
                return Some(start);
            }
            from = leaf.start + 1;
        }
        None
    }

    /// Returns whether the words from the start on are committed, where they have to be.
    fn is_enough(&self, start: u64, wish: &Wish) -> bool
        requires { start + wish.now.words < 2 ^ 63 }
        ensures { result
            ≡ (not wish.now.committed
            || are_among self.now.nodes.granules (granule_of self.now.policy) start
            wish.now.words) }
    {
        !wish.committed || self.is_committed_enough(start, wish.words)
    }

    /// Returns whether each granule that meets so many words from the start on is committed.
    fn is_committed_enough(&self, start: u64, words: u64) -> bool
        requires some { 1 ≤ words }
        requires fits { start + words < 2 ^ 63 }
        ensures { result ≡ are_among self.now.nodes.granules (granule_of self.now.policy) start words }
    {
        let (first, count) = granules_meeting(granule(self.policy), start, words);
        missing_among(&self.nodes, first, count) == 0
    }
}

/// The levels of the parts smaller than a granule, as bits.
fn small_levels(policy: Policy) -> u16
    ensures { (level : ℕ) → level < 16 → has_level result level ≡ false
        → granule_of policy ≤ size_of level }
{
    match policy {
        Policy::Balanced | Policy::None => 0b1111_1111_1000_0000,
        Policy::Aggressive => 0b1111_1110_0000_0000,
    }
}

/// The granules that meet so many words from the start on: the first, and how many.
pub(crate) fn granules_meeting(granule: u64, start: u64, words: u64) -> (u64, u64)
    requires granule { least_granule ≤ granule }
    requires some { 1 ≤ words }
    requires fits { start + words < 2 ^ 63 }
    ensures first { result.0 ≡ start / granule }
    ensures count { result.1 ≡ (start + words - 1) / granule + 1 - start / granule }
    ensures fits { result.0 + result.1 < 2 ^ 64 }
{
    let first = start / granule;
    (first, (start + words - 1) / granule + 1 - first)
}

/// How many granules of a range aren't committed. Most fronts meet one alone, and its bit is looked
/// at by itself.
pub(crate) fn missing_among(nodes: &Nodes, first: u64, count: u64) -> u64
    requires { first + count < 2 ^ 64 }
    ensures { result ≡ count_missing nodes.now.granules first count }
{
    if count == 1 {
        return u64::from(!nodes.is_committed(first));
    }
    nodes.missing(first, count)
}
