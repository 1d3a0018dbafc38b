//! The map of a root chunk: where it is lent and committed, cell by cell.
//!
//!     cell     0     1     2     3     4     5          63
//!           +-----+-----+-----+-----+-----+-----+- .. -+-----+
//!     lent  |#####|#####|#####|##   |     |     |      |     |
//!           +-----+-----+-----+-----+-----+-----+- .. -+-----+
//!     granule  x     x           x     x
//!     told     O     O     u     o     .     -           -
//!
//! A cell has 8192 words, as a granule has, or as four have under policy aggressive: it is
//! committed where one of its granules is. Nothing is kept for a map: it is read from the free
//! leaves of its root's tree, in one walk; what lies in none of them is lent. Only the list of all
//! maps takes memory. After HotSpot's VM.metaspace vsmap; cells and what is told of them are this
//! project's choice.
ghost use Rattle.std.specs.Prelude.{◌≡◌, ◌+◌, ◌*◌, ◌<◌, ◌≤◌, ◌^◌, ◌++◌, cond, [], get_or, map, OnOk};
ghost use Rattle.ms_base.specs.Part.{IsPart, is_reserved};
ghost use Rattle.ms_base.specs.Level.{root_words, size_of};
ghost use Rattle.ms_base.specs.Spaces.{by_space, first_class_slot};
ghost use Rattle.ms_commit.specs.Nodes.{all_slots};
ghost use Rattle.ms_pool.specs.Keeping.{IsKept, IsRunOf, ledger_of};
ghost use Rattle.ms_pool.specs.Ledger.{state_in};
ghost use Rattle.ms_pool.specs.Mapping.{AreFound, AreNoted, is_committed_in, map_in, map_of, cell_by, cell_in};
ghost use Rattle.ms_pool.specs.Mapping.{maps_of, maps_of_slot, cell_words, root_cells};

use crate::lender::Lender;
use crate::search::granules_meeting;
use ms_base::{ROOT_WORDS, Space, Span, granule};
use ms_buddy::PartTable;
use std::alloc::{AllocError, Global};

/// The words of a cell.
const CELL_WORDS: u64 = 8192;
/// The cells of a root.
const ROOT_CELLS: usize = 64;

/// What a cell of 8192 words of a root is. It is committed where one of its granules is, and lent
/// where a chunk that is lent has a word of it.
#[derive(Clone, Copy, Debug, PartialEq, Eq)]
pub enum Cell {
    /// Neither lent nor committed.
    Free,
    /// Committed, and no word is lent.
    FreeCommitted,
    /// Lent, and no granule is committed.
    LentUncommitted,
    /// Lent and committed, and some words are free.
    LentPartly,
    /// Lent with all words, and committed.
    LentWholly,
}

/// What each cell of a root is. The root's number, 0 to 159, is over both spaces, two roots a
/// slot.
#[derive(Clone, Copy, Debug, PartialEq, Eq)]
pub struct RootMap {
    /// The root's number; its slot is half of it.
    pub root: u32,
    /// The cells, in order of address.
    pub cells: [Cell; ROOT_CELLS],
}

/// What leaves each cell of a root meets.
#[derive(Clone, Copy)]
struct Found {
    /// Whether a lent one.
    lent: [bool; ROOT_CELLS],
    /// Whether a free one.
    free: [bool; ROOT_CELLS],
}

impl Cell {
    /// What a cell is, by what has a word of it.
    fn of(lent: bool, free: bool, committed: bool) -> Cell
        ensures { result ≡ cell_by lent free committed }
    {
        match (lent, committed) {
            (false, false) => Cell::Free,
            (false, true) => Cell::FreeCommitted,
            (true, false) => Cell::LentUncommitted,
            (true, true) if free => Cell::LentPartly,
            (true, true) => Cell::LentWholly,
        }
    }
}

impl Lender {
    /// Returns the map of a root of the space.
    pub(crate) fn root_map(&self, space: Space, root: u32) -> RootMap
        requires kept { IsKept self.now }
        requires low { by_space space 0 (2 * first_class_slot) ≤ root }
        requires high { root
            < by_space space (2 * first_class_slot) (2 * (first_class_slot + self.now.nodes.class_slots)) }
        ensures { map_in result ≡ map_of (state_in space (ledger_of self.now)) root }
    {
        let found = found_in(self.trees.tree(root as usize));
        let mut map = RootMap {
            root,
            cells: [Cell::Free; ROOT_CELLS],
        };
        for number in 0..ROOT_CELLS {
            map.cells[number] = self.cell_in(space, root, number, &found);
        }
        map
    }

    /// Adds the maps of the roots of the space's reserved slots.
    pub(crate) fn push_maps(&self, space: Space, maps: &mut Vec<RootMap>) -> Result<(), AllocError>
        requires { IsKept self.now }
        ensures { OnOk result (map map_in maps.new.items
            ≡ map map_in maps.old.items ++ maps_of (state_in space (ledger_of self.now))) }
    {
        let (first, end) = self.slots_of(space);
        for slot in first..end {
            self.push_slot(space, slot, maps)?;
        }
        Ok(())
    }

    /// Adds the maps of both roots of a slot of the space, where it is reserved.
    fn push_slot(&self, space: Space, slot: u32, maps: &mut Vec<RootMap>) -> Result<(), AllocError>
        requires kept { IsKept self.now }
        requires low { by_space space 0 first_class_slot ≤ slot }
        requires high { slot
            < by_space space first_class_slot (first_class_slot + self.now.nodes.class_slots) }
        ensures { OnOk result (map map_in maps.new.items
            ≡ map map_in maps.old.items
            ++ cond (is_reserved (all_slots self.now.nodes) slot)
            (maps_of_slot (state_in space (ledger_of self.now)) slot) []) }
    {
        if self.nodes.is_reserved(slot) {
            maps.push(self.root_map(space, 2 * slot))?;
            maps.push(self.root_map(space, 2 * slot + 1))?;
        }
        Ok(())
    }

    /// Returns what a cell of a root of the space is, by what was found in the root's tree.
    fn cell_in(&self, space: Space, root: u32, number: usize, found: &Found) -> Cell
        requires kept { IsKept self.now }
        requires low { by_space space 0 (2 * first_class_slot) ≤ root }
        requires high { root
            < by_space space (2 * first_class_slot) (2 * (first_class_slot + self.now.nodes.class_slots)) }
        requires within { number < root_cells }
        requires found { AreFound (get_or self.now.trees.items root []) found.now.lent found.now.free }
        ensures { result ≡ cell_in (state_in space (ledger_of self.now)) root number }
    {
        let start = number as u64 * CELL_WORDS + u64::from(root) * ROOT_WORDS;
        let committed = self.has_granule(space, start);
        Cell::of(found.lent[number], found.free[number], committed)
    }

    /// Returns whether a granule of a cell is committed.
    fn has_granule(&self, space: Space, start: u64) -> bool
        requires kept { IsKept self.now }
        requires inside { IsRunOf space start cell_words }
        requires fits { start + cell_words < 2 ^ 63 }
        ensures { result ≡ is_committed_in (state_in space (ledger_of self.now)) start }
    {
        let (first, count) = granules_meeting(granule(self.policy), start, CELL_WORDS);
        self.nodes.missing(first, count) < count
    }
}

/// Returns what leaves each cell of a root meets, in one walk over the free ones: at first all are
/// lent.
fn found_in(tree: &PartTable<Global>) -> Found
    ensures { AreFound tree.now result.lent result.free }
{
    let mut found = Found {
        lent: [true; ROOT_CELLS],
        free: [false; ROOT_CELLS],
    };
    for part in tree.free_leaves() {
        note(&mut found, part);
    }
    found
}

/// Notes a free leaf: the cells that it meets are free, and lent no more where they lie in it.
fn note(found: &mut Found, part: Span)
    requires placed { IsPart part.start part.level }
    requires within { part.start + size_of part.level ≤ root_words }
    ensures { AreNoted part found.old.lent found.old.free found.new.lent found.new.free }
{
    let words = part.level.words();
    let whole = CELL_WORDS <= words;
    let first = (part.start / CELL_WORDS) as usize;
    let end = ((part.start + words + (CELL_WORDS - 1)) / CELL_WORDS) as usize;
    for number in first..end {
        found.lent[number] = found.lent[number] & !whole;
        found.free[number] = true;
    }
}
