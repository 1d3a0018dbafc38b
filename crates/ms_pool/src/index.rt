//! The index of the trees: of which levels each root has free leaves, and any root of a group of
//! sixteen, and of a space.
//!
//!     root   0             15            112           127      128           143
//!          +--------+ .. +--------+ .. +--------+ .. +--------+--------+ .. +--------+ ..
//!          | levels |    | levels |    | levels |    | levels | levels |    | levels |   (bits)
//!          +--------+ .. +--------+ .. +--------+ .. +--------+--------+ .. +--------+ ..
//!          |<----- group 0 ------>|    |<----- group 7 ------>|<----- group 8 ------>|
//!          |<----------------- space ------------------------>|<--- class_space --- ..
//!
//! Kept true: what a root has, its group has too, and its space. So a search asks one number which
//! level is the next to look at, if any, and looks for the root then. With each change the levels
//! of the root's group are put together anew, and from the groups those of the space. Takes no
//! memory.
ghost use Rattle.std.specs.Prelude.{◌≡◌, ℕ, ◌<◌, ◌≤◌, false, get_or, length, replicate, IfSome, IfNone};
ghost use Rattle.ms_buddy.specs.Leaves.{has_level};
ghost use Rattle.ms_pool.specs.Trees.{HaveLevels, IsRootOf, all_roots};

use ms_base::{CLASS_SLOTS, Level, SLOTS, Space};
use std::marker::Model;

/// How many roots there may be: two for each slot, of both spaces.
const ROOTS: usize = 2 * (SLOTS + CLASS_SLOTS) as usize;
/// The roots of a group.
const GROUP: usize = 16;
/// How many groups there are.
const GROUPS: usize = ROOTS / GROUP;
/// The first of them that is of the class space.
const FIRST_CLASS_GROUP: usize = 2 * SLOTS as usize / GROUP;

/// The levels of free leaves, as bits, that of level 0 the lowest. Contracts see those of each
/// root.
#[derive(Drop)]
pub(crate) struct Index {
    /// Of each root, by its number.
    roots: [u16; ROOTS],
    /// Of any root of a group, by its number.
    groups: [u16; GROUPS],
    /// Of any root below those of the class space.
    space: u16,
    /// Of any root of the class space.
    class_space: u16,
}

impl Model for Index {
    ghost use Rattle.std.specs.Prelude.{List, ℕ};
    ghost use Rattle.ms_pool.specs.Trees.{AreGathered};

    ghost Value = { List ℕ };

    ghost view = { λ index. index.roots };

    ghost invariant = { λ index. AreGathered index.roots index.groups index.space index.class_space };
}

impl Index {
    /// Each root has one free leaf, of level 0.
    pub(crate) fn whole() -> Index
        ensures { result ≡ replicate all_roots 1 }
    {
        let roots = [1; ROOTS];
        let groups = [1; GROUPS];
        Index {
            roots,
            groups,
            space: 1,
            class_space: 1,
        }
    }

    /// Returns the levels of any root of a space.
    pub(crate) fn levels(&self, space: Space) -> u16
        ensures { HaveLevels result self.now (IsRootOf space) }
    {
        match space {
            Space::NonClass => self.space,
            Space::Class => self.class_space,
        }
    }

    /// Returns the lowest root of a range that has a level.
    pub(crate) fn next_root(&self, level: Level, from: usize, end: usize) -> Option<usize>
        requires within { end ≤ all_roots }
        ensures from { IfSome result (λ root. from ≤ root) }
        ensures below { IfSome result (λ root. root < end) }
        ensures lowest { IfSome result
            (λ root. (k : ℕ) → from ≤ k → k < root → has_level (get_or self.now k 0) level ≡ false) }
        ensures none { IfNone result
            ((k : ℕ) → from ≤ k → k < end → has_level (get_or self.now k 0) level ≡ false) }
    {
        for root in from..end {
            if has_level(self.roots[root], level) {
                return Some(root);
            }
        }
        None
    }

    /// Sets the levels of a root anew.
    pub(crate) fn tell(&mut self, root: usize, levels: u16)
        requires within { root < all_roots }
        ensures here { get_or self.new root 0 ≡ levels }
        ensures others { (other : ℕ) → (other ≡ root → ⊥) → get_or self.new other 0 ≡ get_or self.old other 0 }
    {
        if self.roots[root] == levels {
            return;
        }
        self.roots[root] = levels;
        let group = root / GROUP;
        self.groups[group] = gathered(&self.roots, group * GROUP, group * GROUP + GROUP);
        if group < FIRST_CLASS_GROUP {
            self.space = gathered(&self.groups, 0, FIRST_CLASS_GROUP);
        } else {
            self.class_space = gathered(&self.groups, FIRST_CLASS_GROUP, GROUPS);
        }
    }
}

/// Returns whether the bit of a level is set.
fn has_level(levels: u16, level: Level) -> bool
    ensures { result ≡ has_level levels level }
{
    levels >> level.number() & 1 == 1
}

/// Finds the lowest level of a range whose bit is set.
pub(crate) fn lowest_level(levels: u16, from: u8, end: u8) -> Option<Level>
    requires near { from ≤ 13 }
    requires few { end ≤ 13 }
    ensures from { IfSome result (λ level. from ≤ level) }
    ensures below { IfSome result (λ level. level < end) }
    ensures lowest { IfSome result
        (λ level. (k : ℕ) → from ≤ k → k < level → has_level levels k ≡ false) }
    ensures none { IfNone result ((k : ℕ) → from ≤ k → k < end → has_level levels k ≡ false) }
{
    let later = levels >> from;
    if later == 0 {
        return None;
    }
    let number = from + later.trailing_zeros() as u8;
    if number >= end {
        return None;
    }
    Some(Level::new(number))
}

/// Finds the highest level below one whose bit is set.
pub(crate) fn highest_level(levels: u16, end: u8) -> Option<Level>
    requires few { end ≤ 13 }
    ensures below { IfSome result (λ level. level < end) }
    ensures highest { IfSome result
        (λ level. (k : ℕ) → level < k → k < end → has_level levels k ≡ false) }
    ensures none { IfNone result ((k : ℕ) → k < end → has_level levels k ≡ false) }
{
    let lower = levels % (1 << end);
    if lower == 0 {
        return None;
    }
    Some(Level::new(15 - lower.leading_zeros() as u8))
}

/// The levels of all entries from one up to another.
fn gathered(entries: &[u16], from: usize, end: usize) -> u16
    requires within { end ≤ length entries.now }
    requires few { end ≤ all_roots }
    ensures { HaveLevels result entries.now (λ entry. (from ≤ entry) × (entry < end)) }
{
    let mut levels = 0;
    for entry in from..end {
        levels |= entries[entry];
    }
    levels
}
