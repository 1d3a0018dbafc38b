//! Blocks by name: those of names in a row in a list, those of others in a hash map.
//!
//!     name         first    first + 1  first + 2                 3        3000000000
//!     row     |   -    | [0, 10) | [14, 18) |   -    |     [10, 14)       [18, 30)      others
//!
//! Who names blocks mostly counts them, so that a name is a slot of the row, found by one
//! indexing. The row is no longer than four names for each that it has ask for. Where a name comes
//! next that would have it longer, as where most blocks are freed, the row slides on by half, and
//! the few blocks of the names that it leaves behind are others from then on; so is that of any
//! name further off. Kept true: each name of the row is a number of 32 bits. Only `make_slot`
//! takes memory. This project's choice.
ghost use Rattle.std.specs.Prelude.{◌≡◌, ◌≢◌, ℕ, ◌+◌, ◌<◌, ◌≤◌, ◌^◌, ◌⊎◌, None, OnOk, Some, cond, length, nat_eq, take, true};
ghost use Rattle.std.specs.Prelude.{IsFalse, IsTrue};
ghost use Rattle.std.specs.Map.{lookup};
ghost use Rattle.ms_loader.specs.Table.{HasSlot, NamesAnew, StayNamed, block_in, block_of, in_row, no_block};

use super::small_block::SmallBlock;
use ms_base::Block;
use std::alloc::{AllocError, Global};
use std::collections::HashMap;
use std::marker::Model;

/// The row's slots at least, where many names are to come.
const MANY: usize = 64;

/// The row's slots at least, where few are.
const FEW: usize = 8;

/// So many names there are: 0 to 2^32 - 1.
const NAMES: usize = 1 << 32;

/// Blocks by name, 0 to 2^32 - 1.
#[derive(Drop)]
pub struct Table {
    /// The name of the row's first slot.
    pub(super) first: usize,
    /// From that name on: the block of each, or none.
    pub(super) row: Vec<SmallBlock>,
    /// The blocks of other names.
    pub(super) others: HashMap<u32, SmallBlock>,
    /// How many names the row has, as they came and went.
    count: usize,
    /// How many were asked for since the row last slid on.
    asked: usize,
}

impl Model for Table {
    ghost use Rattle.ms_loader.specs.Table.{TableView, IsTable};

    ghost Value = { TableView };

    ghost view = { λ t. record {
      first = t.first;
      row = t.row.items;
      others = t.others.entries;
    } };

    ghost invariant = { λ t. IsTable t.first t.row.items };
}

impl Table {
    /// Makes a table of no names, which takes its memory from the allocator. Takes none yet.
    pub fn new(alloc: Global) -> Table
        ensures { (name : ℕ) → block_of result name ≡ None }
    {
        Table {
            first: 0,
            row: Vec::new(alloc),
            others: HashMap::new(alloc),
            count: 0,
            asked: 0,
        }
    }

    /// Takes all names out, and keeps the memory that they had, and the row its length.
    pub fn clear(&mut self)
        ensures { (name : ℕ) → block_of self.new name ≡ None }
    {
        self.first = 0;
        forget_all(self.row.as_mut_slice());
        if !self.others.is_empty() {
            self.others.clear();
        }
        self.count = 0;
        self.asked = 0;
    }

    /// Returns for how many names there is memory.
    pub fn capacity(&self) -> usize {
        self.row.capacity().saturating_add(self.others.capacity())
    }

    /// Returns which block has a name, if one has.
    #[inline(always)]
    pub fn get(&self, name: u32) -> Option<Block>
        ensures { result ≡ block_of self.now name }
    {
        let small = block_at(self.first, &self.row, name);
        if !small.is_none() {
            return Some(small.block());
        }
        look_up(&self.others, name)
    }

    /// Makes a slot in the row for a name, where it may have one, and returns whether it has; all
    /// names stay. Where it hasn't, there may be room ahead beside the row. Notes too whether
    /// memory was refused.
    #[inline(always)]
    pub fn make_slot(&mut self, name: u32, many: bool, refused: &mut bool) -> bool
        ensures slot { IsTrue result → HasSlot self.new.first self.new.row name }
        ensures none { IsFalse result → in_row self.new.first self.new.row name ≡ no_block }
        ensures stay { StayNamed self.old self.new }
    {
        self.asked = self.asked.wrapping_add(1);
        if has_slot(self.first, &self.row, name) {
            return true;
        }
        *refused = self.grow(name as usize, many).is_err();
        if has_slot(self.first, &self.row, name) {
            return true;
        }
        if make_more_room(&mut self.others, many).is_err() {
            *refused = true;
        }
        false
    }

    /// Makes the row longer, or has it slide on, for a name that has no slot in it, where the name
    /// is near. It slides only once so many names were asked for as a quarter of its slots, so
    /// that it costs no more than they did; those that are refused count, or many of them would
    /// have the row stay behind for good. All names stay.
    #[inline(always)]
    fn grow(&mut self, name: usize, many: bool) -> Result<(), AllocError>
        requires { name < 2 ^ 32 }
        ensures { StayNamed self.old self.new }
    {
        let slots = self.row.len();
        if name < self.first || name - self.first < slots {
            return Ok(());
        }
        let wanted = name - self.first + 1;
        let most = self.count.saturating_mul(4).max(MANY);
        if wanted <= most {
            let least = if many { MANY } else { FEW };
            let longer = slots.saturating_mul(2).max(least).min(most);
            return self.lengthen(longer.max(wanted).min(NAMES - self.first));
        }
        let half = slots / 2;
        if wanted <= slots + half
            && half <= self.asked.saturating_mul(2)
            && self.first + half + slots <= NAMES
        {
            return self.slide(half);
        }
        Ok(())
    }

    /// Makes the row so long. Out of line, as `slide` is: most names that have no slot in the row
    /// get none.
    #[inline(never)]
    fn lengthen(&mut self, slots: usize) -> Result<(), AllocError>
        requires longer { length self.old.row ≤ slots }
        requires few { self.old.first + slots ≤ 2 ^ 32 }
        ensures long { OnOk result (length self.new.row ≡ slots) }
        ensures first { self.new.first ≡ self.old.first }
        ensures stay { StayNamed self.old self.new }
    {
        self.row.resize(slots, SmallBlock::none())
    }

    /// Has the row begin so many names further on, and as long as it was; the blocks of the names
    /// before are others then.
    #[inline(never)]
    fn slide(&mut self, names: usize) -> Result<(), AllocError>
        requires within { names ≤ length self.old.row }
        requires few { self.old.first + names + length self.old.row ≤ 2 ^ 32 }
        ensures long { OnOk result (length self.new.row ≡ length self.old.row) }
        ensures first { OnOk result (self.new.first ≡ self.old.first + names) }
        ensures stay { StayNamed self.old self.new }
    {
        let slots = self.row.len();
        self.leave(names)?;
        self.lengthen(slots)
    }

    /// Cuts the first names off the row, whose blocks are others then.
    fn leave(&mut self, names: usize) -> Result<(), AllocError>
        requires { names ≤ length self.old.row }
        ensures long { OnOk result (length self.new.row + names ≡ length self.old.row) }
        ensures first { OnOk result (self.new.first ≡ self.old.first + names) }
        ensures stay { StayNamed self.old self.new }
    {
        let moved = hand_over(self.first, self.row.as_slice(), names, &mut self.others)?;
        let left = self.row.len() - names;
        self.row.copy_within(names.., 0);
        self.row.truncate(left);
        self.first += names;
        self.count = self.count.saturating_sub(moved);
        self.asked = 0;
        Ok(())
    }

    /// Gives a name its block at its slot in the row.
    #[inline(always)]
    pub fn put(&mut self, name: u32, block: Block)
        requires slot { HasSlot self.old.first self.old.row name }
        requires some { 1 ≤ block.words }
        requires small { block.start + block.words < 2 ^ 32 }
        ensures { NamesAnew self.old name (Some block) self.new }
    {
        let _ = set_block(self.first, &mut self.row, name, SmallBlock::new(block));
        self.count = self.count.wrapping_add(1);
    }

    /// Takes a name out, and returns which block had it, if one had.
    pub fn remove(&mut self, name: u32) -> Option<Block>
        ensures block { result ≡ block_of self.old name }
        ensures names { NamesAnew self.old name None self.new }
    {
        let small = block_at(self.first, &self.row, name);
        if small.is_none() {
            return match self.others.remove(&name) {
                Some(other) => Some(other.block()),
                None => None,
            };
        }
        let _ = set_block(self.first, &mut self.row, name, SmallBlock::none());
        self.count = self.count.saturating_sub(1);
        if !self.others.is_empty() {
            let _ = self.others.remove(&name);
        }
        Some(small.block())
    }
}

/// Has a row from the name 0 on name no block.
fn forget_all(row: &mut [SmallBlock])
    ensures none { (name : ℕ) → in_row 0 row.new name ≡ no_block }
    ensures stays { length row.new ≡ length row.old }
{
    row.fill(SmallBlock::none());
}

/// Makes room ahead for names beside the row, where all is used up: for the first ones at once
/// where many are to come, and for more than one where there are many.
#[inline(always)]
fn make_more_room(others: &mut HashMap<u32, SmallBlock>, many: bool) -> Result<(), AllocError>
    ensures { (name : ℕ) → lookup (nat_eq name) others.new.entries ≡ lookup (nat_eq name) others.old.entries }
{
    let names = others.len();
    if names < others.capacity() {
        return Ok(());
    }
    if names == 0 && many {
        return others.reserve(MANY);
    }
    if names >= MANY {
        return others.reserve(names.saturating_mul(3));
    }
    Ok(())
}

/// Returns whether a name has a slot in a row from a first name on.
#[inline(always)]
fn has_slot(first: usize, row: &[SmallBlock], name: u32) -> bool
    ensures slot { IsTrue result → HasSlot first row.now name }
    ensures none { IsFalse result → in_row first row.now name ≡ no_block }
{
    let at = name as usize;
    first <= at && at - first < row.len()
}

/// Finds the block of a name in a row from a first name on.
#[inline(always)]
pub(super) fn block_at(first: usize, row: &[SmallBlock], name: u32) -> SmallBlock
    ensures { result ≡ in_row first row.now name }
{
    let at = name as usize;
    if first <= at && at - first < row.len() {
        return row[at - first];
    }
    SmallBlock::none()
}

/// Sets the block of a name in a row from a first name on, and returns whether it has a slot
/// there.
#[inline(always)]
fn set_block(first: usize, row: &mut [SmallBlock], name: u32, small: SmallBlock) -> bool
    ensures set { IsTrue result
        → (other : ℕ) → in_row first row.new other ≡ cond (nat_eq name other) small (in_row first row.old other) }
    ensures past { IsFalse result → HasSlot first row.old name → ⊥ }
    ensures none { IsFalse result → in_row first row.old name ≡ no_block }
    ensures unchanged { IsFalse result → row.new ≡ row.old }
    ensures stays { length row.new ≡ length row.old }
{
    let at = name as usize;
    if first <= at && at - first < row.len() {
        row[at - first] = small;
        return true;
    }
    false
}

/// Gives the first names of a row that have a block there that block among the others too, and
/// returns how many.
fn hand_over(
    first: usize,
    row: &[SmallBlock],
    names: usize,
    others: &mut HashMap<u32, SmallBlock>,
) -> Result<usize, AllocError>
    requires within { names ≤ length row.now }
    requires few { first + length row.now ≤ 2 ^ 32 }
    ensures all { OnOk result ((name : ℕ)
        → lookup (nat_eq name) others.new.entries ≡ block_in first (take names row.now) others.old.entries name) }
    ensures stay { (name : ℕ) → nat_eq (in_row first row.now name).words 0 ≡ true
        → lookup (nat_eq name) others.new.entries ≡ lookup (nat_eq name) others.old.entries }
{
    let mut moved: usize = 0;
    for at in 0..names {
        let small = row[at];
        if !small.is_none() {
            let Ok(_) = others.insert((first + at) as u32, small) else {
                return Err(AllocError);
            };
            moved = moved.wrapping_add(1);
        }
    }
    Ok(moved)
}

/// Finds the block of a name among the others.
#[inline(always)]
fn look_up(others: &HashMap<u32, SmallBlock>, name: u32) -> Option<Block>
    ensures { result ≡ lookup (nat_eq name) others.now.entries }
{
    if others.is_empty() {
        return None;
    }
    match others.get(&name) {
        Some(small) => Some(small.block()),
        None => None,
    }
}
