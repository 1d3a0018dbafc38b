//! The name of a block, by where it lies: what frees a block whose name nobody kept.
ghost use Rattle.std.specs.Prelude.{◌≡◌, ◌≢◌, ◌+◌, ◌≤◌, ◌^◌, ℕ, Some, IfSome, IfNone, IsFalse, IsTrue, false, length, nat_eq, true};
ghost use Rattle.std.specs.List.{list_any};
ghost use Rattle.std.specs.Map.{lookup};
ghost use Rattle.ms_base.specs.Names.{named};
ghost use Rattle.ms_loader.specs.Finding.{names_block};
ghost use Rattle.ms_loader.specs.Table.{block_of, in_row};

use super::Names;
use super::small_block::SmallBlock;
use super::table::{Table, block_at};
use ms_base::Block;
use std::collections::HashMap;

impl Names {
    /// Returns under which name a block stands, if it has one. Takes no memory, and visits each name
    /// until it is found, in no order.
    pub fn name_of(&self, block: Block) -> Option<u32>
        ensures named { IfSome result (λ name. named self.now.entries name ≡ Some block) }
        ensures none { IfNone result ((name : ℕ) → named self.now.entries name ≢ Some block) }
    {
        self.table.name_of(block)
    }
}

impl Table {
    /// Returns under which name a block stands, if it has one.
    fn name_of(&self, block: Block) -> Option<u32>
        ensures named { IfSome result (λ name. block_of self.now name ≡ Some block) }
        ensures none { IfNone result ((name : ℕ) → block_of self.now name ≢ Some block) }
    {
        let row = self.row.as_slice();
        match name_in_row(self.first, row, block) {
            Some(name) => Some(name),
            None => name_among(self.first, row, &self.others, block),
        }
    }
}

/// Finds the name in a row from a first name on that has the block.
fn name_in_row(first: usize, row: &[SmallBlock], block: Block) -> Option<u32>
    requires few { first + length row.now ≤ 2 ^ 32 }
    ensures some { IfSome result (λ name. nat_eq block.words 0 ≡ false) }
    ensures here { IfSome result (λ name. in_row first row.now name ≡ block) }
    ensures none { IfNone result ((name : ℕ) → in_row first row.now name ≡ block → nat_eq block.words 0 ≡ true) }
{
    if block.words == 0 {
        return None;
    }
    for at in 0..row.len() {
        let other = row[at].block();
        if other.start == block.start && other.words == block.words {
            return Some((first + at) as u32);
        }
    }
    None
}

/// Finds an entry with the block, whose name has none in the row.
fn name_among(
    first: usize,
    row: &[SmallBlock],
    others: &HashMap<u32, SmallBlock>,
    block: Block,
) -> Option<u32>
    ensures lacks { IfSome result (λ name. nat_eq (in_row first row.now name).words 0 ≡ true) }
    ensures named { IfSome result (λ name. lookup (nat_eq name) others.now.entries ≡ Some block) }
    ensures none { IfNone result
        ((name : ℕ) → nat_eq (in_row first row.now name).words 0 ≡ true
        → IsFalse (list_any (names_block name block) others.now.entries)) }
{
    for (name, small) in others.iter() {
        let other = small.block();
        if other.start == block.start && other.words == block.words && lacks(first, row, *name) {
            return Some(*name);
        }
    }
    None
}

/// Returns whether a name has no block in the row.
fn lacks(first: usize, row: &[SmallBlock], name: u32) -> bool
    ensures { result ≡ nat_eq (in_row first row.now name).words 0 }
{
    block_at(first, row, name).is_none()
}
