//! A few blocks by rank, in one row.
//!
//!     | (20, 4) | (40, 4) | (0, 10) |  room  |       (start, words)
//!
//! A block goes where it ranks, and the best fit is the first that is large enough: both positions
//! are found by halving. Neither takes memory.
ghost use Rattle.std.specs.Prelude.{◌≡◌, ◌+◌, ◌<◌, ◌≤◌, IsSome, vec_len, vec_capacity};
ghost use Rattle.ms_blocks.specs.Rank.{IsRanked, first_fit, with_ranked, without_fit};

use crate::tree::ranks_first;
use ms_base::Block;
use std::alloc::Allocator;

/// Adds a block to those of a ranked row, in room that there is.
pub fn put<A: Allocator>(row: &mut Vec<Block, A>, block: Block)
    requires room { vec_len row.old < vec_capacity row.old }
    requires ranked { IsRanked row.old.items }
    ensures blocks { row.new.items ≡ with_ranked row.old.items block }
    ensures len { vec_len row.new ≡ vec_len row.old + 1 }
    ensures capacity { vec_capacity row.old ≤ vec_capacity row.new }
{
    let at = row
        .as_slice()
        .partition_point(|other| ranks_first(other, &block));
    match row.insert(at, block) {
        Ok(()) => {}
        Err(_) => unreachable!(),
    }
}

/// Takes the first block of a ranked row that has so many words.
pub fn take_from<A: Allocator>(row: &mut Vec<Block, A>, words: u64) -> Option<Block>
    requires { IsRanked row.old.items }
    ensures found { first_fit row.old.items words ≡ result }
    ensures left { row.new.items ≡ without_fit row.old.items words }
    ensures len { IsSome result → vec_len row.new + 1 ≡ vec_len row.old }
    ensures unchanged { result ≡ None → row.new ≡ row.old }
    ensures capacity { vec_capacity row.new ≡ vec_capacity row.old }
{
    let at = row.as_slice().partition_point(|block| block.words < words);
    if at == row.len() {
        return None;
    }
    Some(row.remove(at))
}
