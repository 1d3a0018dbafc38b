//! Blocks by rank, in 64 trees by size: one for each number of words below 32, and for larger ones
//! ranges that are wider the larger they are, the last with all above.
//!
//!     words     0     1     2     ..    31    32..39    ..    256..511    ..    32,768..65,535    ..
//!     tree    | - | | - | | /\ |  ..  | /\ |   | /\ |    ..     | /\ |     ..        | /\ |        ..
//!
//! The blocks of a tree rank before those of the next, so what callers see is one list, and each
//! tree is a low one. A best fit is in the tree of its size, or where none there is large enough in
//! the next one that has a block; a bit for each tree is set where it has one. After the lists by
//! size of HotSpot's binList.hpp; the sizes of the larger ones are this project's choice.
ghost use Rattle.std.specs.Prelude.{◌≡◌, ◌≢◌, ◌<◌, ℕ, [], cond, IfOk, IfSome, IfNone, OnSome};
ghost use Rattle.std.specs.Prelude.{IsTrue, IsFalse, Some, None, take};
ghost use Rattle.std.specs.Int.{bit_at};
ghost use Rattle.std.specs.Option.{option_map};
ghost use Rattle.ms_blocks.specs.Classes.{AreByClass, IsNextClass, NoneFitsAt, all_of, class_of};
ghost use Rattle.ms_blocks.specs.Rank.{IsRanked, first_fit, with_ranked, without_fit};

use crate::tree::{Fork, Tree, insert, take_fit};
use std::alloc::{AllocError, Allocator};

/// How many trees there are.
const CLASSES: usize = 64;

/// Below so many words each size has a tree of its own.
const SINGLE: u64 = 32;

/// Makes the trees, with no block. Takes memory.
pub fn make_trees<A: Allocator + Clone>(alloc: &A) -> Result<Vec<Tree<A>, A>, AllocError>
    ensures trees { IfOk result (λ trees. AreByClass 0 trees.items) }
    ensures empty { IfOk result (λ trees. all_of trees.items ≡ []) }
{
    let mut trees = Vec::with_capacity(alloc.clone()?, CLASSES)?;
    for _ in 0..CLASSES {
        trees.push_reserved(Tree::Empty);
    }
    Ok(trees)
}

/// Adds the spare fork's block to those of ranked trees.
pub fn insert_in<A: Allocator>(trees: &mut [Tree<A>], some: &mut u64, spare: Box<Fork<A>, A>)
    requires trees { AreByClass some.old trees.old }
    requires ranked { IsRanked (all_of trees.old) }
    ensures trees { AreByClass some.new trees.new }
    ensures blocks { all_of trees.new ≡ with_ranked (all_of trees.old) spare.value.block }
{
    let class = class_of(spare.block.words);
    *some |= 1 << class;
    insert(&mut trees[class], spare);
}

/// Takes the first block of ranked trees that has so many words, with its fork.
pub fn take_in<A: Allocator>(
    trees: &mut [Tree<A>],
    some: &mut u64,
    words: u64,
) -> Option<Box<Fork<A>, A>>
    requires trees { AreByClass some.old trees.old }
    requires ranked { IsRanked (all_of trees.old) }
    ensures trees { AreByClass some.new trees.new }
    ensures found { first_fit (all_of trees.old) words ≡ option_map (λ fork. fork.value.block) result }
    ensures left { all_of trees.new ≡ without_fit (all_of trees.old) words }
{
    let class = class_of(words);
    match take_at(trees, some, class, words) {
        Some(found) => Some(found),
        // None of this class has so many words, and each of a later one has.
        None => {
            let later = next_class(*some, class)?;
            take_at(trees, some, later, words)
        }
    }
}

/// Takes the first block of a class that has so many words, with its fork, where none before it
/// has.
fn take_at<A: Allocator>(
    trees: &mut [Tree<A>],
    some: &mut u64,
    class: usize,
    words: u64,
) -> Option<Box<Fork<A>, A>>
    requires trees { AreByClass some.old trees.old × IsRanked (all_of trees.old) }
    requires before { (class < 64) × (first_fit (all_of (take class trees.old)) words ≡ None) }
    ensures trees { AreByClass some.new trees.new }
    ensures found { IfSome result (λ fork. first_fit (all_of trees.old) words ≡ Some fork.value.block) }
    ensures left { OnSome result (all_of trees.new ≡ without_fit (all_of trees.old) words) }
    ensures none { IfNone result (NoneFitsAt trees.old class words) }
    ensures unchanged { IfNone result (trees.new ≡ trees.old) }
    ensures told { IfNone result (some.new ≡ some.old) }
{
    let Some(found) = take_fit(&mut trees[class], words, &mut false) else {
        return None;
    };
    *some = noted_anew(*some, class, trees[class].is_empty());
    Some(found)
}

/// Finds the next class that has a block.
fn next_class(some: u64, class: usize) -> Option<usize>
    requires within { class < 64 }
    ensures next { IfSome result (IsNextClass some class) }
    ensures none { IfNone result ((later : ℕ) → class < later → bit_at some later ≡ 0) }
{
    let later = some >> class >> 1;
    if later == 0 {
        return None;
    }
    Some(class + 1 + later.trailing_zeros() as usize)
}

/// Returns which trees have a block, once one that had some has none, or has some still.
fn noted_anew(some: u64, class: usize, is_empty: bool) -> u64
    requires within { class < 64 }
    requires one { bit_at some class ≡ 1 }
    ensures here { bit_at result class ≡ cond is_empty 0 1 }
    ensures others { (other : ℕ) → other ≢ class → bit_at result other ≡ bit_at some other }
{
    if is_empty { some & !(1 << class) } else { some }
}

/// Returns in which tree blocks of so many words are.
fn class_of(words: u64) -> usize
    ensures class { result ≡ class_of words }
    ensures within { result < 64 }
{
    let class = if words < SINGLE {
        words
    } else if words < 64 {
        28 + words / 8
    } else if words < 256 {
        34 + words / 32
    } else if words < 2048 {
        42 + words / 512
    } else if words < 32768 {
        46 + words / 8192
    } else {
        49 + (words / 32768).min(14)
    };
    class as usize
}
