//! Where free blocks are: a few in one row, more in trees by size.
//!
//!     few      | (20, 4) | (40, 4) | (0, 10) |  room  |          at most 32, with those to come
//!     many     trees      a fork for each block
//!              spare      | fork | fork |  ..  |                 a fork for each that may come yet
//!
//! Most arenas have a few free blocks at a time: a row takes 16 bytes for each, where trees take 1
//! KB to begin with and 64 bytes for each, and is changed in less time. Adding a block to trees
//! moves a spare fork into one, and taking one moves it back: so neither takes memory. Only
//! `make_room` does, and it puts a row into trees once there may be more. 32 is this project's
//! choice.
ghost use Rattle.std.specs.Prelude.{◌≡◌, ◌+◌, ◌^◌, ◌<◌, ◌≤◌, ℕ, [], IfOk, OnOk, OnErr, IfNone, OnSome, length, vec_len, vec_capacity};
ghost use Rattle.ms_blocks.specs.Rank.{IsRanked, first_fit, with_ranked, without_fit};
ghost use Rattle.ms_blocks.specs.Store.{HasRoom, IsStore, blocks_in};

use crate::classes::{insert_in, make_trees, take_in};
use crate::few::{put, take_from};
use crate::tree::{Fork, Tree};
use ms_base::Block;
use std::alloc::{AllocError, Allocator};

/// How many blocks are few, those that may come yet included.
const FEW: usize = 32;

/// Free blocks by rank.
#[derive(Drop)]
pub enum Store<A: Allocator> {
    /// In a row, 32 at most with those that may come yet.
    Few(Vec<Block, A>),
    /// Any number, in the trees by class, each with a bit that is set where it has any.
    Many {
        trees: Vec<Tree<A>, A>,
        some: u64,
        /// A fork for each block that may come yet.
        spare: Vec<Box<Fork<A>, A>, A>,
    },
}

/// Adds a block to those of a store, in room that there is.
#[inline(always)]
pub fn insert<A: Allocator>(store: &mut Store<A>, block: Block)
    requires store { IsStore store.old }
    requires ranked { IsRanked (blocks_in store.old) }
    requires room { HasRoom store.old 1 }
    ensures store { IsStore store.new }
    ensures blocks { blocks_in store.new ≡ with_ranked (blocks_in store.old) block }
    ensures room { (room : ℕ) → HasRoom store.old (room + 1) → HasRoom store.new room }
{
    match store {
        Store::Few(row) => put(row, block),
        Store::Many { trees, some, spare } => {
            let Some(mut fork) = spare.pop() else {
                unreachable!()
            };
            fork.block = block;
            insert_in(trees.as_mut_slice(), some, fork);
        }
    }
}

/// Takes the first block of a store that has so many words. Out of line, since few allocations come
/// here.
#[inline(never)]
pub fn take<A: Allocator>(store: &mut Store<A>, words: u64) -> Option<Block>
    requires store { IsStore store.old }
    requires ranked { IsRanked (blocks_in store.old) }
    ensures store { IsStore store.new }
    ensures found { first_fit (blocks_in store.old) words ≡ result }
    ensures left { blocks_in store.new ≡ without_fit (blocks_in store.old) words }
    ensures room { OnSome result ((room : ℕ) → HasRoom store.old room → HasRoom store.new (room + 1)) }
    ensures same { IfNone result ((room : ℕ) → HasRoom store.old room → HasRoom store.new room) }
{
    match store {
        Store::Few(row) => take_from(row, words),
        Store::Many { trees, some, spare } => {
            let fork = take_in(trees.as_mut_slice(), some, words)?;
            let block = fork.block;
            // The fork left a slot free when it was added.
            match spare.push(fork) {
                Ok(()) => Some(block),
                Err(_) => unreachable!(),
            }
        }
    }
}

impl<A: Allocator> Store<A> {
    /// Makes a store of no block, with no room.
    pub fn new(alloc: A) -> Store<A>
        ensures store { IsStore result }
        ensures blocks { blocks_in result ≡ [] }
        ensures room { HasRoom result 0 }
    {
        Store::Few(Vec::new(alloc))
    }
}

/// Makes room for so many more blocks beside those of a store, of which the count is given; the
/// blocks stay. A refusal leaves the room that there was. Takes memory.
pub fn make_room<A: Allocator + Clone>(
    store: &mut Store<A>,
    count: usize,
    room: usize,
) -> Result<(), AllocError>
    requires store { IsStore store.old }
    requires ranked { IsRanked (blocks_in store.old) }
    requires count { count ≡ length (blocks_in store.old) }
    ensures store { IsStore store.new }
    ensures blocks { blocks_in store.new ≡ blocks_in store.old }
    ensures room { OnOk result (HasRoom store.new room) }
    ensures stays { OnErr result ((old : ℕ) → HasRoom store.old old → HasRoom store.new old) }
{
    match store {
        Store::Few(row) => {
            if count.saturating_add(room) <= FEW {
                return row.reserve(room);
            }
            let many = many_of(row.allocator(), row.as_slice(), room)?;
            *store = many;
            Ok(())
        }
        Store::Many {
            trees: _,
            some: _,
            spare,
        } => fill(spare, room, count),
    }
}

/// Puts the blocks of a ranked row into trees, with room for so many more.
fn many_of<A: Allocator + Clone>(
    alloc: &A,
    row: &[Block],
    room: usize,
) -> Result<Store<A>, AllocError>
    requires ranked { IsRanked row.now }
    ensures store { IfOk result IsStore }
    ensures blocks { IfOk result (λ store. blocks_in store ≡ row.now) }
    ensures room { IfOk result (λ store. HasRoom store room) }
{
    let mut spare = Vec::new(alloc.clone()?);
    fill(&mut spare, row.len().saturating_add(room), 0)?;
    let trees = make_trees(alloc)?;
    let mut store = Store::Many {
        trees,
        some: 0,
        spare,
    };
    for block in row {
        insert(&mut store, *block);
    }
    Ok(store)
}

/// Fills up to so many spare forks, with slots for those of the trees, of which the count is
/// given. A refusal leaves what was made.
fn fill<A: Allocator + Clone>(
    spare: &mut Vec<Box<Fork<A>, A>, A>,
    room: usize,
    count: usize,
) -> Result<(), AllocError>
    ensures filled { OnOk result (room ≤ vec_len spare.new) }
    ensures slots { OnOk result (vec_len spare.new + count ≤ vec_capacity spare.new) }
    ensures longer { vec_len spare.old ≤ vec_len spare.new }
    ensures stay { vec_len spare.old + count ≤ vec_capacity spare.old
        → vec_len spare.new + count ≤ vec_capacity spare.new }
{
    // All slots first, so that what can't be had is refused at once.
    let more = room.saturating_sub(spare.len());
    spare.reserve(more.saturating_add(count))?;
    for _ in 0..more {
        let alloc = spare.allocator().clone()?;
        spare.push_reserved(Box::new(alloc, Fork::spare())?);
    }
    Ok(())
}
