//! An arena over a pool: what no clause says is that memory which is there is given.
ghost use Rattle.ms_pool.specs.Ledger.{Serves};
ghost use Rattle.ms_arena.specs.Arena.{account_of};

use super::same;
use ms_arena::{Arena, ArenaTotals};
use ms_base::{Block, Kind, Refusal, Settings, Space};
use ms_pool::Pool;
use std::alloc::Global;

/// A block that is placed, where there is a place.
type Placed = Result<Option<Block>, Refusal>;

/// The blocks that an arena placed, the one that it allocated, and its sums after them.
type Told = ([Placed; 4], Result<Block, Refusal>, ArenaTotals);

/// Calls an arena of the pool.
fn called(pool: &mut Pool, arena: &mut Arena) -> Told
    requires { Serves pool.old (account_of arena.old) }
{
    let none = arena.place(10);
    let allocated = arena.alloc(pool, 10);
    let next = arena.place(10);
    let _ = arena.free(block(0, 10));
    let again = arena.place(4);
    let over = arena.place(600);
    ([none, next, again, over], allocated, arena.totals())
}

/// Calls a new arena of the pool.
fn called_anew(alloc: Global, pool: &mut Pool) -> Option<Told> {
    let Ok(account) = pool.open(Space::NonClass) else {
        return None;
    };
    let mut arena = Arena::new(alloc, account, Kind::Standard);
    let told = called(pool, &mut arena);
    drop(arena);
    Some(told)
}

fn block(start: u64, words: u64) -> Block {
    Block { start, words }
}

#[test]
fn calls_that_find_memory_are_served_at_once(rt: HostRuntime) {
    let mut pool = Pool::new(rt.alloc(), Settings::DEFAULT).expect(&rt, "memory is ample");
    let told = called_anew(rt.alloc(), &mut pool);
    drop(pool);
    let placed = [
        Ok(None),
        Ok(Some(block(10, 10))),
        Ok(Some(block(0, 4))),
        Ok(None),
    ];
    let totals = ArenaTotals {
        chunks: 1,
        capacity: 512,
        fronts: 512,
        used: 20,
        live: 14,
        free_blocks: 6,
        waste: 0,
    };
    let allocated = Ok(block(0, 10));
    same(&rt, &told, &Some((placed, allocated, totals)));
}

/// What an arena answers of a block of three words: the word behind it, the block freed, and freed
/// again.
type Freed = (Result<u64, Refusal>, [Result<(), Refusal>; 2]);

/// Frees a block of a new arena twice.
fn freed_twice(alloc: Global, pool: &mut Pool) -> Option<Freed> {
    let Ok(account) = pool.open(Space::NonClass) else {
        return None;
    };
    let mut arena = Arena::new(alloc, account, Kind::Standard);
    let placed = arena.alloc(pool, 3);
    let behind = arena.read(block(0, 3), 3);
    let freed = [arena.free(block(0, 3)), arena.free(block(0, 3))];
    drop(arena);
    placed.ok()?;
    Some((behind, freed))
}

#[test]
fn a_block_that_is_freed_is_not_live(rt: HostRuntime) {
    let mut pool = Pool::new(rt.alloc(), Settings::DEFAULT).expect(&rt, "memory is ample");
    let told = freed_twice(rt.alloc(), &mut pool);
    drop(pool);
    let behind = Err(Refusal::OutOfRange { words: 3 });
    let freed = [Ok(()), Err(Refusal::NotLive)];
    same(&rt, &told, &Some((behind, freed)));
}
