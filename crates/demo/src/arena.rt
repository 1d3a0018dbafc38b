//! One arena over a pool, with no loader and no names: where blocks lie, what is written and read,
//! and what the pool has lent for them.
ghost use Rattle.ms_pool.specs.Ledger.{Serves};
ghost use Rattle.ms_arena.specs.Arena.{account_of};

use ms_arena::Arena;
use ms_base::{Kind, Refusal, Settings, Space};
use ms_pool::{Pool, PoolTotals};
use std::alloc::Global;
use std::io;

/// Works an arena, and returns what came of it.
pub(crate) fn show(rt: &HostRuntime) -> io::Result<()> {
    let mut pool = Pool::new(rt.alloc(), Settings::DEFAULT)?;
    let worked = work(rt.alloc(), &mut pool);
    drop(pool);
    match worked {
        Ok((start, value, totals)) => {
            println!(rt; "the second block lies at {start}, its last word is {value}")?;
            println!(rt;
                "lent {}, committed granules {}",
                totals.capacity, totals.granules
            )
        }
        Err(refusal) => println!(rt; "refused: {refusal}"),
    }
}

/// Works an arena over a new account; the account stays open, as that of a loader that lives.
fn work(alloc: Global, pool: &mut Pool) -> Result<(u64, u64, PoolTotals), Refusal> {
    let account = pool.open(Space::NonClass)?;
    let mut arena = Arena::new(alloc, account, Kind::Standard);
    let told = fill(pool, &mut arena);
    drop(arena);
    told
}

/// Fills an arena; returns where its second block lies, the word that was written into it, and the
/// sums over the pool then.
fn fill(pool: &mut Pool, arena: &mut Arena) -> Result<(u64, u64, PoolTotals), Refusal>
    requires { Serves pool.old (account_of arena.old) }
{
    let first = arena.alloc(pool, 10)?;
    let second = arena.alloc(pool, 4000)?;
    arena.write(second, 3999, 7)?;
    arena.free(first)?;
    let value = arena.read(second, 3999)?;
    Ok((second.start, value, pool.totals(arena.account())))
}
