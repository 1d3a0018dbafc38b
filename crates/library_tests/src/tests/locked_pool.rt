//! What no clause says: that calls over the lock find memory, threads and the pool, that threads
//! which run beside each other are lent different parts, and what totals and refusals count beside
//! the caller's own. Everything else is in the clauses.
ghost use Rattle.std.specs.Prelude.{◌≡◌, ◌<◌, ◌≤◌, IfOk};
ghost use Rattle.std.specs.List.{All};
ghost use Rattle.ms_base.specs.declared.sizes.TheConstants.{MOST_GRANULES};
ghost use Rattle.ms_shared.specs.SeatView.{ServesBy, opened_by};

use super::{limited, same};
use ms_base::{Level, Policy, Refusal, Settings, Space, Span};
use ms_pool::{Account, AccountSource, ChunkSource, Pool, PoolTotals};
use ms_shared::{LockedPool, PoolSeat, SharedPool};
use std::alloc::{AllocError, Global};
use std::marker::Model;
use std::process::Abort;
use std::sync::Wait;
use std::thread;
use std::thread::Threads;

/// A seat of a lock, and an open account that it serves and counts.
#[derive(Drop)]
struct Holder {
    seat: PoolSeat,
    account: Account,
}

impl Model for Holder {
    ghost use Rattle.std.specs.Prelude.{◌<◌};
    ghost use Rattle.ms_shared.specs.SeatView.{SeatState, ServesBy, opened_by};

    ghost Value = { SeatState };

    ghost view = { λ holder. holder.seat };

    ghost invariant = { λ holder. ServesBy holder.seat.knows holder.account
        × (0 < opened_by holder.seat.knows holder.account.space) };
}

/// Has a seat at its lock, and opens an account there.
fn open_there<'a, R: Wait + Abort>(
    rt: &'a R,
    lock: &'a SharedPool,
    seat: PoolSeat,
) -> (LockedPool<'a, R>, Account)
    requires { seat.id ≡ lock.now.id }
    ensures own { result.0.id ≡ seat.id }
    ensures served { ServesBy result.0.knows result.1 }
    ensures counted { 0 < opened_by result.0.knows result.1.space }
{
    let mut pool = lock.at(rt, seat);
    let Ok(account) = pool.open(Space::NonClass) else {
        panic!(rt; "there are owner numbers")
    };
    (pool, account)
}

/// Opens an account.
fn open<R: Wait + Abort>(rt: &R, lock: &SharedPool, seat: PoolSeat) -> Holder
    requires { seat.id ≡ lock.now.id }
    ensures { result.id ≡ seat.id }
{
    let (pool, account) = open_there(rt, lock, seat);
    let seat = pool.into_seat();
    Holder { seat, account }
}

/// Lends the account a chunk of the smallest size, where that is not refused.
fn take_one<R: Wait>(rt: &R, lock: &SharedPool, holder: Holder) -> Holder
    requires { holder.id ≡ lock.now.id }
    ensures { result.id ≡ holder.id }
{
    let Holder { seat, mut account } = holder;
    let level = Level::new(12);
    let mut pool = lock.at(rt, seat);
    let _ = pool.take(&mut account, level, level, 128);
    let seat = pool.into_seat();
    Holder { seat, account }
}

/// Opens an account, and lends it 64 chunks, where none is refused.
fn lend<R: Wait + Abort>(rt: &R, lock: &SharedPool, seat: PoolSeat) -> Holder
    requires { seat.id ≡ lock.now.id }
    ensures { result.id ≡ seat.id }
{
    let mut holder = open(rt, lock, seat);
    for _ in 0..64 {
        holder = take_one(rt, lock, holder);
    }
    holder
}

/// Has each seat lend in a thread of its own.
fn lend_all<R: Threads + Wait + Abort + Sync>(
    rt: &R,
    lock: &SharedPool,
    seats: Vec<PoolSeat>,
) -> Result<Vec<Holder>, AllocError>
    requires { All (λ seat. seat.id ≡ lock.now.id) seats.items }
    ensures { IfOk result (λ held. All (λ holder. holder.id ≡ lock.now.id) held.items) }
{
    thread::map_vec(
        rt,
        seats,
        &|seat: PoolSeat| -> Holder
            requires { seat.id ≡ lock.now.id }
            ensures { result.id ≡ seat.id }
        { lend(rt, lock, seat) },
    )
}

/// How often each part of the smallest level in the first 65536 words is lent, and how many other
/// chunks are.
fn times_lent(held: &[Holder]) -> ([u8; 512], u32) {
    let mut times: [u8; 512] = [0; 512];
    let mut others: u32 = 0;
    for holder in held {
        for index in 0..holder.account.held() {
            let chunk = holder.account.chunk(index);
            let part = (chunk.start / 128) as usize;
            if chunk.level.number() == 12 && part < 512 {
                times[part] = times[part].saturating_add(1);
            } else {
                others = others.saturating_add(1);
            }
        }
    }
    (times, others)
}

/// The sums that an account gets.
fn sums_of<R: Wait>(rt: &R, lock: &SharedPool, holder: Holder) -> (Holder, PoolTotals)
    requires { holder.id ≡ lock.now.id }
    ensures { result.0.id ≡ holder.id }
{
    let Holder { seat, account } = holder;
    let mut pool = lock.at(rt, seat);
    let totals = pool.totals(&account);
    let seat = pool.into_seat();
    (Holder { seat, account }, totals)
}

/// Closes an account.
fn close<R: Wait>(rt: &R, lock: &SharedPool, holder: Holder) -> PoolSeat
    requires { holder.id ≡ lock.now.id }
    ensures { result.id ≡ holder.id }
{
    let Holder { seat, account } = holder;
    let mut pool = lock.at(rt, seat);
    pool.close(account);
    pool.into_seat()
}

/// Closes accounts, each in a thread of its own.
fn close_all<R: Threads + Wait + Sync>(
    rt: &R,
    lock: &SharedPool,
    held: Vec<Holder>,
) -> Result<Vec<PoolSeat>, AllocError>
    requires { All (λ holder. holder.id ≡ lock.now.id) held.items }
    ensures { IfOk result (λ seats. All (λ seat. seat.id ≡ lock.now.id) seats.items) }
{
    thread::map_vec(
        rt,
        held,
        &|holder: Holder| -> PoolSeat
            requires { holder.id ≡ lock.now.id }
            ensures { result.id ≡ holder.id }
        { close(rt, lock, holder) },
    )
}

/// How many nodes a seat purges.
fn purged_by<R: Wait>(rt: &R, lock: &SharedPool, seat: PoolSeat) -> (PoolSeat, u32)
    requires { seat.id ≡ lock.now.id }
    ensures { result.0.id ≡ seat.id }
{
    let mut pool = lock.at(rt, seat);
    let gone = pool.purge();
    (pool.into_seat(), gone)
}

/// What comes of a pool that eight threads share: how often each part is lent and how many others
/// are, the sums then, how many nodes are purged once all is closed, and the sums at last.
type Shared = (([u8; 512], u32), PoolTotals, u32, Option<PoolTotals>);

/// Has eight threads share the pool of a lock, by its eight seats: none where there is none.
fn shared<R: Threads + Wait + Abort + Sync>(
    rt: &R,
    lock: SharedPool,
    seats: Vec<PoolSeat>,
) -> Result<Option<Shared>, AllocError>
    requires { All (λ seat. seat.id ≡ lock.id) seats.items }
{
    let mut held = lend_all(rt, &lock, seats)?;
    let times = times_lent(held.as_slice());
    let Some(holder) = held.pop() else {
        return Ok(None);
    };
    let (holder, totals) = sums_of(rt, &lock, holder);
    let seat = close(rt, &lock, holder);
    let seats = close_all(rt, &lock, held)?;
    let (seat, gone) = purged_by(rt, &lock, seat);
    let last = given_out(lock, seats, seat)?;
    Ok(Some((times, totals, gone, last)))
}

/// The sums of the pool that a lock gives out, once its last seat is given back with the others.
fn given_out(
    lock: SharedPool,
    seats: Vec<PoolSeat>,
    seat: PoolSeat,
) -> Result<Option<PoolTotals>, AllocError>
    requires own { seat.id ≡ lock.id }
    requires others { All (λ seat. seat.id ≡ lock.id) seats.items }
{
    let mut seats = seats;
    seats.push(seat)?;
    match lock.into_pool(seats) {
        Ok(pool) => Ok(Some(pool.all_totals(Space::NonClass))),
        Err(_refused) => Ok(None),
    }
}

/// The sums while 512 chunks of the smallest size are lent to eight accounts.
const SHARED: PoolTotals = PoolTotals {
    nodes: 1,
    granules: 8,
    lent: [0, 0, 0, 0, 0, 0, 0, 0, 0, 0, 0, 0, 512],
    free: [1, 1, 1, 1, 0, 0, 0, 0, 0, 0, 0, 0, 0],
    capacity: 65536,
    fronts: 65536,
    accounts: 8,
};

/// The sums of a pool with nothing.
const NOTHING: PoolTotals = PoolTotals {
    nodes: 0,
    granules: 0,
    lent: [0; 13],
    free: [0; 13],
    capacity: 0,
    fronts: 0,
    accounts: 0,
};

/// Makes a lock over a new pool, and its eight seats.
fn eight_seats(alloc: Global) -> Result<(SharedPool, Vec<PoolSeat>), AllocError>
    ensures { IfOk result (λ made. All (λ seat. seat.id ≡ made.0.id) made.1.items) }
{
    let pool = Pool::new(alloc, Settings::DEFAULT)?;
    match SharedPool::new(alloc, pool, 8) {
        Ok(made) => Ok(made),
        Err((_refusal, pool)) => {
            drop(pool);
            Err(AllocError)
        }
    }
}

#[test]
fn eight_threads_are_lent_each_part_once(rt: HostRuntime) {
    let (lock, seats) = eight_seats(rt.alloc()).expect(&rt, "memory is ample");
    let told = shared(&rt, lock, seats).expect(&rt, "memory is ample");
    let wanted = (([1; 512], 0), SHARED, 1, Some(NOTHING));
    same(&rt, &told, &Some(wanted));
}

/// Makes a lock over a new pool with a limit of committed granules, and its two seats.
fn locked(alloc: Global, max_granules: u64) -> Result<(SharedPool, Vec<PoolSeat>), AllocError>
    requires some { 1 ≤ max_granules }
    requires few { max_granules ≤ MOST_GRANULES }
    ensures { IfOk result (λ made. All (λ seat. seat.id ≡ made.0.id) made.1.items) }
{
    let pool = Pool::new(alloc, limited(64, max_granules, Policy::Balanced, 0))?;
    match SharedPool::new(alloc, pool, 2) {
        Ok(made) => Ok(made),
        Err((_refusal, pool)) => {
            drop(pool);
            Err(AllocError)
        }
    }
}

/// Makes a lock of two seats over a pool with a limit of committed granules.
fn two_seats(rt: &impl Abort, alloc: Global, max_granules: u64) -> (SharedPool, PoolSeat, PoolSeat)
    requires some { 1 ≤ max_granules }
    requires few { max_granules ≤ MOST_GRANULES }
    ensures { (result.1.id ≡ result.0.id) × (result.2.id ≡ result.0.id) }
{
    let (lock, mut seats) = locked(alloc, max_granules).expect(rt, "there is memory");
    let spare = seats.pop().expect(rt, "two seats were made");
    let first = seats.pop().expect(rt, "two seats were made");
    drop(seats);
    (lock, first, spare)
}

/// Has an account of each of two seats take a chunk, the first all words of a granule and the second
/// two words: what the second is answered, and the totals of the first then.
fn taken_by_two<R: Wait + Abort>(
    rt: &R,
    lock: &SharedPool,
    one: PoolSeat,
    other: PoolSeat,
) -> (Result<Span, Refusal>, PoolTotals)
    requires own { one.id ≡ lock.now.id }
    requires other_own { other.id ≡ lock.now.id }
{
    let (mut pool, mut account) = open_there(rt, lock, one);
    let (mut others_pool, mut another) = open_there(rt, lock, other);
    let (granule, wanted, most) = (Level::new(6), Level::new(10), Level::new(12));
    let _ = pool.take(&mut account, granule, granule, 8192);
    let answer = others_pool.take(&mut another, wanted, most, 2);
    let totals = pool.totals(&account);
    pool.into_seat();
    others_pool.into_seat();
    (answer, totals)
}

/// Has two seats of a new lock take a chunk each: what the second is answered, the chunks that are
/// lent by level, and the accounts.
fn of_two(
    rt: &(impl Abort + AllocGlobal + Wait),
    max_granules: u64,
) -> (Result<Span, Refusal>, [u32; 13], u32)
    requires some { 1 ≤ max_granules }
    requires few { max_granules ≤ MOST_GRANULES }
{
    let (lock, one, other) = two_seats(rt, rt.alloc(), max_granules);
    let (answer, totals) = taken_by_two(rt, &lock, one, other);
    drop(lock);
    let lent = totals.lent;
    (answer, lent, totals.accounts)
}

/// The second chunk lies in a granule of its own, which a limit of one refuses.
#[test]
fn what_another_seat_took_is_counted(rt: HostRuntime) {
    let (start, level) = (8192, Level::new(10));
    let served = Ok(Span { start, level });
    let both = [0, 0, 0, 0, 0, 0, 1, 0, 0, 0, 1, 0, 0];
    same(&rt, &of_two(&rt, 8192), &(served, both, 2));
    let refused = Err(Refusal::CommitLimit {
        committed: 1,
        limit: 1,
        need: 1,
    });
    let first = [0, 0, 0, 0, 0, 0, 1, 0, 0, 0, 0, 0, 0];
    same(&rt, &of_two(&rt, 1), &(refused, first, 2));
}
