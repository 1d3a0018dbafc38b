//! The rows of a lock: a pool is put behind it; a seat's account grows, and is handed to another,
//! which closes it; accounts are opened and closed, nodes are purged, and the pool comes back.
ghost use Rattle.std.specs.Prelude.{◌≡◌, ◌<◌, IfOk, IfSome};
ghost use Rattle.ms_shared.specs.SeatView.{ServesBy, opened_by};

use crate::pools::{SETTINGS, account_lines, tell_pool};
use crate::row::{Answer, Row, line, mark, say, served, tell, unprepared};
use crate::shared::SEATS;
use crate::shared::seats::{closed, grown, lent, opened, opened_both, purged};
use ms_base::{Refusal, Space};
use ms_pool::{Account, Pool};
use ms_shared::{PoolSeat, SharedPool};
use std::alloc::Global;
use std::io;
use std::sync::Wait;

/// Prints the row.
pub(crate) fn tell_all<R: Wait>(rt: &HostRuntime, waits: &R) -> io::Result<()> {
    let mut both = Vec::with_capacity(rt.alloc(), 2)?;
    let (lock, one, mut other, mut account) = prepared(rt.alloc(), waits)?;
    mark(rt, "lock");
    let mut one = grown(rt, waits, &lock, one, &mut account);
    lock.hand(&mut one, &mut other, &account);
    account_lines(rt, "lock account", &account);
    let other = closed(rt, waits, &lock, other, account);
    let other = opened(rt, waits, &lock, other);
    let other = opened_both(rt, waits, &lock, other);
    let one = purged(rt, waits, &lock, one);
    match tell_refused(rt, lock) {
        Some(lock) => {
            both.push_reserved(one);
            both.push_reserved(other);
            let taken = lock.into_pool(both);
            tell_taken(rt, &taken);
            drop(taken);
        }
        None => line(rt, "lock pool", &"without its seats"),
    }
    Ok(())
}

/// Takes the pool out of the lock without its seats: it stays there.
fn tell_refused(rt: &HostRuntime, lock: SharedPool) -> Option<SharedPool>
    ensures { IfSome result (λ back. back.id ≡ lock.id) }
{
    match lock.into_pool(Vec::new(rt.alloc())) {
        Ok(_) => None,
        Err((refusal, lock, _none)) => {
            line(rt, "lock refused", &refusal);
            Some(lock)
        }
    }
}

/// Makes a lock of two seats, and an account of the first that holds a chunk.
fn prepared<R: Wait>(
    alloc: Global,
    waits: &R,
) -> io::Result<(SharedPool, PoolSeat, PoolSeat, Account)>
    ensures own { IfOk result (λ made. made.1.id ≡ made.0.id) }
    ensures other_own { IfOk result (λ made. made.2.id ≡ made.0.id) }
    ensures served { IfOk result (λ made. ServesBy made.1.knows made.3) }
    ensures counted { IfOk result (λ made. 0 < opened_by made.1.knows made.3.space) }
{
    let (lock, one, other) = seated(alloc)?;
    match lent(waits, &lock, one) {
        (one, Some(account)) => Ok((lock, one, other, account)),
        (_, None) => Err(unprepared()),
    }
}

/// Makes a lock of two seats.
fn seated(alloc: Global) -> io::Result<(SharedPool, PoolSeat, PoolSeat)>
    ensures own { IfOk result (λ made. made.1.id ≡ made.0.id) }
    ensures other_own { IfOk result (λ made. made.2.id ≡ made.0.id) }
{
    let pool = Pool::new(alloc, SETTINGS)?;
    let Ok((lock, mut seats)) = SharedPool::new(alloc, pool, 2) else {
        return Err(unprepared());
    };
    match (seats.pop(), seats.pop()) {
        (Some(other), Some(one)) => Ok((lock, one, other)),
        _ => Err(unprepared()),
    }
}

/// Prints the sums of a pool that was taken out of its lock.
fn tell_taken(rt: &HostRuntime, taken: &Result<Pool, (Refusal, SharedPool, Vec<PoolSeat>)>) {
    match taken {
        Ok(pool) => {
            line(rt, "lock pool", &pool.all_totals(Space::NonClass));
            line(rt, "lock pool of classes", &pool.all_totals(Space::Class));
        }
        Err((refusal, _, _)) => line(rt, "lock refused", refusal),
    }
}

/// A pool that is to be put behind a lock.
#[derive(Drop)]
pub(crate) struct Sharing {
    alloc: Global,
    pool: Option<Pool>,
    made: Option<(SharedPool, Vec<PoolSeat>)>,
}

impl Sharing {
    /// Prepares a pool.
    pub(crate) fn prepared(alloc: Global) -> io::Result<Sharing> {
        let pool = Some(Pool::new(alloc, SETTINGS)?);
        let made = None;
        Ok(Sharing { alloc, pool, made })
    }
}

impl Row for Sharing {
    fn tell_state(&mut self, rt: &HostRuntime) -> io::Result<()> {
        match &self.pool {
            Some(pool) => tell_pool(rt, pool),
            None => say(rt, "no pool"),
        }
        match &self.made {
            Some((_, seats)) => tell(rt, &seats.len()),
            None => say(rt, "no lock"),
        }
        Ok(())
    }

    fn call(&mut self, rt: &HostRuntime) -> Answer {
        let Some(pool) = self.pool.take() else {
            say(rt, "no pool was handed back");
            return Answer::Served;
        };
        match SharedPool::new(self.alloc, pool, SEATS) {
            Ok(made) => {
                self.made = Some(made);
                served(rt)
            }
            Err((_, pool)) => {
                self.pool = Some(pool);
                Answer::Refused
            }
        }
    }
}
