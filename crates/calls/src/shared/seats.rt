//! Calls over the lock, each with the seat that it is made from: the seat comes back, once the
//! answer is told.
ghost use Rattle.std.specs.Prelude.{◌≡◌, ◌<◌, IfSome};
ghost use Rattle.ms_shared.specs.SeatView.{ServesBy, opened_by};

use crate::pools::accounts::first_chunk;
use crate::row::line;
use ms_base::{Level, Space};
use ms_pool::{Account, AccountSource, ChunkSource};
use ms_shared::{PoolSeat, SharedPool};
use std::sync::Wait;

/// Opens an account and lends it a chunk: none where one of these is refused. Takes memory.
pub(crate) fn lent<R: Wait>(
    waits: &R,
    lock: &SharedPool,
    seat: PoolSeat,
) -> (PoolSeat, Option<Account>)
    requires { seat.id ≡ lock.now.id }
    ensures own { result.0.id ≡ seat.id }
    ensures served { IfSome result.1 (λ account. ServesBy result.0.knows account) }
    ensures counted { IfSome result.1 (λ account. 0 < opened_by result.0.knows account.space) }
{
    let mut pool = lock.at(waits, seat);
    match pool.open(Space::NonClass) {
        Ok(account) => with_chunk(waits, lock, pool.into_seat(), account),
        Err(_) => (pool.into_seat(), None),
    }
}

/// Lends an account a chunk: none where that is refused. Takes memory.
fn with_chunk<R: Wait>(
    waits: &R,
    lock: &SharedPool,
    seat: PoolSeat,
    mut account: Account,
) -> (PoolSeat, Option<Account>)
    requires own { seat.id ≡ lock.now.id }
    requires served { ServesBy seat.knows account }
    requires counted { 0 < opened_by seat.knows account.space }
    ensures own { result.0.id ≡ seat.id }
    ensures served { IfSome result.1 (λ account. ServesBy result.0.knows account) }
    ensures counted { IfSome result.1 (λ account. 0 < opened_by result.0.knows account.space) }
{
    let level = Level::new(12);
    let mut pool = lock.at(waits, seat);
    match pool.take(&mut account, level, level, 10) {
        Ok(_) => (pool.into_seat(), Some(account)),
        Err(_) => (pool.into_seat(), None),
    }
}

/// Has the first chunk of an account grow to its parent.
pub(crate) fn grown<R: Wait>(
    rt: &HostRuntime,
    waits: &R,
    lock: &SharedPool,
    seat: PoolSeat,
    account: &mut Account,
) -> PoolSeat
    requires own { seat.id ≡ lock.now.id }
    requires served { ServesBy seat.knows account.old }
    requires counted { 0 < opened_by seat.knows account.old.space }
    ensures own { result.id ≡ seat.id }
    ensures served { ServesBy result.knows account.new }
    ensures counted { 0 < opened_by result.knows account.new.space }
{
    let Some(chunk) = first_chunk(account) else {
        return seat;
    };
    let total = 2 * chunk.level.words();
    let mut pool = lock.at(waits, seat);
    let answer = pool.grow(account, chunk.start, total, true);
    line(rt, "lock grow", &answer);
    pool.into_seat()
}

/// Prints the sums over an account's space, and closes the account.
pub(crate) fn closed<R: Wait>(
    rt: &HostRuntime,
    waits: &R,
    lock: &SharedPool,
    seat: PoolSeat,
    account: Account,
) -> PoolSeat
    requires own { seat.id ≡ lock.now.id }
    requires served { ServesBy seat.knows account }
    requires counted { 0 < opened_by seat.knows account.space }
    ensures { result.id ≡ seat.id }
{
    let mut pool = lock.at(waits, seat);
    line(rt, "lock totals", &pool.totals(&account));
    pool.close(account);
    pool.into_seat()
}

/// Opens an account of classes and closes it: returns its owner's number.
pub(crate) fn opened<R: Wait>(
    rt: &HostRuntime,
    waits: &R,
    lock: &SharedPool,
    seat: PoolSeat,
) -> PoolSeat
    requires { seat.id ≡ lock.now.id }
    ensures { result.id ≡ seat.id }
{
    let mut pool = lock.at(waits, seat);
    match pool.open(Space::Class) {
        Ok(account) => {
            line(rt, "lock open", &account.owner());
            pool.close(account);
            pool.into_seat()
        }
        Err(refusal) => {
            line(rt, "lock refused", &refusal);
            pool.into_seat()
        }
    }
}

/// Opens both accounts of a loader and closes them: returns their owners' numbers.
pub(crate) fn opened_both<R: Wait>(
    rt: &HostRuntime,
    waits: &R,
    lock: &SharedPool,
    seat: PoolSeat,
) -> PoolSeat
    requires { seat.id ≡ lock.now.id }
    ensures { result.id ≡ seat.id }
{
    let mut pool = lock.at(waits, seat);
    match pool.open_both() {
        Ok((account, class_account)) => {
            let owners = (account.owner(), class_account.owner());
            line(rt, "lock open both", &owners);
            pool.close_both(account, class_account);
            pool.into_seat()
        }
        Err(refusal) => {
            line(rt, "lock refused", &refusal);
            pool.into_seat()
        }
    }
}

/// Drops the nodes that hold no chunk.
pub(crate) fn purged<R: Wait>(
    rt: &HostRuntime,
    waits: &R,
    lock: &SharedPool,
    seat: PoolSeat,
) -> PoolSeat
    requires { seat.id ≡ lock.now.id }
    ensures { result.id ≡ seat.id }
{
    let mut pool = lock.at(waits, seat);
    line(rt, "lock purge", &pool.purge());
    pool.into_seat()
}
