//! The row of a pool: accounts are opened, grow and are closed, and nodes are purged.
ghost use Rattle.std.specs.Prelude.{◌<◌, IfOk, IfSome, IsTrue};
ghost use Rattle.ms_pool.specs.Account.{has_chunk_at};
ghost use Rattle.ms_pool.specs.Ledger.{Serves};

use crate::pools::{account_lines, opened};
use crate::row::{line, mark, unprepared};
use ms_base::{Chunk, Level, Refusal, Space, Span};
use ms_pool::{Account, ChunkSource, Pool};
use std::alloc::Global;
use std::io;

/// Prints the row.
pub(crate) fn tell_all(rt: &HostRuntime) -> io::Result<()> {
    let (mut pool, account) = lent(rt.alloc())?;
    mark(rt, "accounts");
    tell_pool(rt, &pool);
    tell_held(rt, &mut pool, account);
    tell_pool(rt, &pool);
    tell_opened(rt, &mut pool);
    tell_both(rt, &mut pool);
    line(rt, "accounts purge", &pool.purge());
    tell_pool(rt, &pool);
    drop(pool);
    Ok(())
}

/// Has an account grow, and closes it.
fn tell_held(rt: &HostRuntime, pool: &mut Pool, account: Account)
    requires { Serves pool.old account }
{
    let mut account = account;
    line(rt, "accounts grow", &grow(pool, &mut account));
    account_lines(rt, "accounts account", &account);
    line(rt, "accounts totals", &pool.totals(&account));
    close(pool, account);
}

/// Makes a pool and an account of it that holds a chunk.
fn lent(alloc: Global) -> io::Result<(Pool, Account)>
    ensures { IfOk result (λ made. Serves made.0 made.1) }
{
    let (pool, account) = opened(alloc)?;
    with_chunk(pool, account)
}

/// Lends an account a chunk.
fn with_chunk(pool: Pool, account: Account) -> io::Result<(Pool, Account)>
    requires { Serves pool account }
    ensures { IfOk result (λ made. Serves made.0 made.1) }
{
    let (mut pool, mut account) = (pool, account);
    let level = Level::new(12);
    match ChunkSource::take(&mut pool, &mut account, level, level, 10) {
        Ok(_) => Ok((pool, account)),
        Err(_) => Err(unprepared()),
    }
}

/// Has the first chunk of an account grow to its parent.
fn grow(pool: &mut Pool, account: &mut Account) -> Option<Result<Span, Refusal>>
    requires { Serves pool.old account.old }
    ensures { Serves pool.new account.new }
{
    let chunk = first_chunk(account)?;
    let total = 2 * chunk.level.words();
    Some(ChunkSource::grow(pool, account, chunk.start, total, true))
}

/// Prints the first chunk of an account.
pub(crate) fn first_chunk(account: &Account) -> Option<Chunk>
    ensures { IfSome result
        (λ chunk. IsTrue (has_chunk_at account.now.chunks chunk.start)) }
{
    if account.held() == 0 {
        return None;
    }
    Some(account.chunk(0))
}

/// Opens an account of classes, and closes it.
fn tell_opened(rt: &HostRuntime, pool: &mut Pool) {
    match pool.open(Space::Class) {
        Ok(account) => {
            account_lines(rt, "accounts account", &account);
            close(pool, account);
        }
        Err(refusal) => line(rt, "accounts refused", &refusal),
    }
}

/// Opens both accounts of a loader, and closes them.
fn tell_both(rt: &HostRuntime, pool: &mut Pool) {
    match pool.open_both() {
        Ok((account, class_account)) => {
            account_lines(rt, "accounts account", &account);
            account_lines(rt, "accounts account", &class_account);
            close_both(pool, account, class_account);
        }
        Err(refusal) => line(rt, "accounts refused", &refusal),
    }
}

/// Closes an account, where one of its space is counted as open.
fn close(pool: &mut Pool, account: Account)
    requires { Serves pool.old account }
{
    if pool.all_totals(account.space()).accounts > 0 {
        pool.close(account);
    }
}

/// Closes an account of each space, where one is counted as open.
fn close_both(pool: &mut Pool, account: Account, class_account: Account)
    requires served { Serves pool.old account }
    requires class_served { Serves pool.old class_account }
{
    let counted = pool.all_totals(Space::NonClass).accounts > 0;
    if !counted || account.space() != Space::NonClass {
        return;
    }
    let class_counted = pool.all_totals(Space::Class).accounts > 0;
    if !class_counted || class_account.space() != Space::Class {
        return;
    }
    pool.close_both(account, class_account);
}

/// Prints a pool: its sums, what counts beside the limits, and who holds some words.
fn tell_pool(rt: &HostRuntime, pool: &Pool) {
    line(rt, "accounts sums", &pool.all_totals(Space::NonClass));
    line(
        rt,
        "accounts sums of classes",
        &pool.all_totals(Space::Class),
    );
    line(rt, "accounts counts", &(pool.counts(), pool.policy()));
    line(rt, "accounts open", &(pool.accounts(), pool.committed()));
    for word in [0, 128, 67108864] {
        line(
            rt,
            "accounts owner",
            &(pool.owner_of(word), pool.is_committed(word / 8192)),
        );
    }
}
