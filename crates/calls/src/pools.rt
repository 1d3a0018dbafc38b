//! The rows of a pool: it is made, and lends a chunk; and how a pool and an account are told.
ghost use Rattle.std.specs.Prelude.{◌≡◌, [], IfOk};
ghost use Rattle.ms_pool.specs.Ledger.{Serves};

pub(crate) mod accounts;
pub(crate) mod maps;

use crate::row::{Answer, Row, line, say, served, tell, told, unprepared};
use ms_base::{Level, Policy, Settings, Space};
use ms_pool::{Account, ChunkSource, Pool};
use std::alloc::Global;
use std::io;
use std::marker::Model;

/// The settings of all rows: two nodes, and one of the class space.
pub(crate) const SETTINGS: Settings = Settings {
    workers: 2,
    nodes: 2,
    max_granules: 100,
    policy: Policy::Balanced,
    class_nodes: 1,
};

/// How many granules there are at most, of 8192 words: 128 in each of 80 nodes.
pub(crate) const GRANULES: u64 = 10240;

/// How many chunks of the lowest level, of 128 words, there are at most.
pub(crate) const SMALLEST: u64 = 655360;

/// Prints a pool: the sums over each space, what counts beside the limits, which granules are
/// committed, and to whom words are lent.
pub(crate) fn tell_pool(rt: &HostRuntime, pool: &Pool) {
    tell(rt, &pool.all_totals(Space::NonClass));
    tell(rt, &pool.all_totals(Space::Class));
    tell(rt, &pool.counts());
    for granule in 0..GRANULES {
        if pool.is_committed(granule) {
            tell(rt, &granule);
        }
    }
    tell_owners(rt, pool);
}

/// Prints each word from which on words are lent to another owner, or to none.
fn tell_owners(rt: &HostRuntime, pool: &Pool) {
    let mut last = None;
    for number in 0..SMALLEST {
        let owner = pool.owner_of(128 * number);
        if owner != last {
            tell(rt, &(128 * number, owner));
            last = owner;
        }
    }
}

/// Prints an account: its space, and its chunks in the order taken.
pub(crate) fn tell_account(rt: &HostRuntime, account: &Account) {
    tell(rt, &account.space());
    for index in 0..account.held() {
        tell(rt, &account.chunk(index));
    }
}

/// Prints an account on lines of its own: its owner's number, its space, and its chunks in the
/// order taken.
pub(crate) fn account_lines(rt: &HostRuntime, about: &str, account: &Account) {
    line(rt, about, &(account.owner(), account.space()));
    for index in 0..account.held() {
        line(rt, about, &account.chunk(index));
    }
}

/// Makes a pool with no node but the class space's, and an account of it that holds no chunk.
pub(crate) fn opened(alloc: Global) -> io::Result<(Pool, Account)>
    ensures served { IfOk result (λ made. Serves made.0 made.1) }
    ensures empty { IfOk result (λ made. made.1.chunks ≡ []) }
{
    let mut pool = Pool::new(alloc, SETTINGS)?;
    match pool.open(Space::NonClass) {
        Ok(account) => Ok((pool, account)),
        Err(_) => Err(unprepared()),
    }
}

/// A pool that is to be made.
#[derive(Drop)]
pub(crate) struct Making {
    alloc: Global,
    pool: Option<Pool>,
}

impl Making {
    /// Prepares nothing.
    pub(crate) fn prepared(alloc: Global) -> io::Result<Making> {
        Ok(Making { alloc, pool: None })
    }
}

impl Row for Making {
    fn tell_state(&mut self, rt: &HostRuntime) -> io::Result<()> {
        match &self.pool {
            Some(pool) => tell_pool(rt, pool),
            None => say(rt, "no pool"),
        }
        Ok(())
    }

    fn call(&mut self, rt: &HostRuntime) -> Answer {
        match Pool::new(self.alloc, SETTINGS) {
            Ok(pool) => {
                self.pool = Some(pool);
                served(rt)
            }
            Err(_) => Answer::Refused,
        }
    }
}

/// A pool and an account of it, to which a chunk is to be lent.
#[derive(Drop)]
pub(crate) struct Taking {
    pool: Pool,
    account: Account,
}

impl Model for Taking {
    ghost use Rattle.ms_pool.specs.Account.{AccountState};
    ghost use Rattle.ms_pool.specs.Ledger.{Ledger, Serves};

    ghost Value = { Ledger × AccountState };

    ghost view = { λ row. (row.pool, row.account) };

    ghost invariant = { λ row. Serves row.pool row.account };
}

impl Taking {
    /// Prepares a pool with no node but the class space's, and an account that holds no chunk.
    pub(crate) fn prepared(alloc: Global) -> io::Result<Taking> {
        let (pool, account) = opened(alloc)?;
        Ok(Taking { pool, account })
    }
}

impl Row for Taking {
    fn tell_state(&mut self, rt: &HostRuntime) -> io::Result<()> {
        tell_pool(rt, &self.pool);
        tell_account(rt, &self.account);
        Ok(())
    }

    fn call(&mut self, rt: &HostRuntime) -> Answer {
        let level = Level::new(12);
        told(
            rt,
            ChunkSource::take(&mut self.pool, &mut self.account, level, level, 10),
        )
    }
}
