//! The pool and its calls.
ghost use Rattle.std.specs.Prelude.{◌≡◌, ◌+◌, ◌<◌, ◌≤◌, ◌^◌, IfOk, OnErr, IsTrue, length};
ghost use Rattle.ms_base.specs.Level.{highest_level};
ghost use Rattle.ms_base.specs.State.{limits_of};
ghost use Rattle.ms_base.specs.Totals.{pool_sums};
ghost use Rattle.ms_pool.specs.Account.{AreChunks, has_chunk_at};
ghost use Rattle.ms_pool.specs.Lending.{Adds, Grows, MayTake};
ghost use Rattle.ms_pool.specs.Source.{ServesBoth};
ghost use Rattle.ms_pool.specs.Tallies.{AreTallies};
ghost use Rattle.ms_pool.specs.Ledger.{Serves, IsSoundLedger, empty_ledger, opened_in, state_in};
ghost use Rattle.ms_pool.specs.Calls.{AreSoundWith, Opened, OpenedBoth, Took, Grew, Closed, ClosedBoth, Purged, Totalled, sums_in};

mod counts;
mod granules;
mod maps;
mod owners;

use crate::account::Account;
use crate::lender::Lender;
use crate::source::{AccountSource, ChunkSource};
use crate::totals::PoolTotals;
pub use counts::LimitCounts;
use ms_base::{Level, Policy, Refusal, Settings, Space, Span};
use std::alloc::{AllocError, Global};
use std::marker::Model;

/// The pool of both spaces: it lends buddy chunks to accounts from the root chunks of reserved
/// nodes, commits their fronts by granules, and takes everything of an account back in one step.
/// After HotSpot's chunkManager.cpp and virtualSpaceList.cpp.
pub struct Pool {
    /// All that is kept; `Lender` has units and ranges. In a box, since it has some kilobytes and a
    /// pool is moved into and out of locks.
    lender: Box<Lender>,
}

impl Drop for Pool {
    /// Lets its parts go. Written out, so that crates above drop it by a call and see no part.
    fn drop(self) {
        let Pool { lender: _ } = self;
    }
}

impl Model for Pool {
    ghost use Rattle.ms_pool.specs.Ledger.{Ledger};

    ghost Value = { Ledger };

    ghost use Rattle.ms_pool.specs.Keeping.{IsReady, ledger_of};

    ghost view = { λ pool. ledger_of pool.lender.value };

    ghost invariant = { λ pool. IsReady pool.lender.value };
}

impl Pool {
    /// Makes a pool of which nothing was asked yet: the nodes of the class space are reserved, no
    /// other, and no granule is committed. The room of all trees is made here, so reserving a
    /// node takes no memory. Takes memory, and fails only where that is refused.
    pub fn new(alloc: Global, settings: Settings) -> Result<Pool, AllocError>
        ensures { IfOk result (λ pool. pool ≡ empty_ledger (limits_of settings)) }
    {
        Ok(Pool {
            lender: Box::new(alloc, Lender::new(alloc, settings)?)?,
        })
    }

    /// Opens an account in a space, under the next owner number. Refused with `IdsUsedUp` exactly
    /// where all numbers, 1 to 4294967295, were given out. Takes no memory.
    pub fn open(&mut self, space: Space) -> Result<Account, Refusal>
        ensures opened { Opened self.old space result self.new }
        ensures served { IfOk result (λ account. Serves self.new account) }
        ensures given { self.new.given < 2 ^ 32 }
        ensures before { IsSoundLedger self.old }
        ensures after { IsSoundLedger self.new }
    {
        self.lender.open(space)
    }

    /// Opens an account in each space, by one event; the first is not the class space's. Refused
    /// with `IdsUsedUp` exactly where fewer than two owner numbers are left. Takes no memory.
    pub fn open_both(&mut self) -> Result<(Account, Account), Refusal>
        ensures opened { OpenedBoth self.old result self.new }
        ensures served { IfOk result (λ accounts. Serves self.new accounts.0) }
        ensures class_served { IfOk result (λ accounts. Serves self.new accounts.1) }
        ensures given { self.new.given < 2 ^ 32 }
        ensures before { IsSoundLedger self.old }
        ensures after { IsSoundLedger self.new }
    {
        self.lender.open_both()
    }

    /// Lends the account a chunk: the free part that the searches find first for so many words, of
    /// a level from the wanted one up to the most that serves, split where it is larger than
    /// wanted. Refused with `ReserveLimit`, with `CommitLimit`, and with `OutOfMemory`, in that
    /// order; nothing changes then but a tally. Takes memory. After HotSpot, chunkManager.cpp.
    pub fn take(
        &mut self,
        account: &mut Account,
        wanted: Level,
        most: Level,
        words: u64,
    ) -> Result<Span, Refusal>
        requires served { Serves self.old account.old }
        requires asks { MayTake wanted most words }
        ensures added { IfOk result
            (λ span. Adds self.old.limits.policy wanted most words account.old span account.new) }
        ensures unchanged { OnErr result (account.new ≡ account.old) }
        ensures took { Took self.old account.old wanted most words result self.new }
        ensures sound { AreSoundWith self.old self.new account.old account.new }
        ensures level { most ≤ highest_level }
    {
        self.lender.take(account, wanted, most, words)
    }

    /// Makes the front of the account's chunk that starts there reach so many words, in its place.
    /// Refused with `NoRoom` and the chunk's level where it can't, and with `CommitLimit`; nothing
    /// changes then but a tally. Takes no memory. After HotSpot, rootChunkArea.cpp.
    pub fn grow(
        &mut self,
        account: &mut Account,
        start: u64,
        total: u64,
        may_enlarge: bool,
    ) -> Result<Span, Refusal>
        requires served { Serves self.old account.old }
        requires held { IsTrue (has_chunk_at account.old.chunks start) }
        ensures grown { IfOk result
            (λ span. Grows self.old.limits.policy start total may_enlarge account.old span account.new) }
        ensures unchanged { OnErr result (account.new ≡ account.old) }
        ensures grew { Grew self.old account.old start total may_enlarge result self.new }
        ensures sound { AreSoundWith self.old self.new account.old account.new }
    {
        self.lender.grow(account, start, total, may_enlarge)
    }

    /// Takes all chunks of the account back in one step. Takes no memory.
    pub fn close(&mut self, account: Account)
        requires served { Serves self.old account }
        requires counted { 0 < opened_in self.old account.space }
        ensures closed { Closed self.old account self.new }
        ensures before { IsSoundLedger self.old }
        ensures after { IsSoundLedger self.new }
    {
        self.lender.close(&account);
        self.lender.spare.keep(account);
    }

    /// Takes all chunks of the accounts of both spaces back, by one event; the first is not the
    /// class space's. Takes no memory.
    pub fn close_both(&mut self, account: Account, class_account: Account)
        requires both { ServesBoth Serves self.old account class_account }
        requires counted { 0 < self.old.opened }
        requires class_counted { 0 < self.old.class_opened }
        ensures closed { ClosedBoth self.old account class_account self.new }
        ensures before { IsSoundLedger self.old }
        ensures after { IsSoundLedger self.new }
    {
        self.lender.close_both(&account, &class_account);
        self.lender.spare.keep(account);
        self.lender.spare.keep(class_account);
    }

    /// Drops the nodes that hold no chunk, their granules with them, and answers how many they
    /// were; those of the class space stay. Takes no memory. After HotSpot, virtualSpaceList.cpp.
    pub fn purge(&mut self) -> u32
        ensures purged { Purged self.old result self.new }
        ensures before { IsSoundLedger self.old }
        ensures after { IsSoundLedger self.new }
    {
        self.lender.purge()
    }

    /// Returns the sums over the account's space. Takes no memory.
    pub fn totals(&self, account: &Account) -> PoolTotals
        ensures sums { sums_in result
            ≡ pool_sums (state_in account.now.space self.now) (opened_in self.now account.now.space) }
        ensures held { AreChunks account.now.space account.now.chunks }
        ensures sound { IsSoundLedger self.now }
    {
        self.lender.totals(account.space)
    }

    /// Returns the sums over a space. A caller also learns here what is true of every pool. Takes
    /// no memory.
    pub fn all_totals(&self, space: Space) -> PoolTotals
        ensures sums { sums_in result
            ≡ pool_sums (state_in space self.now) (opened_in self.now space) }
        ensures sound { IsSoundLedger self.now }
        ensures tallies { AreTallies self.now.tallies }
    {
        self.lender.read_tallies();
        self.lender.totals(space)
    }

    /// Returns how many granules are committed, in both spaces. A caller also learns here what is
    /// true of every pool. Takes no memory, and visits no chunk.
    pub fn committed(&self) -> u64
        ensures count { result ≡ length self.now.committed + length self.now.class_committed }
        ensures sound { IsSoundLedger self.now }
        ensures tallies { AreTallies self.now.tallies }
    {
        self.lender.read_tallies();
        self.lender.committed()
    }

    /// Returns how many granules of the class space are committed, at most 8192. Takes no memory,
    /// and counts over the class space's own slots alone.
    pub fn class_committed(&self) -> u64
        ensures { result ≡ length self.now.class_committed }
    {
        self.lender.committed_in(Space::Class)
    }

    /// Returns by which policy granules are committed and given back. Takes no memory.
    pub fn policy(&self) -> Policy
        ensures { result ≡ self.now.limits.policy }
    {
        self.lender.policy
    }

    /// Returns how many accounts are open, in both spaces, below 2 ^ 33. A caller also learns here
    /// what is true of every pool. Takes no memory, and visits no chunk.
    pub fn accounts(&self) -> u64
        ensures sum { result ≡ self.now.opened + self.now.class_opened }
        ensures sound { IsSoundLedger self.now }
    {
        u64::from(self.lender.opened) + u64::from(self.lender.class_opened)
    }
}

impl ChunkSource for Pool {
    ghost use Rattle.ms_pool.specs.Ledger.{Serves, opened_in};
    ghost use Rattle.ms_pool.specs.Calls.{Took, Grew, Closed, Totalled};

    ghost serves = { Serves };

    ghost opened = { opened_in };

    ghost limits = { λ ledger. ledger.limits };

    ghost took = { Took };

    ghost grew = { Grew };

    ghost closed = { Closed };

    ghost totalled = { Totalled };

    fn take(
        &mut self,
        account: &mut Account,
        wanted: Level,
        most: Level,
        words: u64,
    ) -> Result<Span, Refusal> {
        Pool::take(self, account, wanted, most, words)
    }

    fn grow(
        &mut self,
        account: &mut Account,
        start: u64,
        total: u64,
        may_enlarge: bool,
    ) -> Result<Span, Refusal> {
        Pool::grow(self, account, start, total, may_enlarge)
    }

    fn close(&mut self, account: Account) {
        Pool::close(self, account);
    }

    fn totals(&mut self, account: &Account) -> PoolTotals {
        Pool::totals(self, account)
    }
}

impl AccountSource for Pool {
    ghost use Rattle.ms_pool.specs.Calls.{OpenedBoth, ClosedBoth, Purged};

    ghost opened_both = { OpenedBoth };

    ghost closed_both = { ClosedBoth };

    ghost purged = { Purged };

    fn open_both(&mut self) -> Result<(Account, Account), Refusal> {
        Pool::open_both(self)
    }

    fn close_both(&mut self, account: Account, class_account: Account) {
        Pool::close_both(self, account, class_account);
    }

    fn purge(&mut self) -> u32 {
        Pool::purge(self)
    }
}
