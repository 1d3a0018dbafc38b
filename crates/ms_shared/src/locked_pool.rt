//! The pool's calls, over the lock.
//!
//! Each call takes the pool, which it waits for, makes the one call on it and puts it back. So it
//! is one event on the pool, and between a thread's calls those of others come. Kept true: the
//! pool serves what the seat serves, and counts what the seat counts. Only `take` takes memory.
//! This project's choice.
ghost use Rattle.std.specs.Prelude.{◌≡◌, ◌≢◌, ◌+◌, IfOk, IfErr, MatchResult};
ghost use Rattle.ms_base.specs.declared.kind.Space.{Space};
ghost use Rattle.ms_pool.specs.Account.{AccountState};
ghost use Rattle.ms_pool.specs.Calls.{Opened, new_account};
ghost use Rattle.ms_shared.specs.SeatView.{ServesBy, OverLock, opened_by, ids_of_open, raise};

use crate::lock_rule::LockView;
use crate::seat::PoolSeat;
use crate::shared_pool::SharedPool;
use atomic_table::Seat;
use ms_base::{Level, Refusal, Space, Span};
use ms_pool::{Account, AccountSource, ChunkSource, Pool, PoolTotals};
use std::marker::Model;
use std::sync::Wait;

/// A lock, a seat of it and what waits, in one value. This project's choice.
pub struct LockedPool<'a, R: Wait> {
    rt: &'a R,
    shared: &'a SharedPool,
    seat: Seat<Option<Pool>, LockView>,
}

impl<'a, R: Wait> Model for LockedPool<'a, R> {
    ghost use Rattle.ms_shared.specs.History.{IsOne};
    ghost use Rattle.ms_shared.specs.SeatView.{SeatState, seat_of};

    ghost Value = { SeatState };

    ghost use Rattle.std.specs.Prelude.{◌≡◌, [], None};

    ghost view = { λ pool. seat_of pool.seat.table_id pool.seat.me.0 };

    ghost invariant = { λ pool. (pool.seat.table_id ≡ pool.shared.now.id) × (pool.seat.me.1 ≡ [])
        × (pool.seat.me.0.parts ≡ 2) × (pool.seat.me.0.taken ≡ None)
        × IsOne pool.seat.me.0.strands };
}

impl SharedPool {
    /// Puts the lock, a seat of it and what waits into one value. Takes no memory, and does not
    /// wait. This project's choice.
    pub fn at<'a, R: Wait>(&'a self, rt: &'a R, seat: PoolSeat) -> LockedPool<'a, R>
        requires { seat.id ≡ self.now.id }
        ensures { result ≡ seat }
    {
        LockedPool {
            rt,
            shared: self,
            seat: seat.into_table_seat(),
        }
    }
}

impl<R: Wait> LockedPool<'_, R> {
    /// Gives the seat back. Takes no memory, and does not wait. This project's choice.
    pub fn into_seat(self) -> PoolSeat
        ensures { result ≡ self.entry }
    {
        let LockedPool {
            rt: _,
            shared: _,
            seat,
        } = self;
        PoolSeat { seat }
    }

    /// Opens an account in a space, under the pool's next owner number; the seat serves it and
    /// counts it. Refused with `IdsUsedUp` exactly where all numbers, 1 to 4294967295, were given
    /// out. Takes no memory, and waits for the lock.
    pub fn open(&mut self, space: Space) -> Result<Account, Refusal>
        ensures event { OverLock (λ before after. Opened before space result after)
            self.old self.new }
        ensures served { IfOk result (λ account. ServesBy self.new.knows account) }
        ensures new { IfOk result (λ account. account ≡ new_account account.owner space) }
        ensures others { (other : AccountState) → ServesBy self.old.knows other
            → ServesBy self.new.knows other }
        ensures counted { MatchResult result
            (λ account. opened_by self.new.knows space ≡ opened_by self.old.knows space + 1)
            (λ refusal. opened_by self.new.knows space ≡ opened_by self.old.knows space) }
        ensures elsewhere { (other : Space) → other ≢ space
            → opened_by self.new.knows other ≡ opened_by self.old.knows other }
        ensures limits { self.new.knows.limits ≡ self.old.knows.limits }
        ensures tallied { IfErr result
            (λ refusal. self.new.knows.tallies ≡ raise ids_of_open self.old.knows.tallies) }
    {
        let mut pool = self.shared.seize(self.rt, &mut self.seat);
        let answer = pool.open(space);
        self.shared.let_go(&mut self.seat, pool);
        answer
    }
}

impl<'a, R: Wait> ChunkSource for LockedPool<'a, R> {
    ghost use Rattle.ms_shared.specs.SeatView.{ServesBy, opened_by};
    ghost use Rattle.ms_shared.specs.LockCalls.{TookOver, GrewOver, ClosedOver, TotalledOver};

    ghost serves = { λ seat. ServesBy seat.knows };

    ghost opened = { λ seat. opened_by seat.knows };

    ghost limits = { λ seat. seat.knows.limits };

    ghost took = { TookOver };

    ghost grew = { GrewOver };

    ghost closed = { ClosedOver };

    ghost totalled = { TotalledOver };

    fn take(
        &mut self,
        account: &mut Account,
        wanted: Level,
        most: Level,
        words: u64,
    ) -> Result<Span, Refusal> {
        let mut pool = self.shared.seize(self.rt, &mut self.seat);
        let answer = pool.take(account, wanted, most, words);
        self.shared.let_go(&mut self.seat, pool);
        answer
    }

    fn grow(
        &mut self,
        account: &mut Account,
        start: u64,
        total: u64,
        may_enlarge: bool,
    ) -> Result<Span, Refusal> {
        let mut pool = self.shared.seize(self.rt, &mut self.seat);
        let answer = pool.grow(account, start, total, may_enlarge);
        self.shared.let_go(&mut self.seat, pool);
        answer
    }

    fn close(&mut self, account: Account) {
        let mut pool = self.shared.seize(self.rt, &mut self.seat);
        pool.close(account);
        self.shared.let_go(&mut self.seat, pool);
    }

    fn totals(&mut self, account: &Account) -> PoolTotals {
        let pool = self.shared.seize(self.rt, &mut self.seat);
        let totals = pool.totals(account);
        self.shared.let_go(&mut self.seat, pool);
        totals
    }
}

impl<'a, R: Wait> AccountSource for LockedPool<'a, R> {
    ghost use Rattle.ms_shared.specs.LockCalls.{OpenedBothOver, ClosedBothOver, PurgedOver};

    ghost opened_both = { OpenedBothOver };

    ghost closed_both = { ClosedBothOver };

    ghost purged = { PurgedOver };

    fn open_both(&mut self) -> Result<(Account, Account), Refusal> {
        let mut pool = self.shared.seize(self.rt, &mut self.seat);
        let answer = pool.open_both();
        self.shared.let_go(&mut self.seat, pool);
        answer
    }

    fn close_both(&mut self, account: Account, class_account: Account) {
        let mut pool = self.shared.seize(self.rt, &mut self.seat);
        pool.close_both(account, class_account);
        self.shared.let_go(&mut self.seat, pool);
    }

    fn purge(&mut self) -> u32 {
        let mut pool = self.shared.seize(self.rt, &mut self.seat);
        let gone = pool.purge();
        self.shared.let_go(&mut self.seat, pool);
        gone
    }
}
