//! The pool's calls, by a seat that has the pool.
//!
//!     seat --- try_hold ---> held pool --- calls ---> held pool --- let_go ---> seat
//!                  `- busy: another seat has it, and nothing changed
//!
//! What waits for no thread takes the pool by one try, makes its calls and puts it back; between
//! its calls those of others don't come. Each call is one event on the pool. Kept true: the seat
//! has the pool, which serves what the seat serves, and counts what the seat counts. Only `take`
//! takes memory, and nothing waits. This project's choice.
ghost use Rattle.std.specs.Prelude.{◌≡◌, ◌++◌, IfOk, IfErr};
ghost use Rattle.ms_base.specs.Committed.{is_among};

use crate::lock_rule::LockView;
use crate::seat::PoolSeat;
use crate::shared_pool::SharedPool;
use atomic_table::Seat;
use ms_base::{Level, Refusal, Space, Span};
use ms_pool::{Account, AccountSource, ChunkSource, Pool, PoolTotals};
use std::marker::Model;

/// A seat and the pool that it has, without the lock: what is kept of both between calls. This
/// project's choice.
pub struct HeldSeat {
    seat: Seat<Option<Pool>, LockView>,
    pool: Pool,
}

impl Drop for HeldSeat {
    /// Lets its parts go. Written out, so that crates above drop it by a call and see no part.
    fn drop(self) {
        let HeldSeat { seat: _, pool: _ } = self;
    }
}

impl Model for HeldSeat {
    ghost use Rattle.ms_shared.specs.History.{IsOne};
    ghost use Rattle.ms_shared.specs.SeatView.{HeldState, IsKnown, seat_of};

    ghost Value = { HeldState };

    ghost use Rattle.std.specs.Prelude.{◌≡◌, ◌∷◌, [], Some, None};

    ghost view = { λ held. record { seat = seat_of held.seat.table_id held.seat.me.0; pool = held.pool } };

    ghost invariant = { λ held. (held.seat.me.1 ≡ (0, None) ∷ []) × (held.seat.me.0.parts ≡ 2)
        × (held.seat.me.0.taken ≡ Some held.pool) × IsOne held.seat.me.0.strands
        × IsKnown held.pool held.seat.me.0.knows };
}

/// A lock, a seat of it and the pool, which the seat has, in one value. This project's choice.
pub struct HeldPool<'a> {
    shared: &'a SharedPool,
    seat: Seat<Option<Pool>, LockView>,
    pool: Pool,
}

impl<'a> Model for HeldPool<'a> {
    ghost use Rattle.ms_shared.specs.History.{IsOne};
    ghost use Rattle.ms_shared.specs.SeatView.{HeldState, IsKnown, seat_of};

    ghost Value = { HeldState };

    ghost use Rattle.std.specs.Prelude.{◌≡◌, ◌∷◌, [], Some, None};

    ghost view = { λ held. record { seat = seat_of held.seat.table_id held.seat.me.0; pool = held.pool } };

    ghost invariant = { λ held. (held.seat.table_id ≡ held.shared.now.id) × (held.seat.me.1 ≡ (0, None) ∷ [])
        × (held.seat.me.0.parts ≡ 2) × (held.seat.me.0.taken ≡ Some held.pool)
        × IsOne held.seat.me.0.strands × IsKnown held.pool held.seat.me.0.knows };
}

impl SharedPool {
    /// Takes the pool for a seat, by one try. Where another seat has it the seat comes back as it
    /// was, and nothing changes. Takes no memory, and does not wait. This project's choice.
    pub fn try_hold<'a>(&'a self, seat: PoolSeat) -> Result<HeldPool<'a>, PoolSeat>
        requires { seat.id ≡ self.now.id }
        ensures held { IfOk result (λ held. held.seat ≡ seat) }
        ensures busy { IfErr result (λ back. back ≡ seat) }
    {
        let mut seat = seat.into_table_seat();
        match self.try_seize(&mut seat) {
            Some(pool) => Ok(HeldPool {
                shared: self,
                seat,
                pool,
            }),
            None => Err(PoolSeat { seat }),
        }
    }

    /// Goes on with the pool that a seat has. Takes no memory, and does not wait.
    pub fn resume<'a>(&'a self, held: HeldSeat) -> HeldPool<'a>
        requires { held.seat.id ≡ self.now.id }
        ensures { result ≡ held }
    {
        held.over(self)
    }
}

impl HeldSeat {
    /// Goes on with the pool, over the seat's lock.
    fn over<'a>(self, shared: &'a SharedPool) -> HeldPool<'a>
        requires { self.seat.id ≡ shared.now.id }
        ensures { result ≡ self }
    {
        let HeldSeat { seat, pool } = self;
        HeldPool { shared, seat, pool }
    }

    /// Returns whether a granule is committed, by its number over both spaces; past their end none
    /// is. Takes no memory, and visits no chunk.
    pub fn is_committed(&self, granule: u64) -> bool
        ensures { result ≡ is_among (self.now.pool.committed ++ self.now.pool.class_committed) granule }
    {
        self.pool.is_committed(granule)
    }
}

impl HeldPool<'_> {
    /// Puts the pool back, and gives the seat. Takes no memory, and does not wait. This project's
    /// choice.
    pub fn let_go(self) -> PoolSeat
        ensures { result ≡ self.entry.seat }
    {
        let HeldPool {
            shared,
            mut seat,
            pool,
        } = self;
        shared.put_back(&mut seat, pool);
        PoolSeat { seat }
    }

    /// Keeps the seat and the pool, which the seat has still, without the lock. Takes no memory.
    pub fn pause(self) -> HeldSeat
        ensures { result ≡ self.entry }
    {
        let HeldPool {
            shared: _,
            seat,
            pool,
        } = self;
        HeldSeat { seat, pool }
    }
}

impl<'a> ChunkSource for HeldPool<'a> {
    ghost use Rattle.ms_shared.specs.SeatView.{ServesBy, opened_by};
    ghost use Rattle.ms_shared.specs.LockCalls.{TookHeld, GrewHeld, ClosedHeld, TotalledHeld};

    ghost serves = { λ held. ServesBy held.seat.knows };

    ghost opened = { λ held. opened_by held.seat.knows };

    ghost limits = { λ held. held.seat.knows.limits };

    ghost took = { TookHeld };

    ghost grew = { GrewHeld };

    ghost closed = { ClosedHeld };

    ghost totalled = { TotalledHeld };

    fn take(
        &mut self,
        account: &mut Account,
        wanted: Level,
        most: Level,
        words: u64,
    ) -> Result<Span, Refusal> {
        let answer = self.pool.take(account, wanted, most, words);
        self.shared.note(&mut self.seat, &self.pool);
        answer
    }

    fn grow(
        &mut self,
        account: &mut Account,
        start: u64,
        total: u64,
        may_enlarge: bool,
    ) -> Result<Span, Refusal> {
        let answer = self.pool.grow(account, start, total, may_enlarge);
        self.shared.note(&mut self.seat, &self.pool);
        answer
    }

    fn close(&mut self, account: Account) {
        self.pool.close(account);
        self.shared.note(&mut self.seat, &self.pool);
    }

    fn totals(&mut self, account: &Account) -> PoolTotals {
        let totals = self.pool.totals(account);
        self.shared.note(&mut self.seat, &self.pool);
        totals
    }
}

impl<'a> AccountSource for HeldPool<'a> {
    ghost use Rattle.ms_shared.specs.LockCalls.{OpenedBothHeld, ClosedBothHeld, PurgedHeld};

    ghost opened_both = { OpenedBothHeld };

    ghost closed_both = { ClosedBothHeld };

    ghost purged = { PurgedHeld };

    fn open_both(&mut self) -> Result<(Account, Account), Refusal> {
        let answer = self.pool.open_both();
        self.shared.note(&mut self.seat, &self.pool);
        answer
    }

    fn close_both(&mut self, account: Account, class_account: Account) {
        self.pool.close_both(account, class_account);
        self.shared.note(&mut self.seat, &self.pool);
    }

    fn purge(&mut self) -> u32 {
        let gone = self.pool.purge();
        self.shared.note(&mut self.seat, &self.pool);
        gone
    }
}
