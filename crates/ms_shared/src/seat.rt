//! A thread's right to call a pool behind a lock.
//!
//! A seat has a number and its own events, serves accounts, counts open ones and has tallies of
//! refusals, all of which contracts alone see. Kept true: it has both of its parts and one number,
//! and neither slot nor pool. Nothing here takes memory or waits.
ghost use Rattle.std.specs.Prelude.{◌≡◌, ◌∷◌, [], None};

use crate::lock_rule::LockView;
use atomic_table::Seat;
use ms_pool::Pool;
use std::marker::Model;

/// A thread's right to call a pool behind a lock. A seat that is dropped takes what it serves with
/// it, and its lock can't give the pool out again. This project's choice.
pub struct PoolSeat {
    pub(crate) seat: Seat<Option<Pool>, LockView>,
}

impl Drop for PoolSeat {
    /// Lets its parts go. Written out, so that crates above drop it by a call and see no part.
    fn drop(self) {
        let PoolSeat { seat: _ } = self;
    }
}

impl Model for PoolSeat {
    ghost use Rattle.ms_shared.specs.History.{IsOne};
    ghost use Rattle.ms_shared.specs.SeatView.{SeatState, seat_of};

    ghost Value = { SeatState };

    ghost use Rattle.std.specs.Prelude.{◌≡◌, [], None};

    ghost view = { λ seat. seat_of seat.seat.table_id seat.seat.me.0 };

    ghost invariant = { λ seat. (seat.seat.me.1 ≡ []) × (seat.seat.me.0.parts ≡ 2)
        × (seat.seat.me.0.taken ≡ None) × IsOne seat.seat.me.0.strands };
}

impl PoolSeat {
    /// Gives the seat of the table out.
    pub(crate) fn into_table_seat(self) -> Seat<Option<Pool>, LockView>
        ensures own { result.table_id ≡ self.id }
        ensures knows { result.me.0.knows ≡ self.knows }
        ensures strands { result.me.0.strands ≡ (self.number, self.events) ∷ [] }
        ensures parts { result.me.0.parts ≡ 2 }
        ensures free { result.me.0.taken ≡ None }
        ensures slots { result.me.1 ≡ [] }
    {
        let PoolSeat { seat } = self;
        seat
    }
}
