//! A pool that threads share behind a lock, each by a seat of its own.
//!
//!      first seat          lock             second seat
//!     serves 1, 3       +---------+       serves 2
//!     counts 2  ------> |  pool   | <---  counts 1
//!                       +---------+
//!
//! A call takes the pool out of its slot, calls it and puts it back. Kept true whenever the lock
//! is free: each owner number given out is served by one seat, whose record of it is the pool's,
//! and the pool's open accounts and tallies are the sums of the seats'. `new` takes memory.
//! `try_hold` tries the lock's word once, a `LockedPool` again until it has the pool. This project's
//! choice; HotSpot has Metaspace_lock.
ghost use Rattle.std.specs.Prelude.{◌≡◌, ◌<◌, ◌≤◌, ◌↔◌, ◌∷◌, [], Some, None, IsOk, IfOk, IfErr, vec_len, length};
ghost use Rattle.std.specs.Prelude.{IfSome, IfNone};
ghost use Rattle.std.specs.List.{All};
ghost use Rattle.ms_shared.specs.SeatView.{IsKnown, Gathers, IsHistory, ServesBy, HandsOn, opened_by, new_seats};
ghost use Rattle.ms_shared.specs.SeatView.{without_account, with_account};
ghost use Rattle.ms_shared.specs.LockRule.{Moves, IsWhole, after, with_pool, taken_of, both, view_without, note_of};
ghost use Rattle.ms_shared.specs.LockRule.{less_part, spare_part, noted, without_pool};

use crate::lock_rule::{
    CutAccount, CutPart, CutSeats, Holding, JoinViews, LetsGo, LockKey, LockView, Locked, Notes,
    Owner, PutsBack, Tries,
};
use crate::seat::PoolSeat;
use atomic_table::{Refused, Seat, Table};
use ms_base::Refusal;
use ms_pool::{Account, Pool};
use std::alloc::Global;
use std::marker::{Brand, Model};
use std::snapshot::Snapshot;
use std::sync::Wait;
use std::thread;

/// A pool behind a lock. This project's choice.
pub struct SharedPool {
    table: Table<Option<Pool>, LockView, LockKey, Locked, Global>,
    made: usize,
}

impl Drop for SharedPool {
    /// Lets its parts go. Written out, so that crates above drop it by a call and see no part.
    fn drop(self) {
        let SharedPool { table: _, made: _ } = self;
    }
}

impl Model for SharedPool {
    ghost use Rattle.ms_shared.specs.SeatView.{LockState};

    ghost Value = { LockState };

    ghost use Rattle.std.specs.Prelude.{◌≡◌, ◌≤◌};

    ghost view = { λ lock. record {
      id = lock.table.shared.table_id;
      seats = lock.made;
      first = lock.table.shared.key.pool.value;
    } };

    ghost invariant = { λ lock. (lock.table.shared.key.made ≡ lock.made)
        × (lock.table.shared.table_id.words ≡ 1) × (lock.table.shared.table_id.slots ≡ 1)
        × (1 ≤ lock.made) };
}

impl SharedPool {
    /// Puts a pool behind a lock and makes its seats, 1 to 65536 of them, numbered from 0 on and with
    /// no event. The first serves every owner number that was given out, counts all open accounts
    /// and has the pool's tallies; the others have nothing. Takes memory; where that is refused the
    /// pool is handed back. This project's choice.
    pub fn new(
        alloc: Global,
        pool: Pool,
        seats: usize,
    ) -> Result<(SharedPool, Vec<PoolSeat>), (Refusal, Pool)>
        requires some { 1 ≤ seats }
        requires few { seats ≤ 65536 }
        ensures lock { IfOk result (λ made. made.0.seats ≡ seats) }
        ensures first { IfOk result (λ made. made.0.first ≡ pool) }
        ensures seats { IfOk result (λ made. made.1.items ≡ new_seats made.0.id seats pool) }
        ensures out_of_memory { IfErr result (λ refused. refused.0 ≡ Refusal.OutOfMemory) }
        ensures handed_back { IfErr result (λ refused. refused.1 ≡ pool) }
    {
        let (Ok(mut given), Ok(mut slots)) = (
            Vec::with_capacity(alloc, seats),
            Vec::with_capacity(alloc, 1),
        ) else {
            return Err((Refusal::OutOfMemory, pool));
        };
        // What holds of every pool's tallies is learnt here.
        let _ = pool.committed();
        let key = LockKey {
            made: seats,
            pool: Snapshot::of(&pool),
        };
        slots.push_reserved(Some(pool));
        match Table::new(alloc, &[0], slots, &key) {
            Ok((table, mut rest)) => {
                for _ in 1..seats {
                    let next = table.shared.split_seat::<CutSeats>(&mut rest);
                    given.push_reserved(PoolSeat { seat: rest });
                    rest = next;
                }
                given.push_reserved(PoolSeat { seat: rest });
                Ok((SharedPool { table, made: seats }, given))
            }
            Err(Refused { mut slots }) => match slots.pop() {
                Some(Some(pool)) => Err((Refusal::OutOfMemory, pool)),
                _ => unreachable!(),
            },
        }
    }

    /// Gives the pool out, once all seats are given back: it serves what the seats served, each
    /// owner by one of them, counts what they counted, and has the same limits. It is what the one
    /// history of the seats' events makes of the lock's first pool. Refused with
    /// `Unsettled`, the numbers of seats made and given, exactly where not all seats are given;
    /// then all is handed back as it was. Takes no memory and does not wait. This project's
    /// choice.
    pub fn into_pool(
        self,
        seats: Vec<PoolSeat>,
    ) -> Result<Pool, (Refusal, SharedPool, Vec<PoolSeat>)>
        requires { All (λ seat. seat.id ≡ self.id) seats.items }
        ensures all { IsOk result ↔ (vec_len seats ≡ self.seats) }
        ensures limits { IfOk result (λ pool. pool.limits ≡ self.first.limits) }
        ensures gathered { IfOk result (λ pool. Gathers seats.items pool) }
        ensures history { IfOk result (λ pool. IsHistory self.first seats.items pool) }
        ensures unsettled { IfErr result
            (λ refused. refused.0 ≡ Refusal.Unsettled self.seats (vec_len seats)) }
        ensures lock { IfErr result (λ refused. refused.1 ≡ self) }
        ensures seats { IfErr result (λ refused. refused.2.items ≡ seats.items) }
    {
        if self.made != seats.len() {
            let refusal = Refusal::Unsettled {
                opened: self.made as u64,
                gathered: seats.len() as u64,
            };
            return Err((refusal, self, seats));
        }
        let SharedPool { table, made: _ } = self;
        Ok(gathered(table, seats))
    }

    /// Hands an account on from one seat to another, with one of the count of its space: from then
    /// on the other seat serves it. Takes no memory, and does not wait. This project's choice.
    pub fn hand(&self, from: &mut PoolSeat, to: &mut PoolSeat, account: &Account)
        requires own { from.old.id ≡ self.now.id }
        requires to_own { to.old.id ≡ self.now.id }
        requires served { ServesBy from.old.knows account.now }
        requires counted { 0 < opened_by from.old.knows account.now.space }
        ensures from { from.new ≡ record from.old {
          knows = without_account account.now.owner account.now.space from.old.knows;
        } }
        ensures to { to.new ≡ record to.old {
          knows = with_account account.now.owner account.now.space from.old.knows to.old.knows;
        } }
        ensures handed { HandsOn from.old.knows to.old.knows account.now from.new.knows to.new.knows }
    {
        self.pass::<Brand>(&mut from.seat, &mut to.seat, account);
    }

    /// Moves an account from one seat to another as a note of one part, and a part back.
    fn pass<B: Owner>(
        &self,
        from: &mut Seat<Option<Pool>, LockView>,
        to: &mut Seat<Option<Pool>, LockView>,
        _account: &Account,
    )
        requires from { IsWhole self.now.id from.old.table_id from.old.me }
        requires to { IsWhole self.now.id to.old.table_id to.old.me }
        requires counted { 0 < opened_by from.old.me.0.knows B.space }
        ensures from_own { from.new.table_id ≡ from.old.table_id }
        ensures from { from.new.me
            ≡ (both (view_without B.owner B.space from.old.me.0) (spare_part to.old.me.0), []) }
        ensures to_own { to.new.table_id ≡ to.old.table_id }
        ensures to { to.new.me
            ≡ (less_part (both to.old.me.0 (note_of B.owner B.space from.old.me.0)), []) }
    {
        let shared = &self.table.shared;
        let note = shared.split_seat::<CutAccount<B>>(from);
        shared.join_seat::<JoinViews>(to, note);
        let part = shared.split_seat::<CutPart>(to);
        shared.join_seat::<JoinViews>(from, part);
    }

    /// Takes the pool where no other seat has it; else answers `None`, and nothing changes. Tries
    /// once, and does not wait.
    pub(crate) fn try_seize(&self, seat: &mut Seat<Option<Pool>, LockView>) -> Option<Pool>
        requires own { seat.old.table_id ≡ self.now.id }
        requires slots { seat.old.me.1 ≡ [] }
        requires live { 0 < seat.old.me.0.parts }
        requires free { seat.old.me.0.taken ≡ None }
        ensures own { seat.new.table_id ≡ seat.old.table_id }
        ensures seat { IfSome result (λ pool. seat.new.me ≡ (with_pool seat.old.me.0 pool, (0, None) ∷ [])) }
        ensures known { IfSome result (λ pool. IsKnown pool seat.old.me.0.knows) }
        ensures busy { IfNone result (seat.new.me ≡ seat.old.me) }
    {
        let shared = &self.table.shared;
        if shared.compare_exchange::<Tries>(seat, 0, 0, 1) == 0 {
            let pool = shared.exchange(seat, 0, None).unwrap();
            Some(pool)
        } else {
            None
        }
    }

    /// Takes the pool, once no other seat has it. Tries again until it has the pool.
    pub(crate) fn seize<R: Wait>(&self, rt: &R, seat: &mut Seat<Option<Pool>, LockView>) -> Pool
        requires own { seat.old.table_id ≡ self.now.id }
        requires slots { seat.old.me.1 ≡ [] }
        requires live { 0 < seat.old.me.0.parts }
        requires free { seat.old.me.0.taken ≡ None }
        ensures own { seat.new.table_id ≡ seat.old.table_id }
        ensures seat { seat.new.me ≡ (with_pool seat.old.me.0 result, (0, None) ∷ []) }
        ensures known { IsKnown result seat.old.me.0.knows }
    {
        for _ in rt.forever() {
            if let Some(pool) = self.try_seize(seat) {
                return pool;
            }
            thread::yield_now();
        }
        unreachable!()
    }

    /// Puts the pool back. Does not wait.
    pub(crate) fn let_go(&self, seat: &mut Seat<Option<Pool>, LockView>, pool: Pool)
        requires own { seat.old.table_id ≡ self.now.id }
        requires live { 0 < seat.old.me.0.parts }
        requires numbered { 0 < length seat.old.me.0.strands }
        requires slots { seat.old.me.1 ≡ (0, None) ∷ [] }
        requires has { seat.old.me.0.taken ≡ Some (taken_of seat.old.me.0) }
        requires moves { Moves seat.old.me.0.knows (taken_of seat.old.me.0) pool }
        ensures own { seat.new.table_id ≡ seat.old.table_id }
        ensures seat { seat.new.me ≡ (after seat.old.me.0 (taken_of seat.old.me.0) pool, []) }
    {
        let shared = &self.table.shared;
        drop(shared.exchange(seat, 0, Some(pool)));
        shared.store::<LetsGo>(seat, 0, 0);
    }

    /// Notes a call on the pool that the seat has as an event. Does not wait.
    pub(crate) fn note(&self, seat: &mut Seat<Option<Pool>, LockView>, pool: &Pool)
        requires own { seat.old.table_id ≡ self.now.id }
        requires live { 0 < seat.old.me.0.parts }
        requires numbered { 0 < length seat.old.me.0.strands }
        requires has { seat.old.me.0.taken ≡ Some (taken_of seat.old.me.0) }
        requires moves { Moves seat.old.me.0.knows (taken_of seat.old.me.0) pool.now }
        ensures own { seat.new.table_id ≡ seat.old.table_id }
        ensures seat { seat.new.me ≡ (noted seat.old.me.0 pool.now, seat.old.me.1) }
        ensures known { IsKnown (taken_of seat.old.me.0) seat.old.me.0.knows
            → IsKnown pool.now seat.new.me.0.knows }
    {
        self.note_named::<Brand>(seat, pool);
    }

    /// Notes a call, by a look at the lock's word, whose pool the proof names.
    fn note_named<B: Holding>(&self, seat: &mut Seat<Option<Pool>, LockView>, _pool: &Pool)
        requires own { seat.old.table_id ≡ self.now.id }
        requires live { 0 < seat.old.me.0.parts }
        requires numbered { 0 < length seat.old.me.0.strands }
        requires has { seat.old.me.0.taken ≡ Some (taken_of seat.old.me.0) }
        requires moves { Moves seat.old.me.0.knows (taken_of seat.old.me.0) B.pool }
        ensures own { seat.new.table_id ≡ seat.old.table_id }
        ensures seat { seat.new.me ≡ (noted seat.old.me.0 B.pool, seat.old.me.1) }
    {
        let _ = self.table.shared.load::<Notes<B>>(seat, 0);
    }

    /// Puts a pool back as it was taken or last noted. Does not wait.
    pub(crate) fn put_back(&self, seat: &mut Seat<Option<Pool>, LockView>, pool: Pool)
        requires own { seat.old.table_id ≡ self.now.id }
        requires live { 0 < seat.old.me.0.parts }
        requires slots { seat.old.me.1 ≡ (0, None) ∷ [] }
        requires has { seat.old.me.0.taken ≡ Some pool }
        ensures own { seat.new.table_id ≡ seat.old.table_id }
        ensures seat { seat.new.me ≡ (without_pool seat.old.me.0, []) }
    {
        let shared = &self.table.shared;
        let _ = shared.exchange(seat, 0, Some(pool));
        shared.store::<PutsBack>(seat, 0, 0);
    }
}

/// Returns the pool, once all seats have become one.
fn gathered(
    table: Table<Option<Pool>, LockView, LockKey, Locked, Global>,
    mut seats: Vec<PoolSeat>,
) -> Pool
    requires made { table.shared.key.made ≡ vec_len seats }
    requires words { table.shared.table_id.words ≡ 1 }
    requires slots { table.shared.table_id.slots ≡ 1 }
    requires some { 1 ≤ vec_len seats }
    requires own { All (λ seat. seat.id ≡ table.shared.table_id) seats.items }
    ensures limits { result.limits ≡ table.shared.key.pool.value.limits }
    ensures gathered { Gathers seats.items result }
    ensures history { IsHistory table.shared.key.pool.value seats.items result }
{
    let Some(first) = seats.pop() else {
        unreachable!()
    };
    let mut whole = first.into_table_seat();
    while let Some(seat) = seats.pop() {
        table
            .shared
            .join_seat::<JoinViews>(&mut whole, seat.into_table_seat());
    }
    let mut closed = table.close_with(whole);
    let slot = closed.take(0);
    closed.free();
    slot.unwrap()
}
