//! A seat of a shared pool, and the class loader that it serves: what a thread owns that runs one.
//!
//!     hold ──> seat and pool ──> calls that need the pool ──> let_go ──> seat alone
//!
//! Kept true: there is one seat, of the pool's lock, with the pool or without; it serves both
//! accounts of the loader, where there is one, with names for its blocks or without; seats to spare
//! are of the same lock. So a loader is where its seat is, and goes with it from thread to thread.
//! Nothing here waits: `hold` tries once. `share` and `split` take memory, and an allocation does.
ghost use Rattle.std.specs.Prelude.{◌≡◌, IsTrue, IsFalse, IfSome, IfNone, None, length, map};
ghost use Rattle.std.specs.List.{All, range_with_len};
ghost use Rattle.std.specs.Arc.{arc_value};
ghost use Rattle.ms_member.specs.Member.{free_seat, Holds, LetsGo, LacksPool, TellsPool, granule_at};
ghost use Rattle.ms_member.specs.Taking.{used_of_them, AreTheirSums, KnowsNoBlocks};
ghost use Rattle.ms_member.specs.Member.{FindsRun};

mod arenas;
mod bare;
mod hosted;
mod loading;
mod sharing;
mod taking;

use crate::granules::next_run;
use hosted::{Hosted, hosted_totals, words_used};
use ms_loader::Loader;
use ms_loaders::{GranuleRun, LoaderTotals};
use ms_shared::{HeldSeat, PoolSeat, SharedPool};
use std::alloc::Global;
use std::marker::Model;
use std::sync::Arc;

/// A seat of a shared pool with its loader.
pub struct Member {
    // The pool behind its lock, which all its members share.
    shared: Arc<SharedPool, Global>,
    // The seat, while it doesn't have the pool.
    seat: Option<PoolSeat>,
    // The seat with the pool, while it has that.
    held: Option<HeldSeat>,
    // Seats that become members of their own.
    spare: Vec<PoolSeat>,
    // The loader.
    loader: Option<Loader>,
    // The arenas of a loader without names, in its place.
    arenas: Option<Hosted>,
}

impl Drop for Member {
    /// Gives the pool back where the seat has it, and lets the parts go.
    fn drop(self) {
        let Member {
            shared,
            seat: _,
            held,
            spare: _,
            loader: _,
            arenas: _,
        } = self;
        if let Some(held) = held {
            drop(shared.resume(held).let_go());
        }
    }
}

impl Model for Member {
    ghost use Rattle.ms_member.specs.Member.{MemberState};

    ghost Value = { MemberState };

    ghost use Rattle.std.specs.Prelude.{◌≡◌};
    ghost use Rattle.std.specs.List.{All};
    ghost use Rattle.std.specs.Arc.{arc_value};
    ghost use Rattle.ms_member.specs.Member.{IsSeated, HostsArenas};

    ghost view = { λ member. record {
      seat = member.seat;
      held = member.held;
      spare = member.spare.items;
      loader = member.loader;
      arenas = member.arenas;
    } };

    ghost invariant = { λ member.
        IsSeated (arc_value member.shared) member.seat member.held member.loader
        × HostsArenas member.arenas member.seat member.held member.loader
        × All (λ seat. seat.id ≡ (arc_value member.shared).id) member.spare.items };
}

impl Member {
    /// Makes a member without a loader. Takes no memory.
    fn new(shared: Arc<SharedPool, Global>, seat: PoolSeat, spare: Vec<PoolSeat>) -> Member
        requires own { seat.id ≡ (arc_value shared).id }
        requires spare_own { All (λ one. one.id ≡ (arc_value shared).id) spare.items }
        ensures { result ≡ free_seat seat spare.items }
    {
        Member {
            shared,
            seat: Some(seat),
            held: None,
            spare,
            loader: None,
            arenas: None,
        }
    }

    /// Gives the seat back of a member that doesn't have the pool, and drops all else.
    fn into_seat(self) -> Option<PoolSeat>
        ensures { result ≡ self.seat }
    {
        let Member {
            shared: _,
            seat,
            held: _,
            spare: _,
            loader: _,
            arenas: _,
        } = self;
        seat
    }

    /// Takes the pool, by one try, and returns whether the seat has it then. Where another seat has
    /// the pool nothing changes. Takes no memory, and does not wait.
    pub fn hold(&mut self) -> bool
        ensures held { IsTrue result → Holds self.old self.new }
        ensures busy { IsFalse result → LacksPool self.old self.new }
    {
        let Some(seat) = self.seat.take() else {
            return true;
        };
        match self.shared.try_hold(seat) {
            Ok(pool) => {
                self.held = Some(pool.pause());
                true
            }
            Err(seat) => {
                self.seat = Some(seat);
                false
            }
        }
    }

    /// Gives the pool back, and returns whether the seat had it. Takes no memory, and does not
    /// wait.
    pub fn let_go(&mut self) -> bool
        ensures gone { IsTrue result → LetsGo self.old self.new }
        ensures lacks { IsFalse result → LacksPool self.old self.new }
    {
        let Some(held) = self.held.take() else {
            return false;
        };
        self.seat = Some(self.shared.resume(held).let_go());
        true
    }

    /// Returns the words in use of the loader, with names or without, in both spaces, and 0 where
    /// there is none. Takes no memory, and visits no chunk.
    pub fn used(&self) -> u64
        ensures { result ≡ used_of_them self.now.arenas self.now.loader }
    {
        if let Some(arenas) = &self.arenas {
            return words_used(arenas);
        }
        match &self.loader {
            Some(loader) => loader.used(),
            None => 0,
        }
    }

    /// Returns the kind of the loader, with names or without, and the sums over each of its arenas,
    /// where there is one that knows its blocks. Takes no memory, visits each of its chunks once, and
    /// no block.
    pub fn totals(&self) -> Option<LoaderTotals>
        ensures sums { IfSome result (AreTheirSums self.now.arenas self.now) }
        ensures none { IfNone result (KnowsNoBlocks self.now) }
    {
        if let Some(arenas) = &self.arenas {
            return hosted_totals(arenas);
        }
        let Some(loader) = &self.loader else {
            return None;
        };
        let (space, class_space) = loader.totals();
        Some(LoaderTotals {
            kind: loader.kind(),
            space,
            class_space,
        })
    }

    /// Writes of each granule from the first on whether it is committed in the pool, where the seat
    /// has that, and returns whether it has. Takes no memory.
    pub fn put_granules(&self, first: u32, out: &mut [bool]) -> bool
        ensures told { IsTrue result → TellsPool self.now first (length out.old) out.new }
        ensures lacks { IsFalse result → self.now.held ≡ None }
        ensures unchanged { IsFalse result → out.new ≡ out.old }
    {
        match &self.held {
            Some(held) => {
                write_granules(held, first, out);
                true
            }
            None => false,
        }
    }

    /// Returns the first run, from a granule on, of those that were committed by their flags and are
    /// no more in the pool, where the seat has that. Takes no memory.
    pub fn next_uncommitted(&self, was: &[bool], from: u64) -> Option<GranuleRun>
        ensures found { IfSome result (FindsRun self.now was.now from) }
        ensures lacks { IfNone result (self.now.held ≡ None) }
    {
        match &self.held {
            Some(held) => Some(next_run(held, was, from)),
            None => None,
        }
    }
}

/// Writes of each granule from the first on whether it is committed.
fn write_granules(held: &HeldSeat, first: u32, out: &mut [bool])
    ensures { out.new ≡ map (granule_at held.now.pool first) (range_with_len 0 (length out.old)) }
{
    for index in 0..out.len() {
        out[index] = held.is_committed(u64::from(first) + index as u64);
    }
}
