//! The exports that make a shared pool, split seats off and end them, and those that take the pool
//! for a seat and give it back.
ghost use Rattle.std.specs.Prelude.{◌≡◌, ◌≢◌, ◌↔◌, ◌⊎◌, None, IsSome};
ghost use Rattle.ms_member.specs.Member.{Holds, LetsGo, LacksPool};
ghost use Rattle.ms_c.specs.Calls.{IsShared, CannotShare, SplitsOff, HasNoSpare, Becomes};

use crate::answer::{BAD_SETTINGS, BUSY, DONE, IN_USE, NO_SEAT, NO_SPARE, NOT_HELD, OUT_OF_MEMORY};
use crate::options::{Options, settings_of};
use crate::seating::Seat;
use ms_member::Member;
use std::alloc::Global;

/// How many seats a pool has at most.
const MOST_SEATS: u32 = 65_536;

/// Makes a pool with no loader, under the settings that the options name, for so many seats, 1 to
/// 65536. `out` gets the first seat, which has all others to spare. Returns IN_USE exactly where
/// `out` has a seat already, where it has none BAD_SETTINGS exactly where an option or the number
/// of seats is out of its range, and else DONE or OUT_OF_MEMORY; all but DONE leave `out` as it
/// was. Takes memory.
#[unsafe(no_mangle)]
pub extern "C" fn nizgrabul_share(
    alloc: Global,
    options: &Options,
    seats: u32,
    out: &mut Seat,
) -> u32
    ensures made { result ≡ DONE → IsShared options.now seats out.old.slot.held out.new.slot.held }
    ensures refused { result ≢ DONE → out.new.slot.held ≡ out.old.slot.held }
    ensures in_use { (result ≡ IN_USE) ↔ IsSome out.old.slot.held }
    ensures bad_settings { (result ≡ BAD_SETTINGS)
        ↔ ((out.old.slot.held ≡ None) × CannotShare options.now seats) }
    ensures statuses { (result ≡ DONE) ⊎ (result ≡ OUT_OF_MEMORY)
        ⊎ (result ≡ IN_USE) ⊎ (result ≡ BAD_SETTINGS) }
{
    if let Some(member) = out.take(alloc) {
        out.put(member);
        return IN_USE;
    }
    if seats < 1 || seats > MOST_SEATS {
        return BAD_SETTINGS;
    }
    let Some(settings) = settings_of(options) else {
        return BAD_SETTINGS;
    };
    let Some(member) = Member::share(alloc, settings, seats as usize) else {
        return OUT_OF_MEMORY;
    };
    match Box::new(alloc, member) {
        Ok(member) => {
            out.put(member);
            DONE
        }
        Err(failed) => {
            drop(failed);
            OUT_OF_MEMORY
        }
    }
}

/// Gives `out` one of the seats that `seat` has to spare, for a loader of its own and for any
/// thread. Returns NO_SEAT exactly where `seat` has none, IN_USE where `out` has one already,
/// NO_SPARE where none is to spare, and else DONE or OUT_OF_MEMORY; all but DONE change nothing.
/// Takes memory.
#[unsafe(no_mangle)]
pub extern "C" fn nizgrabul_seat_split(alloc: Global, seat: &mut Seat, out: &mut Seat) -> u32
    ensures split { result ≡ DONE
        → SplitsOff seat.old.slot.held seat.new.slot.held out.old.slot.held out.new.slot.held }
    ensures refused { result ≢ DONE → seat.new.slot.held ≡ seat.old.slot.held }
    ensures refused_out { result ≢ DONE → out.new.slot.held ≡ out.old.slot.held }
    ensures no_seat { (result ≡ NO_SEAT) ↔ (seat.old.slot.held ≡ None) }
    ensures in_use { result ≡ IN_USE → IsSome out.old.slot.held }
    ensures no_spare { result ≡ NO_SPARE → HasNoSpare seat.old.slot.held }
    ensures statuses { (result ≡ DONE) ⊎ (result ≡ OUT_OF_MEMORY) ⊎ (result ≡ NO_SEAT)
        ⊎ (result ≡ IN_USE) ⊎ (result ≡ NO_SPARE) }
{
    let Some(mut member) = seat.take(alloc) else {
        return NO_SEAT;
    };
    if let Some(other) = out.take(alloc) {
        out.put(other);
        seat.put(member);
        return IN_USE;
    }
    let made = member.split(alloc);
    seat.put(member);
    match made {
        Ok(Some(other)) => {
            out.put(other);
            DONE
        }
        Ok(None) => NO_SPARE,
        Err(_) => OUT_OF_MEMORY,
    }
}

/// Ends a seat, if there is one, and gives the pool back where the seat has it; the last seat of a
/// pool ends the pool. Chunks of a loader that was not unloaded stay with the pool, and so do seats
/// to spare. The seat is empty then, and may be used anew. Takes no memory.
#[unsafe(no_mangle)]
pub extern "C" fn nizgrabul_seat_end(alloc: Global, seat: &mut Seat)
    ensures { seat.new.slot.held ≡ None }
{
    drop(seat.take(alloc));
}

/// Takes the pool for a seat, by one try, and keeps it until `nizgrabul_seat_let_go`. Returns BUSY
/// where another seat has the pool, which changes nothing; DONE where the seat has it then, also
/// where it had; and NO_SEAT. Takes no memory.
#[unsafe(no_mangle)]
pub extern "C" fn nizgrabul_seat_hold(alloc: Global, seat: &mut Seat) -> u32
    ensures held { result ≡ DONE → Becomes Holds seat.old.slot.held seat.new.slot.held }
    ensures busy { result ≡ BUSY → Becomes LacksPool seat.old.slot.held seat.new.slot.held }
    ensures refused { result ≢ DONE → seat.new.slot.held ≡ seat.old.slot.held }
    ensures no_seat { (result ≡ NO_SEAT) ↔ (seat.old.slot.held ≡ None) }
    ensures statuses { (result ≡ DONE) ⊎ (result ≡ BUSY) ⊎ (result ≡ NO_SEAT) }
{
    let Some(mut member) = seat.take(alloc) else {
        return NO_SEAT;
    };
    let has_pool = member.hold();
    seat.put(member);
    if has_pool { DONE } else { BUSY }
}

/// Gives the pool back that a seat has. Returns NOT_HELD where it doesn't have it, and NO_SEAT,
/// which change nothing, and else DONE. Takes no memory.
#[unsafe(no_mangle)]
pub extern "C" fn nizgrabul_seat_let_go(alloc: Global, seat: &mut Seat) -> u32
    ensures gone { result ≡ DONE → Becomes LetsGo seat.old.slot.held seat.new.slot.held }
    ensures not_held { result ≡ NOT_HELD → Becomes LacksPool seat.old.slot.held seat.new.slot.held }
    ensures refused { result ≢ DONE → seat.new.slot.held ≡ seat.old.slot.held }
    ensures no_seat { (result ≡ NO_SEAT) ↔ (seat.old.slot.held ≡ None) }
    ensures statuses { (result ≡ DONE) ⊎ (result ≡ NOT_HELD) ⊎ (result ≡ NO_SEAT) }
{
    let Some(mut member) = seat.take(alloc) else {
        return NO_SEAT;
    };
    let had_pool = member.let_go();
    seat.put(member);
    if had_pool { DONE } else { NOT_HELD }
}
