//! The exports that return what a seat and its loader have, and change nothing.
ghost use Rattle.std.specs.Prelude.{◌≡◌, ◌≢◌, ◌↔◌, ◌⊎◌, None, IfSome, length};
ghost use Rattle.ms_member.specs.Taking.{used_of_them};
ghost use Rattle.ms_c.specs.Calls.{TellsGranules, IsAlone, TellsIts, HasNone};

use crate::answer::{DONE, NO_LOADER, NO_SEAT, NOT_HELD};
use crate::seating::Seat;
use crate::totals::{LoaderSums, loader_sums};
use std::alloc::Global;

/// Returns the words in use of the seat's loader, with numbers for its blocks or without, in both
/// spaces, and 0 where there is none. Takes no memory.
#[unsafe(no_mangle)]
pub extern "C" fn nizgrabul_seat_used(alloc: Global, seat: &mut Seat) -> u64
    ensures words { IfSome seat.old.slot.held
        (λ member. result ≡ used_of_them member.arenas member.loader) }
    ensures no_seat { seat.old.slot.held ≡ None → result ≡ 0 }
    ensures unchanged { seat.new.slot.held ≡ seat.old.slot.held }
{
    match seat.take(alloc) {
        None => 0,
        Some(member) => {
            let words = member.used();
            seat.put(member);
            words
        }
    }
}

/// Writes to `out` of each granule from `first` on, as many as it has elements, whether it is
/// committed in the pool that the seat has. Returns DONE; NOT_HELD exactly where the seat doesn't
/// have the pool, and NO_SEAT, which leave `out` as it was. Takes no memory.
#[unsafe(no_mangle)]
pub extern "C" fn nizgrabul_seat_granules(
    alloc: Global,
    seat: &mut Seat,
    first: u32,
    out: &mut [bool],
) -> u32
    ensures told { result ≡ DONE
        → TellsGranules seat.old.slot.held first (length out.old) out.new }
    ensures not_held { result ≡ NOT_HELD → IsAlone seat.old.slot.held }
    ensures refused { result ≢ DONE → out.new ≡ out.old }
    ensures no_seat { (result ≡ NO_SEAT) ↔ (seat.old.slot.held ≡ None) }
    ensures statuses { (result ≡ DONE) ⊎ (result ≡ NOT_HELD) ⊎ (result ≡ NO_SEAT) }
    ensures unchanged { seat.new.slot.held ≡ seat.old.slot.held }
{
    let Some(member) = seat.take(alloc) else {
        return NO_SEAT;
    };
    let has_told = member.put_granules(first, out);
    seat.put(member);
    if has_told { DONE } else { NOT_HELD }
}

/// Writes the sums of the seat's loader, with numbers for its blocks or without, to `out`. Returns
/// DONE, NO_SEAT, or NO_LOADER where there is none, or a bare one; all but DONE leave `out` as it
/// was. Takes no memory; visits each chunk of the loader, and no block.
#[unsafe(no_mangle)]
pub extern "C" fn nizgrabul_seat_totals(alloc: Global, seat: &mut Seat, out: &mut LoaderSums) -> u32
    ensures totals { result ≡ DONE → TellsIts seat.old.slot.held out.new }
    ensures no_loader { result ≡ NO_LOADER → HasNone seat.old.slot.held }
    ensures no_seat { (result ≡ NO_SEAT) ↔ (seat.old.slot.held ≡ None) }
    ensures statuses { (result ≡ DONE) ⊎ (result ≡ NO_LOADER) ⊎ (result ≡ NO_SEAT) }
    ensures refused { result ≢ DONE → out.new ≡ out.old }
    ensures unchanged { seat.new.slot.held ≡ seat.old.slot.held }
{
    let Some(member) = seat.take(alloc) else {
        return NO_SEAT;
    };
    let totals = member.totals();
    seat.put(member);
    match totals {
        Some(totals) => {
            *out = loader_sums(totals);
            DONE
        }
        None => NO_LOADER,
    }
}
