//! The exports that return which granules ceased to be committed: what a program gives back to the
//! operating system.
//!
//! A program has a flag for each granule, or takes them by `nizgrabul_granules` before it unloads or
//! purges. The library finds each run of those that went.
ghost use Rattle.std.specs.Prelude.{◌≡◌, ◌≢◌, ◌↔◌, ◌⊎◌, None};
ghost use Rattle.ms_c.specs.Runs.{commits_of};
ghost use Rattle.ms_member.specs.Uncommitted.{is_uncommitted, IsNext};
ghost use Rattle.ms_c.specs.Calls.{FindsWent, IsAlone};

use crate::answer::{DONE, NO_SEAT, NOT_HELD};
use crate::holding::Handle;
use crate::seating::Seat;
use ms_loaders::{GranuleRun, System};
use ms_member::{NoGranules, next_run};
use std::alloc::Global;

/// Returns the first run of granules, from the granule `from` on, that were committed and are no
/// more: `was` has a flag for each granule from 0 on, whether it was committed, and granules past its
/// elements were not. `came` is 0, and a run of no granules says that there is none. Asked from 0
/// on after an unload or a purge, and then each time from the end of the run before, it returns
/// exactly the granules that a program gives back. With no system none is committed. Takes no
/// memory, and visits no granule past the run's end.
#[unsafe(no_mangle)]
pub extern "C" fn nizgrabul_next_uncommitted(
    alloc: Global,
    handle: &mut Handle,
    was: &[bool],
    from: u64,
) -> GranuleRun
    ensures run { IsNext (is_uncommitted was.now (commits_of handle.old.slot.held)) from result }
    ensures unchanged { handle.new.slot.held ≡ handle.old.slot.held }
{
    match handle.take(alloc) {
        None => next_run(&NoGranules, was, from),
        Some(system) => {
            let run = next_run_of(&system, was, from);
            handle.put(system);
            run
        }
    }
}

/// Returns the first run of granules, from one on, that were committed by their flags and are no
/// more in a system.
fn next_run_of(system: &System, was: &[bool], from: u64) -> GranuleRun
    ensures { IsNext (is_uncommitted was.now (commits_of (Some system.now))) from result }
{
    next_run(system, was, from)
}

/// Gives `out` the first run of granules, from the granule `from` on, that were committed and are no
/// more in the pool that the seat has, as `nizgrabul_next_uncommitted` does of a system. Returns DONE;
/// NOT_HELD exactly where the seat doesn't have the pool, and NO_SEAT, which leave `out` as it was.
/// Takes no memory.
#[unsafe(no_mangle)]
pub extern "C" fn nizgrabul_seat_next_uncommitted(
    alloc: Global,
    seat: &mut Seat,
    was: &[bool],
    from: u64,
    out: &mut GranuleRun,
) -> u32
    ensures run { result ≡ DONE → FindsWent seat.old.slot.held was.now from out.new }
    ensures not_held { result ≡ NOT_HELD → IsAlone seat.old.slot.held }
    ensures refused { result ≢ DONE → out.new ≡ out.old }
    ensures no_seat { (result ≡ NO_SEAT) ↔ (seat.old.slot.held ≡ None) }
    ensures statuses { (result ≡ DONE) ⊎ (result ≡ NOT_HELD) ⊎ (result ≡ NO_SEAT) }
    ensures unchanged { seat.new.slot.held ≡ seat.old.slot.held }
{
    let Some(member) = seat.take(alloc) else {
        return NO_SEAT;
    };
    let found = member.next_uncommitted(was, from);
    seat.put(member);
    match found {
        Some(run) => {
            *out = run;
            DONE
        }
        None => NOT_HELD,
    }
}
