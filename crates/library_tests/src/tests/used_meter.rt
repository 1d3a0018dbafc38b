//! What no clause says: that calls find memory and threads, that `now` counts what others added,
//! and that what many threads add and take off is all there at the end. Everything else is in the
//! clauses.
ghost use Rattle.std.specs.Prelude.{◌≡◌, IfOk};
ghost use Rattle.std.specs.List.{All};

use super::same;
use ms_base::Refusal;
use ms_shared::{MeterSeat, UsedMeter};
use std::alloc::{AllocError, Global};
use std::thread;
use std::thread::Threads;

/// What one seat reads after both have added, and after the other has taken more off.
fn read_beside(meter: &UsedMeter, one: &mut MeterSeat, other: &mut MeterSeat) -> [u64; 2]
    requires own { one.old.id ≡ meter.now.id }
    requires other_own { other.old.id ≡ meter.now.id }
{
    meter.add(one, 5);
    meter.add(other, 7);
    let added = meter.now(one);
    meter.sub(other, 22);
    [added, meter.now(one)]
}

#[test]
fn now_counts_what_other_seats_added(rt: HostRuntime) {
    let (meter, mut seats) = UsedMeter::new(rt.alloc(), 2).expect(&rt, "memory is ample");
    let mut one = seats.pop().expect(&rt, "two seats were made");
    let mut other = seats.pop().expect(&rt, "two seats were made");
    let read = read_beside(&meter, &mut one, &mut other);
    drop(one);
    drop(other);
    drop(seats);
    drop(meter);
    same(&rt, &read, &[12, u64::MAX - 9]);
}

/// What two seats read once the second has taken ten words off that another meter's seat had added,
/// and what the meter comes to.
fn below_nothing(
    alloc: Global,
    meter: UsedMeter,
    mut one: MeterSeat,
    mut other: MeterSeat,
) -> Result<([u64; 2], Option<u64>), AllocError>
    requires own { one.id ≡ meter.id }
    requires other_own { other.id ≡ meter.id }
{
    meter.sub(&mut other, 10);
    let read = [meter.now(&mut one), meter.now(&mut other)];
    let both = vec![in alloc; one, other]?;
    Ok((read, meter.close(both).ok()))
}

/// Two workers share the meter of a phase in which only the second unloads.
#[test]
fn a_seat_that_takes_off_more_goes_round(rt: HostRuntime) {
    let (meter, mut seats) = UsedMeter::new(rt.alloc(), 2).expect(&rt, "memory is ample");
    let other = seats.pop().expect(&rt, "two seats were made");
    let one = seats.pop().expect(&rt, "two seats were made");
    drop(seats);
    let told = below_nothing(rt.alloc(), meter, one, other).expect(&rt, "memory is ample");
    let ten_off = 18_446_744_073_709_551_606;
    same(&rt, &told, &([ten_off, ten_off], Some(ten_off)));
}

/// Adds 5 words by one seat of two and 7 by the other, and closes the meter by one, then by both: why
/// the first is refused, how many seats it hands back, and what both come to.
fn closed_by_one(
    alloc: Global,
    meter: UsedMeter,
    mut one: MeterSeat,
    mut other: MeterSeat,
) -> Result<Option<(Refusal, usize, Option<u64>)>, AllocError>
    requires own { one.id ≡ meter.id }
    requires other_own { other.id ≡ meter.id }
{
    meter.add(&mut one, 5);
    meter.add(&mut other, 7);
    let alone = vec![in alloc; one]?;
    match meter.close(alone) {
        Ok(_words) => Ok(None),
        Err((refusal, meter, mut seats)) => {
            let back = seats.len();
            seats.push(other)?;
            Ok(Some((refusal, back, meter.close(seats).ok())))
        }
    }
}

#[test]
fn a_meter_is_closed_by_all_of_its_seats(rt: HostRuntime) {
    let (meter, mut seats) = UsedMeter::new(rt.alloc(), 2).expect(&rt, "memory is ample");
    let other = seats.pop().expect(&rt, "two seats were made");
    let one = seats.pop().expect(&rt, "two seats were made");
    drop(seats);
    let told = closed_by_one(rt.alloc(), meter, one, other).expect(&rt, "memory is ample");
    let (opened, gathered) = (2, 1);
    let refusal = Refusal::Unsettled { opened, gathered };
    same(&rt, &told, &Some((refusal, 1, Some(12))));
}

/// Adds 10,000 times and takes off 10,000 times, 3 words more than it took off in all.
fn add_and_take_off(meter: &UsedMeter, mut seat: MeterSeat) -> MeterSeat
    requires { seat.id ≡ meter.now.id }
    ensures { result.id ≡ seat.id }
{
    for words in 0..10_000 {
        meter.add(&mut seat, words);
        meter.sub(&mut seat, words);
    }
    meter.add(&mut seat, 3);
    seat
}

/// Has each seat in a thread of its own.
fn in_threads<R: Threads + Sync>(
    rt: &R,
    meter: &UsedMeter,
    seats: Vec<MeterSeat>,
) -> Result<Vec<MeterSeat>, AllocError>
    requires { All (λ seat. seat.id ≡ meter.now.id) seats.items }
    ensures { IfOk result (λ done. All (λ seat. seat.id ≡ meter.now.id) done.items) }
{
    thread::map_vec(
        rt,
        seats,
        &|seat: MeterSeat| -> MeterSeat
            requires { seat.id ≡ meter.now.id }
            ensures { result.id ≡ seat.id }
        { add_and_take_off(meter, seat) },
    )
}

#[test]
fn eight_threads_lose_no_add(rt: HostRuntime) {
    let (meter, seats) = UsedMeter::new(rt.alloc(), 8).expect(&rt, "memory is ample");
    let seats = in_threads(&rt, &meter, seats).expect(&rt, "memory is ample");
    let words = meter.close(seats).ok();
    same(&rt, &words, &Some(24));
}
