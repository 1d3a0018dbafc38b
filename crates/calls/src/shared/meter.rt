//! The rows of a meter: it is made; its seats add words and take words off, and it is closed.
ghost use Rattle.std.specs.Prelude.{◌≡◌, IfSome};
ghost use Rattle.std.specs.List.{All};

use crate::row::{Answer, Row, line, mark, say, served, tell, unprepared};
use crate::shared::SEATS;
use ms_base::Refusal;
use ms_shared::{MeterSeat, UsedMeter};
use std::alloc::Global;
use std::io;

/// Prints the row.
pub(crate) fn tell_all(rt: &HostRuntime) -> io::Result<()> {
    let mut both = Vec::with_capacity(rt.alloc(), 2)?;
    let (meter, mut seats) = UsedMeter::new(rt.alloc(), 2)?;
    let Some(mut other) = seats.pop() else {
        return Err(unprepared());
    };
    let Some(mut one) = seats.pop() else {
        return Err(unprepared());
    };
    mark(rt, "counter");
    meter.add(&mut one, 5);
    meter.add(&mut other, 7);
    meter.sub(&mut other, 10);
    line(
        rt,
        "counter now",
        &(meter.now(&mut one), meter.now(&mut other)),
    );
    match tell_refused(rt, meter, seats) {
        Some(meter) => {
            both.push_reserved(one);
            both.push_reserved(other);
            let closed = meter.close(both);
            tell_closed(rt, &closed);
            drop(closed);
        }
        None => line(rt, "counter closed", &"without its seats"),
    }
    Ok(())
}

/// Closes the meter without its seats: it comes back.
fn tell_refused(rt: &HostRuntime, meter: UsedMeter, none: Vec<MeterSeat>) -> Option<UsedMeter>
    requires { All (λ seat. seat.id ≡ meter.id) none.items }
    ensures { IfSome result (λ back. back.id ≡ meter.id) }
{
    match meter.close(none) {
        Ok(_) => None,
        Err((refusal, meter, _none)) => {
            line(rt, "counter refused", &refusal);
            Some(meter)
        }
    }
}

/// Prints the sum of a meter that is closed.
fn tell_closed(rt: &HostRuntime, closed: &Result<u64, (Refusal, UsedMeter, Vec<MeterSeat>)>) {
    match closed {
        Ok(words) => line(rt, "counter sum", words),
        Err((refusal, _, _)) => line(rt, "counter refused", refusal),
    }
}

/// A meter that is to be made.
#[derive(Drop)]
pub(crate) struct Metering {
    alloc: Global,
    made: Option<(UsedMeter, Vec<MeterSeat>)>,
}

impl Metering {
    /// Prepares nothing.
    pub(crate) fn prepared(alloc: Global) -> io::Result<Metering> {
        Ok(Metering { alloc, made: None })
    }
}

impl Row for Metering {
    fn tell_state(&mut self, rt: &HostRuntime) -> io::Result<()> {
        match &self.made {
            Some((_, seats)) => tell(rt, &seats.len()),
            None => say(rt, "no meter"),
        }
        Ok(())
    }

    fn call(&mut self, rt: &HostRuntime) -> Answer {
        match UsedMeter::new(self.alloc, SEATS) {
            Ok(made) => {
                self.made = Some(made);
                served(rt)
            }
            Err(_) => Answer::Refused,
        }
    }
}
