//! A meter of used words that threads add to and take from, each by a seat of its own.
//!
//! The meter is one word of memory, and a seat's amount, which contracts alone see, is what the
//! seat added less what it took off. Kept true: the word is the sum of the amounts, modulo 2^64,
//! between any two steps. So no add is lost, whoever else adds. Each of `add`, `sub` and `now` is
//! one atomic step, by the seat's count of its steps, so that no other seat meets half an add. Only
//! `new` takes memory, and nothing takes a lock or waits.
//! This project's choice; HotSpot's runningCounters.cpp has such a word.
ghost use Rattle.std.specs.Prelude.{◌≡◌, ◌%◌, ◌^◌, ◌<◌, ◌≤◌, ◌↔◌, IsOk, IfOk, IfErr};
ghost use Rattle.std.specs.Prelude.{vec_len, replicate, []};
ghost use Rattle.std.specs.List.{All, sum_by};
ghost use Rattle.ms_shared.specs.MeterRule.{added, taken_off, meter_view, new_seat, after_step};

use crate::meter_rule::{AddsAmount, CutSeat, JoinSeats, Looks, MeterView, Metered, Subtracts};
use atomic_table::{Seat, Table};
use ms_base::Refusal;
use std::alloc::{AllocError, Global};
use std::marker::Model;

/// A count of used words that threads share. This project's choice.
pub struct UsedMeter {
    table: Table<u8, MeterView, usize, Metered, Global>,
    made: usize,
}

impl Drop for UsedMeter {
    /// Lets its parts go. Written out, so that crates above drop it by a call and see no part.
    fn drop(self) {
        let UsedMeter { table: _, made: _ } = self;
    }
}

impl Model for UsedMeter {
    ghost use Rattle.ms_shared.specs.MeterRule.{MeterState};

    ghost Value = { MeterState };

    ghost use Rattle.std.specs.Prelude.{◌≡◌, ◌≤◌};

    ghost view = { λ meter. record { id = meter.table.shared.table_id; seats = meter.made } };

    ghost invariant = { λ meter. (meter.table.shared.key ≡ meter.made)
        × (meter.table.shared.table_id.words ≡ 1) × (meter.table.shared.table_id.slots ≡ 0)
        × (1 ≤ meter.made) };
}

/// A thread's right to add to a meter and to take from it, with an amount of its own. A seat that
/// is dropped leaves its amount in the word, and its meter can't be closed. This project's choice.
pub struct MeterSeat {
    seat: Seat<u8, MeterView>,
}

impl Drop for MeterSeat {
    /// Lets its parts go. Written out, so that crates above drop it by a call and see no part.
    fn drop(self) {
        let MeterSeat { seat: _ } = self;
    }
}

impl Model for MeterSeat {
    ghost use Rattle.ms_shared.specs.MeterRule.{MeterSeatState};

    ghost Value = { MeterSeatState };

    ghost use Rattle.std.specs.Prelude.{◌≡◌, []};

    ghost view = { λ seat. record {
      id = seat.seat.table_id;
      amount = seat.seat.me.0.amount;
      steps = seat.seat.me.0.steps;
    } };

    ghost invariant = { λ seat. (seat.seat.me.1 ≡ []) × (seat.seat.me.0.parts ≡ 1) };
}

impl UsedMeter {
    /// Makes a meter at 0 words and its seats, 1 to 8 of them, each with amount 0. Takes memory,
    /// and fails only where that is refused. This project's choice.
    pub fn new(alloc: Global, seats: usize) -> Result<(UsedMeter, Vec<MeterSeat>), AllocError>
        requires some { 1 ≤ seats }
        requires few { seats ≤ 8 }
        ensures meter { IfOk result (λ made. made.0.seats ≡ seats) }
        ensures seats { IfOk result
            (λ made. made.1.items ≡ replicate seats (new_seat made.0)) }
    {
        let mut given = Vec::with_capacity(alloc, seats)?;
        let (table, mut rest) = Table::of_words(alloc, &[0], &seats)?;
        for _ in 1..seats {
            let seat = table.shared.split_seat::<CutSeat>(&mut rest);
            given.push_reserved(MeterSeat { seat });
        }
        given.push_reserved(MeterSeat { seat: rest });
        let meter = UsedMeter { table, made: seats };
        Ok((meter, given))
    }

    /// Adds words to the meter and to the seat's amount, modulo 2^64, by one atomic step. Takes no
    /// memory and no lock. This project's choice.
    pub fn add(&self, seat: &mut MeterSeat, words: u64)
        requires { seat.old.id ≡ self.now.id }
        ensures { seat.new ≡ after_step seat.old (added seat.old.amount words) }
    {
        self.table
            .shared
            .fetch_add::<AddsAmount>(&mut seat.seat, 0, words);
    }

    /// Takes words off the meter and off the seat's amount, modulo 2^64, by one atomic step. Takes
    /// no memory and no lock. This project's choice.
    pub fn sub(&self, seat: &mut MeterSeat, words: u64)
        requires { seat.old.id ≡ self.now.id }
        ensures { seat.new ≡ after_step seat.old (taken_off seat.old.amount words) }
    {
        self.table
            .shared
            .fetch_sub::<Subtracts>(&mut seat.seat, 0, words);
    }

    /// Returns the meter's words as it reads them, by one atomic step: the sum of all amounts at
    /// that moment, modulo 2^64, of which no clause can speak. Takes no memory and no lock. This
    /// project's choice.
    pub fn now(&self, seat: &mut MeterSeat) -> u64
        requires { seat.old.id ≡ self.now.id }
        ensures unchanged { seat.new ≡ after_step seat.old seat.old.amount }
    {
        self.table.shared.load::<Looks>(&mut seat.seat, 0)
    }

    /// Ends the meter and returns the sum of the amounts, modulo 2^64. Refused with `Unsettled`,
    /// the numbers of seats made and given, exactly where not all seats are given; then meter and
    /// seats are handed back as they were. Takes no memory and no lock. This project's choice.
    pub fn close(self, seats: Vec<MeterSeat>) -> Result<u64, (Refusal, UsedMeter, Vec<MeterSeat>)>
        requires { All (λ seat. seat.id ≡ self.id) seats.items }
        ensures sum { IfOk result
            (λ words. words ≡ sum_by (λ seat. seat.amount) seats.items % 2 ^ 64) }
        ensures all { IsOk result ↔ (vec_len seats ≡ self.seats) }
        ensures unsettled { IfErr result
            (λ refused. refused.0 ≡ Refusal.Unsettled self.seats (vec_len seats)) }
        ensures meter { IfErr result (λ refused. refused.1 ≡ self) }
        ensures seats { IfErr result (λ refused. refused.2.items ≡ seats.items) }
    {
        if self.made != seats.len() {
            let refusal = Refusal::Unsettled {
                opened: self.made as u64,
                gathered: seats.len() as u64,
            };
            return Err((refusal, self, seats));
        }
        let UsedMeter { table, made: _ } = self;
        Ok(gathered(table, seats))
    }
}

/// Returns the word, once all seats have become one.
fn gathered(table: Table<u8, MeterView, usize, Metered, Global>, mut seats: Vec<MeterSeat>) -> u64
    requires made { table.shared.key ≡ vec_len seats }
    requires words { table.shared.table_id.words ≡ 1 }
    requires slots { table.shared.table_id.slots ≡ 0 }
    requires some { 1 ≤ vec_len seats }
    requires own { All (λ seat. seat.id ≡ table.shared.table_id) seats.items }
    ensures { result ≡ sum_by (λ seat. seat.amount) seats.items % 2 ^ 64 }
{
    let Some(first) = seats.pop() else {
        unreachable!()
    };
    let mut whole = first.into_table_seat();
    while let Some(seat) = seats.pop() {
        table
            .shared
            .join_seat::<JoinSeats>(&mut whole, seat.into_table_seat());
    }
    let closed = table.close_with(whole);
    let sum = closed.word(0);
    closed.free();
    sum
}

impl MeterSeat {
    /// Gives the seat of the table out.
    fn into_table_seat(self) -> Seat<u8, MeterView>
        ensures own { result.table_id ≡ self.id }
        ensures view { result.me ≡ (meter_view 1 self.amount self.steps, []) }
    {
        let MeterSeat { seat } = self;
        seat
    }
}
