//! The rule of a meter's one word, and the names of the steps on it.
//!
//!     seat       parts   amount
//!     first        1        5    ---+
//!     second       1        7    ---+---  the word: 12
//!     joined       0        0    ---+
//!
//! Kept true between any two steps: the word is the sum of the amounts, modulo 2^64, the parts are
//! as many as seats were made, and a seat without a part has no amount. Views, plays, cuts and
//! joins have no bytes and do nothing when they run. Nothing here takes memory or waits.
ghost use Rattle.ms_shared.specs.MeterRule.{IsMetered, AddsAmount, Subtracts, Looks, meter_view, less_part, joined};

use atomic_table::{Join, Play, Split, TableRule};

/// What a seat of a meter knows: its parts of the right to know the sum, its amount, and how many
/// steps it took. No value of it is made.
pub struct MeterView {
    /// How many seats it stands for.
    pub parts: u64,
    /// What was added by it less what was taken off, modulo 2^64.
    pub amount: u64,
    /// How many steps on the word it took. Each play raises it by one, so a call that says how far
    /// it rose says how many steps it is.
    pub steps: u64,
}

// The rule; it is told how many seats are made.
pub struct Metered;

impl TableRule<u8, MeterView, usize> for Metered {
    ghost holds = { IsMetered };

    ghost first = { λ made. meter_view made 0 0 };
}

// A number is added to the word.
pub struct AddsAmount;

impl Play<u8, MeterView> for AddsAmount {
    ghost then = { AddsAmount };
}

// A number is taken off the word.
pub struct Subtracts;

impl Play<u8, MeterView> for Subtracts {
    ghost then = { Subtracts };
}

// The word is read.
pub struct Looks;

impl Play<u8, MeterView> for Looks {
    ghost then = { Looks };
}

// A seat of one part, with nothing, is cut off.
pub struct CutSeat;

impl Split<MeterView> for CutSeat {
    ghost left = { less_part };

    ghost right = { λ view. meter_view 1 0 0 };
}

// Two seats become one.
pub struct JoinSeats;

impl Join<MeterView> for JoinSeats {
    ghost both = { joined };

    ghost spent = { meter_view 0 0 0 };
}
