//! The line that says that a command is done, which is kept and counted on, and its number alone.
//!
//!     |               4711 ok\n            |     of the next line nine times of ten only the ones change
//!                     ^  ^
//!                  from  ones
//!
//! Kept true: from a byte on it is the line of the number that it was told last, and blank after
//! it. So a piece of constant length is appended and what is too long cut off, which no call
//! copies. Takes memory for the text alone.
ghost use Rattle.std.specs.Prelude.{◌≡◌, ◌+◌, ◌≤◌, ◌-◌, ◌++◌, OnOk, IsAscii, string_bytes, codes, decimal, drop, length, take};
ghost use Rattle.ms_report.specs.DoneLine.{IsDoneLine};

use crate::line::push_cut;
use itoa::write_digits;
use std::alloc::AllocError;
use std::marker::Model;

/// The bytes of a number of twenty digits, of what stands after it, and of twelve spaces.
const ROOM: usize = 36;

/// The bytes of a piece: no line of a number of ten digits is longer.
const PIECE: usize = 16;

/// The index of the ones.
const ONES: usize = 19;

/// The index past the number.
const NUMBER_END: usize = 20;

/// The index past the line.
const END: usize = 24;

/// The line of the number that was told last. Nothing outside rests on which one that is.
#[derive(Drop)]
pub struct DoneLine {
    bytes: [u8; ROOM],
    from: usize,
    number: u32,
}

impl Model for DoneLine {
    ghost use Rattle.ms_report.specs.DoneLine.{IsDoneLine};

    ghost Value = { Unit {0} };

    ghost view = { λ line. tt };

    ghost invariant = { λ line. IsDoneLine line.number line.from line.bytes };
}

impl DoneLine {
    /// Makes the line of 0.
    pub(crate) fn first() -> DoneLine {
        DoneLine {
            bytes: *b"                   0 ok\n            ",
            from: ONES,
            number: 0,
        }
    }

    /// Appends the line of a number to a text.
    #[inline(always)]
    pub(crate) fn push_to(&mut self, text: &mut String, number: u32) -> Result<(), AllocError>
        ensures { OnOk result (string_bytes text.new
            ≡ string_bytes text.old ++ (decimal number ++ codes " ok\n")) }
    {
        self.push_up_to(END, text, number)
    }

    /// Appends a number to a text.
    #[inline(always)]
    pub(crate) fn push_number(&mut self, text: &mut String, number: u32) -> Result<(), AllocError>
        ensures { OnOk result (string_bytes text.new ≡ string_bytes text.old ++ decimal number) }
    {
        self.push_up_to(NUMBER_END, text, number)
    }

    /// Appends the line of a number to a text, up to an index past the number.
    #[inline(always)]
    fn push_up_to(&mut self, end: usize, text: &mut String, number: u32) -> Result<(), AllocError>
        requires past { 20 ≤ end }
        requires within { end ≤ 24 }
        ensures { OnOk result (string_bytes text.new
            ≡ string_bytes text.old ++ (decimal number ++ take (end - 20) (codes " ok\n"))) }
    {
        count_on(&mut self.bytes, &mut self.from, &mut self.number, number);
        push_piece(text, &self.bytes, self.from, end)
    }
}

/// Makes the line that of another number: of the next one by its ones alone where these are below
/// nine.
#[inline(always)]
fn count_on(bytes: &mut [u8], from: &mut usize, last: &mut u32, number: u32)
    requires { IsDoneLine last.old from.old bytes.old }
    ensures line { IsDoneLine last.new from.new bytes.new }
    ensures number { last.new ≡ number }
{
    if *last < number && number - *last == 1 && bytes[ONES] < b'9' {
        bytes[ONES] += 1;
    } else {
        *from = write_digits(u64::from(number), bytes, ONES + 1);
    }
    *last = number;
}

/// Appends what stands in bytes from one index on up to another.
#[inline(always)]
fn push_piece(text: &mut String, bytes: &[u8], from: usize, end: usize) -> Result<(), AllocError>
    requires long { length bytes.now ≡ 36 }
    requires low { end ≤ from + 16 }
    requires high { from ≤ 20 }
    requires order { from ≤ end }
    requires ascii { IsAscii (drop from bytes.now) }
    ensures { OnOk result (string_bytes text.new
        ≡ string_bytes text.old ++ take (end - from) (drop from bytes.now)) }
{
    push_cut(text, &bytes[from..from + PIECE], end - from)
}
