//! Numbers that are appended in one piece with what stands beside them.
//!
//!     |        12       400\n|    columns, from the right: digits, and the spaces before them
//!     |       3 value 4711\n|    two numbers and a word, written from the end of a room
//!
//! Takes memory for the text alone.
ghost use Rattle.std.specs.Prelude.{◌≡◌, ◌≤◌, ◌++◌, OnOk, IsAscii, string_bytes, codes};
ghost use Rattle.std.specs.Prelude.{decimal, length};
ghost use Rattle.ms_report.specs.Cells.{four_line};

use crate::line::Line;
use std::alloc::AllocError;

/// A number and the width of its column.
pub type Aligned = (usize, u64);

/// Appends four numbers, each right in its width, and the line's end.
pub(crate) fn push_four(
    text: &mut String,
    first: Aligned,
    second: Aligned,
    third: Aligned,
    fourth: Aligned,
) -> Result<(), AllocError>
    requires first { first.0 ≤ 20 }
    requires second { second.0 ≤ 20 }
    requires third { third.0 ≤ 20 }
    requires fourth { fourth.0 ≤ 20 }
    ensures { OnOk result (string_bytes text.new
        ≡ string_bytes text.old ++ four_line first second third fourth) }
{
    let mut line = Line::end();
    line.put_right(fourth.0, fourth.1);
    line.put_right(third.0, third.1);
    line.put_right(second.0, second.1);
    line.put_right(first.0, first.1);
    line.push_to(text)
}

/// Appends two numbers with a word between them, and the line's end, in one piece.
#[inline(always)]
pub(crate) fn push_both(
    text: &mut String,
    number: u64,
    word: &str,
    last: u64,
) -> Result<(), AllocError>
    requires ascii { IsAscii word.now }
    requires room { length word.now ≤ 7 }
    ensures { OnOk result (string_bytes text.new
        ≡ string_bytes text.old ++ (decimal number ++ (word.now ++ (decimal last ++ codes "\n")))) }
{
    let mut line = Line::end();
    line.put_right(0, last);
    line.put_word(word);
    line.put_right(0, number);
    line.push_to(text)
}
