//! Lines of a report: texts in columns that are filled with spaces.
//!
//!     |  committed           8192      a line of a label and a number: 12 bytes left, 12 right
//!     |        4096          7            numbers, each right in its column
//!
//! Kept true: a line is the bytes that `specs/Layout.antt` gives for its texts and numbers. All
//! calls append to a text, and take memory for it alone.
ghost use Rattle.std.specs.Prelude.{◌≡◌, ◌++◌, OnOk, string_bytes, codes, decimal, replicate};
ghost use Rattle.ms_report.specs.Layout.{number_line, left_in, number_lines, right_in};
ghost use Rattle.ms_report.specs.Cells.{all_aligned, pairs_in};

use crate::line::Line;
use itoa::Buffer;
use std::alloc::AllocError;

/// The width of a label, and of the number beside it.
pub const COLUMN: usize = 12;

/// The spaces of an empty column.
const SPACES: &str = "            ";

/// Appends so many spaces, a column of them in one go.
fn push_spaces(text: &mut String, count: usize) -> Result<(), AllocError>
    ensures { OnOk result (string_bytes text.new ≡ string_bytes text.old ++ replicate count 32) }
{
    let mut left = count;
    while left > COLUMN {
        text.push_str(SPACES)?;
        left -= COLUMN;
    }
    text.push_str(&SPACES[..left])
}

/// Appends a line with a label and a number, each in a column of its own.
pub(crate) fn push_number_line(
    text: &mut String,
    label: &str,
    number: u64,
) -> Result<(), AllocError>
    ensures { OnOk result (string_bytes text.new
        ≡ string_bytes text.old ++ number_line label.now number) }
{
    push_label(text, label)?;
    let mut line = Line::end();
    line.put_right(COLUMN, number);
    line.push_to(text)
}

/// Appends a line for each label with its number.
pub(crate) fn push_number_lines(
    text: &mut String,
    rows: &[(&'static str, u64)],
) -> Result<(), AllocError>
    ensures { OnOk result (string_bytes text.new
        ≡ string_bytes text.old ++ number_lines (pairs_in rows.now)) }
{
    for (label, number) in rows {
        push_number_line(text, label, *number)?;
    }
    Ok(())
}

/// Appends a number of 128 bits with spaces before it to that width.
pub(crate) fn push_wide(text: &mut String, width: usize, number: u128) -> Result<(), AllocError>
    ensures { OnOk result (string_bytes text.new
        ≡ string_bytes text.old ++ right_in width (decimal number)) }
{
    let mut buffer = Buffer::new();
    push_word(text, width, buffer.format(number))
}

/// Appends numbers of 128 bits, each right in its width.
pub(crate) fn push_wides(text: &mut String, columns: &[(usize, u128)]) -> Result<(), AllocError>
    ensures { OnOk result (string_bytes text.new
        ≡ string_bytes text.old ++ all_aligned columns.now) }
{
    for (width, number) in columns {
        push_wide(text, *width, *number)?;
    }
    Ok(())
}

/// Appends two spaces, and a label with spaces after it to the width of a column.
pub(crate) fn push_label(text: &mut String, label: &str) -> Result<(), AllocError>
    ensures { OnOk result (string_bytes text.new
        ≡ string_bytes text.old ++ (codes "  " ++ left_in 12 label.now)) }
{
    text.push_str("  ")?;
    text.push_str(label)?;
    text.push_str(&SPACES[label.len().min(COLUMN)..])
}

/// Appends a text with spaces before it to that width.
fn push_word(text: &mut String, width: usize, word: &str) -> Result<(), AllocError>
    ensures { OnOk result (string_bytes text.new
        ≡ string_bytes text.old ++ right_in width word.now) }
{
    push_spaces(text, width.saturating_sub(word.len()))?;
    text.push_str(word)
}
