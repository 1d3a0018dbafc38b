//! Sizes for people, and numbers with one digit after their point.
//!
//!     words   8191      8192       131071        131072
//!     size    63.9 KB   64.0 KB    1023.9 KB     1.0 MB
//!
//! A size is told in KB of 1024 bytes where it is less than a MB, and else in MB, cut off after one
//! digit. Kept true: the text is the bytes that `specs/Sizes.antt` gives for the words. Takes
//! memory for the text alone.
ghost use Rattle.std.specs.Prelude.{◌≡◌, ◌≤◌, ◌<◌, ◌++◌, OnOk, codes, decimal, string_bytes};
ghost use Rattle.ms_report.specs.Layout.{left_in, right_in};
ghost use Rattle.ms_report.specs.Sizes.{pointed, size_in, units_in};

use crate::layout::{COLUMN, push_label, push_wide};
use std::alloc::AllocError;

/// The words of a KB and of a MB.
const KB: u128 = 128;

const MB: u128 = 131_072;

/// Appends a label, a number and a size for people, each in its column.
pub(crate) fn push_sized(
    text: &mut String,
    label: &str,
    number: u128,
    words: u128,
) -> Result<(), AllocError>
    ensures { OnOk result (string_bytes text.new ≡ string_bytes text.old
        ++ (codes "  " ++ left_in 12 label.now ++ right_in 12 (decimal number) ++ size_in words)) }
{
    push_label(text, label)?;
    push_wide(text, COLUMN, number)?;
    push_size(text, words)
}

/// Appends a size for people.
fn push_size(text: &mut String, words: u128) -> Result<(), AllocError>
    ensures { OnOk result (string_bytes text.new ≡ string_bytes text.old ++ size_in words) }
{
    if words < MB {
        push_units(text, KB, words)?;
        return text.push_str(" KB");
    }
    push_units(text, MB, words)?;
    text.push_str(" MB")
}

/// Appends how many units of so many words there are.
fn push_units(text: &mut String, unit: u128, words: u128) -> Result<(), AllocError>
    requires some { 0 < unit }
    requires few { unit ≤ 131072 }
    ensures { OnOk result (string_bytes text.new ≡ string_bytes text.old ++ units_in unit words) }
{
    push_pointed(text, 7, words / unit, words % unit * 10 / unit)
}

/// Appends a number with one digit after its point.
pub(crate) fn push_pointed(
    text: &mut String,
    width: usize,
    whole: u128,
    tenths: u128,
) -> Result<(), AllocError>
    ensures { OnOk result (string_bytes text.new
        ≡ string_bytes text.old ++ pointed width whole tenths) }
{
    push_wide(text, width, whole)?;
    text.push_str(".")?;
    push_wide(text, 1, tenths)
}
