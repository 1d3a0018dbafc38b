//! How many of the loaders that stay to the end there are already, column by column.
//!
//!     births in each column    2  0  1  3
//!     loaders that stay        2  2  3  6
//!
//! Kept true: the number of a column counts each loader of the end whose birth lies in it or in an
//! earlier one. Takes memory for two numbers a column.
ghost use Rattle.std.specs.Prelude.{◌≡◌, ◌<◌, ◌-◌, ◌^◌, [], IfOk, length, sum};
ghost use Rattle.std.specs.List.{All};
ghost use Rattle.ms_page.specs.Stays.{AreBirths, stays_of, sums_of, with_birth};

use crate::holding::Holding;
use ms_course::{Columns, column_for};
use std::alloc::{AllocError, Global};

/// Counts the loaders that stay, for each column.
pub(crate) fn stays(
    alloc: Global,
    columns: &Columns,
    holdings: &[Holding],
) -> Result<Vec<u64>, AllocError>
    ensures { IfOk result (λ stays. stays.items ≡ stays_of columns.now holdings.now) }
{
    let mut births = Vec::new(alloc);
    births.resize(columns.columns().len(), 0)?;
    count_births(&mut births, columns.lines(), holdings);
    sums(alloc, births.as_slice())
}

/// Counts the loaders that came in each column.
fn count_births(births: &mut Vec<u64>, lines: u32, holdings: &[Holding])
    requires { AreBirths lines [] births.old.items }
    ensures births { AreBirths lines holdings.now births.new.items }
    ensures count { length births.new.items ≡ length births.old.items }
{
    for holding in holdings {
        count_birth(births, lines, holding.since.position);
    }
}

/// Counts the birth of a loader, if it lies among the lines.
fn count_birth(births: &mut Vec<u64>, lines: u32, position: u32)
    requires { All (λ number. number < 2 ^ 64 - 1) births.old.items }
    ensures { births.new.items ≡ with_birth lines position births.old.items }
{
    if position >= lines {
        return;
    }
    let column = column_for(position, lines);
    if column < births.len() {
        births[column] += 1;
    }
}

/// Adds up the numbers, each with all before it.
fn sums(alloc: Global, numbers: &[u64]) -> Result<Vec<u64>, AllocError>
    requires { sum numbers.now < 2 ^ 63 }
    ensures { IfOk result (λ sums. sums.items ≡ sums_of numbers.now) }
{
    let mut sums = Vec::with_capacity(alloc, numbers.len())?;
    let mut sum = 0;
    for number in numbers {
        sum += *number;
        sums.push(sum)?;
    }
    Ok(sums)
}
