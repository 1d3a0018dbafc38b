//! The course of a run as arrays: for each number a column has, an array over the columns.
ghost use Rattle.std.specs.Prelude.{◌≡◌, ◌++◌, false, OnOk, string_bytes};
ghost use Rattle.serde_json.specs.Written.{compact_text};
ghost use Rattle.ms_json.specs.Rows.{elements_run, natural};
ghost use Rattle.ms_json.specs.Series.{course_data, number_in, series_data, numbers_in};

use crate::leaf::Leaf;
use crate::writing::{push_comma, push_number, push_object};
use ms_course::Column;
use std::alloc::AllocError;

/// Which number of a column.
#[derive(Clone, Copy, Debug, PartialEq, Eq)]
pub(crate) enum Series {
    FirstLine,
    LastLine,
    Reserved,
    Committed,
    Used,
    Live,
    ClassReserved,
    ClassCommitted,
    ClassUsed,
    ClassLive,
    Loaders,
    Unloads,
    Purges,
    Refused,
    Reports,
}

/// Returns the number of a column.
fn number_in(series: Series, column: &Column) -> u64
    ensures { result ≡ number_in series column.now }
{
    let most = &column.most;
    match series {
        Series::FirstLine => u64::from(column.first_line),
        Series::LastLine => u64::from(column.last_line),
        Series::Reserved => most.both.reserved,
        Series::Committed => most.both.committed,
        Series::Used => most.both.used,
        Series::Live => most.both.live,
        Series::ClassReserved => most.class_space.reserved,
        Series::ClassCommitted => most.class_space.committed,
        Series::ClassUsed => most.class_space.used,
        Series::ClassLive => most.class_space.live,
        Series::Loaders => most.loaders,
        Series::Unloads => u64::from(column.unloads),
        Series::Purges => u64::from(column.purges),
        Series::Refused => u64::from(column.refusals),
        Series::Reports => u64::from(column.reports),
    }
}

/// Appends a series as an array.
pub(crate) fn push_series(
    text: &mut String,
    series: Series,
    columns: &[Column],
) -> Result<(), AllocError>
    ensures { OnOk result (string_bytes text.new
        ≡ string_bytes text.old ++ compact_text (series_data series columns.now)) }
{
    text.push_str("[")?;
    push_numbers_in(text, series, columns)?;
    text.push_str("]")
}

/// Appends the numbers of a series.
fn push_numbers_in(text: &mut String, series: Series, columns: &[Column]) -> Result<(), AllocError>
    ensures { OnOk result (string_bytes text.new
        ≡ string_bytes text.old ++ elements_run false (numbers_in series columns.now)) }
{
    let mut later = false;
    for column in columns {
        push_comma(text, later)?;
        push_number(text, u128::from(number_in(series, column)))?;
        later = true;
    }
    Ok(())
}

/// Appends all series, each under its label.
pub(crate) fn push_course(text: &mut String, columns: &[Column]) -> Result<(), AllocError>
    ensures { OnOk result (string_bytes text.new
        ≡ string_bytes text.old ++ compact_text (course_data columns.now)) }
{
    let rows = [
        (
            "class committed",
            Leaf::Series(Series::ClassCommitted, columns),
        ),
        ("class live", Leaf::Series(Series::ClassLive, columns)),
        (
            "class reserved",
            Leaf::Series(Series::ClassReserved, columns),
        ),
        ("class used", Leaf::Series(Series::ClassUsed, columns)),
        ("committed", Leaf::Series(Series::Committed, columns)),
        ("first line", Leaf::Series(Series::FirstLine, columns)),
        ("last line", Leaf::Series(Series::LastLine, columns)),
        ("live", Leaf::Series(Series::Live, columns)),
        ("loaders", Leaf::Series(Series::Loaders, columns)),
        ("purges", Leaf::Series(Series::Purges, columns)),
        ("refused", Leaf::Series(Series::Refused, columns)),
        ("reports", Leaf::Series(Series::Reports, columns)),
        ("reserved", Leaf::Series(Series::Reserved, columns)),
        ("unloads", Leaf::Series(Series::Unloads, columns)),
        ("used", Leaf::Series(Series::Used, columns)),
    ];
    push_object(text, &rows)
}
