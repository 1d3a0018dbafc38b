//! The amounts that a chart follows over the columns, and the numbers of a column's lines.
use crate::writer::Writer;
use ms_course::{Column, Standing};

/// An amount that a chart follows over the columns.
#[derive(Clone, Copy)]
pub(crate) enum Series {
    Reserved,
    Committed,
    Used,
    Live,
    ClassReserved,
    ClassCommitted,
    ClassUsed,
    ClassLive,
    Loaders,
}

impl Series {
    /// Returns the amount in a standing.
    pub(crate) fn amount(self, standing: &Standing) -> u64 {
        match self {
            Series::Reserved => standing.both.reserved,
            Series::Committed => standing.both.committed,
            Series::Used => standing.both.used,
            Series::Live => standing.both.live,
            Series::ClassReserved => standing.class_space.reserved,
            Series::ClassCommitted => standing.class_space.committed,
            Series::ClassUsed => standing.class_space.used,
            Series::ClassLive => standing.class_space.live,
            Series::Loaders => standing.loaders,
        }
    }

    /// Returns the number and the first of the columns that have so much of it.
    pub(crate) fn first_at(self, columns: &[Column], peak: u64) -> Option<(u64, &Column)> {
        let mut number: u64 = 0;
        for column in columns {
            if self.amount(&column.most) == peak {
                return Some((number, column));
            }
            number = number.saturating_add(1);
        }
        None
    }
}

impl Writer {
    /// Appends the numbers of a column's lines.
    pub(crate) fn lines(&mut self, column: &Column) -> &mut Self {
        let first = u64::from(column.first_line);
        let last = u64::from(column.last_line);
        if first == last {
            self.text("line ").number(first)
        } else {
            self.text("lines ").number(first).text(" to ").number(last)
        }
    }
}
