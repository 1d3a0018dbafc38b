//! The columns of a course, filled as lines are answered.
ghost use Rattle.std.specs.Prelude.{◌≡◌, ◌+◌, ◌≤◌, ◌<◌, ◌++◌, ◌∷◌, [], List, IfOk, min};
ghost use Rattle.ms_course.specs.Course.{ColumnsView, Shows, column_of, column_count};
ghost use Rattle.ms_course.specs.declared.moment.Moment.{Moment as MomentOf};

use crate::column::{Column, add};
use crate::moment::Moment;
use std::alloc::{AllocError, Global};
use std::marker::Model;

/// The most columns that a course has.
pub const MOST_COLUMNS: u32 = 512;

/// The course of a run of a known number of lines, in at most 512 columns. Line j of n, from 0 on,
/// falls into column j * c / n, cut off, where c is n, or 512 if n is more. This project's choice.
#[derive(Drop)]
pub struct Columns {
    // How many lines the run has.
    lines: u32,
    // How many of them were answered.
    answered: u32,
    // The columns, those of no line yet among them.
    columns: Vec<Column>,
}

impl Model for Columns {
    ghost use Rattle.std.specs.Prelude.{◌≡◌, ◌≤◌, length};
    ghost use Rattle.std.specs.List.{All};
    ghost use Rattle.ms_course.specs.Course.{ColumnsView, column_count};
    ghost use Rattle.ms_course.specs.Fewness.{AreFew, IsFilling};

    ghost Value = { ColumnsView };

    ghost view = { λ c. record {
      lines = c.lines;
      answered = c.answered;
      columns = c.columns.items;
    } };

    ghost invariant = { λ c. IsFilling c.lines c.answered c.columns.items };
}

impl Columns {
    /// Makes the columns of a run of so many lines, of which none was answered yet. Takes memory
    /// for at most 512 columns; an error means that it was refused.
    pub fn new(alloc: Global, lines: u32) -> Result<Columns, AllocError>
        ensures none { IfOk result (λ columns. Shows columns []) }
        ensures lines { IfOk result (λ columns. columns.lines ≡ lines) }
    {
        let mut columns = Vec::new(alloc);
        columns.resize(lines.min(MOST_COLUMNS) as usize, Column::NONE)?;
        Ok(Columns {
            lines,
            answered: 0,
            columns,
        })
    }

    /// Adds the moment after the next line; one past the last line falls into no column. Takes no
    /// memory.
    pub fn push(&mut self, moment: &Moment)
        ensures shown { (moments : List MomentOf) → Shows self.old moments
            → Shows self.new (moments ++ moment.now ∷ []) }
        ensures lines { self.new.lines ≡ self.old.lines }
        ensures answered { self.new.answered ≡ min (self.old.answered + 1) self.old.lines }
    {
        if self.answered == self.lines {
            return;
        }
        let index = column_for(self.answered, self.lines);
        add(&mut self.columns[index], moment);
        self.answered += 1;
    }

    /// Lends the columns, from the first line's on.
    pub fn columns(&self) -> &[Column]
        ensures { result.now ≡ self.now.columns }
    {
        self.columns.as_slice()
    }

    /// Returns how many of the lines were answered.
    pub fn answered(&self) -> u32
        ensures answered { result ≡ self.now.answered }
        ensures within { result ≤ self.now.lines }
    {
        self.answered
    }

    /// Returns how many lines the run has.
    pub fn lines(&self) -> u32
        ensures { result ≡ self.now.lines }
    {
        self.lines
    }
}

/// Returns the column of a line, by its position from 0 on.
pub fn column_for(position: u32, lines: u32) -> usize
    requires { position < lines }
    ensures column { result ≡ column_of lines position }
    ensures within { result < column_count lines }
{
    let columns = lines.min(MOST_COLUMNS);
    (u64::from(position) * u64::from(columns) / u64::from(lines)) as usize
}
