//! One column of a course: what some lines in a row had at most, and what they did.
//!
//! Kept true: each number is that of the moments that were added, so one more costs the same
//! however many there were. Takes no memory.
ghost use Rattle.std.specs.Prelude.{◌≡◌, ◌+◌, ◌-◌, ◌^◌, ℕ};
ghost use Rattle.ms_course.specs.Course.{with_deed, with_moment, greater_extent, greater_standing};
ghost use Rattle.ms_course.specs.Fewness.{AreFew};

use crate::moment::{Asked, Deed, Moment};
use crate::standing::{Extent, Standing};
use ms_base::Reply;

/// What some lines in a row had at most, each number by itself, and how many of them did what. This
/// project's choice.
#[derive(Clone, Copy, Debug, PartialEq, Eq)]
pub struct Column {
    /// How many lines it has.
    pub lines: u32,
    /// The number of the first line, from 1 on; 0 where there is none.
    pub first_line: u32,
    /// The number of the last line; 0 where there is none.
    pub last_line: u32,
    /// The most after its lines of each amount.
    pub most: Standing,
    /// Lines that unloaded a loader.
    pub unloads: u32,
    /// Purges.
    pub purges: u32,
    /// Lines that were refused.
    pub refusals: u32,
    /// Reports.
    pub reports: u32,
    /// What the first line asked, where there is one.
    pub asked: Option<Asked>,
    /// How it was answered.
    pub reply: Option<Reply>,
}

impl Column {
    /// That of no line.
    pub const NONE: Column = Column {
        lines: 0,
        first_line: 0,
        last_line: 0,
        most: Standing::NONE,
        unloads: 0,
        purges: 0,
        refusals: 0,
        reports: 0,
        asked: None,
        reply: None,
    };
}

/// Adds a moment to a column.
pub(crate) fn add(column: &mut Column, moment: &Moment)
    requires { AreFew (2 ^ 32 - 2) column.old }
    ensures shown { column.new ≡ with_moment column.old moment.now }
    ensures few { (count : ℕ) → AreFew count column.old → AreFew (count + 1) column.new }
{
    count(column, moment.asked.deed(&moment.reply));
    if column.lines == 0 {
        column.first_line = moment.line;
        column.asked = Some(moment.asked);
        column.reply = Some(moment.reply);
    }
    column.last_line = moment.line;
    column.lines += 1;
    column.most = greater(&column.most, &moment.standing);
}

/// Counts what one line more did.
fn count(column: &mut Column, deed: Deed)
    requires { AreFew (2 ^ 32 - 2) column.old }
    ensures { column.new ≡ with_deed column.old deed }
{
    match deed {
        Deed::Unload => column.unloads += 1,
        Deed::Purge => column.purges += 1,
        Deed::Refusal => column.refusals += 1,
        Deed::Report => column.reports += 1,
        Deed::Other => {}
    }
}

/// Returns the greater of both, number by number.
fn greater(most: &Standing, now: &Standing) -> Standing
    ensures { result ≡ greater_standing most.now now.now }
{
    Standing {
        both: greater_words(&most.both, &now.both),
        class_space: greater_words(&most.class_space, &now.class_space),
        loaders: most.loaders.max(now.loaders),
    }
}

/// Returns the greater of both, amount by amount.
fn greater_words(most: &Extent, now: &Extent) -> Extent
    ensures { result ≡ greater_extent most.now now.now }
{
    Extent {
        reserved: most.reserved.max(now.reserved),
        committed: most.committed.max(now.committed),
        used: most.used.max(now.used),
        live: most.live.max(now.live),
    }
}
