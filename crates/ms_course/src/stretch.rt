//! A stretch of a run: where it begins, and how few loaders it has.
ghost use Rattle.std.specs.Prelude.{◌≡◌};
ghost use Rattle.ms_course.specs.Gathering.{lies, stretch_next, stretch_with};

use crate::moment::Moment;

/// What some lines in a row have. This project's choice.
#[derive(Clone, Copy, Debug, PartialEq, Eq)]
pub struct Stretch {
    /// The number of the first line; 0 where there is none.
    pub first_line: u32,
    /// The fewest loaders after one of its lines; `None` where there is no line.
    pub fewest: Option<u64>,
}

impl Stretch {
    /// That of no line.
    pub const NONE: Stretch = Stretch {
        first_line: 0,
        fewest: None,
    };
}

/// Says whether a position lies between two, the first included.
pub(crate) fn lies_between(first: u32, end: u32, position: u32) -> bool
    ensures { result ≡ lies first end position }
{
    first <= position && position < end
}

/// Adds a moment to a stretch where it lies within.
pub(crate) fn go_on(stretch: &mut Stretch, within: bool, moment: &Moment)
    ensures { stretch.new ≡ stretch_next within stretch.old moment.now }
{
    if within {
        *stretch = extended(*stretch, moment);
    }
}

/// Returns the stretch with one moment more.
fn extended(stretch: Stretch, moment: &Moment) -> Stretch
    ensures { result ≡ stretch_with stretch moment.now }
{
    let loaders = moment.standing.loaders;
    match stretch.fewest {
        None => Stretch {
            first_line: moment.line,
            fewest: Some(loaders),
        },
        Some(fewest) => Stretch {
            first_line: stretch.first_line,
            fewest: Some(fewest.min(loaders)),
        },
    }
}
