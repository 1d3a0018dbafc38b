//! The line from which loaders go, and the line half-way from there to the end.
ghost use Rattle.std.specs.Prelude.{◌≡◌};
ghost use Rattle.ms_course.specs.Gathering.{schedule_of};

/// Where a run of a known number of lines turns: positions count its command lines from 0 on. This
/// project's choice.
#[derive(Clone, Copy, Debug, PartialEq, Eq)]
pub struct Schedule {
    /// How many command lines the run has.
    pub lines: u32,
    /// The position of the first line that asks for an unloading; 0 where there is none.
    pub turn: u32,
    /// The position half-way from there to the end.
    pub half: u32,
}

impl Schedule {
    /// Makes the schedule of a run of so many lines, of which the first that asks for an unloading,
    /// accepted or not, is at this position.
    pub fn new(lines: u32, first_unload: Option<u32>) -> Schedule
        ensures { result ≡ schedule_of lines first_unload }
    {
        let turn = first_unload.unwrap_or(0);
        let half = (u64::from(turn) + u64::from(lines)) / 2;
        Schedule {
            lines,
            turn,
            half: half as u32,
        }
    }
}
