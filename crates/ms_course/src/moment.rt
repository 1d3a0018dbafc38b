//! One moment of a run: a line was answered.
ghost use Rattle.std.specs.Prelude.{◌≡◌};
ghost use Rattle.ms_course.specs.Course.{deed_asked, deed_of};

use crate::standing::Standing;
use ms_base::{Reply, Step};

/// What a line did, as far as a course counts it. This project's choice.
#[derive(Clone, Copy, Debug, PartialEq, Eq)]
pub enum Deed {
    /// A loader was unloaded.
    Unload,
    /// The nodes in which no chunk is held were given back.
    Purge,
    /// Whatever the line asked was refused.
    Refusal,
    /// A report was asked for.
    Report,
    /// Something else was done.
    Other,
}

impl Deed {
    /// Names what a step did, by its reply.
    pub fn of_step(step: &Step, reply: &Reply) -> Deed
        ensures { result ≡ deed_of step.now reply.now }
    {
        match (step, reply) {
            (_, Reply::Refused(_)) => Deed::Refusal,
            (Step::Unload { .. }, _) => Deed::Unload,
            (Step::Purge, _) => Deed::Purge,
            _ => Deed::Other,
        }
    }
}

/// What a line asks. This project's choice.
#[derive(Clone, Copy, Debug, PartialEq, Eq)]
pub enum Asked {
    /// A step of the machine.
    Step(Step),
    /// That all workers meet.
    Sync,
    /// A report.
    Report,
}

impl Asked {
    /// Names what a line did that asked this, by its reply.
    pub fn deed(&self, reply: &Reply) -> Deed
        ensures { result ≡ deed_asked self.now reply.now }
    {
        match self {
            Asked::Step(step) => Deed::of_step(step, reply),
            Asked::Sync => Deed::Other,
            Asked::Report => Deed::Report,
        }
    }
}

/// One moment of a run: a line was answered, and the metaspace stands so after it. This project's
/// choice.
#[derive(Clone, Copy, Debug, PartialEq, Eq)]
pub struct Moment {
    /// The number of the line, from 1 on.
    pub line: u32,
    /// What the line asks.
    pub asked: Asked,
    /// How it was answered; `Ok` where it asks for no step.
    pub reply: Reply,
    /// How the metaspace stands after it.
    pub standing: Standing,
}
