//! The reasons for which lines are refused.
ghost use Rattle.std.specs.Prelude.{◌≡◌, ◌<◌};
ghost use Rattle.ms_course.specs.Gathering.{number_of, reason_of, cause_of, is_calloc};

use crate::moment::Asked;
use ms_base::{Refusal, Reply, Step};

/// Why a line was refused: the name of the refusal, where that of the reserve limit is one of its own
/// for the class space. This project's choice.
#[derive(Clone, Copy, Debug, PartialEq, Eq)]
pub enum Reason {
    /// A loader had the name.
    LoaderExists,
    /// Fewer than two owner numbers were left.
    IdsUsedUp,
    /// No loader had the name.
    NoLoader,
    /// The loader had a block of the name.
    BlockExists,
    /// No words were asked for.
    ZeroWords,
    /// More words were asked for than a root chunk has.
    TooLarge,
    /// The allocator refused a growth.
    OutOfMemory,
    /// As many nodes as may be were reserved, and none had room.
    ReserveLimit,
    /// The class space had no room, or there is none.
    ClassReserveLimit,
    /// The granules needed would have passed the limit.
    CommitLimit,
    /// The loader had no block of the name.
    NoBlock,
    /// The index was past the end of the block.
    OutOfRange,
}

impl Reason {
    /// Names why a line was refused that asked this, by its reply; `None` where it was not refused.
    pub fn of_reply(asked: &Asked, reply: &Reply) -> Option<Reason>
        ensures { result ≡ reason_of asked.now reply.now }
    {
        match reply {
            Reply::Refused(refusal) => cause(asks_class_space(asked), refusal),
            Reply::Ok | Reply::At(_) | Reply::Value(_) => None,
        }
    }

    /// Returns the reason's number, 0 to 11.
    pub(crate) fn number(self) -> usize
        ensures number { result ≡ number_of self }
        ensures within { result < 12 }
    {
        match self {
            Reason::LoaderExists => 0,
            Reason::IdsUsedUp => 1,
            Reason::NoLoader => 2,
            Reason::BlockExists => 3,
            Reason::ZeroWords => 4,
            Reason::TooLarge => 5,
            Reason::OutOfMemory => 6,
            Reason::ReserveLimit => 7,
            Reason::ClassReserveLimit => 8,
            Reason::CommitLimit => 9,
            Reason::NoBlock => 10,
            Reason::OutOfRange => 11,
        }
    }
}

/// Says whether a line asks for a block of the class space.
fn asks_class_space(asked: &Asked) -> bool
    ensures { result ≡ is_calloc asked.now }
{
    match asked {
        Asked::Step(Step::Calloc { .. }) => true,
        _ => false,
    }
}

/// Names the cause of a refusal.
fn cause(of_class: bool, refusal: &Refusal) -> Option<Reason>
    ensures { result ≡ cause_of of_class refusal.now }
{
    match refusal {
        Refusal::LoaderExists => Some(Reason::LoaderExists),
        Refusal::IdsUsedUp => Some(Reason::IdsUsedUp),
        Refusal::NoLoader => Some(Reason::NoLoader),
        Refusal::BlockExists => Some(Reason::BlockExists),
        Refusal::ZeroWords => Some(Reason::ZeroWords),
        Refusal::TooLarge => Some(Reason::TooLarge),
        Refusal::OutOfMemory => Some(Reason::OutOfMemory),
        Refusal::ReserveLimit { .. } if of_class => Some(Reason::ClassReserveLimit),
        Refusal::ReserveLimit { .. } => Some(Reason::ReserveLimit),
        Refusal::CommitLimit { .. } => Some(Reason::CommitLimit),
        Refusal::NoBlock => Some(Reason::NoBlock),
        Refusal::OutOfRange { .. } => Some(Reason::OutOfRange),
        Refusal::NotLive | Refusal::Unsettled { .. } | Refusal::NoRoom { .. } => None,
    }
}
