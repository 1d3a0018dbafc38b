//! What a call returns, in numbers.
ghost use Rattle.std.specs.Prelude.{◌≡◌, OnOk, IfErr};
ghost use Rattle.ms_c.specs.Answers.{told, refused_as, numbers, told_by};

use ms_base::{Refusal, Reply};

/// What was asked is done.
pub const DONE: u32 = 0;

/// The C library's allocator refused.
pub const OUT_OF_MEMORY: u32 = 1;

/// No loader has the number.
pub const NO_LOADER: u32 = 8;

/// The handle has no system.
pub const NO_SYSTEM: u32 = 20;

/// The handle has a system already.
pub const IN_USE: u32 = 21;

/// A setting is out of its range.
pub const BAD_SETTINGS: u32 = 22;

/// Another seat has the pool.
pub const BUSY: u32 = 24;

/// The seat does not have the pool.
pub const NOT_HELD: u32 = 25;

/// There is no seat.
pub const NO_SEAT: u32 = 26;

/// There is no seat to spare.
pub const NO_SPARE: u32 = 27;

/// A status, 0 where the call is served, and its numbers: `value` is a start or a word, and of a
/// refusal what there is of what was wanted; `limit` and `need` are those of a limit.
#[repr(C)]
#[derive(Clone, Copy)]
pub struct Answer {
    pub status: u32,
    pub value: u64,
    pub limit: u64,
    pub need: u64,
}

impl Answer {
    /// There is no system.
    pub const NO_SYSTEM: Answer = Answer {
        status: 20,
        value: 0,
        limit: 0,
        need: 0,
    };

    /// No loader is meant.
    pub const NO_LOADER: Answer = Answer {
        status: 8,
        value: 0,
        limit: 0,
        need: 0,
    };

    /// No kind of loader has the number.
    pub const BAD_KIND: Answer = Answer {
        status: 23,
        value: 0,
        limit: 0,
        need: 0,
    };

    /// The seat does not have the pool.
    pub const NOT_HELD: Answer = Answer {
        status: 25,
        value: 0,
        limit: 0,
        need: 0,
    };

    /// There is no seat.
    pub const NO_SEAT: Answer = Answer {
        status: 26,
        value: 0,
        limit: 0,
        need: 0,
    };

    /// Served, with a number.
    pub fn of(value: u64) -> Answer
        ensures { result ≡ numbers 0 value 0 0 }
    {
        numbered(0, value, 0, 0)
    }
}

/// A status with its numbers.
fn numbered(status: u32, value: u64, limit: u64, need: u64) -> Answer
    ensures { result ≡ numbers status value limit need }
{
    Answer {
        status,
        value,
        limit,
        need,
    }
}

/// A status with no numbers.
fn plain(status: u32) -> Answer
    ensures { result ≡ numbers status 0 0 0 }
{
    numbered(status, 0, 0, 0)
}

/// Returns a refusal in numbers.
fn refused(refusal: Refusal) -> Answer
    ensures { result ≡ refused_as refusal }
{
    match refusal {
        Refusal::OutOfMemory => plain(1),
        Refusal::ZeroWords => plain(2),
        Refusal::TooLarge => plain(3),
        Refusal::CommitLimit {
            committed,
            limit,
            need,
        } => numbered(4, committed, limit, need),
        Refusal::ReserveLimit { nodes, limit } => numbered(5, nodes as u64, limit as u64, 0),
        Refusal::NotLive => plain(6),
        Refusal::OutOfRange { words } => numbered(7, words, 0, 0),
        Refusal::NoLoader => plain(8),
        Refusal::LoaderExists => plain(9),
        Refusal::NoBlock => plain(10),
        Refusal::BlockExists => plain(11),
        Refusal::IdsUsedUp => plain(12),
        Refusal::Unsettled { opened, gathered } => numbered(13, opened, gathered, 0),
        Refusal::NoRoom { level } => numbered(14, level.number() as u64, 0, 0),
    }
}

/// Returns a reply in numbers.
pub fn answer_of(reply: Reply) -> Answer
    ensures { result ≡ told reply }
{
    match reply {
        Reply::Ok => plain(0),
        Reply::At(value) | Reply::Value(value) => Answer::of(value),
        Reply::Refused(refusal) => refused(refusal),
    }
}

/// Returns a member's reply in numbers, where there is one: else the pool was wanting.
pub fn seated_answer(reply: Option<Reply>) -> Answer
    ensures { result ≡ told_by reply }
{
    match reply {
        Some(reply) => answer_of(reply),
        None => Answer::NOT_HELD,
    }
}

/// Returns in numbers that it was done, or why it was not.
pub fn done_answer(answer: Result<(), Refusal>) -> Answer
    ensures done { OnOk answer (result ≡ numbers 0 0 0 0) }
    ensures refused { IfErr answer (λ refusal. result ≡ refused_as refusal) }
{
    match answer {
        Ok(()) => plain(0),
        Err(refusal) => refused(refusal),
    }
}
