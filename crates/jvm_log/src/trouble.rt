//! What a log lacks.
use thiserror::Error;

/// What is wrong with a log at a line, and what will be wrong with the trace.
#[derive(Clone, Copy, Debug, PartialEq, Eq, Error)]
pub enum Trouble {
    /// The first line about the metaspace isn't its first one.
    #[error("the log begins in the middle, rotated or cut: what came before is not in the trace")]
    BeginsLate,
    /// An arena whose birth isn't in the log.
    #[error("an arena whose birth the log doesn't tell: its requests are not in the trace")]
    UnknownArena,
    /// A thread asks again before it has an answer.
    #[error("a request has no answer, lines are missing: it is not in the trace")]
    Unanswered,
    /// An answer to no request.
    #[error("an answer to no request, lines are missing: its block is not in the trace")]
    Unasked,
    /// A freed block that isn't known, or is another loader's.
    #[error("a freed block that the log doesn't know of: it stays allocated in the trace")]
    UnknownBlock,
    /// A loader is born where one lives, or dies where none does.
    #[error("a loader's death or birth is missing: the trace may hold it too long")]
    UnknownLoader,
    /// No name is left for a loader, or no number for a block.
    #[error("65536 loaders live at once: this one is not in the trace")]
    NoName,
    /// The kind of a loader isn't in the log.
    #[error("the kind of a loader is not told: the trace has it as standard")]
    UnknownKind,
    /// The log has no request.
    #[error("no line tells of a request (level trace): the trace has loaders and no block")]
    NoRequest,
    /// The JVM left out lines.
    #[error("the JVM dropped lines of its log (-Xlog:async): the trace lacks what they told")]
    Dropped,
    /// The log ends inside of a request.
    #[error("the log ends inside of a request: it was cut, and the trace ends there")]
    EndsEarly,
}
