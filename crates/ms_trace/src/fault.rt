//! Why a text is no trace.
use std::fmt::{self, Debug, Display, Formatter, Write};
use thiserror::Error;

/// What is wrong with a line, in the order of the checks. A field is checked whole before the next
/// one, so the last three come as the fields do. This project's choice. It prints as its name.
#[derive(Clone, Copy, Debug, PartialEq, Eq)]
pub enum FaultKind {
    /// The line's number is greater than the limit, which is 100000 where nothing else is asked.
    TooManyLines,
    /// The line has more than 80 bytes, the newline not counted; comments too.
    LineTooLong,
    /// The first field is none of the command words.
    UnknownCommand,
    /// There are more or fewer fields than the command has.
    FieldCount,
    /// The field for a kind is none of the four words.
    BadKind,
    /// The field for a number isn't `0`, nor a digit 1 to 9 followed by digits.
    BadNumber,
    /// The number is above the greatest that its field may have.
    NumberTooLarge,
}

impl Display for FaultKind {
    fn fmt<W: Write>(&self, f: &mut Formatter<W>) -> fmt::Result {
        Debug::fmt(self, f)
    }
}

/// The first faulty line of a text, and what is wrong with it.
#[derive(Clone, Copy, Debug, Error)]
#[error("line {line}: {kind}")]
pub struct TraceFault {
    /// The line's number, from 1 to one more than the limit.
    pub line: u32,
    /// Its first failing check.
    pub kind: FaultKind,
}

/// Why `parse` answers no trace.
#[derive(Clone, Copy, Debug, Error)]
pub enum ParseFault {
    /// The text is no trace.
    #[error("{0}")]
    Trace(TraceFault),
    /// The allocator refused a growth.
    #[error("out of memory")]
    OutOfMemory,
}
