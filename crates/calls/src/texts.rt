//! The rows of traces: one is read, and one is printed.
use crate::row::{Answer, Row, gave, say, served, tell, unprepared};
use ms_trace::{ParseFault, Trace, parse, print};
use std::alloc::Global;
use std::io;

/// The text of a trace.
const TRACE: &str = "new 1 standard
alloc 1 1 10
# ten words
write 1 1 0 7
read 1 1 0
free 1 1

sync
unload 1
purge
report
";

/// A text to be read.
#[derive(Drop)]
pub(crate) struct Parsing {
    alloc: Global,
}

impl Parsing {
    /// Prepares a text.
    pub(crate) fn prepared(alloc: Global) -> io::Result<Parsing> {
        Ok(Parsing { alloc })
    }
}

impl Row for Parsing {
    fn tell_state(&mut self, rt: &HostRuntime) -> io::Result<()> {
        tell(rt, &TRACE.len());
        Ok(())
    }

    fn call(&mut self, rt: &HostRuntime) -> Answer {
        match parse(self.alloc, TRACE.as_bytes()) {
            Ok(trace) => tell_trace(rt, &trace),
            Err(ParseFault::OutOfMemory) => Answer::Refused,
            Err(fault) => {
                tell(rt, &fault);
                Answer::Served
            }
        }
    }
}

/// Prints the lines of a trace that was read.
fn tell_trace(rt: &HostRuntime, trace: &Trace) -> Answer {
    let answer = served(rt);
    for line in trace.lines.as_slice() {
        tell(rt, &(line.number(), line.command()));
    }
    answer
}

/// A trace to be printed.
#[derive(Drop)]
pub(crate) struct Printing {
    alloc: Global,
    trace: Trace,
}

impl Printing {
    /// Prepares a trace.
    pub(crate) fn prepared(alloc: Global) -> io::Result<Printing> {
        match parse(alloc, TRACE.as_bytes()) {
            Ok(trace) => Ok(Printing { alloc, trace }),
            Err(_) => Err(unprepared()),
        }
    }
}

impl Row for Printing {
    fn tell_state(&mut self, rt: &HostRuntime) -> io::Result<()> {
        tell(rt, &self.trace.lines.as_slice().len());
        Ok(())
    }

    fn call(&mut self, rt: &HostRuntime) -> Answer {
        if !self.trace.rises() {
            say(rt, "no rising lines");
            return Answer::Served;
        }
        match print(self.alloc, &self.trace) {
            Ok(text) => gave(rt, &text),
            Err(_) => Answer::Refused,
        }
    }
}
