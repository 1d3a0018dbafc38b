//! A row: a state, and a call on it that takes memory, or calls after a mark that take none. How
//! facts are told. The tests miss what can't be written, so that no row has to end there.
use ms_base::Refusal;
use std::fmt::Debug;
use std::io::{self, ErrorKind};

/// How a call was answered.
#[derive(Clone, Copy, PartialEq, Eq)]
pub(crate) enum Answer {
    /// It was served.
    Served,
    /// A growth was refused.
    Refused,
}

/// A state, and a call on it that takes memory.
pub(crate) trait Row {
    /// Prints the state, and leaves it: the rest of a line. It fails where it lacks memory of its
    /// own.
    fn tell_state(&mut self, rt: &HostRuntime) -> io::Result<()>;

    /// Makes the call, and prints its answer where it is served: the rest of a line.
    fn call(&mut self, rt: &HostRuntime) -> Answer;
}

/// A row whose state keeps what no call tells.
pub(crate) trait Probed: Row + Drop + Sized {
    /// Makes calls that use up what the state keeps, and prints what they give: the rest of a line.
    /// It fails where it lacks memory of its own.
    fn probe(self, rt: &HostRuntime) -> io::Result<()>;
}

/// Prints a row, once it is prepared.
pub(crate) fn tell_row<R: Row + Drop>(
    rt: &HostRuntime,
    name: &str,
    prepared: io::Result<R>,
) -> io::Result<()> {
    let mut row = prepared?;
    tell_lines(rt, name, &mut row)
}

/// Prints a row, once it is prepared, and then what calls find in its state.
pub(crate) fn tell_probed_row<R: Probed>(
    rt: &HostRuntime,
    name: &str,
    prepared: io::Result<R>,
) -> io::Result<()> {
    let mut row = prepared?;
    tell_lines(rt, name, &mut row)?;
    tell_probed(rt, name, row)
}

/// Prints the state, the call's answer and the state after it; where it is a refusal, the same for
/// the call once more.
fn tell_lines<R: Row>(rt: &HostRuntime, name: &str, row: &mut R) -> io::Result<()> {
    tell_state(rt, name, "before", row)?;
    let answer = tell_call(rt, name, "answer", row);
    tell_state(rt, name, "after", row)?;
    match answer {
        Answer::Served => Ok(()),
        Answer::Refused => {
            let _ = tell_call(rt, name, "again", row);
            tell_state(rt, name, "last", row)
        }
    }
}

/// Prints the state on a line of its own.
fn tell_state<R: Row>(rt: &HostRuntime, name: &str, word: &str, row: &mut R) -> io::Result<()> {
    let _ = print!(rt; "{name} {word}");
    row.tell_state(rt)?;
    let _ = println!(rt; "");
    Ok(())
}

/// Prints on a line of its own what calls find in the state.
fn tell_probed<R: Probed>(rt: &HostRuntime, name: &str, row: R) -> io::Result<()> {
    let _ = print!(rt; "{name} probed");
    let probed = row.probe(rt);
    let _ = println!(rt; "");
    probed
}

/// Makes the call, and prints its answer on a line of its own.
fn tell_call<R: Row>(rt: &HostRuntime, name: &str, word: &str, row: &mut R) -> Answer {
    let _ = print!(rt; "{name} {word}");
    let answer = row.call(rt);
    if answer == Answer::Refused {
        say(rt, "refused");
    }
    let _ = println!(rt; "");
    answer
}

/// Prints that all is prepared: from here on a row takes no memory.
pub(crate) fn mark(rt: &HostRuntime, row: &str) {
    let _ = println!(rt; "{row} marked");
}

/// Prints a fact on a line of its own.
pub(crate) fn line<T: Debug>(rt: &HostRuntime, about: &str, fact: &T) {
    let _ = println!(rt; "{about} {fact:?}");
}

/// Prints a fact on the line.
pub(crate) fn tell<T: Debug>(rt: &HostRuntime, fact: &T) {
    let _ = print!(rt; " {fact:?}");
}

/// Prints words on the line.
pub(crate) fn say(rt: &HostRuntime, words: &str) {
    let _ = print!(rt; " {words}");
}

/// Prints that a call was served.
pub(crate) fn served(rt: &HostRuntime) -> Answer {
    say(rt, "ok");
    Answer::Served
}

/// Prints what a call gave.
pub(crate) fn gave<T: Debug>(rt: &HostRuntime, fact: &T) -> Answer {
    say(rt, "ok");
    tell(rt, fact);
    Answer::Served
}

/// Prints an answer where it is no want of memory.
pub(crate) fn told<T: Debug + Drop>(rt: &HostRuntime, answer: Result<T, Refusal>) -> Answer {
    match answer {
        Ok(value) => gave(rt, &value),
        Err(Refusal::OutOfMemory) => Answer::Refused,
        Err(refusal) => {
            tell(rt, &refusal);
            Answer::Served
        }
    }
}

/// The error that says that a row was refused a growth outside its call.
pub(crate) fn unprepared() -> io::Error {
    ErrorKind::OutOfMemory.into()
}
