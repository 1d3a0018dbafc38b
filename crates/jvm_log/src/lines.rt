//! Reading a log from any reader, line by line, in memory for one line.
ghost use Rattle.std.specs.Prelude.{◌≡◌, ◌≢◌, [], IfOk, IfSome, OnOk, Some, true, false};
ghost use Rattle.std.specs.Io.BufRead.{drop_through, take_through};
ghost use Rattle.std.specs.Io.KnownBytes.{IsAtEnd};
ghost use Rattle.jvm_log.specs.Hearing.{HearsLine, HearsLog, trimmed};
ghost use Rattle.jvm_log.specs.Reading.{said_in};

use crate::event::Said;
use crate::reading::said_in;
use std::alloc::{AllocError, Global};
use std::io::{self, BufRead, ErrorKind, Write};

/// Who hears what the lines of a log say, and writes on an output.
pub trait Listener {
    ghost use Rattle.std.specs.Prelude.{ℕ, List, Option};
    ghost use Rattle.jvm_log.specs.declared.event.Said.{Said};

    /// What hearing the line of a number, and what it says, makes of the listener and of the bytes
    /// that the output holds, as far as they are known.
    ghost hears: { Self × Option (List ℕ) → ℕ → List ℕ → Said → Self × Option (List ℕ) → Type 0 };

    /// Hears the line of that number, without its newline, and what it says; lines count from 1.
    /// After an error it hears no more.
    fn hear<W: Write>(
        &mut self,
        output: &mut W,
        number: u64,
        line: &[u8],
        said: Said,
    ) -> Result<(), Stop>
        ensures { OnOk result (hears (self.old, W.contents output.old) number line.now said
            (self.new, W.contents output.new)) };
}

/// Why no more of a log is read.
#[derive(Clone, Copy, Debug, PartialEq, Eq)]
pub enum Stop {
    /// The reader failed.
    Input,
    /// The listener has nowhere to put what it makes.
    Output,
    /// The line of that number is of another release than JDK 17.
    OtherRelease(u64),
    /// A growth was refused.
    OutOfMemory,
}

/// Reads a log to its end, and passes what each line says to the listener, in their order. Returns
/// how many lines there were. In whatever pieces the reader gives it, the listener hears the same.
pub fn read_log<R: BufRead, L: Listener, W: Write>(
    alloc: Global,
    input: &mut R,
    listener: &mut L,
    output: &mut W,
) -> Result<u64, Stop>
    ensures { OnOk result (HearsLog L.hears (listener.old, W.contents output.old) (R.remaining input.old)
        (listener.new, W.contents output.new)) }
{
    let mut line = Vec::new(alloc);
    for number in 1..u64::MAX {
        let more = next_line(input, &mut line)?;
        if !more {
            return Ok(number - 1);
        }
        hear_line(listener, output, number, &line)?;
    }
    Err(Stop::Input)
}

/// Passes the line of that number to a listener, where it says anything.
fn hear_line<L: Listener, W: Write>(
    listener: &mut L,
    output: &mut W,
    number: u64,
    line: &[u8],
) -> Result<(), Stop>
    ensures { OnOk result (HearsLine L.hears (listener.old, W.contents output.old) number (trimmed line.now)
        (said_in (trimmed line.now)) (listener.new, W.contents output.new)) }
{
    let text = trimmed(line);
    match said_in(text) {
        Some(said) => listener.hear(output, number, text, said),
        None => Ok(()),
    }
}

/// Reads the next line, with its newline if it has one, in place of the one before, and returns
/// whether there was one.
fn next_line<R: BufRead>(input: &mut R, line: &mut Vec<u8>) -> Result<bool, Stop>
    ensures line { OnOk result (IfSome (R.remaining input.old)
        (λ bytes. line.new.items ≡ take_through 10 bytes)) }
    ensures rest { OnOk result (IfSome (R.remaining input.old)
        (λ bytes. R.remaining input.new ≡ Some (drop_through 10 bytes))) }
    ensures end { IfOk result (λ more. more ≡ false → IsAtEnd (R.remaining input.old)) }
    ensures some { IfOk result (λ more. more ≡ true → line.new.items ≢ []) }
{
    line.clear();
    match input.read_until(b'\n', line) {
        Ok(count) => Ok(count != 0),
        Err(error) => Err(stop_of(&error)),
    }
}

/// Returns what an error of a reader makes of a log.
fn stop_of(error: &io::Error) -> Stop {
    match error.kind() {
        ErrorKind::OutOfMemory => Stop::OutOfMemory,
        _ => Stop::Input,
    }
}

/// Returns a line without its newline.
fn trimmed(line: &[u8]) -> &[u8]
    ensures { result.now ≡ trimmed line.now }
{
    match line.strip_suffix(b"\n".as_slice()) {
        Some(front) => front,
        None => line,
    }
}

impl From<AllocError> for Stop {
    ghost use Rattle.std.specs.Prelude.{◌≡◌};
    ghost use Rattle.jvm_log.specs.declared.lines.Stop.TheVariants.{OutOfMemory};

    ghost from_gives = { λ _ stop. stop ≡ OutOfMemory };

    fn from(_error: AllocError) -> Stop {
        Stop::OutOfMemory
    }
}
