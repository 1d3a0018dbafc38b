//! The program as a call: the command line is judged, then the log is read.
ghost use Rattle.std.specs.Prelude.{◌≡◌, ◌≤◌, ◌⊎◌, IfSome, map};
ghost use Rattle.command_line.specs.Told.{AreNotTaken, AskToBeTold};
ghost use Rattle.log_session.specs.CommandLine.{IsCommandLine};
ghost use Rattle.log_session.specs.Release.{LogIsOfJdk17};
ghost use Rattle.log_session.specs.Trace.{ConvertsAsked};

use crate::converting::session;
use crate::failure::Failure;
use crate::options::options_of;
use command_line::Refused;
use std::alloc::Global;
use std::convert::AsStr;
use std::io::{BufRead, Write};
use std::rt::Files;

/// Reads a command line, whose first word is the program's name, and does what it asks for; returns
/// the exit status.
///
/// 0: the trace is written, or the help or the version. 1: nothing can be made of the log, or it is of
/// another release than JDK 17. 2: the command line is refused, and nothing was read. 3: memory
/// ran out. 5: a device failed. What is wrong goes to `errors`. This project's choice.
#[tactic(auto, using(crate::proofs::StatusLemmas::status_is_few, crate::proofs::StatusLemmas::status_is_no_usage, crate::proofs::StatusLemmas::status_is_no_success))]
pub fn start<T: Files, S: AsStr, R: BufRead, W: Write, E: Write>(
    rt: &T,
    alloc: Global,
    words: &[S],
    input: &mut R,
    output: &mut W,
    errors: &mut E,
) -> u8
    ensures unread { result ≡ 2 → R.remaining input.new ≡ R.remaining input.old }
    ensures usage { result ≡ 2 → AreNotTaken IsCommandLine (map S.text words.now) }
    ensures statuses { result ≤ 5 }
    ensures release { result ≡ 0 → (R.remaining input.new ≡ R.remaining input.old)
        ⊎ IfSome (R.remaining input.old) LogIsOfJdk17 }
    ensures trace { result ≡ 0 → AskToBeTold IsCommandLine (map S.text words.now)
        ⊎ ConvertsAsked (map S.text words.now) (R.remaining input.old) (W.contents output.old) (W.contents output.new) }
{
    match options_of(alloc, words) {
        Ok(options) => session(rt, alloc, &options, input, output, errors),
        Err(Refused::Told(text)) => match output.write_all(text.as_bytes()) {
            Ok(()) => 0,
            Err(_) => Failure::Output.tell(errors),
        },
        Err(Refused::Usage(text)) => {
            // Whether the text comes out changes no status.
            let _ = errors.write_all(text.as_bytes());
            2
        }
        Err(Refused::OutOfMemory) => Failure::OutOfMemory.tell(errors),
    }
}
