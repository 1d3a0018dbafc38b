//! The program as a call: the command line is judged, then the trace is read, run and answered.
ghost use Rattle.std.specs.Prelude.{◌≡◌, ◌≢◌, ◌≤◌, ◌⊎◌, IfSome, length, map};
ghost use Rattle.std.specs.Io.KnownBytes.{Keeps};
ghost use Rattle.ms_session.specs.Asked.{AskTooMuch, IsDefault};
ghost use Rattle.command_line.specs.Told.{AreNotTaken, AskToBeTold, IsTold, IsUsage};
ghost use Rattle.ms_session.specs.CommandLine.{IsCommandLine};
ghost use Rattle.ms_session.specs.declared.asked.Options.{Options};
ghost use Rattle.ms_session.specs.Session.{IsAnswered};
ghost use Rattle.ms_session.specs.Start.{IsFaulty, IsObeyed, IsStopped};

use crate::answering::session;
use crate::devices::write_text;
use crate::failure::Failure;
use crate::options::options_of;
use command_line::Refused;
use std::alloc::Global;
use std::convert::AsStr;
use std::io::{Read, Write};
use std::rt::Files;
use std::sync::Wait;
use std::thread::Threads;

/// Reads a command line, whose first word is the program's name, and runs what it asks for;
/// returns the exit status.
///
/// 0: each line of the trace is answered, or the help or the version was written. 2: the command
/// line is refused, which a line on `errors` explains, and nothing was read. The other statuses are those of a
/// session; 3 also comes where the text of a refused command line, of the help or of the version
/// lacks memory, and 5 where help or version could not be written. With 1, 2 and 3 nothing was
/// written to `output`. This project's choice.
pub fn start<T: Threads + Wait + Files + Sync, S: AsStr, R: Read, W: Write, E: Write>(
    rt: &T,
    alloc: Global,
    words: &[S],
    input: &mut R,
    output: &mut W,
    errors: &mut E,
) -> u8
    ensures answered { result ≡ 0 → length words.now ≤ 1 → (options : Options)
        × IsDefault options
        × IsAnswered options (R.remaining input.old) (R.remaining input.new)
        (W.contents output.old) (W.contents output.new) }
    ensures obeyed { result ≡ 0
        → (AskToBeTold IsCommandLine (map S.text words.now) × (R.remaining input.new ≡ R.remaining input.old))
        ⊎ IsObeyed (map S.text words.now) (R.remaining input.old) (R.remaining input.new)
        (W.contents output.old) (W.contents output.new) }
    ensures faulty { result ≡ 1 → IfSome (R.remaining input.old) (IsFaulty (map S.text words.now)) }
    ensures failed { result ≡ 5
        → (AskToBeTold IsCommandLine (map S.text words.now) × (R.remaining input.new ≡ R.remaining input.old))
        ⊎ IsStopped (map S.text words.now) (R.remaining input.old) (R.remaining input.new)
        (W.contents output.old) (W.contents output.new) }
    ensures usage { result ≡ 2
        → AreNotTaken IsCommandLine (map S.text words.now) ⊎ AskTooMuch (map S.text words.now) }
    ensures unread { result ≡ 2 → R.remaining input.new ≡ R.remaining input.old }
    ensures untouched { (result ≡ 1) ⊎ (result ≡ 2) ⊎ (result ≡ 3)
        → Keeps (W.contents output.old) (W.contents output.new) }
    ensures statuses { (result ≤ 3) ⊎ (result ≡ 5) }
{
    match options_of(alloc, words) {
        Ok(options) => session(rt, alloc, &options, input, output, errors),
        Err(refused) => tell(refused, output, errors),
    }
}

/// Writes why there are no options: help and version on `output`, all else on `errors`; returns the
/// exit status.
fn tell<W: Write, E: Write>(refused: Refused, output: &mut W, errors: &mut E) -> u8
    ensures told { (result ≡ 0) ⊎ (result ≡ 5) → IsTold refused }
    ensures usage { result ≡ 2 → IsUsage refused }
    ensures no_fault { result ≢ 1 }
    ensures untouched { (result ≡ 2) ⊎ (result ≡ 3)
        → Keeps (W.contents output.old) (W.contents output.new) }
    ensures statuses { (result ≤ 3) ⊎ (result ≡ 5) }
{
    match refused {
        Refused::Told(text) => match write_text(output, text.as_bytes()) {
            Ok(()) => 0,
            Err(_) => Failure::Output.tell(errors),
        },
        Refused::Usage(text) => {
            // Whether the text comes out changes no status.
            let _ = write_text(errors, text.as_bytes());
            2
        }
        Refused::OutOfMemory => Failure::OutOfMemory.tell(errors),
    }
}
