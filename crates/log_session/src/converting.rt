//! A session: each line of the log is read, and what it says goes into a machine, which gives the
//! lines of the trace. They are written as they come, or in the end where blocks are joined.
ghost use Rattle.std.specs.Prelude.{◌≡◌, ◌≢◌, ◌≤◌, IfSome, OnOk};
ghost use Rattle.log_session.specs.Release.{LogIsOfJdk17};
ghost use Rattle.log_session.specs.Trace.{Converts};

use crate::conversion::Conversion;
use crate::failure::Failure;
use crate::options::Options;
use jvm_log::read_log;
use std::alloc::Global;
use std::fs;
use std::io::{BufRead, Write};
use std::rt::Files;

/// Reads a log and writes its trace; returns the exit status. Warnings go to `errors`. Reading ends
/// at the first line of another release than JDK 17, and nothing is written from there on. At status
/// 0 the output has grown by the trace of all that the log's lines say.
#[tactic(auto, using(crate::proofs::StatusLemmas::status_is_few, crate::proofs::StatusLemmas::status_is_no_usage, crate::proofs::StatusLemmas::status_is_no_success))]
pub fn session<T: Files, R: BufRead, W: Write, E: Write>(
    rt: &T,
    alloc: Global,
    options: &Options,
    input: &mut R,
    output: &mut W,
    errors: &mut E,
) -> u8
    ensures no_usage { result ≢ 2 }
    ensures statuses { result ≤ 5 }
    ensures release { result ≡ 0 → IfSome (R.remaining input.old) LogIsOfJdk17 }
    ensures trace { result ≡ 0 → Converts options.now (R.remaining input.old) (W.contents output.old)
        (W.contents output.new) }
{
    match convert(alloc, options, input, output, errors) {
        Ok(names) => match keep_names(rt, options, &names) {
            Ok(()) => 0,
            Err(failure) => failure.tell(errors),
        },
        Err(failure) => failure.tell(errors),
    }
}

/// Reads a log of JDK 17 and writes its trace; returns the text of the file of names.
fn convert<R: BufRead, W: Write, E: Write>(
    alloc: Global,
    options: &Options,
    input: &mut R,
    output: &mut W,
    errors: &mut E,
) -> Result<Vec<u8>, Failure>
    ensures release { OnOk result (IfSome (R.remaining input.old) LogIsOfJdk17) }
    ensures trace { OnOk result (Converts options.now (R.remaining input.old) (W.contents output.old)
        (W.contents output.new)) }
{
    let mut conversion = Conversion::new(alloc, *options, errors)?;
    let lines = read_log(alloc, input, &mut conversion, output)?;
    conversion.finish(lines, output)
}

/// Writes the file of names, where it is asked for.
fn keep_names<T: Files>(rt: &T, options: &Options, names: &[u8]) -> Result<(), Failure> {
    let Some(path) = options.names else {
        return Ok(());
    };
    match fs::write(rt, path, names) {
        Ok(()) => Ok(()),
        Err(_) => Err(Failure::Names),
    }
}
