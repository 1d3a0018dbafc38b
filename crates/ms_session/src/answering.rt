//! A session: the whole input is read and parsed, then run, while the text of the answers grows in
//! the room that the input had, in the form that is asked for, then that text is written.
ghost use Rattle.std.specs.Prelude.{◌≡◌, ◌⊎◌, ◌≤◌, ◌<◌, ◌^◌, ℕ, List, IfOk, IfErr, IfSome, length, string_bytes};
ghost use Rattle.std.specs.Io.KnownBytes.{Keeps};
ghost use Rattle.ms_trace.specs.declared.fault.FaultKind.{FaultKind};
ghost use Rattle.ms_trace.specs.Faults.{HasFault};
ghost use Rattle.ms_session.specs.Failure.{Blames, IsPageless, IsSettled};
ghost use Rattle.ms_session.specs.Session.{IsDocument, IsOutput, IsAnswered, IsBrokenOff, IsText, IsWhole};

use crate::asked::{Form, Options};
use crate::charting::Chart;
use crate::devices::{most_bytes, read_text, write_text};
use crate::failure::Failure;
use crate::naming::{names_asked, names_at_end, push_names};
use crate::watching::watched;
use ms_html::page;
use ms_json::Document;
use ms_report::AnswerText;
use ms_run::{NoGate, replay_into, replay_observed};
use ms_trace::{Trace, parse_within};
use std::alloc::Global;
use std::io::{Read, Write};
use std::rt::Files;
use std::sync::Wait;
use std::thread::Threads;

/// Reads a trace, runs it, and writes the answer to each of its lines, in the form that is asked for;
/// returns the exit status.
///
/// 0: each line is answered. 1: the trace has a fault, which a line on `errors` names; 3: memory or a thread was
/// wanting; in both cases nothing was written to `output`. 5: a device failed, or the file of names,
/// which can't be read or doesn't fit the trace, and no more than a beginning of the answer was
/// written, and nothing unless all of the input was read. Nothing runs before the whole trace is
/// read, and the file of names after it. With two workers or more it waits for their threads. This
/// project's choice.
pub fn session<T: Threads + Wait + Files + Sync, R: Read, W: Write, E: Write>(
    rt: &T,
    alloc: Global,
    options: &Options,
    input: &mut R,
    output: &mut W,
    errors: &mut E,
) -> u8
    ensures answered { result ≡ 0
        → IsAnswered options.now (R.remaining input.old) (R.remaining input.new)
        (W.contents output.old) (W.contents output.new) }
    ensures faulty { result ≡ 1 → IfSome (R.remaining input.old) (λ bytes. (line : ℕ)
        × (kind : FaultKind) × HasFault options.now.max_lines bytes line kind) }
    ensures untouched { (result ≡ 1) ⊎ (result ≡ 3)
        → Keeps (W.contents output.old) (W.contents output.new) }
    ensures failed { result ≡ 5
        → IsBrokenOff options.now (R.remaining input.old) (R.remaining input.new)
        (W.contents output.old) (W.contents output.new) }
    ensures statuses { (result ≡ 0) ⊎ (result ≡ 1) ⊎ (result ≡ 3) ⊎ (result ≡ 5) }
{
    match answer_to(rt, alloc, options, input) {
        Ok(text) => match write_text(output, text.as_bytes()) {
            Ok(()) => 0,
            Err(_) => Failure::Output.tell(errors),
        },
        Err(failure) => failure.tell(errors),
    }
}

/// Reads a trace, runs it, and returns its answer in the form that is asked for.
fn answer_to<T: Threads + Wait + Files + Sync, R: Read>(
    rt: &T,
    alloc: Global,
    options: &Options,
    input: &mut R,
) -> Result<String, Failure>
    ensures ok { IfOk result (λ text. (bytes : List ℕ)
        × IsWhole (R.remaining input.old) (R.remaining input.new) bytes
        × IsOutput options.now bytes (string_bytes text)) }
    ensures err { IfErr result (λ failure. IfSome (R.remaining input.old)
        (λ bytes. Blames options.now.max_lines bytes failure)) }
    ensures settled { IfErr result IsSettled }
{
    let text = read_text(alloc, input, most_bytes(options.max_lines))?;
    let trace = parse_within(alloc, &text, options.max_lines)?;
    let room = emptied(text);
    match options.form {
        Form::Text => text_of(rt, alloc, options, &trace, room),
        Form::Html => page_of(rt, alloc, options, &trace, room),
        Form::Json => document_of(rt, alloc, options, &trace, room),
    }
}

/// Runs a trace, and returns the text of its answers, and of names where a file has them, in this
/// room.
fn text_of<T: Threads + Wait + Files + Sync>(
    rt: &T,
    alloc: Global,
    options: &Options,
    trace: &Trace,
    room: String,
) -> Result<String, Failure>
    ensures ok { IfOk result (λ text. IsText options.now trace.now (string_bytes text)) }
    ensures err { IfErr result IsPageless }
{
    let (settings, verbosity) = (options.settings, options.verbosity);
    let named = names_asked(rt, alloc, options, trace.lines.as_slice())?;
    let mut answers = AnswerText::new(room, options.addresses, verbosity, settings);
    replay_into(rt, alloc, trace, settings, verbosity, &NoGate, &mut answers)?;
    let mut text = answers.into_text();
    push_names(alloc, &mut text, named.as_slice())?;
    Ok(text)
}

/// Runs a trace by one worker, and returns the document of its answers, its course, its end, and the
/// names of its loaders where a file has them, in this room.
fn document_of<T: Files>(
    rt: &T,
    alloc: Global,
    options: &Options,
    trace: &Trace,
    room: String,
) -> Result<String, Failure>
    requires few { length trace.now.lines < 2 ^ 32 }
    ensures ok { IfOk result (λ text. IsDocument options.now trace.now (string_bytes text)) }
    ensures err { IfErr result IsPageless }
{
    let lines = trace.lines.as_slice().len() as u32;
    let settings = options.settings;
    let named = names_asked(rt, alloc, options, trace.lines.as_slice())?;
    let mut chart = Chart::new(alloc, lines)?;
    let mut document = Document::new(alloc, room, options.addresses)?;
    let end = replay_observed(alloc, trace, settings, &mut document, &mut chart)?;
    let columns = chart.columns.columns();
    let text = document.finish(alloc, &settings, lines, columns, &end, named.as_slice())?;
    Ok(text)
}

/// Runs a trace by one worker, and returns the page that shows its course, its end, and the names of
/// its loaders where a file has them, in this room.
fn page_of<T: Files>(
    rt: &T,
    alloc: Global,
    options: &Options,
    trace: &Trace,
    room: String,
) -> Result<String, Failure>
    requires few { length trace.now.lines < 2 ^ 32 }
    ensures err { IfErr result IsPageless }
{
    let settings = options.settings;
    let named = names_asked(rt, alloc, options, trace.lines.as_slice())?;
    let (course, end) = watched(alloc, settings, trace)?;
    let names = names_at_end(alloc, named, &course)?;
    let text = page(alloc, room, &settings, &course, &end, &names)?;
    Ok(text)
}

/// Empties a text that was read, and keeps its room for the answers: they are seldom longer.
fn emptied(mut text: Vec<u8>) -> String {
    text.clear();
    match String::from_utf8(text) {
        Ok(room) => room,
        Err(_) => unreachable!(),
    }
}
