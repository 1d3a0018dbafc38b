//! Lines in a row that are answered `ok`.
ghost use Rattle.std.specs.Prelude.{◌≡◌, ◌++◌, ◌∷◌, [], true, None, Some, OnOk, codes, decimal, string_bytes};
ghost use Rattle.json.specs.Print.{quoted};
ghost use Rattle.serde_json.specs.Written.{compact_text};
ghost use Rattle.ms_base.specs.ReplyText.{name_of, reply_text};
ghost use Rattle.ms_json.specs.Rows.{elements_run, is_later, is_plain};
ghost use Rattle.ms_json.specs.Document.{answer_data, closed, is_done, run_data, told_by, with_line};

use crate::writing::{push_comma, push_number, push_word};
use ms_answers::Answer;
use ms_base::{Refusal, Reply};
use std::alloc::AllocError;

/// Lines one after the other that are answered `ok`, by the numbers of the first and the last.
#[derive(Clone, Copy, Debug)]
pub(crate) struct Run {
    pub first: u32,
    pub last: u32,
}

/// Returns whether a reply is shown as `ok`.
fn is_done(addresses: bool, reply: Reply) -> bool
    ensures { result ≡ is_done addresses reply }
{
    match reply {
        Reply::Ok => true,
        Reply::At(_) => !addresses,
        Reply::Value(_) | Reply::Refused(_) => false,
    }
}

/// Lengthens the pending run by a line that is answered `ok`: returns the run that is complete then,
/// if any, and the one that is pending.
fn lengthened(pending: Option<Run>, line: u32) -> (Option<Run>, Run)
    ensures { with_line pending line ≡ (closed result.0, Some result.1) }
{
    let alone = Run {
        first: line,
        last: line,
    };
    let Some(run) = pending else {
        return (None, alone);
    };
    if u64::from(run.last) + 1 == u64::from(line) {
        let longer = Run {
            first: run.first,
            last: line,
        };
        return (None, longer);
    }
    (Some(run), alone)
}

/// Appends the elements that are complete with an answer.
pub(crate) fn push_told(
    text: &mut String,
    later: &mut bool,
    pending: &mut Option<Run>,
    addresses: bool,
    answer: &Answer,
) -> Result<(), AllocError>
    ensures text { OnOk result (string_bytes text.new
        ≡ string_bytes text.old
        ++ elements_run later.old (told_by addresses pending.old answer.now).0) }
    ensures later { OnOk result
        (later.new ≡ is_later later.old (told_by addresses pending.old answer.now).0) }
    ensures run { OnOk result (pending.new ≡ (told_by addresses pending.old answer.now).1) }
{
    if is_done(addresses, answer.reply) {
        return push_done(text, later, pending, answer.line);
    }
    push_other(text, later, pending, addresses, answer)
}

/// Appends the run that a line answered `ok` completes, and opens the one that it is of.
fn push_done(
    text: &mut String,
    later: &mut bool,
    pending: &mut Option<Run>,
    line: u32,
) -> Result<(), AllocError>
    ensures text { OnOk result (string_bytes text.new
        ≡ string_bytes text.old ++ elements_run later.old (with_line pending.old line).0) }
    ensures later { OnOk result (later.new ≡ is_later later.old (with_line pending.old line).0) }
    ensures run { OnOk result (pending.new ≡ (with_line pending.old line).1) }
{
    let (complete, run) = lengthened(*pending, line);
    *pending = Some(run);
    push_closed(text, later, complete)
}

/// Appends the run that is open, and the element of a line that is not answered `ok`.
fn push_other(
    text: &mut String,
    later: &mut bool,
    pending: &mut Option<Run>,
    addresses: bool,
    answer: &Answer,
) -> Result<(), AllocError>
    ensures text { OnOk result (string_bytes text.new
        ≡ string_bytes text.old ++ elements_run later.old (closed pending.old
        ++ answer_data answer.now.line answer.now.line (reply_text addresses answer.now.reply) ∷ [])) }
    ensures later { OnOk result (later.new ≡ true) }
    ensures run { OnOk result (pending.new ≡ None) }
{
    push_closed(text, later, *pending)?;
    *pending = None;
    push_comma(text, *later)?;
    *later = true;
    push_alone(text, addresses, answer.line, answer.reply)
}

/// Appends the run that is open, where there is one.
pub(crate) fn push_closed(
    text: &mut String,
    later: &mut bool,
    run: Option<Run>,
) -> Result<(), AllocError>
    ensures text { OnOk result (string_bytes text.new
        ≡ string_bytes text.old ++ elements_run later.old (closed run)) }
    ensures later { OnOk result (later.new ≡ is_later later.old (closed run)) }
{
    let Some(run) = run else {
        return Ok(());
    };
    push_comma(text, *later)?;
    *later = true;
    push_run(text, run)
}

/// Appends a run.
fn push_run(text: &mut String, run: Run) -> Result<(), AllocError>
    ensures { OnOk result (string_bytes text.new
        ≡ string_bytes text.old ++ compact_text (run_data run)) }
{
    push_lines(text, run.first, run.last)?;
    text.push_str("\"ok\"]")
}

/// Appends the bracket and the two numbers that begin an element.
pub(crate) fn push_lines(text: &mut String, first: u32, last: u32) -> Result<(), AllocError>
    ensures { OnOk result (string_bytes text.new
        ≡ string_bytes text.old ++ (codes "[" ++ (decimal first ++ (codes "," ++ (decimal last ++ codes ","))))) }
{
    text.push_str("[")?;
    push_number(text, u128::from(first))?;
    text.push_str(",")?;
    push_number(text, u128::from(last))?;
    text.push_str(",")
}

/// Appends the element of one line.
fn push_alone(text: &mut String, addresses: bool, line: u32, reply: Reply) -> Result<(), AllocError>
    ensures { OnOk result (string_bytes text.new ≡ string_bytes text.old
        ++ compact_text (answer_data line line (reply_text addresses reply))) }
{
    push_lines(text, line, line)?;
    push_reply(text, addresses, reply)?;
    text.push_str("]")
}

/// Appends a reply between quotes.
fn push_reply(text: &mut String, addresses: bool, reply: Reply) -> Result<(), AllocError>
    ensures { OnOk result (string_bytes text.new
        ≡ string_bytes text.old ++ quoted (reply_text addresses reply)) }
{
    match reply {
        Reply::At(start) if addresses => push_told_number(text, "at ", start),
        Reply::Ok | Reply::At(_) => push_word(text, "ok"),
        Reply::Value(value) => push_told_number(text, "value ", value),
        Reply::Refused(refusal) => push_word(text, refused(refusal)),
    }
}

/// Appends a word and a number between quotes.
fn push_told_number(text: &mut String, word: &str, number: u64) -> Result<(), AllocError>
    requires { is_plain word.now ≡ true }
    ensures { OnOk result (string_bytes text.new
        ≡ string_bytes text.old ++ quoted (word.now ++ decimal number)) }
{
    text.push_str("\"")?;
    text.push_str(word)?;
    push_number(text, u128::from(number))?;
    text.push_str("\"")
}

/// Names a refusal, without its numbers.
fn refused(refusal: Refusal) -> &'static str
    ensures text { result.now ≡ codes "refused " ++ name_of refusal }
    ensures plain { is_plain result.now ≡ true }
{
    match refusal {
        Refusal::ZeroWords => "refused ZeroWords",
        Refusal::TooLarge => "refused TooLarge",
        Refusal::CommitLimit { .. } => "refused CommitLimit",
        Refusal::ReserveLimit { .. } => "refused ReserveLimit",
        Refusal::NotLive => "refused NotLive",
        Refusal::OutOfRange { .. } => "refused OutOfRange",
        Refusal::OutOfMemory => "refused OutOfMemory",
        Refusal::NoLoader => "refused NoLoader",
        Refusal::LoaderExists => "refused LoaderExists",
        Refusal::NoBlock => "refused NoBlock",
        Refusal::BlockExists => "refused BlockExists",
        Refusal::IdsUsedUp => "refused IdsUsedUp",
        Refusal::Unsettled { .. } => "refused Unsettled",
        Refusal::NoRoom { .. } => "refused NoRoom",
    }
}
