//! The lines that answer the commands of a trace, each report after the line that asked for it.
//!
//!     3 ok                    the number of the trace's line, and the reply
//!     Metaspace               .. then the report, where one was asked for
//!       loaders          1
//!
//! Kept true: a line is the bytes that `ms_base/specs/ReplyText.antt` gives. Takes memory for the
//! text alone.
ghost use Rattle.std.specs.Prelude.{◌≡◌, ◌≤◌, ◌++◌, OnOk, IsAscii, string_bytes, codes, decimal, take};
ghost use Rattle.ms_base.specs.ReplyText.{name_of, reply_line};
ghost use Rattle.ms_report.specs.ReplyLines.{answer_text};

use crate::columns::push_both;
use crate::detailed::push_detailed;
use crate::done_line::DoneLine;
use crate::line::push_cut;
use crate::refused::Refusals;
use ms_answers::{Answer, Verbosity};
use ms_base::{Refusal, Reply, Settings};
use std::alloc::AllocError;

/// Appends the line of an answer, and its report, with the refusals of the answers before it.
#[inline(always)]
pub(crate) fn push_answer(
    text: &mut String,
    done: &mut DoneLine,
    addresses: bool,
    verbosity: Verbosity,
    settings: &Settings,
    refusals: &Refusals,
    answer: &Answer,
) -> Result<(), AllocError>
    ensures { OnOk result (string_bytes text.new
        ≡ string_bytes text.old
        ++ answer_text addresses verbosity settings.now refusals.now answer.now) }
{
    push_reply_line(text, done, addresses, answer.line, answer.reply)?;
    if let Some(totals) = &answer.report {
        push_detailed(text, verbosity, settings, refusals, totals)?;
    }
    Ok(())
}

/// Appends the line that answers the command on a line of the trace.
#[inline(always)]
fn push_reply_line(
    text: &mut String,
    done: &mut DoneLine,
    addresses: bool,
    line: u32,
    reply: Reply,
) -> Result<(), AllocError>
    ensures { OnOk result (string_bytes text.new
        ≡ string_bytes text.old ++ reply_line addresses line reply) }
{
    let number = u64::from(line);
    match reply {
        Reply::At(start) if addresses => push_at(text, number, start),
        Reply::Ok | Reply::At(_) => done.push_to(text, line),
        Reply::Value(value) => push_value(text, number, value),
        Reply::Refused(refusal) => push_refusal(text, done, line, refusal),
    }
}

/// Appends the line that says where a block starts.
#[inline(always)]
fn push_at(text: &mut String, number: u64, start: u64) -> Result<(), AllocError>
    ensures { OnOk result (string_bytes text.new
        ≡ string_bytes text.old
        ++ (decimal number ++ (codes " at " ++ (decimal start ++ codes "\n")))) }
{
    push_both(text, number, " at ", start)
}

/// Appends the line that has a word's value.
#[inline(always)]
fn push_value(text: &mut String, number: u64, value: u64) -> Result<(), AllocError>
    ensures { OnOk result (string_bytes text.new
        ≡ string_bytes text.old
        ++ (decimal number ++ (codes " value " ++ (decimal value ++ codes "\n")))) }
{
    push_both(text, number, " value ", value)
}

/// Appends the line that names a refusal.
#[inline(always)]
fn push_refusal(
    text: &mut String,
    done: &mut DoneLine,
    line: u32,
    refusal: Refusal,
) -> Result<(), AllocError>
    ensures { OnOk result (string_bytes text.new
        ≡ string_bytes text.old
        ++ (decimal line ++ (codes " refused " ++ (name_of refusal ++ codes "\n")))) }
{
    done.push_number(text, line)?;
    let (piece, len) = refused(refusal);
    push_cut(text, piece, len)
}

/// Returns what follows the number on the line of a refusal, its name without its numbers: a piece,
/// and how many of its bytes that is.
fn refused(refusal: Refusal) -> (&'static [u8; 24], usize)
    ensures text { take result.1 result.0.now ≡ codes " refused " ++ (name_of refusal ++ codes "\n") }
    ensures within { result.1 ≤ 24 }
    ensures ascii { IsAscii result.0.now }
{
    match refusal {
        Refusal::ZeroWords => (b" refused ZeroWords\n     ", 19),
        Refusal::TooLarge => (b" refused TooLarge\n      ", 18),
        Refusal::CommitLimit { .. } => (b" refused CommitLimit\n   ", 21),
        Refusal::ReserveLimit { .. } => (b" refused ReserveLimit\n  ", 22),
        Refusal::NotLive => (b" refused NotLive\n       ", 17),
        Refusal::OutOfRange { .. } => (b" refused OutOfRange\n    ", 20),
        Refusal::OutOfMemory => (b" refused OutOfMemory\n   ", 21),
        Refusal::NoLoader => (b" refused NoLoader\n      ", 18),
        Refusal::LoaderExists => (b" refused LoaderExists\n  ", 22),
        Refusal::NoBlock => (b" refused NoBlock\n       ", 17),
        Refusal::BlockExists => (b" refused BlockExists\n   ", 21),
        Refusal::IdsUsedUp => (b" refused IdsUsedUp\n     ", 19),
        Refusal::Unsettled { .. } => (b" refused Unsettled\n     ", 19),
        Refusal::NoRoom { .. } => (b" refused NoRoom\n        ", 16),
    }
}
