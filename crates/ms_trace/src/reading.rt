//! Reading a text as a trace, line by line. What is left of the text shrinks by a line a turn, and
//! what was read stands in `lines`: the lines cut off so far read as those. A last line without a
//! newline is read apart.
ghost use Rattle.std.specs.Prelude.{◌≡◌, ◌<◌, ◌-◌, ◌^◌, length, IfOk, IfErr, IsTrue, OnOk};
ghost use Rattle.ms_trace.specs.Faults.{BlamesText};
ghost use Rattle.ms_trace.specs.Grammar.{lines_of, most_lines};
ghost use Rattle.ms_trace.specs.Keeping.{AddsLine, Keeps, KeepsFirst, BlamesFirst, BlamesLine};
ghost use Rattle.ms_trace.specs.Spelling.{ReadsAs, ReadsFrom, rises_above};

use crate::commands::read_line;
use crate::cutting::{cut_last, cut_line, cut_silent, is_ended};
use crate::fault::{ParseFault, TraceFault};
use crate::spellings::command_before;
use crate::trace::{Command, Line, Lines, MOST_LINES, Trace};
use std::alloc::{Allocator, Global};

/// The bytes of the shortest command line with its newline, `sync`.
const SHORTEST: usize = 5;

/// Reads a text as a trace of at most 100000 lines. The fault is that of the first faulty line, by
/// its first failing check; OutOfMemory comes only where the allocator refused a growth. One pass over
/// the text, which isn't copied; memory for the command lines alone, in one piece. The grammar is this
/// project's choice.
pub fn parse(alloc: Global, text: &[u8]) -> Result<Trace, ParseFault>
    ensures reads { IfOk result (λ trace. ReadsAs most_lines text.now trace) }
    ensures in_order { IfOk result (λ trace. IsTrue (rises_above most_lines 0 trace.lines)) }
    ensures faults { IfErr result (λ fault. BlamesText most_lines text.now fault) }
{
    parse_within(alloc, text, MOST_LINES)
}

/// Reads a text as a trace of at most `most` lines, and otherwise as `parse` does. This project's
/// choice.
pub fn parse_within(alloc: Global, text: &[u8], most: u32) -> Result<Trace, ParseFault>
    requires { most < 2 ^ 32 - 1 }
    ensures reads { IfOk result (λ trace. ReadsAs most text.now trace) }
    ensures in_order { IfOk result (λ trace. IsTrue (rises_above most 0 trace.lines)) }
    ensures faults { IfErr result (λ fault. BlamesText most text.now fault) }
{
    match read_lines(alloc, text, most) {
        Ok(items) => Ok(Trace {
            lines: Lines::from_vec(items),
        }),
        Err(fault) => Err(fault),
    }
}

/// Reads the command lines of a text, of at most so many lines, in memory of any allocator.
pub(crate) fn read_lines<A: Allocator>(
    alloc: A,
    text: &[u8],
    most: u32,
) -> Result<Vec<Line, A>, ParseFault>
    requires { most < 2 ^ 32 - 1 }
    ensures reads { IfOk result (λ lines. ReadsFrom most 1 (lines_of text.now) lines.items) }
    ensures in_order { IfOk result (λ lines. IsTrue (rises_above most 0 lines.items)) }
    ensures faults { IfErr result (λ fault. BlamesText most text.now fault) }
{
    // In one piece, which nothing touches but the lines that there are.
    let room = (text.len() / SHORTEST).min(most as usize);
    let Ok(mut lines) = Vec::with_capacity(alloc, room) else {
        return Err(ParseFault::OutOfMemory);
    };
    let (whole, last) = cut_last(text);
    let mut rest = whole;
    let mut number: u32 = 0;
    while !rest.is_empty() {
        number += 1;
        rest = keep_first(&mut lines, most, number, rest)?;
    }
    if last.is_empty() {
        return Ok(lines);
    }
    keep(&mut lines, most, number + 1, last)?;
    Ok(lines)
}

/// Keeps the command of a text's first line, which has that number of at most so many, if it gives one, and answers
/// what stands after that line. Most lines are spelled as `spellings` reads them, or silent; any
/// other is cut off and judged.
fn keep_first<'a, A: Allocator>(
    lines: &mut Vec<Line, A>,
    most: u32,
    number: u32,
    text: &'a [u8],
) -> Result<&'a [u8], ParseFault>
    requires { 0 < length text.now }
    ensures kept { IfOk result (λ rest. KeepsFirst most number text.now rest.now lines.old.items lines.new.items) }
    ensures fault { IfErr result (λ fault. BlamesFirst most number text.now fault) }
{
    if number <= most
        && is_ended(text)
        && let Some((command, rest)) = command_before(text)
    {
        add(lines, number, command)?;
        return Ok(rest);
    }
    if number <= most
        && let Some(rest) = cut_silent(text)
    {
        return Ok(rest);
    }
    let (line, after) = cut_line(text);
    keep(lines, most, number, line)?;
    Ok(after.unwrap_or(b"".as_slice()))
}

/// Reads the line of that number, of at most so many, and keeps its command, if it gives one.
#[inline(always)]
fn keep<A: Allocator>(
    lines: &mut Vec<Line, A>,
    most: u32,
    number: u32,
    line: &[u8],
) -> Result<(), ParseFault>
    ensures kept { OnOk result (Keeps most number line.now lines.old.items lines.new.items) }
    ensures fault { IfErr result (λ fault. BlamesLine most number line.now fault) }
{
    match read_line(most, number, line) {
        Err(kind) => Err(ParseFault::Trace(TraceFault { line: number, kind })),
        Ok(None) => Ok(()),
        Ok(Some(command)) => add(lines, number, command),
    }
}

/// Adds a command under the number of its line.
#[inline(always)]
fn add<A: Allocator>(
    lines: &mut Vec<Line, A>,
    number: u32,
    command: Command,
) -> Result<(), ParseFault>
    ensures added { OnOk result (AddsLine number command lines.old.items lines.new.items) }
    ensures fault { IfErr result (λ fault. fault ≡ ParseFault.OutOfMemory) }
{
    match lines.push(Line::new(number, command)) {
        Ok(()) => Ok(()),
        Err(_) => Err(ParseFault::OutOfMemory),
    }
}
