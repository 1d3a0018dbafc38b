//! Printing a trace as a text that reads as it.
ghost use Rattle.std.specs.Prelude.{◌≡◌, ℕ, ◌++◌, ◌∷◌, [], IfOk, OnOk, IsTrue, codes, decimal, replicate};
ghost use Rattle.std.specs.List.{join_with_byte};
ghost use Rattle.ms_trace.specs.Grammar.{any_line, kind_word};
ghost use Rattle.ms_trace.specs.Spelling.{IsValid, IsValidStep, ReadsAs, rises_above, spelling_of, step_fields};
ghost use Rattle.ms_trace.specs.Spelling.{text_of};

use crate::trace::{Command, Trace};
use itoa::Buffer;
use ms_base::{Kind, Step};
use std::alloc::{AllocError, Allocator};

/// Prints a trace whose line numbers rise from 1 on: each command with single spaces on the line of
/// its number, empty lines in the gaps, and a newline after the last. The trace without commands is
/// printed as no bytes. What is printed reads as the trace under each limit that its numbers keep.
/// This project's choice.
pub fn print<A: Allocator>(alloc: A, trace: &Trace) -> Result<Vec<u8, A>, AllocError>
    requires { IsTrue (rises_above any_line 0 trace.now.lines) }
    ensures text { IfOk result (λ text. text.items ≡ text_of trace.now) }
    ensures reads { IfOk result (λ text. (most : ℕ) → IsTrue (rises_above most 0 trace.now.lines)
        → ReadsAs most text.items trace.now) }
{
    let mut text = Vec::new(alloc);
    let mut last: u32 = 0;
    for line in trace.lines.as_slice() {
        let number = line.number();
        print_line(&mut text, number - last - 1, line.command())?;
        last = number;
    }
    Ok(text)
}

/// Prints so many empty lines, then a command and a newline.
fn print_line<A: Allocator>(
    text: &mut Vec<u8, A>,
    lines: u32,
    command: Command,
) -> Result<(), AllocError>
    ensures printed { OnOk result (text.new.items
        ≡ text.old.items ++ replicate lines 10 ++ spelling_of command ++ 10 ∷ []) }
    ensures valid { IsValid command }
{
    print_gap(text, lines)?;
    print_command(text, command)?;
    text.extend_from_slice(b"\n".as_slice())
}

/// Prints so many empty lines.
fn print_gap<A: Allocator>(text: &mut Vec<u8, A>, lines: u32) -> Result<(), AllocError>
    ensures { OnOk result (text.new.items ≡ text.old.items ++ replicate lines 10) }
{
    text.resize(text.len() + lines as usize, b'\n')
}

/// Prints a command at the end of a text, without a newline. This project's choice.
pub fn print_command<A: Allocator>(
    text: &mut Vec<u8, A>,
    command: Command,
) -> Result<(), AllocError>
    ensures printed { OnOk result (text.new.items ≡ text.old.items ++ spelling_of command) }
    ensures valid { IsValid command }
{
    match command {
        Command::Step(step) => print_step(text, step),
        Command::Sync => text.extend_from_slice(b"sync".as_slice()),
        Command::Report => text.extend_from_slice(b"report".as_slice()),
    }
}

/// Prints a step.
fn print_step<A: Allocator>(text: &mut Vec<u8, A>, step: Step) -> Result<(), AllocError>
    ensures printed { OnOk result (text.new.items ≡ text.old.items ++ join_with_byte 32 (step_fields step)) }
    ensures valid { IsValidStep step }
{
    match step {
        Step::New { loader, kind } => print_new(text, loader, kind),
        Step::Alloc {
            loader,
            block,
            words,
        } => print_block_number(text, b"alloc".as_slice(), loader, block, words),
        Step::Calloc {
            loader,
            block,
            words,
        } => print_block_number(text, b"calloc".as_slice(), loader, block, words),
        Step::Write {
            loader,
            block,
            index,
            value,
        } => print_write(text, loader, block, index, value),
        Step::Read {
            loader,
            block,
            index,
        } => print_block_number(text, b"read".as_slice(), loader, block, index),
        Step::Free { loader, block } => print_block(text, b"free".as_slice(), loader, block),
        Step::Unload { loader } => print_loader(text, b"unload".as_slice(), loader),
        Step::Purge => text.extend_from_slice(b"purge".as_slice()),
    }
}

/// Prints the step that opens a loader.
fn print_new<A: Allocator>(text: &mut Vec<u8, A>, loader: u16, kind: Kind) -> Result<(), AllocError>
    ensures { OnOk result (text.new.items
        ≡ text.old.items ++ codes "new" ++ 32 ∷ decimal loader ++ 32 ∷ kind_word kind) }
{
    print_loader(text, b"new".as_slice(), loader)?;
    print_kind(text, kind)
}

/// Prints the step that writes a word of a block.
fn print_write<A: Allocator>(
    text: &mut Vec<u8, A>,
    loader: u16,
    block: u32,
    index: u64,
    value: u64,
) -> Result<(), AllocError>
    ensures { OnOk result (text.new.items
        ≡ text.old.items ++ codes "write" ++ 32 ∷ decimal loader ++ 32 ∷ decimal block
        ++ 32 ∷ decimal index ++ 32 ∷ decimal value) }
{
    print_block_number(text, b"write".as_slice(), loader, block, index)?;
    print_number(text, value)
}

/// Prints a word, then a loader.
fn print_loader<A: Allocator>(
    text: &mut Vec<u8, A>,
    word: &[u8],
    loader: u16,
) -> Result<(), AllocError>
    ensures { OnOk result (text.new.items ≡ text.old.items ++ word.now ++ 32 ∷ decimal loader) }
{
    text.extend_from_slice(word)?;
    print_number(text, u64::from(loader))
}

/// Prints a word, then a loader and a block.
fn print_block<A: Allocator>(
    text: &mut Vec<u8, A>,
    word: &[u8],
    loader: u16,
    block: u32,
) -> Result<(), AllocError>
    ensures { OnOk result (text.new.items
        ≡ text.old.items ++ word.now ++ 32 ∷ decimal loader ++ 32 ∷ decimal block) }
{
    print_loader(text, word, loader)?;
    print_number(text, u64::from(block))
}

/// Prints a word, then a loader, a block and a number.
fn print_block_number<A: Allocator>(
    text: &mut Vec<u8, A>,
    word: &[u8],
    loader: u16,
    block: u32,
    number: u64,
) -> Result<(), AllocError>
    ensures { OnOk result (text.new.items
        ≡ text.old.items ++ word.now ++ 32 ∷ decimal loader ++ 32 ∷ decimal block
        ++ 32 ∷ decimal number) }
{
    print_block(text, word, loader, block)?;
    print_number(text, number)
}

/// Prints a space and a number.
fn print_number<A: Allocator>(text: &mut Vec<u8, A>, number: u64) -> Result<(), AllocError>
    ensures { OnOk result (text.new.items ≡ text.old.items ++ 32 ∷ decimal number) }
{
    let mut buffer = Buffer::new();
    text.extend_from_slice(b" ".as_slice())?;
    text.extend_from_slice(buffer.format(number).as_bytes())
}

/// Prints a space and the word of a kind.
fn print_kind<A: Allocator>(text: &mut Vec<u8, A>, kind: Kind) -> Result<(), AllocError>
    ensures { OnOk result (text.new.items ≡ text.old.items ++ 32 ∷ kind_word kind) }
{
    let word = match kind {
        Kind::Standard => b" standard".as_slice(),
        Kind::Boot => b" boot".as_slice(),
        Kind::Reflection => b" reflection".as_slice(),
        Kind::Hidden => b" hidden".as_slice(),
    };
    text.extend_from_slice(word)
}
