//! Joining blocks: those of one arena that come one after the other, lie side by side, and are never
//! freed become one, so that a trace has fewer lines. This needs the whole trace.
//!
//!     alloc 3 7 20  at 0x1000      0x1000 + 20 * 8 = 0x10a0
//!     alloc 3 8 5   at 0x10a0      ->   alloc 3 7 25
//!
//! A line whose block is freed later has no address here, so it joins nothing.
ghost use Rattle.std.specs.Prelude.{◌≡◌, ◌≢◌, ◌≤◌, ◌++◌, ◌∷◌, [], ℕ, List, IsTrue, IsFalse, OnOk, IfOk, IfSome, IfNone};
ghost use Rattle.ms_base.specs.declared.kind.Space.{Space as SpaceOf};
ghost use Rattle.ms_base.specs.declared.step.Step.TheVariants.{Free};
ghost use Rattle.ms_trace.specs.declared.trace.Command.{Command as CommandOf};
ghost use Rattle.ms_trace.specs.declared.trace.Command.TheVariants.{Step as Asks};
ghost use Rattle.jvm_log.specs.declared.placed.Placed.{Placed as PlacedOf};
ghost use Rattle.jvm_log.specs.Steps.{step_for};
ghost use Rattle.log_session.specs.Joining.{IsJoined, Joins, Meets, end_of, forgot, forgotten, has, named_then};

use jvm_log::Placed;
use ms_base::{Space, Step};
use ms_trace::Command;
use std::alloc::{AllocError, Global};
use std::collections::HashSet;

/// The words that the smallest block takes.
const LEAST_WORDS: u64 = 2;

/// The bytes of a word.
const WORD_BYTES: u64 = 8;

/// A block that a line asks for.
#[derive(Clone, Copy)]
struct Asked {
    space: Space,
    loader: u16,
    block: u32,
    words: u64,
}

/// Joins blocks of a trace up to so many words. This project's choice.
pub fn join(alloc: Global, lines: &mut Vec<Placed>, most: u64) -> Result<(), AllocError>
    ensures { OnOk result (IsJoined most (forgotten lines.old.items) lines.new.items) }
{
    forget_freed(alloc, lines)?;
    let joined = joined(alloc, lines, most)?;
    *lines = joined;
    Ok(())
}

/// Returns the lines with those joined that may be.
fn joined(alloc: Global, lines: &[Placed], most: u64) -> Result<Vec<Placed>, AllocError>
    ensures { IfOk result (λ joined. IsJoined most lines.now joined.items) }
{
    let mut joined: Vec<Placed> = Vec::with_capacity(alloc, lines.len())?;
    for at in 0..lines.len() {
        add(&mut joined, lines[at], most)?;
    }
    Ok(joined)
}

/// Adds a line, to the last one where the two are joined.
fn add(joined: &mut Vec<Placed>, line: Placed, most: u64) -> Result<(), AllocError>
    ensures { OnOk result ((lines : List PlacedOf) → IsJoined most lines joined.old.items
        → IsJoined most (lines ++ line ∷ []) joined.new.items) }
{
    if !take_in(joined, line, most) {
        joined.push(line)?;
    }
    Ok(())
}

/// Has the last line take in another, where the two are joined, and returns whether they are.
fn take_in(joined: &mut Vec<Placed>, line: Placed, most: u64) -> bool
    ensures joined { IsTrue result → (lines : List PlacedOf) → IsJoined most lines joined.old.items
        → IsJoined most (lines ++ line ∷ []) joined.new.items }
    ensures unchanged { IsFalse result → joined.new ≡ joined.old }
{
    let Some(last) = joined.last().copied() else {
        return false;
    };
    let Some(command) = joining(last, line, most) else {
        return false;
    };
    let at = joined.len() - 1;
    joined[at] = Placed {
        command,
        address: last.address,
    };
    true
}

/// Returns the command that asks for the blocks of two lines as one, if the second lies right behind
/// the first, and both are of one arena and not too large together.
fn joining(last: Placed, line: Placed, most: u64) -> Option<Command>
    ensures some { IfSome result (λ command. Meets most last line command) }
    ensures none { IfNone result ((command : CommandOf) → Meets most last line command → ⊥) }
{
    if line.address == 0 || line.address != end_of(last) {
        return None;
    }
    both(last.command, line.command, most)
}

/// Returns the block that a command asks for.
fn block_of(command: Command) -> Option<Asked>
    ensures some { IfSome result (λ asked. command ≡ Asks (step_for asked.space asked.loader asked.block asked.words)) }
    ensures none { IfNone result ((space : SpaceOf) (loader block words : ℕ)
        → command ≢ Asks (step_for space loader block words)) }
{
    match command {
        Command::Step(
            Step::Alloc {
                loader,
                block,
                words,
            },
        ) => Some(Asked {
            space: Space::NonClass,
            loader,
            block,
            words,
        }),
        Command::Step(
            Step::Calloc {
                loader,
                block,
                words,
            },
        ) => Some(Asked {
            space: Space::Class,
            loader,
            block,
            words,
        }),
        _ => None,
    }
}

/// Returns the loader and the number of the block that a command frees.
fn freed_by(command: Command) -> Option<(u16, u32)>
    ensures some { IfSome result (λ freed. command ≡ Asks (Free freed.0 freed.1)) }
    ensures none { IfNone result ((loader block : ℕ) → command ≢ Asks (Free loader block)) }
{
    match command {
        Command::Step(Step::Free { loader, block }) => Some((loader, block)),
        _ => None,
    }
}

/// Returns the command that asks for a block.
fn asking(asked: Asked) -> Command
    ensures { result ≡ Asks (step_for asked.space asked.loader asked.block asked.words) }
{
    let Asked {
        space,
        loader,
        block,
        words,
    } = asked;
    Command::Step(match space {
        Space::NonClass => Step::Alloc {
            loader,
            block,
            words,
        },
        Space::Class => Step::Calloc {
            loader,
            block,
            words,
        },
    })
}

/// Returns the command that asks for two blocks as one, under the number of the first, if they are of
/// one arena and not too large together.
fn both(first: Command, second: Command, most: u64) -> Option<Command>
    ensures some { IfSome result (λ command. Joins most first second command) }
    ensures none { IfNone result ((command : CommandOf) → Joins most first second command → ⊥) }
{
    let first = block_of(first)?;
    let second = block_of(second)?;
    if first.loader != second.loader || first.space != second.space {
        return None;
    }
    let words = first
        .words
        .max(LEAST_WORDS)
        .checked_add(second.words.max(LEAST_WORDS))?;
    if words > most {
        return None;
    }
    Some(asking(Asked { words, ..first }))
}

/// Returns where the block ends that a line allocates, and 0 where it is unknown.
fn end_of(line: Placed) -> u64
    ensures { result ≡ end_of line }
{
    match block_of(line.command) {
        Some(block) if line.address != 0 => line
            .address
            .wrapping_add(block.words.max(LEAST_WORDS).wrapping_mul(WORD_BYTES)),
        _ => 0,
    }
}

/// Forgets where those blocks lie that are freed later.
fn forget_freed(alloc: Global, lines: &mut Vec<Placed>) -> Result<(), AllocError>
    ensures { OnOk result (lines.new.items ≡ forgotten lines.old.items) }
{
    let mut freed: HashSet<(u16, u32)> = HashSet::new(alloc);
    let mut at = lines.len();
    while at > 0 {
        at -= 1;
        lines[at] = forget(&mut freed, lines[at])?;
    }
    Ok(())
}

/// Returns a line without its address where its block is freed later, and keeps in `freed` which
/// blocks the next line that names them frees.
fn forget(freed: &mut HashSet<(u16, u32)>, line: Placed) -> Result<Placed, AllocError>
    ensures line { IfOk result (λ after. after ≡ forgot (has freed.old) line) }
    ensures freed { OnOk result ((loader block : ℕ) → has freed.new loader block
        ≡ named_then loader block line.command (has freed.old loader block)) }
{
    if let Some(block) = freed_by(line.command) {
        freed.insert(block)?;
        return Ok(line);
    }
    match block_of(line.command) {
        Some(asked) if freed.remove(&(asked.loader, asked.block)) => Ok(Placed {
            command: line.command,
            address: 0,
        }),
        _ => Ok(line),
    }
}
