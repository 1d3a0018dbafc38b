//! Reading a line: which command it gives, if any, or its first failing check.
//!
//!     alloc 1 10          the word decides how many fields follow and what each of them is;
//!     ----- - --          their number is checked before the first of them is read
ghost use Rattle.std.specs.Prelude.{◌≡◌, [], ◌∷◌, Some, IfOk, IfSome, IsNone, IsTrue, bytes_eq, codes, decimal, false};
ghost use Rattle.std.specs.Result.{result_err};
ghost use Rattle.ms_trace.specs.Cutting.{fields_in};
ghost use Rattle.ms_trace.specs.Faults.{after_word_fault, fault_of};
ghost use Rattle.ms_trace.specs.Grammar.{block_field, fields_of, is_silent, loader_field, word_field};
ghost use Rattle.ms_trace.specs.Keeping.{IsReadFrom};
ghost use Rattle.ms_trace.specs.Spelling.{IsValid, spelling_of};

use crate::cutting::{cut_field, four_fields, no_fields, one_field, three_fields, two_fields};
use crate::fault::FaultKind;
use crate::fields::{read_block, read_kind, read_loader, read_word};
use crate::trace::Command;
use ms_base::Step;

/// The greatest length of a line in bytes.
const MOST_BYTES: usize = 80;

/// Reads the line of that number, of at most `most`: the command that it gives, if it isn't silent.
pub(crate) fn read_line(most: u32, number: u32, line: &[u8]) -> Result<Option<Command>, FaultKind>
    ensures fault { result_err result ≡ fault_of most number line.now }
    ensures silent { IfOk result (λ said. IsNone said → IsTrue (is_silent line.now)) }
    ensures spelled { IfOk result (λ said. IfSome said (λ command. line.now ≡ spelling_of command)) }
    ensures valid { IfOk result (λ said. IfSome said IsValid) }
{
    if number > most {
        return Err(FaultKind::TooManyLines);
    }
    if line.len() > MOST_BYTES {
        return Err(FaultKind::LineTooLong);
    }
    if line.is_empty() || line[0] == b'#' {
        return Ok(None);
    }
    Ok(Some(read_command(line)?))
}

/// Reads a command line.
fn read_command(line: &[u8]) -> Result<Command, FaultKind>
    ensures { IsReadFrom (fields_of line.now) result }
{
    let (word, rest) = cut_field(line);
    if word == b"new".as_slice() {
        read_new(rest)
    } else if word == b"alloc".as_slice() {
        read_alloc(rest)
    } else if word == b"calloc".as_slice() {
        read_calloc(rest)
    } else if word == b"write".as_slice() {
        read_write(rest)
    } else if word == b"read".as_slice() {
        read_read(rest)
    } else {
        read_other(word, rest)
    }
}

/// Reads what follows a word that is none of those five.
fn read_other(word: &[u8], rest: Option<&[u8]>) -> Result<Command, FaultKind>
    requires new { bytes_eq word.now (codes "new") ≡ false }
    requires alloc { bytes_eq word.now (codes "alloc") ≡ false }
    requires calloc { bytes_eq word.now (codes "calloc") ≡ false }
    requires write { bytes_eq word.now (codes "write") ≡ false }
    requires read { bytes_eq word.now (codes "read") ≡ false }
    ensures { IsReadFrom (word.now ∷ fields_in rest.entry) result }
{
    if word == b"free".as_slice() {
        read_free(rest)
    } else if word == b"unload".as_slice() {
        read_unload(rest)
    } else if word == b"purge".as_slice() {
        read_purge(rest)
    } else if word == b"sync".as_slice() {
        read_sync(rest)
    } else if word == b"report".as_slice() {
        read_report(rest)
    } else {
        Err(FaultKind::UnknownCommand)
    }
}

/// Reads what follows `new`: a loader and its kind.
fn read_new(rest: Option<&[u8]>) -> Result<Command, FaultKind>
    ensures { IsReadFrom (codes "new" ∷ fields_in rest.entry) result }
{
    let (loader, kind) = two_fields(rest)?;
    Ok(Command::Step(Step::New {
        loader: read_loader(loader)?,
        kind: read_kind(kind)?,
    }))
}

/// Reads what follows `alloc`, `calloc` and `read`: a loader, a block, and words or an index.
fn read_three(rest: Option<&[u8]>) -> Result<(u16, u32, u64), FaultKind>
    ensures fault { result_err result ≡ after_word_fault
        (Some (loader_field ∷ block_field ∷ word_field ∷ [])) (fields_in rest.entry) }
    ensures fields { IfOk result
        (λ n. decimal n.0 ∷ decimal n.1 ∷ decimal n.2 ∷ [] ≡ fields_in rest.entry) }
{
    let (loader, block, word) = three_fields(rest)?;
    Ok((read_loader(loader)?, read_block(block)?, read_word(word)?))
}

/// Reads what follows `alloc`: a loader, a block and its words.
fn read_alloc(rest: Option<&[u8]>) -> Result<Command, FaultKind>
    ensures { IsReadFrom (codes "alloc" ∷ fields_in rest.entry) result }
{
    let (loader, block, words) = read_three(rest)?;
    Ok(Command::Step(Step::Alloc {
        loader,
        block,
        words,
    }))
}

/// Reads what follows `calloc`: a loader, a block and its words.
fn read_calloc(rest: Option<&[u8]>) -> Result<Command, FaultKind>
    ensures { IsReadFrom (codes "calloc" ∷ fields_in rest.entry) result }
{
    let (loader, block, words) = read_three(rest)?;
    Ok(Command::Step(Step::Calloc {
        loader,
        block,
        words,
    }))
}

/// Reads what follows `write`: a loader, a block, an index and a value.
fn read_write(rest: Option<&[u8]>) -> Result<Command, FaultKind>
    ensures { IsReadFrom (codes "write" ∷ fields_in rest.entry) result }
{
    let (loader, block, index, value) = four_fields(rest)?;
    Ok(Command::Step(Step::Write {
        loader: read_loader(loader)?,
        block: read_block(block)?,
        index: read_word(index)?,
        value: read_word(value)?,
    }))
}

/// Reads what follows `read`: a loader, a block and an index.
fn read_read(rest: Option<&[u8]>) -> Result<Command, FaultKind>
    ensures { IsReadFrom (codes "read" ∷ fields_in rest.entry) result }
{
    let (loader, block, index) = read_three(rest)?;
    Ok(Command::Step(Step::Read {
        loader,
        block,
        index,
    }))
}

/// Reads what follows `free`: a loader and a block.
fn read_free(rest: Option<&[u8]>) -> Result<Command, FaultKind>
    ensures { IsReadFrom (codes "free" ∷ fields_in rest.entry) result }
{
    let (loader, block) = two_fields(rest)?;
    Ok(Command::Step(Step::Free {
        loader: read_loader(loader)?,
        block: read_block(block)?,
    }))
}

/// Reads what follows `unload`: a loader.
fn read_unload(rest: Option<&[u8]>) -> Result<Command, FaultKind>
    ensures { IsReadFrom (codes "unload" ∷ fields_in rest.entry) result }
{
    let loader = one_field(rest)?;
    Ok(Command::Step(Step::Unload {
        loader: read_loader(loader)?,
    }))
}

/// Reads what follows `purge`: nothing.
fn read_purge(rest: Option<&[u8]>) -> Result<Command, FaultKind>
    ensures { IsReadFrom (codes "purge" ∷ fields_in rest.entry) result }
{
    no_fields(rest)?;
    Ok(Command::Step(Step::Purge))
}

/// Reads what follows `sync`: nothing.
fn read_sync(rest: Option<&[u8]>) -> Result<Command, FaultKind>
    ensures { IsReadFrom (codes "sync" ∷ fields_in rest.entry) result }
{
    no_fields(rest)?;
    Ok(Command::Sync)
}

/// Reads what follows `report`: nothing.
fn read_report(rest: Option<&[u8]>) -> Result<Command, FaultKind>
    ensures { IsReadFrom (codes "report" ∷ fields_in rest.entry) result }
{
    no_fields(rest)?;
    Ok(Command::Report)
}
