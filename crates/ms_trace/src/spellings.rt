//! Reading the command whose spelling a text begins with, in one pass up to its newline.
//!
//!     alloc 1 10 5        the first byte decides which word it can be, and so which fields follow,
//!           - -- -        and each is read up to the byte after it
//!
//! Where nothing is answered, `commands` judges the line.
ghost use Rattle.std.specs.Prelude.{◌≡◌, ◌≤◌, ◌<◌, ◌++◌, ◌∷◌, ◌==◌, [], IfSome, IsTrue, decimal, drop, length, false};
ghost use Rattle.ms_trace.specs.Grammar.{kind_word};
ghost use Rattle.ms_trace.specs.Keeping.{BeginsWith, is_ended};
ghost use Rattle.ms_trace.specs.Spelling.{IsValid, spelling_of};

use crate::numbers::number_at;
use crate::trace::Command;
use ms_base::{Kind, Step};

/// Reads the command that a text begins with, and answers what stands after its newline.
pub(crate) fn command_before(text: &[u8]) -> Option<(Command, &[u8])>
    requires { IsTrue (is_ended text.now) }
    ensures { IfSome result (λ read. BeginsWith text.now read.0 read.1.now) }
{
    match text[0] {
        b'a' => alloc_before(text),
        b'r' => r_before(text),
        b'w' => write_before(text),
        b'f' => free_before(text),
        b'n' => new_before(text),
        b'u' => unload_before(text),
        b'c' => calloc_before(text),
        b'p' => bare_before(b"purge\n".as_slice(), Command::Step(Step::Purge), text),
        b's' => bare_before(b"sync\n".as_slice(), Command::Sync, text),
        _ => None,
    }
}

/// Reads the command that begins with r.
#[inline(always)]
fn r_before(text: &[u8]) -> Option<(Command, &[u8])>
    requires { IsTrue (is_ended text.now) }
    ensures { IfSome result (λ read. BeginsWith text.now read.0 read.1.now) }
{
    match read_before(text) {
        Some(read) => Some(read),
        None => bare_before(b"report\n".as_slice(), Command::Report, text),
    }
}

/// Reads the command that is that line alone.
#[inline(always)]
fn bare_before<'a>(line: &[u8], command: Command, text: &'a [u8]) -> Option<(Command, &'a [u8])>
    requires spelled { line.now ≡ spelling_of command ++ 10 ∷ [] }
    requires valid { IsValid command }
    ensures { IfSome result (λ read. BeginsWith text.now read.0 read.1.now) }
{
    if !begins_with(text, line) {
        return None;
    }
    Some((command, &text[line.len()..]))
}

/// Returns whether a text begins with a word.
#[inline(always)]
fn begins_with(text: &[u8], word: &[u8]) -> bool
    ensures cut { IsTrue result → text.now ≡ word.now ++ drop (length word.now) text.now }
    ensures inside { IsTrue result → length word.now ≤ length text.now }
{
    text.starts_with(word)
}

/// Reads `alloc` with its fields.
#[inline(always)]
fn alloc_before(text: &[u8]) -> Option<(Command, &[u8])>
    requires { IsTrue (is_ended text.now) }
    ensures { IfSome result (λ read. BeginsWith text.now read.0 read.1.now) }
{
    let (loader, block, words, rest) = three_before(b"alloc ".as_slice(), text)?;
    Some((
        Command::Step(Step::Alloc {
            loader,
            block,
            words,
        }),
        rest,
    ))
}

/// Reads `calloc` with its fields.
#[inline(always)]
fn calloc_before(text: &[u8]) -> Option<(Command, &[u8])>
    requires { IsTrue (is_ended text.now) }
    ensures { IfSome result (λ read. BeginsWith text.now read.0 read.1.now) }
{
    let (loader, block, words, rest) = three_before(b"calloc ".as_slice(), text)?;
    Some((
        Command::Step(Step::Calloc {
            loader,
            block,
            words,
        }),
        rest,
    ))
}

/// Reads `read` with its fields.
#[inline(always)]
fn read_before(text: &[u8]) -> Option<(Command, &[u8])>
    requires { IsTrue (is_ended text.now) }
    ensures { IfSome result (λ read. BeginsWith text.now read.0 read.1.now) }
{
    let (loader, block, index, rest) = three_before(b"read ".as_slice(), text)?;
    Some((
        Command::Step(Step::Read {
            loader,
            block,
            index,
        }),
        rest,
    ))
}

/// Reads `write` with its fields.
#[inline(always)]
fn write_before(text: &[u8]) -> Option<(Command, &[u8])>
    requires { IsTrue (is_ended text.now) }
    ensures { IfSome result (λ read. BeginsWith text.now read.0 read.1.now) }
{
    let (loader, at) = loader_after(b"write ".as_slice(), b' ', text)?;
    let (block, at) = block_at(b' ', text, at)?;
    let (index, at) = number_at(b' ', text, at, u64::MAX)?;
    let (value, at) = number_at(b'\n', text, at, u64::MAX)?;
    Some((
        Command::Step(Step::Write {
            loader,
            block,
            index,
            value,
        }),
        &text[at..],
    ))
}

/// Reads `free` with its fields.
#[inline(always)]
fn free_before(text: &[u8]) -> Option<(Command, &[u8])>
    requires { IsTrue (is_ended text.now) }
    ensures { IfSome result (λ read. BeginsWith text.now read.0 read.1.now) }
{
    let (loader, at) = loader_after(b"free ".as_slice(), b' ', text)?;
    let (block, at) = block_at(b'\n', text, at)?;
    Some((Command::Step(Step::Free { loader, block }), &text[at..]))
}

/// Reads `unload` with its fields.
#[inline(always)]
fn unload_before(text: &[u8]) -> Option<(Command, &[u8])>
    requires { IsTrue (is_ended text.now) }
    ensures { IfSome result (λ read. BeginsWith text.now read.0 read.1.now) }
{
    let (loader, at) = loader_after(b"unload ".as_slice(), b'\n', text)?;
    Some((Command::Step(Step::Unload { loader }), &text[at..]))
}

/// Reads `new` with its fields.
#[inline(always)]
fn new_before(text: &[u8]) -> Option<(Command, &[u8])>
    requires { IsTrue (is_ended text.now) }
    ensures { IfSome result (λ read. BeginsWith text.now read.0 read.1.now) }
{
    let (loader, at) = loader_after(b"new ".as_slice(), b' ', text)?;
    let (kind, rest) = kind_before(&text[at..])?;
    Some((Command::Step(Step::New { loader, kind }), rest))
}

/// Reads a kind and its newline.
#[inline(always)]
fn kind_before(text: &[u8]) -> Option<(Kind, &[u8])>
    requires { 0 < length text.now }
    ensures { IfSome result (λ read. text.now ≡ kind_word read.0 ++ 10 ∷ read.1.now) }
{
    match text[0] {
        b's' => word_before(b"standard\n".as_slice(), Kind::Standard, text),
        b'b' => word_before(b"boot\n".as_slice(), Kind::Boot, text),
        b'r' => word_before(b"reflection\n".as_slice(), Kind::Reflection, text),
        b'h' => word_before(b"hidden\n".as_slice(), Kind::Hidden, text),
        _ => None,
    }
}

/// Reads the kind whose word and newline are that line.
#[inline(always)]
fn word_before<'a>(line: &[u8], kind: Kind, text: &'a [u8]) -> Option<(Kind, &'a [u8])>
    requires { line.now ≡ kind_word kind ++ 10 ∷ [] }
    ensures { IfSome result (λ read. text.now ≡ kind_word read.0 ++ 10 ∷ read.1.now) }
{
    if !begins_with(text, line) {
        return None;
    }
    Some((kind, &text[line.len()..]))
}

/// Reads a word, then a loader, a block, and words or an index, the last up to the newline.
#[inline(always)]
fn three_before<'a>(word: &[u8], text: &'a [u8]) -> Option<(u16, u32, u64, &'a [u8])>
    requires ended { IsTrue (is_ended text.now) }
    requires unended { is_ended word.now ≡ false }
    ensures { IfSome result (λ read. text.now
        ≡ word.now ++ decimal read.0 ++ 32 ∷ decimal read.1 ++ 32 ∷ decimal read.2 ++ 10 ∷ read.3.now) }
{
    let (loader, at) = loader_after(word, b' ', text)?;
    let (block, at) = block_at(b' ', text, at)?;
    let (word, at) = number_at(b'\n', text, at, u64::MAX)?;
    Some((loader, block, word, &text[at..]))
}

/// Reads a word, then the loader's name up to that byte.
#[inline(always)]
fn loader_after(word: &[u8], end: u8, text: &[u8]) -> Option<(u16, usize)>
    requires ended { IsTrue (is_ended text.now) }
    requires unended { is_ended word.now ≡ false }
    ensures spelled { IfSome result (λ read.
        text.now ≡ word.now ++ decimal read.0 ++ end ∷ drop read.1 text.now) }
    ensures within { IfSome result (λ read. read.1 ≤ length text.now) }
    ensures inside { (end == 10) ≡ false → IfSome result (λ read. read.1 < length text.now) }
{
    if !begins_with(text, word) {
        return None;
    }
    let (loader, at) = number_at(end, text, word.len(), 65_535)?;
    Some((loader as u16, at))
}

/// Reads the block's name at an offset up to that byte.
#[inline(always)]
fn block_at(end: u8, text: &[u8], from: usize) -> Option<(u32, usize)>
    requires ended { IsTrue (is_ended text.now) }
    requires inside { from < length text.now }
    ensures spelled { IfSome result (λ read.
        drop from text.now ≡ decimal read.0 ++ end ∷ drop read.1 text.now) }
    ensures within { IfSome result (λ read. read.1 ≤ length text.now) }
    ensures inside { (end == 10) ≡ false → IfSome result (λ read. read.1 < length text.now) }
{
    let (block, at) = number_at(end, text, from, 4_294_967_295)?;
    Some((block as u32, at))
}
