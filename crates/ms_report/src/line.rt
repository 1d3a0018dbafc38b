//! A line of a table that is written from its end.
//!
//!     |  blank           400        12\n|      the last number first, with the spaces before it
//!                ^ from here on it is written
//!
//! Kept true: what stands before the bytes written so far is blank, and these are ASCII. A line is
//! appended to a text in one go, and takes memory then alone.
ghost use Rattle.std.specs.Prelude.{◌≡◌, ◌≤◌, ◌+◌, ◌++◌, OnOk, [], IsAscii, string_bytes, decimal};
ghost use Rattle.std.specs.Prelude.{codes, length, take};
ghost use Rattle.ms_report.specs.Layout.{right_in};

use itoa::write_digits;
use std::alloc::AllocError;
use std::marker::Model;
use std::str::from_utf8_unchecked;

/// The bytes of a line: seven numbers of twenty digits, the line's end, and fifty for words.
const ROOM: usize = 192;

/// The index of the line's end.
const LAST: usize = ROOM - 1;

/// The width of the two spaces that begin a line, and of a name or a level after them.
pub const NAME: usize = 7;

/// The width of a count of chunks, and of the words of a level.
pub const COUNT: usize = 8;

/// The width of an amount of words.
pub const WORDS: usize = 10;

/// The width of the words of free blocks.
pub const FREE_BLOCKS: usize = 13;

/// A line that is written from its end. Contracts see what is written so far.
#[derive(Drop)]
pub struct Line {
    bytes: [u8; ROOM],
    from: usize,
}

impl Model for Line {
    ghost use Rattle.std.specs.Prelude.{List, ℕ, drop};
    ghost use Rattle.ms_report.specs.Cells.{IsLine};

    ghost Value = { List ℕ };

    ghost view = { λ line. drop line.from line.bytes };

    ghost invariant = { λ line. IsLine line.from line.bytes };
}

impl Line {
    /// Makes the line's end.
    #[inline(always)]
    pub(crate) fn end() -> Line
        ensures { result ≡ codes "\n" }
    {
        let mut bytes = [b' '; ROOM];
        bytes[LAST] = b'\n';
        Line { bytes, from: LAST }
    }

    /// Makes a line of nothing, which goes on after what is put.
    #[inline(always)]
    pub(crate) fn open() -> Line
        ensures { result ≡ [] }
    {
        Line {
            bytes: [b' '; ROOM],
            from: ROOM,
        }
    }

    /// Puts a number before what is written, right in its width.
    #[inline(always)]
    pub(crate) fn put_right(&mut self, width: usize, number: u64)
        requires width { width ≤ 20 }
        requires room { length self.old + 20 ≤ 192 }
        ensures written { self.new ≡ right_in width (decimal number) ++ self.old }
        ensures near { length self.new ≤ length self.old + 20 }
    {
        let end = self.from;
        let start = write_digits(number, &mut self.bytes, end);
        self.from = start.min(end - width);
    }

    /// Puts a word before what is written.
    #[inline(always)]
    pub(crate) fn put_word(&mut self, word: &str)
        requires ascii { IsAscii word.now }
        requires room { length self.old + length word.now ≤ 192 }
        ensures { self.new ≡ word.now ++ self.old }
    {
        let end = self.from;
        let start = end - word.len();
        self.bytes[start..end].copy_from_slice(word.as_bytes());
        self.from = start;
    }

    /// Appends the line to a text.
    #[inline(always)]
    pub(crate) fn push_to(&self, text: &mut String) -> Result<(), AllocError>
        ensures { OnOk result (string_bytes text.new ≡ string_bytes text.old ++ self.now) }
    {
        push_ascii(text, &self.bytes[self.from..])
    }
}

/// Appends bytes that are ASCII, and so a text.
#[inline(always)]
pub(crate) fn push_ascii(text: &mut String, bytes: &[u8]) -> Result<(), AllocError>
    requires { IsAscii bytes.now }
    ensures { OnOk result (string_bytes text.new ≡ string_bytes text.old ++ bytes.now) }
{
    text.push_str(unsafe { from_utf8_unchecked(bytes) })
}

/// Appends the first bytes of a piece, which is ASCII: the piece is appended whole and cut, since a
/// copy of constant length calls nothing.
#[inline(always)]
pub(crate) fn push_cut(text: &mut String, piece: &[u8], len: usize) -> Result<(), AllocError>
    requires within { len ≤ length piece.now }
    requires ascii { IsAscii piece.now }
    ensures { OnOk result (string_bytes text.new ≡ string_bytes text.old ++ take len piece.now) }
{
    let past = text.len() + len;
    push_ascii(text, piece)?;
    text.truncate(past);
    Ok(())
}
