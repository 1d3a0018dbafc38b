//! Cutting a text at a byte: lines at newlines, fields at spaces.
//!
//!     alloc 1 10      cut at a space
//!     -----           the part
//!           ----      what is left, until nothing is: a last part may be empty
ghost use Rattle.std.specs.Prelude.{◌≡◌, ◌==◌, ◌∷◌, ◌++◌, ◌<◌, [], length, IfOk, IfSome, position};
ghost use Rattle.std.specs.Result.{result_err};
ghost use Rattle.ms_trace.specs.Cutting.{count_fault, fields_in, parts_after, parts_of};
ghost use Rattle.ms_trace.specs.Grammar.{fields_of, lines_of};
ghost use Rattle.ms_trace.specs.Keeping.{BeginsSilently, is_ended};

use crate::fault::FaultKind;
use memchr::{memchr, memrchr};

/// A line with its newline has at most so many bytes.
const NEAR: usize = 81;

/// Cuts off the first line: what stands before the first newline, and what stands after it where
/// there is one. Lines may be long, so the search is by blocks.
pub(crate) fn cut_line(text: &[u8]) -> (&[u8], Option<&[u8]>)
    ensures parts { parts_of 10 text.now ≡ result.0.now ∷ parts_after 10 result.1 }
    ensures shorter { IfSome result.1 (λ rest. length rest.now < length text.now) }
{
    cut_at(text, b'\n', first_newline(text))
}

/// Cuts off the first line where it is blank or a comment, and not too long, and answers what
/// stands after it.
#[inline(always)]
pub(crate) fn cut_silent(text: &[u8]) -> Option<&[u8]>
    requires { 0 < length text.now }
    ensures { IfSome result (λ rest. BeginsSilently text.now rest.now) }
{
    if text[0] == b'\n' {
        return Some(&text[1..]);
    }
    if text[0] != b'#' {
        return None;
    }
    let at = memchr(b'\n', &text[..text.len().min(NEAR)])?;
    Some(&text[at + 1..])
}

/// Returns whether a text ends with a newline.
pub(crate) fn is_ended(text: &[u8]) -> bool
    ensures { result ≡ is_ended text.now }
{
    !text.is_empty() && text[text.len() - 1] == b'\n'
}

/// Cuts a text after its last newline: the lines that have one, and a last line that has none.
pub(crate) fn cut_last(text: &[u8]) -> (&[u8], &[u8])
    ensures lines { lines_of text.now ≡ lines_of result.0.now ++ lines_of result.1.now }
    ensures last { 0 < length result.1.now → lines_of result.1.now ≡ result.1.now ∷ [] }
{
    match memrchr(b'\n', text) {
        None => text.split_at(0),
        Some(at) => text.split_at(at + 1),
    }
}

/// Cuts off the first field, as `cut_line` does at spaces. Fields are short, so the search is by
/// bytes.
pub(crate) fn cut_field(text: &[u8]) -> (&[u8], Option<&[u8]>)
    ensures parts { fields_of text.now ≡ result.0.now ∷ fields_in result.1 }
{
    cut_at(text, b' ', first_space(text))
}

/// Cuts a text at its first separator, which is at that offset.
fn cut_at(text: &[u8], separator: u8, offset: Option<usize>) -> (&[u8], Option<&[u8]>)
    requires { offset ≡ position (λ byte. byte == separator) text.now }
    ensures parts { parts_of separator text.now ≡ result.0.now ∷ parts_after separator result.1 }
    ensures shorter { IfSome result.1 (λ rest. length rest.now < length text.now) }
{
    match offset {
        None => (text, None),
        Some(at) => (&text[..at], Some(&text[at + 1..])),
    }
}

/// Finds the first newline.
fn first_newline(text: &[u8]) -> Option<usize>
    ensures { result ≡ position (λ byte. byte == 10) text.now }
{
    memchr(b'\n', text)
}

/// Finds the first space.
fn first_space(text: &[u8]) -> Option<usize>
    ensures { result ≡ position (λ byte. byte == 32) text.now }
{
    text.iter().position(|byte| *byte == b' ')
}

/// Answers no fields, where none are left.
pub(crate) fn no_fields(rest: Option<&[u8]>) -> Result<(), FaultKind>
    ensures fault { result_err result ≡ count_fault 0 (fields_in rest.entry) }
    ensures fields { IfOk result (λ _. fields_in rest.entry ≡ []) }
{
    match rest {
        None => Ok(()),
        Some(_) => Err(FaultKind::FieldCount),
    }
}

/// Cuts off the one field that is left.
pub(crate) fn one_field(rest: Option<&[u8]>) -> Result<&[u8], FaultKind>
    ensures fault { result_err result ≡ count_fault 1 (fields_in rest.entry) }
    ensures fields { IfOk result (λ field. fields_in rest.entry ≡ field.now ∷ []) }
{
    let Some(rest) = rest else {
        return Err(FaultKind::FieldCount);
    };
    let (field, rest) = cut_field(rest);
    no_fields(rest)?;
    Ok(field)
}

/// Cuts off the two fields that are left.
pub(crate) fn two_fields(rest: Option<&[u8]>) -> Result<(&[u8], &[u8]), FaultKind>
    ensures fault { result_err result ≡ count_fault 2 (fields_in rest.entry) }
    ensures fields { IfOk result (λ fields. fields_in rest.entry ≡ fields.0.now ∷ fields.1.now ∷ []) }
{
    let Some(rest) = rest else {
        return Err(FaultKind::FieldCount);
    };
    let (first, rest) = cut_field(rest);
    let second = one_field(rest)?;
    Ok((first, second))
}

/// Cuts off the three fields that are left.
pub(crate) fn three_fields(rest: Option<&[u8]>) -> Result<(&[u8], &[u8], &[u8]), FaultKind>
    ensures fault { result_err result ≡ count_fault 3 (fields_in rest.entry) }
    ensures fields { IfOk result (λ f. fields_in rest.entry ≡ f.0.now ∷ f.1.now ∷ f.2.now ∷ []) }
{
    let Some(rest) = rest else {
        return Err(FaultKind::FieldCount);
    };
    let (first, rest) = cut_field(rest);
    let (second, third) = two_fields(rest)?;
    Ok((first, second, third))
}

/// Cuts off the four fields that are left.
pub(crate) fn four_fields(rest: Option<&[u8]>) -> Result<(&[u8], &[u8], &[u8], &[u8]), FaultKind>
    ensures fault { result_err result ≡ count_fault 4 (fields_in rest.entry) }
    ensures fields { IfOk result (λ f. fields_in rest.entry ≡ f.0.now ∷ f.1.now ∷ f.2.now ∷ f.3.now ∷ []) }
{
    let Some(rest) = rest else {
        return Err(FaultKind::FieldCount);
    };
    let (first, rest) = cut_field(rest);
    let (second, third, fourth) = three_fields(rest)?;
    Ok((first, second, third, fourth))
}
