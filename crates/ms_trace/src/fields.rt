//! Reading one field: a kind, or a number in decimal up to a greatest one.
ghost use Rattle.std.specs.Prelude.{◌≡◌, ◌≤◌, ◌-◌, ◌+◌, ◌*◌, ◌<◌, ◌^◌, IfOk, SomeIff, decimal, if◌then◌else◌};
ghost use Rattle.std.specs.Char.{is_ascii_digit};
ghost use Rattle.std.specs.List.{list_all};
ghost use Rattle.std.specs.Result.{result_err};
ghost use Rattle.ms_trace.specs.Grammar.{kind_word, kind_field, number_field, loader_field, block_field, word_field};
ghost use Rattle.ms_trace.specs.Faults.{field_fault};

use crate::fault::FaultKind;
use ms_base::Kind;

/// Reads the kind of a loader.
pub(crate) fn read_kind(field: &[u8]) -> Result<Kind, FaultKind>
    ensures fault { result_err result ≡ field_fault kind_field field.now }
    ensures word { IfOk result (λ kind. kind_word kind ≡ field.now) }
{
    if field == b"standard".as_slice() {
        Ok(Kind::Standard)
    } else if field == b"boot".as_slice() {
        Ok(Kind::Boot)
    } else if field == b"reflection".as_slice() {
        Ok(Kind::Reflection)
    } else if field == b"hidden".as_slice() {
        Ok(Kind::Hidden)
    } else {
        Err(FaultKind::BadKind)
    }
}

/// Reads a loader's name.
pub(crate) fn read_loader(field: &[u8]) -> Result<u16, FaultKind>
    ensures fault { result_err result ≡ field_fault loader_field field.now }
    ensures number { IfOk result (λ loader. decimal loader ≡ field.now) }
{
    let loader = read_number(field, 65_535)?;
    Ok(loader as u16)
}

/// Reads a block's name.
pub(crate) fn read_block(field: &[u8]) -> Result<u32, FaultKind>
    ensures fault { result_err result ≡ field_fault block_field field.now }
    ensures number { IfOk result (λ block. decimal block ≡ field.now) }
{
    let block = read_number(field, 4_294_967_295)?;
    Ok(block as u32)
}

/// Reads words, an index or a value: a number in decimal without leading zeros, at most 2^64 - 1.
/// Takes no memory. This project's choice.
pub fn read_word(field: &[u8]) -> Result<u64, FaultKind>
    ensures fault { result_err result ≡ field_fault word_field field.now }
    ensures number { IfOk result (λ word. decimal word ≡ field.now) }
{
    read_number(field, u64::MAX)
}

/// Reads a number up to the greatest. The form is decided before the size.
fn read_number(field: &[u8], greatest: u64) -> Result<u64, FaultKind>
    ensures fault { result_err result ≡ field_fault (number_field greatest) field.now }
    ensures bounded { IfOk result (λ number. number ≤ greatest) }
    ensures number { IfOk result (λ number. decimal number ≡ field.now) }
{
    if field.is_empty() || (field[0] == b'0' && field.len() != 1) {
        return Err(FaultKind::BadNumber);
    }
    let mut number: u64 = 0;
    for byte in field {
        if !byte.is_ascii_digit() {
            return Err(FaultKind::BadNumber);
        }
        match with_digit(number, u64::from(*byte - b'0')) {
            Some(more) => number = more,
            None => return Err(fault_of_long(field)),
        }
    }
    if number <= greatest {
        Ok(number)
    } else {
        Err(FaultKind::NumberTooLarge)
    }
}

/// Decides the fault of a field whose first digits are too many for 64 bits.
fn fault_of_long(field: &[u8]) -> FaultKind
    ensures { result ≡ (if list_all is_ascii_digit field.now then FaultKind.NumberTooLarge else FaultKind.BadNumber) }
{
    if are_digits(field) {
        FaultKind::NumberTooLarge
    } else {
        FaultKind::BadNumber
    }
}

/// Returns whether each byte is a digit.
fn are_digits(field: &[u8]) -> bool
    ensures { result ≡ list_all is_ascii_digit field.now }
{
    field.iter().all(|byte| byte.is_ascii_digit())
}

/// Writes one more digit after a number, if that fits.
fn with_digit(number: u64, digit: u64) -> Option<u64>
    ensures { SomeIff result (number * 10 + digit < 2 ^ 64) (number * 10 + digit) }
{
    number.checked_mul(10)?.checked_add(digit)
}
