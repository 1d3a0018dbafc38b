//! Reading the number that stands at an offset of a text, in one pass up to the byte after it.
//!
//!     alloc 37 500 ..     from offset 6 up to a space: 37, and offset 9
//!
//! The text ends with a newline, which is no digit, so digits are read without asking where
//! the text ends. They are added up modulo 2^64, and what they are is tested once, where they end.
//! Where nothing is answered, `fields` judges.
ghost use Rattle.std.specs.Prelude.{◌≡◌, ◌≤◌, ◌<◌, ◌-◌, ◌++◌, ◌∷◌, ◌%◌, ◌^◌, ◌==◌, IfSome, IsTrue, decimal, drop, get_or, length, true, false};
ghost use Rattle.std.specs.Char.{is_ascii_digit};
ghost use Rattle.std.specs.Str.{all_ascii_digits};
ghost use Rattle.std.specs.Str.Parse.{digits_value};
ghost use Rattle.ms_trace.specs.Keeping.{is_ended};

/// The least number of twenty digits.
const TWENTY_DIGITS: u64 = 10_000_000_000_000_000_000;

/// Reads the number at an offset, where that byte ends it and it isn't too great, and answers the
/// offset after that byte.
#[inline(always)]
pub(crate) fn number_at(end: u8, text: &[u8], from: usize, greatest: u64) -> Option<(u64, usize)>
    requires ended { IsTrue (is_ended text.now) }
    requires inside { from < length text.now }
    ensures spelled { IfSome result (λ read.
        drop from text.now ≡ decimal read.0 ++ end ∷ drop read.1 text.now) }
    ensures bounded { IfSome result (λ read. read.0 ≤ greatest) }
    ensures within { IfSome result (λ read. read.1 ≤ length text.now) }
    ensures inside { (end == 10) ≡ false → IfSome result (λ read. read.1 < length text.now) }
{
    let mut value: u64 = 0;
    let mut at = from;
    while digit_at(text, at) <= 9 {
        value = value.wrapping_mul(10).wrapping_add(digit_at(text, at));
        at += 1;
    }
    if text[at] != end || value > greatest || !is_number(&text[from..at], value) {
        return None;
    }
    Some((value, at + 1))
}

/// Returns the digit at an offset, and more than 9 where that byte is none.
#[inline(always)]
fn digit_at(text: &[u8], at: usize) -> u64
    requires { at < length text.now }
    ensures digit { result ≤ 9 → is_ascii_digit (get_or text.now at 0) ≡ true }
    ensures value { is_ascii_digit (get_or text.now at 0) ≡ true
        → result ≡ get_or text.now at 0 - 48 }
{
    u64::from(text[at]).wrapping_sub(48)
}

/// Returns whether digits, which have that value modulo 2^64, are that number.
#[inline(always)]
fn is_number(digits: &[u8], value: u64) -> bool
    requires digits { all_ascii_digits digits.now ≡ true }
    requires value { value ≡ digits_value 10 digits.now % 2 ^ 64 }
    ensures { IsTrue result → decimal value ≡ digits.now }
{
    if digits.is_empty() || digits.len() > 19 {
        return is_long(digits, value);
    }
    digits[0] != b'0' || digits.len() == 1
}

/// Returns whether they are a number of twenty digits. Those that begin with a 1 lie below 2 * 10^19,
/// so that their value falls below 10^19 where they are too many for 64 bits.
#[cold]
#[inline(never)]
fn is_long(digits: &[u8], value: u64) -> bool
    requires digits { all_ascii_digits digits.now ≡ true }
    requires value { value ≡ digits_value 10 digits.now % 2 ^ 64 }
    ensures { IsTrue result → decimal value ≡ digits.now }
{
    if digits.len() != 20 {
        return false;
    }
    digits[0] == b'1' && value >= TWENTY_DIGITS
}
