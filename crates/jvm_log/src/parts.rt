//! The parts of a line: fixed words, numbers, addresses, levels and spaces, each read from the front
//! of a text, which goes on with what stands after it.
ghost use Rattle.std.specs.Prelude.{◌≡◌, ◌≤◌, ◌+◌, ◌*◌, ◌<◌, ◌^◌, ◌==◌, not, length, position, SomeIff};
ghost use Rattle.std.specs.Char.{is_ascii_digit};
ghost use Rattle.std.specs.Option.{option_copied, option_map};
ghost use Rattle.jvm_log.specs.Parts.{address_after, address_at, after, digit_count, level_after, level_at};
ghost use Rattle.jvm_log.specs.Parts.{number_after, number_at, number_of, only, past};
ghost use Rattle.jvm_log.specs.Parts.{small_digit, space_at, value_after};

use memchr::memchr;
use ms_base::Space;
use ms_trace::read_word;

/// The bytes of an address after its `0x`.
const ADDRESS_DIGITS: usize = 16;

/// Reads that word, and returns what stands after it.
#[inline(always)]
pub(crate) fn after<'a>(word: &[u8], text: &'a [u8]) -> Option<&'a [u8]>
    ensures { option_copied result ≡ after word.now text.now }
{
    text.strip_prefix(word)
}

/// Reads that word, with nothing after it.
#[inline(always)]
#[tactic(auto, unfolding(crate::specs::Parts::only))]
pub(crate) fn only(word: &[u8], text: &[u8]) -> Option<()>
    ensures { result ≡ only word.now text.now }
{
    if text == word { Some(()) } else { None }
}

/// Skips all up to the first such byte, and returns what stands after it.
#[inline(always)]
#[tactic(auto, unfolding(crate::specs::Parts::past))]
pub(crate) fn past(byte: u8, text: &[u8]) -> Option<&[u8]>
    ensures { option_copied result ≡ past byte text.now }
{
    let at = index_of(byte, text)?;
    let (_, rest) = text.split_at(at + 1);
    Some(rest)
}

/// Finds the first such byte.
#[inline(always)]
fn index_of(byte: u8, text: &[u8]) -> Option<usize>
    ensures { result ≡ position (λ b. b == byte) text.now }
{
    memchr(byte, text)
}

/// Reads a number in decimal, of all digits that there are.
#[tactic(auto, unfolding(crate::specs::Parts::number_at))]
pub(crate) fn number_at(text: &[u8]) -> Option<(u64, &[u8])>
    ensures { option_map (λ read. (read.0, read.1.now)) result ≡ number_at text.now }
{
    let (digits, rest) = text.split_at(digit_count(text));
    Some((number_of(digits)?, rest))
}

/// Counts the digits that a text begins with.
#[tactic(auto, unfolding(crate::specs::Parts::digit_count))]
fn digit_count(text: &[u8]) -> usize
    ensures count { result ≡ digit_count text.now }
    ensures inside { result ≤ length text.now }
{
    match first_other(text) {
        Some(at) => at,
        None => text.len(),
    }
}

/// Finds the first byte that is no digit.
fn first_other(text: &[u8]) -> Option<usize>
    ensures { result ≡ position (λ byte. not (is_ascii_digit byte)) text.now }
{
    text.iter().position(|byte| !byte.is_ascii_digit())
}

/// Returns the number that digits are.
fn number_of(digits: &[u8]) -> Option<u64>
    ensures { result ≡ number_of digits.now }
{
    match read_word(digits) {
        Ok(number) => Some(number),
        Err(_) => None,
    }
}

/// Reads an address: `0x` and sixteen digits.
#[tactic(auto, unfolding(crate::specs::Parts::address_at))]
pub(crate) fn address_at(text: &[u8]) -> Option<(u64, &[u8])>
    ensures { option_map (λ read. (read.0, read.1.now)) result ≡ address_at text.now }
{
    let rest = after(b"0x".as_slice(), text)?;
    if rest.len() < ADDRESS_DIGITS {
        return None;
    }
    let (digits, rest) = rest.split_at(ADDRESS_DIGITS);
    Some((address_of(digits)?, rest))
}

/// Returns the number that digits to the base 16 are.
fn address_of(digits: &[u8]) -> Option<u64>
    ensures { result ≡ value_after 0 digits.now }
{
    let mut address: u64 = 0;
    for byte in digits {
        let digit = small_digit(*byte)?;
        let more = with_digit(address, u64::from(digit))?;
        address = more;
    }
    Some(address)
}

/// Returns the value of a digit to the base 16.
#[inline(always)]
#[tactic(auto, using(std::proofs::lemmas::Bool::Decides::nat_tests), unfolding(crate::specs::Parts::small_digit))]
fn small_digit(byte: u8) -> Option<u8>
    ensures { result ≡ small_digit byte }
{
    if byte >= b'0' && byte <= b'9' {
        Some(byte - b'0')
    } else if byte >= b'a' && byte <= b'f' {
        Some(byte - 87)
    } else {
        None
    }
}

/// Writes one more digit to the base 16 after a number, if that fits.
#[inline(always)]
fn with_digit(value: u64, digit: u64) -> Option<u64>
    ensures { SomeIff result (value * 16 + digit < 2 ^ 64) (value * 16 + digit) }
{
    value.checked_mul(16)?.checked_add(digit)
}

/// Reads a level: `lv` and two digits.
#[tactic(auto, using(std::proofs::lemmas::Bool::Decides::nat_tests), unfolding(crate::specs::Parts::level_at))]
pub(crate) fn level_at(text: &[u8]) -> Option<(u64, &[u8])>
    ensures { option_map (λ read. (read.0, read.1.now)) result ≡ level_at text.now }
{
    let rest = after(b"lv".as_slice(), text)?;
    if rest.len() < 2 || !rest[0].is_ascii_digit() || !rest[1].is_ascii_digit() {
        return None;
    }
    let level = u64::from(rest[0] - b'0') * 10 + u64::from(rest[1] - b'0');
    let (_, rest) = rest.split_at(2);
    Some((level, rest))
}

/// Reads a word and a number.
#[tactic(auto, unfolding(crate::specs::Parts::number_after))]
pub(crate) fn number_after<'a>(word: &[u8], text: &'a [u8]) -> Option<(u64, &'a [u8])>
    ensures { option_map (λ read. (read.0, read.1.now)) result ≡ number_after word.now text.now }
{
    number_at(after(word, text)?)
}

/// Reads a word and an address.
#[tactic(auto, unfolding(crate::specs::Parts::address_after))]
pub(crate) fn address_after<'a>(word: &[u8], text: &'a [u8]) -> Option<(u64, &'a [u8])>
    ensures { option_map (λ read. (read.0, read.1.now)) result ≡ address_after word.now text.now }
{
    address_at(after(word, text)?)
}

/// Reads a word and a level.
#[tactic(auto, unfolding(crate::specs::Parts::level_after))]
pub(crate) fn level_after<'a>(word: &[u8], text: &'a [u8]) -> Option<(u64, &'a [u8])>
    ensures { option_map (λ read. (read.0, read.1.now)) result ≡ level_after word.now text.now }
{
    level_at(after(word, text)?)
}

/// Reads the name of a space.
#[inline(always)]
#[tactic(auto, unfolding(crate::specs::Parts::space_at))]
pub(crate) fn space_at(text: &[u8]) -> Option<(Space, &[u8])>
    ensures { option_map (λ read. (read.0, read.1.now)) result ≡ space_at text.now }
{
    if let Some(rest) = after(b"non-class".as_slice(), text) {
        return Some((Space::NonClass, rest));
    }
    let rest = after(b"class".as_slice(), text)?;
    Some((Space::Class, rest))
}
