//! A set of numbers as a mask, one bit for a number.
//!
//!     words     [0]                      [1]                      [2]
//!          +------------------------+------------------------+----------------
//!          | 0 1 2 ..            63 | 64 65 ..           127 | 128 129 ..
//!          +------------------------+------------------------+----------------
//!                        |<--- a range: its bits in word 0, in word 1 --->|
//!
//! A range is counted, set and cleared a word at a time: `bits_between` gives the bits of a word
//! that stand for its numbers, and `&`, `|` and `!` do the rest. Nothing here takes memory.
//! HotSpot's commitMask.hpp has such a mask for a node, as a BitMap.
ghost use Rattle.std.specs.Prelude.{◌≡◌, ℕ, ◌+◌, ◌-◌, ◌*◌, ◌/◌, ◌^◌, ◌<◌, ◌≤◌, true, false, ◌&&◌, ◌||◌, not, nat_le};
ghost use Rattle.std.specs.Prelude.{nat_lt, List, [], length, IfSome, IfNone};
ghost use Rattle.std.specs.List.{filter, range_with_len};
ghost use Rattle.ms_commit.specs.Mask.{is_one, is_set, IsLowestClear};
ghost use Rattle.std.specs.Ordering.{nat_cmp};
ghost use Rattle.std.specs.BTreeSet.{insert_key};
ghost use Rattle.ms_base.specs.PoolSteps.Pick.{lowest_unreserved};
ghost use Rattle.ms_base.specs.Committed.{is_among};
ghost use Rattle.ms_commit.specs.NumberSet.{count_within, with_range, without_range, without_number, IsSetBelow};

use std::marker::Model;

/// Bits of a word of the mask.
pub(crate) const BITS: usize = 64;

/// A set of the numbers below 64 * WORDS.
#[derive(Drop)]
pub struct Mask<const WORDS: usize> {
    words: [u64; WORDS],
}

impl<const WORDS: usize> Model for Mask<WORDS> {
    ghost use Rattle.std.specs.Prelude.{List, ℕ};
    ghost use Rattle.ms_commit.specs.Mask.{members_of};

    ghost Value = { List ℕ };

    ghost view = { λ mask. members_of mask.words };
}

impl<const WORDS: usize> Mask<WORDS> {
    /// Makes the empty set.
    pub fn empty() -> Mask<WORDS>
        ensures { result ≡ [] }
    {
        Mask { words: [0; WORDS] }
    }

    /// Returns whether a number is a member; none past the mask is.
    pub fn contains(&self, number: usize) -> bool
        ensures { result ≡ is_among self.now number }
    {
        let index = number / BITS;
        index < WORDS && self.words[index] >> (number % BITS) & 1 == 1
    }

    /// Counts the members in a range.
    pub fn count(&self, first: usize, count: usize) -> usize
        requires { first + count < 2 ^ 64 }
        ensures { result ≡ count_within self.now first count }
    {
        count_bits(&self.words, first, first + count)
    }

    /// Returns the lowest number that is no member.
    pub fn lowest_missing(&self) -> Option<usize>
        requires { 64 * WORDS < 2 ^ 64 }
        ensures lowest { IfSome result (λ number. number ≡ lowest_unreserved self.now) }
        ensures missing { IfSome result (λ number. is_among self.now number ≡ false) }
        ensures within { IfSome result (λ number. number < 64 * WORDS) }
        ensures full { IfNone result (length self.now ≡ 64 * WORDS) }
    {
        lowest_clear(&self.words)
    }

    /// Returns the lowest member in a range.
    pub fn lowest_within(&self, first: usize, count: usize) -> Option<usize>
        requires { first + count < 2 ^ 64 }
        ensures member { IfSome result (λ number. is_among self.now number ≡ true) }
        ensures from { IfSome result (λ number. first ≤ number) }
        ensures below { IfSome result (λ number. number < first + count) }
        ensures lowest { IfSome result
            (λ number. (k : ℕ) → first ≤ k → k < number → is_among self.now k ≡ false) }
        ensures none { IfNone result
            ((k : ℕ) → first ≤ k → k < first + count → is_among self.now k ≡ false) }
    {
        lowest_set(&self.words, first, first + count)
    }

    /// Adds a number.
    pub fn insert(&mut self, number: usize)
        requires within { number < 64 * WORDS }
        requires fits { number + 1 < 2 ^ 64 }
        ensures added { self.new ≡ insert_key nat_cmp self.old number }
        ensures counted { is_among self.old number ≡ false → length self.new ≡ length self.old + 1 }
        ensures set { IsSetBelow (64 * WORDS) self.new }
    {
        set_bits(&mut self.words, number, number + 1);
    }

    /// Takes a number out.
    pub fn remove(&mut self, number: usize)
        requires within { number < 64 * WORDS }
        requires fits { number + 1 < 2 ^ 64 }
        ensures removed { self.new ≡ without_number self.old number }
        ensures counted { is_among self.old number ≡ true → length self.new + 1 ≡ length self.old }
        ensures set { IsSetBelow (64 * WORDS) self.new }
    {
        let _ = clear_bits(&mut self.words, number, number + 1);
    }

    /// Adds the numbers of a range.
    pub fn insert_range(&mut self, first: usize, count: usize)
        requires within { (k : ℕ) → first ≤ k → k < first + count → k < 64 * WORDS }
        requires fits { first + count < 2 ^ 64 }
        ensures added { self.new ≡ with_range self.old first count }
        ensures counted { length self.new + count_within self.old first count
            ≡ length self.old + count }
        ensures set { IsSetBelow (64 * WORDS) self.new }
    {
        set_bits(&mut self.words, first, first + count);
    }

    /// Takes the numbers of a range out, and returns how many of them were members.
    pub fn remove_range(&mut self, first: usize, count: usize) -> usize
        requires within { (k : ℕ) → first ≤ k → k < first + count → k < 64 * WORDS }
        requires fits { first + count < 2 ^ 64 }
        ensures members { result ≡ count_within self.old first count }
        ensures removed { self.new ≡ without_range self.old first count }
        ensures counted { length self.new + count_within self.old first count ≡ length self.old }
        ensures set { IsSetBelow (64 * WORDS) self.new }
    {
        clear_bits(&mut self.words, first, first + count)
    }
}

/// The bits of a word, whose first has the number `base`, that stand for the numbers from `first`
/// up to `end`.
fn bits_between(first: usize, end: usize, base: usize) -> u64
    ensures { (position : ℕ) → position < 64
        → is_one result position
        ≡ (nat_le first (base + position) && nat_lt (base + position) end) }
{
    let low = first.saturating_sub(base).min(BITS);
    let high = end.saturating_sub(base).min(BITS);
    if low < high {
        (u64::MAX << low) & (u64::MAX >> (BITS - high))
    } else {
        0
    }
}

/// Counts the set bits of the numbers from `first` up to `end`; those past the words are clear.
fn count_bits(words: &[u64], first: usize, end: usize) -> usize
    ensures { result ≡ length (filter (is_set words.now) (range_with_len first (end - first))) }
{
    let mut count = 0;
    for index in first / BITS..end.div_ceil(BITS).min(words.len()) {
        count += (words[index] & bits_between(first, end, BITS * index)).count_ones() as usize;
    }
    count
}

/// Sets the bits of the numbers from `first` up to `end`, as far as there are words.
fn set_bits(words: &mut [u64], first: usize, end: usize)
    ensures { (k : ℕ) → k < 64 * length words.old
        → is_set words.new k ≡ (is_set words.old k || (nat_le first k && nat_lt k end)) }
{
    for index in first / BITS..end.div_ceil(BITS).min(words.len()) {
        words[index] |= bits_between(first, end, BITS * index);
    }
}

/// Clears the bits of the numbers from `first` up to `end`, and returns how many of them were set;
/// those past the words are clear.
fn clear_bits(words: &mut [u64], first: usize, end: usize) -> usize
    ensures count { result ≡ length (filter (is_set words.old) (range_with_len first (end - first))) }
    ensures cleared { (k : ℕ) → k < 64 * length words.old
        → is_set words.new k ≡ (is_set words.old k && not (nat_le first k && nat_lt k end)) }
{
    let mut count = 0;
    for index in first / BITS..end.div_ceil(BITS).min(words.len()) {
        let bits = bits_between(first, end, BITS * index);
        count += (words[index] & bits).count_ones() as usize;
        words[index] &= !bits;
    }
    count
}

/// Finds the lowest number whose bit is clear.
fn lowest_clear(words: &[u64]) -> Option<usize>
    requires { 64 * length words.now < 2 ^ 64 }
    ensures lowest { IfSome result (λ number. IsLowestClear words.now number) }
    ensures full { IfNone result ((k : ℕ) → k < 64 * length words.now → is_set words.now k ≡ true) }
{
    for (index, word) in words.iter().enumerate() {
        if *word != u64::MAX {
            return Some(BITS * index + word.trailing_ones() as usize);
        }
    }
    None
}

/// Finds the lowest of the numbers from `first` up to `end` whose bit is set.
fn lowest_set(words: &[u64], first: usize, end: usize) -> Option<usize>
    ensures set { IfSome result (λ number. is_set words.now number ≡ true) }
    ensures from { IfSome result (λ number. first ≤ number) }
    ensures below { IfSome result (λ number. number < end) }
    ensures lowest { IfSome result
        (λ number. (k : ℕ) → first ≤ k → k < number → is_set words.now k ≡ false) }
    ensures none { IfNone result ((k : ℕ) → first ≤ k → k < end → is_set words.now k ≡ false) }
{
    for index in first / BITS..end.div_ceil(BITS).min(words.len()) {
        let bits = words[index] & bits_between(first, end, BITS * index);
        if bits != 0 {
            return Some(BITS * index + bits.trailing_zeros() as usize);
        }
    }
    None
}
