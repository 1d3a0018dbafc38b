//! The free leaves of a root as a set of bits, one for each part that there may be.
//!
//!     number     1      2      3      4    ..    7      8   ..       4096   ..   8191
//!             +------+------+------+------+----+------+----+---------+------+------+
//!             |      | lower| upper| of 2 | .. | of 3 | .. |  the parts of level 12 |
//!             +------+------+------+------+----+------+----+---------+------+------+
//!     level      0          1               2            3 ..            12
//!
//! The root has the number 1, and the halves of a part have twice its number, and one more: so the
//! parts of a level stand in a row, in order of address, and the lowest free one is the lowest set
//! bit there. Takes no memory.
ghost use Rattle.std.specs.Prelude.{◌≡◌, ◌≢◌, ℕ, ◌+◌, ◌-◌, ◌*◌, ◌/◌, ◌%◌, ◌^◌, ◌<◌, ◌≤◌, ◌==◌, cond, IfSome, IfNone, [], ◌∷◌};
ghost use Rattle.std.specs.Int.{bit_at};
ghost use Rattle.ms_base.specs.declared.sizes.TheConstants.{ROOT_WORDS};
ghost use Rattle.ms_base.specs.Level.{size_of};
ghost use Rattle.ms_buddy.specs.Counts.{beside, buddy_of, holder_of, number_of};
ghost use Rattle.ms_buddy.specs.FreeBits.{IsFilled, IsLowestBit, IsMoved, IsNextSet, MayJoin, MayPart, bit_of};
ghost use Rattle.ms_buddy.specs.Leaves.{span_at};

use crate::parts::words_of;
use ms_base::ROOT_WORDS;

/// How many bits a word has.
const BITS: usize = 64;

/// How many words there are: two bits for each part of level 12.
const WORDS: usize = 128;

/// A bit for each part of a root, set where it is a free leaf.
#[derive(Drop)]
pub(crate) struct FreeBits {
    words: [u64; WORDS],
    /// A bit for each word, set where the word has one, so that a search for one passes over the
    /// others.
    filled: [u64; WORDS / BITS],
}

impl FreeBits {
    /// The bits of a root that is one free leaf.
    pub(crate) fn whole() -> FreeBits
        ensures bits { (number : ℕ) → bit_of result.words number ≡ cond (1 == number) 1 0 }
        ensures filled { IsFilled result.words result.filled }
    {
        let mut bits = FreeBits {
            words: [0; WORDS],
            filled: [0; WORDS / BITS],
        };
        bits.put(1, true);
        bits
    }

    /// Finds the lowest number from one on, and below another, whose bit is set.
    pub(crate) fn next(&self, from: usize, end: usize) -> Option<usize>
        requires end { end ≤ 8192 }
        requires filled { IsFilled self.now.words self.now.filled }
        ensures found { IfSome result (λ number. IsNextSet self.now.words from end number) }
        ensures none { IfNone result
            ((number : ℕ) → from ≤ number → number < end → bit_of self.now.words number ≡ 0) }
    {
        let mut at = from;
        while at < end {
            if let Some(position) = lowest_bit(self.words[at / BITS], at % BITS) {
                let found = at / BITS * BITS + position;
                return if found < end { Some(found) } else { None };
            }
            at = self.next_filled(at / BITS + 1) * BITS;
        }
        None
    }

    /// Finds the first word from one on that has a set bit, or returns how many words there are.
    fn next_filled(&self, from: usize) -> usize
        requires { from ≤ 128 }
        ensures from { from ≤ result }
        ensures within { result ≤ 128 }
        ensures none { (row : ℕ) → from ≤ row → row < result → bit_of self.now.filled row ≡ 0 }
    {
        let mut at = from;
        while at < WORDS {
            if let Some(position) = lowest_bit(self.filled[at / BITS], at % BITS) {
                return at / BITS * BITS + position;
            }
            at = (at / BITS + 1) * BITS;
        }
        WORDS
    }

    /// Parts the free leaf of a level for the part of a lower one that starts at an offset in it:
    /// it is free no longer, and the halves that are left over on the way down are.
    pub(crate) fn part(&mut self, free: u8, at: u64, lent: u8)
        requires order { free ≤ lent }
        requires low { lent ≤ 12 }
        requires in_root { at < ROOT_WORDS }
        requires bits { MayPart self.old.words (holder_of free (span_at at lent)) (span_at at lent) }
        ensures bits { IsMoved self.old.words (holder_of free (span_at at lent) ∷ [])
            (beside (holder_of free (span_at at lent)) (span_at at lent)) self.new.words }
        ensures filled { IsFilled self.old.words self.old.filled
            → IsFilled self.new.words self.new.filled }
    {
        let mut level = lent;
        let mut number = number(lent, at);
        while level != free {
            self.put(buddy_of(number), true);
            level -= 1;
            number /= 2;
        }
        self.put(number, false);
    }

    /// Returns the level of the free leaf that holds the part of a level at an offset, where one
    /// does.
    pub(crate) fn holder(&self, level: u8, at: u64) -> Option<u8>
        requires low { level ≤ 12 }
        requires in_root { at < ROOT_WORDS }
        ensures low { IfSome result (λ holder. holder ≤ level) }
        ensures set { IfSome result (λ holder. bit_of self.now.words (number_of (span_at at holder)) ≡ 1) }
        ensures none { IfNone result ((holder : ℕ) → holder ≤ level
            → bit_of self.now.words (number_of (span_at at holder)) ≡ 0) }
    {
        // A whole root is the farthest from the part, so it is looked for first.
        if self.has(1) {
            return Some(0);
        }
        let mut holder = level;
        let mut number = number(level, at);
        while !self.has(number) {
            if holder == 0 {
                return None;
            }
            holder -= 1;
            number /= 2;
        }
        Some(holder)
    }

    /// Merges the part of a level that starts at an offset with its buddy for as long as that is
    /// free, so that the part that results is a free leaf and the buddies are none any more.
    /// Returns its level: it is the root, or its buddy isn't free.
    pub(crate) fn merge(&mut self, lent: u8, at: u64) -> u8
        requires low { lent ≤ 12 }
        requires in_root { at < ROOT_WORDS }
        ensures low { result ≤ lent }
        ensures apart { 0 < result → bit_of self.old.words
            (buddy_of (number_of (span_at at result))) ≡ 0 }
        ensures merged { (below : ℕ) → result < below → below ≤ lent → bit_of self.old.words
            (buddy_of (number_of (span_at at below))) ≡ 1 }
        ensures bits { MayJoin self.old.words (holder_of result (span_at at lent)) (span_at at lent)
            → IsMoved self.new.words (holder_of result (span_at at lent) ∷ [])
            (beside (holder_of result (span_at at lent)) (span_at at lent)) self.old.words }
        ensures filled { IsFilled self.old.words self.old.filled
            → IsFilled self.new.words self.new.filled }
    {
        let mut free = lent;
        let mut number = number(lent, at);
        while free != 0 && self.has(buddy_of(number)) {
            self.put(buddy_of(number), false);
            free -= 1;
            number /= 2;
        }
        self.put(number, true);
        free
    }

    /// Returns whether the bit of a number is set.
    pub(crate) fn has(&self, number: usize) -> bool
        requires { number < 8192 }
        ensures { result ≡ (bit_of self.now.words number == 1) }
    {
        self.words[number / BITS] >> (number % BITS) & 1 == 1
    }

    /// Sets the bit of a number, or clears it.
    pub(crate) fn put(&mut self, number: usize, set: bool)
        requires { number < 8192 }
        ensures bits { (other : ℕ) → bit_of self.new.words other
            ≡ cond (number == other) (cond set 1 0) (bit_of self.old.words other) }
        ensures filled { IsFilled self.old.words self.old.filled
            → IsFilled self.new.words self.new.filled }
    {
        let row = number / BITS;
        let before = self.words[row];
        let word = with_bit(before, number % BITS, set);
        self.words[row] = word;
        if word != 0 && before != 0 {
            return;
        }
        self.filled[row / BITS] = with_bit(self.filled[row / BITS], row % BITS, word != 0);
    }
}

/// A word with the bit of a position set, or cleared.
#[inline(always)]
fn with_bit(word: u64, position: usize, set: bool) -> u64
    requires { position < 64 }
    ensures here { bit_at result position ≡ cond set 1 0 }
    ensures others { (other : ℕ) → other < 64 → other ≢ position → bit_at result other ≡ bit_at word other }
{
    if set {
        return word | (1 << position);
    }
    word & !(1 << position)
}

/// Finds the lowest set bit of a word from a position on.
#[inline(always)]
fn lowest_bit(word: u64, from: usize) -> Option<usize>
    requires { from < 64 }
    ensures found { IfSome result (λ position. IsLowestBit word from position) }
    ensures none { IfNone result
        ((position : ℕ) → from ≤ position → position < 64 → bit_at word position ≡ 0) }
{
    let later = word >> from;
    if later == 0 {
        return None;
    }
    Some(from + later.trailing_zeros() as usize)
}

/// Returns the number of the part of a level that starts there.
pub(crate) fn number(level: u8, start: u64) -> usize
    requires low { level ≤ 12 }
    requires in_root { start < ROOT_WORDS }
    ensures same { result ≡ number_of (record { start = start; level = level }) }
    ensures within { result < 8192 }
{
    ((ROOT_WORDS + start) >> (19 - level)) as usize
}

/// Returns the number of the other half of a part's parent.
#[inline(always)]
fn buddy_of(number: usize) -> usize
    requires { number < 8192 }
    ensures same { result ≡ buddy_of number }
    ensures within { result < 8192 }
{
    number / 2 * 2 + (1 - number % 2)
}

/// Returns where the part of a level starts that holds an offset.
pub(crate) fn start_of_holder(level: u8, at: u64) -> u64
    requires low { level ≤ 12 }
    requires in_root { at < ROOT_WORDS }
    ensures start { result ≡ at - at % size_of level }
    ensures in_root { result + size_of level ≤ ROOT_WORDS }
{
    at - at % words_of(level)
}

/// Returns the first number of the parts of a level that start at an offset or past it.
pub(crate) fn first_from(level: u8, from: u64) -> usize
    requires low { level ≤ 12 }
    requires in_root { from < ROOT_WORDS }
    ensures { result ≡ (ROOT_WORDS + from + (size_of level - 1)) / size_of level }
{
    ((ROOT_WORDS + from + (words_of(level) - 1)) >> (19 - level)) as usize
}

/// Returns where the part of a level starts that has a number.
pub(crate) fn start_of(level: u8, number: usize) -> u64
    requires low { level ≤ 12 }
    requires from { 2 ^ level ≤ number }
    requires below { number < 2 * 2 ^ level }
    ensures { ROOT_WORDS + result ≡ number * size_of level }
{
    ((number as u64) << (19 - level)) - ROOT_WORDS
}
