//! Counts by level, and the levels that have any, as bits, that of level 0 the lowest. Takes no
//! memory.
ghost use Rattle.std.specs.Prelude.{◌≡◌, ℕ, ◌+◌, ◌^◌, ◌<◌, ◌≤◌, ◌&&◌, nat_lt, get_or};
ghost use Rattle.ms_buddy.specs.Counts.{AreRaised, AreShifted, one_at};
ghost use Rattle.ms_buddy.specs.Leaves.{has_level};

/// How many levels there are: 0 to 12.
pub(crate) const LEVELS: usize = 13;

/// Returns the levels of which some are counted, as bits.
pub(crate) fn levels_of(counts: &[u16; LEVELS]) -> u16
    ensures { (level : ℕ) → has_level result level
        ≡ (nat_lt level 13 && nat_lt 0 (get_or counts.now level 0)) }
{
    let mut levels = 0;
    for level in 0..LEVELS {
        if counts[level] != 0 {
            levels |= 1 << level;
        }
    }
    levels
}

/// Counts a leaf of one level less, and one more of each level below it, down to another.
pub(crate) fn part_counts(counts: &mut [u16; LEVELS], free: u8, lent: u8)
    requires order { free ≤ lent }
    requires low { lent ≤ 12 }
    requires some { 1 ≤ get_or counts.old free 0 }
    requires room { (level : ℕ) → level < 13 → get_or counts.old level 0 + 1 < 2 ^ 16 }
    ensures { AreShifted counts.old free (lent + 1) counts.new }
{
    one_less(counts, free);
    for level in free + 1..lent + 1 {
        one_more(counts, level);
    }
}

/// Counts a leaf of one level more, and one less of each level below it, down to another.
pub(crate) fn join_counts(counts: &mut [u16; LEVELS], free: u8, lent: u8)
    requires order { free ≤ lent }
    requires low { lent ≤ 12 }
    requires some { (level : ℕ) → free < level → level ≤ lent → 1 ≤ get_or counts.old level 0 }
    requires room { get_or counts.old free 0 + 1 < 2 ^ 16 }
    ensures { AreShifted counts.new free (lent + 1) counts.old }
{
    one_more(counts, free);
    for level in free + 1..lent + 1 {
        one_less(counts, level);
    }
}

/// Counts one more of a level.
fn one_more(counts: &mut [u16; LEVELS], level: u8)
    requires low { level ≤ 12 }
    requires room { get_or counts.old level 0 + 1 < 2 ^ 16 }
    ensures { AreRaised counts.old (one_at level) counts.new }
{
    counts[level as usize] += 1;
}

/// Counts one less of a level.
fn one_less(counts: &mut [u16; LEVELS], level: u8)
    requires low { level ≤ 12 }
    requires some { 1 ≤ get_or counts.old level 0 }
    ensures { AreRaised counts.new (one_at level) counts.old }
{
    counts[level as usize] -= 1;
}
