//! How much of the memory is what: amounts of words, each with its share of what stands above it.
//!
//!     reserved
//!     committed      of the limit
//!       used         of committed
//!         live, free blocks, waste      of used
//!
//! Kept true: an amount is exactly that of the totals, and a share is cut off after one digit.
//! Takes no memory.
ghost use Rattle.std.specs.Prelude.{◌≡◌, ◌<◌, ◌^◌};
ghost use Rattle.ms_answers.specs.Sums.{space_in, sums_in};
ghost use Rattle.ms_report.specs.Usage.{AreSmall, amount_of, both_words, usage_of};
ghost use Rattle.ms_report.specs.Usage.{usages_of, words_of};

use ms_answers::{SpaceTotals, Totals};
use ms_base::{Settings, granule};

/// An amount of memory. Of 128 bits, so that the sum over both spaces always has room.
#[derive(Clone, Copy, Debug)]
pub struct Amount {
    /// Words of 8 bytes.
    pub words: u128,
    /// Its share of what stands above it, in tenths of a per cent, cut off: 125 is 12.5 per cent.
    /// `None` where nothing stands above it, or that has no words.
    pub share: Option<u128>,
}

/// How much of a space, or of both together, is what. After HotSpot's VM.metaspace, with this
/// project's numbers.
#[derive(Clone, Copy, Debug)]
pub struct Usage {
    /// Reserved nodes; nothing stands above them.
    pub reserved: Amount,
    /// Committed granules, of the limit, which is over both spaces.
    pub committed: Amount,
    /// In use, of what is committed.
    pub used: Amount,
    /// Live blocks, of what is in use.
    pub live: Amount,
    /// Free blocks, of what is in use.
    pub free_blocks: Amount,
    /// In no live and in no free block, of what is in use.
    pub waste: Amount,
}

/// The usage of each space and of both together.
#[derive(Clone, Copy)]
pub struct Usages {
    /// That of the space that is not the class space.
    pub space: Usage,
    /// That of the class space.
    pub class_space: Usage,
    /// That of both together.
    pub both: Usage,
}

/// The words of a space, or of both together, by what they are.
#[derive(Clone, Copy)]
struct Words {
    reserved: u128,
    committed: u128,
    used: u128,
    live: u128,
    free_blocks: u128,
    waste: u128,
}

/// Returns how much of the memory is what, of totals of a run with these settings.
pub fn weigh(totals: &Totals, settings: &Settings) -> Usages
    ensures { result ≡ usages_of settings.now (sums_in totals.now) }
{
    let limit = u128::from(settings.max_granules * granule(settings.policy));
    let space = words_in(&totals.space);
    let class_space = words_in(&totals.class_space);
    Usages {
        space: weigh_words(limit, space),
        class_space: weigh_words(limit, class_space),
        both: weigh_words(limit, add(space, class_space)),
    }
}

/// Returns the words of a space.
fn words_in(space: &SpaceTotals) -> Words
    ensures words { result ≡ words_of (space_in space.now) }
    ensures small { AreSmall (2 ^ 64) result }
{
    Words {
        reserved: u128::from(space.reserved),
        committed: u128::from(space.committed),
        used: u128::from(space.used),
        live: u128::from(space.live),
        free_blocks: u128::from(space.free_blocks),
        waste: u128::from(space.waste),
    }
}

/// Adds the words of two spaces.
fn add(one: Words, other: Words) -> Words
    requires one { AreSmall (2 ^ 64) one }
    requires other { AreSmall (2 ^ 64) other }
    ensures words { result ≡ both_words one other }
    ensures small { AreSmall (2 ^ 65) result }
{
    Words {
        reserved: one.reserved + other.reserved,
        committed: one.committed + other.committed,
        used: one.used + other.used,
        live: one.live + other.live,
        free_blocks: one.free_blocks + other.free_blocks,
        waste: one.waste + other.waste,
    }
}

/// Puts each amount beside its share of what stands above it.
fn weigh_words(limit: u128, words: Words) -> Usage
    requires { AreSmall (2 ^ 65) words }
    ensures { result ≡ usage_of limit words }
{
    Usage {
        reserved: Amount {
            words: words.reserved,
            share: None,
        },
        committed: compare(words.committed, limit),
        used: compare(words.used, words.committed),
        live: compare(words.live, words.used),
        free_blocks: compare(words.free_blocks, words.used),
        waste: compare(words.waste, words.used),
    }
}

/// Puts an amount beside its share of a whole.
fn compare(words: u128, whole: u128) -> Amount
    requires { words < 2 ^ 65 }
    ensures { result ≡ amount_of words whole }
{
    let share = if whole == 0 {
        None
    } else {
        Some(words * 1000 / whole)
    };
    Amount { words, share }
}
