//! What is lent, counted: chunks by level, their words and those of their fronts, of each space.
//!
//! Kept true, in words of the pool: what is counted are the chunks that are lent. They are counted
//! as they come, grow and go, so whoever asks visits no tree. Nothing here takes memory.
ghost use Rattle.std.specs.Prelude.{◌≡◌, ◌+◌, ◌<◌, ◌≤◌, ◌^◌, ◌==◌, cond, [], ◌∷◌, get_or};
ghost use Rattle.ms_base.specs.declared.kind.Space.{Space};
ghost use Rattle.ms_buddy.specs.Counts.{AreRaised};
ghost use Rattle.ms_pool.specs.Counting.{AreCounted, HasLeast, HasRoomFor, HaveLeast, Moves, MovesIn};
ghost use Rattle.ms_pool.specs.Counting.{counted_in};

use crate::account::Account;
use crate::totals::LEVELS;
use ms_base::{Chunk, Level, Space};

/// What was counted of chunks that are lent: how many of each level, their words, and those of
/// their fronts.
#[derive(Clone, Copy)]
pub(crate) struct Counted {
    /// Chunks by level.
    pub(crate) lent: [u32; LEVELS],
    /// Their words.
    pub(crate) capacity: u64,
    /// The words of their fronts.
    pub(crate) fronts: u64,
}

/// What was counted in each space.
#[derive(Drop)]
pub(crate) struct Lent {
    /// Outside the class space.
    pub(crate) space: Counted,
    /// In the class space.
    pub(crate) class_space: Counted,
}

impl Lent {
    /// Nothing is lent.
    pub(crate) fn none() -> Lent
        ensures { (space : Space) → AreCounted [] (counted_in space result) }
    {
        let none = Counted {
            lent: [0; LEVELS],
            capacity: 0,
            fronts: 0,
        };
        Lent {
            space: none,
            class_space: none,
        }
    }

    /// What was counted in a space.
    pub(crate) fn counted(&self, space: Space) -> Counted
        ensures { result ≡ counted_in space self.now }
    {
        match space {
            Space::NonClass => self.space,
            Space::Class => self.class_space,
        }
    }

    /// Counts a chunk that comes.
    pub(crate) fn add(&mut self, space: Space, chunk: &Chunk)
        requires { HasRoomFor (counted_in space self.old) chunk.now }
        ensures { MovesIn space self.old [] (chunk.now ∷ []) self.new }
    {
        match space {
            Space::NonClass => count_chunk(&mut self.space, chunk),
            Space::Class => count_chunk(&mut self.class_space, chunk),
        }
    }

    /// Counts a chunk that becomes a greater one.
    pub(crate) fn replace(&mut self, space: Space, chunk: &Chunk, greater: &Chunk)
        requires least { HasLeast (counted_in space self.old) chunk.now }
        requires room { HasRoomFor (counted_in space self.old) greater.now }
        ensures { MovesIn space self.old (chunk.now ∷ []) (greater.now ∷ []) self.new }
    {
        match space {
            Space::NonClass => count_greater(&mut self.space, chunk, greater),
            Space::Class => count_greater(&mut self.class_space, chunk, greater),
        }
    }

    /// Counts the chunks of an account that go.
    pub(crate) fn take_out(&mut self, account: &Account)
        requires { HaveLeast (counted_in account.now.space self.old) account.now.chunks }
        ensures { MovesIn account.now.space self.old account.now.chunks [] self.new }
    {
        match account.space() {
            Space::NonClass => discount_chunks(&mut self.space, account),
            Space::Class => discount_chunks(&mut self.class_space, account),
        }
    }
}

/// Counts one more of a level.
fn one_more(counts: &mut [u32; LEVELS], level: Level)
    requires { get_or counts.old level 0 + 1 < 2 ^ 32 }
    ensures { AreRaised counts.old (λ other. cond (level == other) 1 0) counts.new }
{
    counts[level.number() as usize] += 1;
}

/// Counts one less of a level.
fn one_less(counts: &mut [u32; LEVELS], level: Level)
    requires { 1 ≤ get_or counts.old level 0 }
    ensures { AreRaised counts.new (λ other. cond (level == other) 1 0) counts.old }
{
    counts[level.number() as usize] -= 1;
}

/// Counts a chunk more.
fn count_chunk(counted: &mut Counted, chunk: &Chunk)
    requires { HasRoomFor counted.old chunk.now }
    ensures { Moves counted.old [] (chunk.now ∷ []) counted.new }
{
    one_more(&mut counted.lent, chunk.level);
    counted.capacity += chunk.level.words();
    counted.fronts += chunk.front;
}

/// Counts a chunk less.
fn discount_chunk(counted: &mut Counted, chunk: &Chunk)
    requires { HasLeast counted.old chunk.now }
    ensures { Moves counted.old (chunk.now ∷ []) [] counted.new }
{
    one_less(&mut counted.lent, chunk.level);
    counted.capacity -= chunk.level.words();
    counted.fronts -= chunk.front;
}

/// Counts a greater chunk in the place of a chunk.
fn count_greater(counted: &mut Counted, chunk: &Chunk, greater: &Chunk)
    requires least { HasLeast counted.old chunk.now }
    requires room { HasRoomFor counted.old greater.now }
    ensures { Moves counted.old (chunk.now ∷ []) (greater.now ∷ []) counted.new }
{
    discount_chunk(counted, chunk);
    count_chunk(counted, greater);
}

/// Counts the chunks of an account less.
fn discount_chunks(counted: &mut Counted, account: &Account)
    requires { HaveLeast counted.old account.now.chunks }
    ensures { Moves counted.old account.now.chunks [] counted.new }
{
    for index in 0..account.held() {
        discount_chunk(counted, &account.chunk(index));
    }
}
