//! What a loader holds, as a row of a table.
ghost use Rattle.std.specs.Prelude.{◌≡◌};
ghost use Rattle.ms_page.specs.Growth.{growth_between};

use ms_base::Kind;
use ms_course::Birth;

/// How a loader's live words at the end differ from those half-way. This project's choice.
#[derive(Clone, Copy, Debug, PartialEq, Eq)]
pub enum Growth {
    /// The loader was not there half-way.
    New,
    /// It has as many.
    Same,
    /// It has so many words more.
    More(u64),
    /// It has so many words fewer.
    Less(u64),
}

/// What a loader holds at the end, over both spaces, in words. This project's choice.
#[derive(Clone, Copy, Debug, PartialEq, Eq)]
pub struct Holding {
    /// The loader's name.
    pub name: u16,
    /// What kind of loader it is.
    pub kind: Kind,
    /// The line that made it.
    pub since: Birth,
    /// Chunks that it holds.
    pub chunks: u64,
    /// Words of its chunks.
    pub capacity: u64,
    /// Words in use: the sum of the tops.
    pub used: u64,
    /// Words of its live blocks.
    pub live: u64,
    /// Words of its free blocks.
    pub free_blocks: u64,
    /// Words in use that are in no live and in no free block.
    pub waste: u64,
    /// How its live words grew since half-way.
    pub growth: Growth,
}

/// Compares live words with those half-way.
pub(crate) fn growth_between(before: Option<u64>, live: u64) -> Growth
    ensures { result ≡ growth_between before live }
{
    match before {
        None => Growth::New,
        Some(before) if before < live => Growth::More(live - before),
        Some(before) if live < before => Growth::Less(before - live),
        Some(_) => Growth::Same,
    }
}
