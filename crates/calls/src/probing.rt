//! What calls find in a state of which no call tells: where its free blocks lie, and how far its
//! current chunks are used.
//!
//!     free blocks     [64, 74)  [12, 14)           current chunk      |####~~~~~~|  past    |
//!     asked for          10        2                                   top    front
//!
//! Blocks of falling sizes are asked for, of each until there is none. A free block goes to the
//! first that isn't larger than it, so each is had whole, at its own size, and so is the rest of a
//! current chunk. Stands on `row`. What is asked may take memory of its own.
use crate::row::tell;
use ms_base::Block;
use std::io;

/// The words of the first block that is asked for: no row has a place for more.
const MOST_WORDS: u64 = 8192;

/// How often a size is asked for: no row has more places of one size.
const MOST_PLACES: u32 = 4;

/// What has places for blocks.
pub(crate) trait Places {
    /// Has a block of so many words, two at least. Answers `None` where there is no place for one,
    /// and fails where it lacks memory.
    fn have(&mut self, words: u64) -> io::Result<Option<Block>>;
}

/// Asks for blocks of falling sizes, and prints those that were had.
pub(crate) fn tell_places<P: Places>(rt: &HostRuntime, places: &mut P) -> io::Result<()> {
    for fewer in 0..MOST_WORDS - 1 {
        tell_places_of(rt, places, MOST_WORDS - fewer)?;
    }
    Ok(())
}

/// Asks for blocks of so many words until there is none, and prints those that were had.
fn tell_places_of<P: Places>(rt: &HostRuntime, places: &mut P, words: u64) -> io::Result<()> {
    for _ in 0..MOST_PLACES {
        match places.have(words)? {
            Some(block) => tell(rt, &block),
            None => return Ok(()),
        }
    }
    Ok(())
}
