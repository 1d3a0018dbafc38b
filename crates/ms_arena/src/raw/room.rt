//! The memory that an arena has, which it keeps when it starts anew.
//!
//! Apart because it is a hint: a loader may live for two allocations, and to ask for the memory of
//! its arenas costs more than all that is done in it, so whoever has arenas come and go keeps some
//! of those that are done, but no large ones.
use super::RawArena;
use ms_base::Kind;

/// For how many stretches of 2048 words a small arena has memory at most.
const SMALL_STRETCHES: usize = 64;

/// For how many free blocks that come.
const SMALL_BLOCKS: usize = 256;

/// For how many chunks.
const SMALL_TOPS: usize = 64;

/// How many pages of 512 words a small one has in memory at most.
const SMALL_PAGES: usize = 4;

impl RawArena {
    /// Returns whether many blocks are to come: a loader of one hidden class or of one reflection
    /// stub takes a few, others take many. A hint for how much room to make at once, of which
    /// nothing is promised. Takes no memory. This project's choice.
    pub fn expects_many(&self) -> bool {
        self.kind != Kind::Hidden && self.kind != Kind::Reflection
    }

    /// Returns whether the arena's memory is small: some 25 KiB, its chunks aside, and the table of
    /// pages, which is longer where a page far on was written. A hint to whoever keeps arenas to be
    /// renewed, of which nothing is promised. Takes no memory. This project's choice; HotSpot's
    /// arenas are memory themselves.
    pub fn is_small(&self) -> bool {
        let (stretches, pages) = self.words.sizes();
        let (tops, blocks) = self.books.sizes();
        stretches <= SMALL_STRETCHES
            && pages <= SMALL_PAGES
            && blocks <= SMALL_BLOCKS
            && tops <= SMALL_TOPS
    }
}
