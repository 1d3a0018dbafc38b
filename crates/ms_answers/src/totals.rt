//! Sums over a whole system, as a report shows them.
//!
//! Each sum is made anew from the system's parts: of the pool what is reserved, committed, lent and
//! free; of each arena what is in use, live and in free blocks. After HotSpot's VM.metaspace, with
//! this project's numbers.
ghost use Rattle.std.specs.Prelude.{◌≡◌, ◌+◌};

use crate::details::Details;
use crate::peaks::Peaks;
use ms_base::Kind;

/// The sums over one space: `used = live + free_blocks + waste`. After HotSpot's VM.metaspace, with
/// this project's numbers.
#[derive(Clone, Copy, Debug)]
pub struct SpaceTotals {
    /// Reserved nodes, at most 64; of the class space at most 16.
    pub nodes: u32,
    /// Words of the reserved nodes.
    pub reserved: u64,
    /// Committed granules.
    pub granules: u64,
    /// Words of the committed granules.
    pub committed: u64,
    /// Chunks that are lent.
    pub chunks: u32,
    /// Words of the chunks that are lent.
    pub capacity: u64,
    /// Words of their fronts.
    pub fronts: u64,
    /// Words in use: the sum of the tops.
    pub used: u64,
    /// Words of live blocks.
    pub live: u64,
    /// Words of free blocks.
    pub free_blocks: u64,
    /// Words in use that are in no live and in no free block.
    pub waste: u64,
    /// Chunks that are lent, by level, 0 to 12.
    pub held: [u32; 13],
    /// Parts that are free, by level, 0 to 12.
    pub free: [u32; 13],
    pub ghost balance: { used ≡ live + free_blocks + waste },
}

/// One loader's sums, over both its arenas. After HotSpot's VM.metaspace, with this project's
/// numbers.
#[derive(Clone, Copy, Debug)]
pub struct LoaderRow {
    /// The loader's name.
    pub name: u16,
    /// What kind of loader it is.
    pub kind: Kind,
    /// Chunks that it holds.
    pub chunks: u32,
    /// Words of its chunks.
    pub capacity: u64,
    /// Words in use: the sum of the tops.
    pub used: u64,
    /// Words of its live blocks.
    pub live: u64,
}

/// All that a report shows: the sums over each space, and a row for each loader. After HotSpot's
/// VM.metaspace, with this project's numbers.
#[derive(Drop)]
pub struct Totals {
    /// Loaders, at most 65536.
    pub loaders: u32,
    /// The sums over the space that is not the class space.
    pub space: SpaceTotals,
    /// The sums over the class space.
    pub class_space: SpaceTotals,
    /// A row for each loader, in rising order of name.
    pub rows: Vec<LoaderRow>,
    /// The sums of each loader in each space, where a full report asks for them.
    pub details: Option<Details>,
    /// The most that the run had at once so far, where a full report asks for it.
    pub peaks: Option<Peaks>,
}
