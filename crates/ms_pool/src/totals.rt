//! Sums over one space of a pool.

/// How many levels chunks have: 0 to 12.
pub(crate) const LEVELS: usize = 13;

/// The sums over one space of a pool: reserved nodes, committed granules, chunks lent and parts
/// free by level (0 to 12), the words that are lent and those of fronts, and open accounts. After
/// HotSpot's VM.metaspace, with this project's numbers.
#[derive(Clone, Copy, Debug, PartialEq, Eq)]
pub struct PoolTotals {
    /// Reserved nodes.
    pub nodes: u32,
    /// Committed granules.
    pub granules: u64,
    /// Chunks that are lent, by level.
    pub lent: [u32; LEVELS],
    /// Parts that are free, by level.
    pub free: [u32; LEVELS],
    /// Words of the chunks that are lent.
    pub capacity: u64,
    /// Words of their fronts.
    pub fronts: u64,
    /// Open accounts.
    pub accounts: u32,
}
