//! The sums of each loader, space by space, and the maps of roots: what a full report tells beyond
//! the totals.
//!
//! Apart because only a full report asks for them.
use ms_arena::ArenaTotals;
use ms_base::Kind;
use ms_pool::RootMap;

/// One loader's sums, over each of its arenas. After HotSpot's VM.metaspace, with this project's
/// numbers.
#[derive(Clone, Copy, Debug, PartialEq, Eq)]
pub struct LoaderDetails {
    /// The loader's name.
    pub name: u16,
    /// What kind of loader it is.
    pub kind: Kind,
    /// The sums over its arena outside the class space.
    pub space: ArenaTotals,
    /// The sums over its arena in the class space.
    pub class_space: ArenaTotals,
}

/// What a full report shows beyond the totals. After HotSpot's VM.metaspace, with this project's
/// numbers.
#[derive(Drop)]
pub struct Details {
    /// The sums of each loader, in rising order of name.
    pub loaders: Vec<LoaderDetails>,
    /// The map of each root of each reserved node, in order of address.
    pub roots: Vec<RootMap>,
}
