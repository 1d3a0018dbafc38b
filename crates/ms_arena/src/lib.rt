//! The arena of one class loader in one space: it bumps a top, reuses freed blocks by best fit,
//! grows its current chunk, and takes chunks from a source.
//!
//! Apart because it is proved once, over any source of chunks: it knows the trait `ChunkSource` and
//! nothing of pools, limits or locks. `RawArena` leaves it to its caller which blocks are live,
//! `Arena` knows them. Stands on `ms_pool` for that trait and on `ms_blocks` for free blocks. Only
//! `place` and `alloc` take memory; `alloc` waits as its source does.
#![tactic(auto)]

mod arena;
mod books;
mod kept;
mod raw;
mod totals;
mod words;

pub use arena::Arena;
pub use raw::{RawArena, wanting_room};
pub use totals::ArenaTotals;
