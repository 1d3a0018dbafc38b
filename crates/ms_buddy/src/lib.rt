//! The splits of one root chunk: which parts of it are lent, to whom and with which front, and which
//! are free.
//!
//! Apart because it needs nothing of the pool that keeps one for each root: no limit, no granule, and
//! any allocator. `RootChunkArea` says what it does, over the list of the lent leaves in order of
//! address (`specs/Leaves.antt`), of which the free leaves are a function. Two bodies meet it:
//! `SplitTree`, a tree in boxes, and `PartTable`, bits and entries, which serves the pool and has
//! searches of its own beside. Stands on `ms_base`, and on `arrayvec` for the stacks of the walks over
//! free leaves. Only `carve` takes memory.
#![tactic(auto)]

mod area;
mod entries;
mod free_bits;
pub mod laws;
mod leaf;
mod leaves;
mod levels;
mod node;
mod node_walk;
mod part_table;
mod part_walk;
mod parts;
mod tree;

pub use area::RootChunkArea;
pub use leaf::Leaf;
pub use leaves::{FreeLeaves, LeavesOf};
pub use part_table::PartTable;
pub use tree::SplitTree;
