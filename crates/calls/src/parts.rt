//! The rows of what stands below a pool: sizes, nodes, split trees and free blocks.
pub(crate) mod blocks;
pub(crate) mod nodes;
pub(crate) mod sizes;
pub(crate) mod tree;
