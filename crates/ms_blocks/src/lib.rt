//! Free blocks: the words that an arena keeps for its next allocations, taken by best fit.
//!
//!     by start, as callers see them:    [0, 10)      [20, 24)     [40, 44)
//!
//!     by rank, a few in a row:          (20, 4)   (40, 4)   (0, 10)       (start, words)
//!     many, in a tree for each size:    4 words  (20, 4)              10 words  (0, 10)
//!                                                     \
//!                                                      (40, 4)
//!
//! Fewer words rank first, and of as many words the lower start. So the best fit is the first block
//! that is large enough. A row is halved to find it. Of more blocks than 32, those of fewer than 32
//! words are in a tree for each size and larger ones in trees for a range of sizes each, a bit
//! says which trees have any, and a path down one or two of them finds it. Kept true: no two
//! blocks meet, and each has at least two words. Stands on `ms_base`.
//! Only `FreeBlocks::reserve` takes memory, and nothing waits. Apart because an arena is proved
//! over the list of its free blocks alone, whatever form the blocks have here. Best fit is this
//! project's choice; HotSpot's freeBlocks.hpp keeps small blocks in lists by size and large ones in
//! a tree, and also takes the smallest that fits.
#![tactic(auto)]

mod classes;
mod few;
mod free_blocks;
mod store;
mod tree;

pub use free_blocks::FreeBlocks;
