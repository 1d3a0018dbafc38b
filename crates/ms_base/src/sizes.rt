//! The sizes that all of the metaspace is laid out by, each said here once. Addresses count words
//! of
//! 8 bytes.
//!
//!     slot     0        1               63       64              79
//!          +--------+--------+ .. +--------+--------+ .. +--------+
//!          |  node  |        |    |        |  node  |    |        |
//!          +--------+--------+ .. +--------+--------+ .. +--------+
//!          |<---   SLOTS of the one     -->|<- CLASS_SLOTS of   ->|
//!                  space                       the class space
//!
//! The root's size is JEP 387's; all else is this project's choice.

/// The words of a root chunk, which is the largest.
pub const ROOT_WORDS: u64 = 524288;

/// The words of a node: two root chunks.
pub const NODE_WORDS: u64 = 1048576;

/// How many slots for nodes the space without classes has: 0 to 63.
pub const SLOTS: u32 = 64;

/// How many the class space has at most: from slot 64 on.
pub const CLASS_SLOTS: u32 = 16;

/// The most granules that a run may be allowed to commit: as many as 80 nodes have of 2048 words.
pub const MOST_GRANULES: u64 = 40960;
