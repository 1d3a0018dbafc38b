//! How a metaspace stands: what it has of each thing in one state.

/// The words of one space, or of both together, by how far they are taken. What is live is in use,
/// what is in use is committed, and what is committed is reserved. This project's choice.
#[derive(Clone, Copy, Debug, PartialEq, Eq)]
pub struct Extent {
    /// Words of the reserved nodes.
    pub reserved: u64,
    /// Words of the committed granules.
    pub committed: u64,
    /// Words in use: the sum of the tops.
    pub used: u64,
    /// Words of live blocks.
    pub live: u64,
}

impl Extent {
    /// That of nothing.
    pub const NONE: Extent = Extent {
        reserved: 0,
        committed: 0,
        used: 0,
        live: 0,
    };
}

/// How a metaspace stands in one state. This project's choice.
#[derive(Clone, Copy, Debug, PartialEq, Eq)]
pub struct Standing {
    /// The words of both spaces together.
    pub both: Extent,
    /// The words of the class space.
    pub class_space: Extent,
    /// Loaders, at most 65536.
    pub loaders: u64,
}

impl Standing {
    /// That of nothing: no node is reserved, and there is no loader.
    pub const NONE: Standing = Standing {
        both: Extent::NONE,
        class_space: Extent::NONE,
        loaders: 0,
    };
}
