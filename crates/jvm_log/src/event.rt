//! What a line of the log says.
use ms_base::{Kind, Space};

/// What a line of the log says. Addresses are those of the JVM; words have 8 bytes. After the
/// messages of HotSpot 17's metaspace at level trace.
#[derive(Clone, Copy, Debug, PartialEq, Eq)]
pub enum Event {
    /// The metaspace begins: no line about it stands before this one.
    Begun,
    /// A loader is born with its two arenas.
    LoaderBorn {
        loader: u64,
        arena: u64,
        class_arena: u64,
    },
    /// A loader is unloaded, and its two arenas with it.
    LoaderDies {
        loader: u64,
    },
    /// A thread asks an arena for a block.
    Requested {
        arena: u64,
        space: Space,
        words: u64,
    },
    /// The request is answered by a block at that address.
    Returned {
        arena: u64,
        space: Space,
        address: u64,
    },
    /// The request is answered by a block that was freed before; the next `Told` has
    /// its address.
    TakenFromFreeBlocks {
        arena: u64,
        space: Space,
    },
    /// The request is refused.
    Failed {
        arena: u64,
        space: Space,
    },
    /// A block is freed.
    Deallocated {
        arena: u64,
        space: Space,
        address: u64,
        words: u64,
    },
    /// A chunk of that level is asked for; level 0 has 16 MB, level 14 1 KB.
    ChunkRequested {
        space: Space,
        level: u64,
    },
    /// A chunk is handed out to an arena.
    ChunkHandedOut {
        space: Space,
        base: u64,
    },
    /// A chunk is doubled in place.
    Enlarged {
        base: u64,
    },
    /// Memory is committed.
    Committed {
        words: u64,
    },
    /// A thread gets its block, which lies at that address.
    Told {
        address: u64,
    },
    /// A class whose block lies at that address belongs to a loader of that kind.
    ClassAdded {
        address: u64,
        kind: Kind,
    },
    /// The loader whose data lies at that address has a name, which
    /// the JVM logs when it unloads the loader.
    LoaderNamed {
        data: u64,
    },
    /// A collection is over.
    Collection,
    /// The JVM left out lines of its log.
    Dropped,
    /// An arena has a name that none has in JDK 17. No trace can be made of such a log.
    OtherRelease,
}

/// What a line says, and the thread that wrote it.
#[derive(Clone, Copy, Debug, PartialEq, Eq)]
pub struct Said {
    pub thread: u64,
    pub event: Event,
}
