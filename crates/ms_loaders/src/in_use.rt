//! The sums over the arenas of loaders in one space, as they are put together.
ghost use Rattle.std.specs.Prelude.{◌≡◌, ◌+◌, ◌<◌, ◌≤◌, ◌^◌};

use ms_arena::ArenaTotals;

/// The sums over arenas in one space. After HotSpot's VM.metaspace, with this project's numbers.
#[derive(Clone, Copy)]
pub struct InUse {
    /// Chunks that they hold.
    pub chunks: u32,
    /// Words in use: the sum of the tops.
    pub used: u64,
    /// Words of live blocks.
    pub live: u64,
    /// Words of free blocks.
    pub free_blocks: u64,
    pub ghost within: { live + free_blocks ≤ used },
}

impl InUse {
    /// The sums over no arena.
    pub fn none() -> InUse
        ensures chunks { result.chunks ≡ 0 }
        ensures used { result.used ≡ 0 }
        ensures live { result.live ≡ 0 }
        ensures free_blocks { result.free_blocks ≡ 0 }
    {
        InUse {
            chunks: 0,
            used: 0,
            live: 0,
            free_blocks: 0,
        }
    }

    /// Adds an arena to the sums.
    pub fn with(self, arena: ArenaTotals) -> InUse
        requires few { self.chunks + arena.chunks < 2 ^ 32 }
        requires fits { self.used + arena.used < 2 ^ 64 }
        ensures chunks { result.chunks ≡ self.chunks + arena.chunks }
        ensures used { result.used ≡ self.used + arena.used }
        ensures live { result.live ≡ self.live + arena.live }
        ensures free_blocks { result.free_blocks ≡ self.free_blocks + arena.free_blocks }
    {
        InUse {
            chunks: self.chunks + arena.chunks,
            used: self.used + arena.used,
            live: self.live + arena.live,
            free_blocks: self.free_blocks + arena.free_blocks,
        }
    }
}
