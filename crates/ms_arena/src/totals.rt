//! Sums over one arena.
ghost use Rattle.std.specs.Prelude.{◌≡◌, ◌+◌, ◌<◌, ◌^◌};
ghost use Rattle.ms_base.specs.Totals.{capacity_of, fronts_of};

use ms_pool::Account;

/// The sums over one arena: `used = live + free_blocks + waste`. After HotSpot's VM.metaspace, with
/// this project's numbers.
#[derive(Clone, Copy, Debug, PartialEq, Eq)]
pub struct ArenaTotals {
    /// Chunks that the arena holds.
    pub chunks: u32,
    /// Words of its chunks.
    pub capacity: u64,
    /// Words of their fronts.
    pub fronts: u64,
    /// Words in use: the sum of the tops.
    pub used: u64,
    /// Words of live blocks.
    pub live: u64,
    /// Words of free blocks.
    pub free_blocks: u64,
    /// Words in use that are in no live and in no free block.
    pub waste: u64,
    pub ghost balance: { used ≡ live + free_blocks + waste },
}

/// Returns the words of an account's chunks, and those of their fronts.
pub(crate) fn sums_of(account: &Account) -> (u64, u64)
    ensures capacity { result.0 ≡ capacity_of account.now.chunks }
    ensures fronts { result.1 ≡ fronts_of account.now.chunks }
    ensures small { result.0 < 2 ^ 52 }
{
    let mut capacity = 0;
    let mut fronts = 0;
    for index in 0..account.held() {
        let chunk = account.chunk(index);
        capacity += chunk.level.words();
        fronts += chunk.front;
    }
    (capacity, fronts)
}
