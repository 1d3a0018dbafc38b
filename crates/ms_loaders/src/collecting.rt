//! Collecting the totals of a system: one walk over its loaders, beside the pool's own sums.
//!
//! Apart because only a report asks for them, and no step does: nothing here sees a system. Only
//! `gather` and `gather_loaders` take memory, for the rows, before they look at a loader.
ghost use Rattle.std.specs.Prelude.{◌≡◌, ◌+◌, ◌*◌, ◌<◌, ◌^◌, IfOk, map};
ghost use Rattle.ms_answers.specs.Details.{loader_in, loader_sums};
ghost use Rattle.ms_answers.specs.Sums.{space_in, row_in};
ghost use Rattle.ms_loaders.specs.System.{states_of};
ghost use Rattle.ms_loaders.specs.Collecting.{AreFew, IsGathered, row_made, space_made};
ghost use Rattle.ms_pool.specs.Calls.{sums_in as pool_in};

use crate::in_use::InUse;
use ms_answers::{LoaderDetails, LoaderRow, SpaceTotals};
use ms_arena::ArenaTotals;
use ms_base::{Kind, NODE_WORDS};
use ms_loader_map::Loaders;
use ms_pool::PoolTotals;
use std::alloc::{AllocError, Global};

/// What is gathered of loaders: sums over each space, and a row for each loader.
#[derive(Drop)]
pub struct Gathered {
    /// The sums over the space that is not the class space.
    pub space: InUse,
    /// The sums over the class space.
    pub class_space: InUse,
    /// A row for each loader, in order of name.
    pub rows: Vec<LoaderRow>,
}

/// Gathers the sums over all loaders, and their rows. Takes memory for the rows, and fails only
/// where that is refused.
pub fn gather(alloc: Global, loaders: &Loaders) -> Result<Gathered, AllocError>
    requires few { AreFew (states_of loaders.now) }
    ensures gathered { IfOk result (λ gathered. IsGathered gathered (states_of loaders.now)) }
{
    let mut rows = Vec::with_capacity(alloc, loaders.len())?;
    let mut space = InUse::none();
    let mut class_space = InUse::none();
    for (name, loader) in loaders.iter() {
        let (arena, class_arena) = loader.totals();
        space = space.with(arena);
        class_space = class_space.with(class_arena);
        rows.push_reserved(loader_row(*name, loader.kind(), arena, class_arena));
    }
    Ok(Gathered {
        space,
        class_space,
        rows,
    })
}

/// Makes a loader's row of the sums over its arenas.
fn loader_row(name: u16, kind: Kind, arena: ArenaTotals, class_arena: ArenaTotals) -> LoaderRow
    requires few { arena.chunks + class_arena.chunks < 2 ^ 32 }
    requires small { arena.capacity + class_arena.capacity < 2 ^ 64 }
    requires fits { arena.used + class_arena.used < 2 ^ 64 }
    ensures { row_in result ≡ row_made name kind arena class_arena }
{
    LoaderRow {
        name,
        kind,
        chunks: arena.chunks + class_arena.chunks,
        capacity: arena.capacity + class_arena.capacity,
        used: arena.used + class_arena.used,
        live: arena.live + class_arena.live,
    }
}

/// Makes the sums over a space of those of the pool, whose granules have so many words, and of the
/// loaders.
pub fn space_totals(pool: PoolTotals, granule_words: u64, in_use: InUse) -> SpaceTotals
    requires { pool.granules * granule_words < 2 ^ 64 }
    ensures { space_in result ≡ space_made (pool_in pool) granule_words in_use }
{
    let held = pool.lent;
    let free = pool.free;
    SpaceTotals {
        nodes: pool.nodes,
        reserved: u64::from(pool.nodes) * NODE_WORDS,
        granules: pool.granules,
        committed: pool.granules * granule_words,
        chunks: in_use.chunks,
        capacity: pool.capacity,
        fronts: pool.fronts,
        used: in_use.used,
        live: in_use.live,
        free_blocks: in_use.free_blocks,
        waste: in_use.used - in_use.live - in_use.free_blocks,
        held,
        free,
    }
}

/// Gathers the sums of each loader. Takes memory for the rows, and fails only where that is
/// refused.
pub fn gather_loaders(alloc: Global, loaders: &Loaders) -> Result<Vec<LoaderDetails>, AllocError>
    ensures { IfOk result (λ rows. map loader_in rows.items
        ≡ map loader_sums (states_of loaders.now)) }
{
    let mut rows = Vec::with_capacity(alloc, loaders.len())?;
    for (name, loader) in loaders.iter() {
        let (space, class_space) = loader.totals();
        rows.push_reserved(LoaderDetails {
            name: *name,
            kind: loader.kind(),
            space,
            class_space,
        });
    }
    Ok(rows)
}
