//! The arenas of a loader whose blocks have no names: one in each space, each of which knows its
//! live blocks by where they start.
//!
//!     take(space, words) ──> start, words ──> give(space, start, words)
//!
//! A block is known by its space, its start and its words. Over the pool that a seat has the arenas
//! take chunks; without it a block has its place in their own. Only `take` and `place` take memory.
ghost use Rattle.std.specs.Prelude.{◌≡◌, ◌≢◌, ◌↔◌, IfOk, IfErr, OnOk, OnErr};
ghost use Rattle.ms_base.specs.declared.refusal.Refusal.TheVariants.{NotLive};
ghost use Rattle.ms_pool.specs.Account.{AccountState};
ghost use Rattle.ms_arena.specs.Arena.{account_of, PlaceRefused, IsNotLive};
ghost use Rattle.ms_arena.specs.Alloc.{Allocates};
ghost use Rattle.ms_shared.specs.SeatView.{ServesBy, opened_by};
ghost use Rattle.ms_shared.specs.LockCalls.{TookHeld, GrewHeld};
ghost use Rattle.ms_member.specs.Arenas.{ServesArenas, TakesOver, PlacesOwn, GivesBlock, arena_in};
ghost use Rattle.ms_member.specs.Arenas.{AreArenasSums};

use ms_arena::Arena;
use ms_base::{Block, Refusal, Space};
use ms_loaders::LoaderTotals;
use ms_shared::{HeldSeat, SharedPool};

/// The arenas of a loader without names.
#[derive(Drop)]
pub struct Arenas {
    /// The one outside the class space.
    pub arena: Arena,
    /// The class space's.
    pub class_arena: Arena,
}

/// Allocates a block in a space over the pool that a seat has.
pub fn take_over(
    shared: &SharedPool,
    held: HeldSeat,
    arenas: &mut Arenas,
    space: Space,
    words: u64,
) -> (HeldSeat, Result<Block, Refusal>)
    requires own { held.seat.id ≡ shared.now.id }
    requires serves { ServesArenas held.seat.knows arenas.old }
    ensures own { result.0.seat.id ≡ held.seat.id }
    ensures serves { ServesArenas result.0.seat.knows arenas.new }
    ensures takes { TakesOver space words held arenas.old result.1 arenas.new result.0 }
    ensures unchanged { OnErr result.1 (arenas.new ≡ arenas.old) }
{
    match space {
        Space::NonClass => ask_pool(shared, held, &mut arenas.arena, words),
        Space::Class => ask_pool(shared, held, &mut arenas.class_arena, words),
    }
}

/// Allocates a block of an arena over the pool that a seat has.
fn ask_pool(
    shared: &SharedPool,
    held: HeldSeat,
    arena: &mut Arena,
    words: u64,
) -> (HeldSeat, Result<Block, Refusal>)
    requires own { held.seat.id ≡ shared.now.id }
    requires serves { ServesBy held.seat.knows (account_of arena.old) }
    ensures own { result.0.seat.id ≡ held.seat.id }
    ensures serves { ServesBy result.0.seat.knows (account_of arena.new) }
    ensures others { (other : AccountState) → other.owner ≢ arena.old.owner
        → ServesBy held.seat.knows other → ServesBy result.0.seat.knows other }
    ensures counted { opened_by result.0.seat.knows ≡ opened_by held.seat.knows }
    ensures allocates { Allocates GrewHeld TookHeld held.seat.knows.limits.policy arena.old words
        held result.1 arena.new result.0 }
    ensures unchanged { OnErr result.1 (arena.new ≡ arena.old) }
{
    let mut pool = shared.resume(held);
    let answer = arena.alloc(&mut pool, words);
    (pool.pause(), answer)
}

/// Places a block in a space where the arena needs no further chunk.
pub fn place(arenas: &mut Arenas, space: Space, words: u64) -> Result<Option<Block>, Refusal>
    ensures placed { IfOk result (λ found. PlacesOwn space words arenas.old found arenas.new) }
    ensures refused { IfErr result (λ refusal. PlaceRefused words refusal) }
    ensures unchanged { OnErr result (arenas.new ≡ arenas.old) }
{
    match space {
        Space::NonClass => arenas.arena.place(words),
        Space::Class => arenas.class_arena.place(words),
    }
}

/// Frees a block of a space. Refused with `NotLive` exactly where it is not live there.
pub fn give(arenas: &mut Arenas, space: Space, block: Block) -> Result<(), Refusal>
    ensures freed { OnOk result (GivesBlock space arenas.old block arenas.new) }
    ensures not_live { IfErr result (λ refusal. (refusal ≡ NotLive) × IsNotLive (arena_in space arenas.old) block) }
    ensures unchanged { OnErr result (arenas.new ≡ arenas.old) }
{
    match space {
        Space::NonClass => arenas.arena.free(block),
        Space::Class => arenas.class_arena.free(block),
    }
}

/// Returns the kind of the loader and the sums over both arenas. Visits each of their chunks once.
pub fn totals_of(arenas: &Arenas) -> LoaderTotals
    ensures { AreArenasSums arenas.now result }
{
    LoaderTotals {
        kind: arenas.arena.kind(),
        space: arenas.arena.totals(),
        class_space: arenas.class_arena.totals(),
    }
}
