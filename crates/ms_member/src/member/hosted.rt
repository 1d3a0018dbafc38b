//! The arenas of a loader without names: they know their live blocks, or leave them to the program.
//!
//!     Known   a block that is given back is looked up, and is else refused
//!     Bare    whoever gives it back owes that it is live
//!
//! Over the pool that a seat has they are opened and closed, and take chunks; without it a block is
//! placed in their own chunks. Only `take_hosted` and `place_hosted` take memory.
ghost use Rattle.std.specs.Prelude.{◌≡◌, Err, IfOk, IfErr, OnErr, []};
ghost use Rattle.ms_arena.specs.Arena.{account_of, PlaceRefused};
ghost use Rattle.ms_shared.specs.LockCalls.{OpenedBothHeld, ClosedBothHeld};
ghost use Rattle.ms_member.specs.Arenas.{ServesArenas};
ghost use Rattle.ms_member.specs.Hosted.{shown, new_hosted, OpensArenas, TakesHosted, PlacesHosted, TakesBare, PlacesBare};
ghost use Rattle.ms_member.specs.Hosted.{bare_in, GivesBare, words_used_by, TellsSums};
ghost use Rattle.ms_member.specs.declared.member.hosted.Hosted.TheVariants.{Bare};
ghost use Rattle.ms_member.specs.Bare.{MayHaveBlock};

use super::arenas::{Arenas, place, take_over, totals_of};
use super::bare::{BareArena, BareArenas};
use ms_arena::Arena;
use ms_base::{Block, Kind, Refusal, Space};
use ms_loaders::LoaderTotals;
use ms_pool::{Account, AccountSource};
use ms_shared::{HeldSeat, SharedPool};
use std::alloc::Global;

/// The arenas of a loader without names.
#[derive(Drop)]
pub enum Hosted {
    /// They know their live blocks.
    Known(Arenas),
    /// They leave them to the program.
    Bare(BareArenas),
}

/// Makes arenas over two accounts that hold no chunk.
fn hosted_over(
    alloc: Global,
    account: Account,
    class_account: Account,
    kind: Kind,
    is_bare: bool,
) -> Hosted
    requires empty { account.chunks ≡ [] }
    requires class_empty { class_account.chunks ≡ [] }
    ensures { result ≡ new_hosted is_bare (account, class_account) kind }
{
    if is_bare {
        Hosted::Bare(BareArenas {
            arena: BareArena::new(alloc, account, kind),
            class_arena: BareArena::new(alloc, class_account, kind),
        })
    } else {
        Hosted::Known(Arenas {
            arena: Arena::new(alloc, account, kind),
            class_arena: Arena::new(alloc, class_account, kind),
        })
    }
}

/// Opens both accounts over the pool that a seat has.
pub fn open_hosted(
    shared: &SharedPool,
    alloc: Global,
    held: HeldSeat,
    kind: Kind,
    is_bare: bool,
) -> (HeldSeat, Result<Hosted, Refusal>)
    requires { held.seat.id ≡ shared.now.id }
    ensures own { result.0.seat.id ≡ held.seat.id }
    ensures opened { IfOk result.1 (OpensArenas is_bare kind held result.0) }
    ensures serves { IfOk result.1 (λ hosted. ServesArenas result.0.seat.knows (shown hosted)) }
    ensures refused { IfErr result.1 (λ refusal. OpenedBothHeld held (Err refusal) result.0) }
{
    let mut pool = shared.resume(held);
    match pool.open_both() {
        Ok((account, class_account)) => (
            pool.pause(),
            Ok(hosted_over(alloc, account, class_account, kind, is_bare)),
        ),
        Err(refusal) => (pool.pause(), Err(refusal)),
    }
}

/// Gives both accounts of arenas back, and drops all else.
fn into_accounts(hosted: Hosted) -> (Account, Account)
    ensures account { result.0 ≡ account_of (shown hosted).arena }
    ensures class_account { result.1 ≡ account_of (shown hosted).class_arena }
{
    match hosted {
        Hosted::Known(arenas) => {
            let Arenas { arena, class_arena } = arenas;
            (arena.into_account(), class_arena.into_account())
        }
        Hosted::Bare(arenas) => {
            let BareArenas { arena, class_arena } = arenas;
            (arena.into_account(), class_arena.into_account())
        }
    }
}

/// Closes both accounts over the pool that a seat has.
pub fn close_hosted(shared: &SharedPool, held: HeldSeat, hosted: Hosted) -> HeldSeat
    requires own { held.seat.id ≡ shared.now.id }
    requires serves { ServesArenas held.seat.knows (shown hosted) }
    ensures own { result.seat.id ≡ held.seat.id }
    ensures closed { ClosedBothHeld held (account_of (shown hosted).arena)
        (account_of (shown hosted).class_arena) result }
{
    let (account, class_account) = into_accounts(hosted);
    let mut pool = shared.resume(held);
    pool.close_both(account, class_account);
    pool.pause()
}

/// Allocates a block in a space over the pool that a seat has.
pub fn take_hosted(
    shared: &SharedPool,
    held: HeldSeat,
    hosted: &mut Hosted,
    space: Space,
    words: u64,
) -> (HeldSeat, Result<Block, Refusal>)
    requires own { held.seat.id ≡ shared.now.id }
    requires serves { ServesArenas held.seat.knows (shown hosted.old) }
    ensures own { result.0.seat.id ≡ held.seat.id }
    ensures serves { ServesArenas result.0.seat.knows (shown hosted.new) }
    ensures takes { TakesHosted space words held hosted.old result.1 hosted.new result.0 }
    ensures unchanged { OnErr result.1 (hosted.new ≡ hosted.old) }
{
    match hosted {
        Hosted::Known(arenas) => take_over(shared, held, arenas, space, words),
        Hosted::Bare(arenas) => take_bare(shared, held, arenas, space, words),
    }
}

/// Allocates a block of bare arenas in a space over the pool that a seat has.
fn take_bare(
    shared: &SharedPool,
    held: HeldSeat,
    arenas: &mut BareArenas,
    space: Space,
    words: u64,
) -> (HeldSeat, Result<Block, Refusal>)
    requires own { held.seat.id ≡ shared.now.id }
    requires serves { ServesArenas held.seat.knows (shown (Bare arenas.old)) }
    ensures own { result.0.seat.id ≡ held.seat.id }
    ensures serves { ServesArenas result.0.seat.knows (shown (Bare arenas.new)) }
    ensures takes { TakesBare space words held arenas.old result.1 arenas.new result.0 }
    ensures unchanged { OnErr result.1 (arenas.new ≡ arenas.old) }
{
    match space {
        Space::NonClass => arenas.arena.ask_pool(shared, held, words),
        Space::Class => arenas.class_arena.ask_pool(shared, held, words),
    }
}

/// Places a block in a space where the arena needs no further chunk.
pub fn place_hosted(hosted: &mut Hosted, space: Space, words: u64) -> Result<Option<Block>, Refusal>
    ensures placed { IfOk result (λ found. PlacesHosted space words hosted.old found hosted.new) }
    ensures refused { IfErr result (λ refusal. PlaceRefused words refusal) }
    ensures unchanged { OnErr result (hosted.new ≡ hosted.old) }
{
    match hosted {
        Hosted::Known(arenas) => place(arenas, space, words),
        Hosted::Bare(arenas) => place_bare(arenas, space, words),
    }
}

/// Places a block of bare arenas in a space where the arena needs no further chunk.
fn place_bare(arenas: &mut BareArenas, space: Space, words: u64) -> Result<Option<Block>, Refusal>
    ensures placed { IfOk result (λ found. PlacesBare space words arenas.old found arenas.new) }
    ensures refused { IfErr result (λ refusal. PlaceRefused words refusal) }
    ensures unchanged { OnErr result (arenas.new ≡ arenas.old) }
{
    match space {
        Space::NonClass => arenas.arena.place(words),
        Space::Class => arenas.class_arena.place(words),
    }
}

/// Frees a block of bare arenas that may be one of a space's live ones.
pub fn give_bare(arenas: &mut BareArenas, space: Space, block: Block)
    requires { MayHaveBlock (bare_in space arenas.old) block }
    ensures { GivesBare space arenas.old block arenas.new }
{
    match space {
        Space::NonClass => arenas.arena.give(block),
        Space::Class => arenas.class_arena.give(block),
    }
}

/// Returns the words in use in both spaces.
pub fn words_used(hosted: &Hosted) -> u64
    ensures { result ≡ words_used_by hosted.now }
{
    match hosted {
        Hosted::Known(arenas) => arenas.arena.used() + arenas.class_arena.used(),
        Hosted::Bare(arenas) => arenas.arena.used() + arenas.class_arena.used(),
    }
}

/// Returns the kind of the loader and the sums over both arenas, where they know their blocks.
pub fn hosted_totals(hosted: &Hosted) -> Option<LoaderTotals>
    ensures { TellsSums hosted.now result }
{
    match hosted {
        Hosted::Known(arenas) => Some(totals_of(arenas)),
        Hosted::Bare(_) => None,
    }
}
