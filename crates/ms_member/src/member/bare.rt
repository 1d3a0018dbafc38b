//! The arena of a loader that leaves it to its program which blocks are live.
//!
//!     take(space, words) ──> start, words ──> give_bare(space, start, words)
//!
//! Apart because it has no list of live blocks, which would cost more than all else that an
//! allocation does: it is a raw arena, of which the count of live blocks is shown and the words are
//! not. So whoever gives a block back owes that it is live; as of HotSpot's arenas, nothing checks
//! it. Only `place` and `ask_pool` take memory.
ghost use Rattle.std.specs.Prelude.{◌≡◌, ◌≢◌, ◌<◌, ◌^◌, ℕ, List, [], IfOk, IfErr, OnErr, IfSome, IfNone};
ghost use Rattle.ms_base.specs.Totals.{used_of};
ghost use Rattle.ms_pool.specs.Account.{AccountState};
ghost use Rattle.ms_arena.specs.Arena.{Places, PlaceRefused};
ghost use Rattle.ms_arena.specs.Raw.{live_with};
ghost use Rattle.ms_shared.specs.SeatView.{ServesBy, opened_by};
ghost use Rattle.ms_member.specs.Bare.{arena_with, bare_account, new_bare, MayHaveBlock, AsksBare, GainsLive, FreesLive};

use ms_arena::RawArena;
use ms_base::{Block, Kind, Refusal};
use ms_pool::Account;
use ms_shared::{HeldSeat, SharedPool};
use std::alloc::Global;
use std::marker::Model;

/// The arena of one space.
#[derive(Drop)]
pub struct BareArena {
    raw: RawArena,
}

impl Model for BareArena {
    ghost use Rattle.ms_member.specs.Bare.{BareView, bare_of};

    ghost Value = { BareView };

    ghost view = { λ arena. bare_of arena.raw };
}

/// The arenas of a loader.
#[derive(Drop)]
pub struct BareArenas {
    /// The one outside the class space.
    pub arena: BareArena,
    /// The class space's.
    pub class_arena: BareArena,
}

impl BareArena {
    /// Makes an arena over an account that holds no chunk. Takes no memory.
    pub fn new(alloc: Global, account: Account, kind: Kind) -> BareArena
        requires { account.chunks ≡ [] }
        ensures { result ≡ new_bare account kind }
    {
        BareArena {
            raw: RawArena::new(alloc, account, kind),
        }
    }

    /// Places a block where the arena needs no further chunk, as `RawArena::place` does.
    #[inline(always)]
    pub fn place(&mut self, words: u64) -> Result<Option<Block>, Refusal>
        ensures placed { (live : List (ℕ × List ℕ)) → IfOk result (λ found. Places
            (arena_with self.old live) words found (arena_with self.new (live_with live found))) }
        ensures gains { IfOk result (λ found. IfSome found (λ block. GainsLive self.old block self.new)) }
        ensures none { IfOk result (λ found. IfNone found (self.new ≡ self.old)) }
        ensures refused { IfErr result (λ refusal. PlaceRefused words refusal) }
        ensures unchanged { OnErr result (self.new ≡ self.old) }
    {
        self.raw.place(words)
    }

    /// Allocates a block over the pool that a seat has, as `RawArena::alloc` does.
    pub fn ask_pool(
        &mut self,
        shared: &SharedPool,
        held: HeldSeat,
        words: u64,
    ) -> (HeldSeat, Result<Block, Refusal>)
        requires own { held.seat.id ≡ shared.now.id }
        requires serves { ServesBy held.seat.knows (bare_account self.old) }
        ensures own { result.0.seat.id ≡ held.seat.id }
        ensures serves { ServesBy result.0.seat.knows (bare_account self.new) }
        ensures others { (other : AccountState) → other.owner ≢ self.old.owner
            → ServesBy held.seat.knows other → ServesBy result.0.seat.knows other }
        ensures counted { opened_by result.0.seat.knows ≡ opened_by held.seat.knows }
        ensures asks { AsksBare words held self.old result.1 self.new result.0 }
        ensures unchanged { OnErr result.1 (self.new ≡ self.old) }
    {
        let mut pool = shared.resume(held);
        let answer = self.raw.alloc(&mut pool, words);
        (pool.pause(), answer)
    }

    /// Frees a block that may be one of its live ones.
    pub fn give(&mut self, block: Block)
        requires { MayHaveBlock self.old block }
        ensures { FreesLive self.old block self.new }
    {
        self.raw.free(block);
    }

    /// Gives the account back, and drops all else.
    pub fn into_account(self) -> Account
        ensures { result ≡ bare_account self }
    {
        let BareArena { raw } = self;
        raw.into_account()
    }

    /// Returns how many words are in use.
    pub fn used(&self) -> u64
        ensures sum { result ≡ used_of self.now.books }
        ensures small { result < 2 ^ 52 }
    {
        self.raw.used()
    }
}
