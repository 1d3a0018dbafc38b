//! A member's loader comes, allocates, frees and goes.
//!
//! What needs the pool needs that the seat has it, and returns none else. A block that the
//! loader places in its own chunks needs no pool.
ghost use Rattle.std.specs.Prelude.{◌≡◌, Option, IfSome, IfNone, IfOk, IfErr, OnErr};
ghost use Rattle.ms_base.specs.declared.kind.Space.TheVariants.{NonClass, Class};
ghost use Rattle.ms_loader.specs.Loader.{LoaderView, account_in, AllocatesBlock};
ghost use Rattle.ms_pool.specs.Account.{AccountState};
ghost use Rattle.ms_shared.specs.SeatView.{ServesBy, opened_by};
ghost use Rattle.ms_shared.specs.LockCalls.{TookHeld, GrewHeld, OpenedBothHeld, ClosedBothHeld, PurgedHeld};
ghost use Rattle.ms_member.specs.Member.{AnswersNew, AnswersUnload, AnswersAlloc, AnswersFree, ServesLoader};
ghost use Rattle.ms_member.specs.Member.{OpensLoader, AnswersAlone, AnswersWithout, AnswersOver, FreesIn};
ghost use Rattle.ms_member.specs.Member.{ServesIt, LacksPool, Purges, alone_told, block_told};

use super::Member;
use ms_base::{Block, Kind, Refusal, Reply, Space};
use ms_loader::Loader;
use ms_pool::{AccountSource, NoChunks};
use ms_shared::{HeldSeat, SharedPool};
use std::alloc::Global;

impl Member {
    /// Makes a loader with nothing of its own but two owner numbers. Refused with `LoaderExists`
    /// where there is one, with names or without, and with `IdsUsedUp`; returns none where the seat
    /// doesn't have the pool. Takes no memory.
    pub fn new_loader(&mut self, alloc: Global, kind: Kind) -> Option<Reply>
        ensures { AnswersNew kind self.old result self.new }
    {
        if self.loader.is_some() {
            return Some(Reply::Refused(Refusal::LoaderExists));
        }
        if self.arenas.is_some() {
            return Some(Reply::Refused(Refusal::LoaderExists));
        }
        let Some(held) = self.held.take() else {
            return None;
        };
        let (held, made) = open_over(&self.shared, alloc, held, kind);
        self.held = Some(held);
        match made {
            Ok(loader) => {
                self.loader = Some(loader);
                Some(Reply::Ok)
            }
            Err(refusal) => Some(Reply::Refused(refusal)),
        }
    }

    /// Unloads the loader with names: all its blocks and chunks go with it. Refused with `NoLoader`
    /// where there is none; returns none where the seat doesn't have the pool. Takes no memory.
    pub(super) fn unload_named(&mut self) -> Option<Reply>
        ensures { AnswersUnload self.old result self.new }
    {
        if self.loader.is_none() {
            return Some(Reply::Refused(Refusal::NoLoader));
        }
        let Some(held) = self.held.take() else {
            return None;
        };
        let Some(loader) = self.loader.take() else {
            unreachable!()
        };
        self.held = Some(close_over(&self.shared, held, loader));
        Some(Reply::Ok)
    }

    /// Gives the pool's nodes back in which no chunk is held, and returns how many; none where the
    /// seat doesn't have the pool. Takes no memory.
    pub fn purge(&mut self) -> Option<u32>
        ensures purged { IfSome result (λ gone. Purges self.old gone self.new) }
        ensures lacks { IfNone result (LacksPool self.old self.new) }
    {
        let Some(held) = self.held.take() else {
            return None;
        };
        let (held, gone) = purge_over(&self.shared, held);
        self.held = Some(held);
        Some(gone)
    }

    /// Allocates a block of so many words in a space, under a new name: over the pool where the seat
    /// has it, else where the loader places it in its own chunks; returns none where that takes the
    /// pool. Refused with `NoLoader`, and as a loader refuses. Takes memory.
    pub fn allocate(&mut self, space: Space, block: u32, words: u64) -> Option<Reply>
        ensures { AnswersAlloc space block words self.old result self.new }
    {
        let Some(held) = self.held.take() else {
            return allocate_alone(&mut self.loader, space, block, words);
        };
        let (held, reply) = allocate_over(
            &self.shared,
            held,
            &mut self.loader,
            space,
            block,
            words,
        );
        self.held = Some(held);
        Some(reply)
    }

    /// Frees a block, with or without the pool. Refused with `NoLoader`, and with `NoBlock` where the
    /// loader has no live block of the name. Takes no memory.
    pub fn free(&mut self, block: u32) -> Option<Reply>
        ensures { AnswersFree block self.old result self.new }
    {
        Some(free_in(&mut self.loader, block))
    }
}

/// Opens both accounts of a loader over the pool that a seat has.
fn open_over(
    shared: &SharedPool,
    alloc: Global,
    held: HeldSeat,
    kind: Kind,
) -> (HeldSeat, Result<Loader, Refusal>)
    requires { held.seat.id ≡ shared.now.id }
    ensures own { result.0.seat.id ≡ held.seat.id }
    ensures opened { IfOk result.1 (OpensLoader kind held result.0) }
    ensures serves { IfOk result.1 (ServesLoader result.0.seat.knows) }
    ensures refused { IfErr result.1 (λ refusal. OpenedBothHeld held (Err refusal) result.0) }
{
    let mut pool = shared.resume(held);
    match pool.open_both() {
        Ok((account, class_account)) => (
            pool.pause(),
            Ok(Loader::new(alloc, account, class_account, kind)),
        ),
        Err(refusal) => (pool.pause(), Err(refusal)),
    }
}

/// Closes both accounts of a loader over the pool that a seat has.
fn close_over(shared: &SharedPool, held: HeldSeat, loader: Loader) -> HeldSeat
    requires own { held.seat.id ≡ shared.now.id }
    requires serves { ServesLoader held.seat.knows loader }
    ensures own { result.seat.id ≡ held.seat.id }
    ensures closed { ClosedBothHeld held (account_in NonClass loader) (account_in Class loader) result }
{
    let (account, class_account) = loader.into_accounts();
    let mut pool = shared.resume(held);
    pool.close_both(account, class_account);
    pool.pause()
}

/// Gives the nodes of the pool that a seat has back in which no chunk is held.
fn purge_over(shared: &SharedPool, held: HeldSeat) -> (HeldSeat, u32)
    requires { held.seat.id ≡ shared.now.id }
    ensures own { result.0.seat.id ≡ held.seat.id }
    ensures serves { (loader : Option LoaderView) → ServesIt held.seat.knows loader
        → ServesIt result.0.seat.knows loader }
    ensures others { (account : AccountState) → ServesBy held.seat.knows account
        → ServesBy result.0.seat.knows account }
    ensures counted { opened_by result.0.seat.knows ≡ opened_by held.seat.knows }
    ensures purged { PurgedHeld held result.1 result.0 }
{
    let mut pool = shared.resume(held);
    let gone = pool.purge();
    (pool.pause(), gone)
}

/// Allocates a block for a loader, where there is one, over the pool that a seat has.
fn allocate_over(
    shared: &SharedPool,
    held: HeldSeat,
    loader: &mut Option<Loader>,
    space: Space,
    block: u32,
    words: u64,
) -> (HeldSeat, Reply)
    requires own { held.seat.id ≡ shared.now.id }
    requires serves { ServesIt held.seat.knows loader.old }
    ensures own { result.0.seat.id ≡ held.seat.id }
    ensures serves { ServesIt result.0.seat.knows loader.new }
    ensures answers { AnswersOver space block words held loader.old result.1 loader.new result.0 }
{
    match loader {
        None => (held, Reply::Refused(Refusal::NoLoader)),
        Some(loader) => {
            let (held, answer) = ask_pool(shared, held, loader, space, block, words);
            (held, block_reply(answer))
        }
    }
}

/// Allocates a block of a loader over the pool that a seat has.
fn ask_pool(
    shared: &SharedPool,
    held: HeldSeat,
    loader: &mut Loader,
    space: Space,
    block: u32,
    words: u64,
) -> (HeldSeat, Result<Block, Refusal>)
    requires own { held.seat.id ≡ shared.now.id }
    requires serves { ServesLoader held.seat.knows loader.old }
    ensures own { result.0.seat.id ≡ held.seat.id }
    ensures serves { ServesLoader result.0.seat.knows loader.new }
    ensures allocates { AllocatesBlock GrewHeld TookHeld held.seat.knows.limits.policy space loader.old
        block words held result.1 loader.new result.0 }
    ensures unchanged { OnErr result.1 (loader.new ≡ loader.old) }
{
    let mut pool = shared.resume(held);
    let answer = loader.allocate(&mut pool, space, block, words);
    (pool.pause(), answer)
}

/// Returns what an allocation over the pool came to.
pub(super) fn block_reply(answer: Result<Block, Refusal>) -> Reply
    ensures { result ≡ block_told answer }
{
    match answer {
        Ok(made) => Reply::At(made.start),
        Err(refusal) => Reply::Refused(refusal),
    }
}

/// Allocates a block for a loader, where there is one, without the pool.
fn allocate_alone(
    loader: &mut Option<Loader>,
    space: Space,
    block: u32,
    words: u64,
) -> Option<Reply>
    ensures { AnswersWithout space block words loader.old result loader.new }
{
    match loader {
        None => Some(Reply::Refused(Refusal::NoLoader)),
        Some(loader) => place(loader, space, block, words),
    }
}

/// Places a block where the loader has a place for it; returns none where it has none.
fn place(loader: &mut Loader, space: Space, block: u32, words: u64) -> Option<Reply>
    ensures { AnswersAlone space block words loader.old result loader.new }
{
    let mut source = NoChunks::one();
    alone_reply(loader.allocate(&mut source, space, block, words))
}

/// Returns what a loader answers without the pool: none where it asked for a chunk.
fn alone_reply(answer: Result<Block, Refusal>) -> Option<Reply>
    ensures { result ≡ alone_told answer }
{
    match answer {
        Ok(made) => Some(Reply::At(made.start)),
        Err(Refusal::ReserveLimit { nodes: _, limit: _ }) => None,
        Err(refusal) => Some(Reply::Refused(refusal)),
    }
}

/// Frees a block of a loader, where there is one.
fn free_in(loader: &mut Option<Loader>, block: u32) -> Reply
    ensures { FreesIn block loader.old result loader.new }
{
    match loader {
        None => Reply::Refused(Refusal::NoLoader),
        Some(loader) => match loader.free(block) {
            Ok(()) => Reply::Ok,
            Err(refusal) => Reply::Refused(refusal),
        },
    }
}
