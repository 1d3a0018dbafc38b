//! A loader without names comes, takes blocks, gives them back and goes.
//!
//! A block is known by its space, its start and its words. As of a loader with names, what needs the
//! pool needs that the seat has it, and returns none else.
ghost use Rattle.std.specs.Prelude.{◌≡◌, Some};
ghost use Rattle.ms_member.specs.Hosted.{IsOwed};
ghost use Rattle.ms_member.specs.Taking.{AnswersNewArenas, AnswersUnloadArenas, AnswersUnloadAny, AnswersTake, AnswersGive};
ghost use Rattle.ms_member.specs.Taking.{AnswersGiveBare, FreesAny, FreesOf};
ghost use Rattle.ms_member.specs.declared.member.hosted.Hosted.TheVariants.{Known};
ghost use Rattle.ms_member.specs.Taking.{ServesAny, TakesAny, TakesAlone, AnswersOwn, GivesAny, AnswersGiving, placed_told};

use super::Member;
use super::arenas::{Arenas, give};
use super::hosted::{Hosted, close_hosted, give_bare, open_hosted, place_hosted, take_hosted};
use super::loading::block_reply;
use ms_base::{Block, Kind, Refusal, Reply, Space};
use ms_shared::{HeldSeat, SharedPool};
use std::alloc::Global;

impl Member {
    /// Makes a loader without names, with nothing of its own but two owner numbers, which knows its
    /// live blocks or is bare. Refused with `LoaderExists` where there is one, with names or
    /// without, and with `IdsUsedUp`; returns none where the seat doesn't have the pool. Takes no
    /// memory.
    pub fn new_arenas(&mut self, alloc: Global, kind: Kind, is_bare: bool) -> Option<Reply>
        ensures { AnswersNewArenas is_bare kind self.old result self.new }
    {
        if self.loader.is_some() {
            return Some(Reply::Refused(Refusal::LoaderExists));
        }
        if self.arenas.is_some() {
            return Some(Reply::Refused(Refusal::LoaderExists));
        }
        let Some(held) = self.held.take() else {
            return None;
        };
        let (held, made) = open_hosted(&self.shared, alloc, held, kind, is_bare);
        self.held = Some(held);
        match made {
            Ok(arenas) => {
                self.arenas = Some(arenas);
                Some(Reply::Ok)
            }
            Err(refusal) => Some(Reply::Refused(refusal)),
        }
    }

    /// Unloads the loader, with names or without: all its blocks and chunks go with it. Refused with
    /// `NoLoader` where there is none; returns none where the seat doesn't have the pool. Takes no
    /// memory.
    pub fn unload(&mut self) -> Option<Reply>
        ensures { AnswersUnloadAny self.old result self.new }
    {
        if self.arenas.is_some() {
            return self.unload_arenas();
        }
        self.unload_named()
    }

    /// Unloads the loader without names.
    fn unload_arenas(&mut self) -> Option<Reply>
        ensures { AnswersUnloadArenas self.old result self.new }
    {
        if self.arenas.is_none() {
            return Some(Reply::Refused(Refusal::NoLoader));
        }
        let Some(held) = self.held.take() else {
            return None;
        };
        let Some(arenas) = self.arenas.take() else {
            unreachable!()
        };
        self.held = Some(close_hosted(&self.shared, held, arenas));
        Some(Reply::Ok)
    }

    /// Allocates a block of so many words in a space: over the pool where the seat has it, else in
    /// the loader's own chunks; returns none where that takes the pool. Refused with `NoLoader` where
    /// there is no loader without names, and as an arena refuses. Takes memory.
    pub fn take(&mut self, space: Space, words: u64) -> Option<Reply>
        ensures { AnswersTake space words self.old result self.new }
    {
        let Some(held) = self.held.take() else {
            return place_alone(&mut self.arenas, space, words);
        };
        let (held, reply) = take_any(&self.shared, held, &mut self.arenas, space, words);
        self.held = Some(held);
        Some(reply)
    }

    /// Frees a block of a space, with or without the pool. Refused with `NoLoader` where there is no
    /// loader without names that knows its blocks, and with `NotLive` exactly where the loader has no
    /// live block there with so many words. Takes no memory.
    pub fn give(&mut self, space: Space, block: Block) -> Option<Reply>
        ensures { AnswersGive space block self.old result self.new }
    {
        Some(give_any(&mut self.arenas, space, block))
    }

    /// Frees a block of a space of a bare loader, of which it may be one of the live ones. Refused
    /// with `NoLoader` where there is no bare loader. Takes no memory.
    pub fn give_bare(&mut self, space: Space, block: Block) -> Option<Reply>
        requires { IsOwed space block self.old.arenas }
        ensures { AnswersGiveBare space block self.old result self.new }
    {
        Some(free_any(&mut self.arenas, space, block))
    }
}

/// Allocates a block for arenas, where there are any, over the pool that a seat has.
fn take_any(
    shared: &SharedPool,
    held: HeldSeat,
    arenas: &mut Option<Hosted>,
    space: Space,
    words: u64,
) -> (HeldSeat, Reply)
    requires own { held.seat.id ≡ shared.now.id }
    requires serves { ServesAny held.seat.knows arenas.old }
    ensures own { result.0.seat.id ≡ held.seat.id }
    ensures serves { ServesAny result.0.seat.knows arenas.new }
    ensures takes { TakesAny space words held arenas.old result.1 arenas.new result.0 }
{
    match arenas {
        None => (held, Reply::Refused(Refusal::NoLoader)),
        Some(arenas) => {
            let (held, answer) = take_hosted(shared, held, arenas, space, words);
            (held, block_reply(answer))
        }
    }
}

/// Allocates a block for arenas, where there are any, without the pool.
fn place_alone(arenas: &mut Option<Hosted>, space: Space, words: u64) -> Option<Reply>
    ensures { TakesAlone space words arenas.old result arenas.new }
{
    match arenas {
        None => Some(Reply::Refused(Refusal::NoLoader)),
        Some(arenas) => place_own(arenas, space, words),
    }
}

/// Allocates a block where its arena has a place; returns none where it has none.
fn place_own(arenas: &mut Hosted, space: Space, words: u64) -> Option<Reply>
    ensures { AnswersOwn space words arenas.old result arenas.new }
{
    placed_reply(place_hosted(arenas, space, words))
}

/// Returns what an allocation without the pool came to: none where there was no place.
fn placed_reply(answer: Result<Option<Block>, Refusal>) -> Option<Reply>
    ensures { result ≡ placed_told answer }
{
    match answer {
        Ok(Some(made)) => Some(Reply::At(made.start)),
        Ok(None) => None,
        Err(refusal) => Some(Reply::Refused(refusal)),
    }
}

/// Frees a block of arenas, where there are any.
fn give_any(arenas: &mut Option<Hosted>, space: Space, block: Block) -> Reply
    ensures { GivesAny space block arenas.old result arenas.new }
{
    match arenas {
        None => Reply::Refused(Refusal::NoLoader),
        Some(arenas) => give_hosted(arenas, space, block),
    }
}

/// Frees a block of arenas that know it.
fn give_hosted(arenas: &mut Hosted, space: Space, block: Block) -> Reply
    ensures { AnswersGiving space block arenas.old result arenas.new }
{
    match arenas {
        Hosted::Known(arenas) => give_own(arenas, space, block),
        Hosted::Bare(_) => Reply::Refused(Refusal::NoLoader),
    }
}

/// Frees a block of bare arenas, where there are any.
fn free_any(arenas: &mut Option<Hosted>, space: Space, block: Block) -> Reply
    requires { IsOwed space block arenas.old }
    ensures { FreesAny space block arenas.old result arenas.new }
{
    match arenas {
        None => Reply::Refused(Refusal::NoLoader),
        Some(arenas) => free_hosted(arenas, space, block),
    }
}

/// Frees a block of arenas that leave it to the program.
fn free_hosted(arenas: &mut Hosted, space: Space, block: Block) -> Reply
    requires { IsOwed space block (Some arenas.old) }
    ensures { FreesOf space block arenas.old result arenas.new }
{
    match arenas {
        Hosted::Known(_) => Reply::Refused(Refusal::NoLoader),
        Hosted::Bare(arenas) => {
            give_bare(arenas, space, block);
            Reply::Ok
        }
    }
}

/// Frees a block where it is live.
fn give_own(arenas: &mut Arenas, space: Space, block: Block) -> Reply
    ensures { AnswersGiving space block (Known arenas.old) result (Known arenas.new) }
{
    match give(arenas, space, block) {
        Ok(()) => Reply::Ok,
        Err(refusal) => Reply::Refused(refusal),
    }
}
