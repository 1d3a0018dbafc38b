//! The arena and its calls, for whoever has blocks and no more of them: it knows which are live.
//!
//!     live      512 -> 8      0 -> 12      12 -> 2       where each starts, and its words
//!                  |             |            |
//!     raw       [ live 0..12 | live 12..14 | free .. | live 512..520 | .. ]
//!
//! Apart because a loader's names are its blocks already: only who has no other list of them needs
//! this one, a hash map. A block is found and added in about the same time, however many are live.
//! Kept true: the live blocks are those of the arena below, so they are apart and in use, and
//! starts rise in what is seen of them. Stands on `raw` for all else. Only `place` and `alloc` take
//! memory; room for a block is made before the arena below is asked. HotSpot's arenas know no live
//! blocks; that this one does is this project's choice.
ghost use Rattle.std.specs.Prelude.{◌≡◌, ◌↔◌, ◌<◌, ◌^◌, None, Some, Err, IfOk, OnOk, IfErr, OnErr, []};
ghost use Rattle.std.specs.Prelude.{IsTrue};
ghost use Rattle.std.specs.HashMap.{spare};
ghost use Rattle.ms_base.specs.Hashed.{by_name};
ghost use Rattle.ms_base.specs.Names.{named, with_new};
ghost use Rattle.ms_base.specs.Totals.{used_of};
ghost use Rattle.ms_pool.specs.Source.{LeavesRest};
ghost use Rattle.ms_arena.specs.Arena.{IsSoundArena, IsNotLive, Places, PlaceRefused, AllocRefused, ReadsWord, WritesWord};
ghost use Rattle.ms_arena.specs.Arena.{LacksWord, WordRefused, FreesBlock, account_of, new_arena};
ghost use Rattle.ms_arena.specs.Alloc.{Allocates};
ghost use Rattle.ms_arena.specs.ArenaSums.{AreSums};

use crate::raw::{RawArena, wanting_room};
use crate::totals::ArenaTotals;
use ms_base::{Block, Kind, Refusal};
use ms_pool::{Account, ChunkSource};
use std::alloc::Global;
use std::collections::HashMap;
use std::marker::Model;

/// For how many live blocks a small arena has memory at most.
const SMALL_BLOCKS: usize = 128;

/// The arena of one class loader in one space. After HotSpot's metaspaceArena.hpp.
pub struct Arena {
    /// Chunks, tops, free blocks and words.
    raw: RawArena,
    /// How many words each live block has, by its start.
    live: HashMap<u64, u64>,
}

impl Drop for Arena {
    /// Lets its parts go. Written out, so that crates above drop it by a call and see no part.
    fn drop(self) {
        let Arena { raw: _, live: _ } = self;
    }
}

impl Model for Arena {
    ghost use Rattle.ms_arena.specs.Arena.{ArenaView};
    ghost use Rattle.ms_arena.specs.Raw.{Holds, live_in, with_live};
    ghost use Rattle.ms_base.specs.Hashed.{by_name};

    ghost Value = { ArenaView };

    ghost view = { λ a. with_live a.raw (live_in a.raw.words (by_name a.live.entries)) };

    ghost invariant = { λ a. Holds a.raw (by_name a.live.entries) };
}

impl Arena {
    /// Makes an arena over an account that holds no chunk. Takes no memory yet.
    pub fn new(alloc: Global, account: Account, kind: Kind) -> Arena
        requires { account.chunks ≡ [] }
        ensures { result ≡ new_arena account kind }
    {
        Arena {
            raw: RawArena::new(alloc, account, kind),
            live: HashMap::new(alloc),
        }
    }

    /// Starts anew over an account that holds no chunk, as empty as `new` makes an arena, and gives
    /// the former account back. The memory that it had serves it again. Takes none.
    pub fn renew(&mut self, account: Account, kind: Kind) -> Account
        requires { account.chunks ≡ [] }
        ensures former { result ≡ account_of self.old }
        ensures anew { self.new ≡ new_arena account kind }
    {
        self.live.clear();
        self.raw.renew(account, kind)
    }

    /// Places a block of so many words, at least two, where it needs no chunk: in the free block
    /// that fits best, else at the top of the current chunk. Its words are 0. Answers `None` where
    /// a chunk, or a growth of one, is needed. Refused with `ZeroWords`, with `TooLarge` for more
    /// than 524288 words, and with `OutOfMemory`; whoever is refused finds the arena as it was.
    /// Takes memory.
    pub fn place(&mut self, words: u64) -> Result<Option<Block>, Refusal>
        ensures placed { IfOk result (λ found. Places self.old words found self.new) }
        ensures refused { IfErr result (λ refusal. PlaceRefused words refusal) }
        ensures unchanged { OnErr result (self.new ≡ self.old) }
    {
        made_room(&mut self.live, words)?;
        match self.raw.place(words) {
            Ok(Some(block)) => {
                put(&mut self.live, block.start, block.words);
                Ok(Some(block))
            }
            Ok(None) => Ok(None),
            Err(refusal) => Err(refusal),
        }
    }

    /// Allocates a block of so many words, at least two, whose words are 0: where it has a place
    /// without a chunk; else at the current chunk's top, once the source has grown that chunk; else
    /// at the start of a new chunk, and the former current chunk retires. Refused with `ZeroWords`,
    /// with `TooLarge`, with `OutOfMemory`, and as the source's `take` refuses, so with
    /// `CommitLimit` and `ReserveLimit`; a refusal leaves the arena as it was. Takes memory, all of
    /// its own before the source is asked.
    pub fn alloc<S: ChunkSource>(&mut self, source: &mut S, words: u64) -> Result<Block, Refusal>
        requires { S.serves source.old (account_of self.old) }
        ensures served { S.serves source.new (account_of self.new) }
        ensures rest { LeavesRest S.serves S.opened S.limits self.old.owner source.old source.new }
        ensures fresh { IfOk result (λ block. named self.old.live block.start ≡ None) }
        ensures allocates { Allocates S.grew S.took (S.limits source.old).policy self.old words
            source.old result self.new source.new }
        ensures refused { IfErr result (AllocRefused words) }
        ensures unchanged { OnErr result (self.new ≡ self.old) }
    {
        made_room(&mut self.live, words)?;
        match self.raw.alloc(source, words) {
            Ok(block) => {
                put(&mut self.live, block.start, block.words);
                Ok(block)
            }
            Err(refusal) => Err(refusal),
        }
    }

    /// Reads a word of a live block, by its index from 0 on. Refused with `NotLive` where the block
    /// is not live here, else with `OutOfRange` and the block's words where the index is past its
    /// end. Takes no memory.
    pub fn read(&self, block: Block, index: u64) -> Result<u64, Refusal>
        ensures value { IfOk result (λ value. ReadsWord self.now block index value) }
        ensures refused { IfErr result (λ refusal. WordRefused self.now block index refusal) }
    {
        check_word(&self.live, block, index)?;
        Ok(self.raw.read(block.start + index))
    }

    /// Writes a word of a live block, by its index from 0 on; all else stays. Refused as `read` is,
    /// and then nothing changes. Takes no memory.
    pub fn write(&mut self, block: Block, index: u64, value: u64) -> Result<(), Refusal>
        ensures written { OnOk result (WritesWord self.old block index value self.new) }
        ensures refused { IfErr result (λ refusal. WordRefused self.old block index refusal) }
        ensures unchanged { OnErr result (self.new ≡ self.old) }
    {
        check_word(&self.live, block, index)?;
        self.raw.write(block.start + index, value);
        Ok(())
    }

    /// Frees a live block: its words become a free block, which is never joined with another.
    /// Refused with `NotLive` exactly where the block is not live here. Takes no memory.
    pub fn free(&mut self, block: Block) -> Result<(), Refusal>
        ensures freed { OnOk result (FreesBlock self.old block self.new) }
        ensures not_live { (result ≡ Err Refusal.NotLive) ↔ IsNotLive self.old block }
        ensures refused { IfErr result (λ refusal. refusal ≡ Refusal.NotLive) }
        ensures unchanged { OnErr result (self.new ≡ self.old) }
    {
        if !is_live(&self.live, block) {
            return Err(Refusal::NotLive);
        }
        let _ = self.live.remove(&block.start);
        self.raw.free(block);
        Ok(())
    }

    /// Gives the account back, and drops all else. Takes no memory.
    pub fn into_account(self) -> Account
        ensures { result ≡ account_of self }
    {
        let Arena { raw, live: _ } = self;
        raw.into_account()
    }

    /// Lends the account. A caller also learns here what is true of every arena. Takes no memory.
    pub fn account(&self) -> &Account
        ensures account { result.now ≡ account_of self.now }
        ensures sound { IsSoundArena self.now }
    {
        self.raw.account()
    }

    /// Returns how many words are in use: the sum of the tops. Takes no memory, and visits no
    /// chunk.
    pub fn used(&self) -> u64
        ensures sum { result ≡ used_of self.now.books }
        ensures small { result < 2 ^ 52 }
    {
        self.raw.used()
    }

    /// Returns for what kind of loader the arena is. Takes no memory.
    pub fn kind(&self) -> Kind
        ensures { result ≡ self.now.kind }
    {
        self.raw.kind()
    }

    /// Returns whether the arena's memory is small, as `RawArena` says of its own. A hint, of which
    /// nothing is promised. Takes no memory.
    pub fn is_small(&self) -> bool {
        self.raw.is_small() && self.live.capacity() <= SMALL_BLOCKS
    }

    /// Returns the sums over the arena. Takes no memory, and visits each chunk once.
    pub fn totals(&self) -> ArenaTotals
        ensures sums { AreSums result self.now }
        ensures small { result.capacity < 2 ^ 52 }
    {
        self.raw.totals()
    }
}

/// Makes room for one live block more, which is to have so many words. Takes memory.
fn made_room(live: &mut HashMap<u64, u64>, words: u64) -> Result<(), Refusal>
    ensures room { OnOk result (0 < spare live.new) }
    ensures same { by_name live.new.entries ≡ by_name live.old.entries }
    ensures refused { IfErr result (λ refusal. PlaceRefused words refusal) }
{
    match live.reserve(1) {
        Ok(()) => Ok(()),
        Err(_) => Err(wanting_room(words)),
    }
}

/// Puts a block among the live ones, in room that there is.
fn put(live: &mut HashMap<u64, u64>, start: u64, words: u64)
    requires { 0 < spare live.old }
    ensures { by_name live.new.entries ≡ with_new (by_name live.old.entries) start words }
{
    match live.insert(start, words) {
        Ok(_) => {}
        Err(_) => unreachable!(),
    }
}

/// Returns whether a block is among the live ones.
fn is_live(live: &HashMap<u64, u64>, block: Block) -> bool
    ensures { IsTrue result ↔ (named (by_name live.now.entries) block.start ≡ Some block.words) }
{
    match live.get(&block.start) {
        Some(words) => *words == block.words,
        None => false,
    }
}

/// Refuses a word that is not there: where the block is not live, or the index is past its end.
fn check_word(live: &HashMap<u64, u64>, block: Block, index: u64) -> Result<(), Refusal>
    ensures live { OnOk result (named (by_name live.now.entries) block.start ≡ Some block.words) }
    ensures within { OnOk result (index < block.words) }
    ensures refused { IfErr result (λ refusal. LacksWord (by_name live.now.entries) block index refusal) }
{
    if !is_live(live, block) {
        return Err(Refusal::NotLive);
    }
    if index >= block.words {
        return Err(Refusal::OutOfRange { words: block.words });
    }
    Ok(())
}
