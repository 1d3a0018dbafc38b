//! The books of one arena: its account, a top for each chunk, and its free blocks. `arena` has the
//! picture.
//!
//! Apart because a placement is decided here, by chunks, tops and free blocks alone: books know no
//! live block, and say of each placement that its words await a block, whatever blocks are live.
//! Kept true: the chunks are the account's, each has its top, free blocks lie apart below tops, no
//! top lies past its front, and the words in use are the sum of the tops.
//! Only `make_room` takes memory, for free blocks and for the next chunk's top; `grow` and `take`
//! wait as their source does. In HotSpot's metaspaceArena.cpp a chunk has its top itself.
ghost use Rattle.std.specs.Prelude.{◌≡◌, ℕ, ◌+◌, ◌*◌, ◌^◌, ◌<◌, ◌≤◌, Some, None, Ok, Err, IfOk, OnOk, OnErr, OnSome};
ghost use Rattle.std.specs.Prelude.{IfErr, IfSome, IfNone, [], length, sum, slice_index, ◌-◌, vec_capacity, vec_len};
ghost use Rattle.std.specs.Option.{option_map};
ghost use Rattle.ms_base.specs.Level.{size_of};
ghost use Rattle.ms_base.specs.Asks.{next_level};
ghost use Rattle.ms_base.specs.Names.{named, with_new};
ghost use Rattle.ms_base.specs.Good.{IsSound};
ghost use Rattle.ms_base.specs.State.{empty_arena};
ghost use Rattle.ms_base.specs.Place.{placed, current, current_top, with_rest, tops_with, best_fit};
ghost use Rattle.ms_base.specs.Totals.{used_of, kept_of};
ghost use Rattle.ms_blocks.specs.FreeBlocks.{MayBeKept, run_of};
ghost use Rattle.ms_pool.specs.Account.{AreChunks};
ghost use Rattle.ms_pool.specs.Source.{LeavesRest, IsTakeRefusal};
ghost use Rattle.ms_arena.specs.Books.{Awaits, AwaitsBlock, BooksView, CanTakeChunk, CanReach, HasGrown, HasTaken, Leaves, MayHold};
ghost use Rattle.ms_arena.specs.Books.{IsCurrent, PlacesFree, MayRetire, StayCounted, tops_retired, kept_retired};
ghost use Rattle.ms_arena.specs.Books.{account_in};

use crate::kept::Kept;
use ms_base::{Block, Chunk, Kind, Level, Refusal, growth};
use ms_pool::{Account, ChunkSource};
use std::alloc::{AllocError, Global};
use std::marker::Model;
use std::mem;

/// For how many tops room is made at once: few arenas hold more chunks.
const MORE_TOPS: usize = 8;

/// The account, tops and free blocks of one arena. Starts are word numbers.
#[derive(Drop)]
pub struct Books {
    /// The chunks, in the order taken.
    account: Account,
    /// The words in use of each chunk, at most those of its front.
    tops: Vec<u64>,
    /// The sum of the tops, in words; below 2^52.
    used: u64,
    /// The free blocks, of two words at least.
    kept: Kept,
}

impl Model for Books {
    ghost use Rattle.std.specs.Prelude.{◌-◌, vec_len, vec_capacity};
    ghost use Rattle.ms_arena.specs.Books.{BooksView, AreBooks};

    ghost Value = { BooksView };

    ghost view = { λ b. record {
      owner = b.account.owner;
      space = b.account.space;
      state = record { chunks = b.account.chunks; tops = b.tops.items; kept = b.kept.kept };
      room = b.kept.room;
      came = b.kept.came;
      spare_tops = vec_capacity b.tops - vec_len b.tops;
    } };

    ghost invariant = { λ b.
        AreBooks b.account.space
        (record { chunks = b.account.chunks; tops = b.tops.items; kept = b.kept.kept }) b.used };
}

impl Books {
    /// Makes the books of an account that holds no chunk. Takes no memory yet.
    pub(crate) fn new(alloc: Global, account: Account) -> Books
        requires { account.chunks ≡ [] }
        ensures owner { result.owner ≡ account.owner }
        ensures space { result.space ≡ account.space }
        ensures state { result.state ≡ empty_arena }
        ensures chunks { AreChunks result.space result.state.chunks }
    {
        Books {
            account,
            tops: Vec::new(alloc),
            used: 0,
            kept: Kept::new(alloc),
        }
    }

    /// Starts anew over an account that holds no chunk, in the memory that there is, and gives the
    /// former account back. Takes none.
    pub(crate) fn renew(&mut self, alloc: Global, account: Account) -> Account
        requires { account.chunks ≡ [] }
        ensures former { result ≡ account_in self.old }
        ensures owner { self.new.owner ≡ account.owner }
        ensures space { self.new.space ≡ account.space }
        ensures state { self.new.state ≡ empty_arena }
        ensures chunks { AreChunks self.new.space self.new.state.chunks }
    {
        empty_out(
            &self.account,
            &mut self.tops,
            &mut self.used,
            &mut self.kept,
            alloc,
        );
        mem::replace(&mut self.account, account)
    }

    /// Returns for how many tops there is memory, and for how many free blocks that come.
    pub(crate) fn sizes(&self) -> (usize, usize) {
        (self.tops.capacity(), self.kept.capacity())
    }

    /// Gives the account back, and drops all else.
    pub(crate) fn into_account(self) -> Account
        ensures { result ≡ account_in self }
    {
        self.account
    }

    /// Lends the account.
    pub(crate) fn account(&self) -> &Account
        ensures account { result.now ≡ account_in self.now }
        ensures chunks { AreChunks self.now.space self.now.state.chunks }
        ensures sound { IsSound self.now.state [] }
    {
        &self.account
    }

    /// Returns the words in use: the sum of the tops.
    pub(crate) fn used(&self) -> u64
        ensures sum { result ≡ used_of self.now.state }
        ensures small { result < 2 ^ 52 }
    {
        self.used
    }

    /// Returns the words of the free blocks.
    pub(crate) fn kept_words(&self) -> u64
        ensures { result ≡ kept_of self.now.state }
    {
        self.kept.total()
    }

    /// Puts the free blocks in order, and makes room for so many more, and for one top more; all
    /// else stays.
    #[inline(always)]
    pub(crate) fn make_room(&mut self, blocks: usize) -> Result<(), AllocError>
        ensures room { OnOk result (blocks ≤ self.new.room) }
        ensures few { OnOk result (self.new.room < 2 ^ 63) }
        ensures ordered { OnOk result (self.new.came ≡ 0) }
        ensures spare_tops { OnOk result (1 ≤ self.new.spare_tops) }
        ensures more { self.old.room ≤ self.new.room }
        ensures others { self.new ≡ record self.old {
          room = self.new.room;
          came = self.new.came;
          spare_tops = self.new.spare_tops;
        } }
    {
        self.kept.make_room(blocks)?;
        if self.tops.len() == self.tops.capacity() {
            return make_top_room(&mut self.tops);
        }
        Ok(())
    }

    /// Returns the level by which the arena of a loader of that kind grows now.
    pub(crate) fn next_level(&self, kind: Kind) -> Level
        ensures { result ≡ next_level kind self.now.space self.now.state }
    {
        growth(kind, self.account.space(), self.account.held())
    }

    /// Returns the current chunk, and its top.
    pub(crate) fn current(&self) -> Option<(Chunk, u64)>
        ensures chunk { option_map (λ at. at.0) result ≡ current self.now.state }
        ensures top { IfSome result (λ at. at.1 ≡ current_top self.now.state) }
        ensures bounds { IfSome result (λ at. IsCurrent at.0 at.1) }
    {
        let last = self.account.held().checked_sub(1)?;
        Some((self.account.chunk(last), self.tops[last as usize]))
    }

    /// Keeps the words of a freed block, of at least two words, in room that there is.
    pub(crate) fn keep(&mut self, block: Block)
        requires room { 0 < self.old.room }
        requires awaits { Awaits self.old.state [] (run_of block) }
        ensures kept { self.new.state
            ≡ record self.old.state { kept = with_new self.old.state.kept block.start block.words } }
        ensures room { self.new.room + 1 ≡ self.old.room }
        ensures others { self.new ≡ record self.old {
          state = self.new.state;
          room = self.new.room;
          came = self.new.came;
        } }
    {
        self.kept.add(block);
    }

    /// Places a block of n words where it needs no chunk: at the start of the free block that fits
    /// best, whose rest of at least two words stays; else at the top of the current chunk.
    #[inline(always)]
    pub(crate) fn place(&mut self, n: u64) -> Option<u64>
        requires { MayHold self.old n }
        ensures placed { placed self.old.state n
            ≡ option_map (λ start. (start, self.new.state)) result }
        ensures awaits { IfSome result
            (λ start. AwaitsBlock self.old.state self.new.state start n) }
        ensures chunks { OnSome result (AreChunks self.new.space self.new.state.chunks) }
        ensures room { self.old.room ≤ self.new.room + 1 }
        ensures others { self.new ≡ record self.old {
          state = self.new.state;
          room = self.new.room;
          came = self.new.came;
        } }
        ensures unchanged { IfNone result (self.new ≡ self.old) }
    {
        if let Some(start) = place_free(&mut self.kept, n) {
            return Some(start);
        }
        let (chunk, top) = self.current()?;
        if top + n > chunk.front {
            return None;
        }
        let last = self.account.held() as usize - 1;
        raise(&mut self.tops, &mut self.used, last, top + n);
        Some(chunk.start + top)
    }

    /// Asks the source to grow the current chunk, and raises the top to where it reaches then.
    pub(crate) fn grow<S: ChunkSource>(
        &mut self,
        source: &mut S,
        chunk: Chunk,
        total: u64,
        may_enlarge: bool,
    ) -> Result<(), Refusal>
        requires { CanReach S.serves source.old self.old chunk total }
        ensures served { S.serves source.new (account_in self.new) }
        ensures rest { LeavesRest S.serves S.opened S.limits self.old.owner source.old source.new }
        ensures grown { OnOk result (HasGrown S.grew (S.limits source.old).policy self.old chunk
            total may_enlarge source.old self.new source.new) }
        ensures awaits { (start n : ℕ) → OnOk result
            (start ≡ chunk.start + current_top self.old.state
            → total ≡ current_top self.old.state + n
            → AwaitsBlock self.old.state self.new.state start n) }
        ensures chunks { OnOk result (AreChunks self.new.space self.new.state.chunks) }
        ensures refused { IfErr result (λ refusal. S.grew source.old (account_in self.old)
            chunk.start total may_enlarge (Err refusal) source.new) }
        ensures unchanged { OnErr result (self.new ≡ self.old) }
    {
        let last = self.account.held() as usize - 1;
        source.grow(&mut self.account, chunk.start, total, may_enlarge)?;
        raise(&mut self.tops, &mut self.used, last, total);
        Ok(())
    }

    /// Asks the source for a chunk, retires the current one, and places a block of n words at the
    /// new one's start, in room that there is.
    pub(crate) fn take<S: ChunkSource>(
        &mut self,
        source: &mut S,
        wanted: Level,
        most: Level,
        n: u64,
    ) -> Result<u64, Refusal>
        requires { CanTakeChunk S.serves source.old self.old wanted most n }
        ensures served { S.serves source.new (account_in self.new) }
        ensures rest { LeavesRest S.serves S.opened S.limits self.old.owner source.old source.new }
        ensures taken { IfOk result (λ start. HasTaken S.took (S.limits source.old).policy self.old
            wanted most n source.old start self.new.state source.new) }
        ensures leaves { Leaves self.old n result self.new }
        ensures refused { IfErr result (λ refusal. S.took source.old (account_in self.old)
            wanted most n (Err refusal) source.new) }
        ensures refusal { IfErr result IsTakeRefusal }
    {
        let former = self.current();
        let span = source.take(&mut self.account, wanted, most, n)?;
        retire(&mut self.tops, &mut self.used, &mut self.kept, former);
        self.used += n;
        self.tops.push_reserved(n);
        Ok(span.start)
    }
}

/// Makes room for more tops, where there is none left.
#[inline(never)]
fn make_top_room(tops: &mut Vec<u64>) -> Result<(), AllocError>
    ensures spare_tops { OnOk result (1 ≤ vec_capacity tops.new - vec_len tops.new) }
    ensures tops { tops.new.items ≡ tops.old.items }
{
    tops.reserve(MORE_TOPS)
}

/// Takes all tops and free blocks out; where the account holds no chunk there are none.
fn empty_out(account: &Account, tops: &mut Vec<u64>, used: &mut u64, kept: &mut Kept, alloc: Global)
    requires none { account.now.chunks ≡ [] → (tops.old.items ≡ []) × (used.old ≡ 0) × (kept.old.kept ≡ []) }
    ensures tops { tops.new.items ≡ [] }
    ensures used { used.new ≡ 0 }
    ensures kept { kept.new.kept ≡ [] }
{
    if account.held() == 0 {
        return;
    }
    tops.clear();
    *used = 0;
    kept.clear(alloc);
}

/// Places a block of n words at the start of the free block that fits best, and keeps its rest.
#[inline(always)]
fn place_free(kept: &mut Kept, n: u64) -> Option<u64>
    requires some { 2 ≤ n }
    requires ordered { kept.old.came ≡ 0 }
    requires room { 0 < kept.old.room }
    requires small { (start words : ℕ) → named kept.old.kept start ≡ Some words → n ≤ words
        → start + words < 2 ^ 32 }
    ensures placed { IfSome result (λ start. PlacesFree kept.old.kept n start kept.new.kept) }
    ensures none { IfNone result (best_fit kept.old.kept n ≡ None) }
    ensures room { kept.old.room ≤ kept.new.room + 1 }
    ensures unchanged { IfNone result (kept.new ≡ kept.old) }
{
    let block = kept.remove(n)?;
    keep_rest(kept, block.start + n, block.words - n);
    Some(block.start)
}

/// Keeps a run of at least two words as a free block; a single word is waste.
fn keep_rest(kept: &mut Kept, start: u64, words: u64)
    requires room { 0 < kept.old.room }
    requires may { 2 ≤ words → MayBeKept kept.old.kept (start, words) }
    requires small { start + words < 2 ^ 32 }
    ensures kept { kept.new.kept ≡ with_rest kept.old.kept start words }
    ensures room { kept.old.room ≤ kept.new.room + 1 }
{
    if words >= 2 {
        kept.add(Block { start, words });
    }
}

/// Retires the chunk that was current, if there was one: its top rises to its front, and what that
/// adds becomes a free block.
fn retire(tops: &mut Vec<u64>, used: &mut u64, kept: &mut Kept, former: Option<(Chunk, u64)>)
    requires room { 0 < kept.old.room }
    requires summed { used.old ≡ sum tops.old.items }
    requires small { used.old < 2 ^ 52 }
    requires may { MayRetire tops.old.items kept.old.kept former }
    ensures tops { tops.new.items ≡ tops_retired tops.old.items former }
    ensures counted { StayCounted (2 ^ 19) tops.old used.old tops.new used.new }
    ensures kept { kept.new.kept ≡ kept_retired kept.old.kept former }
    ensures room { kept.old.room ≤ kept.new.room + 1 }
{
    let Some((chunk, top)) = former else {
        return;
    };
    let last = tops.len() - 1;
    raise(tops, used, last, chunk.front);
    keep_rest(kept, chunk.start + top, chunk.front - top);
}

/// Raises the top at an index, and the sum of the tops with it.
fn raise(tops: &mut Vec<u64>, used: &mut u64, index: usize, top: u64)
    requires within { index < length tops.old.items }
    requires higher { slice_index tops.old.items index ≤ top }
    requires summed { used.old ≡ sum tops.old.items }
    requires fits { used.old + top < 2 ^ 64 }
    ensures tops { tops.new.items ≡ tops_with tops.old.items index top }
    ensures counted { StayCounted top tops.old used.old tops.new used.new }
{
    *used += top - tops[index];
    tops[index] = top;
}
