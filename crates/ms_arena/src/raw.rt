//! An arena that is told which blocks are live.
//!
//!     chunks in the order taken     retired                 ..     current
//!                                   |##..##.####|  past    |      |###..##~~~~~|  past    |
//!                                           top = front                  top   front   size
//!
//! `#` are words of live blocks, `.` free blocks and waste below a top, `~` words that are
//! committed and not in use. A block goes into the free block that fits best, else to the current
//! chunk's top, else to where the source has more; free blocks are never joined. It knows how many
//! blocks are live, and how many words they have, but not which: whoever has the blocks says so
//! with each call, and each clause holds whatever blocks are live. So a block has one home, its
//! owner's. Kept true: there is room to free each live block. Room is made before a source is
//! asked: so what it lends is always placed, a refused `alloc` changes nothing, and `free` takes no
//! memory. Stands on `books` for chunks, tops and free blocks and on `words` for the words. Only
//! `place` and `alloc` take memory; `alloc` waits as its source does. After HotSpot's
//! metaspaceArena.cpp, which knows no live blocks either; best fit is this project's choice.
ghost use Rattle.std.specs.Prelude.{◌≡◌, ℕ, ◌+◌, ◌%◌, ◌<◌, ◌≤◌, ◌^◌, IfOk, OnOk, IfErr, OnErr, IfSome, IfNone, [], List, false};
ghost use Rattle.std.specs.Prelude.{Some, None, Err};
ghost use Rattle.ms_base.specs.Level.{size_of};
ghost use Rattle.ms_base.specs.Live.{block_words};
ghost use Rattle.ms_base.specs.Place.{placed, current};
ghost use Rattle.ms_base.specs.Asks.{asks_growth, next_level};
ghost use Rattle.ms_base.specs.Totals.{used_of, kept_of};
ghost use Rattle.ms_blocks.specs.FreeBlocks.{run_of};
ghost use Rattle.ms_pool.specs.Account.{AreChunks};
ghost use Rattle.ms_pool.specs.Source.{LeavesRest, IsTakeRefusal};
ghost use Rattle.ms_arena.specs.Arena.{IsAskable, IsAsked, Places, PlaceRefused, AllocRefused, block_at};
ghost use Rattle.ms_arena.specs.Alloc.{Allocates, FindsPlace, AsksChunk, TakesNew};
ghost use Rattle.ms_arena.specs.ArenaSums.{AreSumsOf};
ghost use Rattle.ms_arena.specs.Books.{AsksFor, Awaits, ForAllLive, HasLooked, HaveRoomBeside, IsSameBooks, MayLook};
ghost use Rattle.ms_arena.specs.Raw.{FreesRun, Gains, IsNewRaw, IsSameRaw, live_then, live_with, raw_account, with_live};
ghost use Rattle.ms_arena.specs.Words.{HasRoom, IsThere, Opens, StayWords, Writes, value_at};

mod room;

use crate::books::Books;
use crate::totals::{ArenaTotals, sums_of};
use crate::words::Words;
use ms_base::{Block, Chunk, Kind, Level, ROOT_WORDS, Refusal, level_for};
use ms_pool::{Account, ChunkSource};
use std::alloc::Global;
use std::marker::Model;

/// For how many free blocks room is made at least, where few blocks are to come: nothing touches it
/// until blocks come.
const FEW_BLOCKS: usize = 8;

/// For how many where many are.
const MANY_BLOCKS: usize = 64;

/// The arena of one class loader in one space, which trusts whoever has its blocks. After HotSpot's
/// metaspaceArena.hpp.
pub struct RawArena {
    /// Where the words of live blocks come from.
    alloc: Global,
    /// The kind of the arena's loader, by which it grows.
    kind: Kind,
    /// Chunks, tops and free blocks, with room for as many free blocks more as blocks are live.
    books: Books,
    /// The words by number.
    words: Words,
    /// How many blocks are live.
    count: usize,
    /// How many words these have together, modulo 2^64.
    total: u64,
}

impl Drop for RawArena {
    /// Lets its parts go. Written out, so that crates above drop it by a call and see no part.
    fn drop(self) {
        let RawArena {
            alloc: _,
            kind: _,
            books: _,
            words: _,
            count: _,
            total: _,
        } = self;
    }
}

impl Model for RawArena {
    ghost use Rattle.std.specs.Prelude.{◌≤◌};
    ghost use Rattle.ms_arena.specs.Raw.{RawArenaView, raw_over};

    ghost Value = { RawArenaView };

    ghost view = { λ a. raw_over a.books a.kind a.count a.total a.words };

    ghost invariant = { λ a. a.count ≤ a.books.room };
}

impl RawArena {
    /// Makes an arena over an account that holds no chunk. Takes no memory yet.
    pub fn new(alloc: Global, account: Account, kind: Kind) -> RawArena
        requires { account.chunks ≡ [] }
        ensures { IsNewRaw account kind result }
    {
        RawArena {
            alloc,
            kind,
            books: Books::new(alloc, account),
            words: Words::new(alloc),
            count: 0,
            total: 0,
        }
    }

    /// Starts anew over an account that holds no chunk, as empty as `new` makes an arena, and gives
    /// the former account back. The memory that it had serves it again. Takes none.
    pub fn renew(&mut self, account: Account, kind: Kind) -> Account
        requires { account.chunks ≡ [] }
        ensures former { result ≡ raw_account self.old }
        ensures anew { IsNewRaw account kind self.new }
    {
        // Where it holds no chunk no word was ever opened.
        if self.books.account().held() != 0 {
            self.words.clear();
        }
        self.count = 0;
        self.total = 0;
        self.kind = kind;
        self.books.renew(self.alloc, account)
    }

    /// Places a block of so many words, at least two, where it needs no chunk: in the free block
    /// that fits best, else at the top of the current chunk. Its words are 0. Answers `None` where
    /// a chunk, or a growth of one, is needed. Refused with `ZeroWords`, with `TooLarge` for more
    /// than 524288 words, and with `OutOfMemory`; whoever is refused finds the arena as it was.
    /// Takes memory.
    #[inline(always)]
    pub fn place(&mut self, words: u64) -> Result<Option<Block>, Refusal>
        ensures placed { (live : List (ℕ × List ℕ)) → IfOk result (λ found.
            Places (with_live self.old live) words found (with_live self.new (live_with live found))) }
        ensures gains { IfOk result (λ found. IfSome found (λ block. Gains self.old block self.new)) }
        ensures none { IfOk result (λ found. IfNone found (IsSameRaw self.old self.new)) }
        ensures refused { IfErr result (λ refusal. PlaceRefused words refusal) }
        ensures unchanged { OnErr result (IsSameRaw self.old self.new) }
    {
        let many = self.expects_many();
        let n = made_room(
            &mut self.books,
            &mut self.words,
            self.alloc,
            many,
            self.count,
            words,
        )?;
        match self.books.place(n) {
            None => Ok(None),
            Some(start) => {
                let block = entered(&mut self.words, &mut self.count, &mut self.total, start, n);
                Ok(Some(block))
            }
        }
    }

    /// Allocates a block of so many words, at least two, whose words are 0: where it has a place
    /// without a chunk; else at the current chunk's top, once the source has grown that chunk; else
    /// at the start of a new chunk, and the former current chunk retires. Refused with `ZeroWords`,
    /// with `TooLarge`, with `OutOfMemory`, and as the source's `take` refuses, so with
    /// `CommitLimit` and `ReserveLimit`; a refusal leaves the arena as it was. Takes memory, all of
    /// its own before the source is asked.
    #[inline(always)]
    pub fn alloc<S: ChunkSource>(&mut self, source: &mut S, words: u64) -> Result<Block, Refusal>
        requires { S.serves source.old (raw_account self.old) }
        ensures served { S.serves source.new (raw_account self.new) }
        ensures rest { LeavesRest S.serves S.opened S.limits self.old.owner source.old source.new }
        ensures allocates { (live : List (ℕ × List ℕ)) → Allocates S.grew S.took (S.limits source.old).policy
            (with_live self.old live) words source.old result (with_live self.new (live_then live result)) source.new }
        ensures gains { IfOk result (λ block. Gains self.old block self.new) }
        ensures refused { IfErr result (AllocRefused words) }
        ensures unchanged { OnErr result (IsSameRaw self.old self.new) }
    {
        let many = self.expects_many();
        let n = made_room(
            &mut self.books,
            &mut self.words,
            self.alloc,
            many,
            self.count,
            words,
        )?;
        let start = start_of(&mut self.books, source, self.kind, n)?;
        let block = entered(&mut self.words, &mut self.count, &mut self.total, start, n);
        Ok(block)
    }

    /// Reads a word, by its number in the space; one that no live block has is any number. Takes no
    /// memory.
    pub fn read(&self, word: u64) -> u64
        ensures { result ≡ value_at self.now.words word }
    {
        self.words.read(word)
    }

    /// Writes a word of a live block, by its number in the space; all else stays. Takes no memory.
    pub fn write(&mut self, word: u64, value: u64)
        requires { IsThere self.old.words word }
        ensures words { Writes self.old.words word value self.new.words }
        ensures others { self.new ≡ record self.old { words = self.new.words } }
    {
        self.words.write(word, value);
    }

    /// Frees a live block: its words become a free block, which is never joined with another. Takes
    /// no memory.
    pub fn free(&mut self, block: Block)
        requires some { 0 < self.old.count }
        requires awaits { Awaits self.old.books [] (run_of block) }
        ensures { FreesRun self.old block self.new }
    {
        self.books.keep(block);
        self.count -= 1;
        self.total = self.total.wrapping_sub(block.words);
    }

    /// Gives the account back, and drops all else. Takes no memory.
    pub fn into_account(self) -> Account
        ensures { result ≡ raw_account self }
    {
        let RawArena {
            alloc: _,
            kind: _,
            books,
            words: _,
            count: _,
            total: _,
        } = self;
        books.into_account()
    }

    /// Lends the account. Takes no memory.
    pub fn account(&self) -> &Account
        ensures account { result.now ≡ raw_account self.now }
        ensures chunks { AreChunks self.now.space self.now.books.chunks }
    {
        self.books.account()
    }

    /// Returns how many words are in use: the sum of the tops. Takes no memory, and visits no
    /// chunk.
    pub fn used(&self) -> u64
        ensures sum { result ≡ used_of self.now.books }
        ensures small { result < 2 ^ 52 }
    {
        self.books.used()
    }

    /// Returns how many words the live blocks have together, modulo 2^64, as they were counted.
    /// Takes no memory, and visits no chunk and no block.
    pub fn live(&self) -> u64
        ensures { result ≡ self.now.total }
    {
        self.total
    }

    /// Returns for what kind of loader the arena is. Takes no memory.
    pub fn kind(&self) -> Kind
        ensures { result ≡ self.now.kind }
    {
        self.kind
    }

    /// Returns the sums over the arena. Takes no memory, and visits each chunk once.
    pub fn totals(&self) -> ArenaTotals
        requires { self.now.total + kept_of self.now.books ≤ used_of self.now.books }
        ensures sums { AreSumsOf result self.now.books self.now.total }
        ensures small { result.capacity < 2 ^ 52 }
    {
        let (capacity, fronts) = sums_of(self.books.account());
        let used = self.books.used();
        let live = self.total;
        let free_blocks = self.books.kept_words();
        ArenaTotals {
            chunks: self.books.account().held(),
            capacity,
            fronts,
            used,
            live,
            free_blocks,
            waste: used - live - free_blocks,
        }
    }
}

/// Returns how many words the block of a request has.
fn asked(words: u64) -> Result<u64, Refusal>
    ensures asked { IfOk result (IsAsked words) }
    ensures refused { IfErr result (PlaceRefused words) }
{
    match words {
        0 => Err(Refusal::ZeroWords),
        1..=ROOT_WORDS => Ok(words.max(2)),
        _ => Err(Refusal::TooLarge),
    }
}

/// Returns why a block of so many words is refused where whoever keeps it finds no room for it: as
/// an arena refuses it that wants memory, so with `ZeroWords`, `TooLarge`, or `OutOfMemory`.
pub fn wanting_room(words: u64) -> Refusal
    ensures { PlaceRefused words result }
{
    match asked(words) {
        Ok(_) => Refusal::OutOfMemory,
        Err(refusal) => refusal,
    }
}

/// Returns how many words the block of a request has, and makes all room that it may need beside so
/// many live ones: for its words, a top, and for free blocks, as many as live blocks and two more:
/// its own when it is freed, and the rest of a chunk that retires. Makes more where many blocks are
/// to come.
#[inline(always)]
fn made_room(
    books: &mut Books,
    words: &mut Words,
    alloc: Global,
    many: bool,
    live: usize,
    request: u64,
) -> Result<u64, Refusal>
    ensures asked { IfOk result (IsAsked request) }
    ensures refused { IfErr result (PlaceRefused request) }
    ensures beside { OnOk result (HaveRoomBeside live books.new) }
    ensures run { IfOk result (λ n. HasRoom words.new n) }
    ensures books { IsSameBooks books.old books.new }
    ensures words { StayWords words.old words.new }
{
    let n = asked(request)?;
    let least = if many { MANY_BLOCKS } else { FEW_BLOCKS };
    // A count past all vectors' room is refused by the growth itself.
    let blocks = live.saturating_add(2).max(least);
    if books.make_room(blocks).is_err() || words.reserve(alloc, n, many).is_err() {
        return Err(Refusal::OutOfMemory);
    }
    Ok(n)
}

/// Makes a block of the words of a run, and counts it, in room that there is.
#[inline(always)]
fn entered(words: &mut Words, count: &mut usize, total: &mut u64, start: u64, n: u64) -> Block
    requires some { 0 < n }
    requires room { HasRoom words.old n }
    requires ends { start + n < 2 ^ 27 }
    requires fits { count.old + 1 < 2 ^ 64 }
    ensures opens { Opens words.old start (start + n) words.new }
    ensures count { count.new ≡ count.old + 1 }
    ensures total { total.new ≡ (total.old + n) % 2 ^ 64 }
    ensures block { result ≡ block_at start n }
{
    words.open(start, n);
    *count += 1;
    *total = total.wrapping_add(n);
    Block { start, words: n }
}

/// Finds where a block of n words starts: where it needs no chunk, else where the source has one.
#[inline(always)]
fn start_of<S: ChunkSource>(
    books: &mut Books,
    source: &mut S,
    kind: Kind,
    n: u64,
) -> Result<u64, Refusal>
    requires may { MayLook S.serves source.old books.old n }
    requires ordered { books.old.came ≡ 0 }
    ensures looked { HasLooked S.serves S.opened S.limits books.old n source.old result books.new source.new }
    ensures serves { ForAllLive books.old kind n result books.new.state (λ arena answer new.
        FindsPlace S.grew S.took (S.limits source.old).policy arena n (placed books.old.state n)
        source.old answer new source.new) }
    ensures refused { IfErr result IsTakeRefusal }
{
    match books.place(n) {
        Some(start) => Ok(start),
        None => start_in_chunk(books, source, kind, n),
    }
}

/// Finds where a block starts in a chunk that the source grows, or lends.
#[inline(never)]
fn start_in_chunk<S: ChunkSource>(
    books: &mut Books,
    source: &mut S,
    kind: Kind,
    n: u64,
) -> Result<u64, Refusal>
    requires { MayLook S.serves source.old books.old n }
    ensures looked { HasLooked S.serves S.opened S.limits books.old n source.old result books.new source.new }
    ensures asks { ForAllLive books.old kind n result books.new.state (λ arena answer new.
        AsksChunk S.grew S.took (S.limits source.old).policy arena n (current arena.books)
        (asks_growth kind arena.space arena.books (current arena.books) n) source.old answer new source.new) }
    ensures refused { IfErr result IsTakeRefusal }
{
    let next = books.next_level(kind);
    let Some((chunk, total, may_enlarge)) = growth_asked(books, next, n) else {
        return start_in_taken(books, source, next, n);
    };
    let start = chunk.start + (total - n);
    match books.grow(source, chunk, total, may_enlarge) {
        Ok(()) => Ok(start),
        Err(_) => start_in_taken(books, source, next, n),
    }
}

/// Finds where a block starts in a chunk that the source lends, where the arena grows by that level
/// next.
fn start_in_taken<S: ChunkSource>(
    books: &mut Books,
    source: &mut S,
    next: Level,
    n: u64,
) -> Result<u64, Refusal>
    requires { MayLook S.serves source.old books.old n }
    ensures looked { HasLooked S.serves S.opened S.limits books.old n source.old result books.new source.new }
    ensures takes { (kind : Kind) → next ≡ next_level kind books.old.space books.old.state
        → ForAllLive books.old kind n result books.new.state (λ arena answer new.
        TakesNew S.took (S.limits source.old).policy arena n source.old answer new source.new) }
    ensures refused { IfErr result IsTakeRefusal }
{
    let Some(most) = level_for(n) else {
        return Err(Refusal::TooLarge);
    };
    books.take(source, most.min(next), most, n)
}

/// Returns whether the source is to grow the current chunk, how far, and whether the chunk may
/// become its parent, where the arena grows by that level next.
#[inline(always)]
fn growth_asked(books: &Books, next: Level, n: u64) -> Option<(Chunk, u64, bool)>
    requires { n ≤ size_of 0 }
    ensures asks { IfSome result (λ asked. (kind : Kind)
        → next ≡ next_level kind books.now.space books.now.state
        → AsksFor books.now.state kind books.now.space n asked.0 asked.1 asked.2) }
    ensures none { IfNone result ((kind : Kind)
        → next ≡ next_level kind books.now.space books.now.state
        → asks_growth kind books.now.space books.now.state (current books.now.state) n ≡ false) }
{
    let (chunk, top) = books.current()?;
    let total = top + n;
    let may_enlarge = next <= chunk.level;
    let size = chunk.level.words();
    if total <= size || (total <= 2 * size && may_enlarge) {
        Some((chunk, total, may_enlarge))
    } else {
        None
    }
}
