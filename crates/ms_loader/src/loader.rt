//! One class loader: an arena in each space, and the names of its blocks.
//!
//!     names     3 -> [10, 14)    7 -> [0, 10)    9 -> [67108864, ..)
//!                       |             |              |
//!     arenas    [ live | live | free ..  ]       [ live | ..      ]   the class space's
//!
//! The names are the only list of its live blocks; the arenas know none. Kept true: each arena
//! holds the named blocks that lie in its space; a block's space is decided by where it starts.
//! Stands on `ms_arena`. Only `allocate`, `alloc` and `calloc` take memory; they wait as their
//! source does.
ghost use Rattle.std.specs.Prelude.{◌≡◌, ◌+◌, ◌<◌, ◌^◌, IfOk, IfErr, OnOk, OnErr, []};
ghost use Rattle.ms_base.specs.declared.kind.Space.TheVariants.{NonClass, Class};
ghost use Rattle.ms_base.specs.Spaces.{is_in};
ghost use Rattle.ms_base.specs.Totals.{used_of};
ghost use Rattle.ms_pool.specs.Source.{LeavesRest};
ghost use Rattle.ms_loader.specs.Loader.{owner_in, account_in, new_loader, with_state, IsSoundView, AllocatesBlock, BlockRefused};
ghost use Rattle.ms_loader.specs.Loader.{HasWord, WritesWord, FreesBlock, LacksWord, LacksName};
ghost use Rattle.ms_loader.specs.Amounts.{amounts_by};
ghost use Rattle.ms_loader.specs.ArenaSums.{AreSumsIn};
ghost use Rattle.ms_loader.specs.GivenBack.{AreAccountsOf};

mod finding;
mod room;

use crate::amounts::Amounts;
use crate::naming::{Names, allocate_in};
use ms_arena::{ArenaTotals, RawArena};
use ms_base::{Block, Kind, NODE_WORDS, Refusal, SLOTS, Space};
use ms_pool::{Account, ChunkSource};
use std::alloc::Global;
use std::marker::Model;

/// One class loader. After HotSpot's ClassLoaderMetaspace, which has an arena in each space too;
/// the names are this project's choice.
pub struct Loader {
    // Its arena in the space that is not the class space.
    arena: RawArena,
    // Its arena in the class space.
    class_arena: RawArena,
    // Its live blocks by name, 0 to 2^32 - 1: each where it starts, and its words.
    names: Names,
}

impl Drop for Loader {
    /// Lets its parts go. Written out, so that crates above drop it by a call and see no part.
    fn drop(self) {
        let Loader {
            arena: _,
            class_arena: _,
            names: _,
        } = self;
    }
}

impl Model for Loader {
    ghost use Rattle.ms_loader.specs.Loader.{LoaderView};

    ghost Value = { LoaderView };

    ghost use Rattle.ms_loader.specs.LoaderInside.{view_of, IsLoader};

    ghost view = { view_of };

    ghost invariant = { IsLoader };
}

/// Returns whether a word, by its number, lies in the class space. Takes no memory. This project's
/// choice.
pub fn is_class(start: u64) -> bool
    ensures { result ≡ is_in Class start }
{
    start >= u64::from(SLOTS) * NODE_WORDS
}

impl Loader {
    /// Makes a loader over two accounts that hold no chunk, one of each space, the first not the
    /// class space's. Takes no memory yet.
    pub fn new(alloc: Global, account: Account, class_account: Account, kind: Kind) -> Loader
        requires empty { account.chunks ≡ [] }
        requires class_empty { class_account.chunks ≡ [] }
        requires space { account.space ≡ NonClass }
        requires class_space { class_account.space ≡ Class }
        ensures made { result ≡ new_loader account class_account kind }
        ensures sound { IsSoundView result }
    {
        Loader {
            arena: RawArena::new(alloc, account, kind),
            class_arena: RawArena::new(alloc, class_account, kind),
            names: Names::new(alloc),
        }
    }

    /// Starts anew over two accounts, as `new` makes a loader, and gives the former accounts back,
    /// the class space's last. The memory that it had serves it again. Takes none.
    pub fn renew(
        &mut self,
        account: Account,
        class_account: Account,
        kind: Kind,
    ) -> (Account, Account)
        requires empty { account.chunks ≡ [] }
        requires class_empty { class_account.chunks ≡ [] }
        requires space { account.space ≡ NonClass }
        requires class_space { class_account.space ≡ Class }
        ensures former { AreAccountsOf self.old result }
        ensures made { self.new ≡ new_loader account class_account kind }
        ensures sound { IsSoundView self.new }
    {
        forget(&mut self.names, &self.arena, &self.class_arena);
        let former = self.arena.renew(account, kind);
        (former, self.class_arena.renew(class_account, kind))
    }

    /// Allocates a block of so many words, at least two, in a space, under a new name; its words
    /// are 0. Refused with `BlockExists` where the name is used, then as the arena of the space
    /// refuses: with `ZeroWords`, `TooLarge`, `OutOfMemory`, `CommitLimit` or `ReserveLimit`. A
    /// refusal leaves the loader as it was. Takes memory.
    pub fn allocate<S: ChunkSource>(
        &mut self,
        source: &mut S,
        space: Space,
        name: u32,
        words: u64,
    ) -> Result<Block, Refusal>
        requires { S.serves source.old (account_in space self.old) }
        ensures served { S.serves source.new (account_in space self.new) }
        ensures rest { LeavesRest S.serves S.opened S.limits (owner_in space self.old) source.old source.new }
        ensures allocates { AllocatesBlock S.grew S.took (S.limits source.old).policy space self.old
            name words source.old result self.new source.new }
        ensures refused { IfErr result (BlockRefused self.old name words) }
        ensures unchanged { OnErr result (self.new ≡ self.old) }
        ensures sound { IsSoundView self.new }
    {
        match space {
            Space::NonClass => {
                allocate_in(&mut self.names, &mut self.arena, source, name, words)
            }
            Space::Class => {
                allocate_in(&mut self.names, &mut self.class_arena, source, name, words)
            }
        }
    }

    /// Allocates a block outside the class space, as `allocate` does. Takes memory.
    pub fn alloc<S: ChunkSource>(
        &mut self,
        source: &mut S,
        name: u32,
        words: u64,
    ) -> Result<Block, Refusal>
        requires { S.serves source.old (account_in NonClass self.old) }
        ensures served { S.serves source.new (account_in NonClass self.new) }
        ensures rest { LeavesRest S.serves S.opened S.limits self.old.owner source.old source.new }
        ensures allocates { AllocatesBlock S.grew S.took (S.limits source.old).policy NonClass self.old
            name words source.old result self.new source.new }
        ensures refused { IfErr result (BlockRefused self.old name words) }
        ensures unchanged { OnErr result (self.new ≡ self.old) }
        ensures sound { IsSoundView self.new }
    {
        self.allocate(source, Space::NonClass, name, words)
    }

    /// Allocates a block of the class space, as `allocate` does. Takes memory.
    pub fn calloc<S: ChunkSource>(
        &mut self,
        source: &mut S,
        name: u32,
        words: u64,
    ) -> Result<Block, Refusal>
        requires { S.serves source.old (account_in Class self.old) }
        ensures served { S.serves source.new (account_in Class self.new) }
        ensures rest { LeavesRest S.serves S.opened S.limits self.old.class_owner source.old source.new }
        ensures allocates { AllocatesBlock S.grew S.took (S.limits source.old).policy Class self.old
            name words source.old result self.new source.new }
        ensures refused { IfErr result (BlockRefused self.old name words) }
        ensures unchanged { OnErr result (self.new ≡ self.old) }
        ensures sound { IsSoundView self.new }
    {
        self.allocate(source, Space::Class, name, words)
    }

    /// Reads a word of a named block, by its index from 0 on. Refused with `NoBlock`, and with
    /// `OutOfRange` and the block's words where the index is past its end. Takes no memory.
    pub fn read(&self, name: u32, index: u64) -> Result<u64, Refusal>
        ensures value { IfOk result (HasWord self.now.state name index) }
        ensures refused { IfErr result (LacksWord self.now.state name index) }
    {
        let Some(block) = self.names.get(name) else {
            return Err(Refusal::NoBlock);
        };
        if index >= block.words {
            return Err(Refusal::OutOfRange { words: block.words });
        }
        let word = block.start + index;
        if is_class(block.start) {
            Ok(self.class_arena.read(word))
        } else {
            Ok(self.arena.read(word))
        }
    }

    /// Writes a word of a named block, by its index from 0 on; all else stays. Refused as `read`
    /// is, and then nothing changes. Takes no memory.
    pub fn write(&mut self, name: u32, index: u64, value: u64) -> Result<(), Refusal>
        ensures written { OnOk result (WritesWord self.old.state name index value self.new.state) }
        ensures refused { IfErr result (LacksWord self.old.state name index) }
        ensures unchanged { OnErr result (self.new ≡ self.old) }
        ensures owners { self.new ≡ with_state self.old self.new.state }
        ensures sound { IsSoundView self.new }
    {
        let Some(block) = self.names.get(name) else {
            return Err(Refusal::NoBlock);
        };
        if index >= block.words {
            return Err(Refusal::OutOfRange { words: block.words });
        }
        let word = block.start + index;
        if is_class(block.start) {
            self.class_arena.write(word, value);
            Ok(())
        } else {
            self.arena.write(word, value);
            Ok(())
        }
    }

    /// Frees a named block: its words become a free block of its arena, and its name may be used
    /// anew. Refused with `NoBlock`, and then nothing changes. Takes no memory.
    pub fn free(&mut self, name: u32) -> Result<(), Refusal>
        ensures freed { OnOk result (FreesBlock self.old.state name self.new.state) }
        ensures refused { IfErr result (LacksName self.old.state name) }
        ensures unchanged { OnErr result (self.new ≡ self.old) }
        ensures owners { self.new ≡ with_state self.old self.new.state }
        ensures sound { IsSoundView self.new }
    {
        let Some(block) = self.names.remove(name) else {
            return Err(Refusal::NoBlock);
        };
        if is_class(block.start) {
            self.class_arena.free(block);
            Ok(())
        } else {
            self.arena.free(block);
            Ok(())
        }
    }

    /// Gives the accounts back, the class space's last, and drops all else. Takes no memory.
    pub fn into_accounts(self) -> (Account, Account)
        ensures account { result.0 ≡ account_in NonClass self }
        ensures class_account { result.1 ≡ account_in Class self }
    {
        let Loader {
            arena,
            class_arena,
            names: _,
        } = self;
        (arena.into_account(), class_arena.into_account())
    }

    /// Lends the accounts, the class space's last. A caller also learns here what is true of every
    /// loader. Takes no memory.
    pub fn accounts(&self) -> (&Account, &Account)
        ensures account { result.0.now ≡ account_in NonClass self.now }
        ensures class_account { result.1.now ≡ account_in Class self.now }
        ensures sound { IsSoundView self.now }
    {
        (self.arena.account(), self.class_arena.account())
    }

    /// Returns what kind of loader it is. Takes no memory.
    pub fn kind(&self) -> Kind
        ensures { result ≡ self.now.state.kind }
    {
        self.arena.kind()
    }

    /// Returns the sums over each arena, the class space's last. Takes no memory, and visits each
    /// chunk once.
    #[inline(always)]
    pub fn totals(&self) -> (ArenaTotals, ArenaTotals)
        ensures sums { AreSumsIn NonClass result.0 self.now.state }
        ensures class_sums { AreSumsIn Class result.1 self.now.state }
        ensures small { result.0.capacity + result.1.capacity < 2 ^ 53 }
    {
        (self.arena.totals(), self.class_arena.totals())
    }

    /// Returns the words that are in use and those that are live, in each space. Takes no memory,
    /// and visits no chunk and no block.
    #[inline(always)]
    pub fn amounts(&self) -> Amounts
        ensures { result ≡ amounts_by self.now.state }
    {
        Amounts {
            used: self.arena.used(),
            live: self.arena.live(),
            class_used: self.class_arena.used(),
            class_live: self.class_arena.live(),
        }
    }

    /// Returns how many words are in use, in both spaces: the sum of the tops. Takes no memory, and
    /// visits no chunk.
    pub fn used(&self) -> u64
        ensures { result ≡ used_of self.now.state.arena + used_of self.now.state.class_arena }
    {
        self.arena.used() + self.class_arena.used()
    }
}

/// Takes all names out; where neither arena holds a chunk there are none.
fn forget(names: &mut Names, arena: &RawArena, class_arena: &RawArena)
    requires none { arena.now.books.chunks ≡ [] → class_arena.now.books.chunks ≡ [] → names.old.entries ≡ [] }
    ensures { names.new.entries ≡ [] }
{
    if arena.account().held() == 0 && class_arena.account().held() == 0 {
        return;
    }
    names.clear();
}
