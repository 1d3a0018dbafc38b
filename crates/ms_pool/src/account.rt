//! Accounts: the chunks that were lent to one owner in one space, in the order taken.
//!
//!     taken       first            second      third, the current one
//!                 [0, 512) front 512  [1024, ..)  ..
//!
//! Kept true: the chunks are parts of the account's space, no two share a word, and each front has
//! a word and fits. The pool keeps a record of its own of each owner, in order of address; that
//! both have the same chunks is what "the pool serves the account" means. Nothing here takes
//! memory.
ghost use Rattle.std.specs.Prelude.{◌≡◌, ◌<◌, [], length, slice_get, Some};
ghost use Rattle.ms_pool.specs.Account.{AreChunks};

use ms_base::{Chunk, Space};
use std::alloc::Global;
use std::marker::Model;

/// What was lent to one owner in one space. It can't be cloned; an account that is dropped without
/// `close` stays open, and its chunks stay lent. This project's choice; HotSpot's arenas keep such
/// a list themselves.
pub struct Account {
    /// The owner's number, 1 to 4294967295; 0 where the account is closed.
    pub(crate) owner: u32,
    /// Where the chunks lie.
    pub(crate) space: Space,
    /// The chunks in the order taken; starts are word numbers, fronts words.
    pub(crate) chunks: Vec<Chunk>,
}

impl Drop for Account {
    /// Lets its parts go. Written out, so that crates above drop it by a call and see no part.
    fn drop(self) {
        let Account {
            owner: _,
            space: _,
            chunks: _,
        } = self;
    }
}

impl Model for Account {
    ghost use Rattle.ms_pool.specs.Account.{AccountState, AreChunks};

    ghost Value = { AccountState };

    ghost view = { λ a. record { owner = a.owner; space = a.space; chunks = a.chunks.items } };

    ghost invariant = { λ a. AreChunks a.space a.chunks.items };
}

impl Account {
    /// Makes an account that is closed: of owner number 0, which no pool gives out, and with no
    /// chunk. It stands where an open one is to come. Takes no memory.
    pub fn closed(alloc: Global, space: Space) -> Account
        ensures { result ≡ record { owner = 0; space = space; chunks = [] } }
    {
        Account {
            owner: 0,
            space,
            chunks: Vec::new(alloc),
        }
    }

    /// Gives the list of the chunks out, and drops all else.
    pub(crate) fn into_chunks(self) -> Vec<Chunk> {
        let Account {
            owner: _,
            space: _,
            chunks,
        } = self;
        chunks
    }

    /// Returns how many chunks the account holds. A caller also learns here what is true of the
    /// chunks of every account. Takes no memory.
    pub fn held(&self) -> u32
        ensures count { result ≡ length self.now.chunks }
        ensures chunks { AreChunks self.now.space self.now.chunks }
    {
        self.chunks.len() as u32
    }

    /// Returns a chunk by its index in the order taken, from 0 on. Takes no memory.
    pub fn chunk(&self, index: u32) -> Chunk
        requires { index < length self.now.chunks }
        ensures { slice_get self.now.chunks index ≡ Some result }
    {
        self.chunks[index as usize]
    }

    /// Returns the owner's number, 1 to 4294967295, or 0 where the account is closed. Takes no
    /// memory.
    pub fn owner(&self) -> u32
        ensures { result ≡ self.now.owner }
    {
        self.owner
    }

    /// Returns the space that the chunks lie in. Takes no memory.
    pub fn space(&self) -> Space
        ensures { result ≡ self.now.space }
    {
        self.space
    }
}
