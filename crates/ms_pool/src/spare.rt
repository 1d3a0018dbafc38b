//! The list of a closed account, whose memory serves the next one.
//!
//! Where loaders come and go, each account would ask for the memory of its list of chunks anew.
//! Nothing outside rests on what is here: a list that is given is empty. Nothing here takes memory.
ghost use Rattle.std.specs.Prelude.{◌≡◌, []};

use crate::account::Account;
use ms_base::Chunk;
use std::alloc::Global;
use std::marker::Model;
use std::mem;

/// For how many chunks a list that is kept has memory at most.
const MOST: usize = 64;

/// A list that is spare, or one without memory.
#[derive(Drop)]
pub(crate) struct Spare {
    chunks: Vec<Chunk>,
}

impl Model for Spare {
    ghost Value = { Unit {0} };

    ghost view = { λ spare. tt };
}

impl Spare {
    /// Starts with a list without memory.
    pub(crate) fn new(alloc: Global) -> Spare {
        Spare {
            chunks: Vec::new(alloc),
        }
    }

    /// Gives an empty list, with the memory that is here.
    pub(crate) fn take(&mut self, alloc: Global) -> Vec<Chunk>
        ensures { result.items ≡ [] }
    {
        let mut chunks = mem::replace(&mut self.chunks, Vec::new(alloc));
        chunks.clear();
        chunks
    }

    /// Keeps the memory of an account's list, where it isn't much and there is none here.
    pub(crate) fn keep(&mut self, account: Account) {
        let chunks = account.into_chunks();
        if self.chunks.capacity() == 0 && chunks.capacity() <= MOST {
            self.chunks = chunks;
        }
    }
}
