//! A block as the table of names keeps it: in half of the room of a `Block`.
//!
//! Words are numbered below 2^27, so 32 bits are enough for a start and for a number of words. A
//! table that grows copies all that it has, and a loader may have 100,000 names.
ghost use Rattle.std.specs.Prelude.{◌≡◌, ◌+◌, ◌<◌, ◌^◌, nat_eq};
ghost use Rattle.ms_loader.specs.Table.{no_block};

use ms_base::Block;
use std::marker::Model;

/// A block whose words end below 2^32.
#[derive(Clone, Copy, Drop)]
pub struct SmallBlock {
    // Where it starts, a word number.
    start: u32,
    // Its words.
    words: u32,
}

impl Model for SmallBlock {
    ghost use Rattle.ms_base.specs.declared.span.Block.{Block};

    ghost Value = { Block };

    ghost view = { λ b. record { start = b.start; words = b.words } };

    ghost inverse = { λ block. record { start = block.start; words = block.words } };
}

impl SmallBlock {
    /// Stands for none: a block of no words.
    pub fn none() -> SmallBlock
        ensures { result ≡ no_block }
    {
        SmallBlock { start: 0, words: 0 }
    }

    /// Returns whether it stands for none.
    pub fn is_none(self) -> bool
        ensures { result ≡ nat_eq self.words 0 }
    {
        self.words == 0
    }

    /// Keeps a block.
    pub fn new(block: Block) -> SmallBlock
        requires { block.start + block.words < 2 ^ 32 }
        ensures { result ≡ block }
    {
        SmallBlock {
            start: block.start as u32,
            words: block.words as u32,
        }
    }

    /// Returns the block.
    pub fn block(self) -> Block
        ensures { result ≡ self }
    {
        Block {
            start: u64::from(self.start),
            words: u64::from(self.words),
        }
    }
}
