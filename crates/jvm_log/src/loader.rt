//! A loader that lives, its blocks, and a thread's request to it: what each amounts to in a trace.
ghost use Rattle.std.specs.Prelude.{◌≡◌, ◌≢◌, ◌+◌, ◌<◌, ◌≤◌, ◌^◌, IfSome, IfNone, OnSome, Some};

use ms_base::{Kind, Space, Step};

/// A loader that lives.
#[derive(Clone, Copy, Debug, PartialEq, Eq)]
pub(crate) struct Loader {
    /// How many loaders were born before it.
    pub(crate) birth: u64,
    pub(crate) name: u16,
    /// Its kind, once that is known.
    pub(crate) kind: Option<Kind>,
    /// The number of its line among those held back.
    pub(crate) line: u64,
    /// The number of its next block.
    pub(crate) next: u32,
    pub(crate) arena: u64,
    pub(crate) class_arena: u64,
}

/// A block that lives.
#[derive(Clone, Copy, Debug, PartialEq, Eq)]
pub(crate) struct Block {
    /// The loader's address, and how many loaders were born before it.
    pub(crate) loader: u64,
    pub(crate) birth: u64,
    pub(crate) number: u32,
}

/// A request without an answer so far.
#[derive(Clone, Copy, Debug, PartialEq, Eq)]
pub(crate) struct Request {
    pub(crate) arena: u64,
    pub(crate) words: u64,
    /// The number of its line among those held back, once it has taken a step in the pool.
    pub(crate) line: Option<u64>,
}

impl Loader {
    ghost use Rattle.ms_base.specs.declared.step.Step.TheVariants.{Free};
    ghost use Rattle.jvm_log.specs.Steps.{step_for};

    /// Returns the step that answers a request for so many words, under the next number of a block.
    pub(crate) fn allocating(&self, space: Space, words: u64) -> Step
        ensures { result ≡ step_for space self.now.name self.now.next words }
    {
        let (loader, block) = (self.name, self.next);
        match space {
            Space::NonClass => Step::Alloc {
                loader,
                block,
                words,
            },
            Space::Class => Step::Calloc {
                loader,
                block,
                words,
            },
        }
    }

    /// Takes the next number of a block of this loader, which lies at that address, if one is left.
    pub(crate) fn next_block(&mut self, loader: u64) -> Option<Block>
        ensures same { self.new ≡ record self.old { next = self.new.next } }
        ensures block { IfSome result (λ block. block
            ≡ record { loader = loader; birth = self.old.birth; number = self.old.next }) }
        ensures next { OnSome result (self.new.next ≡ self.old.next + 1) }
        ensures some { OnSome result (self.old.next + 1 < 2 ^ 32) }
        ensures none { IfNone result (2 ^ 32 ≤ self.old.next + 1) }
        ensures unchanged { IfNone result (self.new ≡ self.old) }
    {
        let number = self.next;
        self.next = number.checked_add(1)?;
        Some(Block {
            loader,
            birth: self.birth,
            number,
        })
    }

    /// Returns the step that frees a block, if it is this loader's.
    pub(crate) fn freeing(&self, block: &Block) -> Option<Step>
        ensures own { IfSome result (λ step. block.now.birth ≡ self.now.birth) }
        ensures step { IfSome result (λ step. step ≡ Free self.now.name block.now.number) }
        ensures other { IfNone result (block.now.birth ≢ self.now.birth) }
    {
        if block.birth != self.birth {
            return None;
        }
        Some(Step::Free {
            loader: self.name,
            block: block.number,
        })
    }
}

impl Request {
    /// Returns the request with its line at that number, once it has none.
    pub(crate) fn placed_at(self, line: u64) -> Request
        ensures { result ≡ record self { line = Some line } }
    {
        Request {
            arena: self.arena,
            words: self.words,
            line: Some(line),
        }
    }
}
