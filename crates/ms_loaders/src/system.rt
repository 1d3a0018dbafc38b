//! The system: loaders by name over one pool, and the steps of the machine.
//!
//! Kept true: the pool serves the two accounts of each loader and lends to no other, so the machine
//! that a system stands for is good. A step is `serve` over the pool: it looks for its refusals in
//! the machine's order, and a refusal changes nothing, but that want of memory for a new loader
//! uses its owner numbers up. After it `committed` is called: it reads two counters, and returns
//! what is true of every pool. Takes memory for loaders, chunks, blocks and replies; nothing waits.
ghost use Rattle.std.specs.Prelude.{◌≡◌, ◌≢◌, ◌+◌, ◌↔◌, IfOk, OnOk, OnErr, IfErr, [], Ok, Err, length};
ghost use Rattle.ms_base.specs.declared.kind.Space.TheVariants.{Class};
ghost use Rattle.ms_base.specs.State.{empty_machine, limits_of};
ghost use Rattle.ms_base.specs.Totals.{committed_words, used_words, over_spaces, sums_of};
ghost use Rattle.ms_base.specs.Good.{IsGood};
ghost use Rattle.ms_base.specs.Transition.{Transition, LacksLoader};
ghost use Rattle.ms_base.specs.Run.{Run};
ghost use Rattle.ms_base.specs.Names.{named};
ghost use Rattle.ms_base.specs.Laws.Sum.{HoldsNothing};
ghost use Rattle.ms_loaders.specs.System.{HasNoValue};
ghost use Rattle.ms_answers.specs.Sums.{sums_in};
ghost use Rattle.ms_loader.specs.Amounts.{amounts_if};
ghost use Rattle.ms_loader_map.specs.Used.{used_if};

mod committing;
mod counts;
mod freeing;
mod granules;
mod holding;
mod mapping;
mod settling;
mod sums;

use crate::collecting::{gather, space_totals};
use crate::serving::serve;
pub use committing::{Allocation, GranuleRun};
use ms_answers::Totals;
use ms_base::{Kind, Policy, Refusal, Reply, Settings, Space, Step, granule};
use ms_loader::Amounts;
use ms_loader_map::Loaders;
use ms_pool::Pool;
use std::alloc::{AllocError, Global};
use std::marker::Model;
pub use sums::LoaderTotals;

/// The interval machine in one thread: class loaders by name, each with an arena in each space,
/// over one pool.
pub struct System {
    // Where loaders, blocks and replies come from.
    alloc: Global,
    // The pool's policy, by which granules have 8192 words, or 2048 under `aggressive`.
    policy: Policy,
    // What is reserved, committed and lent, of both spaces.
    pool: Pool,
    // The loaders by name, at most 65536, whose accounts are all that the pool has open.
    loaders: Loaders,
}

impl Drop for System {
    /// Lets its parts go. Written out, so that crates above drop it by a call and see no part.
    fn drop(self) {
        let System {
            alloc: _,
            policy: _,
            pool: _,
            loaders: _,
        } = self;
    }
}

impl Model for System {
    ghost use Rattle.ms_base.specs.State.{Machine};

    ghost Value = { Machine };

    ghost use Rattle.ms_loaders.specs.SystemInside.{view_of, IsSystem};

    ghost view = { view_of };

    ghost invariant = { IsSystem };
}

impl System {
    /// Makes a system with no loader, and no node but the class space's. Takes memory for the pool,
    /// and fails only where that is refused. This project's choice.
    pub fn new(alloc: Global, settings: Settings) -> Result<System, AllocError>
        ensures { IfOk result (λ system. system ≡ empty_machine (limits_of settings)) }
    {
        let policy = settings.policy;
        let pool = Pool::new(alloc, settings)?;
        let _ = pool.committed();
        Ok(System {
            alloc,
            policy,
            pool,
            loaders: Loaders::new(alloc),
        })
    }

    /// Makes a loader with nothing of its own but two owner numbers: a step of the machine. Takes
    /// memory. Refused with `LoaderExists`, with `IdsUsedUp` where fewer than two owner numbers are
    /// left, and with `OutOfMemory`, in that order; the first two change nothing, the last may have
    /// used two owner numbers up. This project's choice.
    pub fn new_loader(&mut self, name: u16, kind: Kind) -> Result<(), Refusal>
        ensures served { OnOk result (Transition self.old (Step.New name kind) Reply.Ok self.new) }
        ensures refused { IfErr result
            (λ refusal. Transition self.old (Step.New name kind) (Reply.Refused refusal) self.new) }
        ensures unchanged { IfErr result
            (λ refusal. refusal ≢ Refusal.OutOfMemory → self.new ≡ self.old) }
    {
        self.carry_out(Step::New { loader: name, kind })
    }

    /// Unloads a loader: all that was its own goes with it, and its name may be used anew. Takes no
    /// memory. Refused with `NoLoader` alone, and then nothing changes.
    pub fn unload(&mut self, name: u16) -> Result<(), Refusal>
        ensures served { OnOk result (Transition self.old (Step.Unload name) Reply.Ok self.new) }
        ensures no_loader { (result ≡ Err Refusal.NoLoader) ↔ LacksLoader self.old name }
        ensures refused { IfErr result
            (λ refusal. Transition self.old (Step.Unload name) (Reply.Refused refusal) self.new) }
    {
        self.carry_out(Step::Unload { loader: name })
    }

    /// Gives back the nodes in which no chunk is held, and returns how many; those of the class
    /// space stay. Takes no memory.
    pub fn purge(&mut self) -> u32
        ensures step { Transition self.old Step.Purge Reply.Ok self.new }
        ensures gone { result + length self.new.slots ≡ length self.old.slots }
    {
        let gone = self.pool.purge();
        let _ = self.pool.committed();
        gone
    }

    /// Frees a block: its words become a free block of its arena.
    fn free(&mut self, name: u16, block: u32) -> Result<(), Refusal>
        ensures served { OnOk result (Transition self.old (Step.Free name block) Reply.Ok self.new) }
        ensures refused { IfErr result
            (λ refusal. Transition self.old (Step.Free name block) (Reply.Refused refusal) self.new) }
    {
        self.carry_out(Step::Free {
            loader: name,
            block,
        })
    }

    /// Returns the words in use, in both spaces: the sum of the tops of all chunks. Takes no
    /// memory, and visits each loader once.
    pub fn used(&self) -> u64
        ensures { result ≡ over_spaces (λ space. used_words space self.now) }
    {
        let mut words = 0;
        for loader in self.loaders.values() {
            words += loader.used();
        }
        words
    }

    /// Returns the words in use of one loader, in both spaces, and 0 where none has the name. Takes
    /// no memory, and visits no other loader.
    pub fn used_by(&self, name: u16) -> u64
        ensures { result ≡ used_if (named self.now.loaders name) }
    {
        self.loaders.used_by(name)
    }

    /// Returns the words of one loader that are in use and those that are live, in each space, and
    /// 0 of all where none has the name. Takes no memory, and visits no other loader and no block.
    pub fn amounts_by(&self, name: u16) -> Amounts
        ensures { result ≡ amounts_if (named self.now.loaders name) }
    {
        self.loaders.amounts_by(name)
    }

    /// Returns the committed words of both spaces, a multiple of a granule's. Takes no memory, and
    /// visits no chunk and no loader.
    pub fn committed(&self) -> u64
        ensures { result ≡ over_spaces (λ space. committed_words space self.now) }
    {
        self.pool.committed() * granule(self.policy)
    }

    /// Returns the committed words of the class space, a multiple of a granule's. Takes no memory,
    /// and visits the class space's granules alone, at most 8192 bits.
    pub fn class_committed(&self) -> u64
        ensures { result ≡ committed_words Class self.now }
    {
        self.pool.class_committed() * granule(self.policy)
    }

    /// Returns all sums over the system, and a row for each loader in order of name. Takes memory
    /// for the rows, and fails only where that is refused; visits each node, loader and chunk, and
    /// no block.
    pub fn totals(&self) -> Result<Totals, AllocError>
        ensures { IfOk result (λ totals. sums_in totals ≡ sums_of self.now) }
    {
        let gathered = gather(self.alloc, &self.loaders)?;
        let words = granule(self.policy);
        let pool = self.pool.all_totals(Space::NonClass);
        let class_pool = self.pool.all_totals(Space::Class);
        Ok(Totals {
            loaders: self.loaders.len() as u32,
            space: space_totals(pool, words, gathered.space),
            class_space: space_totals(class_pool, words, gathered.class_space),
            rows: gathered.rows,
            details: None,
            peaks: None,
        })
    }

    /// Takes one step of the machine: answers what it is done with, or why it is refused, which
    /// changes nothing but, for want of memory for a new loader, its owner numbers. Words and
    /// indices are in words of 8 bytes. Takes memory for a new loader, a block and its chunk. This
    /// project's choice, as are the machine and its refusals.
    #[inline(always)]
    pub fn step(&mut self, step: Step) -> Reply
        ensures step { Transition self.old step result self.new }
        ensures good { IsGood self.new }
    {
        let alloc = self.alloc;
        let reply = serve(alloc, &mut self.pool, &mut self.loaders, step);
        let _ = self.pool.committed();
        reply
    }

    /// Takes a step whose reply has no value.
    fn carry_out(&mut self, step: Step) -> Result<(), Refusal>
        requires { HasNoValue step }
        ensures served { OnOk result (Transition self.old step Reply.Ok self.new) }
        ensures refused { IfErr result
            (λ refusal. Transition self.old step (Reply.Refused refusal) self.new) }
    {
        match self.step(step) {
            Reply::Refused(refusal) => Err(refusal),
            _reply => Ok(()),
        }
    }

    /// Runs the steps in their order, and answers the reply to each. Takes memory: room for all
    /// replies is made before the first step, so an error means that no step ran.
    pub fn run(&mut self, steps: &[Step]) -> Result<Vec<Reply>, AllocError>
        ensures run { IfOk result (λ replies. Run self.old steps.now replies.items self.new) }
        ensures before { IsGood self.old }
        ensures after { IsGood self.new }
        ensures emptied { self.new.loaders ≡ [] → HoldsNothing self.new }
        ensures unchanged { OnErr result (self.new ≡ self.old) }
    {
        let mut replies = Vec::with_capacity(self.alloc, steps.len())?;
        for step in steps {
            // A refusal is named, or the toolchain's borrow checker doesn't find its type.
            let reply = match self.step(*step) {
                Reply::Refused(refusal) => Reply::Refused(refusal),
                done => done,
            };
            replies.push_reserved(reply);
        }
        // That the state is good is learnt here.
        let _ = &self.loaders;
        Ok(replies)
    }
}
