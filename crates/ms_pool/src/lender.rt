//! What a pool keeps: the nodes, and a split tree for each root that may be reserved (`trees`).
//!
//!     root      0       1       2       3              127     128  ..
//!          +-------+-------+-------+-------+-- .. --+-------+-------+--
//!     tree |  [0]  |  [1]  |  [2]  |  [3]  |        | [127] | [128] |      (of the class space)
//!          +-------+-------+-------+-------+-- .. --+-------+-------+--
//!     slot         0               1          ..   63         64
//!
//! Kept true: there are as many trees as roots may be reserved, the leaves of each are lent in
//! reserved slots, the committed granules are those that a front of a lent leaf meets, and the
//! lent chunks of each space are counted (`lent`). What callers see is a `Ledger`,
//! `specs/Keeping.antt`. The trees' room is made once, so a node that is reserved takes no
//! memory.
ghost use Rattle.std.specs.Prelude.{◌≡◌, ◌+◌, ◌*◌, ◌<◌, ◌≤◌, ◌^◌, IfOk, length, not};
ghost use Rattle.std.specs.List.{All};
ghost use Rattle.ms_base.specs.declared.kind.Space.TheVariants.{NonClass};
ghost use Rattle.ms_base.specs.Held.{has_chunk_in};
ghost use Rattle.ms_base.specs.Spaces.{first_class_slot};
ghost use Rattle.ms_base.specs.State.{limits_of};
ghost use Rattle.ms_buddy.specs.Leaves.{AreLeaves};
ghost use Rattle.ms_pool.specs.Ledger.{empty_ledger, held_in, with_opened};
ghost use Rattle.ms_pool.specs.Calls.{new_account, Opened, OpenedBoth, Purged};
ghost use Rattle.ms_pool.specs.Keeping.{IsCounted, IsKept, ledger_of};

use crate::account::Account;
use crate::lent::Lent;
use crate::spare::Spare;
use crate::trees::Trees;
use ms_base::{Policy, Refusal, SLOTS, Settings, Space, granule};
use ms_commit::Nodes;
use std::alloc::{AllocError, Global};

/// How often each refusal was given, modulo 2^64. No call tells them: contracts alone see them.
#[derive(Drop)]
pub(crate) struct Counts {
    /// `take` met the commit limit.
    pub(crate) take_commit: u64,
    /// `take` met the reserve limit.
    pub(crate) take_reserve: u64,
    /// `grow` met the commit limit.
    pub(crate) grow_commit: u64,
    /// `grow` had no room.
    pub(crate) grow_room: u64,
    /// `open` and `open_both` had too few owner numbers left.
    pub(crate) open_ids: u64,
}

/// What a pool keeps.
#[derive(Drop)]
pub(crate) struct Lender {
    /// Where the tables of parts and the lists of accounts come from.
    pub(crate) alloc: Global,
    /// The reserved slots, the committed granules, and the limits of both.
    pub(crate) nodes: Nodes,
    /// Two trees for each slot that may be reserved: 128 to 160.
    pub(crate) trees: Trees,
    /// What is lent in each space, counted.
    pub(crate) lent: Lent,
    /// By what rule granules are committed and given back.
    pub(crate) policy: Policy,
    /// The last owner number that was given out; 0 where none was.
    pub(crate) given: u32,
    /// Open accounts outside the class space; at most `given`, with those of the class space.
    pub(crate) opened: u32,
    /// Open accounts of the class space.
    pub(crate) class_opened: u32,
    /// How often each refusal was given.
    pub(crate) counts: Counts,
    /// The list of a closed account, for the next one.
    pub(crate) spare: Spare,
}

impl Lender {
    /// Makes what a pool keeps at its start.
    pub(crate) fn new(alloc: Global, settings: Settings) -> Result<Lender, AllocError>
        ensures empty { IfOk result (λ lender. ledger_of lender ≡ empty_ledger (limits_of settings)) }
        ensures kept { IfOk result IsKept }
        ensures counted { IfOk result IsCounted }
    {
        let trees = Trees::whole(alloc, 2 * (SLOTS + settings.class_nodes) as usize)?;
        Ok(Lender {
            alloc,
            nodes: Nodes::new(
                settings.nodes,
                settings.max_granules,
                granule(settings.policy),
                settings.class_nodes,
            ),
            trees,
            lent: Lent::none(),
            policy: settings.policy,
            given: 0,
            opened: 0,
            class_opened: 0,
            counts: Counts {
                take_commit: 0,
                take_reserve: 0,
                grow_commit: 0,
                grow_room: 0,
                open_ids: 0,
            },
            spare: Spare::new(alloc),
        })
    }

    /// Opens an account in a space.
    pub(crate) fn open(&mut self, space: Space) -> Result<Account, Refusal>
        requires kept { IsKept self.old }
        requires counted { IsCounted self.old }
        ensures opened { Opened (ledger_of self.old) space result (ledger_of self.new) }
        ensures kept { IsKept self.new }
        ensures counted { IsCounted self.new }
    {
        if self.given == u32::MAX {
            self.counts.open_ids = self.counts.open_ids.wrapping_add(1);
            return Err(Refusal::IdsUsedUp);
        }
        Ok(self.next_account(space))
    }

    /// Opens an account in each space; the first is not the class space's.
    pub(crate) fn open_both(&mut self) -> Result<(Account, Account), Refusal>
        requires kept { IsKept self.old }
        requires counted { IsCounted self.old }
        ensures opened { OpenedBoth (ledger_of self.old) result (ledger_of self.new) }
        ensures kept { IsKept self.new }
        ensures counted { IsCounted self.new }
    {
        if self.given >= u32::MAX - 1 {
            self.counts.open_ids = self.counts.open_ids.wrapping_add(1);
            return Err(Refusal::IdsUsedUp);
        }
        let account = self.next_account(Space::NonClass);
        let class_account = self.next_account(Space::Class);
        Ok((account, class_account))
    }

    /// Opens an account in a space, where an owner number is left.
    fn next_account(&mut self, space: Space) -> Account
        requires kept { IsKept self.old }
        requires counted { IsCounted self.old }
        requires left { self.old.given + 1 < 2 ^ 32 }
        ensures account { result ≡ new_account (self.old.given + 1) space }
        ensures opened { ledger_of self.new ≡ with_opened (ledger_of self.old) space }
        ensures kept { IsKept self.new }
        ensures counted { IsCounted self.new }
    {
        self.given += 1;
        match space {
            Space::NonClass => self.opened += 1,
            Space::Class => self.class_opened += 1,
        }
        Account {
            owner: self.given,
            space,
            chunks: self.spare.take(self.alloc),
        }
    }

    /// Returns how many granules are committed.
    pub(crate) fn committed(&self) -> u64
        requires { IsKept self.now }
        ensures { result
            ≡ length (ledger_of self.now).committed + length (ledger_of self.now).class_committed }
    {
        self.nodes.committed()
    }

    /// Unreserves each node below the class space's whose roots are whole, and counts them.
    pub(crate) fn purge(&mut self) -> u32
        requires kept { IsKept self.old }
        requires counted { IsCounted self.old }
        ensures purged { Purged (ledger_of self.old) result (ledger_of self.new) }
        ensures kept { IsKept self.new }
        ensures counted { IsCounted self.new }
    {
        let before = self.nodes.reserved();
        let mut from = 0;
        while let Some(slot) = self.nodes.next_reserved(from) {
            if self.is_whole(slot) {
                self.nodes.unreserve(slot);
            }
            from = slot + 1;
        }
        before - self.nodes.reserved()
    }

    /// Returns whether both roots of a slot below the class space's are whole.
    fn is_whole(&self, slot: u32) -> bool
        requires leaves { All AreLeaves self.now.trees.items }
        requires trees { 2 * first_class_slot ≤ length self.now.trees.items }
        requires low { slot < first_class_slot }
        ensures { result ≡ not (has_chunk_in (held_in NonClass (ledger_of self.now)) slot) }
    {
        let first = 2 * slot as usize;
        let lower = self.trees.tree(first).is_whole();
        let upper = self.trees.tree(first + 1).is_whole();
        lower && upper
    }
}
