//! The node slots, the commit mask and the limiter of both.
//!
//!      slot 0                slot 1                slot 2         ..   slot 63
//!     +---------------------+---------------------+--------------
//!     | reserved            | not reserved        | reserved
//!     +---------------------+---------------------+--------------
//!      ##.....#####......... ..................... ####..........      # a committed granule
//!      0                 127 128               255 256
//!
//! From slot 64 on come those of the class space, at most 16. They are reserved from the start and
//! stay so; only their granules change.
//! Kept true: slots and granules are counted, both counts are within their limits, and each
//! committed granule lies in a reserved slot. A slot has as many granules as fit into a node: 128
//! of 8192 words, as drawn here, or 512 of 2048. One limit counts the granules of both spaces.
//! Nothing here takes memory.
//! After HotSpot's virtualSpaceNode.hpp and commitLimiter.hpp; there each node has a mask of its
//! own, and here one mask has all slots. The class space's slots are this project's choice.
ghost use Rattle.std.specs.Prelude.{◌≡◌, ℕ, ◌≤◌, ◌+◌, ◌^◌, ◌<◌, ◌↔◌, false, IsTrue, IsErr, IfOk, IfErr, IfSome, IfNone};
ghost use Rattle.std.specs.Prelude.{OnOk, OnErr, length};
ghost use Rattle.ms_base.specs.Part.{is_reserved};
ghost use Rattle.ms_base.specs.declared.sizes.TheConstants.{SLOTS, CLASS_SLOTS};
ghost use Rattle.ms_base.specs.PoolSteps.Pick.{lowest_unreserved};
ghost use Rattle.ms_base.specs.Committed.{is_among};
ghost use Rattle.ms_commit.specs.NumberSet.{count_missing};
ghost use Rattle.ms_commit.specs.Nodes.{IsGranuleSize, all_slots, no_nodes, AreInReserved, with_slot, without_slot};
ghost use Rattle.ms_commit.specs.Nodes.{with_granules, without_granules, granules_with, AreSound};

use crate::mask::{BITS, Mask};
use ms_base::{CLASS_SLOTS, NODE_WORDS, Refusal, SLOTS};
use std::marker::Model;

/// Words of the mask of the slots below those of the class space.
const SLOT_MASK: usize = SLOTS as usize / BITS;
/// Granules of a slot at most: as many of 2048 words as fit into a node.
const MOST_GRANULES: usize = 512;
/// Words of the mask of the granules of all slots.
const GRANULE_MASK: usize = (SLOTS + CLASS_SLOTS) as usize * MOST_GRANULES / BITS;

/// Which node slots are reserved and which granules are committed, each within its limit. The
/// limits are this project's choice; HotSpot has them in CommitLimiter and as reserved sizes.
#[derive(Drop)]
pub struct Nodes {
    /// The slots below 64 that are reserved.
    slots: Mask<SLOT_MASK>,
    /// The granules that are committed, of both spaces, by number from slot 0 on.
    granules: Mask<GRANULE_MASK>,
    /// How many slots below 64 are reserved, 0 to `node_limit`.
    reserved: u32,
    /// How many granules are committed, 0 to `granule_limit`.
    committed: u64,
    /// The limit of reserved slots below 64, 1 to 64.
    node_limit: u32,
    /// The limit of committed granules of both spaces, any number.
    granule_limit: u64,
    /// The words of a granule, 8192 or 2048.
    granule: u64,
    /// The granules of a slot, 128 or 512.
    slot_granules: u64,
    /// How many slots the class space has, 0 to 16.
    class_slots: u32,
}

impl Model for Nodes {
    ghost use Rattle.ms_commit.specs.Nodes.{NodesState};

    ghost Value = { NodesState };

    ghost use Rattle.ms_commit.specs.Keeping.{state_of, AreKept};

    ghost view = { state_of };

    ghost invariant = { AreKept };
}

impl Nodes {
    /// Makes nodes of which only the slots of the class space are reserved, 64 and up, 0 to 16 of
    /// them. The node limit is 1 to 64 nodes besides these; the granule limit is in granules of
    /// both spaces, any number; a granule has 8192 words, 64 KB, the default of JEP 387, or 2048.
    pub fn new(node_limit: u32, granule_limit: u64, granule: u64, class_slots: u32) -> Nodes
        requires some { 1 ≤ node_limit }
        requires few { node_limit ≤ SLOTS }
        requires granule_size { IsGranuleSize granule }
        requires class_few { class_slots ≤ CLASS_SLOTS }
        ensures { result
            ≡ no_nodes
            (record {
              nodes = node_limit;
              granules = granule_limit;
              granule = granule;
            })
            class_slots }
    {
        Nodes {
            slots: Mask::empty(),
            granules: Mask::empty(),
            reserved: 0,
            committed: 0,
            node_limit,
            granule_limit,
            granule,
            slot_granules: NODE_WORDS / granule,
            class_slots,
        }
    }

    /// Reserves the lowest slot that isn't reserved, and answers its number, 0 to 63, never that
    /// of a class slot. ReserveLimit comes where as many slots below 64 are reserved as may be.
    /// Takes no memory.
    pub fn reserve(&mut self) -> Result<u32, Refusal>
        ensures lowest { IfOk result (λ slot. slot ≡ lowest_unreserved self.old.slots) }
        ensures within { IfOk result (λ slot. slot < SLOTS) }
        ensures added { IfOk result (λ slot. self.new ≡ with_slot self.old slot) }
        ensures granted { OnOk result (length self.old.slots < self.old.limits.nodes) }
        ensures reserve_limit { IsErr result ↔ (length self.old.slots ≡ self.old.limits.nodes) }
        ensures numbers { IfErr result (λ refusal.
            refusal ≡ Refusal.ReserveLimit (length self.old.slots) self.old.limits.nodes) }
        ensures unchanged { OnErr result (self.new ≡ self.old) }
        ensures sound { AreSound self.new }
    {
        match self.slots.lowest_missing() {
            Some(slot) if self.reserved < self.node_limit => {
                self.slots.insert(slot);
                self.reserved += 1;
                Ok(slot as u32)
            }
            _ => Err(Refusal::ReserveLimit {
                nodes: self.reserved,
                limit: self.node_limit,
            }),
        }
    }

    /// Unreserves a reserved slot, 0 to 63, and uncommits its granules. Takes no memory.
    pub fn unreserve(&mut self, slot: u32)
        requires reserved { IsTrue (is_reserved (all_slots self.old) slot) }
        requires below { slot < SLOTS }
        ensures { self.new ≡ without_slot self.old slot }
    {
        let count = self.slot_granules as usize;
        let first = slot as usize * count;
        let cleared = self.granules.remove_range(first, count);
        self.committed -= cleared as u64;
        self.slots.remove(slot as usize);
        self.reserved -= 1;
    }

    /// Commits a range of granules of reserved slots, given by its first and how many they are,
    /// and answers how many of them weren't committed. CommitLimit comes where these would pass
    /// the granule limit of both spaces, with their number as what is needed. Takes no memory.
    pub fn commit(&mut self, first: u64, count: u64) -> Result<u64, Refusal>
        requires { AreInReserved self.old first count }
        ensures newly { IfOk result (λ newly. newly ≡ count_missing self.old.granules first count) }
        ensures added { OnOk result (self.new ≡ with_granules self.old first count) }
        ensures granted { OnOk result
            (granules_with self.old first count ≤ self.old.limits.granules) }
        ensures commit_limit { IsErr result
            ↔ (self.old.limits.granules < granules_with self.old first count) }
        ensures numbers { IfErr result (λ refusal.
            refusal
            ≡ Refusal.CommitLimit (length self.old.granules) self.old.limits.granules
            (count_missing self.old.granules first count)) }
        ensures unchanged { OnErr result (self.new ≡ self.old) }
        ensures sound { AreSound self.new }
    {
        let need = self.missing(first, count);
        if need > self.granule_limit - self.committed {
            return Err(Refusal::CommitLimit {
                committed: self.committed,
                limit: self.granule_limit,
                need,
            });
        }
        self.granules.insert_range(first as usize, count as usize);
        self.committed += need;
        Ok(need)
    }

    /// Returns how many granules of a range, given by its first and how many they are, aren't
    /// committed; those of unreserved slots aren't.
    pub fn missing(&self, first: u64, count: u64) -> u64
        requires { first + count < 2 ^ 64 }
        ensures { result ≡ count_missing self.now.granules first count }
    {
        count - self.granules.count(first as usize, count as usize) as u64
    }

    /// Uncommits a range of granules of reserved slots, given by its first and how many they are;
    /// those that aren't committed stay so. Takes no memory.
    pub fn uncommit(&mut self, first: u64, count: u64)
        requires { AreInReserved self.old first count }
        ensures { self.new ≡ without_granules self.old first count }
    {
        let present = self.granules.remove_range(first as usize, count as usize);
        self.committed -= present as u64;
    }

    /// Returns whether a granule is committed; none of an unreserved slot is.
    pub fn is_committed(&self, granule: u64) -> bool
        ensures answer { result ≡ is_among self.now.granules granule }
    {
        self.granules.contains(granule as usize)
    }

    /// Returns how many granules are committed, in both spaces.
    pub fn committed(&self) -> u64
        ensures count { result ≡ length self.now.granules }
        ensures sound { AreSound self.now }
    {
        self.committed
    }

    /// Returns the limit of committed granules.
    pub fn granule_limit(&self) -> u64
        ensures { result ≡ self.now.limits.granules }
    {
        self.granule_limit
    }

    /// Returns the words of a granule, 8192 or 2048.
    pub fn granule(&self) -> u64
        ensures { result ≡ self.now.limits.granule }
    {
        self.granule
    }

    /// Returns whether a slot is reserved; of those from 64 on, the class space's are.
    pub fn is_reserved(&self, slot: u32) -> bool
        ensures { result ≡ is_reserved (all_slots self.now) slot }
    {
        self.slots.contains(slot as usize) || SLOTS <= slot && slot < SLOTS + self.class_slots
    }

    /// Finds the lowest reserved slot from a number on, 0 to 63, never a class slot; none where no
    /// slot from there on is reserved. Takes no memory, and reads the slots' bits alone.
    pub fn next_reserved(&self, from: u32) -> Option<u32>
        ensures reserved { IfSome result (λ slot. IsTrue (is_reserved (all_slots self.now) slot)) }
        ensures from { IfSome result (λ slot. from ≤ slot) }
        ensures below { IfSome result (λ slot. slot < SLOTS) }
        ensures lowest { IfSome result
            (λ slot. (k : ℕ) → from ≤ k → k < slot → is_reserved self.now.slots k ≡ false) }
        ensures none { IfNone result ((k : ℕ) → from ≤ k → is_reserved self.now.slots k ≡ false) }
    {
        let left = SLOTS.saturating_sub(from);
        match self.slots.lowest_within(from as usize, left as usize) {
            Some(slot) => Some(slot as u32),
            None => None,
        }
    }

    /// Returns how many slots below 64 are reserved.
    pub fn reserved(&self) -> u32
        ensures count { result ≡ length self.now.slots }
        ensures sound { AreSound self.now }
    {
        self.reserved
    }

    /// Returns the limit of reserved slots below 64, 1 to 64.
    pub fn node_limit(&self) -> u32
        ensures { result ≡ self.now.limits.nodes }
    {
        self.node_limit
    }

    /// Returns how many slots the class space has, 0 to 16.
    pub fn class_slots(&self) -> u32
        ensures { result ≡ self.now.class_slots }
    {
        self.class_slots
    }
}
