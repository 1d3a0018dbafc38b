//! Who has each lent part of a root.
//!
//!     entry      0          1          2          3      ..     4095
//!            +----------+----------+----------+----------+----+----------+
//!            | lent, 11 |    -     | lent, 12 |    -     | .. |    -     |   one for each part of level 12
//!            +----------+----------+----------+----------+----+----------+
//!
//! A lent part stands at the entry of its first word. The first entry stands apart from the others,
//! so that a root that is lent whole takes no memory. Only `make` takes it, for all the others at
//! once. After HotSpot, where each chunk has a header; a table is this project's choice.
ghost use Rattle.std.specs.Prelude.{◌≡◌, ℕ, ◌<◌, ◌≤◌, IsTrue, [], ◌∷◌, Some, None, OnOk, OnErr, length, slice_set};
ghost use Rattle.ms_buddy.specs.declared.entries.Lending.{Lending};
ghost use Rattle.ms_buddy.specs.Entries.{FitsEntry, lending_at, lent_from};

use ms_base::Level;
use std::alloc::{AllocError, Allocator};
use std::marker::Model;

/// The words of an entry.
pub(crate) const ENTRY: u64 = 128;

/// How many entries there are beside the first.
const OTHERS: usize = 4095;

/// Nothing that is lent.
pub(crate) const NONE: Entry = Entry {
    owner: 0,
    packed: 0,
};

/// What is lent from an entry on: a part of that level, to whom, and with which front.
#[derive(Clone, Copy, Drop)]
pub(crate) struct Lending {
    pub(crate) level: Level,
    pub(crate) owner: u32,
    pub(crate) front: u32,
}

/// What is lent from an entry on, if anything is, in half of the room.
#[derive(Clone, Copy, Drop)]
pub(crate) struct Entry {
    owner: u32,
    /// The level, and 16 times the front; 0 where nothing is lent.
    packed: u32,
}

impl Model for Entry {
    ghost use Rattle.std.specs.Prelude.{Option};
    ghost use Rattle.ms_buddy.specs.declared.entries.Lending.{Lending};
    ghost use Rattle.ms_buddy.specs.Entries.{IsPacked, lending_in, owner_again, owner_in, packed_again, packed_of};

    ghost Value = { Option Lending };

    ghost view = { λ p. lending_in p.owner p.packed };

    ghost invariant = { λ p. IsPacked p.owner p.packed };

    ghost inverse = { λ lending. record { owner = owner_in lending; packed = packed_of lending } };

    ghost inverse_ok = { λ p h i. record {
      owner = owner_again p.owner p.packed h i;
      packed = packed_again p.owner p.packed i;
    } };
}

impl Entry {
    /// Keeps what is lent.
    pub(crate) fn of(lending: Lending) -> Entry
        requires { FitsEntry lending.front }
        ensures { result ≡ Some lending }
    {
        Entry {
            owner: lending.owner,
            packed: 16 * lending.front + u32::from(lending.level.number()),
        }
    }

    /// Returns what is lent, if anything is.
    pub(crate) fn lending(self) -> Option<Lending>
        ensures { result ≡ self }
    {
        if self.packed == 0 {
            return None;
        }
        Some(Lending {
            level: Level::new((self.packed % 16) as u8),
            owner: self.owner,
            front: self.packed / 16,
        })
    }
}

/// What is lent from each entry on.
#[derive(Drop)]
pub(crate) struct Entries<A: Allocator> {
    first: Entry,
    /// The others, once there is memory for them.
    others: Option<Box<[Entry; OTHERS], A>>,
}

impl<A: Allocator> Model for Entries<A> {
    ghost use Rattle.std.specs.Prelude.{List, Option};
    ghost use Rattle.ms_buddy.specs.declared.entries.Lending.{Lending};
    ghost use Rattle.ms_buddy.specs.Entries.{AreOthers, entries_of};

    ghost Value = { List (Option Lending) };

    ghost view = { λ p. entries_of p.first p.others };

    ghost invariant = { λ p. AreOthers p.others };
}

impl<A: Allocator> Entries<A> {
    /// Makes the first entry, from which nothing is lent. Takes no memory.
    pub(crate) fn new() -> Entries<A>
        ensures { result ≡ None ∷ [] }
    {
        Entries {
            first: NONE,
            others: None,
        }
    }

    /// Makes the other entries, where they are needed and there are none yet. Takes memory.
    pub(crate) fn make(&mut self, alloc: A, needed: bool) -> Result<(), AllocError>
        ensures all { OnOk result (IsTrue needed → length self.new ≡ 4096) }
        ensures stay { length self.old ≡ 4096 → length self.new ≡ 4096 }
        ensures more { length self.old ≤ length self.new }
        ensures lent { lent_from 0 self.new ≡ lent_from 0 self.old }
        ensures refused { OnErr result (IsTrue needed) }
        ensures unchanged { OnErr result (self.new ≡ self.old) }
    {
        if needed && self.others.is_none() {
            self.others = Some(Box::new(alloc, [NONE; OTHERS])?);
        }
        Ok(())
    }

    /// Returns what is lent from an entry on.
    pub(crate) fn get(&self, index: usize) -> Option<Lending>
        requires { index < 4096 }
        ensures { result ≡ lending_at self.now index }
    {
        if index == 0 {
            return self.first.lending();
        }
        match &self.others {
            Some(others) => others[index - 1].lending(),
            None => None,
        }
    }

    /// Puts what is lent from an entry on.
    pub(crate) fn put(&mut self, index: usize, lending: Entry)
        requires within { index < length self.old }
        requires few { index < 4096 }
        ensures { self.new ≡ slice_set self.old index lending }
    {
        if index == 0 {
            self.first = lending;
        } else if let Some(others) = &mut self.others {
            others[index - 1] = lending;
        }
    }

    /// Gives what is lent from an entry on another level and another front.
    pub(crate) fn change(&mut self, index: usize, level: Level, front: u32)
        requires within { index < length self.old }
        requires few { index < 4096 }
        requires front { FitsEntry front }
        ensures { (lending : Lending) → lending_at self.old index ≡ Some lending
            → self.new ≡ slice_set self.old index
            (Some (record { level = level; owner = lending.owner; front = front })) }
    {
        if let Some(Lending { owner, .. }) = self.get(index) {
            let lending = Lending {
                level,
                owner,
                front,
            };
            self.put(index, Entry::of(lending));
        }
    }
}
