//! Which name was noted of an owner number: a guess that spares a walk.
//!
//!     owner      3 │  7 │ 12 │ 15 │       rising, since numbers are given out so; each loader is noted
//!     name       7 │  5 │  2 │  9 │       once, at the first of its two owner numbers
//!
//! Nothing outside rests on it: whoever asks looks at the loader of that name before believing it.
//! So it may tell a name that is used no more, or none where a loader was changed in its place.
//! Where a loader goes its note stays until the list is full, and is swept out then. A number that
//! doesn't rise, as where loaders come back from workers, is noted in a hash map beside the list.
//! Only `reserve` takes memory; `note` takes none in the room that was made.

use super::first_owner;
use super::slots::Slots;
use std::alloc::{AllocError, Global};
use std::collections::HashMap;
use std::marker::Model;

/// The name that was noted of an owner number.
#[derive(Clone, Copy, Drop)]
struct Note {
    owner: u32,
    name: u16,
}

/// Names of loaders by owner number.
#[derive(Drop)]
pub(super) struct Owners {
    /// Those whose numbers rose when they came.
    rising: Vec<Note>,
    /// Those whose numbers did not.
    others: HashMap<u32, u16>,
}

impl Model for Owners {
    ghost Value = { Unit {0} };

    ghost view = { λ owners. tt };
}

impl Owners {
    /// Makes a list of no note. Takes no memory.
    pub(super) fn new(alloc: Global) -> Owners {
        Owners {
            rising: Vec::new(alloc),
            others: HashMap::new(alloc),
        }
    }

    /// Returns the name that was noted of an owner number, if one was.
    pub(super) fn get(&self, owner: u32) -> Option<u16> {
        if let Ok(at) = self.rising.binary_search_by_key(&owner, |note| note.owner) {
            return Some(self.rising[at].name);
        }
        self.others.get(&owner).copied()
    }

    /// Makes room for the note of an owner number. Where the list is full, notes of loaders that
    /// stand at their names no more are swept out first, and it is lengthened where not most of
    /// them were: so each note is looked at once in three that come. Takes memory.
    #[inline(always)]
    pub(super) fn reserve(&mut self, owner: u32, slots: &Slots) -> Result<(), AllocError> {
        if !self.rises(owner) {
            return self.others.reserve(1);
        }
        if self.rising.len() < self.rising.capacity() {
            return Ok(());
        }
        self.sweep(slots);
        self.rising
            .reserve(self.rising.len().saturating_mul(3).max(1))
    }

    /// Notes the name of an owner number, in place of another.
    pub(super) fn note(&mut self, owner: u32, name: u16) {
        // In the room that was made.
        if self.rises(owner) {
            let _ = self.rising.push(Note { owner, name });
        } else {
            let _ = self.others.insert(owner, name);
        }
    }

    /// Notes nothing any more of an owner number, where it is not in the list.
    pub(super) fn forget(&mut self, owner: u32) {
        if !self.others.is_empty() {
            let _ = self.others.remove(&owner);
        }
    }

    /// Returns whether an owner number is greater than all of the list.
    fn rises(&self, owner: u32) -> bool {
        match self.rising.last() {
            Some(note) => note.owner < owner,
            None => true,
        }
    }

    /// Sweeps out what was noted of loaders that stand at their names no more.
    #[inline(never)]
    fn sweep(&mut self, slots: &Slots) {
        self.rising.retain(|note| {
            match slots.get(note.name) {
                Some(boxed) => first_owner(boxed.loader()) == note.owner,
                None => false,
            }
        });
    }
}
