//! Room for a system in a box, as a C program holds it.
//!
//! The pointer's type is opaque, so that what a system is made of stays out of C's sight; what it
//! points to is said by the ghost field `held`. A slot is not `Drop`, so no path can forget a
//! system.
ghost use Rattle.std.specs.Prelude.{◌≡◌, Some, None, IsSome};
ghost use Rattle.ms_c.specs.Holding.{Held, held_by, held_coded};

use crate::parts::Parts;
use ms_loaders::System;
use std::alloc::Global;
use std::marker::Model;
use std::ptr;

/// What C sees behind the pointer: nothing.
#[repr(C)]
pub struct Opaque {
    byte: u8,
}

/// Room for a system in a box.
#[repr(C)]
pub struct Slot {
    // Where the system lies; null where there is none.
    at: *mut Opaque,
    // Takes no bytes.
    alloc: Global,
    pub ghost held: { Held } by { held_coded },
}

impl Model for Slot {
    ghost also_owns = { λ slot. held_by slot.alloc slot.at slot.held };
}

impl Slot {
    /// Makes room with nothing in it.
    pub fn empty(alloc: Global) -> Slot
        ensures { result.held ≡ None }
    {
        Slot {
            at: ptr::null_mut(),
            alloc,
        }
    }

    /// Holds the system of a box.
    pub fn of_parts(parts: Parts<System, Global>) -> Slot
        ensures { result.held ≡ Some parts.value }
    {
        let Parts { at, alloc } = parts;
        Slot {
            at: at as *mut Opaque,
            alloc,
        }
    }

    /// Gives the box of the system back.
    pub fn into_parts(self) -> Parts<System, Global>
        requires { IsSome self.held }
        ensures { self.held ≡ Some result.value }
    {
        let Slot { at, alloc } = self;
        Parts {
            at: at as *mut System,
            alloc,
        }
    }

    /// Ends where nothing is held.
    pub fn vanish(self)
        requires { self.held ≡ None }
    {
        let Slot { at: _, alloc: _ } = self;
    }
}

// A slot owns what its box would, and a system may cross threads.
unsafe impl Send for Slot {}
