//! What a C program holds: a system, or none.
//!
//!     C's struct     { at, live }
//!                       |
//!     on the heap     System
//!
//! A call takes the box of the system out, uses the system as any Rattle code does, and puts it
//! back. So raw pointers stay in `parts` and `slot`, and each export is safe code. Takes no memory.
ghost use Rattle.std.specs.Prelude.{◌≡◌, ◌↔◌, Some, None, IsSome, IsTrue, IfSome, IsNone};

use crate::parts::Parts;
use crate::slot::Slot;
use ms_loaders::System;
use std::alloc::Global;
use std::mem;

/// A system, or none. Before its first use C fills it with zeros.
#[repr(C)]
pub struct Handle {
    /// Where the system is.
    pub slot: Slot,
    /// Whether there is one.
    pub live: bool,
    pub ghost linked: { IsTrue live ↔ IsSome slot.held },
}

impl Handle {
    /// Makes a handle with no system, as one filled with zeros is.
    pub fn empty(alloc: Global) -> Handle
        ensures { result.slot.held ≡ None }
    {
        Handle {
            slot: Slot::empty(alloc),
            live: false,
        }
    }

    /// Makes a handle of a system.
    pub fn of(system: Box<System, Global>) -> Handle
        ensures { result.slot.held ≡ Some system.value }
    {
        Handle {
            slot: Slot::of_parts(Parts::of(system)),
            live: true,
        }
    }

    /// Takes the system out, where there is one.
    pub fn into_box(self) -> Option<Box<System, Global>>
        ensures some { IfSome result (λ system. self.slot.held ≡ Some system.value) }
        ensures none { IsNone result → self.slot.held ≡ None }
    {
        let Handle { slot, live } = self;
        if live {
            Some(slot.into_parts().into_box())
        } else {
            slot.vanish();
            None
        }
    }

    /// Takes the system out, and leaves none.
    pub fn take(&mut self, alloc: Global) -> Option<Box<System, Global>>
        ensures some { IfSome result (λ system. self.old.slot.held ≡ Some system.value) }
        ensures none { IsNone result → self.old.slot.held ≡ None }
        ensures after { self.new.slot.held ≡ None }
    {
        mem::replace(self, Handle::empty(alloc)).into_box()
    }

    /// Puts a system where there is none.
    pub fn put(&mut self, system: Box<System, Global>)
        requires { self.old.slot.held ≡ None }
        ensures { self.new.slot.held ≡ Some system.value }
    {
        mem::replace(self, Handle::of(system)).vanish();
    }

    /// Ends a handle with no system.
    pub(crate) fn vanish(self)
        requires { self.slot.held ≡ None }
    {
        let Handle { slot, live: _ } = self;
        slot.vanish();
    }
}
