//! Room for a member in a box, as a C program holds it: what `slot` is for a system.
ghost use Rattle.std.specs.Prelude.{◌≡◌, Some, None, IsSome};
ghost use Rattle.ms_c.specs.Seating.{Seated, seated_by, seated_coded};

use crate::parts::Parts;
use crate::slot::Opaque;
use ms_member::Member;
use std::alloc::Global;
use std::marker::Model;
use std::ptr;

/// Room for a member in a box.
#[repr(C)]
pub struct SeatSlot {
    // Where the member lies; null where there is none.
    at: *mut Opaque,
    // Takes no bytes.
    alloc: Global,
    pub ghost held: { Seated } by { seated_coded },
}

impl Model for SeatSlot {
    ghost also_owns = { λ slot. seated_by slot.alloc slot.at slot.held };
}

impl SeatSlot {
    /// Makes room with nothing in it.
    pub fn empty(alloc: Global) -> SeatSlot
        ensures { result.held ≡ None }
    {
        SeatSlot {
            at: ptr::null_mut(),
            alloc,
        }
    }

    /// Holds the member of a box.
    pub fn of_parts(parts: Parts<Member, Global>) -> SeatSlot
        ensures { result.held ≡ Some parts.value }
    {
        let Parts { at, alloc } = parts;
        SeatSlot {
            at: at as *mut Opaque,
            alloc,
        }
    }

    /// Gives the box of the member back.
    pub fn into_parts(self) -> Parts<Member, Global>
        requires { IsSome self.held }
        ensures { self.held ≡ Some result.value }
    {
        let SeatSlot { at, alloc } = self;
        Parts {
            at: at as *mut Member,
            alloc,
        }
    }

    /// Ends where nothing is held.
    pub fn vanish(self)
        requires { self.held ≡ None }
    {
        let SeatSlot { at: _, alloc: _ } = self;
    }
}

// A slot owns what its box would, and a member may cross threads.
unsafe impl Send for SeatSlot {}
