//! What a C program holds of a shared pool: a seat with its loader, or none.
//!
//! As `holding` does for a system: a call takes the box out, uses it and puts it back. Takes no
//! memory.
ghost use Rattle.std.specs.Prelude.{◌≡◌, ◌↔◌, Some, None, IsSome, IsTrue, IfSome, IsNone};

use crate::parts::Parts;
use crate::seat_slot::SeatSlot;
use ms_member::Member;
use std::alloc::Global;
use std::mem;

/// A seat of a shared pool, or none. Before its first use C fills it with zeros.
#[repr(C)]
pub struct Seat {
    /// Where the member is.
    pub slot: SeatSlot,
    /// Whether there is one.
    pub live: bool,
    pub ghost linked: { IsTrue live ↔ IsSome slot.held },
}

impl Seat {
    /// Makes one with no member, as one filled with zeros is.
    pub fn empty(alloc: Global) -> Seat
        ensures { result.slot.held ≡ None }
    {
        Seat {
            slot: SeatSlot::empty(alloc),
            live: false,
        }
    }

    /// Makes one of a member.
    pub fn of(member: Box<Member, Global>) -> Seat
        ensures { result.slot.held ≡ Some member.value }
    {
        Seat {
            slot: SeatSlot::of_parts(Parts::of(member)),
            live: true,
        }
    }

    /// Takes the member out, where there is one.
    pub fn into_box(self) -> Option<Box<Member, Global>>
        ensures some { IfSome result (λ member. self.slot.held ≡ Some member.value) }
        ensures none { IsNone result → self.slot.held ≡ None }
    {
        let Seat { slot, live } = self;
        if live {
            Some(slot.into_parts().into_box())
        } else {
            slot.vanish();
            None
        }
    }

    /// Takes the member out, and leaves none.
    pub fn take(&mut self, alloc: Global) -> Option<Box<Member, Global>>
        ensures some { IfSome result (λ member. self.old.slot.held ≡ Some member.value) }
        ensures none { IsNone result → self.old.slot.held ≡ None }
        ensures after { self.new.slot.held ≡ None }
    {
        mem::replace(self, Seat::empty(alloc)).into_box()
    }

    /// Puts a member where there is none.
    pub fn put(&mut self, member: Box<Member, Global>)
        requires { self.old.slot.held ≡ None }
        ensures { self.new.slot.held ≡ Some member.value }
    {
        mem::replace(self, Seat::of(member)).vanish();
    }

    /// Ends one with no member.
    fn vanish(self)
        requires { self.slot.held ≡ None }
    {
        let Seat { slot, live: _ } = self;
        slot.vanish();
    }
}
