//! A box as its pointer and its allocator: what a slot keeps of it.
//!
//! Nothing here names the machine. Taking a box apart and making it again move a pointer, take no
//! memory and give none back.
ghost use Rattle.std.specs.Prelude.{◌≡◌};
ghost use Rattle.std_alloc.specs.Box.Ownership.{box_owns};

use std::alloc::Allocator;
use std::marker::Model;

/// A box taken apart, which owns what the box owned.
pub struct Parts<T, A: Allocator> {
    // Where the value lies.
    pub(crate) at: *mut T,
    // What its block goes back to.
    pub(crate) alloc: A,
    pub ghost value: { T },
}

impl<T, A: Allocator> Model for Parts<T, A> {
    ghost also_owns = { λ parts.
        box_owns (A.dealloc_token parts.alloc) T.row parts.at parts.value };
}

impl<T: Drop, A: Allocator> Parts<T, A> {
    /// Takes a box apart.
    pub fn of(whole: Box<T, A>) -> Parts<T, A>
        ensures { result.value ≡ whole.value }
    {
        let (at, alloc) = Box::into_raw_with_allocator(whole);
        Parts { at, alloc }
    }

    /// Makes the box again.
    pub fn into_box(self) -> Box<T, A>
        ensures { result.value ≡ self.value }
    {
        let Parts { at, alloc } = self;
        unsafe { Box::from_raw(alloc, at) }
    }
}
