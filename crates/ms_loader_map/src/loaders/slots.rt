//! Slots for loaders, 256 to a page, of which there are no more than numbers in use ask for.
//!
//!     numbers   0        256       512       768
//!               | page 0 |  empty  | page 2 |            (no page further on)
//!
//! A page is as long as the greatest of its numbers that was ever used asks for, so an empty one
//! takes no memory but its own slot. A loader is found by two indexings, whatever loaders there
//! are. Only `put` takes memory.
ghost use Rattle.std.specs.Prelude.{◌≡◌, ℕ, ◌+◌, ◌*◌, ◌/◌, ◌%◌, ◌<◌, ◌≤◌, IfErr, IfNone, IfSome, OnErr, OnOk, None, Some, [], length};
ghost use Rattle.std.specs.Option.{option_copied, option_copied_mut};
ghost use Rattle.std.specs.Borrow.{sem};
ghost use Rattle.ms_loader_map.specs.Lent.{LendsAt};
ghost use Rattle.ms_loader_map.specs.Slots.{IsEmptyFrom, IsNext, ChangesAt, page_of, slot_at, value_of};

use super::boxed::Boxed;
use super::page::Page;
use ms_loader::Loader;
use std::alloc::{AllocError, Global};
use std::marker::Model;

/// The slots of a page.
const PAGE: usize = 256;

/// Loaders by number, 0 to 65535.
#[derive(Drop)]
pub(super) struct Slots {
    pages: Vec<Page>,
}

impl Model for Slots {
    ghost use Rattle.std.specs.Prelude.{ℕ, List, Option, ◌≤◌, length};
    ghost use Rattle.ms_loader.specs.Loader.{LoaderView};

    ghost Value = { List (List (Option (ℕ × LoaderView))) };

    ghost view = { λ slots. slots.pages.items };

    ghost invariant = { λ slots. length slots.pages.items ≤ 256 };
}

impl Slots {
    /// Makes slots of which none is taken. Takes no memory.
    pub(super) fn new(alloc: Global) -> Slots
        ensures { result ≡ [] }
    {
        Slots {
            pages: Vec::new(alloc),
        }
    }

    /// Puts a loader at a number; the others stay. Hands it back where memory is wanting.
    pub(super) fn put(&mut self, alloc: Global, number: u16, boxed: Boxed) -> Result<(), Boxed>
        ensures at_names { OnOk result
            (ChangesAt (slot_at self.old) number (Some boxed) (slot_at self.new)) }
        ensures few { OnOk result (length self.new ≤ 256) }
        ensures back { IfErr result (λ back. back ≡ boxed) }
        ensures stays { OnErr result
            ((other : ℕ) → slot_at self.new other ≡ slot_at self.old other) }
    {
        match self.make_room(alloc, number) {
            Ok(()) => {}
            Err(_) => return Err(boxed),
        }
        self.pages[usize::from(number) / PAGE].put(usize::from(number) % PAGE, boxed);
        Ok(())
    }

    /// Makes a slot for a number, where there is none. Takes memory.
    fn make_room(&mut self, alloc: Global, number: u16) -> Result<(), AllocError>
        ensures page { OnOk result (number / 256 < length self.new) }
        ensures slot { OnOk result (number % 256 < length (page_of self.new number)) }
        ensures stays { (other : ℕ) → slot_at self.new other ≡ slot_at self.old other }
    {
        let page = usize::from(number) / PAGE;
        for _ in self.pages.len()..page + 1 {
            self.pages.push(Page::new(alloc))?;
        }
        self.pages[page].lengthen(usize::from(number) % PAGE)
    }

    /// Takes the loader of a number out; the others stay. Takes no memory.
    pub(super) fn take(&mut self, number: u16) -> Option<Boxed>
        ensures found { result ≡ slot_at self.old number }
        ensures gone { ChangesAt (slot_at self.old) number None (slot_at self.new) }
    {
        match self.pages.get_mut(usize::from(number) / PAGE) {
            Some(page) => page.take(usize::from(number) % PAGE),
            None => None,
        }
    }

    /// Lends what stands at a number to read. Takes no memory.
    pub(super) fn get(&self, number: u16) -> Option<&Boxed>
        ensures { option_copied result ≡ slot_at self.now number }
    {
        match self.pages.get(usize::from(number) / PAGE) {
            Some(page) => page.get(usize::from(number) % PAGE),
            None => None,
        }
    }

    /// Lends the loader of a number. Takes no memory.
    pub(super) fn get_mut(&mut self, number: u16) -> Option<&mut Loader>
        ensures* writes_back { sem 𝓛 (LendsAt self.entry number result) }
        ensures found { option_copied_mut result ≡ value_of (slot_at self.old number) }
    {
        match self.pages.get_mut(usize::from(number) / PAGE) {
            Some(page) => page.get_mut(usize::from(number) % PAGE),
            None => None,
        }
    }

    /// Finds the first that stands at a number or further on, and returns where. Takes no memory.
    pub(super) fn next(&self, from: usize) -> Option<(usize, &Boxed)>
        ensures next { IfSome result
            (λ found. IsNext (slot_at self.now) from found.0 found.1.now) }
        ensures within { IfSome result (λ found. found.0 < 256 * length self.now) }
        ensures small { length self.now ≤ 256 }
        ensures none { IfNone result (IsEmptyFrom (slot_at self.now) from) }
    {
        let mut slot = from % PAGE;
        for page in from / PAGE..self.pages.len() {
            if let Some((found, boxed)) = self.pages[page].next(slot) {
                return Some((page * PAGE + found, boxed));
            }
            slot = 0;
        }
        None
    }
}
