//! A page of slots for loaders: it is as long as the last slot that was ever taken asks for.
ghost use Rattle.std.specs.Prelude.{◌≡◌, ℕ, ◌<◌, IfNone, IfSome, OnOk, [], None, Some, length};
ghost use Rattle.std.specs.Option.{option_copied, option_copied_mut};
ghost use Rattle.std.specs.Borrow.{sem};
ghost use Rattle.ms_loader_map.specs.Lent.{LendsSlot};
ghost use Rattle.ms_loader_map.specs.Slots.{IsEmptyFrom, IsNext, ChangesAt, in_page, value_of};

use super::boxed::Boxed;
use ms_loader::Loader;
use std::alloc::{AllocError, Global};
use std::marker::Model;

/// A page of slots, each with a loader or with none.
#[derive(Drop)]
pub(super) struct Page {
    slots: Vec<Option<Boxed>>,
}

impl Model for Page {
    ghost use Rattle.std.specs.Prelude.{ℕ, List, Option, ◌≤◌, length};
    ghost use Rattle.ms_loader.specs.Loader.{LoaderView};

    ghost Value = { List (Option (ℕ × LoaderView)) };

    ghost view = { λ page. page.slots.items };

    ghost invariant = { λ page. length page.slots.items ≤ 256 };
}

impl Page {
    /// Makes a page of no slots. Takes no memory.
    pub(super) fn new(alloc: Global) -> Page
        ensures { result ≡ [] }
    {
        Page {
            slots: Vec::new(alloc),
        }
    }

    /// Lengthens the page up to a slot, where it isn't so long. Takes memory.
    pub(super) fn lengthen(&mut self, slot: usize) -> Result<(), AllocError>
        requires { slot < 256 }
        ensures there { OnOk result (slot < length self.new) }
        ensures slots { (other : ℕ) → in_page self.new other ≡ in_page self.old other }
    {
        for _ in self.slots.len()..slot + 1 {
            self.slots.push(None)?;
        }
        Ok(())
    }

    /// Puts a loader at a slot, which has none; the others stay.
    pub(super) fn put(&mut self, slot: usize, boxed: Boxed)
        requires there { slot < length self.old }
        ensures { ChangesAt (in_page self.old) slot (Some boxed) (in_page self.new) }
    {
        self.slots[slot] = Some(boxed);
    }

    /// Takes the loader of a slot out; the others stay.
    pub(super) fn take(&mut self, slot: usize) -> Option<Boxed>
        ensures found { result ≡ in_page self.old slot }
        ensures gone { ChangesAt (in_page self.old) slot None (in_page self.new) }
    {
        if slot < self.slots.len() {
            return self.slots[slot].take();
        }
        None
    }

    /// Lends what stands at a slot to read.
    pub(super) fn get(&self, slot: usize) -> Option<&Boxed>
        ensures { option_copied result ≡ in_page self.now slot }
    {
        match self.slots.get(slot) {
            Some(Some(boxed)) => Some(boxed),
            _ => None,
        }
    }

    /// Finds the first that stands at a slot or further on, and returns where.
    pub(super) fn next(&self, from: usize) -> Option<(usize, &Boxed)>
        ensures next { IfSome result (λ found. IsNext (in_page self.now) from found.0 found.1.now) }
        ensures within { IfSome result (λ found. found.0 < 256) }
        ensures none { IfNone result (IsEmptyFrom (in_page self.now) from) }
    {
        for slot in from..self.slots.len() {
            if let Some(boxed) = &self.slots[slot] {
                return Some((slot, boxed));
            }
        }
        None
    }

    /// Lends the loader of a slot.
    pub(super) fn get_mut(&mut self, slot: usize) -> Option<&mut Loader>
        ensures* writes_back { sem 𝓛 (LendsSlot self.entry slot result) }
        ensures found { option_copied_mut result ≡ value_of (in_page self.old slot) }
    {
        match self.slots.get_mut(slot) {
            Some(Some(boxed)) => Some(boxed.loader_mut()),
            _ => None,
        }
    }
}
