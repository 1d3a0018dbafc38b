//! The walks over loaders, in order of name.
ghost use Rattle.std.specs.Prelude.{◌≡◌, length};
ghost use Rattle.std.specs.Map.{values_of};
ghost use Rattle.std.specs.Iterator.{at_most};
ghost use Rattle.std.specs.Map.Iter.{TakesFirst, deref, deref_pair};
ghost use Rattle.ms_loader_map.specs.Slots.{rest_of};

use super::boxed::Boxed;
use super::slots::Slots;
use ms_loader::Loader;
use std::marker::Model;

/// The loaders that stand at a number or further on.
#[derive(Drop)]
struct Walk<'a> {
    slots: &'a Slots,
    from: usize,
}

impl<'a> Model for Walk<'a> {
    ghost use Rattle.std.specs.Prelude.{List, ℕ};
    ghost use Rattle.ms_loader.specs.Loader.{LoaderView};
    ghost use Rattle.ms_loader_map.specs.Slots.{rest_of};

    ghost Value = { List (ℕ × LoaderView) };

    ghost view = { λ walk. rest_of walk.slots.now walk.from };
}

impl<'a> Walk<'a> {
    /// Goes on to the next loader, and lends it in its box.
    fn next(&mut self) -> Option<&'a Boxed>
        ensures { TakesFirst deref self.old result self.new }
    {
        match self.slots.next(self.from) {
            Some((number, boxed)) => {
                self.from = number + 1;
                Some(boxed)
            }
            None => None,
        }
    }
}

/// The loaders that a walk has still to give, in order of name. Takes no memory.
#[derive(Drop)]
pub struct Values<'a> {
    walk: Walk<'a>,
}

impl<'a> Model for Values<'a> {
    ghost use Rattle.std.specs.Prelude.{List};
    ghost use Rattle.std.specs.Map.{values_of};
    ghost use Rattle.ms_loader.specs.Loader.{LoaderView};

    ghost Value = { List LoaderView };

    ghost view = { λ walk. values_of walk.walk };
}

impl<'a> Values<'a> {
    /// Starts a walk over all loaders.
    pub(super) fn over(slots: &'a Slots) -> Values<'a>
        ensures { result ≡ values_of (rest_of slots.now 0) }
    {
        Values {
            walk: Walk { slots, from: 0 },
        }
    }
}

impl<'a> Iterator for Values<'a> {
    type Item = &'a Loader;

    ghost next_gives = { TakesFirst deref };

    ghost remaining = { λ left. at_most (length left) };

    fn next(&mut self) -> Option<&'a Loader> {
        match self.walk.next() {
            Some(boxed) => Some(boxed.loader()),
            None => None,
        }
    }
}

/// The loaders with their names that a walk has still to give, in order of name. Takes no memory.
#[derive(Drop)]
pub struct Iter<'a> {
    walk: Walk<'a>,
}

impl<'a> Model for Iter<'a> {
    ghost use Rattle.std.specs.Prelude.{List, ℕ};
    ghost use Rattle.ms_loader.specs.Loader.{LoaderView};

    ghost Value = { List (ℕ × LoaderView) };

    ghost view = { λ walk. walk.walk };
}

impl<'a> Iter<'a> {
    /// Starts a walk over all loaders with their names.
    pub(super) fn over(slots: &'a Slots) -> Iter<'a>
        ensures { result ≡ rest_of slots.now 0 }
    {
        Iter {
            walk: Walk { slots, from: 0 },
        }
    }
}

impl<'a> Iterator for Iter<'a> {
    type Item = (&'a u16, &'a Loader);

    ghost next_gives = { TakesFirst deref_pair };

    ghost remaining = { λ left. at_most (length left) };

    fn next(&mut self) -> Option<(&'a u16, &'a Loader)> {
        match self.walk.next() {
            Some(boxed) => Some((boxed.name(), boxed.loader())),
            None => None,
        }
    }
}
