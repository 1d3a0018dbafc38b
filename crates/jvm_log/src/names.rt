//! Names of loaders in a trace, 0 to 65535, each of one loader at a time.
ghost use Rattle.std.specs.Prelude.{◌≡◌, ◌≤◌, ◌<◌, ℕ, Some, true, false, IfSome, IfNone, slice_get, length};

use std::alloc::{AllocError, Global};
use std::marker::Model;

/// How many names there are.
pub(crate) const NAMES: usize = 65_536;

/// Which names are in use, which contracts see as a list with a flag for each.
#[derive(Drop)]
pub(crate) struct Names {
    used: Vec<bool>,
    /// Where the search for the next name begins.
    next: usize,
}

impl Model for Names {
    ghost use Rattle.std.specs.Prelude.{Bool, List, ◌≡◌, vec_len};

    ghost Value = { List Bool };

    ghost view = { λ names. names.used.items };

    ghost invariant = { λ names. vec_len names.used ≡ 65536 };
}

impl Names {
    ghost use Rattle.std.specs.Prelude.{◌≡◌, ◌≤◌, ◌<◌, ℕ, Some, true, false, IfOk, IfSome, IfNone, All};
    ghost use Rattle.std.specs.Prelude.{slice_get, slice_set, length};

    /// Makes a table in which no name is in use.
    pub(crate) fn new(alloc: Global) -> Result<Names, AllocError>
        ensures { IfOk result (All (λ used. used ≡ false)) }
    {
        let mut used = Vec::new(alloc);
        used.resize(NAMES, false)?;
        Ok(Names { used, next: 0 })
    }

    /// Takes a name that isn't in use: the next above the last one taken, round again from 0 where
    /// there is none.
    pub(crate) fn take(&mut self) -> Option<u16>
        ensures free { IfSome result (λ name. slice_get self.old name ≡ Some false) }
        ensures taken { IfSome result (λ name. self.new ≡ slice_set self.old name true) }
        ensures none { IfNone result ((name : ℕ) → name < 65536 → slice_get self.old name ≡ Some true) }
        ensures unchanged { IfNone result (self.new ≡ self.old) }
    {
        let name = match free_from(&self.used, self.next) {
            Some(name) => name,
            None => free_from(&self.used, 0)?,
        };
        self.used[name] = true;
        self.next = name + 1;
        Some(name as u16)
    }

    /// Gives a name back.
    pub(crate) fn give_back(&mut self, name: u16)
        ensures { self.new ≡ slice_set self.old name false }
    {
        self.used[name as usize] = false;
    }
}

/// Finds the first name from that one on that isn't in use.
fn free_from(used: &[bool], first: usize) -> Option<usize>
    ensures free { IfSome result (λ name. slice_get used.now name ≡ Some false) }
    ensures inside { IfSome result (λ name. name < length used.now) }
    ensures none { IfNone result ((name : ℕ) → first ≤ name → name < length used.now → slice_get used.now name ≡ Some true) }
{
    for name in first..used.len() {
        if !used[name] {
            return Some(name);
        }
    }
    None
}
