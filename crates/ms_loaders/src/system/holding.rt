//! Whose a word is: what a user asks who has an address and wants its loader.
ghost use Rattle.std.specs.Prelude.{◌≡◌, ℕ, IfSome, IfNone, IsTrue, IsFalse};
ghost use Rattle.std.specs.List.{list_any};
ghost use Rattle.ms_loaders.specs.Holder.{has_owner, holds, is_owner};

use super::System;
use ms_loader::{Loader, is_class};
use ms_loader_map::Loaders;

impl System {
    /// Returns the name of the loader in whose chunk a word lies, in either space, if it lies in
    /// one: in use or not, committed or not. Takes no memory, goes down one path of one tree of the
    /// pool, and looks the owner up once. Each loader is looked at only where one was exchanged in
    /// its index, or has owner numbers that weren't given together. This project's choice.
    pub fn holder(&self, word: u64) -> Option<u16>
        ensures held { IfSome result (λ name. IsTrue (holds self.now name word)) }
        ensures only { IfSome result
            (λ name. (other : ℕ) → IsTrue (holds self.now other word) → other ≡ name) }
        ensures none { IfNone result ((name : ℕ) → IsFalse (holds self.now name word)) }
    {
        match self.pool.owner_of(word) {
            Some(owner) => name_of(&self.loaders, owner, first_owner(word, owner)),
            None => None,
        }
    }
}

/// Guesses the first owner number of the loader whose account has that number, from the space in
/// which a word of it lies: numbers are given in pairs, the class space's last.
fn first_owner(word: u64, owner: u32) -> u32 {
    if is_class(word) {
        owner.wrapping_sub(1)
    } else {
        owner
    }
}

/// Returns the name of the loader with an account of that owner's number, of which the first may be
/// known.
fn name_of(loaders: &Loaders, owner: u32, first: u32) -> Option<u16>
    ensures some { IfSome result (λ name. IsTrue (list_any (has_owner name owner) loaders.now)) }
    ensures none { IfNone result ((name : ℕ) → IsFalse (list_any (has_owner name owner) loaders.now)) }
{
    match name_by_note(loaders, owner, first) {
        Some(name) => Some(name),
        None => name_by_walk(loaders, owner),
    }
}

/// Returns the name that was noted of the first number, where the loader that has it owns the
/// number.
fn name_by_note(loaders: &Loaders, owner: u32, first: u32) -> Option<u16>
    ensures { IfSome result (λ name. IsTrue (list_any (has_owner name owner) loaders.now)) }
{
    let Some(name) = loaders.noted(first) else {
        return None;
    };
    let Some(loader) = loaders.get(name) else {
        return None;
    };
    if owns(loader, owner) {
        return Some(name);
    }
    None
}

/// Returns the name of the loader with an account of that number, by a look at each.
fn name_by_walk(loaders: &Loaders, owner: u32) -> Option<u16>
    ensures some { IfSome result (λ name. IsTrue (list_any (has_owner name owner) loaders.now)) }
    ensures none { IfNone result ((name : ℕ) → IsFalse (list_any (has_owner name owner) loaders.now)) }
{
    for (name, loader) in loaders.iter() {
        if owns(loader, owner) {
            return Some(*name);
        }
    }
    None
}

/// Returns whether the number is that of one of the loader's accounts.
fn owns(loader: &Loader, owner: u32) -> bool
    ensures { result ≡ is_owner owner loader.now }
{
    let (account, class_account) = loader.accounts();
    account.owner() == owner || class_account.owner() == owner
}
