//! Loaders in order of name.
//!
//!     5 ──── box of 5 and its loader        a loader stands at its name's slot; it stays where it is,
//!     7 ──── box of 7 and its loader        from `insert` until it is taken out
//!
//! So names need no search, and a walk over the slots gives them in order. Kept true: each loader
//! stands at its name, none below `first`, and there are `count`. Beside them are notes that guess
//! a loader's name from an owner number (`owners`), of which nothing is kept true, and loaders that
//! were unloaded wait to start anew (`spares`). Apart from the system so that loaders can be handed
//! to workers and gathered again. Only `insert` and `open` take memory. A loader is large, so it is
//! made into its box and taken apart out of it, and else a pointer moves.
ghost use Rattle.std.specs.Prelude.{◌≡◌, ◌<◌, ◌^◌, ◌∷◌, None, IfSome, IfNone, OnOk, IfErr, OnErr, Some, [], length};
ghost use Rattle.std.specs.Option.{option_copied, option_copied_mut, is_some};
ghost use Rattle.std.specs.List.{All};
ghost use Rattle.std.specs.Map.{values_of};
ghost use Rattle.std.specs.Borrow.{sem};
ghost use Rattle.ms_base.specs.Names.{AreNamed, named, with_new, without};
ghost use Rattle.ms_base.specs.declared.kind.Space.TheVariants.{NonClass, Class};
ghost use Rattle.ms_loader.specs.GivenBack.{AreAccountsOf, AreAccountsAt};
ghost use Rattle.ms_loader.specs.Loader.{IsSoundView, new_loader};
ghost use Rattle.ms_loader_map.specs.Loaders.{LendsLoader, InsertRefused};
ghost use Rattle.ms_loader.specs.Amounts.{amounts_at};
ghost use Rattle.ms_loader_map.specs.Used.{used_at};

mod boxed;
mod owners;
mod page;
mod slots;
mod spares;
mod walks;

use boxed::Boxed;
use ms_base::{Kind, Refusal};
use ms_loader::{Amounts, Loader};
use ms_pool::Account;
use owners::Owners;
use slots::Slots;
use spares::Spares;
use std::alloc::{AllocError, Global};
use std::marker::Model;
pub use walks::{Iter, Values};

/// Loaders by name. This project's choice; HotSpot's class loader data hang in a list.
pub struct Loaders {
    // Where the boxes and the pages come from.
    alloc: Global,
    // Each loader at its name.
    slots: Slots,
    // No loader stands below.
    first: usize,
    // How many there are.
    count: usize,
    // The name of each by the first of its owner numbers, as it was noted when it came.
    owners: Owners,
    // Loaders that were unloaded, for new ones.
    spares: Spares,
}

impl Drop for Loaders {
    /// Lets its parts go. Written out, so that crates above drop it by a call and see no part.
    fn drop(self) {
        let Loaders {
            alloc: _,
            slots: _,
            first: _,
            count: _,
            owners: _,
            spares: _,
        } = self;
    }
}

impl Model for Loaders {
    ghost use Rattle.std.specs.Prelude.{ℕ, List};
    ghost use Rattle.ms_loader.specs.Loader.{LoaderView};
    ghost use Rattle.ms_loader_map.specs.Slots.{AreKept, rest_of};

    ghost Value = { List (ℕ × LoaderView) };

    ghost view = { λ loaders. rest_of loaders.slots 0 };

    ghost invariant = { λ loaders. AreKept loaders.slots loaders.first loaders.count };
}

impl Loaders {
    /// Makes a list of no loader. Takes no memory.
    pub fn new(alloc: Global) -> Loaders
        ensures { result ≡ [] }
    {
        Loaders {
            alloc,
            slots: Slots::new(alloc),
            first: usize::MAX,
            count: 0,
            owners: Owners::new(alloc),
            spares: Spares::new(alloc),
        }
    }

    /// Adds a loader over two accounts, as `Loader::new` makes it, under a name that is not used: a
    /// spare one anew where there is one. Where memory is wanting, the accounts are given back and
    /// nothing changes. Takes memory.
    pub fn open(
        &mut self,
        alloc: Global,
        name: u16,
        account: Account,
        class_account: Account,
        kind: Kind,
    ) -> Result<(), (Account, Account)>
        requires unused { named self.old name ≡ None }
        requires empty { account.chunks ≡ [] }
        requires class_empty { class_account.chunks ≡ [] }
        requires spaces { (account.space ≡ NonClass) × (class_account.space ≡ Class) }
        ensures made { OnOk result (self.new ≡ with_new self.old name (new_loader account class_account kind)) }
        ensures sound { IsSoundView (new_loader account class_account kind) }
        ensures back { IfErr result (AreAccountsOf (new_loader account class_account kind)) }
        ensures unchanged { OnErr result (self.new ≡ self.old) }
    {
        let owner = account.owner();
        let boxed = match self.spares.make(alloc, name, account, class_account, kind) {
            Ok(boxed) => boxed,
            Err(accounts) => return Err(accounts),
        };
        if self.make_room(owner).is_err() {
            return Err(boxed.into_accounts());
        }
        match self.stand(owner, name, boxed) {
            Ok(()) => Ok(()),
            Err(boxed) => Err(boxed.into_accounts()),
        }
    }

    /// Makes room for what is noted of one more loader, by its first owner number, and for its room
    /// once it goes; the loaders stay. Takes memory.
    fn make_room(&mut self, owner: u32) -> Result<(), AllocError>
        ensures { self.new ≡ self.old }
    {
        self.owners.reserve(owner, &self.slots)?;
        self.spares.reserve(self.count + 1)
    }

    /// Puts a loader that is boxed with its name at that name, which is not used, and notes the
    /// name by its first owner number, for which there is room; or hands it back where memory is
    /// wanting. Takes memory.
    fn stand(&mut self, owner: u32, name: u16, boxed: Boxed) -> Result<(), Boxed>
        requires unused { named self.old name ≡ None }
        requires name_is { boxed.0 ≡ name }
        ensures stands { OnOk result (self.new ≡ with_new self.old name boxed.1) }
        ensures back { IfErr result (λ back. back ≡ boxed) }
        ensures unchanged { OnErr result (self.new ≡ self.old) }
    {
        match self.slots.put(self.alloc, name, boxed) {
            Ok(()) => {
                self.owners.note(owner, name);
                self.first = self.first.min(usize::from(name));
                self.count += 1;
                Ok(())
            }
            Err(boxed) => Err(boxed),
        }
    }

    /// Takes the loader of a name out in its box, where there is one; the others stay. What was
    /// noted of it stays.
    fn take_out(&mut self, name: u16) -> Option<Boxed>
        ensures found { IfSome result (λ boxed. named self.old name ≡ Some boxed.1) }
        ensures none { IfNone result (named self.old name ≡ None) }
        ensures rest { self.new ≡ without self.old name }
    {
        match self.slots.take(name) {
            Some(boxed) => {
                self.count -= 1;
                Some(boxed)
            }
            None => None,
        }
    }

    /// Takes the loader of a name out and apart, where there is one, and gives its accounts back,
    /// the class space's last; the others stay. It is kept to start anew where it is small and
    /// there is room. Takes no memory.
    pub fn close(&mut self, name: u16) -> Option<(Account, Account)>
        ensures found { IfSome result (AreAccountsAt self.old name) }
        ensures none { IfNone result (named self.old name ≡ None) }
        ensures rest { self.new ≡ without self.old name }
    {
        match self.take_out(name) {
            Some(boxed) => {
                let (account, class_account) = self.spares.close(self.alloc, boxed);
                self.owners.forget(account.owner());
                Some((account, class_account))
            }
            None => None,
        }
    }

    /// Adds a loader under a new name. Refused with `LoaderExists` where the name is used, and with
    /// `OutOfMemory`; then the loader is handed back and nothing changes. Takes memory.
    pub fn insert(&mut self, name: u16, loader: Loader) -> Result<(), (Refusal, Loader)>
        ensures fresh { OnOk result (named self.old name ≡ None) }
        ensures inserted { OnOk result (self.new ≡ with_new self.old name loader) }
        ensures refused { IfErr result (λ back. InsertRefused self.old name back.0) }
        ensures back { IfErr result (λ back. back.1 ≡ loader) }
        ensures unchanged { OnErr result (self.new ≡ self.old) }
    {
        if self.contains(name) {
            return Err((Refusal::LoaderExists, loader));
        }
        match self.add(name, loader) {
            Ok(()) => Ok(()),
            Err(loader) => Err((Refusal::OutOfMemory, loader)),
        }
    }

    /// Adds a loader under a name that is not used; or hands it back where memory is wanting, and
    /// then nothing changes. Takes memory.
    #[inline(always)]
    fn add(&mut self, name: u16, loader: Loader) -> Result<(), Loader>
        requires unused { named self.old name ≡ None }
        ensures added { OnOk result (self.new ≡ with_new self.old name loader) }
        ensures back { IfErr result (λ back. back ≡ loader) }
        ensures unchanged { OnErr result (self.new ≡ self.old) }
    {
        let owner = first_owner(&loader);
        if self.make_room(owner).is_err() {
            return Err(loader);
        }
        let boxed = match Boxed::new(self.alloc, name, loader) {
            Ok(boxed) => boxed,
            Err(loader) => return Err(loader),
        };
        match self.stand(owner, name, boxed) {
            Ok(()) => Ok(()),
            Err(boxed) => {
                let (_, loader) = boxed.into_named();
                Err(loader)
            }
        }
    }

    /// Takes the loader of a name out, where there is one; the others stay. Takes no memory.
    pub fn remove(&mut self, name: u16) -> Option<Loader>
        ensures found { result ≡ named self.old name }
        ensures rest { self.new ≡ without self.old name }
    {
        match self.take_out(name) {
            Some(boxed) => {
                let (_, loader) = boxed.into_named();
                let owner = first_owner(&loader);
                self.owners.forget(owner);
                Some(loader)
            }
            None => None,
        }
    }

    /// Takes the loader of the least name out, with its name, where there is any. Takes no memory.
    pub fn pop_first(&mut self) -> Option<(u16, Loader)>
        ensures first { IfSome result (λ taken. self.old ≡ taken ∷ self.new) }
        ensures none { result ≡ None → (self.old ≡ []) × (self.new ≡ []) }
    {
        let least = match self.slots.next(self.first) {
            Some((_, boxed)) => *boxed.name(),
            None => return None,
        };
        match self.slots.take(least) {
            Some(boxed) => {
                self.first = usize::from(least);
                self.count -= 1;
                let (name, loader) = boxed.into_named();
                let owner = first_owner(&loader);
                self.owners.forget(owner);
                Some((name, loader))
            }
            None => None,
        }
    }

    /// Lends the loader of a name, where there is one; the others stay as they are. Takes no
    /// memory.
    pub fn get_mut(&mut self, name: u16) -> Option<&mut Loader>
        ensures* writes_back { sem 𝓛 (LendsLoader self.entry name result) }
        ensures found { option_copied_mut result ≡ named self.old name }
    {
        self.slots.get_mut(name)
    }

    /// Lends the loader of a name to read, where there is one. Takes no memory.
    pub fn get(&self, name: u16) -> Option<&Loader>
        ensures { option_copied result ≡ named self.now name }
    {
        match self.slots.get(name) {
            Some(boxed) => Some(boxed.loader()),
            None => None,
        }
    }

    /// Returns whether a loader has the name. Takes no memory.
    pub fn contains(&self, name: u16) -> bool
        ensures { result ≡ is_some (named self.now name) }
    {
        self.get(name).is_some()
    }

    /// Returns the name that was noted of an owner number, where one was: that of the loader whose
    /// first number it is, if none was changed in its place. A guess, of which nothing is promised;
    /// whoever asks looks at the loader. Takes no memory.
    pub fn noted(&self, owner: u32) -> Option<u16> {
        self.owners.get(owner)
    }

    /// Returns the words in use of the loader of a name, in both spaces, and 0 where there is none.
    /// Takes no memory, and visits no chunk.
    pub fn used_by(&self, name: u16) -> u64
        ensures { result ≡ used_at (named self.now name) }
    {
        match self.get(name) {
            Some(loader) => loader.used(),
            None => 0,
        }
    }

    /// Returns the words of the loader of a name that are in use and those that are live, in each
    /// space, and 0 of all where there is none. Takes no memory, and visits no chunk and no block.
    pub fn amounts_by(&self, name: u16) -> Amounts
        ensures { result ≡ amounts_at (named self.now name) }
    {
        let Some(loader) = self.get(name) else {
            return Amounts::NONE;
        };
        loader.amounts()
    }

    /// Returns how many loaders there are, whose names rise. Takes no memory.
    pub fn len(&self) -> usize
        ensures count { result ≡ length self.now }
        ensures names { AreNamed self.now }
        ensures small { result < 2 ^ 63 }
    {
        self.count
    }

    /// Says what is true of all loaders: their names rise, and each is sound. Takes no memory, and
    /// visits each loader once.
    pub fn learn(&self)
        ensures names { AreNamed self.now }
        ensures sound { All IsSoundView (values_of self.now) }
    {
        for loader in self.values() {
            let _ = loader.accounts();
        }
    }

    /// Goes over the loaders in order of name, and names rise. Takes no memory.
    pub fn values(&self) -> Values<'_>
        ensures all { result ≡ values_of self.now }
        ensures names { AreNamed self.now }
    {
        Values::over(&self.slots)
    }

    /// Goes over the loaders with their names, in order of name. Takes no memory.
    pub fn iter(&self) -> Iter<'_>
        ensures { result ≡ self.now }
    {
        Iter::over(&self.slots)
    }
}

/// Returns the first of the loader's owner numbers, by which it is noted.
fn first_owner(loader: &Loader) -> u32
    ensures { result ≡ loader.now.owner }
{
    let (account, _) = loader.accounts();
    account.owner()
}
