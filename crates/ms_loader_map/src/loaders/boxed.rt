//! A loader in a box with its name: what stands at a slot, so that what is moved is a pointer.
ghost use Rattle.std.specs.Prelude.{◌≡◌, IfOk, IfErr, []};
ghost use Rattle.std.specs.Borrow.{sem};
ghost use Rattle.ms_base.specs.declared.kind.Space.TheVariants.{NonClass, Class};
ghost use Rattle.ms_loader_map.specs.Boxed.{LendsBoxed};
ghost use Rattle.ms_loader.specs.GivenBack.{AreAccountsOf};
ghost use Rattle.ms_loader.specs.Loader.{IsSoundView, new_loader};

use ms_base::{Kind, Space};
use ms_loader::Loader;
use ms_pool::Account;
use std::alloc::Global;
use std::marker::Model;

/// A loader in a box, with its name.
#[derive(Drop)]
pub(super) struct Boxed {
    named: Box<(u16, Loader)>,
}

impl Model for Boxed {
    ghost use Rattle.std.specs.Prelude.{ℕ};
    ghost use Rattle.ms_loader.specs.Loader.{LoaderView};

    ghost Value = { ℕ × LoaderView };

    ghost view = { λ boxed. boxed.named.value };
}

impl Boxed {
    /// Puts a loader into a box, or hands it back where memory is wanting. Takes memory.
    pub(super) fn new(alloc: Global, name: u16, loader: Loader) -> Result<Boxed, Loader>
        ensures boxed { IfOk result (λ boxed. boxed ≡ (name, loader)) }
        ensures back { IfErr result (λ back. back ≡ loader) }
    {
        match Box::new(alloc, (name, loader)) {
            Ok(named) => Ok(Boxed { named }),
            Err(failed) => {
                let (_, loader) = failed.value;
                Err(loader)
            }
        }
    }

    /// Makes a loader in a box over two accounts, as `Loader::new` does, or gives these back where
    /// memory is wanting. Takes memory.
    pub(super) fn made(
        alloc: Global,
        name: u16,
        account: Account,
        class_account: Account,
        kind: Kind,
    ) -> Result<Boxed, (Account, Account)>
        requires empty { account.chunks ≡ [] }
        requires class_empty { class_account.chunks ≡ [] }
        requires space { account.space ≡ NonClass }
        requires class_space { class_account.space ≡ Class }
        ensures made { IfOk result (λ boxed. boxed ≡ (name, new_loader account class_account kind)) }
        ensures sound { IsSoundView (new_loader account class_account kind) }
        ensures back { IfErr result (AreAccountsOf (new_loader account class_account kind)) }
    {
        into_box(
            alloc,
            name,
            Loader::new(alloc, account, class_account, kind),
        )
    }

    /// Starts the loader anew over two accounts, as `Loader::renew` does, under a name, and gives
    /// its former accounts back, the class space's last. Takes no memory.
    pub(super) fn renew(
        &mut self,
        name: u16,
        account: Account,
        class_account: Account,
        kind: Kind,
    ) -> (Account, Account)
        requires empty { account.chunks ≡ [] }
        requires class_empty { class_account.chunks ≡ [] }
        requires space { account.space ≡ NonClass }
        requires class_space { class_account.space ≡ Class }
        ensures former { AreAccountsOf self.old.1 result }
        ensures made { self.new ≡ (name, new_loader account class_account kind) }
        ensures sound { IsSoundView (new_loader account class_account kind) }
    {
        self.named.0 = name;
        self.named.1.renew(account, class_account, kind)
    }

    /// Has the loader keep its memory alone: its accounts are given back, the class space's last,
    /// and closed ones stand in their place. Takes no memory.
    pub(super) fn close(&mut self, alloc: Global) -> (Account, Account)
        ensures { AreAccountsOf self.old.1 result }
    {
        let account = Account::closed(alloc, Space::NonClass);
        let class_account = Account::closed(alloc, Space::Class);
        let kind = self.named.1.kind();
        self.named.1.renew(account, class_account, kind)
    }

    /// Gives the accounts back, the class space's last, and drops all else.
    #[inline(never)]
    pub(super) fn into_accounts(self) -> (Account, Account)
        ensures { AreAccountsOf self.1 result }
    {
        accounts_of(Box::into_inner(self.named))
    }

    /// Takes the loader out of its box, with its name.
    pub(super) fn into_named(self) -> (u16, Loader)
        ensures { result ≡ self }
    {
        Box::into_inner(self.named)
    }

    /// Lends the name to read.
    pub(super) fn name(&self) -> &u16
        ensures { result.now ≡ self.now.0 }
    {
        &self.named.0
    }

    /// Lends the loader to read.
    pub(super) fn loader(&self) -> &Loader
        ensures { result.now ≡ self.now.1 }
    {
        &self.named.1
    }

    /// Lends the loader.
    pub(super) fn loader_mut(&mut self) -> &mut Loader
        ensures* writes_back { sem 𝓛 (LendsBoxed self.entry result) }
        ensures value { result.now ≡ self.old.1 }
    {
        &mut self.named.1
    }
}

/// Puts a new loader into a box with its name, or gives its accounts back where memory is wanting.
#[inline(always)]
fn into_box(alloc: Global, name: u16, loader: Loader) -> Result<Boxed, (Account, Account)>
    ensures boxed { IfOk result (λ boxed. boxed ≡ (name, loader)) }
    ensures back { IfErr result (AreAccountsOf loader) }
{
    match Box::new(alloc, (name, loader)) {
        Ok(named) => Ok(Boxed { named }),
        Err(failed) => Err(accounts_of(failed.value)),
    }
}

/// Gives a loader's accounts back, the class space's last, and drops all else.
fn accounts_of(named: (u16, Loader)) -> (Account, Account)
    ensures { AreAccountsOf named.1 result }
{
    named.1.into_accounts()
}
