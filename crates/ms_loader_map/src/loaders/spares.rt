//! Loaders that were unloaded, each in its box, for new ones.
//!
//!     unload ──> | closed | closed | closed |  room   |  room   | ──> new       at most 64, each small
//!
//! Where loaders come and go, each would ask for the memory of its arenas and names anew. Nothing
//! outside rests on which loaders are here: one that starts anew is as new as any. Only `reserve`
//! and `make` take memory, the latter where none is here: there is room for each loader, since it
//! was made when the loader came.
ghost use Rattle.std.specs.Prelude.{◌≡◌, IfOk, IfErr, []};
ghost use Rattle.ms_base.specs.declared.kind.Space.TheVariants.{NonClass, Class};
ghost use Rattle.ms_loader.specs.GivenBack.{AreAccountsOf};
ghost use Rattle.ms_loader.specs.Loader.{IsSoundView, new_loader};

use super::boxed::Boxed;
use ms_base::Kind;
use ms_pool::Account;
use std::alloc::{AllocError, Global};
use std::marker::Model;

/// How many loaders are kept at most.
const MOST: usize = 64;

/// Loaders that are spare.
#[derive(Drop)]
pub(super) struct Spares {
    boxes: Vec<Boxed>,
}

impl Model for Spares {
    ghost Value = { Unit {0} };

    ghost view = { λ spares. tt };
}

impl Spares {
    /// Makes a list of no loader. Takes no memory.
    pub(super) fn new(alloc: Global) -> Spares {
        Spares {
            boxes: Vec::new(alloc),
        }
    }

    /// Makes room for so many loaders, but for no more than are kept at most. Takes memory.
    pub(super) fn reserve(&mut self, loaders: usize) -> Result<(), AllocError> {
        let wanted = loaders.min(MOST);
        self.boxes.reserve(wanted.saturating_sub(self.boxes.len()))
    }

    /// Makes a loader in a box over two accounts, as `Boxed::made` does: a spare one anew where
    /// there is one, else one that takes memory.
    pub(super) fn make(
        &mut self,
        alloc: Global,
        name: u16,
        account: Account,
        class_account: Account,
        kind: Kind,
    ) -> Result<Boxed, (Account, Account)>
        requires empty { account.chunks ≡ [] }
        requires class_empty { class_account.chunks ≡ [] }
        requires space { account.space ≡ NonClass }
        requires class_space { class_account.space ≡ Class }
        ensures made { IfOk result (λ boxed. boxed ≡ (name, new_loader account class_account kind)) }
        ensures sound { IsSoundView (new_loader account class_account kind) }
        ensures back { IfErr result (AreAccountsOf (new_loader account class_account kind)) }
    {
        match self.boxes.pop() {
            Some(mut boxed) => {
                let _ = boxed.renew(name, account, class_account, kind);
                Ok(boxed)
            }
            None => Boxed::made(alloc, name, account, class_account, kind),
        }
    }

    /// Gives the accounts of a loader back, the class space's last. It is kept where it is small
    /// and there is room, else dropped. Takes no memory.
    pub(super) fn close(&mut self, alloc: Global, mut boxed: Boxed) -> (Account, Account)
        ensures { AreAccountsOf boxed.1 result }
    {
        let len = self.boxes.len();
        if len < MOST && len < self.boxes.capacity() && boxed.loader().is_small() {
            let accounts = boxed.close(alloc);
            self.boxes.push_reserved(boxed);
            accounts
        } else {
            boxed.into_accounts()
        }
    }
}
