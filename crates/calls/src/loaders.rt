//! The rows of loaders by name: one is put among them; their words are written and read, blocks are
//! freed, they go.
pub(crate) mod held;

use crate::loaders::held::tell_all_places;
use crate::pools::{account_lines, tell_account};
use crate::row::{Answer, Probed, Row, line, mark, say, served, tell, told};
use crate::systems::filled::{FREED, HIDDEN, filled};
use ms_base::{Block, Kind};
use ms_loaders::{Loader, Loaders};
use ms_pool::Pool;
use std::alloc::Global;
use std::{io, mem};

/// Prints the row.
pub(crate) fn tell_all(rt: &HostRuntime) -> io::Result<()> {
    let system = filled(rt.alloc(), &HIDDEN)?;
    mark(rt, "loaders");
    let (mut pool, mut loaders) = system.into_parts();
    loaders_lines(rt, &loaders);
    tell_words(rt, &mut loaders);
    tell_freed(rt, &mut loaders);
    tell_gone(rt, &mut loaders);
    drop(loaders);
    tell_new(rt, &mut pool);
    drop(pool);
    Ok(())
}

/// Writes words of blocks, and reads them.
fn tell_words(rt: &HostRuntime, loaders: &mut Loaders) {
    for (name, block, index) in [(1, 2, 3999), (2, 1, 19), (2, 1, 20), (2, 2, 0)] {
        let Some(loader) = loaders.get_mut(name) else {
            return line(rt, "loaders word", &"none is lent");
        };
        let (written, read) = (loader.write(block, index, 7), loader.read(block, index));
        line(rt, "loaders word", &(name, block, index, written, read));
    }
}

/// Frees a block by its name, twice.
fn tell_freed(rt: &HostRuntime, loaders: &mut Loaders) {
    let Some(loader) = loaders.get_mut(1) else {
        return line(rt, "loaders free", &"none is lent");
    };
    line(rt, "loaders free", &(loader.free(2), loader.free(2)));
    loaders_lines(rt, loaders);
}

/// Takes the loaders out.
fn tell_gone(rt: &HostRuntime, loaders: &mut Loaders) {
    tell_removed(rt, loaders);
    tell_removed(rt, loaders);
    tell_first(rt, loaders);
    tell_first(rt, loaders);
    loaders_lines(rt, loaders);
}

/// Takes a loader out by its name, where it is there.
fn tell_removed(rt: &HostRuntime, loaders: &mut Loaders) {
    match loaders.remove(2) {
        Some(loader) => tell_parted(rt, loader),
        None => line(rt, "loaders remove", &false),
    }
}

/// Takes the first loader out, where there is one.
fn tell_first(rt: &HostRuntime, loaders: &mut Loaders) {
    match loaders.pop_first() {
        Some((name, loader)) => {
            line(rt, "loaders first", &name);
            tell_parted(rt, loader);
        }
        None => line(rt, "loaders first", &false),
    }
}

/// Makes a loader over new accounts, and loaders without one.
fn tell_new(rt: &HostRuntime, pool: &mut Pool) {
    let Ok((account, class_account)) = pool.open_both() else {
        return line(rt, "loaders new", &"no accounts are opened");
    };
    let loader = Loader::new(rt.alloc(), account, class_account, Kind::Hidden);
    loader_lines(rt, &loader);
    tell_parted(rt, loader);
    loaders_lines(rt, &Loaders::new(rt.alloc()));
}

/// Prints the accounts of a loader that has gone.
fn tell_parted(rt: &HostRuntime, loader: Loader) {
    let (account, class_account) = loader.into_accounts();
    account_lines(rt, "loaders account", &account);
    account_lines(rt, "loaders account", &class_account);
}

/// Prints loaders: how many, and each by its name.
fn loaders_lines(rt: &HostRuntime, loaders: &Loaders) {
    loaders.learn();
    line(rt, "loaders count", &loaders.len());
    for name in 1..5 {
        let found = (loaders.contains(name), loaders.get(name).is_some());
        line(rt, "loaders at", &(name, found, loaders.used_by(name)));
    }
    for (name, loader) in loaders.iter() {
        line(rt, "loaders name", &name);
        loader_lines(rt, loader);
    }
    for loader in loaders.values() {
        line(rt, "loaders use", &loader.used());
    }
}

/// Prints a loader: its kind, its sums, its accounts, and the names of some blocks.
fn loader_lines(rt: &HostRuntime, loader: &Loader) {
    line(rt, "loaders of", &(loader.kind(), loader.totals()));
    for (start, words) in [(0, 10), (4096, 4000), (67108864, 20)] {
        line(
            rt,
            "loaders block",
            &(start, loader.name_of(Block { start, words })),
        );
    }
    let (account, class_account) = loader.accounts();
    account_lines(rt, "loaders account", account);
    account_lines(rt, "loaders account", class_account);
}

/// The name of the loader that is put.
const NAME: u16 = 7;

/// Prints a loader: its kind, the sums over its arenas, and its accounts.
fn tell_loader(rt: &HostRuntime, loader: &Loader) {
    tell(rt, &(loader.kind(), loader.totals()));
    tell(rt, &(loader.read(1, 19), loader.read(2, 0)));
    let (account, class_account) = loader.accounts();
    tell_account(rt, account);
    tell_account(rt, class_account);
}

/// Loaders, and one that is to be put under its name.
#[derive(Drop)]
pub(crate) struct Inserting {
    loaders: Loaders,
    loader: Option<Loader>,
}

impl Inserting {
    /// Prepares a loader with a block, and none under a name.
    pub(crate) fn prepared(alloc: Global) -> io::Result<Inserting> {
        let (pool, mut others) = filled(alloc, &FREED)?.into_parts();
        drop(pool);
        let loader = others.remove(2);
        drop(others);
        let loaders = Loaders::new(alloc);
        Ok(Inserting { loaders, loader })
    }
}

impl Inserting {
    /// Puts the loader under its name, or has it back.
    fn put(&mut self, rt: &HostRuntime, loader: Loader) -> Answer {
        match self.loaders.insert(NAME, loader) {
            Ok(()) => served(rt),
            Err((refusal, loader)) => {
                drop(mem::replace(&mut self.loader, Some(loader)));
                told::<()>(rt, Err(refusal))
            }
        }
    }
}

impl Row for Inserting {
    fn tell_state(&mut self, rt: &HostRuntime) -> io::Result<()> {
        tell(rt, &self.loaders.len());
        for (name, loader) in self.loaders.iter() {
            tell(rt, &name);
            tell_loader(rt, loader);
        }
        say(rt, "to be put:");
        if let Some(loader) = &self.loader {
            tell_loader(rt, loader);
        }
        Ok(())
    }

    fn call(&mut self, rt: &HostRuntime) -> Answer {
        match self.loader.take() {
            Some(loader) => self.put(rt, loader),
            None => {
                say(rt, "no loader was handed back");
                Answer::Served
            }
        }
    }
}

impl Probed for Inserting {
    fn probe(mut self, rt: &HostRuntime) -> io::Result<()> {
        let told = tell_all_places(rt, &mut self.loaders);
        drop(self);
        told
    }
}
