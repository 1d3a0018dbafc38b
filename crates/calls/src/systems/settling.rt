//! The row of a system: blocks are freed, a loader is unloaded, nodes are purged; it is taken
//! apart, put together and settled, and refused with a loader held back.
use crate::pools::account_lines;
use crate::row::{line, mark};
use crate::systems::filled::{HIDDEN, filled};
use ms_base::{Block, Refusal, Step};
use ms_loaders::{Loader, Loaders, System};
use ms_pool::Pool;
use std::alloc::Global;
use std::io;

/// Steps that take no memory.
const STEPS: [Step; 5] = [
    Step::Write {
        loader: 2,
        block: 1,
        index: 19,
        value: 5,
    },
    Step::Read {
        loader: 2,
        block: 1,
        index: 19,
    },
    Step::Free {
        loader: 1,
        block: 1,
    },
    Step::Unload { loader: 7 },
    Step::Purge,
];

/// Prints the row.
pub(crate) fn tell_all(rt: &HostRuntime) -> io::Result<()> {
    let mut system = filled(rt.alloc(), &HIDDEN)?;
    mark(rt, "system");
    tell_system(rt, &system);
    tell_steps(rt, &mut system);
    tell_settled(rt, settled(rt.alloc(), system));
    Ok(())
}

/// Takes steps, and frees a block by where it lies, twice.
fn tell_steps(rt: &HostRuntime, system: &mut System) {
    for step in STEPS {
        line(rt, "system", &(step, system.step(step)));
    }
    for _ in 0..2 {
        let block = Block {
            start: 4096,
            words: 4000,
        };
        line(rt, "system free", &system.free_block(1, block));
    }
    tell_system(rt, system);
}

/// Takes a system apart, and puts it together again: as it came apart, and by settling.
fn settled(alloc: Global, system: System) -> Option<System> {
    let (pool, loaders) = system.into_parts();
    let (pool, loaders) = System::from_parts(alloc, pool, loaders).into_parts();
    System::settle(alloc, pool, loaders).ok()
}

/// Prints a system that was settled: a loader is unloaded, twice, and one is held back.
fn tell_settled(rt: &HostRuntime, settled: Option<System>) {
    let Some(mut system) = settled else {
        return line(rt, "system settled", &"none");
    };
    tell_system(rt, &system);
    line(rt, "system unload", &system.unload(1));
    line(rt, "system unload", &system.unload(1));
    line(rt, "system purge", &system.purge());
    tell_system(rt, &system);
    tell_held_back(rt, system);
}

/// Settles a system whose loader is held back.
fn tell_held_back(rt: &HostRuntime, system: System) {
    let (pool, mut loaders) = system.into_parts();
    match loaders.remove(2) {
        Some(loader) => {
            tell_parted(rt, loader);
            let left = System::settle(rt.alloc(), pool, loaders);
            tell_left(rt, &left);
            drop(left);
        }
        None => {
            drop(pool);
            drop(loaders);
            line(rt, "system without", &"none");
        }
    }
}

/// Prints what comes back of a system whose loader is held back: all parts.
fn tell_left(rt: &HostRuntime, settled: &Result<System, (Refusal, Pool, Loaders)>) {
    match settled {
        Ok(_) => line(rt, "system settled", &"without a loader"),
        Err((refusal, pool, loaders)) => {
            line(rt, "system refused", refusal);
            line(rt, "system left", &(pool.accounts(), loaders.used_by(3)));
        }
    }
}

/// Prints a loader that is held back: its kind, and its accounts.
fn tell_parted(rt: &HostRuntime, loader: Loader) {
    line(rt, "system without", &loader.kind());
    let (account, class_account) = loader.into_accounts();
    account_lines(rt, "system account", &account);
    account_lines(rt, "system account", &class_account);
}

/// Prints a system: its sums and counts, and those of some loaders and words.
fn tell_system(rt: &HostRuntime, system: &System) {
    line(
        rt,
        "system sums",
        &(system.committed(), system.used(), system.counts()),
    );
    line(rt, "system loaders", &system.loader_count());
    for name in [1, 2, 3, 4] {
        line(
            rt,
            "system loader",
            &(name, system.used_by(name), system.loader_totals(name)),
        );
    }
    for word in [0, 4096, 9000, 67108864] {
        line(
            rt,
            "system word",
            &(word, system.holder(word), system.is_committed(word / 8192)),
        );
    }
}
