//! The smallest programs over the library, each in a module of its own: the machine, one arena over
//! a pool alone, a pool that two seats share, and loaders that two threads work.
#![tactic(auto)]

mod arena;
mod machine;
mod seats;
mod workers;

use std::io;

fn main(rt: HostRuntime) -> io::Result<()> {
    machine::show(&rt)?;
    arena::show(&rt)?;
    seats::show(&rt)?;
    workers::show(&rt, &rt)
}
