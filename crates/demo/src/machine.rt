//! The machine: a loader asks for blocks and goes; each reply is told, and what is held meanwhile.
use ms_base::{Kind, Settings, Step};
use ms_loaders::System;
use std::io;

/// Steps a system, and prints its replies.
pub(crate) fn show(rt: &HostRuntime) -> io::Result<()> {
    let mut system = System::new(rt.alloc(), Settings::DEFAULT)?;
    let told = step(rt, &mut system);
    drop(system);
    told
}

/// Takes the steps.
fn step(rt: &HostRuntime, system: &mut System) -> io::Result<()> {
    let (loader, kind) = (1, Kind::Standard);
    println!(rt; "new: {:?}", system.step(Step::New { loader, kind }))?;
    for (block, words) in [(1, 100), (2, 4000), (3, 600000)] {
        let reply = system.step(Step::Alloc {
            loader,
            block,
            words,
        });
        println!(rt; "{words} words: {reply:?}")?;
    }
    let space = system.totals()?.space;
    println!(rt; "live {}, committed {}", space.live, space.committed)?;
    println!(rt; "unload: {:?}", system.step(Step::Unload { loader }))?;
    println!(rt; "committed {}", system.committed())
}
