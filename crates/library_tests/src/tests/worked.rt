//! Worked rows over a system. Of each step a row gives the reply, with the numbers that a refusal
//! carries, then the granules that are committed, the roots of the reserved nodes, and how many
//! roots of each space are free as a whole. At the end it gives what no report shows: where the
//! chunks of each loader lie, and how far they are committed. All were worked by hand, and none is
//! from a run.
mod blocks;
mod limits;
mod spaces;
mod unloading;

use super::same;
use ms_arena::ArenaTotals;
use ms_base::{Reply, Settings};
use ms_loaders::{Loader, Loaders, System};
use ms_pool::Account;
use ms_trace::{Command, Trace, parse};
use std::alloc::{AllocError, Global};
use std::process::Abort;

/// A trace that has steps alone, and what a system makes of it.
struct Row {
    trace: &'static str,
    wanted: &'static str,
}

/// Adds a reply and the state after it, on a line.
fn push_step(
    alloc: Global,
    text: &mut String,
    system: &System,
    reply: Reply,
) -> Result<(), AllocError> {
    let granules = system.counts().granules;
    let start = format!(in alloc; "{reply:?}; granules {granules}; roots")?;
    text.push_str(start.as_str())?;
    for map in &system.maps()? {
        let root = format!(in alloc; " {}", map.root)?;
        text.push_str(root.as_str())?;
    }
    push_free_roots(alloc, text, system)
}

/// Adds how many roots are free as a whole, in both spaces, and ends the line.
fn push_free_roots(alloc: Global, text: &mut String, system: &System) -> Result<(), AllocError> {
    let totals = system.totals()?;
    let (free, of_classes) = (totals.space.free[0], totals.class_space.free[0]);
    drop(totals);
    let end = format!(in alloc; "; free {free} and {of_classes}\n")?;
    text.push_str(end.as_str())
}

/// Takes the steps of a trace, and adds a line for each.
fn push_steps(
    alloc: Global,
    text: &mut String,
    system: &mut System,
    trace: &Trace,
) -> Result<(), AllocError> {
    for line in trace.lines.as_slice() {
        if let Command::Step(step) = line.command() {
            for reply in &system.run(&[step])? {
                push_step(alloc, text, system, *reply)?;
            }
        }
    }
    Ok(())
}

/// Adds the chunks of an account, in the order in which it took them.
fn push_chunks(alloc: Global, text: &mut String, account: &Account) -> Result<(), AllocError> {
    for index in 0..account.held() {
        let chunk = account.chunk(index);
        let (start, level, front) = (chunk.start, chunk.level.number(), chunk.front);
        let told = format!(in alloc; "  at {start} of level {level}, front {front}\n")?;
        text.push_str(told.as_str())?;
    }
    Ok(())
}

/// Adds the sums of an arena that holds a chunk.
fn push_sums(alloc: Global, text: &mut String, sums: &ArenaTotals) -> Result<(), AllocError> {
    if sums.chunks == 0 {
        return Ok(());
    }
    let (used, live, free, waste) = (sums.used, sums.live, sums.free_blocks, sums.waste);
    let told = format!(in alloc; "  used {used}, live {live}, free {free}, waste {waste}\n")?;
    text.push_str(told.as_str())
}

/// Adds a loader: the chunks of each of its arenas, and the sums.
fn push_loader(
    alloc: Global,
    text: &mut String,
    name: u16,
    loader: &Loader,
) -> Result<(), AllocError> {
    let start = format!(in alloc; "loader {name}\n")?;
    text.push_str(start.as_str())?;
    let (account, class_account) = loader.accounts();
    let (sums, class_sums) = loader.totals();
    push_chunks(alloc, text, account)?;
    push_sums(alloc, text, &sums)?;
    push_chunks(alloc, text, class_account)?;
    push_sums(alloc, text, &class_sums)
}

/// Adds all loaders, in order of name.
fn push_loaders(alloc: Global, text: &mut String, loaders: &Loaders) -> Result<(), AllocError> {
    for (name, loader) in loaders.iter() {
        push_loader(alloc, text, *name, loader)?;
    }
    Ok(())
}

/// Adds what a new system makes of a trace.
fn push_all(
    alloc: Global,
    text: &mut String,
    settings: Settings,
    trace: &Trace,
) -> Result<(), AllocError> {
    let mut system = System::new(alloc, settings)?;
    let stepped = push_steps(alloc, text, &mut system, trace);
    let (pool, loaders) = system.into_parts();
    drop(pool);
    let listed = push_loaders(alloc, text, &loaders);
    drop(loaders);
    stepped?;
    listed
}

/// Runs each row's trace by a new system of these settings, and compares what is made of it.
fn expect_worked(rt: &(impl Abort + AllocGlobal), settings: Settings, rows: &[Row]) {
    for row in rows {
        let trace = parse(rt.alloc(), row.trace.as_bytes()).expect(rt, "it is a trace");
        let mut text = String::new(rt.alloc());
        let pushed = push_all(rt.alloc(), &mut text, settings, &trace);
        drop(trace);
        pushed.expect(rt, "memory is ample");
        same(rt, &text.as_str(), &row.wanted);
        drop(text);
    }
}
