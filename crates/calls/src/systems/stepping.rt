//! The row of a run: a new system runs the steps of a trace, and another one the same steps where
//! memory was wanted.
use crate::row::tell;
use crate::runs::read_trace;
use ms_base::{Policy, Refusal, Reply, Settings, Space, Step};
use ms_loaders::{Loader, System};
use ms_trace::{Command, Trace};
use std::alloc::Global;
use std::io::{self, ErrorKind};

/// Reads the trace and prints the row, with as many granules for the limit as a word says.
pub(crate) fn tell_all(rt: &HostRuntime, word: &str) -> io::Result<()> {
    let settings = settings_of(word)?;
    let trace = read_trace(rt)?;
    let steps = steps_of(rt.alloc(), &trace)?;
    if tell_run(rt, ["answer", "left"], &trace, &steps, settings)? {
        tell_run(rt, ["again", "left_again"], &trace, &steps, settings)?;
    }
    Ok(())
}

/// Reads the limit of granules.
fn settings_of(word: &str) -> io::Result<Settings> {
    match word.parse::<u64>() {
        Ok(max_granules) if max_granules >= 1 && max_granules <= 40960 => Ok(Settings {
            workers: 1,
            nodes: 64,
            max_granules,
            policy: Policy::Balanced,
            class_nodes: 0,
        }),
        _ => Err(ErrorKind::InvalidInput.into()),
    }
}

/// Lists the steps of a trace, each line of which is one.
fn steps_of(alloc: Global, trace: &Trace) -> io::Result<Vec<Step>> {
    let mut steps = Vec::new(alloc);
    for line in trace.lines.as_slice() {
        match line.command() {
            Command::Step(step) => steps.push(step)?,
            _ => return Err(ErrorKind::InvalidData.into()),
        }
    }
    Ok(steps)
}

/// Has a new system run the steps, and prints the lines' answers and what is left, each by its
/// word; returns whether memory was wanted.
fn tell_run(
    rt: &HostRuntime,
    words: [&str; 2],
    trace: &Trace,
    steps: &[Step],
    settings: Settings,
) -> io::Result<bool> {
    let [word, left] = words;
    let mut system = System::new(rt.alloc(), settings)?;
    let is_wanted = match system.run(steps) {
        Ok(replies) => tell_replies(rt, word, trace, &replies),
        Err(_) => {
            let _ = println!(rt; "steps {word} fault OutOfMemory");
            true
        }
    };
    tell_left(rt, left, system);
    Ok(is_wanted)
}

/// Prints the reply to each line; returns whether memory was wanted.
fn tell_replies(rt: &HostRuntime, word: &str, trace: &Trace, replies: &[Reply]) -> bool {
    let mut wanted = false;
    for (line, reply) in trace.lines.as_slice().iter().zip(replies) {
        let _ = println!(rt; "steps {word} {} {reply:?}", line.number());
        wanted = wanted || *reply == Reply::Refused(Refusal::OutOfMemory);
    }
    wanted
}

/// Prints what a system holds: the sums over its pool, and of each loader the sums and the chunks.
fn tell_left(rt: &HostRuntime, word: &str, system: System) {
    let _ = print!(rt; "steps {word}");
    let (pool, loaders) = system.into_parts();
    tell(rt, &pool.all_totals(Space::NonClass));
    drop(pool);
    for (name, loader) in loaders.iter() {
        tell(rt, name);
        tell_loader(rt, loader);
    }
    drop(loaders);
    let _ = println!(rt; "");
}

/// Prints a loader: its kind, its sums, and its chunks.
fn tell_loader(rt: &HostRuntime, loader: &Loader) {
    let (sums, _) = loader.totals();
    tell(rt, &(loader.kind(), sums));
    let (account, _) = loader.accounts();
    for index in 0..account.held() {
        tell(rt, &account.chunk(index));
    }
}
