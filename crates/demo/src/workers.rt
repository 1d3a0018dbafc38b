//! Two loaders that two threads work over one pool: at the end of each phase pool and loaders are
//! settled to one system, and the workers change seats. Whatever the schedule, each line is
//! answered so; the words in use are those of the loader that is left.
use ms_base::{Policy, Reply, Settings};
use ms_run::{NoGate, replay};
use ms_trace::parse;
use std::io;
use std::sync::Wait;
use std::thread::Threads;

/// A phase that makes two loaders, one that works both, and a report.
const TRACE: &[u8] = b"new 1 standard\nnew 2 boot\nalloc 1 1 4000\nalloc 2 1 300000\nsync\n\
    alloc 1 2 100\nunload 2\nalloc 1 1 5\nreport\n";

/// Replays the trace, and returns the answers.
pub(crate) fn show<R: Threads + Wait + Sync>(rt: &HostRuntime, waits: &R) -> io::Result<()> {
    let settings = Settings {
        workers: 2,
        nodes: 2,
        max_granules: 128,
        policy: Policy::Balanced,
        class_nodes: 0,
    };
    let Ok(trace) = parse(rt.alloc(), TRACE) else {
        return println!(rt; "the trace is not read");
    };
    let Ok(replies) = replay(waits, rt.alloc(), &trace, settings, &NoGate) else {
        return println!(rt; "memory or a thread is wanting");
    };
    for answer in &replies.answers {
        match answer.reply {
            Reply::At(_) => println!(rt; "line {}: a block", answer.line)?,
            reply => println!(rt; "line {}: {reply:?}", answer.line)?,
        }
        if let Some(totals) = &answer.report {
            println!(rt; "loaders {}, live {}", totals.loaders, totals.space.live)?;
        }
    }
    Ok(())
}
