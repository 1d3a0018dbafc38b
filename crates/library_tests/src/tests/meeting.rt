//! What no clause says: that two workers really run side by side in a long phase too, whatever the
//! number of its lines.
use super::same;
use ms_base::{Policy, Settings};
use ms_run::{Gate, replay};
use ms_trace::parse;
use std::alloc::{AllocError, Global};
use std::process::Abort;
use std::sync::Wait;
use std::sync::atomic::{AtomicU64, Ordering};
use std::thread;
use std::thread::Threads;

/// Holds each of two workers at its first line until the other has come to its own.
#[derive(Drop)]
struct FirstLines {
    first: AtomicU64,
    second: AtomicU64,
    missed: AtomicU64,
}

impl Gate for FirstLines {
    fn before(&self, worker: usize, _line: u32) {
        let (mine, other) = if worker == 0 {
            (&self.first, &self.second)
        } else {
            (&self.second, &self.first)
        };
        if mine.swap(1, Ordering::SeqCst) == 1 {
            return;
        }
        for _ in 0..1_000_000 {
            if other.load(Ordering::SeqCst) == 1 {
                return;
            }
            thread::yield_now();
        }
        self.missed.fetch_add(1, Ordering::SeqCst);
    }

    fn after(&self, _worker: usize, _line: u32, _used: u64) {}
}

/// Makes a phase of so many lines: two loaders, and blocks of each by turns.
fn phase_of(alloc: Global, lines: u32) -> Result<String, AllocError> {
    let mut text = String::from_str(alloc, "new 1 standard\nnew 2 standard\n")?;
    for block in 2..lines {
        writeln!(text, "alloc {} {block} 1", 1 + block % 2)?;
    }
    Ok(text)
}

/// Replays a phase by two workers that meet: how often one missed the other, and how many lines
/// were answered.
fn met(rt: &(impl Abort + AllocGlobal + Threads + Wait + Sync), text: &str) -> (u64, usize) {
    let gate = FirstLines {
        first: AtomicU64::new(0),
        second: AtomicU64::new(0),
        missed: AtomicU64::new(0),
    };
    let settings = Settings {
        workers: 2,
        nodes: 1,
        max_granules: 128,
        policy: Policy::Balanced,
        class_nodes: 0,
    };
    let trace = parse(rt.alloc(), text.as_bytes()).expect(rt, "no trace");
    let replayed = replay(rt, rt.alloc(), &trace, settings, &gate);
    drop(trace);
    let replies = replayed.expect(rt, "no replies");
    (gate.missed.load(Ordering::SeqCst), replies.answers.len())
}

#[test]
fn two_workers_meet_in_long_phases(rt: HostRuntime) {
    for lines in [70, 5000] {
        let text = phase_of(rt.alloc(), lines).expect(&rt, "memory is ample");
        let told = met(&rt, text.as_str());
        drop(text);
        same(&rt, &told, &(0, lines as usize));
    }
}
