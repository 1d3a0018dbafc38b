//! The row of a replay: the same trace, once more where something was wanted.
use crate::row::{say, tell};
use ms_answers::Verbosity;
use ms_base::{Policy, Refusal, Reply, Settings};
use ms_loaders::{Answer, Replies, Totals};
use ms_run::{NoGate, replay_detailed};
use ms_trace::{ParseFault, Trace, parse};
use std::io::{self, ErrorKind, Read};
use std::sync::Wait;
use std::thread::Threads;

/// Reads the trace and prints the row, by as many workers as a word says.
pub(crate) fn tell_calls<R: Threads + Wait + Sync>(
    rt: &HostRuntime,
    waits: &R,
    word: &str,
) -> io::Result<()> {
    let settings = settings_of(word)?;
    let trace = read_trace(rt)?;
    if tell_call(rt, waits, "answer", &trace, settings) {
        let _ = tell_call(rt, waits, "again", &trace, settings);
    }
    Ok(())
}

/// Reads the number of workers; there is a class space of one node.
fn settings_of(word: &str) -> io::Result<Settings> {
    match word.parse::<u32>() {
        Ok(workers) if workers >= 1 && workers <= 8 => Ok(Settings {
            workers,
            nodes: 64,
            max_granules: 8192,
            policy: Policy::Balanced,
            class_nodes: 1,
        }),
        _ => Err(ErrorKind::InvalidInput.into()),
    }
}

/// Reads the trace.
pub(crate) fn read_trace(rt: &HostRuntime) -> io::Result<Trace> {
    let mut text = Vec::new(rt.alloc());
    let mut input = rt.stdin();
    input.read_to_end(&mut text)?;
    match parse(rt.alloc(), &text) {
        Ok(trace) => Ok(trace),
        Err(ParseFault::OutOfMemory) => Err(ErrorKind::OutOfMemory.into()),
        Err(_) => Err(ErrorKind::InvalidData.into()),
    }
}

/// Replays the trace and prints the answers; returns whether memory or a thread was wanted.
fn tell_call<R: Threads + Wait + Sync>(
    rt: &HostRuntime,
    waits: &R,
    word: &str,
    trace: &Trace,
    settings: Settings,
) -> bool {
    match replay_detailed(waits, rt.alloc(), trace, settings, Verbosity::Full, &NoGate) {
        Ok(replies) => {
            let is_wanted = tell_replies(rt, word, settings.workers == 1, &replies);
            drop(replies);
            is_wanted
        }
        Err(fault) => {
            let _ = println!(rt; "replay {word} fault {fault:?}");
            true
        }
    }
}

/// Prints what each line is answered; returns whether memory was wanted.
fn tell_replies(rt: &HostRuntime, word: &str, alone: bool, replies: &Replies) -> bool {
    let mut wanted = false;
    for answer in &replies.answers {
        let _ = print!(rt; "replay {word} {}", answer.line);
        tell_answer(rt, alone, answer);
        let _ = println!(rt; "");
        wanted = wanted || answer.reply == Reply::Refused(Refusal::OutOfMemory);
    }
    wanted
}

/// Prints a reply, where no schedule changes it: where a block starts of one worker alone.
fn tell_answer(rt: &HostRuntime, alone: bool, answer: &Answer) {
    match answer.reply {
        Reply::At(_) if !alone => say(rt, "At"),
        reply => tell(rt, &reply),
    }
    if let Some(totals) = &answer.report {
        tell_fixed(rt, totals);
    }
}

/// Prints the sums that no schedule changes.
fn tell_fixed(rt: &HostRuntime, totals: &Totals) {
    tell(
        rt,
        &(totals.loaders, totals.space.live, totals.class_space.live),
    );
    for row in &totals.rows {
        tell(rt, &(row.name, row.kind, row.live));
    }
}
