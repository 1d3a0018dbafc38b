//! What no clause says: that a trace is printed as the text that was meant and reads back, that
//! calls succeed where there is memory, and how faults of reading are printed. Which fault a text
//! has, and what the fields of a command ask, the system tests say.
use super::same;
use ms_base::{Kind, Step};
use ms_trace::{
    Command, FaultKind, Line, Lines, ParseFault, Trace, TraceFault, laws, parse, print,
};
use std::alloc::{AllocError, Global};
use std::process::Abort;

/// The trace of these lines.
fn trace_of(alloc: Global, lines: &[(u32, Command)]) -> Result<Trace, AllocError> {
    let mut items = Vec::with_capacity(alloc, lines.len())?;
    for line in lines {
        items.push(Line::new(line.0, line.1))?;
    }
    Ok(Trace {
        lines: Lines::from_vec(items),
    })
}

/// The text of these lines, none where they may not be printed.
fn printed(alloc: Global, trace: &Trace) -> Result<Vec<u8>, AllocError> {
    if trace.rises() {
        print(alloc, trace)
    } else {
        Ok(Vec::new(alloc))
    }
}

/// Lines with gaps between their numbers, and a command of each sort.
const LINES: [(u32, Command); 10] = [
    (
        2,
        Command::Step(Step::New {
            loader: 7,
            kind: Kind::Reflection,
        }),
    ),
    (
        3,
        Command::Step(Step::Alloc {
            loader: 7,
            block: 0,
            words: u64::MAX,
        }),
    ),
    (
        4,
        Command::Step(Step::Calloc {
            loader: 7,
            block: 4294967295,
            words: 1,
        }),
    ),
    (
        6,
        Command::Step(Step::Write {
            loader: 7,
            block: 0,
            index: u64::MAX,
            value: 2,
        }),
    ),
    (
        7,
        Command::Step(Step::Read {
            loader: 7,
            block: 0,
            index: 1,
        }),
    ),
    (
        8,
        Command::Step(Step::Free {
            loader: 7,
            block: 0,
        }),
    ),
    (9, Command::Step(Step::Unload { loader: 65535 })),
    (10, Command::Step(Step::Purge)),
    (11, Command::Sync),
    (13, Command::Report),
];

/// Their text, with an empty line for each that is missing.
const TEXT: &[u8] = b"\nnew 7 reflection\nalloc 7 0 18446744073709551615\ncalloc 7 4294967295 1\n\n\
    write 7 0 18446744073709551615 2\nread 7 0 1\nfree 7 0\nunload 65535\npurge\nsync\n\n\
    report\n";

/// Returns whether a text reads as a trace.
fn reads_as(alloc: Global, text: &[u8], trace: &Trace) -> Result<bool, ParseFault> {
    let back = parse(alloc, text)?;
    let is_same = back.lines.as_slice() == trace.lines.as_slice();
    drop(back);
    Ok(is_same)
}

/// Prints a trace: whether that is the text that was meant, and whether it reads back.
fn printed_back(rt: &(impl Abort + AllocGlobal), trace: &Trace) -> (bool, bool) {
    let text = printed(rt.alloc(), trace).expect(rt, "memory is ample");
    let is_meant = text.as_slice() == TEXT;
    let reads_back = reads_as(rt.alloc(), text.as_slice(), trace);
    drop(text);
    (is_meant, reads_back.expect(rt, "it reads"))
}

#[test]
fn a_trace_is_printed_with_its_gaps(rt: HostRuntime) {
    let trace = trace_of(rt.alloc(), LINES.as_slice()).expect(&rt, "memory is ample");
    let told = printed_back(&rt, &trace);
    drop(trace);
    same(&rt, &told, &(true, true));
}

/// Returns whether lines of these numbers may be printed, where there is memory for them.
fn rises(alloc: Global, first: u32, second: u32) -> Option<bool> {
    let lines = [(first, Command::Step(Step::Purge)), (second, Command::Sync)];
    let trace = trace_of(alloc, lines.as_slice()).ok()?;
    let rises = trace.rises();
    drop(trace);
    Some(rises)
}

#[test]
fn only_rising_numbers_up_to_100000_may_be_printed(rt: HostRuntime) {
    let told = [
        rises(rt.alloc(), 0, 1),
        rises(rt.alloc(), 1, 1),
        rises(rt.alloc(), 2, 1),
        rises(rt.alloc(), 1, 100_000),
        rises(rt.alloc(), 1, 100_001),
    ];
    let (no, yes) = (Some(false), Some(true));
    same(&rt, &told, &[no, no, no, yes, no]);
}

#[test]
fn faults_of_reading_are_printed(rt: HostRuntime) {
    let fault = ParseFault::Trace(TraceFault {
        line: 7,
        kind: FaultKind::BadKind,
    });
    let told = format!(in rt.alloc(); "{fault}, {}", ParseFault::OutOfMemory).expect(
        &rt,
        "memory is ample",
    );
    same(&rt, &told.as_str(), &"line 7: BadKind, out of memory");
}

#[test]
fn each_law_stands(_rt: HostRuntime) {
    laws::never_both();
    laws::one_of_the_two();
    laws::one_trace();
    laws::one_fault();
    laws::numbers_rise();
    laws::printed_reads();
}
