//! What no clause says: that a replay answers where memory and threads are ample, that two workers
//! really run side by side, which worker works which line, and which words in use the gate is told.
//! Traces that were worked by hand, and races for the limits, are system tests.
ghost use Rattle.std.specs.Prelude.{◌≤◌};

use super::same;
use ms_answers::{SpaceTotals, Verbosity};
use ms_base::{Policy, Reply, Settings};
use ms_loaders::Replies;
use ms_report::AnswerText;
use ms_run::{Gate, NoGate, RunFault, replay, replay_into};
use ms_trace::{Trace, parse};
use std::alloc::{AllocError, Global};
use std::process::Abort;
use std::sync::Wait;
use std::sync::atomic::{AtomicU64, Ordering};
use std::thread;
use std::thread::Threads;

/// The settings with so many workers, and one node of the class space.
fn settings(workers: u32) -> Settings
    requires some { 1 ≤ workers }
    requires few { workers ≤ 8 }
{
    Settings {
        workers,
        nodes: 64,
        max_granules: 8192,
        policy: Policy::Balanced,
        class_nodes: 1,
    }
}

/// Reads a text as a trace.
fn trace_of(rt: &(impl Abort + AllocGlobal), text: &str) -> Trace {
    parse(rt.alloc(), text.as_bytes()).expect(rt, "no trace")
}

/// Lists what lines are answered.
fn listed(alloc: Global, replies: &Replies) -> Result<Vec<Reply>, AllocError> {
    let mut told = Vec::with_capacity(alloc, replies.answers.len())?;
    for answer in &replies.answers {
        told.push(answer.reply)?;
    }
    Ok(told)
}

/// Replays a text with a gate.
fn replies_to<G: Gate + Sync>(
    rt: &(impl Abort + AllocGlobal + Threads + Wait + Sync),
    workers: u32,
    text: &str,
    gate: &G,
) -> Replies
    requires some { 1 ≤ workers }
    requires few { workers ≤ 8 }
{
    let trace = trace_of(rt, text);
    let settings = settings(workers);
    let replayed = replay(rt, rt.alloc(), &trace, settings, gate);
    drop(trace);
    replayed.expect(rt, "no replies")
}

/// Replays a text with a gate: what its lines are answered.
fn replayed<G: Gate + Sync>(
    rt: &(impl Abort + AllocGlobal + Threads + Wait + Sync),
    workers: u32,
    text: &str,
    gate: &G,
) -> Vec<Reply>
    requires some { 1 ≤ workers }
    requires few { workers ≤ 8 }
{
    let replies = replies_to(rt, workers, text, gate);
    let told = listed(rt.alloc(), &replies);
    drop(replies);
    told.expect(rt, "memory is ample")
}

/// One loader with a block that is written and read, and one that isn't there.
const ONE_BLOCK: &str = "new 1 standard\nalloc 1 7 10\nwrite 1 7 3 5\nread 1 7 3\nfree 2 1\n";

/// Replays a trace into a text: whether it is all answered, and the text.
fn replayed_into(
    rt: &(impl Abort + AllocGlobal + Threads + Wait + Sync),
    workers: u32,
    trace: &Trace,
) -> (Result<(), RunFault>, String)
    requires some { 1 ≤ workers }
    requires few { workers ≤ 8 }
{
    let settings = settings(workers);
    let mut answers = AnswerText::new(String::new(rt.alloc()), false, Verbosity::Basic, settings);
    let replayed = replay_into(
        rt,
        rt.alloc(),
        trace,
        settings,
        Verbosity::Basic,
        &NoGate,
        &mut answers,
    );
    (replayed, answers.into_text())
}

/// Replays a trace into a text, and compares the text.
fn expect_told(rt: &(impl Abort + AllocGlobal + Threads + Wait + Sync), workers: u32, trace: &Trace)
    requires some { 1 ≤ workers }
    requires few { workers ≤ 8 }
{
    let (replayed, text) = replayed_into(rt, workers, trace);
    same(
        rt,
        &(replayed.is_ok(), text.as_str()),
        &(true, "1 ok\n2 ok\n3 ok\n4 value 5\n5 refused NoLoader\n"),
    );
    drop(text);
}

#[test]
fn a_text_takes_the_answers_as_they_come(rt: HostRuntime) {
    let trace = trace_of(&rt, ONE_BLOCK);
    for workers in [1, 2] {
        expect_told(&rt, workers, &trace);
    }
    drop(trace);
}

/// Holds each of two workers at its first line until the other has come to its own.
#[derive(Drop)]
struct Meeting {
    first: AtomicU64,
    second: AtomicU64,
    missed: AtomicU64,
}

impl Gate for Meeting {
    fn before(&self, worker: usize, _line: u32) {
        let (mine, other) = if worker == 0 {
            (&self.first, &self.second)
        } else {
            (&self.second, &self.first)
        };
        mine.store(1, Ordering::SeqCst);
        for _ in 0..100_000 {
            if other.load(Ordering::SeqCst) == 1 {
                return;
            }
            thread::yield_now();
        }
        self.missed.fetch_add(1, Ordering::SeqCst);
    }

    fn after(&self, _worker: usize, _line: u32, _used: u64) {}
}

/// Replays two lines by two workers that meet: how often one missed the other, and the replies.
fn met(rt: &(impl Abort + AllocGlobal + Threads + Wait + Sync)) -> (u64, Vec<Reply>) {
    let gate = Meeting {
        first: AtomicU64::new(0),
        second: AtomicU64::new(0),
        missed: AtomicU64::new(0),
    };
    let replies = replayed(rt, 2, "new 1 standard\nnew 2 standard\n", &gate);
    (gate.missed.load(Ordering::SeqCst), replies)
}

#[test]
fn gate_two_workers(rt: HostRuntime) {
    let (missed, replies) = met(&rt);
    let served = [Reply::Ok, Reply::Ok];
    same(&rt, &(missed, replies.as_slice()), &(0, served.as_slice()));
}

/// Keeps the words in use that it was told after the last line, and the most that it was told.
#[derive(Drop)]
struct Watching {
    last: AtomicU64,
    most: AtomicU64,
}

impl Gate for Watching {
    fn before(&self, _worker: usize, _line: u32) {}

    fn after(&self, _worker: usize, _line: u32, used: u64) {
        self.last.store(used, Ordering::SeqCst);
        self.most.fetch_max(used, Ordering::SeqCst);
    }
}

/// Replays a text with a gate that watches the words in use: the last and the most that it saw.
fn watched(
    rt: &(impl Abort + AllocGlobal + Threads + Wait + Sync),
    workers: u32,
    text: &str,
) -> (u64, u64)
    requires some { 1 ≤ workers }
    requires few { workers ≤ 8 }
{
    let gate = Watching {
        last: AtomicU64::new(0),
        most: AtomicU64::new(0),
    };
    drop(replayed(rt, workers, text, &gate));
    let last = gate.last.load(Ordering::SeqCst);
    (last, gate.most.load(Ordering::SeqCst))
}

#[test]
fn who_reads_last_reads_what_all_have_in_use(rt: HostRuntime) {
    let text = "new 1 standard\nnew 2 standard\nalloc 1 1 5\nalloc 2 1 7\n";
    for workers in [1, 2, 4, 8] {
        for _ in 0..20 {
            let (_, most) = watched(&rt, workers, text);
            same(&rt, &most, &12);
        }
    }
}

/// In use are 12 words of two loaders, 7 once the first is gone, and 11 at last.
const THREE_PHASES: &str = "new 1 standard\nnew 2 standard\nalloc 1 1 5\ncalloc 2 1 7\nsync
unload 1\nsync\nalloc 2 2 4\nwrite 2 2 0 9\nfree 2 2\nread 2 1 0\n";

/// In use are 10 words at the report; the second phase has one worker, and makes no meter.
const ALL_GIVEN_BACK: &str = "new 1 standard\nalloc 1 1 10\nreport\nunload 1\n";

#[test]
fn words_in_use_are_counted_on_from_phase_to_phase(rt: HostRuntime) {
    for workers in [1, 2, 4, 8] {
        let told = (
            watched(&rt, workers, THREE_PHASES),
            watched(&rt, workers, ALL_GIVEN_BACK),
        );
        same(&rt, &told, &((11, 12), (0, 10)));
    }
}

/// How many lines are answered and how many of them refused, and the values that lines read.
fn summed(alloc: Global, replies: &[Reply]) -> Result<(usize, usize, Vec<u64>), AllocError> {
    let (mut refused, mut values) = (0_usize, Vec::new(alloc));
    for reply in replies {
        match reply {
            Reply::Value(value) => values.push(*value)?,
            Reply::Refused(_) => refused = refused.saturating_add(1),
            _ => {}
        }
    }
    Ok((replies.len(), refused, values))
}

/// Replays a text, and compares how many lines are answered, none of them refused, and the values
/// that lines read.
fn expect_served(
    rt: &(impl Abort + AllocGlobal + Threads + Wait + Sync),
    workers: u32,
    text: &str,
    lines: usize,
    values: &[u64],
)
    requires some { 1 ≤ workers }
    requires few { workers ≤ 8 }
{
    let replies = replayed(rt, workers, text, &NoGate);
    let (answered, refused, read) = summed(rt.alloc(), replies.as_slice()).expect(
        rt,
        "memory is ample",
    );
    drop(replies);
    same(
        rt,
        &(answered, refused, read.as_slice()),
        &(lines, 0, values),
    );
    drop(read);
}

/// Two loaders share a granule and go, and the node is purged.
const UNLOADED: &str = "new 1 standard\nalloc 1 1 10\nnew 2 standard\nalloc 2 1 10\nunload 1
unload 2\npurge\n";

/// Four loaders write a word, meet, and read it.
const MET: &str = "new 1 standard\nnew 2 standard\nnew 3 standard\nnew 4 standard
alloc 1 1 4\nalloc 2 1 4\nalloc 3 1 4\nalloc 4 1 4
write 1 1 0 11\nwrite 2 1 0 22\nwrite 3 1 0 33\nwrite 4 1 0 44\nsync
read 1 1 0\nread 2 1 0\nread 3 1 0\nread 4 1 0\nreport\n";

#[test]
fn workers_serve_all_lines_away_from_the_limits(rt: HostRuntime) {
    expect_served(&rt, 2, UNLOADED, 7, &[]);
    for workers in [1, 2, 4, 8] {
        expect_served(&rt, workers, MET, 18, &[11, 22, 33, 44]);
    }
}

/// The sums over a space: the numbers of a report from the nodes on, and the chunks that are held
/// and the parts that are free, by level.
type Sums = ([u64; 11], [u32; 13], [u32; 13]);

/// The sums over a space, as a list.
fn sums_of(space: &SpaceTotals) -> Sums {
    let numbers = [
        space.nodes as u64,
        space.reserved,
        space.granules,
        space.committed,
        space.chunks as u64,
        space.capacity,
        space.fronts,
        space.used,
        space.live,
        space.free_blocks,
        space.waste,
    ];
    let (held, free) = (space.held, space.free);
    (numbers, held, free)
}

/// The loaders and the sums over the first space in the reports of a text, of two at most.
fn reported<G: Gate + Sync>(
    rt: &(impl Abort + AllocGlobal + Threads + Wait + Sync),
    workers: u32,
    text: &str,
    gate: &G,
) -> [Option<(u32, Sums)>; 2]
    requires some { 1 ≤ workers }
    requires few { workers ≤ 8 }
{
    let replies = replies_to(rt, workers, text, gate);
    let mut sums = [None; 2];
    for answer in &replies.answers {
        if let Some(totals) = &answer.report {
            sums = [sums[1], Some((totals.loaders, sums_of(&totals.space)))];
        }
    }
    drop(replies);
    sums
}

/// The sums of four loaders with a block of four words each.
const OF_FOUR: Sums = (
    [1, 1_048_576, 1, 8192, 4, 2048, 2048, 16, 16, 0, 0],
    [0, 0, 0, 0, 0, 0, 0, 0, 0, 0, 4, 0, 0],
    [1, 1, 1, 1, 1, 1, 1, 1, 1, 0, 0, 0, 0],
);

#[test]
fn a_report_is_the_same_for_each_number_of_workers(rt: HostRuntime) {
    for workers in [1, 2, 4, 8] {
        same(
            &rt,
            &reported(&rt, workers, MET, &NoGate),
            &[None, Some((4, OF_FOUR))],
        );
    }
}

/// Keeps who came after line 5, and the words in use that it was told.
#[derive(Drop)]
struct Noting {
    worker: AtomicU64,
    used: AtomicU64,
}

impl Gate for Noting {
    fn before(&self, _worker: usize, _line: u32) {}

    fn after(&self, worker: usize, line: u32, used: u64) {
        if line == 5 {
            self.worker.store(worker as u64, Ordering::SeqCst);
            self.used.store(used, Ordering::SeqCst);
        }
    }
}

/// The words in use among sums.
fn used_in(reported: Option<(u32, Sums)>) -> Option<u64> {
    let (_, (numbers, _, _)) = reported?;
    Some(numbers[7])
}

/// In the second phase both workers have a line, and the second one's seat comes to
/// 18446744073709551606 words, to which the running 10 comes.
const BOTH_AT_WORK: &str = "new 1 standard\nalloc 1 1 10\nnew 2 standard\nreport\nunload 1
free 2 1\nreport\n";

#[test]
fn a_worker_that_gives_back_reads_what_is_left(rt: HostRuntime) {
    let gate = Noting {
        worker: AtomicU64::new(9),
        used: AtomicU64::new(9),
    };
    let [first, second] = reported(&rt, 2, BOTH_AT_WORK, &gate);
    let used = [used_in(first), used_in(second)];
    let (worker, left) = (&gate.worker, &gate.used);
    let told = (worker.load(Ordering::SeqCst), left.load(Ordering::SeqCst));
    same(&rt, &(used, told), &([Some(10), Some(0)], (1, 0)));
}

/// Keeps for each line who came before it and who came after it: the sum of those workers, each
/// counted from 1 on.
#[derive(Drop)]
struct Listening {
    before: Vec<AtomicU64>,
    after: Vec<AtomicU64>,
}

impl Gate for Listening {
    fn before(&self, worker: usize, line: u32) {
        hear(self.before.as_slice(), worker, line);
    }

    fn after(&self, worker: usize, line: u32, _used: u64) {
        hear(self.after.as_slice(), worker, line);
    }
}

/// Adds a worker to what was heard of a line.
fn hear(heard: &[AtomicU64], worker: usize, line: u32) {
    if let Some(sum) = heard.get(line as usize) {
        sum.fetch_add((worker as u64).wrapping_add(1), Ordering::SeqCst);
    }
}

/// Makes sums of 0 for the lines from 0 to 24.
fn sums(alloc: Global) -> Result<Vec<AtomicU64>, AllocError> {
    let mut sums = Vec::with_capacity(alloc, 25)?;
    for _ in 0..25 {
        sums.push(AtomicU64::new(0))?;
    }
    Ok(sums)
}

/// Who was heard of each line, where that was once: 9 stands for nobody.
fn heard_of(heard: &[AtomicU64]) -> [u64; 25] {
    let mut workers = [9; 25];
    for (line, worker) in workers.iter_mut().enumerate() {
        let sum = match heard.get(line) {
            Some(sum) => sum.load(Ordering::SeqCst),
            None => 0,
        };
        if sum > 0 {
            *worker = sum - 1;
        }
    }
    workers
}

/// Five phases: in the third only one loader has lines. By first appearance loader 3 is number 0, 5
/// is number 1, 1 is number 2, 9 is number 3 and 65535 is number 4.
const FIVE_PHASES: &str = "new 3 standard
new 5 boot
new 1 hidden
new 9 standard
new 65535 reflection
sync
alloc 1 1 10
alloc 3 1 10
purge
alloc 9 1 10
report
alloc 5 1 10
alloc 5 2 10
sync
unload 5
free 1 1
purge
read 3 1 0
sync
write 9 1 0 7
purge
alloc 65535 1 10
unload 3
unload 1
";

/// Makes a gate that has heard nobody.
fn make_listening(rt: &(impl Abort + AllocGlobal)) -> Listening {
    let before = sums(rt.alloc()).expect(rt, "memory is ample");
    let after = sums(rt.alloc()).expect(rt, "memory is ample");
    Listening { before, after }
}

/// Replays five phases: who came before each line, and who after it.
fn listen(rt: &(impl Abort + AllocGlobal + Threads + Wait + Sync), workers: u32) -> [[u64; 25]; 2]
    requires some { 1 ≤ workers }
    requires few { workers ≤ 8 }
{
    let gate = make_listening(rt);
    drop(replayed(rt, workers, FIVE_PHASES, &gate));
    let heard = [
        heard_of(gate.before.as_slice()),
        heard_of(gate.after.as_slice()),
    ];
    drop(gate);
    heard
}

// Loader number j has worker (j + k) mod W in phase k, and a purge has worker 0.
#[test]
fn each_line_is_worked_by_the_worker_whose_turn_it_is(rt: HostRuntime) {
    let of_two = [
        9, 0, 1, 0, 1, 0, 9, 1, 1, 0, 0, 9, 1, 1, 9, 0, 1, 0, 1, 9, 1, 0, 0, 0, 0,
    ];
    let of_three = [
        9, 0, 1, 2, 0, 1, 9, 0, 1, 0, 1, 9, 0, 0, 9, 1, 2, 0, 0, 9, 1, 0, 2, 1, 0,
    ];
    let of_eight = [
        9, 0, 1, 2, 3, 4, 9, 3, 1, 0, 4, 9, 3, 3, 9, 4, 5, 0, 3, 9, 7, 0, 0, 4, 6,
    ];
    let heard = [listen(&rt, 2), listen(&rt, 3), listen(&rt, 8)];
    let wanted = [[of_two, of_two], [of_three, of_three], [of_eight, of_eight]];
    same(&rt, &heard, &wanted);
}
