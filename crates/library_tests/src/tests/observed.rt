//! What no clause says: that an observed replay goes through where memory is ample, and so do the
//! calls by which it counts. The expected numbers were worked out by hand from the rules: a loader of
//! kind standard takes a chunk of 512 words first, of 256 in the class space, which commits one granule of 8192
//! words, and a node has 1048576 words.
use super::same;
use ms_arena::RawArena;
use ms_base::{Kind, Policy, Refusal, Reply, Settings, Space, Step};
use ms_course::{Extent, Standing};
use ms_loader::Amounts;
use ms_loaders::{Answer, Loader, Loaders, System, Totals};
use ms_pool::Pool;
use ms_run::{Observer, RunFault, replay_observed};
use ms_trace::{Line, Trace, parse};
use std::alloc::{AllocError, Global};
use std::process::Abort;

/// Settings with a node of the class space.
const SETTINGS: Settings = Settings {
    workers: 1,
    nodes: 64,
    max_granules: 8192,
    policy: Policy::Balanced,
    class_nodes: 1,
};

/// Keeps what it sees: each line's number and reply, and how the metaspace stands after it; and of
/// line 4 how many loaders the details have.
#[derive(Drop)]
struct Seeing {
    sights: Vec<(u32, Reply, Standing)>,
    detailed: usize,
}

impl Observer for Seeing {
    fn see(
        &mut self,
        line: &Line,
        reply: &Reply,
        standing: &Standing,
        system: &System,
    ) -> Result<(), AllocError> {
        if line.number() == 4 {
            self.detailed = loaders_in(system)?;
        }
        self.sights.push((line.number(), *reply, *standing))?;
        Ok(())
    }
}

/// Counts the loaders that the details of a system have.
fn loaders_in(system: &System) -> Result<usize, AllocError> {
    let details = system.details()?;
    let count = details.loaders.len();
    drop(details);
    Ok(count)
}

/// Two loaders: blocks in both spaces, one that is freed, one that is too large, a report, and the
/// first unloaded.
const TRACE: &str = "new 1 standard\nalloc 1 1 10\ncalloc 1 2 20\nfree 1 1\nnew 2 standard
alloc 2 1 600000\nreport\nunload 1\n";

/// The words of both spaces and of the class space, and how many loaders there are: in order
/// reserved, committed, used and live.
fn stands(both: [u64; 4], class_space: [u64; 4], loaders: u64) -> Standing {
    Standing {
        both: extent(both),
        class_space: extent(class_space),
        loaders,
    }
}

fn extent(words: [u64; 4]) -> Extent {
    Extent {
        reserved: words[0],
        committed: words[1],
        used: words[2],
        live: words[3],
    }
}

/// What is to be seen of the eight lines.
fn wanted() -> [(u32, Reply, Standing); 8] {
    let no_class = [1_048_576, 0, 0, 0];
    let class = [1_048_576, 8192, 20, 20];
    let freed = [2_097_152, 16_384, 30, 20];
    [
        (1, Reply::Ok, stands(no_class, no_class, 1)),
        (
            2,
            Reply::At(0),
            stands([2_097_152, 8192, 10, 10], no_class, 1),
        ),
        (
            3,
            Reply::At(67_108_864),
            stands([2_097_152, 16_384, 30, 30], class, 1),
        ),
        (4, Reply::Ok, stands(freed, class, 1)),
        (5, Reply::Ok, stands(freed, class, 2)),
        (
            6,
            Reply::Refused(Refusal::TooLarge),
            stands(freed, class, 2),
        ),
        (7, Reply::Ok, stands(freed, class, 2)),
        (8, Reply::Ok, stands([2_097_152, 0, 0, 0], no_class, 1)),
    ]
}

/// Replays a trace: its answers, what was seen of it, and its totals.
fn observed(
    rt: &(impl Abort + AllocGlobal),
    trace: &Trace,
) -> (Vec<Answer>, Seeing, Result<Totals, RunFault>) {
    let mut answers = Vec::new(rt.alloc());
    let mut seeing = Seeing {
        sights: Vec::new(rt.alloc()),
        detailed: 9,
    };
    let totals = replay_observed(rt.alloc(), trace, SETTINGS, &mut answers, &mut seeing);
    (answers, seeing, totals)
}

/// Of totals: the loaders, the words in use, and of the peaks granules, nodes, words and loaders.
fn told(totals: &Totals) -> Option<(u32, u64, [u64; 4])> {
    let peaks = totals.peaks?;
    let used = totals.space.used;
    Some((
        totals.loaders,
        used,
        [peaks.granules, peaks.nodes, peaks.used, peaks.loaders],
    ))
}

#[test]
fn each_line_of_an_observed_replay_is_seen(rt: HostRuntime) {
    let trace = parse(rt.alloc(), TRACE.as_bytes()).expect(&rt, "no trace");
    let (answers, seeing, totals) = observed(&rt, &trace);
    drop(trace);
    let count = answers.len();
    drop(answers);
    let totals = totals.expect(&rt, "memory is ample");
    let end = told(&totals);
    drop(totals);
    same(&rt, &(count, seeing.detailed), &(8, 1));
    same(&rt, &seeing.sights.as_slice(), &wanted().as_slice());
    same(&rt, &end, &Some((1, 0, [2, 2, 30, 2])));
    drop(seeing);
}

/// The steps of a loader with a block in each space, of which that outside the class space is freed.
const STEPS: [Step; 4] = [
    Step::New {
        loader: 1,
        kind: Kind::Standard,
    },
    Step::Alloc {
        loader: 1,
        block: 1,
        words: 10,
    },
    Step::Calloc {
        loader: 1,
        block: 2,
        words: 20,
    },
    Step::Free {
        loader: 1,
        block: 1,
    },
];

#[test]
fn a_system_tells_the_words_of_each_space(rt: HostRuntime) {
    let mut system = System::new(rt.alloc(), SETTINGS).expect(&rt, "memory is ample");
    let before = system.class_committed();
    let replies = system.run(&STEPS);
    let amounts = [system.amounts_by(1), system.amounts_by(2)];
    let after = system.class_committed();
    drop(system);
    drop(replies);
    let one = Amounts {
        used: 10,
        live: 0,
        class_used: 20,
        class_live: 20,
    };
    same(&rt, &amounts, &[one, Amounts::NONE]);
    same(&rt, &[before, after], &[0, 8192]);
}

/// The words that are live in an arena before its first block and after it.
fn live_in_one(alloc: Global, pool: &mut Pool) -> Option<[u64; 2]> {
    let Ok(account) = pool.open(Space::NonClass) else {
        return None;
    };
    let mut arena = RawArena::new(alloc, account, Kind::Standard);
    let before = arena.live();
    let block = arena.alloc(pool, 10);
    let after = arena.live();
    drop(arena);
    block.ok()?;
    Some([before, after])
}

/// What a loader with a class block has, by itself and among loaders, and the granules of the class
/// space that are committed then.
fn amounts_of_one(alloc: Global, pool: &mut Pool) -> Option<(Amounts, Amounts, u64)> {
    let Ok((account, class_account)) = pool.open_both() else {
        return None;
    };
    let mut loader = Loader::new(alloc, account, class_account, Kind::Standard);
    let block = loader.calloc(pool, 1, 10);
    let alone = loader.amounts();
    let mut loaders = Loaders::new(alloc);
    let inserted = loaders.insert(7, loader).is_ok();
    let among = loaders.amounts_by(7);
    drop(loaders);
    block.ok()?;
    if !inserted {
        return None;
    }
    Some((alone, among, pool.class_committed()))
}

#[test]
fn arenas_loaders_and_pools_count_what_is_live(rt: HostRuntime) {
    let mut pool = Pool::new(rt.alloc(), SETTINGS).expect(&rt, "memory is ample");
    let live = live_in_one(rt.alloc(), &mut pool);
    let none = pool.class_committed();
    let amounts = amounts_of_one(rt.alloc(), &mut pool);
    drop(pool);
    let class = Amounts {
        used: 0,
        live: 0,
        class_used: 10,
        class_live: 10,
    };
    same(&rt, &(live, none), &(Some([0, 10]), 0));
    same(&rt, &amounts, &Some((class, class, 1)));
}
