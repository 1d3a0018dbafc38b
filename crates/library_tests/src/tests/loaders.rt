//! What no clause says: that memory which is there is given, to a loader over a pool and to a
//! system that is run, and that parts settle once they are all there. Each expected value was worked
//! out apart from ms_loaders; traces that were worked by hand stand in `worked` and in the system
//! tests, which ask it of the program and, growth by growth, of calls.
ghost use Rattle.ms_base.specs.Names.{with_new};
ghost use Rattle.ms_loaders.specs.Settles.{MaySettle};

use super::reports::ONE_BLOCK;
use super::same;
use ms_answers::{Details, LoaderDetails};
use ms_arena::ArenaTotals;
use ms_base::{Block, Kind, Policy, Refusal, Reply, Settings, Space, Step};
use ms_loaders::{Loader, Loaders, System, Totals, serve};
use ms_pool::{Cell, Pool, RootMap};
use ms_report::{text, totals};
use std::alloc::{AllocError, Global};
use std::process::Abort;

/// Settings with a node of the class space.
const SETTINGS: Settings = Settings {
    workers: 1,
    nodes: 64,
    max_granules: 8192,
    policy: Policy::Balanced,
    class_nodes: 1,
};

/// Two blocks of a new loader, a word of the second that was written, and the words in use.
type Blocks = ([Result<Block, Refusal>; 2], Result<u64, Refusal>, u64);

/// Makes a loader over the next accounts of a pool, and blocks of it.
fn blocks_of_one(alloc: Global, pool: &mut Pool) -> Option<Blocks> {
    let Ok((account, class_account)) = pool.open_both() else {
        return None;
    };
    let mut loader = Loader::new(alloc, account, class_account, Kind::Standard);
    let first = loader.alloc(pool, 1, 10);
    let second = loader.allocate(pool, Space::NonClass, 2, 1);
    let _ = loader.write(2, 1, 7);
    let (read, used) = (loader.read(2, 1), loader.used());
    drop(loader);
    Some(([first, second], read, used))
}

/// Makes a loader over the next accounts of a pool, and a class block of it.
fn class_block_of_one(alloc: Global, pool: &mut Pool) -> Option<Result<Block, Refusal>> {
    let Ok((account, class_account)) = pool.open_both() else {
        return None;
    };
    let mut loader = Loader::new(alloc, account, class_account, Kind::Standard);
    let block = loader.calloc(pool, 1, 10);
    drop(loader);
    Some(block)
}

#[test]
fn a_loader_has_blocks_in_both_spaces(rt: HostRuntime) {
    let mut pool = Pool::new(rt.alloc(), SETTINGS).expect(&rt, "memory is ample");
    let blocks = blocks_of_one(rt.alloc(), &mut pool);
    let class_block = class_block_of_one(rt.alloc(), &mut pool);
    drop(pool);
    let (start, words) = (0, 10);
    let first = Block { start, words };
    let (start, words) = (10, 2);
    let second = Block { start, words };
    same(&rt, &blocks, &Some(([Ok(first), Ok(second)], Ok(7), 12)));
    let (start, words) = (67108864, 10);
    same(&rt, &class_block, &Some(Ok(Block { start, words })));
}

/// A loader, and a block of it.
const STEPS: [Step; 2] = [
    Step::New {
        loader: 1,
        kind: Kind::Standard,
    },
    Step::Alloc {
        loader: 1,
        block: 1,
        words: 10,
    },
];

/// Serves one step over a new pool, where there is no loader: the reply, and how many there are
/// then.
fn served(rt: &(impl Abort + AllocGlobal), step: Step) -> (Reply, usize) {
    let mut pool = Pool::new(rt.alloc(), SETTINGS).expect(rt, "memory is ample");
    let mut loaders = Loaders::new(rt.alloc());
    let reply = serve(rt.alloc(), &mut pool, &mut loaders, step);
    let count = loaders.len();
    drop(loaders);
    drop(pool);
    (reply, count)
}

#[test]
fn a_step_is_served_over_a_pool(rt: HostRuntime) {
    let made = served(&rt, STEPS[0]);
    let refused = served(&rt, STEPS[1]);
    same(&rt, &made, &(Reply::Ok, 1));
    same(&rt, &refused, &(Reply::Refused(Refusal::NoLoader), 0));
}

/// Runs steps by a new system: the replies, and the totals after the last.
fn ran(rt: &(impl Abort + AllocGlobal), steps: &[Step]) -> (Vec<Reply>, Totals) {
    let mut system = System::new(rt.alloc(), Settings::DEFAULT).expect(rt, "memory is ample");
    let (replies, sums) = (system.run(steps), totals(&system));
    drop(system);
    let replies = replies.expect(rt, "memory is ample");
    (replies, sums.expect(rt, "memory is ample"))
}

#[test]
fn a_run_answers_each_step_and_is_reported(rt: HostRuntime) {
    let (replies, sums) = ran(&rt, &STEPS);
    let report = text(rt.alloc(), &sums);
    drop(sums);
    let report = report.expect(&rt, "memory is ample");
    same(
        &rt,
        &(replies.as_slice(), report.as_str()),
        &([Reply::Ok, Reply::At(0)].as_slice(), ONE_BLOCK),
    );
}

/// Takes steps by a new system: the maps of its roots after the last, and the details.
fn mapped(rt: &(impl Abort + AllocGlobal), steps: &[Step]) -> (Vec<RootMap>, Details) {
    let mut system = System::new(rt.alloc(), Settings::DEFAULT).expect(rt, "memory is ample");
    for step in steps {
        let _ = system.step(*step);
    }
    let (maps, details) = (system.maps(), system.details());
    drop(system);
    let maps = maps.expect(rt, "memory is ample");
    (maps, details.expect(rt, "memory is ample"))
}

/// The sums of an arena whose chunks hold one block of so many words and nothing else.
fn with_block(chunks: u32, capacity: u64, words: u64) -> ArenaTotals {
    ArenaTotals {
        chunks,
        capacity,
        fronts: capacity,
        used: words,
        live: words,
        free_blocks: 0,
        waste: 0,
    }
}

/// A node of two roots is reserved; the block has 10 words of a chunk of 512 in the first cell.
#[test]
fn a_run_is_mapped_and_told_in_detail(rt: HostRuntime) {
    let (maps, details) = mapped(&rt, &STEPS);
    let mut cells = [Cell::Free; 64];
    cells[0] = Cell::LentPartly;
    let first = RootMap { root: 0, cells };
    let (root, cells) = (1, [Cell::Free; 64]);
    let roots = [first, RootMap { root, cells }];
    same(
        &rt,
        &(maps.as_slice(), details.roots.as_slice()),
        &(roots.as_slice(), roots.as_slice()),
    );
    let loader = LoaderDetails {
        name: 1,
        kind: Kind::Standard,
        space: with_block(1, 512, 10),
        class_space: with_block(0, 0, 0),
    };
    same(&rt, &details.loaders.as_slice(), &[loader].as_slice());
}

/// Makes two loaders by a new system.
fn two_loaders(alloc: Global) -> Result<Option<System>, AllocError> {
    let mut system = System::new(alloc, SETTINGS)?;
    let first = system.new_loader(1, Kind::Standard);
    let second = system.new_loader(2, Kind::Boot);
    if first.is_err() || second.is_err() {
        return Ok(None);
    }
    Ok(Some(system))
}

/// Why a system is refused with its second loader held back, and how many loaders it has once that
/// is there again.
fn settled_late(alloc: Global, system: System) -> Option<(Refusal, u64)> {
    let (pool, mut loaders) = system.into_parts();
    match loaders.remove(2) {
        Some(loader) => settled_again(alloc, pool, loaders, loader),
        None => None,
    }
}

/// The same, with the loader that is held back.
fn settled_again(
    alloc: Global,
    pool: Pool,
    loaders: Loaders,
    held_back: Loader,
) -> Option<(Refusal, u64)>
    requires early { MaySettle pool loaders }
    requires late { MaySettle pool (with_new loaders 2 held_back) }
{
    match System::settle(alloc, pool, loaders) {
        Ok(_early) => None,
        Err((refusal, pool, loaders)) => {
            let settled = settled_with(alloc, pool, loaders, held_back)?;
            let count = settled.loader_count();
            drop(settled);
            Some((refusal, count))
        }
    }
}

/// Puts a loader among the others, and settles.
fn settled_with(alloc: Global, pool: Pool, loaders: Loaders, loader: Loader) -> Option<System>
    requires { MaySettle pool (with_new loaders 2 loader) }
{
    let mut loaders = loaders;
    match loaders.insert(2, loader) {
        Ok(()) => System::settle(alloc, pool, loaders).ok(),
        Err(_back) => None,
    }
}

/// A loader has an account in each space.
#[test]
fn all_loaders_are_needed_to_settle(rt: HostRuntime) {
    let system = two_loaders(rt.alloc()).expect(&rt, "memory is ample");
    let system = system.expect(&rt, "two loaders were made");
    let told = settled_late(rt.alloc(), system);
    let (opened, gathered) = (4, 2);
    let refusal = Refusal::Unsettled { opened, gathered };
    same(&rt, &told, &Some((refusal, 2)));
}
