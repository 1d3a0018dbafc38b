//! What no clause says: that a member's calls find memory and the pool, that a seat finds the pool busy
//! which another has, and that members of several threads are served in their own chunks. The
//! values are worked by hand: a standard loader's first chunk has 512 words, and the class space
//! begins at word 67108864, where the first chunk has 256.
ghost use Rattle.std.specs.Prelude.{◌≡◌, ◌≤◌, None};

use super::{limited, same};
use ms_arena::ArenaTotals;
use ms_base::{Block, Kind, Policy, Refusal, Reply, Space};
use ms_loaders::{GranuleRun, LoaderTotals};
use ms_member::{Member, NoGranules, next_run};
use std::alloc::{AllocError, Global};
use std::process::Abort;
use std::thread;
use std::thread::Threads;

/// What is answered where there is no loader, where there is one, and where a block isn't live.
const NO_LOADER: Option<Reply> = Some(Reply::Refused(Refusal::NoLoader));

const LOADER_EXISTS: Option<Reply> = Some(Reply::Refused(Refusal::LoaderExists));

const NOT_LIVE: Option<Reply> = Some(Reply::Refused(Refusal::NotLive));

/// Shares a pool of one node, two granules and one node of the class space among so many seats.
fn shared(rt: &impl Abort, alloc: Global, seats: usize) -> Member
    requires some { 1 ≤ seats }
    requires few { seats ≤ 65536 }
    ensures { result.arenas ≡ None }
{
    let settings = limited(1, 2, Policy::Balanced, 1);
    Member::share(alloc, settings, seats).expect(rt, "there is memory")
}

/// Which of the first two granules are committed, where the seat has the pool.
fn granules(member: &Member) -> Option<[bool; 2]> {
    let mut bits = [true, true];
    if member.put_granules(0, bits.as_mut_slice()) {
        return Some(bits);
    }
    None
}

/// The numbers of a run.
fn numbers(run: GranuleRun) -> (u64, u64, u64) {
    (run.first, run.granules, run.came)
}

/// The kind and the sums of a loader.
fn told(totals: LoaderTotals) -> (Kind, ArenaTotals, ArenaTotals) {
    (totals.kind, totals.space, totals.class_space)
}

/// An arena of one committed chunk of so many words, of which so many are in live blocks.
fn one_chunk(capacity: u64, used: u64) -> ArenaTotals {
    ArenaTotals {
        chunks: 1,
        capacity,
        fronts: capacity,
        used,
        live: used,
        free_blocks: 0,
        waste: 0,
    }
}

#[test]
fn what_needs_the_pool_is_not_done_without_it(rt: HostRuntime) {
    let mut member = shared(&rt, rt.alloc(), 1);
    let kind = Kind::Standard;
    same(&rt, &member.let_go(), &false);
    same(&rt, &member.new_loader(rt.alloc(), kind), &None);
    same(&rt, &member.new_arenas(rt.alloc(), kind, false), &None);
    same(&rt, &member.new_arenas(rt.alloc(), kind, true), &None);
    same(&rt, &member.purge(), &None);
    same(&rt, &granules(&member), &None);
    let flags = [true, false];
    let run = member.next_uncommitted(flags.as_slice(), 0);
    same(&rt, &run.map(numbers), &None);
}

#[test]
fn without_a_loader_each_call_says_so(rt: HostRuntime) {
    let mut member = shared(&rt, rt.alloc(), 1);
    let block = Block { start: 0, words: 2 };
    let space = Space::NonClass;
    let given = member.give_bare(space, block);
    same(&rt, &given, &NO_LOADER);
    same(&rt, &member.unload(), &NO_LOADER);
    same(&rt, &member.allocate(space, 1, 1), &NO_LOADER);
    same(&rt, &member.free(1), &NO_LOADER);
    same(&rt, &member.take(space, 1), &NO_LOADER);
    same(&rt, &member.give(space, block), &NO_LOADER);
    same(&rt, &member.used(), &0);
    same(&rt, &member.totals().map(told), &None);
}

/// Has the member of a new pool make a loader, and allocate its first block.
fn first_block(rt: &impl Abort, alloc: Global, member: &mut Member) {
    let space = Space::NonClass;
    same(rt, &member.hold(), &true);
    same(rt, &member.hold(), &true);
    same(
        rt,
        &member.new_loader(alloc, Kind::Standard),
        &Some(Reply::Ok),
    );
    same(
        rt,
        &member.new_loader(alloc, Kind::Standard),
        &LOADER_EXISTS,
    );
    let again = member.new_arenas(alloc, Kind::Standard, false);
    same(rt, &again, &LOADER_EXISTS);
    same(rt, &member.take(space, 1), &NO_LOADER);
    same(rt, &granules(member), &Some([false, false]));
    same(rt, &member.allocate(space, 1, 100), &Some(Reply::At(0)));
    let used = Some(Reply::Refused(Refusal::BlockExists));
    same(rt, &member.allocate(space, 1, 100), &used);
    same(rt, &granules(member), &Some([true, false]));
    same(rt, &member.let_go(), &true);
}

/// Has the loader's only chunk filled, as far as that needs no pool.
fn fill(rt: &impl Abort, member: &mut Member) {
    let space = Space::NonClass;
    same(rt, &member.allocate(space, 2, 400), &Some(Reply::At(100)));
    same(rt, &member.allocate(space, 3, 13), &None);
    let zero = Some(Reply::Refused(Refusal::ZeroWords));
    same(rt, &member.allocate(space, 4, 0), &zero);
    let large = Some(Reply::Refused(Refusal::TooLarge));
    same(rt, &member.allocate(space, 4, 600_000), &large);
    same(rt, &member.unload(), &None);
    same(rt, &member.free(1), &Some(Reply::Ok));
    let none = Some(Reply::Refused(Refusal::NoBlock));
    same(rt, &member.free(1), &none);
    same(rt, &member.allocate(space, 5, 100), &Some(Reply::At(0)));
}

/// Has the loader unloaded, and the node given back.
fn leave(rt: &impl Abort, member: &mut Member) {
    let flags = [true, false];
    same(rt, &member.hold(), &true);
    same(rt, &member.unload(), &Some(Reply::Ok));
    same(rt, &member.used(), &0);
    let first = member.next_uncommitted(flags.as_slice(), 0);
    same(rt, &first.map(numbers), &Some((0, 1, 0)));
    let next = member.next_uncommitted(flags.as_slice(), 1);
    same(rt, &next.map(numbers), &Some((1, 0, 0)));
    same(rt, &granules(member), &Some([false, false]));
    same(rt, &member.purge(), &Some(1));
    same(rt, &member.purge(), &Some(0));
}

#[test]
fn a_loader_with_names_comes_and_goes(rt: HostRuntime) {
    let mut member = shared(&rt, rt.alloc(), 1);
    first_block(&rt, rt.alloc(), &mut member);
    fill(&rt, &mut member);
    same(&rt, &member.used(), &500);
    let empty = ArenaTotals {
        chunks: 0,
        capacity: 0,
        fronts: 0,
        used: 0,
        live: 0,
        free_blocks: 0,
        waste: 0,
    };
    let wanted = (Kind::Standard, one_chunk(512, 500), empty);
    same(&rt, &member.totals().map(told), &Some(wanted));
    leave(&rt, &mut member);
}

/// Has a loader without names make a block in each space; returns that of the class space.
fn take_two(rt: &impl Abort, alloc: Global, member: &mut Member, is_bare: bool) -> Block {
    same(rt, &member.hold(), &true);
    let made = member.new_arenas(alloc, Kind::Standard, is_bare);
    same(rt, &made, &Some(Reply::Ok));
    let again = member.new_arenas(alloc, Kind::Standard, is_bare);
    same(rt, &again, &LOADER_EXISTS);
    same(
        rt,
        &member.new_loader(alloc, Kind::Standard),
        &LOADER_EXISTS,
    );
    same(rt, &member.allocate(Space::NonClass, 1, 100), &NO_LOADER);
    same(rt, &member.free(1), &NO_LOADER);
    same(rt, &member.take(Space::NonClass, 100), &Some(Reply::At(0)));
    let start = 67_108_864;
    same(rt, &member.take(Space::Class, 1), &Some(Reply::At(start)));
    same(rt, &member.used(), &102);
    same(rt, &member.let_go(), &true);
    Block { start, words: 2 }
}

#[test]
fn a_loader_without_names_knows_its_blocks_by_their_starts(rt: HostRuntime) {
    let mut member = shared(&rt, rt.alloc(), 1);
    let block = take_two(&rt, rt.alloc(), &mut member, false);
    let wanted = (Kind::Standard, one_chunk(512, 100), one_chunk(256, 2));
    same(&rt, &member.totals().map(told), &Some(wanted));
    same(&rt, &member.give(Space::NonClass, block), &NOT_LIVE);
    let shorter = Block { words: 1, ..block };
    same(&rt, &member.give(Space::Class, shorter), &NOT_LIVE);
    same(&rt, &member.give(Space::Class, block), &Some(Reply::Ok));
    same(&rt, &member.give(Space::Class, block), &NOT_LIVE);
    same(
        &rt,
        &member.take(Space::NonClass, 412),
        &Some(Reply::At(100)),
    );
    same(&rt, &member.take(Space::NonClass, 2), &None);
    same(&rt, &member.unload(), &None);
    same(&rt, &member.hold(), &true);
    same(&rt, &member.unload(), &Some(Reply::Ok));
    same(&rt, &member.unload(), &NO_LOADER);
}

#[test]
fn a_bare_loader_shows_words_in_use_and_no_sums(rt: HostRuntime) {
    let mut member = shared(&rt, rt.alloc(), 1);
    let block = take_two(&rt, rt.alloc(), &mut member, true);
    same(&rt, &member.give(Space::Class, block), &NO_LOADER);
    same(&rt, &member.totals().map(told), &None);
    same(
        &rt,
        &member.take(Space::NonClass, 412),
        &Some(Reply::At(100)),
    );
    same(&rt, &member.used(), &514);
    same(&rt, &member.hold(), &true);
    same(&rt, &member.unload(), &Some(Reply::Ok));
}

/// Splits a seat off.
fn split(rt: &impl Abort, alloc: Global, member: &mut Member) -> Box<Member, Global> {
    let made = member.split(alloc).expect(rt, "there is memory");
    made.expect(rt, "there is a seat to spare")
}

#[test]
fn one_seat_at_a_time_has_the_pool(rt: HostRuntime) {
    let mut one = shared(&rt, rt.alloc(), 2);
    let mut other = split(&rt, rt.alloc(), &mut one);
    let none = one.split(rt.alloc()).expect(&rt, "there is memory");
    same(&rt, &none.is_none(), &true);
    same(&rt, &one.hold(), &true);
    same(&rt, &other.hold(), &false);
    same(&rt, &one.let_go(), &true);
    same(&rt, &other.hold(), &true);
    same(&rt, &one.hold(), &false);
    // Whoever goes gives the pool back.
    drop(other);
    same(&rt, &one.hold(), &true);
}

/// Splits a seat off, which makes a loader with one block of ten words.
fn with_loader(rt: &impl Abort, alloc: Global, first: &mut Member) -> Box<Member, Global> {
    let mut member = split(rt, alloc, first);
    same(rt, &member.hold(), &true);
    let made = member.new_loader(alloc, Kind::Standard);
    same(rt, &made, &Some(Reply::Ok));
    let block = member.allocate(Space::NonClass, 0, 10);
    same(rt, &block.is_some(), &true);
    same(rt, &member.let_go(), &true);
    member
}

/// Allocates fifty blocks of ten words in the loader's own chunk; returns where the last one starts.
fn fifty(mut member: Box<Member, Global>) -> Option<Reply> {
    let mut last = None;
    for block in 1..51 {
        last = member.allocate(Space::NonClass, block, 10);
    }
    last
}

/// Has four members of a pool allocate, each in a thread of its own.
fn four_threads<R: Threads + Abort + Sync>(
    rt: &R,
    alloc: Global,
) -> Result<Vec<Option<Reply>>, AllocError> {
    let mut first = shared(rt, alloc, 5);
    let mut members = Vec::new(alloc);
    for _ in 0..4 {
        members.push(with_loader(rt, alloc, &mut first))?;
    }
    thread::map_vec(
        rt,
        members,
        &|member: Box<Member, Global>| -> Option<Reply> { fifty(member) },
    )
}

#[test]
fn members_of_threads_are_served_in_their_own_chunks(rt: HostRuntime) {
    let told = four_threads(&rt, rt.alloc()).expect(&rt, "memory is ample");
    let wanted = [500, 1012, 1524, 2036].map(|start| Some(Reply::At(start)));
    same(&rt, &told.as_slice(), &wanted.as_slice());
}

#[test]
fn where_no_granule_is_committed_all_went_that_were(rt: HostRuntime) {
    let flags = [false, true, true, false, true];
    let first = next_run(&NoGranules, flags.as_slice(), 0);
    same(&rt, &numbers(first), &(1, 2, 0));
    let next = next_run(&NoGranules, flags.as_slice(), 3);
    same(&rt, &numbers(next), &(4, 1, 0));
    let last = next_run(&NoGranules, flags.as_slice(), 5);
    same(&rt, &numbers(last), &(5, 0, 0));
}
