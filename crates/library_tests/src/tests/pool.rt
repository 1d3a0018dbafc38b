//! What no clause says: that memory which is there is given, and that the definitions are the ones
//! meant: which part each search finds, why a chunk can't grow, and the numbers of both limits, by
//! tables of calls for one account, and what one of two accounts leaves. What more of them share,
//! close and leave is asked of systems and of the program, by worked rows.
ghost use Rattle.std.specs.Prelude.{◌≡◌, ◌≢◌, ◌<◌, ◌≤◌, IfOk, IsTrue, length};
ghost use Rattle.ms_pool.specs.Account.{AccountState, has_chunk_at};
ghost use Rattle.ms_pool.specs.Ledger.{Serves};

use super::{limited, same};
use ms_base::{Level, Policy, Refusal, Settings, Space, Span};
use ms_pool::{Account, Cell, ChunkSource, Pool, PoolTotals, RootMap};
use std::alloc::{AllocError, Global};
use std::process::Abort;

/// What a row of the table asks for the account.
#[derive(Clone, Copy, Debug)]
enum Call {
    /// Wanted level, most that serves, words.
    Take(u8, u8, u64),
    /// The index of a chunk in the account, words in all, whether it may be enlarged.
    Grow(u32, u64, bool),
}

/// What it is answered: start, level and front of the chunk, as the account has it.
type Answer = Result<(u64, u8, u64), Refusal>;

/// Makes a pool, and asks the rows for its first account.
fn ask_all(
    rt: &(impl Abort + AllocGlobal),
    settings: Settings,
    space: Space,
    rows: &[(Call, Answer)],
) {
    let mut pool = Pool::new(rt.alloc(), settings).expect(rt, "memory is ample");
    let mut account = pool.open(space).expect(rt, "numbers are left");
    ask_rows(rt, &mut pool, &mut account, rows);
}

/// Asks the rows for an account.
fn ask_rows(rt: &impl Abort, pool: &mut Pool, account: &mut Account, rows: &[(Call, Answer)])
    requires { Serves pool.old account.old }
{
    'rows: for (call, want) in rows {
        let answer = ask(rt, pool, account, *call);
        assert_eq!(rt; answer, *want, "at {call:?}");
    }
}

fn ask(rt: &impl Abort, pool: &mut Pool, account: &mut Account, call: Call) -> Answer
    requires { Serves pool.old account.old }
    ensures served { Serves pool.new account.new }
    ensures others { (other : AccountState) → other.owner ≢ account.old.owner
        → Serves pool.old other → Serves pool.new other }
{
    match call {
        Call::Take(wanted, most, words) => take(rt, pool, account, wanted, most, words),
        Call::Grow(index, total, may_enlarge) => {
            grow(rt, pool, account, index, total, may_enlarge)
        }
    }
}

fn take(
    rt: &impl Abort,
    pool: &mut Pool,
    account: &mut Account,
    wanted: u8,
    most: u8,
    words: u64,
) -> Answer
    requires { Serves pool.old account.old }
    ensures served { Serves pool.new account.new }
    ensures others { (other : AccountState) → other.owner ≢ account.old.owner
        → Serves pool.old other → Serves pool.new other }
{
    assert!(rt; wanted <= most && most <= 12);
    let (wanted, most) = (Level::new(wanted), Level::new(most));
    assert!(rt; 1 <= words && words <= most.words());
    let answer = ChunkSource::take(pool, account, wanted, most, words);
    told(rt, account, answer)
}

fn grow(
    rt: &impl Abort,
    pool: &mut Pool,
    account: &mut Account,
    index: u32,
    total: u64,
    may_enlarge: bool,
) -> Answer
    requires { Serves pool.old account.old }
    ensures served { Serves pool.new account.new }
    ensures others { (other : AccountState) → other.owner ≢ account.old.owner
        → Serves pool.old other → Serves pool.new other }
{
    assert!(rt; index < account.held());
    let start = start_at(account, index);
    let answer = ChunkSource::grow(pool, account, start, total, may_enlarge);
    told(rt, account, answer)
}

/// Returns where the chunk at an index of the account starts.
fn start_at(account: &Account, index: u32) -> u64
    requires { index < length account.now.chunks }
    ensures { IsTrue (has_chunk_at account.now.chunks result) }
{
    let chunk = account.chunk(index);
    chunk.start
}

/// Returns the account's own chunk of the span that was answered.
fn told(rt: &impl Abort, account: &Account, answer: Result<Span, Refusal>) -> Answer {
    let span = answer?;
    for index in 0..account.held() {
        let chunk = account.chunk(index);
        if chunk.start == span.start && chunk.level == span.level {
            return Ok((chunk.start, chunk.level.number(), chunk.front));
        }
    }
    panic!(rt; "the account has no such chunk")
}

/// Refused: so many granules are committed, of so many that may be, and so many more are needed.
fn over_limit(committed: u64, limit: u64, need: u64) -> Answer {
    Err(Refusal::CommitLimit {
        committed,
        limit,
        need,
    })
}

/// Refused: the chunk can't grow where it lies.
fn no_room(level: u8) -> Answer
    requires { level ≤ 12 }
{
    Err(Refusal::NoRoom {
        level: Level::new(level),
    })
}

/// The first chunk commits the granule that all others lie in.
#[test]
fn committed_parts_come_before_others(rt: HostRuntime) {
    let rows = [
        (Call::Take(12, 12, 10), Ok((0, 12, 128))),
        // Near the wanted level: a smaller committed part, not a larger one that would be split.
        (Call::Take(6, 12, 2), Ok((4096, 7, 4096))),
        (Call::Take(9, 12, 2), Ok((1024, 9, 1024))),
        (Call::Take(9, 12, 2), Ok((512, 10, 512))),
        (Call::Take(10, 12, 2), Ok((256, 11, 256))),
        // None near: a larger committed one is split, and its lowest part taken.
        (Call::Take(10, 10, 2), Ok((2048, 10, 512))),
        (Call::Take(12, 12, 2), Ok((128, 12, 128))),
        // None near or larger: the largest committed part that is left.
        (Call::Take(4, 12, 2), Ok((3072, 9, 1024))),
        (Call::Take(0, 12, 2), Ok((2560, 10, 512))),
    ];
    ask_all(&rt, Settings::DEFAULT, Space::NonClass, &rows);
}

#[test]
fn a_smaller_part_comes_before_a_larger_one_that_is_split(rt: HostRuntime) {
    let rows = [
        (Call::Take(6, 6, 8192), Ok((0, 6, 8192))),
        (Call::Take(5, 5, 1), Ok((16384, 5, 8192))),
        // Free and not committed are 8192 of level 6 and 32768 of level 4.
        (Call::Take(5, 6, 1), Ok((8192, 6, 8192))),
        (Call::Take(5, 6, 8192), Ok((32768, 5, 8192))),
        (Call::Take(5, 6, 8192), Ok((49152, 5, 8192))),
    ];
    ask_all(&rt, Settings::DEFAULT, Space::NonClass, &rows);
}

#[test]
fn a_front_rises_by_granules_and_a_leader_becomes_its_parent(rt: HostRuntime) {
    let rising = [
        (Call::Take(0, 12, 100), Ok((0, 0, 8192))),
        (Call::Grow(0, 8192, false), Ok((0, 0, 8192))),
        (Call::Grow(0, 8200, false), Ok((0, 0, 16384))),
        (Call::Grow(0, 524289, true), no_room(0)),
    ];
    ask_all(&rt, Settings::DEFAULT, Space::NonClass, &rising);
    let enlarged = [
        (Call::Take(10, 12, 10), Ok((0, 10, 512))),
        (Call::Grow(0, 512, true), Ok((0, 10, 512))),
        (Call::Grow(0, 520, false), no_room(10)),
        (Call::Grow(0, 1025, true), no_room(10)),
        (Call::Grow(0, 520, true), Ok((0, 9, 1024))),
        (Call::Take(9, 9, 1024), Ok((1024, 9, 1024))),
        // The buddy is lent; a follower has none to take.
        (Call::Grow(0, 1025, true), no_room(9)),
        (Call::Grow(1, 1025, true), no_room(9)),
        // The third chunk's buddy is split, until the fourth takes its own buddy in.
        (Call::Take(10, 10, 512), Ok((2048, 10, 512))),
        (Call::Take(11, 11, 10), Ok((2560, 11, 256))),
        (Call::Grow(2, 513, true), no_room(10)),
        (Call::Grow(3, 512, true), Ok((2560, 10, 512))),
        (Call::Grow(2, 513, true), no_room(10)),
    ];
    ask_all(&rt, Settings::DEFAULT, Space::NonClass, &enlarged);
}

#[test]
fn the_limit_of_granules_is_told_with_its_numbers(rt: HostRuntime) {
    let of_one = [
        (Call::Take(6, 6, 8192), Ok((0, 6, 8192))),
        (Call::Grow(0, 8193, true), over_limit(1, 1, 1)),
        (Call::Take(10, 12, 2), over_limit(1, 1, 1)),
    ];
    let pool = limited(64, 1, Policy::Balanced, 0);
    ask_all(&rt, pool, Space::NonClass, &of_one);
    let all_but_one = [
        (Call::Take(0, 0, 524288), over_limit(0, 63, 64)),
        (Call::Take(0, 0, 516096), Ok((0, 0, 516096))),
    ];
    let pool = limited(64, 63, Policy::Balanced, 0);
    ask_all(&rt, pool, Space::NonClass, &all_but_one);
    // Without reclaiming, a chunk is committed whole, so one granule fewer refuses all of a root.
    let too_few = [(Call::Take(0, 12, 2), over_limit(0, 63, 64))];
    let pool = limited(64, 63, Policy::None, 0);
    ask_all(&rt, pool, Space::NonClass, &too_few);
    let whole = [
        (Call::Take(0, 12, 2), Ok((0, 0, 524288))),
        (Call::Take(0, 0, 8193), over_limit(64, 64, 64)),
    ];
    let pool = limited(64, 64, Policy::None, 0);
    ask_all(&rt, pool, Space::NonClass, &whole);
}

/// Where both limits are met, the nodes are told first.
#[test]
fn the_limit_of_nodes_is_told_with_its_numbers(rt: HostRuntime) {
    let limit = Err(Refusal::ReserveLimit { nodes: 1, limit: 1 });
    let two_roots = [
        (Call::Take(0, 12, 2), Ok((0, 0, 8192))),
        (Call::Take(0, 12, 2), Ok((524288, 0, 8192))),
        (Call::Take(0, 12, 2), limit),
    ];
    let pool = limited(1, 2, Policy::Balanced, 0);
    ask_all(&rt, pool, Space::NonClass, &two_roots);
    let none = Err(Refusal::ReserveLimit { nodes: 0, limit: 0 });
    let of_classes = [(Call::Take(11, 12, 10), none)];
    ask_all(&rt, Settings::DEFAULT, Space::Class, &of_classes);
}

/// Opens two accounts.
fn opened_two(rt: &impl Abort, pool: &mut Pool) -> (Account, Account)
    ensures one { Serves pool.new result.0 }
    ensures other { Serves pool.new result.1 }
{
    let one = pool.open(Space::NonClass).expect(rt, "numbers are left");
    let other = pool.open(Space::NonClass).expect(rt, "numbers are left");
    (one, other)
}

/// Lends chunks to two accounts under a limit of two granules, which refuses the first one's growth.
fn lent_to_two(
    rt: &impl Abort,
    pool: &mut Pool,
    one: &mut Account,
    other: &mut Account,
) -> [Answer; 4]
    requires one { Serves pool.old one.old }
    requires other { Serves pool.old other.old }
    ensures { Serves pool.new one.new }
{
    assert!(rt; other.owner() != one.owner());
    let root = take(rt, pool, one, 0, 6, 8192);
    assert!(rt; one.owner() != other.owner());
    let smallest = take(rt, pool, other, 12, 12, 10);
    let refused = grow(rt, pool, one, 0, 8212, false);
    [root, smallest, refused, take(rt, pool, one, 2, 12, 20)]
}

/// Closes an account.
fn close(rt: &impl Abort, pool: &mut Pool, account: Account)
    requires { Serves pool.old account }
{
    assert!(rt; pool.all_totals(account.space()).accounts > 0);
    pool.close(account);
}

/// What two accounts are answered, and the sums before the first is closed and after it.
fn told_by_two(rt: &impl Abort, pool: &mut Pool) -> ([Answer; 4], [PoolTotals; 2]) {
    let (mut one, mut other) = opened_two(rt, pool);
    let answers = lent_to_two(rt, pool, &mut one, &mut other);
    let before = Pool::totals(pool, &one);
    close(rt, pool, one);
    (answers, [before, Pool::totals(pool, &other)])
}

/// The first account has a root chunk, and a chunk of the granule in the other root that the second
/// account's smallest chunk committed.
#[test]
fn what_one_of_two_accounts_closes_is_free(rt: HostRuntime) {
    let settings = limited(64, 2, Policy::Balanced, 0);
    let mut pool = Pool::new(rt.alloc(), settings).expect(&rt, "memory is ample");
    let told = told_by_two(&rt, &mut pool);
    drop(pool);
    let answers = [
        Ok((0, 0, 8192)),
        Ok((524288, 12, 128)),
        over_limit(2, 2, 1),
        Ok((528384, 7, 4096)),
    ];
    let before = PoolTotals {
        nodes: 1,
        granules: 2,
        lent: [1, 0, 0, 0, 0, 0, 0, 1, 0, 0, 0, 0, 1],
        free: [0, 1, 1, 1, 1, 1, 1, 0, 1, 1, 1, 1, 1],
        capacity: 528512,
        fronts: 12416,
        accounts: 2,
    };
    let after = PoolTotals {
        nodes: 1,
        granules: 1,
        lent: [0, 0, 0, 0, 0, 0, 0, 0, 0, 0, 0, 0, 1],
        free: [1; 13],
        capacity: 128,
        fronts: 128,
        accounts: 1,
    };
    same(&rt, &told, &(answers, [before, after]));
}

/// Lends an account a chunk of one granule, one of two, of which the first is committed, and one of
/// 512 words. One that isn't lent is missed in the map.
fn lend_three(pool: &mut Pool) {
    let Ok(mut account) = pool.open(Space::NonClass) else {
        return;
    };
    let (five, six, ten) = (Level::new(5), Level::new(6), Level::new(10));
    let _ = ChunkSource::take(pool, &mut account, six, six, 8192);
    let _ = ChunkSource::take(pool, &mut account, five, five, 1);
    let _ = ChunkSource::take(pool, &mut account, ten, ten, 2);
}

/// The maps of a new pool that has lent an account three chunks.
fn mapped(alloc: Global) -> Result<Vec<RootMap>, AllocError> {
    let mut pool = Pool::new(alloc, Settings::DEFAULT)?;
    lend_three(&mut pool);
    pool.maps(alloc)
}

/// The first chunk is cell 0, the second cells 2 and 3, the third 512 words of cell 1.
#[test]
fn a_map_tells_what_is_lent_and_committed(rt: HostRuntime) {
    let maps = mapped(rt.alloc()).expect(&rt, "memory is ample");
    let mut cells = [Cell::Free; 64];
    cells[0] = Cell::LentWholly;
    cells[1] = Cell::LentPartly;
    cells[2] = Cell::LentWholly;
    cells[3] = Cell::LentUncommitted;
    let first = RootMap { root: 0, cells };
    let (root, cells) = (1, [Cell::Free; 64]);
    same(
        &rt,
        &maps.as_slice(),
        &[first, RootMap { root, cells }].as_slice(),
    );
}
