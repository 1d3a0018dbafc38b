//! Dealing a phase's lines and all loaders to shares, a share for each worker that has lines.
//!
//!     lines    3  1  4  3       loaders  1 2 3 4 5 6 7
//!     share 0: 3  1     3       share 0: 1 2 3   5 6 7       2, 5, 6 and 7 stand by
//!     share 1:       4          share 1:       4
//!
//! Kept true: lines and loader of one name are in one share, whose seat serves the loader. The
//! first share's seat serves all at first, and hands on what the others' lines name, so a loader
//! that stands by stays there. Each share has a seat of the phase's meter, with nothing counted
//! yet. Takes memory for seats, lists of lines and of replies, and positions of loaders; nothing
//! waits.
ghost use Rattle.std.specs.Prelude.{◌≡◌, ◌+◌, ◌∷◌, [], ◌≤◌, map, IfOk, OnOk, vec_len};
ghost use Rattle.std.specs.Prelude.{◌<◌};
ghost use Rattle.std.specs.Prelude.{◌≢◌, ℕ, IsTrue, List, Some, slice_get};
ghost use Rattle.std.specs.Option.{is_some};
ghost use Rattle.ms_base.specs.declared.kind.Space.TheVariants.{NonClass, Class};
ghost use Rattle.ms_base.specs.Names.{named};
ghost use Rattle.ms_run.specs.Turn.{HaveOwnShares, shares_in, position_in};
ghost use Rattle.ms_loader.specs.Loader.{account_in};
ghost use Rattle.ms_loaders.specs.System.{AreTogether};
ghost use Rattle.ms_loader_map.specs.Used.{used_in};
ghost use Rattle.ms_shared.specs.SeatView.{ServesBy, new_seats, opened_by, with_account};
ghost use Rattle.ms_shared.specs.SeatView.{without_account};
ghost use Rattle.ms_run.specs.Metering.{used_over, meter_of};
ghost use Rattle.ms_trace.specs.declared.trace.Line.{Line as LineOf};
ghost use Rattle.ms_run.specs.Shares.{AreDealt, AreSteps, tasks_by, tasks_of, names_in, position_for};
ghost use Rattle.ms_run.specs.Dealing.{AreCrews, AreListed, AreEmpty, AreAdded, IsHanded};
ghost use Rattle.ms_run.specs.Dealing.{AreHanded, AreSeats};
ghost use Rattle.ms_run.specs.Dealing.{AreDealtTo, AreWorkersFrom, HaveMeters, IsNewShare, IsSameSeat};
ghost use Rattle.ms_run.specs.Shares.{AreOfTurn};

use crate::gathering::put_loader;
use crate::share::{Share, read_task};
use crate::turn::{Turn, loader_named};
use ms_loader::Loader;
use ms_loader_map::Loaders;
use ms_pool::Pool;
use ms_shared::{MeterSeat, PoolSeat, SharedPool, UsedMeter};
use ms_trace::{Command, Line};
use std::alloc::{AllocError, Global};
use std::mem;

/// A seat, and the loaders that it serves.
#[derive(Drop)]
struct Crew {
    seat: PoolSeat,
    loaders: Loaders,
}

/// What a worker is given beside its crew: its number, its seat of the meter and the indices of its
/// lines.
#[derive(Drop)]
struct Assignment {
    worker: usize,
    meter: MeterSeat,
    indices: Vec<usize>,
}

/// Deals lines and loaders to shares over one lock and one meter. An error means that memory was
/// wanting.
pub fn deal(
    alloc: Global,
    turn: &Turn,
    lines: &[Line],
    pool: Pool,
    loaders: Loaders,
) -> Result<(SharedPool, Vec<Share>, UsedMeter), AllocError>
    requires together { AreTogether pool loaders }
    requires steps { AreSteps lines.now }
    requires shared { HaveOwnShares turn.now lines.now }
    ensures workers { IfOk result (λ made. AreOfTurn turn.now made.1.items lines.now) }
    ensures dealt { IfOk result (λ made. AreDealt (position_for (position_in turn.now) lines.now)
        made.0 made.1.items lines.now loaders) }
    ensures first { IfOk result (λ made. made.0.first ≡ pool) }
    ensures meters { IfOk result (λ made. HaveMeters made.2 (vec_len made.1) made.1.items) }
    ensures used { IfOk result (λ made. used_over made.1.items ≡ used_in loaders) }
{
    let count = turn.shares();
    let (shared, seats) = lock(alloc, pool, count)?;
    let (shares, meter) = deal_metered(alloc, turn, lines, &shared, seats, loaders)?;
    Ok((shared, shares, meter))
}

/// Deals lines and loaders to a share for each seat, over a meter of as many seats.
fn deal_metered(
    alloc: Global,
    turn: &Turn,
    lines: &[Line],
    shared: &SharedPool,
    seats: Vec<PoolSeat>,
    loaders: Loaders,
) -> Result<(Vec<Share>, UsedMeter), AllocError>
    requires count { vec_len seats ≡ shares_in turn.now }
    requires seats { AreSeats shared.now seats.items loaders }
    ensures workers { IfOk result (λ made. AreWorkersFrom turn.now.active 0 made.0.items) }
    ensures dealt { IfOk result (λ made.
        AreDealtTo (position_for (position_in turn.now) lines.now) shared.now (vec_len seats) lines.now
        loaders
        made.0.items) }
    ensures meters { IfOk result (λ made. HaveMeters made.1 (vec_len made.0) made.0.items) }
    ensures used { IfOk result (λ made. used_over made.0.items ≡ used_in loaders) }
{
    let (meter, meters) = UsedMeter::new(alloc, turn.shares())?;
    let shares = deal_to(alloc, turn, lines, shared, seats, meters, loaders)?;
    Ok((shares, meter))
}

/// Puts the pool behind a lock with so many seats.
fn lock(alloc: Global, pool: Pool, count: usize) -> Result<(SharedPool, Vec<PoolSeat>), AllocError>
    requires some { 1 ≤ count }
    requires few { count ≤ 8 }
    ensures lock { IfOk result (λ made. made.0.seats ≡ count) }
    ensures first { IfOk result (λ made. made.0.first ≡ pool) }
    ensures seats { IfOk result (λ made. made.1.items ≡ new_seats made.0.id count pool) }
{
    match SharedPool::new(alloc, pool, count) {
        Ok(made) => Ok(made),
        Err(refused) => {
            drop(refused);
            Err(AllocError)
        }
    }
}

/// Deals lines and loaders to a share for each seat, of which the first serves all loaders, and
/// gives each a seat of the meter.
fn deal_to(
    alloc: Global,
    turn: &Turn,
    lines: &[Line],
    shared: &SharedPool,
    mut seats: Vec<PoolSeat>,
    mut meters: Vec<MeterSeat>,
    loaders: Loaders,
) -> Result<Vec<Share>, AllocError>
    requires count { vec_len seats ≡ shares_in turn.now }
    requires seats { AreSeats shared.now seats.items loaders }
    requires meters { vec_len meters ≡ vec_len seats }
    ensures workers { IfOk result (λ shares. AreWorkersFrom turn.now.active 0 shares.items) }
    ensures dealt { IfOk result (λ shares.
        AreDealtTo (position_for (position_in turn.now) lines.now) shared.now (vec_len seats) lines.now
        loaders
        shares.items) }
    ensures meters { IfOk result (λ shares. map meter_of shares.items ≡ meters.items) }
    ensures used { IfOk result (λ shares. used_over shares.items ≡ used_in loaders) }
{
    let mut shares = Vec::with_capacity(alloc, seats.len())?;
    let mut lists = deal_lines(alloc, turn, lines, seats.len())?;
    let seat = seats.remove(0);
    let first_meter = meters.remove(0);
    let mut first = Crew { seat, loaders };
    for seat in seats {
        let at = shares.len() + 1;
        let indices = take_list(alloc, &mut lists, at);
        let meter = meters.remove(0);
        let worker = turn.worker(at);
        let own = Assignment {
            worker,
            meter,
            indices,
        };
        let share = share_beside(alloc, shared, lines, &mut first, seat, own)?;
        shares.push_reserved(share);
    }
    let indices = take_list(alloc, &mut lists, 0);
    let own = Assignment {
        worker: turn.worker(0),
        meter: first_meter,
        indices,
    };
    let share = make_share(alloc, own, first)?;
    put_first(shares, share)
}

/// Puts a share before the others.
fn put_first(mut shares: Vec<Share>, share: Share) -> Result<Vec<Share>, AllocError>
    ensures items { IfOk result (λ all. all.items ≡ share ∷ shares.items) }
{
    match shares.insert(0, share) {
        Ok(()) => Ok(shares),
        Err(refused) => {
            drop(refused);
            Err(AllocError)
        }
    }
}

/// Makes the share of a worker with a seat that serves nothing: the first crew hands on all loaders
/// that the lines at the indices name.
fn share_beside(
    alloc: Global,
    shared: &SharedPool,
    lines: &[Line],
    first: &mut Crew,
    seat: PoolSeat,
    own: Assignment,
) -> Result<Share, AllocError>
    requires { AreCrews shared.now first.old.seat first.old.loaders seat [] }
    ensures made { IfOk result (IsNewShare own.worker own.indices.items own.meter) }
    ensures crews { IfOk result (λ share.
        AreCrews shared.now first.new.seat first.new.loaders share.seat share.loaders) }
    ensures handed { IfOk result (λ share.
        AreHanded (names_in (tasks_by lines.now own.indices.items)) first.old.loaders
        first.new.loaders share.loaders) }
    ensures first { IfOk result (λ share. IsSameSeat first.old.seat first.new.seat) }
    ensures seat { IfOk result (λ share. IsSameSeat seat share.seat) }
    ensures used { IfOk result (λ share.
        used_in first.new.loaders + used_in share.loaders ≡ used_in first.old.loaders) }
{
    let loaders = Loaders::new(alloc);
    let mut crew = Crew { seat, loaders };
    hand_all(shared, lines, own.indices.as_slice(), first, &mut crew)?;
    make_share(alloc, own, crew)
}

/// Makes the share of a worker, with room for its replies.
fn make_share(alloc: Global, own: Assignment, crew: Crew) -> Result<Share, AllocError>
    ensures made { IfOk result (IsNewShare own.worker own.indices.items own.meter) }
    ensures seat { IfOk result (λ share. share.seat ≡ crew.seat) }
    ensures loaders { IfOk result (λ share. share.loaders ≡ crew.loaders) }
{
    let replies = Vec::with_capacity(alloc, own.indices.len())?;
    let Crew { seat, loaders } = crew;
    let Assignment {
        worker,
        meter,
        indices,
    } = own;
    Ok(Share {
        worker,
        seat,
        meter,
        loaders,
        indices,
        replies,
    })
}

/// Lists the indices of each share's lines, in their order.
fn deal_lines(
    alloc: Global,
    turn: &Turn,
    lines: &[Line],
    count: usize,
) -> Result<Vec<Vec<usize>>, AllocError>
    requires count { count ≡ shares_in turn.now }
    ensures listed { IfOk result (λ lists.
        AreListed lines.now (position_in turn.now) lines.now lists.items) }
    ensures count { IfOk result (λ lists. vec_len lists ≡ count) }
{
    // An eighth more than an even share, since lines seldom go evenly.
    let even = lines.len() / count.max(1);
    let mut lists = empty_lists(alloc, count, even.saturating_add(even / 8))?;
    for (index, line) in lines.iter().enumerate() {
        add_line(turn, index, *line, &mut lists)?;
    }
    Ok(lists)
}

/// Makes so many lists of no line, each with room for some.
fn empty_lists(alloc: Global, count: usize, room: usize) -> Result<Vec<Vec<usize>>, AllocError>
    ensures listed { IfOk result (λ lists. AreEmpty lists.items) }
    ensures count { IfOk result (λ lists. vec_len lists ≡ count) }
{
    let mut lists = Vec::with_capacity(alloc, count)?;
    for _ in 0..count {
        let list = Vec::with_capacity(alloc, room)?;
        lists.push_reserved(list);
    }
    Ok(lists)
}

/// Adds a line's index to the list of the share that it goes to.
fn add_line(
    turn: &Turn,
    index: usize,
    line: Line,
    lists: &mut Vec<Vec<usize>>,
) -> Result<(), AllocError>
    requires count { vec_len lists.old ≡ shares_in turn.now }
    ensures count { vec_len lists.new ≡ vec_len lists.old }
    ensures added { (lines : List LineOf) → slice_get lines index ≡ Some line → OnOk result
        (AreAdded lines (tasks_of (line ∷ [])) (position_in turn.now) lists.old.items
        lists.new.items) }
{
    let Command::Step(step) = line.command() else {
        return Ok(());
    };
    let at = turn.position(loader_named(&step));
    lists[at].push(index)?;
    Ok(())
}

/// Takes the list of a share out, and leaves an empty one.
fn take_list(alloc: Global, lists: &mut Vec<Vec<usize>>, at: usize) -> Vec<usize>
    requires within { at < vec_len lists.old }
    ensures taken { slice_get lists.old.items at ≡ Some result }
    ensures count { vec_len lists.new ≡ vec_len lists.old }
    ensures others { (other : ℕ) → other ≢ at
        → slice_get lists.new.items other ≡ slice_get lists.old.items other }
{
    mem::replace(&mut lists[at], Vec::new(alloc))
}

/// Hands on all loaders that the lines at some indices name, to a crew that has none.
fn hand_all(
    shared: &SharedPool,
    lines: &[Line],
    indices: &[usize],
    from: &mut Crew,
    to: &mut Crew,
) -> Result<(), AllocError>
    requires crews { AreCrews shared.now from.old.seat from.old.loaders to.old.seat to.old.loaders }
    requires none { to.old.loaders ≡ [] }
    ensures crews { OnOk result
        (AreCrews shared.now from.new.seat from.new.loaders to.new.seat to.new.loaders) }
    ensures handed { OnOk result
        (AreHanded (names_in (tasks_by lines.now indices.now)) from.old.loaders from.new.loaders
        to.new.loaders) }
    ensures from { OnOk result (IsSameSeat from.old.seat from.new.seat) }
    ensures to { OnOk result (IsSameSeat to.old.seat to.new.seat) }
    ensures used { OnOk result
        (used_in from.new.loaders + used_in to.new.loaders
        ≡ used_in from.old.loaders + used_in to.old.loaders) }
{
    for at in indices {
        let task = read_task(lines, *at);
        // A loader goes over at the first line that names it.
        if let Some(name) = loader_named(&task.step) {
            if from.loaders.contains(name) {
                hand_on(shared, name, from, to)?;
            }
        }
    }
    Ok(())
}

/// Hands the loader of a name on, which is there: both of its accounts, then itself. Out of line,
/// since most lines name one that went over.
#[inline(never)]
fn hand_on(shared: &SharedPool, name: u16, from: &mut Crew, to: &mut Crew) -> Result<(), AllocError>
    requires there { IsTrue (is_some (named from.old.loaders name)) }
    requires crews { AreCrews shared.now from.old.seat from.old.loaders to.old.seat to.old.loaders }
    ensures crews { OnOk result
        (AreCrews shared.now from.new.seat from.new.loaders to.new.seat to.new.loaders) }
    ensures handed { OnOk result
        (IsHanded name from.old.loaders to.old.loaders from.new.loaders to.new.loaders) }
    ensures from { OnOk result (IsSameSeat from.old.seat from.new.seat) }
    ensures to { OnOk result (IsSameSeat to.old.seat to.new.seat) }
    ensures used { OnOk result
        (used_in from.new.loaders + used_in to.new.loaders
        ≡ used_in from.old.loaders + used_in to.old.loaders) }
{
    let Some(loader) = from.loaders.remove(name) else {
        unreachable!()
    };
    hand_accounts(shared, &loader, &mut from.seat, &mut to.seat);
    let Ok(()) = put_loader(name, loader, &mut to.loaders) else {
        return Err(AllocError);
    };
    Ok(())
}

/// Hands both accounts of a loader on.
fn hand_accounts(shared: &SharedPool, loader: &Loader, from: &mut PoolSeat, to: &mut PoolSeat)
    requires own { from.old.id ≡ shared.now.id }
    requires to_own { to.old.id ≡ shared.now.id }
    requires served { ServesBy from.old.knows (account_in NonClass loader.now) }
    requires counted { 0 < opened_by from.old.knows NonClass }
    requires class_served { ServesBy (without_account loader.now.owner NonClass from.old.knows)
        (account_in Class loader.now) }
    requires class_counted { 0 < opened_by
        (without_account loader.now.owner NonClass from.old.knows) Class }
    ensures from { from.new ≡ record from.old {
      knows = without_account loader.now.class_owner Class
          (without_account loader.now.owner NonClass from.old.knows);
    } }
    ensures to { to.new ≡ record to.old {
      knows = with_account loader.now.class_owner Class
          (without_account loader.now.owner NonClass from.old.knows)
          (with_account loader.now.owner NonClass from.old.knows to.old.knows);
    } }
{
    let (account, class_account) = loader.accounts();
    shared.hand(from, to, account);
    shared.hand(from, to, class_account);
}
