//! Gathering the shares of a phase: the pool comes out of its lock, the loaders come together, and
//! both are one system again.
//!
//! Kept true: each seat counts just the accounts of its share's loaders, so the parts belong
//! together, and no name is in two shares. No loader that stands by is looked at. The seats of the
//! meter come out as they are. Takes memory for seats and for positions of loaders; nothing waits.
ghost use Rattle.std.specs.Prelude.{◌≡◌, [], IsOk, IfOk, IfErr, OnOk, None, map, vec_len};
ghost use Rattle.std.specs.List.{All};
ghost use Rattle.ms_base.specs.declared.refusal.Refusal.TheVariants as Refusal;
ghost use Rattle.ms_base.specs.Names.{AreNamed, named, with_new};
ghost use Rattle.ms_loader_map.specs.Loaders.{InsertRefused};
ghost use Rattle.ms_shared.specs.SeatView.{SeatState, Gathers, IsHistory};
ghost use Rattle.ms_run.specs.Joined.{HaveOtherNames, IsJoined, AreJoined, IsWantOrUnsettled};
ghost use Rattle.ms_run.specs.Joined.{IsEnded};
ghost use Rattle.ms_run.specs.Joined.{seat_of};
ghost use Rattle.ms_run.specs.Metering.{meter_of};
ghost use Rattle.ms_run.specs.Shares.{Position, AreApart, IsMannedShare, StandOver};

use crate::fault::RunFault;
use crate::share::Share;
use ms_base::Refusal;
use ms_loader::Loader;
use ms_loader_map::Loaders;
use ms_loaders::System;
use ms_pool::Pool;
use ms_shared::{MeterSeat, PoolSeat, SharedPool};
use std::alloc::Global;

/// Gathers the shares that stand over the lock, and gives their seats of the meter out. An error
/// means that memory was wanting.
pub fn gather(
    alloc: Global,
    shared: SharedPool,
    shares: Vec<Share>,
) -> Result<(System, Vec<MeterSeat>), RunFault>
    requires stand { StandOver shared (vec_len shares) shares.items }
    requires apart { (position : Position) × AreApart position shares.items }
    ensures gathered { IfOk result (λ ended. IsEnded shared.first shares.items ended.0) }
    ensures meters { IfOk result (λ ended. ended.1.items ≡ map meter_of shares.items) }
    ensures wanting { IfErr result (λ fault. fault ≡ RunFault.OutOfMemory) }
{
    let (seats, loaders, meters) = take_apart(alloc, shares)?;
    let pool = open(shared, seats)?;
    // What holds of every pool is learnt here.
    let _ = pool.committed();
    Ok((System::from_parts(alloc, pool, loaders), meters))
}

/// Gives the pool out of its lock, to which all seats are given back.
fn open(shared: SharedPool, seats: Vec<PoolSeat>) -> Result<Pool, RunFault>
    requires own { All (λ (seat : SeatState). seat.id ≡ shared.id) seats.items }
    requires count { shared.seats ≡ vec_len seats }
    ensures opens { IsOk result }
    ensures gathered { IfOk result (λ pool. Gathers seats.items pool) }
    ensures limits { IfOk result (λ pool. pool.limits ≡ shared.first.limits) }
    ensures history { IfOk result (λ pool. IsHistory shared.first seats.items pool) }
{
    match shared.into_pool(seats) {
        Ok(pool) => Ok(pool),
        Err((refusal, shared, seats)) => {
            drop((shared, seats));
            Err(fault_of(refusal))
        }
    }
}

/// Takes both seats and the loaders out of the shares, and puts the loaders together.
fn take_apart(
    alloc: Global,
    shares: Vec<Share>,
) -> Result<(Vec<PoolSeat>, Loaders, Vec<MeterSeat>), RunFault>
    requires apart { (position : Position) × AreApart position shares.items }
    requires manned { All IsMannedShare shares.items }
    ensures seats { IfOk result (λ parts. parts.0.items ≡ map seat_of shares.items) }
    ensures loaders { IfOk result (λ parts. AreJoined [] shares.items parts.1) }
    ensures named { IfOk result (λ parts. AreNamed parts.1) }
    ensures meters { IfOk result (λ parts. parts.2.items ≡ map meter_of shares.items) }
    ensures wanting { IfErr result (λ fault. fault ≡ RunFault.OutOfMemory) }
{
    let mut seats = Vec::with_capacity(alloc, shares.len())?;
    let mut meters = Vec::with_capacity(alloc, shares.len())?;
    let mut loaders = Loaders::new(alloc);
    for share in shares {
        seats.push_reserved(share.seat);
        meters.push_reserved(share.meter);
        loaders = join(loaders, share.loaders)?;
    }
    Ok((seats, loaders, meters))
}

/// Puts two lists of loaders together: the fewer come to the others.
fn join(whole: Loaders, part: Loaders) -> Result<Loaders, RunFault>
    requires others { HaveOtherNames whole part }
    requires named { AreNamed whole }
    requires part_named { AreNamed part }
    ensures joined { IfOk result (λ joined. IsJoined whole part joined) }
    ensures named { IfOk result AreNamed }
    ensures wanting { IfErr result (λ fault. fault ≡ RunFault.OutOfMemory) }
{
    if whole.len() < part.len() {
        return insert_all(part, whole);
    }
    insert_all(whole, part)
}

/// Moves the loaders of a part to the others, one by one. Takes memory for each.
fn insert_all(mut whole: Loaders, mut part: Loaders) -> Result<Loaders, RunFault>
    requires others { HaveOtherNames whole part }
    requires named { AreNamed whole }
    requires part_named { AreNamed part }
    ensures joined { IfOk result (λ joined. IsJoined whole part joined) }
    ensures named { IfOk result AreNamed }
    ensures wanting { IfErr result (λ fault. fault ≡ RunFault.OutOfMemory) }
{
    while let Some((name, loader)) = part.pop_first() {
        if let Err(refusal) = put_loader(name, loader, &mut whole) {
            return Err(fault_of(refusal));
        }
    }
    Ok(whole)
}

/// Puts a loader to others; one that is refused is dropped.
pub fn put_loader(name: u16, loader: Loader, others: &mut Loaders) -> Result<(), Refusal>
    ensures fresh { OnOk result (named others.old name ≡ None) }
    ensures inserted { OnOk result (others.new ≡ with_new others.old name loader) }
    ensures refused { IfErr result (InsertRefused others.old name) }
{
    match others.insert(name, loader) {
        Ok(()) => Ok(()),
        Err((refusal, loader)) => {
            drop(loader);
            Err(refusal)
        }
    }
}

/// Returns the fault that a refusal at the end of a phase is.
pub fn fault_of(refusal: Refusal) -> RunFault
    requires { IsWantOrUnsettled refusal }
    ensures { refusal ≡ Refusal.OutOfMemory → result ≡ RunFault.OutOfMemory }
{
    match refusal {
        Refusal::Unsettled { opened, gathered } => RunFault::Unsettled { opened, gathered },
        Refusal::OutOfMemory => RunFault::OutOfMemory,
        _ => unreachable!(),
    }
}
