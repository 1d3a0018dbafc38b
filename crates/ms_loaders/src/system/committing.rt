//! An allocation that tells which granules it committed: what a user asks who has the memory.
//!
//! It is the allocation of a step, with a look at the loader's current chunk before and after it.
ghost use Rattle.std.specs.Prelude.{◌≡◌, ◌+◌, ◌<◌, ◌^◌, IfOk, IfErr, IfSome};
ghost use Rattle.ms_base.specs.State.{arena_of};
ghost use Rattle.ms_base.specs.Good.{IsGood};
ghost use Rattle.ms_base.specs.Names.{named};
ghost use Rattle.ms_base.specs.Request.{alloc_in};
ghost use Rattle.ms_base.specs.Transition.{Transition};
ghost use Rattle.ms_loaders.specs.Committing.{IsEdge, TellsRun, front_before, run_of};

use super::System;
use crate::serving::allocate;
use ms_base::{Refusal, Reply, Space, granule};
use ms_loader::Loader;
use ms_loader_map::Loaders;
use ms_pool::Account;

/// A run of granules, by their numbers over both spaces; one of no granules where there is none. Its
/// layout is C's: three numbers of 64 bits, in this order.
#[repr(C)]
#[derive(Clone, Copy, Debug)]
pub struct GranuleRun {
    /// The number of the first one.
    pub first: u64,
    /// How many they are.
    pub granules: u64,
    /// How many of them became committed.
    pub came: u64,
}

/// A block that was allocated, and what became committed for it.
#[derive(Clone, Copy, Debug)]
pub struct Allocation {
    /// The word where the block starts.
    pub start: u64,
    /// The granules that became committed.
    pub run: GranuleRun,
}

/// How many chunks an arena has, and where the last one starts and how far it is committed.
#[derive(Clone, Copy)]
pub(crate) struct Edge {
    pub(crate) held: u64,
    pub(crate) start: u64,
    pub(crate) front: u64,
}

impl Edge {
    /// Of no chunk.
    const NONE: Edge = Edge {
        held: 0,
        start: 0,
        front: 0,
    };
}

impl System {
    /// Allocates a block of zeros in a space, as a step does, and returns the run of granules that
    /// it committed: each that became committed lies in it, and each of it is committed then. Under
    /// the policies balanced and aggressive these are all granules of the run; under none some of
    /// it may have been committed before. Refused as the step is, and then nothing changes. Takes
    /// memory. This project's choice.
    pub fn allocate_with_run(
        &mut self,
        space: Space,
        name: u16,
        block: u32,
        words: u64,
    ) -> Result<Allocation, Refusal>
        ensures served { IfOk result (λ made.
            Transition self.old (alloc_in space name block words) (Reply.At made.start) self.new) }
        ensures run { IfOk result (λ made. TellsRun space self.old made.run self.new) }
        ensures refused { IfErr result (λ refusal.
            Transition self.old (alloc_in space name block words) (Reply.Refused refusal) self.new) }
        ensures good { IsGood self.new }
    {
        let before = self.pool.committed();
        let edge = edge_at(&self.loaders, space, name);
        let answer = allocate(&mut self.pool, &mut self.loaders, space, name, block, words);
        let came = self.pool.committed().saturating_sub(before);
        let now = edge_after(&self.loaders, space, name, came);
        let start = match answer {
            Ok(start) => start,
            Err(refusal) => return Err(refusal),
        };
        Ok(Allocation {
            start,
            run: run_between(granule(self.policy), edge, now, came),
        })
    }
}

/// Returns how many chunks the loader of a name has in a space, and the current one.
fn edge_at(loaders: &Loaders, space: Space, name: u16) -> Edge
    ensures edge { IfSome (named loaders.now name)
        (λ loader. IsEdge (arena_of space loader.state).chunks result) }
    ensures small { result.start + result.front < 2 ^ 53 }
{
    match loaders.get(name) {
        Some(loader) => edge_in(loader, space),
        None => Edge::NONE,
    }
}

/// Returns the same once so many granules came: where none did, nobody asks for it, and none is
/// looked for.
fn edge_after(loaders: &Loaders, space: Space, name: u16, came: u64) -> Edge
    ensures edge { 0 < came → IfSome (named loaders.now name)
        (λ loader. IsEdge (arena_of space loader.state).chunks result) }
    ensures small { result.start + result.front < 2 ^ 53 }
{
    if came == 0 {
        return Edge::NONE;
    }
    edge_at(loaders, space, name)
}

/// Returns how many chunks a loader has in a space, and the current one.
fn edge_in(loader: &Loader, space: Space) -> Edge
    ensures edge { IsEdge (arena_of space loader.now.state).chunks result }
    ensures small { result.start + result.front < 2 ^ 53 }
{
    let (account, class_account) = loader.accounts();
    match space {
        Space::NonClass => edge_of(account),
        Space::Class => edge_of(class_account),
    }
}

/// Returns how many chunks an account holds, and the last one.
fn edge_of(account: &Account) -> Edge
    ensures edge { IsEdge account.now.chunks result }
    ensures small { result.start + result.front < 2 ^ 53 }
{
    let held = account.held();
    if held == 0 {
        return Edge::NONE;
    }
    let chunk = account.chunk(held - 1);
    Edge {
        held: u64::from(held),
        start: chunk.start,
        front: chunk.front,
    }
}

/// Returns the granules of the front now that hold no word of the same chunk's front before.
fn run_between(granule: u64, before: Edge, now: Edge, came: u64) -> GranuleRun
    requires some { 0 < granule }
    requires small { now.start + now.front < 2 ^ 53 }
    requires before_small { before.start + before.front < 2 ^ 53 }
    ensures { result ≡ run_of granule (front_before before now) now.start now.front came }
{
    if came == 0 {
        return GranuleRun {
            first: 0,
            granules: 0,
            came: 0,
        };
    }
    let front = if now.held == before.held {
        before.front
    } else {
        0
    };
    let first = if front == 0 {
        now.start / granule
    } else {
        (now.start + front - 1) / granule + 1
    };
    let end = (now.start + now.front).saturating_sub(1) / granule + 1;
    GranuleRun {
        first,
        granules: end.saturating_sub(first),
        came,
    }
}
