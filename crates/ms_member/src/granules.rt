//! Granules that were committed and are no more, run by run.
//!
//!     was      # # # # . . # # # .     a program's flags, of the granules from 0 on
//!     now      # # . . . # . . # .
//!     runs         [ ]     [ ]         what the program gives back
//!
//! A run is the longest one from where it begins, so that two don't touch; the next one is asked for
//! from its end on. Nothing here takes memory. This project's choice; HotSpot gives back what it
//! uncommits by itself.
ghost use Rattle.std.specs.Prelude.{◌≡◌, ◌<◌, ◌≤◌, ℕ, Bool, true, false, IfSome, IfNone, length};
ghost use Rattle.ms_member.specs.Uncommitted.{is_uncommitted, IsFirst, IsNext, LacksFrom};

use ms_loaders::{GranuleRun, System};
use ms_shared::HeldSeat;

/// What has committed granules.
pub trait Granules {
    /// Which granules are committed, by their numbers.
    ghost commits: { Self → ℕ → Bool };

    /// Returns whether a granule is committed. Takes no memory.
    fn has(&self, granule: u64) -> bool
        ensures { result ≡ commits self.now granule };
}

impl Granules for System {
    ghost use Rattle.ms_member.specs.Uncommitted.{commits_in};

    ghost commits = { λ system. commits_in system.committed system.class_committed };

    fn has(&self, granule: u64) -> bool {
        self.is_committed(granule)
    }
}

impl Granules for HeldSeat {
    ghost use Rattle.ms_member.specs.Uncommitted.{commits_in};

    ghost commits = { λ held. commits_in held.pool.committed held.pool.class_committed };

    fn has(&self, granule: u64) -> bool {
        self.is_committed(granule)
    }
}

/// No granule at all: what is committed where there is no pool.
#[derive(Drop)]
pub struct NoGranules;

impl Granules for NoGranules {
    ghost use Rattle.ms_member.specs.Uncommitted.{commits_none};

    ghost commits = { λ _. commits_none };

    fn has(&self, _granule: u64) -> bool {
        false
    }
}

/// Returns the first run, from a granule on, of those that were committed by their flags and are no
/// more; one of no granules where there is none. Takes no memory.
pub fn next_run<G: Granules>(granules: &G, was: &[bool], from: u64) -> GranuleRun
    ensures { IsNext (is_uncommitted was.now (G.commits granules.now)) from result }
{
    match first_from(granules, was, from as usize) {
        Some(first) => {
            let end = end_of_run(granules, was, first);
            GranuleRun {
                first: first as u64,
                granules: (end - first) as u64,
                came: 0,
            }
        }
        None => GranuleRun {
            first: from,
            granules: 0,
            came: 0,
        },
    }
}

/// Returns the first such granule from a number on.
fn first_from<G: Granules>(granules: &G, was: &[bool], from: usize) -> Option<usize>
    ensures first { IfSome result (IsFirst (is_uncommitted was.now (G.commits granules.now)) from) }
    ensures flagged { IfSome result (λ first. first < length was.now) }
    ensures none { IfNone result (LacksFrom (is_uncommitted was.now (G.commits granules.now)) from) }
{
    for index in from..was.len() {
        if went(granules, was, index) {
            return Some(index);
        }
    }
    None
}

/// Returns where the run of such granules ends that begins with one.
fn end_of_run<G: Granules>(granules: &G, was: &[bool], first: usize) -> usize
    requires { first < length was.now }
    ensures after { first ≤ result }
    ensures each { (granule : ℕ) → first ≤ granule → granule < result
        → is_uncommitted was.now (G.commits granules.now) granule ≡ true }
    ensures ends { is_uncommitted was.now (G.commits granules.now) result ≡ false }
{
    for index in first..was.len() {
        if !went(granules, was, index) {
            return index;
        }
    }
    was.len()
}

/// Returns whether a granule was committed by its flag, and is no more.
fn went<G: Granules>(granules: &G, was: &[bool], index: usize) -> bool
    requires { index < length was.now }
    ensures { result ≡ is_uncommitted was.now (G.commits granules.now) index }
{
    was[index] && !granules.has(index as u64)
}
