//! What each loader holds at the end, and how its live words grew since half-way.
//!
//! Kept true: the list has each loader of the end once, in their order, with exactly its sums over
//! both spaces. Takes memory for the list, and while it is made for the names half-way.
ghost use Rattle.std.specs.Prelude.{◌≡◌, IfOk, map};
ghost use Rattle.ms_page.specs.Halfway.{IsTable};
ghost use Rattle.ms_page.specs.Holdings.{held_by, holding_of, since_of};

use crate::halfway::{live_at, live_by_name};
use crate::holding::{Growth, Holding, growth_between};
use crate::sums::add;
use ms_answers::LoaderDetails;
use ms_course::{Birth, Course};
use std::alloc::{AllocError, Global};

/// Makes the list of what each loader holds.
pub(crate) fn holdings(
    alloc: Global,
    course: &Course,
    loaders: &[LoaderDetails],
) -> Result<Vec<Holding>, AllocError>
    ensures { IfOk result (λ holdings. holdings.items ≡ map (holding_of course.now) loaders.now) }
{
    let table = live_by_name(alloc, course.halfway())?;
    list(alloc, course, table.as_slice(), loaders)
}

/// Makes the list, over the table of the names half-way.
fn list(
    alloc: Global,
    course: &Course,
    table: &[Option<u64>],
    loaders: &[LoaderDetails],
) -> Result<Vec<Holding>, AllocError>
    requires { IsTable table.now course.now.halfway }
    ensures { IfOk result (λ holdings. holdings.items ≡ map (holding_of course.now) loaders.now) }
{
    let mut holdings = Vec::with_capacity(alloc, loaders.len())?;
    for loader in loaders {
        holdings.push(hold(course, table, loader))?;
    }
    Ok(holdings)
}

/// Returns what a loader holds.
fn hold(course: &Course, table: &[Option<u64>], loader: &LoaderDetails) -> Holding
    requires { IsTable table.now course.now.halfway }
    ensures { result ≡ holding_of course.now loader.now }
{
    let since = since_of(course, loader.name);
    let live = add(loader.space.live, loader.class_space.live);
    let before = live_at(table, loader.name);
    let growth = if course.schedule().half <= since.position {
        Growth::New
    } else {
        growth_between(before, live)
    };
    held_by(loader, since, growth)
}

/// Returns the line that made a loader; one of which the course knows none counts as there from the
/// first line on.
fn since_of(course: &Course, name: u16) -> Birth
    ensures { result ≡ since_of course.now name }
{
    course.birth(name).unwrap_or(Birth {
        position: 0,
        line: 0,
    })
}

/// Adds up what a loader holds in both spaces.
fn held_by(loader: &LoaderDetails, since: Birth, growth: Growth) -> Holding
    ensures { result ≡ held_by loader.now since growth }
{
    let space = &loader.space;
    let class_space = &loader.class_space;
    Holding {
        name: loader.name,
        kind: loader.kind,
        since,
        chunks: u64::from(space.chunks) + u64::from(class_space.chunks),
        capacity: add(space.capacity, class_space.capacity),
        used: add(space.used, class_space.used),
        live: add(space.live, class_space.live),
        free_blocks: add(space.free_blocks, class_space.free_blocks),
        waste: add(space.waste, class_space.waste),
        growth,
    }
}
