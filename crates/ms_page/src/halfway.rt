//! The loaders half-way by name, so that one look finds each.
//!
//! Kept true: a table has the live words of each name that there was half-way, of the last loader
//! of the name where it recurs, and nothing at other names. Takes memory for 65536 names.
ghost use Rattle.std.specs.Prelude.{◌≡◌, ◌<◌, ℕ, [], IfOk, List, length, slice_index_or};
ghost use Rattle.ms_course.specs.declared.course.LoaderThen.{LoaderThen as Then};
ghost use Rattle.ms_page.specs.Halfway.{IsTable, live_then};

use ms_course::LoaderThen;
use std::alloc::{AllocError, Global};

/// How many names there are.
const NAMES: usize = 65536;

/// Makes the table of the live words half-way, by name.
pub(crate) fn live_by_name(
    alloc: Global,
    halfway: &[LoaderThen],
) -> Result<Vec<Option<u64>>, AllocError>
    ensures { IfOk result (λ table. IsTable table.items halfway.now) }
{
    let mut table = empty(alloc, NAMES)?;
    fill(&mut table, halfway);
    Ok(table)
}

/// Makes a table of so many names that has nothing at any.
fn empty(alloc: Global, names: usize) -> Result<Vec<Option<u64>>, AllocError>
    ensures count { IfOk result (λ table. length table.items ≡ names) }
    ensures each { IfOk result (λ table. (name : ℕ) → name < names
        → slice_index_or table.items name None ≡ None) }
{
    let mut table = Vec::new(alloc);
    table.resize(names, None)?;
    Ok(table)
}

/// Fills an empty table.
fn fill(table: &mut Vec<Option<u64>>, halfway: &[LoaderThen])
    requires { IsTable table.old.items [] }
    ensures { IsTable table.new.items halfway.now }
{
    for loader in halfway {
        table[usize::from(loader.name)] = Some(loader.live);
    }
}

/// Returns the live words of a name half-way, where there was such a loader.
pub(crate) fn live_at(table: &[Option<u64>], name: u16) -> Option<u64>
    requires { length table.now ≡ 65536 }
    ensures { (halfway : List Then) → IsTable table.now halfway
        → result ≡ live_then halfway name }
{
    table[usize::from(name)]
}
