//! The largest loaders, in order: more capacity first, of equal ones the lower name.
//!
//! Kept true: of all loaders none that is left out comes before one that is in the list. Takes
//! memory for 21 loaders.
ghost use Rattle.std.specs.Prelude.{◌≡◌, ◌≤◌, IfOk, OnOk, length, take};
ghost use Rattle.ms_page.specs.Largest.{comes_before, largest_of, position_of, ranked_with};

use crate::holding::Holding;
use std::alloc::{AllocError, Global};

/// How many loaders the list has at most.
const MOST: usize = 20;

/// Makes the list of the largest loaders.
pub(crate) fn largest(alloc: Global, holdings: &[Holding]) -> Result<Vec<Holding>, AllocError>
    ensures { IfOk result (λ largest. largest.items ≡ largest_of holdings.now) }
{
    let mut largest = Vec::with_capacity(alloc, MOST + 1)?;
    for holding in holdings {
        rank(&mut largest, holding)?;
    }
    Ok(largest)
}

/// Puts one more loader at its position, and leaves out the last one where there are too many.
fn rank(largest: &mut Vec<Holding>, holding: &Holding) -> Result<(), AllocError>
    ensures { OnOk result (largest.new.items
        ≡ take 20 (ranked_with holding.now largest.old.items)) }
{
    let position = position_of(largest, holding);
    largest.insert(position, *holding)?;
    largest.truncate(MOST);
    Ok(())
}

/// Returns how many of the largest loaders come before one.
fn position_of(largest: &[Holding], holding: &Holding) -> usize
    ensures position { result ≡ position_of holding.now largest.now }
    ensures within { result ≤ length largest.now }
{
    for (position, other) in largest.iter().enumerate() {
        if !comes_before(other, holding) {
            return position;
        }
    }
    largest.len()
}

/// Says whether one loader comes before another.
fn comes_before(one: &Holding, other: &Holding) -> bool
    ensures { result ≡ comes_before one.now other.now }
{
    one.capacity > other.capacity || one.capacity == other.capacity && one.name < other.name
}
