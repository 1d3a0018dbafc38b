//! The positions of an arena's stretches but that of the newest: of a few in a list, of many in
//! groups.
//!
//!     few      | 70: 1 | 3: 2 | 71: 3 |  room  |      16 at most, looked at from the last one on
//!     many     group     0   1   2   ..             32 stretches each, once there may be more
//!              number  | 1 | 0 | 2 | .. | room for all of the space |
//!              position | 0 0 0 .. | 0 0 0 2 .. | .. 1 3 .. |  room  |
//!                        of none     of group 0   of group 2
//!
//! Most arenas reach into a few stretches, for which a list is asked for once. Of many a position
//! is two indexings away. The numbers are written up to the last group that has one, and nothing
//! touches the room. Only `reserve` takes memory.
ghost use Rattle.std.specs.Prelude.{◌≡◌, ℕ, ◌+◌, ◌-◌, ◌<◌, ◌≤◌, IfOk, OnOk, cond, length, nat_eq, slice_index_or, vec_capacity, vec_len};
ghost use Rattle.ms_arena.specs.Others.{AreGroups, Enters, IsTable, StayPositioned, others_in, position_among, position_grouped};
ghost use Rattle.ms_arena.specs.Others.{position_listed};

use super::positions::Positioned;
use std::alloc::{AllocError, Global};
use std::marker::Model;

/// How many stretches the list has at most.
const FEW: usize = 16;

/// How many stretches a group has.
const GROUP: usize = 32;

/// How many groups the space has, whose words are numbered below 2^27.
const GROUPS: usize = 2048;

/// Stretches with their positions.
#[derive(Drop)]
enum Table {
    /// Of at most 16.
    Few(Vec<Positioned>),
    /// Of any number, by groups.
    Many {
        /// The number of each group, 0 where it has none, and further on.
        numbers: Vec<usize>,
        /// The positions by the number of their group; those of the number 0 are 0.
        positions: Vec<usize>,
    },
}

/// The positions of stretches.
#[derive(Drop)]
pub struct Others {
    table: Table,
}

impl Model for Others {
    ghost use Rattle.ms_arena.specs.Others.{OthersView, IsTable, others_in};

    ghost Value = { OthersView };

    ghost view = { λ others. others_in others.table };

    ghost invariant = { λ others. IsTable others.table };
}

impl Others {
    /// Makes a list of no stretch, which takes its memory from the allocator. Takes none yet.
    pub(crate) fn new(alloc: Global) -> Others
        ensures { (stretch : ℕ) → position_among result stretch ≡ 0 }
    {
        Others {
            table: Table::Few(Vec::new(alloc)),
        }
    }

    /// Takes all stretches out, and keeps the memory that they had.
    pub(crate) fn clear(&mut self)
        ensures { (stretch : ℕ) → position_among self.new stretch ≡ 0 }
    {
        match &mut self.table {
            Table::Few(list) => list.clear(),
            Table::Many { numbers, positions } => {
                numbers.clear();
                positions.truncate(GROUP);
            }
        }
    }

    /// Returns for how many stretches there is memory.
    pub(crate) fn capacity(&self) -> usize {
        match &self.table {
            Table::Few(list) => list.capacity(),
            Table::Many {
                numbers: _,
                positions,
            } => positions.capacity(),
        }
    }

    /// Returns for how many stretches more there is room at least.
    pub(crate) fn spare(&self) -> usize
        ensures { result ≤ self.now.spare }
    {
        match &self.table {
            Table::Few(list) => list.capacity() - list.len(),
            Table::Many {
                numbers: _,
                positions,
            } => (positions.capacity() - positions.len()) / GROUP,
        }
    }

    /// Makes room for so many stretches more; the positions stay.
    pub(crate) fn reserve(&mut self, alloc: Global, stretches: usize) -> Result<(), AllocError>
        ensures room { OnOk result (stretches ≤ self.new.spare) }
        ensures stay { StayPositioned self.old self.new }
    {
        match &mut self.table {
            Table::Few(list) => {
                if stretches.saturating_add(list.len()) <= FEW {
                    return list.reserve(stretches);
                }
                self.table = spread(alloc, list.as_slice(), stretches)?;
                Ok(())
            }
            Table::Many {
                numbers: _,
                positions,
            } => positions.reserve(stretches.saturating_mul(GROUP)),
        }
    }

    /// Returns the position of a stretch, or 0 where it has none.
    #[inline(always)]
    pub(crate) fn get(&self, stretch: usize) -> usize
        ensures { result ≡ position_among self.now stretch }
    {
        match &self.table {
            Table::Few(list) => found_in(list.as_slice(), stretch),
            Table::Many { numbers, positions } => {
                position_in(numbers.as_slice(), positions.as_slice(), stretch)
            }
        }
    }

    /// Gives a stretch a position, in room that there is.
    pub(crate) fn insert(&mut self, stretch: u16, position: usize)
        requires { 0 < self.old.spare }
        ensures entered { Enters self.old stretch position self.new }
        ensures room { self.old.spare ≤ self.new.spare + 1 }
    {
        match &mut self.table {
            Table::Few(list) => {
                list.push_reserved(Positioned { stretch, position });
                return;
            }
            Table::Many { numbers, positions } => {
                set_in(numbers, positions, stretch, position);
                return;
            }
        }
    }
}

/// Finds the position of a stretch in a list, from its last one on, or 0.
#[inline(always)]
fn found_in(list: &[Positioned], stretch: usize) -> usize
    ensures { result ≡ position_listed list.now stretch }
{
    let mut left = list.len();
    while left > 0 {
        left -= 1;
        let placed = list[left];
        if usize::from(placed.stretch) == stretch {
            return placed.position;
        }
    }
    0
}

/// Finds the position of a stretch by its group, or 0.
#[inline(always)]
fn position_in(numbers: &[usize], positions: &[usize], stretch: usize) -> usize
    requires { AreGroups numbers.now positions.now }
    ensures { result ≡ position_grouped numbers.now positions.now stretch }
{
    let group = stretch / GROUP;
    let number = if group < numbers.len() {
        numbers[group]
    } else {
        0
    };
    positions[GROUP * number + stretch % GROUP]
}

/// Puts the positions of a list into groups, with room for so many stretches more.
#[inline(never)]
fn spread(alloc: Global, list: &[Positioned], more: usize) -> Result<Table, AllocError>
    ensures table { IfOk result IsTable }
    ensures room { IfOk result (λ table. more ≤ (others_in table).spare) }
    ensures stay { IfOk result (λ table. (stretch : ℕ) → position_among (others_in table) stretch
        ≡ position_listed list.now stretch) }
{
    let mut numbers = Vec::with_capacity(alloc, GROUPS)?;
    let room = list.len().saturating_add(more).saturating_add(1);
    let mut positions = Vec::with_capacity(alloc, room.saturating_mul(GROUP))?;
    positions.resize(GROUP, 0)?;
    for at in 0..list.len() {
        let placed = list[at];
        set_in(
            &mut numbers,
            &mut positions,
            placed.stretch,
            placed.position,
        );
    }
    Ok(Table::Many { numbers, positions })
}

/// Sets the position of a stretch in its group, in room that there is.
fn set_in(numbers: &mut Vec<usize>, positions: &mut Vec<usize>, stretch: u16, position: usize)
    requires groups { AreGroups numbers.old.items positions.old.items }
    requires numbers { 2048 ≤ vec_capacity numbers.old }
    requires room { 32 ≤ vec_capacity positions.old - vec_len positions.old }
    ensures set { (other : ℕ) → position_grouped numbers.new.items positions.new.items other
        ≡ cond (nat_eq other stretch) position (position_grouped numbers.old.items positions.old.items other) }
    ensures groups { AreGroups numbers.new.items positions.new.items }
    ensures numbers { 2048 ≤ vec_capacity numbers.new }
    ensures room { vec_capacity positions.old - vec_len positions.old
        ≤ vec_capacity positions.new - vec_len positions.new + 32 }
{
    let at = usize::from(stretch);
    let group = at / GROUP;
    if group >= numbers.len() {
        lengthen(numbers, positions, group);
    }
    if numbers[group] == 0 {
        give_number(numbers, positions, group);
    }
    positions[GROUP * numbers[group] + at % GROUP] = position;
}

/// Lengthens the numbers up to a group.
#[inline(never)]
fn lengthen(numbers: &mut Vec<usize>, positions: &[usize], group: usize)
    requires groups { AreGroups numbers.old.items positions.now }
    requires room { 2048 ≤ vec_capacity numbers.old }
    requires within { group < 2048 }
    requires past { length numbers.old.items ≤ group }
    ensures there { group < length numbers.new.items }
    ensures same { (other : ℕ) → slice_index_or numbers.new.items other 0 ≡ slice_index_or numbers.old.items other 0 }
    ensures groups { AreGroups numbers.new.items positions.now }
    ensures room { 2048 ≤ vec_capacity numbers.new }
{
    match numbers.resize(group + 1, 0) {
        Ok(()) => {}
        Err(_) => unreachable!(),
    }
}

/// Gives a group the next number, with positions that are 0.
#[inline(never)]
fn give_number(numbers: &mut Vec<usize>, positions: &mut Vec<usize>, group: usize)
    requires groups { AreGroups numbers.old.items positions.old.items }
    requires there { group < length numbers.old.items }
    requires none { slice_index_or numbers.old.items group 0 ≡ 0 }
    requires room { 32 ≤ vec_capacity positions.old - vec_len positions.old }
    ensures given { (length numbers.new.items
        ≡ length numbers.old.items) × (0 < slice_index_or numbers.new.items group 0) }
    ensures same { (stretch : ℕ) → position_grouped numbers.new.items positions.new.items stretch
        ≡ position_grouped numbers.old.items positions.old.items stretch }
    ensures groups { AreGroups numbers.new.items positions.new.items }
    ensures room { (vec_capacity numbers.new
        ≡ vec_capacity numbers.old) × (vec_capacity positions.old - vec_len positions.old
        ≤ vec_capacity positions.new - vec_len positions.new + 32) }
{
    let len = positions.len();
    match positions.resize(len + GROUP, 0) {
        Ok(()) => {}
        Err(_) => unreachable!(),
    }
    numbers[group] = len / GROUP;
}
