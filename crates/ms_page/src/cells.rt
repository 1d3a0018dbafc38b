//! The cells of the map, by what becomes of them, and the nodes that hold no chunk.
//!
//! A cell is 64 KB of a root. Kept true: each number is exactly that of the cells of the
//! state, over all roots. Takes no memory.
ghost use Rattle.std.specs.Prelude.{◌≡◌, count_by};
ghost use Rattle.std.specs.List.{list_all, list_any};
ghost use Rattle.ms_page.specs.Cells.{cell_counts, cells_of, empty_nodes, is_bare, is_empty_node};
ghost use Rattle.ms_page.specs.Cells.{is_free, is_of_node, same_cell, spares_node};

use crate::sums::add;
use ms_base::SLOTS;
use ms_pool::{Cell, RootMap};

/// How many cells of 64 KB there are of each state, over all roots. This project's choice.
#[derive(Clone, Copy, Debug, PartialEq, Eq)]
pub struct CellCounts {
    /// Neither lent nor committed.
    pub free: u64,
    /// Committed, and no word is lent.
    pub free_committed: u64,
    /// Lent, and no granule is committed.
    pub lent_uncommitted: u64,
    /// Lent and committed, and some words are free.
    pub lent_partly: u64,
    /// Lent with all words, and committed.
    pub lent_wholly: u64,
}

/// Counts the cells of each state.
pub(crate) fn count_cells(roots: &[RootMap]) -> CellCounts
    ensures { result ≡ cell_counts roots.now }
{
    CellCounts {
        free: count(Cell::Free, roots),
        free_committed: count(Cell::FreeCommitted, roots),
        lent_uncommitted: count(Cell::LentUncommitted, roots),
        lent_partly: count(Cell::LentPartly, roots),
        lent_wholly: count(Cell::LentWholly, roots),
    }
}

/// Counts the cells of a state.
fn count(cell: Cell, roots: &[RootMap]) -> u64
    ensures { result ≡ cells_of cell roots.now }
{
    let mut cells = 0;
    for root in roots {
        cells = add(cells, count_in(cell, &root.cells));
    }
    cells
}

/// Counts the cells of a state in a root.
fn count_in(cell: Cell, cells: &[Cell]) -> u64
    ensures { result ≡ count_by (same_cell cell) cells.now }
{
    cells.iter().filter(|other| is_same(cell, **other)).count() as u64
}

/// Says whether two cells are of the same state.
fn is_same(cell: Cell, other: Cell) -> bool
    ensures { result ≡ same_cell cell other }
{
    cell == other
}

/// Counts the nodes outside the class space that hold no chunk.
pub(crate) fn count_empty_nodes(roots: &[RootMap]) -> u32
    ensures { result ≡ empty_nodes roots.now }
{
    (0..SLOTS)
        .filter(|slot| is_empty_node(roots, *slot))
        .count() as u32
}

/// Says whether the node of a slot is there and holds no chunk.
fn is_empty_node(roots: &[RootMap], slot: u32) -> bool
    ensures { result ≡ is_empty_node roots.now slot }
{
    is_there(roots, slot) & is_spared(roots, slot)
}

/// Says whether some root is of a slot's node.
fn is_there(roots: &[RootMap], slot: u32) -> bool
    ensures { result ≡ list_any (is_of_node slot) roots.now }
{
    roots.iter().any(|root| is_of_node(slot, root))
}

/// Says whether no root of a slot's node holds a chunk.
fn is_spared(roots: &[RootMap], slot: u32) -> bool
    ensures { result ≡ list_all (spares_node slot) roots.now }
{
    roots.iter().all(|root| spares_node(slot, root))
}

/// Says whether a root is of another node, or holds no chunk.
fn spares_node(slot: u32, root: &RootMap) -> bool
    ensures { result ≡ spares_node slot root.now }
{
    !is_of_node(slot, root) || is_bare(&root.cells)
}

/// Says whether a root is one of the two of a slot's node.
fn is_of_node(slot: u32, root: &RootMap) -> bool
    ensures { result ≡ is_of_node slot root.now }
{
    root.root / 2 == slot
}

/// Says whether no cell is lent.
fn is_bare(cells: &[Cell]) -> bool
    ensures { result ≡ is_bare cells.now }
{
    cells.iter().all(|cell| is_free(*cell))
}

/// Says whether no word of a cell is lent.
fn is_free(cell: Cell) -> bool
    ensures { result ≡ is_free cell }
{
    match cell {
        Cell::Free | Cell::FreeCommitted => true,
        Cell::LentUncommitted | Cell::LentPartly | Cell::LentWholly => false,
    }
}
