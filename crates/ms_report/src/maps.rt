//! The part Map of a full report: where each root is lent and committed.
//!
//!     |  slot  root  places of 8192 words
//!     |     0     0  OOuu..--                  a letter for each of 64 cells
//!
//! Kept true: the text is the bytes that `specs/Map.antt` gives for the maps. Only the text takes
//! memory.
ghost use Rattle.std.specs.Prelude.{◌≡◌, ◌++◌, ◌/◌, IfOk, OnOk, codes, decimal, map, string_bytes};
ghost use Rattle.ms_pool.specs.Mapping.{map_in};
ghost use Rattle.ms_report.specs.Layout.{right_in};
ghost use Rattle.ms_report.specs.Map.{letter, letters, map_line, map_lines};
ghost use Rattle.ms_report.specs.Map.{map_part};

use crate::line::Line;
use ms_pool::{Cell, RootMap};
use std::alloc::{AllocError, Global};

/// The title and the headings.
const HEADINGS: &str = "Map\n   slot  root  places of 8192 words\n";

/// The key: what each letter stands for.
const KEY: &str =
    "  - free, not committed\n  . free, committed\n  u lent, not committed\n  o lent in part, committed\n  O lent as a whole, committed\n";

/// Writes the maps of roots: a line for each root, with its slot, its number over both spaces and a
/// letter for each cell of 8192 words, and a key to the letters. A root begins at the word of its
/// number times 524288. Takes memory for the text; an error means that a growth was refused. After
/// HotSpot's VM.metaspace vsmap, with this project's letters.
pub fn map_text(alloc: Global, maps: &[RootMap]) -> Result<String, AllocError>
    ensures { IfOk result (λ text. string_bytes text ≡ map_part (map map_in maps.now)) }
{
    let mut text = String::new(alloc);
    push_maps(&mut text, maps)?;
    Ok(text)
}

/// Appends the maps of roots.
pub(crate) fn push_maps(text: &mut String, maps: &[RootMap]) -> Result<(), AllocError>
    ensures { OnOk result (string_bytes text.new
        ≡ string_bytes text.old ++ map_part (map map_in maps.now)) }
{
    text.push_str(HEADINGS)?;
    push_lines(text, maps)?;
    text.push_str(KEY)
}

/// Appends a line for each root.
fn push_lines(text: &mut String, maps: &[RootMap]) -> Result<(), AllocError>
    ensures { OnOk result (string_bytes text.new
        ≡ string_bytes text.old ++ map_lines (map map_in maps.now)) }
{
    for root in maps {
        push_line(text, root)?;
    }
    Ok(())
}

/// Appends the line of a root.
fn push_line(text: &mut String, root: &RootMap) -> Result<(), AllocError>
    ensures { OnOk result (string_bytes text.new
        ≡ string_bytes text.old ++ map_line (map_in root.now)) }
{
    push_root(text, root.root)?;
    push_letters(text, &root.cells)?;
    text.push_str("\n")
}

/// Appends the slot and the number of a root, with the spaces beside them.
fn push_root(text: &mut String, root: u32) -> Result<(), AllocError>
    ensures { OnOk result (string_bytes text.new ≡ string_bytes text.old ++ (codes "  "
        ++ (right_in 5 (decimal (root / 2)) ++ (right_in 6 (decimal root) ++ codes "  ")))) }
{
    let mut line = Line::open();
    line.put_word("  ");
    line.put_right(6, u64::from(root));
    line.put_right(5, u64::from(root / 2));
    line.put_word("  ");
    line.push_to(text)
}

/// Appends the letters of cells, in their order: `-` free, `.` free and committed, `u` lent, `o` lent
/// in part and committed, `O` lent as a whole and committed. Takes memory for the text; an error means
/// that a growth was refused. This project's choice.
pub fn push_letters(text: &mut String, cells: &[Cell]) -> Result<(), AllocError>
    ensures { OnOk result (string_bytes text.new
        ≡ string_bytes text.old ++ letters cells.now) }
{
    for cell in cells {
        text.push_str(letter(*cell))?;
    }
    Ok(())
}

/// Returns the letter of a cell.
fn letter(cell: Cell) -> &'static str
    ensures { result.now ≡ letter cell }
{
    match cell {
        Cell::Free => "-",
        Cell::FreeCommitted => ".",
        Cell::LentUncommitted => "u",
        Cell::LentPartly => "o",
        Cell::LentWholly => "O",
    }
}
