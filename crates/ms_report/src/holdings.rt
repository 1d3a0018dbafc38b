//! The part Loaders of a full report: what each loader holds, space by space.
//!
//!     Loaders by space
//!        name        kind      space  chunks  capacity ..
//!           7      hidden  non-class       1       128 ..
//!           7      hidden      class       1       128 ..
//!
//! Kept true: a loader has a line for each space in which it holds a chunk, and the text is the
//! bytes that `specs/Holdings.antt` gives. Takes memory for the text alone.
ghost use Rattle.std.specs.Prelude.{◌≡◌, ◌≤◌, ◌+◌, ◌++◌, OnOk, IsAscii, length, map, string_bytes};
ghost use Rattle.ms_answers.specs.Details.{arena_in, loader_in};
ghost use Rattle.ms_report.specs.Kinds.{sum_columns};
ghost use Rattle.ms_report.specs.Layout.{cells, right_in};
ghost use Rattle.ms_report.specs.Holdings.{all_holdings, arena_texts, holding, holding_line};
ghost use Rattle.ms_report.specs.Holdings.{holdings, holdings_part};
ghost use Rattle.ms_report.specs.Holdings.{space_text};

use crate::line::{COUNT, FREE_BLOCKS, Line, WORDS};
use crate::sections::put_name;
use ms_answers::LoaderDetails;
use ms_arena::ArenaTotals;
use ms_base::Space;
use std::alloc::AllocError;

/// The title and the headings of the table.
const HEADINGS: &str =
    "Loaders by space\n   name        kind      space  chunks  capacity    fronts      used      live  free blocks     waste\n";

/// Appends the table of what each loader holds.
pub(crate) fn push_holdings(text: &mut String, loaders: &[LoaderDetails]) -> Result<(), AllocError>
    ensures { OnOk result (string_bytes text.new
        ≡ string_bytes text.old ++ holdings_part (map loader_in loaders.now)) }
{
    text.push_str(HEADINGS)?;
    push_all(text, loaders)
}

/// Appends what each loader holds.
fn push_all(text: &mut String, loaders: &[LoaderDetails]) -> Result<(), AllocError>
    ensures { OnOk result (string_bytes text.new
        ≡ string_bytes text.old ++ all_holdings (map loader_in loaders.now)) }
{
    for loader in loaders {
        push_loader(text, loader)?;
    }
    Ok(())
}

/// Appends what a loader holds, in both spaces.
fn push_loader(text: &mut String, loader: &LoaderDetails) -> Result<(), AllocError>
    ensures { OnOk result (string_bytes text.new
        ≡ string_bytes text.old ++ holdings (loader_in loader.now)) }
{
    push_holding(text, loader, Space::NonClass, &loader.space)?;
    push_holding(text, loader, Space::Class, &loader.class_space)
}

/// Appends what a loader holds in a space, where it holds a chunk there.
fn push_holding(
    text: &mut String,
    loader: &LoaderDetails,
    space: Space,
    arena: &ArenaTotals,
) -> Result<(), AllocError>
    ensures { OnOk result (string_bytes text.new
        ≡ string_bytes text.old ++ holding (loader_in loader.now) space (arena_in arena.now)) }
{
    if arena.chunks == 0 {
        return Ok(());
    }
    push_line(text, loader, space, arena)
}

/// Appends the line of what a loader holds in a space.
fn push_line(
    text: &mut String,
    loader: &LoaderDetails,
    space: Space,
    arena: &ArenaTotals,
) -> Result<(), AllocError>
    ensures { OnOk result (string_bytes text.new
        ≡ string_bytes text.old ++ holding_line (loader_in loader.now) space (arena_in arena.now)) }
{
    let mut line = Line::end();
    put_arena(&mut line, arena);
    line.put_word(space_cell(space));
    put_name(&mut line, loader.name, loader.kind);
    line.push_to(text)
}

/// Puts the sums over an arena, each in its column.
fn put_arena(line: &mut Line, arena: &ArenaTotals)
    requires room { length line.old + 140 ≤ 192 }
    ensures sums { line.new ≡ cells sum_columns (arena_texts (arena_in arena.now)) ++ line.old }
    ensures near { length line.new ≤ length line.old + 140 }
{
    line.put_right(WORDS, arena.waste);
    line.put_right(FREE_BLOCKS, arena.free_blocks);
    line.put_right(WORDS, arena.live);
    line.put_right(WORDS, arena.used);
    line.put_right(WORDS, arena.fronts);
    line.put_right(WORDS, arena.capacity);
    line.put_right(COUNT, u64::from(arena.chunks));
}

/// Returns the word of a space, right in its column.
fn space_cell(space: Space) -> &'static str
    ensures cell { result.now ≡ right_in 11 (space_text space) }
    ensures long { length result.now ≡ 11 }
    ensures ascii { IsAscii result.now }
{
    match space {
        Space::NonClass => "  non-class",
        Space::Class => "      class",
    }
}
