//! The sections of a report, in their order.
//!
//! Metaspace, its numbers, and its chunks by level; the same of the class space, where that has
//! nodes; a line for each loader. Kept true: the text is the bytes that `specs/Sections.antt` gives
//! for the totals. `text` takes memory for the text alone.
ghost use Rattle.std.specs.Prelude.{◌≡◌, ◌≤◌, ◌+◌, ◌++◌, IfOk, OnOk, string_bytes, codes, decimal};
ghost use Rattle.std.specs.Prelude.{length, map};
ghost use Rattle.ms_answers.specs.Sums.{sums_in, space_in, row_in};
ghost use Rattle.ms_report.specs.Layout.{number_lines, space_rows, kind_text, level_table};
ghost use Rattle.ms_report.specs.Layout.{level_texts, loader_table};
ghost use Rattle.ms_report.specs.Layout.{loader_lines, loader_texts, right_in, table_line};
ghost use Rattle.ms_report.specs.Sections.{levels_part, main_part, class_part, class_lines};
ghost use Rattle.ms_report.specs.Sections.{loaders_part, report_text};

use crate::columns::push_four;
use crate::kinds::kind_cell;
use crate::layout::{push_number_line, push_number_lines};
use crate::line::{COUNT, Line, NAME, WORDS};
use ms_answers::{LoaderRow, SpaceTotals, Totals};
use ms_base::{Kind, Level};
use std::alloc::{AllocError, Global};

/// The headings of the table of levels.
const LEVEL_HEADINGS: &str = "  level   words    held    free\n";

/// The title and the headings of the table of loaders.
const LOADER_HEADINGS: &str =
    "Loaders\n   name        kind  chunks  capacity      used      live\n";

/// Writes the report that shows these totals: the numbers of the whole system and of the space
/// that is not the class space, its chunks by level, the same of the class space where it has
/// nodes, and a line for each row. Takes memory for the text; an error means that a growth was
/// refused. This project's choice.
pub fn text(alloc: Global, totals: &Totals) -> Result<String, AllocError>
    ensures { IfOk result (λ text. string_bytes text ≡ report_text (sums_in totals.now)) }
{
    let mut text = String::new(alloc);
    push_report(&mut text, totals)?;
    Ok(text)
}

/// Appends the report that shows these totals.
pub(crate) fn push_report(text: &mut String, totals: &Totals) -> Result<(), AllocError>
    ensures { OnOk result (string_bytes text.new
        ≡ string_bytes text.old ++ report_text (sums_in totals.now)) }
{
    push_main(text, totals)?;
    push_class(text, &totals.class_space)?;
    push_loaders(text, totals.rows.as_slice())
}

/// Appends the numbers of the whole system, and those of the space that is not the class space.
fn push_main(text: &mut String, totals: &Totals) -> Result<(), AllocError>
    ensures { OnOk result (string_bytes text.new
        ≡ string_bytes text.old ++ main_part (sums_in totals.now)) }
{
    text.push_str("Metaspace\n")?;
    push_number_line(text, "loaders", u64::from(totals.loaders))?;
    push_space(text, &totals.space)?;
    text.push_str("Chunks by level\n")?;
    push_levels(text, &totals.space)
}

/// Appends the class space, where it has nodes.
fn push_class(text: &mut String, space: &SpaceTotals) -> Result<(), AllocError>
    ensures { OnOk result (string_bytes text.new
        ≡ string_bytes text.old ++ class_part (space_in space.now)) }
{
    if space.nodes == 0 {
        return Ok(());
    }
    push_class_lines(text, space)
}

/// Appends the numbers of the class space, and its chunks by level.
fn push_class_lines(text: &mut String, space: &SpaceTotals) -> Result<(), AllocError>
    ensures { OnOk result (string_bytes text.new
        ≡ string_bytes text.old ++ class_lines (space_in space.now)) }
{
    text.push_str("Class space\n")?;
    push_space(text, space)?;
    text.push_str("Class chunks by level\n")?;
    push_levels(text, space)
}

/// Appends the eleven numbers of a space.
fn push_space(text: &mut String, space: &SpaceTotals) -> Result<(), AllocError>
    ensures { OnOk result (string_bytes text.new
        ≡ string_bytes text.old ++ number_lines (space_rows (space_in space.now))) }
{
    let rows = [
        ("nodes", u64::from(space.nodes)),
        ("reserved", space.reserved),
        ("granules", space.granules),
        ("committed", space.committed),
        ("chunks", u64::from(space.chunks)),
        ("capacity", space.capacity),
        ("fronts", space.fronts),
        ("used", space.used),
        ("live", space.live),
        ("free blocks", space.free_blocks),
        ("waste", space.waste),
    ];
    push_number_lines(text, &rows)
}

/// Appends the table of a space's levels.
fn push_levels(text: &mut String, space: &SpaceTotals) -> Result<(), AllocError>
    ensures { OnOk result (string_bytes text.new
        ≡ string_bytes text.old ++ levels_part (space_in space.now)) }
{
    text.push_str(LEVEL_HEADINGS)?;
    for number in 0..13 {
        let index = usize::from(number);
        push_level(
            text,
            Level::new(number),
            space.held[index],
            space.free[index],
        )?;
    }
    Ok(())
}

/// Appends the line of a level.
fn push_level(text: &mut String, level: Level, held: u32, free: u32) -> Result<(), AllocError>
    ensures { OnOk result (string_bytes text.new
        ≡ string_bytes text.old ++ table_line level_table (level_texts level held free)) }
{
    push_four(
        text,
        (NAME, u64::from(level.number())),
        (COUNT, level.words()),
        (COUNT, u64::from(held)),
        (COUNT, u64::from(free)),
    )
}

/// Appends the table of loaders.
fn push_loaders(text: &mut String, rows: &[LoaderRow]) -> Result<(), AllocError>
    ensures { OnOk result (string_bytes text.new
        ≡ string_bytes text.old ++ loaders_part (map row_in rows.now)) }
{
    text.push_str(LOADER_HEADINGS)?;
    push_rows(text, rows)
}

/// Appends a line for each loader.
fn push_rows(text: &mut String, rows: &[LoaderRow]) -> Result<(), AllocError>
    ensures { OnOk result (string_bytes text.new
        ≡ string_bytes text.old ++ loader_lines (map row_in rows.now)) }
{
    for row in rows {
        push_row(text, row)?;
    }
    Ok(())
}

/// Appends the line of a loader.
fn push_row(text: &mut String, row: &LoaderRow) -> Result<(), AllocError>
    ensures { OnOk result (string_bytes text.new
        ≡ string_bytes text.old ++ table_line loader_table (loader_texts (row_in row.now))) }
{
    let mut line = Line::end();
    line.put_right(WORDS, row.live);
    line.put_right(WORDS, row.used);
    line.put_right(WORDS, row.capacity);
    line.put_right(COUNT, u64::from(row.chunks));
    put_name(&mut line, row.name, row.kind);
    line.push_to(text)
}

/// Puts the first two columns of a loader's line, with the spaces before them.
#[inline(always)]
pub(crate) fn put_name(line: &mut Line, name: u16, kind: Kind)
    requires { length line.old + 32 ≤ 192 }
    ensures { line.new
        ≡ codes "  " ++ (right_in 5 (decimal name) ++ (right_in 12 (kind_text kind) ++ line.old)) }
{
    line.put_word(kind_cell(kind));
    line.put_right(NAME, u64::from(name));
}
