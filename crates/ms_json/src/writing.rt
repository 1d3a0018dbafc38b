//! Numbers, words and objects, appended to a text as serde_json writes them.
ghost use Rattle.std.specs.Prelude.{◌≡◌, ◌∷◌, ◌++◌, [], true, false, OnOk, map, codes, decimal, string_bytes};
ghost use Rattle.json.specs.Print.{escape, quoted};
ghost use Rattle.serde_json.specs.Written.{comma_if, compact_text, items_text};
ghost use Rattle.serde_json.specs.Data.{string};
ghost use Rattle.serde_json.specs.View.{items_of};
ghost use Rattle.ms_report.specs.Map.{letters};
ghost use Rattle.ms_json.specs.Rows.{are_plain, elements_run, is_plain, list_of, members_run, natural};
ghost use Rattle.ms_json.specs.Rows.{number_rows, object_of};
ghost use Rattle.ms_json.specs.Leaves.{are_leaves, leaf_rows};
ghost use Rattle.ms_json.specs.Sums.{arena_data};
ghost use Rattle.ms_answers.specs.Details.{arena_in};

use crate::leaf::{Leaf, push_leaf};
use itoa::Buffer;
use ms_arena::ArenaTotals;
use ms_pool::Cell;
use ms_report::push_letters;
use std::alloc::AllocError;

/// A number under its label.
pub(crate) type NumberRow = (&'static str, u64);

/// Appends a number.
pub(crate) fn push_number(text: &mut String, number: u128) -> Result<(), AllocError>
    ensures { OnOk result (string_bytes text.new ≡ string_bytes text.old ++ decimal number) }
{
    let mut buffer = Buffer::new();
    text.push_str(buffer.format(number))
}

/// Appends a comma, where something stands before.
pub(crate) fn push_comma(text: &mut String, later: bool) -> Result<(), AllocError>
    ensures { OnOk result (string_bytes text.new ≡ string_bytes text.old ++ comma_if later) }
{
    if later {
        return text.push_str(",");
    }
    Ok(())
}

/// Appends a word between quotes.
pub(crate) fn push_word(text: &mut String, word: &str) -> Result<(), AllocError>
    requires { is_plain word.now ≡ true }
    ensures { OnOk result (string_bytes text.new ≡ string_bytes text.old ++ quoted word.now) }
{
    text.push_str("\"")?;
    text.push_str(word)?;
    text.push_str("\"")
}

/// Appends a label with its colon, after a comma where something stands before.
pub(crate) fn push_label(text: &mut String, later: bool, label: &str) -> Result<(), AllocError>
    requires { is_plain label.now ≡ true }
    ensures { OnOk result (string_bytes text.new
        ≡ string_bytes text.old ++ (comma_if later ++ (quoted label.now ++ 58 ∷ []))) }
{
    push_comma(text, later)?;
    push_word(text, label)?;
    text.push_str(":")
}

/// Appends members under their labels, the first after a comma where something stands before.
fn push_numbers(text: &mut String, rows: &[NumberRow]) -> Result<(), AllocError>
    requires { are_plain rows.now ≡ true }
    ensures { OnOk result (string_bytes text.new
        ≡ string_bytes text.old ++ members_run false (number_rows rows.now)) }
{
    let mut later = false;
    for (label, number) in rows {
        push_label(text, later, label)?;
        push_number(text, u128::from(*number))?;
        later = true;
    }
    Ok(())
}

/// Appends an object of leaves.
pub(crate) fn push_object(
    text: &mut String,
    rows: &[(&'static str, Leaf<'_>)],
) -> Result<(), AllocError>
    requires { are_leaves rows.now ≡ true }
    ensures { OnOk result (string_bytes text.new
        ≡ string_bytes text.old ++ compact_text (object_of (leaf_rows rows.now))) }
{
    text.push_str("{")?;
    push_leaves(text, rows)?;
    text.push_str("}")
}

/// Appends leaves under their labels.
fn push_leaves(text: &mut String, rows: &[(&'static str, Leaf<'_>)]) -> Result<(), AllocError>
    requires { are_leaves rows.now ≡ true }
    ensures { OnOk result (string_bytes text.new
        ≡ string_bytes text.old ++ members_run false (leaf_rows rows.now)) }
{
    let mut later = false;
    for (label, leaf) in rows {
        push_label(text, later, label)?;
        push_leaf(text, leaf)?;
        later = true;
    }
    Ok(())
}

/// Appends an object of numbers.
fn push_number_object(text: &mut String, rows: &[NumberRow]) -> Result<(), AllocError>
    requires { are_plain rows.now ≡ true }
    ensures { OnOk result (string_bytes text.new
        ≡ string_bytes text.old ++ compact_text (object_of (number_rows rows.now))) }
{
    text.push_str("{")?;
    push_numbers(text, rows)?;
    text.push_str("}")
}

/// Appends the sums over an arena.
pub(crate) fn push_arena(text: &mut String, totals: &ArenaTotals) -> Result<(), AllocError>
    ensures { OnOk result (string_bytes text.new
        ≡ string_bytes text.old ++ compact_text (arena_data (arena_in totals.now))) }
{
    let rows = [
        ("capacity", totals.capacity),
        ("chunks", u64::from(totals.chunks)),
        ("free blocks", totals.free_blocks),
        ("fronts", totals.fronts),
        ("live", totals.live),
        ("used", totals.used),
        ("waste", totals.waste),
    ];
    push_number_object(text, &rows)
}

/// Appends numbers as an array.
pub(crate) fn push_levels(text: &mut String, numbers: &[u32]) -> Result<(), AllocError>
    ensures { OnOk result (string_bytes text.new
        ≡ string_bytes text.old ++ compact_text (list_of (map natural numbers.now))) }
{
    text.push_str("[")?;
    push_each(text, numbers)?;
    text.push_str("]")
}

/// Appends numbers with commas between them.
fn push_each(text: &mut String, numbers: &[u32]) -> Result<(), AllocError>
    ensures { OnOk result (string_bytes text.new
        ≡ string_bytes text.old ++ elements_run false (map natural numbers.now)) }
{
    let mut later = false;
    for number in numbers {
        push_comma(text, later)?;
        push_number(text, u128::from(*number))?;
        later = true;
    }
    Ok(())
}

/// Appends the letters of cells between quotes.
pub(crate) fn push_cells(text: &mut String, cells: &[Cell]) -> Result<(), AllocError>
    ensures { OnOk result (string_bytes text.new
        ≡ string_bytes text.old ++ quoted (letters cells.now)) }
{
    text.push_str("\"")?;
    push_letters(text, cells)?;
    text.push_str("\"")
}
