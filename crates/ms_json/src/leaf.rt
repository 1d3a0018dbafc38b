//! What a member of a flat object holds.
ghost use Rattle.std.specs.Prelude.{◌≡◌, ◌++◌, true, OnOk, string_bytes};
ghost use Rattle.serde_json.specs.Written.{compact_text};
ghost use Rattle.ms_json.specs.Leaves.{is_leaf, leaf_data};

use crate::series::{Series, push_series};
use crate::writing::{push_arena, push_cells, push_levels, push_number, push_word};
use ms_arena::ArenaTotals;
use ms_course::Column;
use ms_pool::Cell;
use std::alloc::AllocError;

/// What a member of a flat object holds.
#[derive(Clone, Copy)]
pub(crate) enum Leaf<'a> {
    /// Nothing is known.
    Nothing,
    /// A number.
    Number(u128),
    /// A text that is written as it stands.
    Word(&'a str),
    /// A number for each level.
    Levels(&'a [u32; 13]),
    /// A letter for each cell.
    Cells(&'a [Cell]),
    /// The sums over an arena.
    Arena(&'a ArenaTotals),
    /// A number for each column.
    Series(Series, &'a [Column]),
}

/// Appends a leaf.
pub(crate) fn push_leaf(text: &mut String, leaf: &Leaf<'_>) -> Result<(), AllocError>
    requires { is_leaf leaf.now ≡ true }
    ensures { OnOk result (string_bytes text.new
        ≡ string_bytes text.old ++ compact_text (leaf_data leaf.now)) }
{
    match leaf {
        Leaf::Nothing => text.push_str("null"),
        Leaf::Number(number) => push_number(text, *number),
        Leaf::Word(word) => push_word(text, word),
        Leaf::Levels(numbers) => push_levels(text, numbers.as_slice()),
        Leaf::Cells(cells) => push_cells(text, cells),
        Leaf::Arena(totals) => push_arena(text, totals),
        Leaf::Series(series, columns) => push_series(text, *series, columns),
    }
}
