//! Where? A map of each reserved node: two roots of 8 by 8 cells beside each other, in order of
//! address from the top left.
//!
//!     +--------+ +--------+
//!     |##o.    | |        |     # lent as a whole, o in part, . free and committed
//!     |        | |        |
//!     +--------+ +--------+
//!     3                         the slot
use crate::levels::push_levels;
use crate::replay::Replay;
use crate::writer::Writer;
use ms_base::SLOTS;
use ms_page::CellCounts;
use ms_pool::{Cell, RootMap};

/// What a map shows.
const KEY: &str =
    "<p class=\"soft\">Each node of 8 MB is two root chunks of 64 cells, in order of address; a cell is 64 KB. The number below is the slot of the node.</p>\n<ul class=\"cells\">";

/// The words of a cell.
const CELL_WORDS: u64 = 8192;

/// What a cell may be, in the order of the key.
const STATES: [Cell; 5] = [
    Cell::Free,
    Cell::FreeCommitted,
    Cell::LentUncommitted,
    Cell::LentPartly,
    Cell::LentWholly,
];

/// Returns the class of a cell in the style sheet, and what it is in words.
fn cell_words(cell: Cell) -> (&'static str, &'static str) {
    match cell {
        Cell::Free => ("free", "free, not committed"),
        Cell::FreeCommitted => ("idle", "free, committed"),
        Cell::LentUncommitted => ("lent", "lent, not committed"),
        Cell::LentPartly => ("part", "lent in part, committed"),
        Cell::LentWholly => ("whole", "lent as a whole, committed"),
    }
}

/// Appends the part.
pub(crate) fn push_where(page: &mut Writer, replay: &Replay<'_>) {
    page.text("<section><h2>Where?</h2>\n");
    match &replay.end.details {
        Some(details) if !details.roots.is_empty() => {
            push_key(page, &replay.picture.cells);
            push_maps(page, details.roots.as_slice());
            push_levels(page, replay);
        }
        _ => {
            page.text("<p class=\"soft\">No node is reserved.</p>");
        }
    }
    page.text("</section>\n");
}

/// Appends what a map shows, and how many cells are what.
fn push_key(page: &mut Writer, cells: &CellCounts) {
    page.text(KEY);
    push_count(page, Cell::Free, cells.free);
    push_count(page, Cell::FreeCommitted, cells.free_committed);
    push_count(page, Cell::LentUncommitted, cells.lent_uncommitted);
    push_count(page, Cell::LentPartly, cells.lent_partly);
    push_count(page, Cell::LentWholly, cells.lent_wholly);
    page.text("</ul>\n");
}

/// Appends how many cells are so.
fn push_count(page: &mut Writer, cell: Cell, cells: u64) {
    let (class, words) = cell_words(cell);
    page.text(r#"<li><span class="k-p-"#)
        .text(class)
        .text(r#"">"#)
        .text(words)
        .text("</span> <b>")
        .size(cells.saturating_mul(CELL_WORDS))
        .text("</b> <small>")
        .number(cells)
        .text("</small></li>");
}

/// Appends the maps of the nodes, those of the class space apart.
fn push_maps(page: &mut Writer, roots: &[RootMap]) {
    let first_class_root = SLOTS * 2;
    let plain = roots.partition_point(|root| root.root < first_class_root);
    push_space(page, "Metaspace", roots.get(..plain).unwrap_or(&[]));
    push_space(page, "Class space", roots.get(plain..).unwrap_or(&[]));
}

/// Appends the maps of a space's nodes, where it has any.
fn push_space(page: &mut Writer, heading: &str, roots: &[RootMap]) {
    if roots.is_empty() {
        return;
    }
    page.text("<h3>")
        .text(heading)
        .text("</h3>\n<div class=\"map\">");
    for node in roots.chunks(2) {
        push_node(page, node);
    }
    page.text("</div>\n");
}

/// Appends the map of a node, by its roots.
fn push_node(page: &mut Writer, roots: &[RootMap]) {
    let Some(left) = roots.first() else {
        return;
    };
    let root = u64::from(left.root);
    page.text(r#"<figure><svg viewBox="0 0 17 8" role="img"><title>Slot "#)
        .digits(root / 2)
        .text(", roots ")
        .digits(root)
        .text(" and ")
        .digits(root.saturating_add(1))
        .text(": ");
    push_node_counts(page, roots);
    page.text("</title>");
    for cell in STATES {
        push_cells(page, roots, cell);
    }
    page.text("</svg><figcaption>")
        .digits(root / 2)
        .text("</figcaption></figure>\n");
}

/// Appends how many cells of a node are what.
fn push_node_counts(page: &mut Writer, roots: &[RootMap]) {
    let mut before = "";
    for cell in STATES {
        let (_, words) = cell_words(cell);
        let cells = count(roots, cell);
        if cells > 0 {
            page.text(before).number(cells).text(" ").text(words);
            before = ", ";
        }
    }
}

/// Returns how many cells of some roots are so.
fn count(roots: &[RootMap], cell: Cell) -> u64 {
    let mut cells: u64 = 0;
    for root in roots {
        for its in &root.cells {
            if *its == cell {
                cells = cells.saturating_add(1);
            }
        }
    }
    cells
}

/// Appends the path of the cells that are so, where there is any.
fn push_cells(page: &mut Writer, roots: &[RootMap], cell: Cell) {
    if count(roots, cell) == 0 {
        return;
    }
    let (class, _) = cell_words(cell);
    page.text(r#"<path class="p-"#).text(class).text(r#"" d=""#);
    let mut across = 0;
    for root in roots {
        push_squares(page, root, cell, across);
        across = 9;
    }
    page.text("\"/>");
}

/// Appends the cells of a root that are so, from a column of the figure on.
fn push_squares(page: &mut Writer, root: &RootMap, cell: Cell, across: u64) {
    let mut number: u64 = 0;
    for its in &root.cells {
        if *its == cell {
            page.text("M")
                .digits((number % 8).saturating_add(across))
                .text(" ")
                .digits(number / 8)
                .text("h1v1h-1z");
        }
        number = number.saturating_add(1);
    }
}
