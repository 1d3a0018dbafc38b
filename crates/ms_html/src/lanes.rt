//! What happened when: a lane each for unloads, purges, refusals and reports, the lines' numbers
//! below them, and the columns in numbers.
use crate::writer::Writer;
use ms_base::Step;
use ms_course::{Asked, Column, Extent, Reason};
use ms_page::scaled;

/// What a lane counts.
#[derive(Clone, Copy)]
enum Lane {
    Unloads,
    Purges,
    Refused,
    Reports,
}

/// All lanes, from the top.
const LANES: [Lane; 4] = [Lane::Unloads, Lane::Purges, Lane::Refused, Lane::Reports];

impl Lane {
    /// Returns the word for one, which is also its class in the style sheet, and that for more.
    fn words(self) -> (&'static str, &'static str) {
        match self {
            Lane::Unloads => ("unload", "unloads"),
            Lane::Purges => ("purge", "purges"),
            Lane::Refused => ("refused", "refused"),
            Lane::Reports => ("report", "reports"),
        }
    }

    /// Returns how many a column has.
    fn count(self, column: &Column) -> u64 {
        u64::from(match self {
            Lane::Unloads => column.unloads,
            Lane::Purges => column.purges,
            Lane::Refused => column.refusals,
            Lane::Reports => column.reports,
        })
    }

    /// Returns how many all columns have, and the most that one has.
    fn sum_and_most(self, columns: &[Column]) -> (u64, u64) {
        let mut sum: u64 = 0;
        let mut most: u64 = 0;
        for column in columns {
            let count = self.count(column);
            sum = sum.saturating_add(count);
            most = most.max(count);
        }
        (sum, most)
    }
}

/// Appends the lanes.
pub(crate) fn push_lanes(page: &mut Writer, columns: &[Column]) {
    for lane in LANES {
        push_lane(page, columns, lane);
    }
}

/// Appends a lane: a bar of 3 to 14 units where something happened, the highest where most did.
fn push_lane(page: &mut Writer, columns: &[Column], lane: Lane) {
    let (class, label) = lane.words();
    let (sum, most) = lane.sum_and_most(columns);
    let width = (columns.len() as u64).max(1);
    page.text(r#"<div class="lane"><h4>"#)
        .text(label)
        .text(" <b>")
        .number(sum)
        .text(r#"</b></h4><svg viewBox="0 0 "#)
        .digits(width)
        .text(r#" 16" preserveAspectRatio="none" height="16" role="img"><title>"#)
        .text(label)
        .text(": ")
        .number(sum)
        .text(r#"</title><path class=""#)
        .text(class)
        .text(r#"" d=""#);
    let mut before: u64 = 0;
    for column in columns {
        push_bar(page, before, lane.count(column), most);
        before = before.saturating_add(1);
    }
    page.text("\"/></svg></div>\n");
}

/// Appends the bar of a column after so many, where it has something.
fn push_bar(page: &mut Writer, before: u64, count: u64, most: u64) {
    if count > 0 {
        page.text("M")
            .digits(before)
            .text(" 16V")
            .digits(14_u64.saturating_sub(scaled(count, most, 12)))
            .text("H")
            .digits(before.saturating_add(1))
            .text("V16Z");
    }
}

/// Appends the numbers of lines below the charts: at each quarter that of the first line of the
/// column there, and at the end that of the last line. Few lines have the first and the last alone.
pub(crate) fn push_axis(page: &mut Writer, columns: &[Column]) {
    page.text(r#"<svg class="axis" height="20" aria-hidden="true">"#);
    push_quarter(page, columns, 0, "line ");
    if columns.len() >= 8 {
        push_quarter(page, columns, 1, "");
        push_quarter(page, columns, 2, "");
        push_quarter(page, columns, 3, "");
    }
    if let Some(column) = columns.last() {
        page.text(r#"<text class="q4" x="100%" y="14">"#)
            .number(u64::from(column.last_line))
            .text("</text>");
    }
    page.text("</svg>\n");
}

/// Appends the number of a line at so many quarters of the width.
fn push_quarter(page: &mut Writer, columns: &[Column], quarters: usize, word: &str) {
    let at = columns.len().saturating_mul(quarters) / 4;
    if let Some(column) = columns.get(at) {
        page.text(r#"<text class="q"#)
            .digits(quarters as u64)
            .text(r#"" x=""#)
            .digits((quarters as u64).saturating_mul(25))
            .text(r#"%" y="14">"#)
            .text(word)
            .number(u64::from(column.first_line))
            .text("</text>");
    }
}

/// Appends the columns in numbers, which lie over the charts and appear where one points.
pub(crate) fn push_columns(page: &mut Writer, columns: &[Column], class_space: bool) {
    page.text("<ol class=\"cols\" aria-label=\"The columns in numbers\">\n");
    for column in columns {
        push_column(page, column, class_space);
    }
    page.text("</ol>");
}

/// Appends a column in numbers.
fn push_column(page: &mut Writer, column: &Column, class_space: bool) {
    let most = &column.most;
    page.text("<li><span>").lines(column);
    if column.lines == 1 {
        push_line(page, column);
    }
    page.text(": ");
    push_extent(page, &most.both);
    if class_space {
        page.text("; class space ");
        push_extent(page, &most.class_space);
    }
    page.text("; reserved ")
        .size(most.both.reserved)
        .text("; ")
        .count(most.loaders, "loader", "loaders");
    if column.lines > 1 {
        push_counts(page, column);
    }
    page.text("</span></li>\n");
}

/// Appends the amounts of a space that are in use.
fn push_extent(page: &mut Writer, extent: &Extent) {
    page.text("committed ")
        .size(extent.committed)
        .text(", used ")
        .size(extent.used)
        .text(", live ")
        .size(extent.live);
}

/// Appends what happened in a column of several lines.
fn push_counts(page: &mut Writer, column: &Column) {
    for lane in LANES {
        let (one, more) = lane.words();
        let count = lane.count(column);
        if count > 0 {
            page.text("; ").count(count, one, more);
        }
    }
}

/// Appends what a column's one line asks, and why it was refused, if it was.
fn push_line(page: &mut Writer, column: &Column) {
    if let (Some(asked), Some(reply)) = (column.asked, column.reply) {
        page.text(", ").text(command_word(&asked));
        if let Some(reason) = Reason::of_reply(&asked, &reply) {
            page.text(" refused: ").text(reason_word(reason));
        }
    }
}

/// Returns the word of a line's command.
fn command_word(asked: &Asked) -> &'static str {
    match asked {
        Asked::Step(Step::New { .. }) => "new",
        Asked::Step(Step::Alloc { .. }) => "alloc",
        Asked::Step(Step::Calloc { .. }) => "calloc",
        Asked::Step(Step::Write { .. }) => "write",
        Asked::Step(Step::Read { .. }) => "read",
        Asked::Step(Step::Free { .. }) => "free",
        Asked::Step(Step::Unload { .. }) => "unload",
        Asked::Step(Step::Purge) => "purge",
        Asked::Sync => "sync",
        Asked::Report => "report",
    }
}

/// Returns the name under which a line was refused.
pub(crate) fn reason_word(reason: Reason) -> &'static str {
    match reason {
        Reason::LoaderExists => "LoaderExists",
        Reason::IdsUsedUp => "IdsUsedUp",
        Reason::NoLoader => "NoLoader",
        Reason::BlockExists => "BlockExists",
        Reason::ZeroWords => "ZeroWords",
        Reason::TooLarge => "TooLarge",
        Reason::OutOfMemory => "OutOfMemory",
        Reason::ReserveLimit | Reason::ClassReserveLimit => "ReserveLimit",
        Reason::CommitLimit => "CommitLimit",
        Reason::NoBlock => "NoBlock",
        Reason::OutOfRange => "OutOfRange",
    }
}
