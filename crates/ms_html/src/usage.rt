//! How much of the memory is what at the end, and at most: the full report's six rows, of both
//! spaces and, where there is one, of the class space.
use crate::numbers::narrow;
use crate::replay::Replay;
use crate::series::Series;
use crate::writer::Writer;
use ms_report::Amount;

/// A row: an amount of both spaces and of the class space.
#[derive(Clone, Copy)]
struct Row {
    /// The class of its colour in the style sheet.
    class: &'static str,
    label: &'static str,
    /// What its share is of.
    of: &'static str,
    both: Amount,
    class_space: Amount,
    /// The amount over the columns, in both spaces and in the class space, where they have it.
    over: Option<(Series, Series)>,
}

/// Appends the table.
pub(crate) fn push_usage(page: &mut Writer, replay: &Replay<'_>) {
    page.text(
        r#"<div class="wide" tabindex="0" role="region" aria-label="Usage"><table class="usage"><caption>Usage at the end, and at most</caption>
<thead>"#,
    );
    push_usage_head(page, replay.has_class_space);
    push_taken_rows(page, replay);
    push_contents_rows(page, replay);
    page.text("</tbody></table></div>\n");
}

/// Appends the headings.
fn push_usage_head(page: &mut Writer, two: bool) {
    if two {
        page.text(
            "<tr><td></td><th colspan=\"4\" scope=\"colgroup\">both spaces</th><th colspan=\"3\" scope=\"colgroup\" class=\"apart\">class space</th></tr>\n",
        );
    }
    page.text(
        r#"<tr><th scope="col">words</th><th scope="col">now</th><th scope="col">per cent</th><th scope="col">peak</th><th scope="col">first at its peak in</th>"#,
    );
    if two {
        page.text(
            r#"<th scope="col" class="apart">now</th><th scope="col">per cent</th><th scope="col">peak</th>"#,
        );
    }
    page.text("</tr></thead>\n<tbody>");
}

/// Appends the rows down to what is in use.
fn push_taken_rows(page: &mut Writer, replay: &Replay<'_>) {
    let both = &replay.picture.usage.both;
    let class_space = &replay.picture.usage.class_space;
    let rows = [
        Row {
            class: "reserved",
            label: "reserved",
            of: "",
            both: both.reserved,
            class_space: class_space.reserved,
            over: Some((Series::Reserved, Series::ClassReserved)),
        },
        Row {
            class: "committed",
            label: "committed",
            of: "of the limit",
            both: both.committed,
            class_space: class_space.committed,
            over: Some((Series::Committed, Series::ClassCommitted)),
        },
        Row {
            class: "used",
            label: "used",
            of: "of committed",
            both: both.used,
            class_space: class_space.used,
            over: Some((Series::Used, Series::ClassUsed)),
        },
    ];
    push_rows(page, replay, &rows);
}

/// Appends the rows of what is in use.
fn push_contents_rows(page: &mut Writer, replay: &Replay<'_>) {
    let both = &replay.picture.usage.both;
    let class_space = &replay.picture.usage.class_space;
    let rows = [
        Row {
            class: "live",
            label: "live",
            of: "of used",
            both: both.live,
            class_space: class_space.live,
            over: Some((Series::Live, Series::ClassLive)),
        },
        Row {
            class: "free",
            label: "free blocks",
            of: "of used",
            both: both.free_blocks,
            class_space: class_space.free_blocks,
            over: None,
        },
        Row {
            class: "waste",
            label: "waste",
            of: "of used",
            both: both.waste,
            class_space: class_space.waste,
            over: None,
        },
    ];
    push_rows(page, replay, &rows);
}

/// Appends rows.
fn push_rows(page: &mut Writer, replay: &Replay<'_>, rows: &[Row]) {
    for row in rows {
        push_row(page, replay, row);
    }
}

/// Appends a row.
fn push_row(page: &mut Writer, replay: &Replay<'_>, row: &Row) {
    page.text(r#"<tr><th scope="row"><span class="k-"#)
        .text(row.class)
        .text(r#"">"#)
        .text(row.label)
        .text("</span> <small>")
        .text(row.of)
        .text("</small></th>");
    push_amount(page, row.both);
    match row.over {
        Some((series, _)) => push_peak(page, replay, series),
        None => {
            page.text("<td></td><td></td>");
        }
    }
    if replay.has_class_space {
        push_amount(page, row.class_space);
        match row.over {
            Some((_, series)) => page.words_cell(series.amount(&replay.picture.peaks)),
            None => page.text("<td></td>"),
        };
    }
    page.text("</tr>\n");
}

/// Appends an amount and its share.
fn push_amount(page: &mut Writer, amount: Amount) {
    page.words_cell(narrow(amount.words))
        .text("<td>")
        .share(amount.share)
        .text("</td>");
}

/// Appends the peak in both spaces, and where it was first.
fn push_peak(page: &mut Writer, replay: &Replay<'_>, series: Series) {
    let peak = series.amount(&replay.picture.peaks);
    page.words_cell(peak).text("<td>");
    match series.first_at(replay.columns, peak) {
        Some((_, column)) if peak > 0 => page.lines(column),
        _ => page.text("-"),
    };
    page.text("</td>");
}
