//! When? Panels under one another on one x axis, then lanes, the axis, and the columns in numbers.
//!
//!     both spaces    committed, used, live words over one another, the limit where it is near
//!     class space    the same, where there is one
//!     reserved       one step
//!     loaders        those at a time, and among them those that are there at the end
use crate::lanes::{push_axis, push_columns, push_lanes};
use crate::numbers::narrow;
use crate::plots::{
    Plot, Unit, push_area, push_bounds, push_canvas, push_grid, push_number_area, push_peak_label,
};
use crate::replay::Replay;
use crate::series::Series;
use crate::usage::push_usage;
use crate::writer::Writer;
use ms_base::NODE_WORDS;
use ms_course::{Column, Schedule, column_for};
use ms_page::{Axis, count_axis, word_axis};

/// More words than any metaspace has; an axis of words reaches so far.
const MOST_WORDS: u64 = 72057594037927936;

/// From how many columns there are to the end of the key to the first chart.
const KEY: &str =
    r#"; each column shows the most within its lines. Point at one for its numbers.</p>
<p class="key"><span class="k-live">live</span> <span class="k-used">used, not live</span> <span class="k-committed">committed, not used</span>"#;

/// A panel of words in use: of both spaces, or of the class space.
#[derive(Clone, Copy)]
struct Panel {
    committed: Series,
    used: Series,
    live: Series,
    /// The most words that were committed.
    peak: u64,
    /// The words that may be committed.
    limit: u64,
    /// What the limit's label says before the size.
    label: &'static str,
    /// The height.
    pixels: u64,
}

/// Appends the part.
pub(crate) fn push_when(page: &mut Writer, replay: &Replay<'_>) {
    page.text("<section><h2>When?</h2>\n");
    if replay.lines == 0 {
        page.text("<p class=\"soft\">The trace has no command line.</p>");
    } else {
        push_key(page, replay);
        page.text("<div class=\"plots\">\n");
        push_both(page, replay);
        if replay.has_class_space {
            push_class_space(page, replay);
        }
        push_reserved(page, replay);
        push_loaders(page, replay);
        push_lanes(page, replay.columns);
        push_axis(page, replay.columns);
        push_columns(page, replay.columns, replay.has_class_space);
        page.text("</div>\n");
        push_usage(page, replay);
    }
    page.text("</section>\n");
}

/// Appends what the charts show, and the key to the first.
fn push_key(page: &mut Writer, replay: &Replay<'_>) {
    let facts = replay.facts;
    page.text(r#"<p class="soft">"#)
        .count(replay.lines, "command line", "command lines")
        .text(" from left to right in ")
        .count(replay.columns.len() as u64, "column", "columns")
        .text(KEY);
    if !is_near(facts.committed_peak, facts.limit) {
        page.text(r#" <span class="k-limit">limit "#)
            .size(facts.limit)
            .text(", above the chart</span>");
    }
    page.text("</p>\n");
}

/// Returns whether a peak is half of a limit or more, so that a chart has room for both.
fn is_near(peak: u64, limit: u64) -> bool {
    peak.saturating_mul(2) >= limit
}

/// Appends the beginning of a panel, to the title of what it draws.
fn push_heading(page: &mut Writer, roomy: bool, heading: &str, pixels: u64) {
    let class = if roomy { "panel roomy" } else { "panel" };
    page.text(r#"<div class=""#)
        .text(class)
        .text(r#""><h3>"#)
        .text(heading)
        .text("</h3>\n<svg class=\"plot\" height=\"")
        .digits(pixels)
        .text(r#"" role="img"><title>"#)
        .text(heading);
}

/// Appends the panel of both spaces.
fn push_both(page: &mut Writer, replay: &Replay<'_>) {
    let facts = replay.facts;
    let panel = Panel {
        committed: Series::Committed,
        used: Series::Used,
        live: Series::Live,
        peak: facts.committed_peak,
        limit: facts.limit,
        label: "limit",
        pixels: 240,
    };
    let heading = match replay.settings.class_nodes {
        0 => "Metaspace",
        _ => "Both spaces",
    };
    push_words_heading(page, &panel, heading);
    push_both_extents(page, replay);
    push_panel(page, replay.columns, &panel);
}

/// Appends the beginning of a panel of words in use, up to its description.
fn push_words_heading(page: &mut Writer, panel: &Panel, heading: &str) {
    let roomy = panel.peak > 0 || is_near(panel.peak, panel.limit);
    push_heading(page, roomy, heading, panel.pixels);
    page.text(": committed, used and live over the lines</title><desc>Committed at the end ");
}

/// Appends what both spaces have at the end and at most.
fn push_both_extents(page: &mut Writer, replay: &Replay<'_>) {
    let facts = replay.facts;
    let peaks = &replay.picture.peaks.both;
    page.size(facts.committed)
        .text(", at most ")
        .size(facts.committed_peak)
        .text("; used ")
        .size(facts.used)
        .text(", at most ")
        .size(peaks.used)
        .text("; live ")
        .size(narrow(replay.picture.usage.both.live.words))
        .text(", at most ")
        .size(peaks.live)
        .text(".</desc>\n");
}

/// Appends the panel of the class space.
fn push_class_space(page: &mut Writer, replay: &Replay<'_>) {
    let facts = replay.facts;
    let panel = Panel {
        committed: Series::ClassCommitted,
        used: Series::ClassUsed,
        live: Series::ClassLive,
        peak: facts.class_peak,
        limit: facts.class_limit,
        label: "all of it,",
        pixels: 120,
    };
    push_words_heading(page, &panel, "Class space");
    page.size(replay.end.class_space.committed)
        .text(", at most ")
        .size(facts.class_peak)
        .text(".</desc>\n");
    push_panel(page, replay.columns, &panel);
}

/// Appends what a panel of words in use draws.
fn push_panel(page: &mut Writer, columns: &[Column], panel: &Panel) {
    let near = is_near(panel.peak, panel.limit);
    let high = if near {
        panel.peak.max(panel.limit)
    } else {
        panel.peak
    };
    let axis = word_axis(high.min(MOST_WORDS));
    let plot = Plot::new(columns, panel.pixels, axis, Unit::Words);
    push_canvas(page, &plot);
    push_area(page, &plot, "committed", panel.committed);
    push_area(page, &plot, "used", panel.used);
    push_area(page, &plot, "live", panel.live);
    push_bounds(page, &plot, near, panel.label, panel.limit);
    if panel.peak > 0 {
        push_peak_label(page, &plot, panel.committed, panel.peak);
    }
    page.text("</svg></div>\n");
}

/// Appends the panel of reserved words: an axis of one step.
fn push_reserved(page: &mut Writer, replay: &Replay<'_>) {
    let peak = replay.picture.peaks.both.reserved;
    let limit = u64::from(replay.facts.node_limit).saturating_mul(NODE_WORDS);
    let near = is_near(peak, limit);
    let high = if near { limit } else { peak };
    let axis = Axis {
        step: high.max(NODE_WORDS),
        steps: 1,
    };
    let plot = Plot::new(replay.columns, 48, axis, Unit::Words);
    push_heading(page, near, "Reserved", 48);
    page.text(" over the lines</title><desc>Reserved at the end ")
        .size(narrow(replay.picture.usage.both.reserved.words))
        .text(", at most ")
        .size(peak)
        .text(".</desc>\n");
    push_canvas(page, &plot);
    push_area(page, &plot, "reserved", Series::Reserved);
    push_bounds(page, &plot, near, "limit", limit);
    page.text("</svg></div>\n");
}

/// Appends the panel of loaders.
fn push_loaders(page: &mut Writer, replay: &Replay<'_>) {
    let peak = replay.picture.peaks.loaders;
    let plot = Plot::new(replay.columns, 120, count_axis(peak), Unit::Things);
    page.text(
        r#"<div class="panel"><h3>Loaders <span class="k-gone">unloaded later</span> <span class="k-stay">there at the end</span> <span class="k-mark">line "#,
    ).number(replay.half_line)
        .text(
            ", half-way</span></h3>\n<svg class=\"plot\" height=\"120\" role=\"img\"><title>Loaders over the lines</title><desc>",
        )
        .number(u64::from(replay.end.loaders))
        .text(" at the end, ")
        .number(peak)
        .text(" at most.</desc>\n");
    push_canvas(page, &plot);
    push_area(page, &plot, "gone", Series::Loaders);
    push_number_area(page, &plot, "stay", replay.picture.stays.as_slice());
    page.text(r#"<path class="mark" d="M"#)
        .digits(half_column(replay.course.schedule()) as u64)
        .text(" 0V")
        .digits(plot.height)
        .text("\"/>\n");
    push_grid(page, &plot);
    page.text("</svg></div>\n");
}

/// Returns the column of the line half-way.
fn half_column(schedule: Schedule) -> usize {
    if schedule.half < schedule.lines {
        column_for(schedule.half, schedule.lines)
    } else {
        0
    }
}
