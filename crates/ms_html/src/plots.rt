//! What the panels of the charts are drawn by, and their parts.
//!
//!     |  step 3 +------------------+  - - limit
//!     |         |      __          |
//!     |  step 2 |   __|  |__       |      an area: each column as high as its number
//!     |         |  |        |__    |
//!     |  step 1 |__|           |___|
//!     |       0 +------------------+
//!
//! A panel's texts are in pixels and per cents, so that they keep their size however wide the page
//! is; areas and lines are in units, one a column across and two a pixel down, and are stretched.
use crate::series::Series;
use crate::writer::Writer;
use ms_course::Column;
use ms_page::{Axis, scaled};

/// The words of a KB.
const KB: u64 = 128;

/// The words of a MB.
const MB: u64 = 131_072;

/// What a panel is drawn by.
#[derive(Clone, Copy)]
pub(crate) struct Plot<'a> {
    pub columns: &'a [Column],
    /// The units of its width, one a column.
    pub width: u64,
    /// The pixels of its height, a multiple of the axis's steps, and its units.
    pub pixels: u64,
    pub height: u64,
    pub axis: Axis,
    /// The number at the top of the axis.
    pub top: u64,
    pub unit: Unit,
}

/// What the ticks of an axis count.
#[derive(Clone, Copy)]
pub(crate) enum Unit {
    Words,
    Things,
}

impl<'a> Plot<'a> {
    /// Makes a plot of columns, so many pixels high.
    pub(crate) fn new(columns: &'a [Column], pixels: u64, axis: Axis, unit: Unit) -> Plot<'a> {
        Plot {
            columns,
            width: (columns.len() as u64).max(1),
            pixels,
            height: pixels.saturating_mul(2),
            axis,
            top: axis.step.saturating_mul(axis.steps),
            unit,
        }
    }

    /// Returns how many units below the panel's top a number lies.
    fn down(&self, number: u64) -> u64 {
        self.height
            .saturating_sub(scaled(number, self.top, self.height))
    }

    /// Returns the pixel, from the panel's top, so far above a number; it is below 0 above the top.
    fn pixel_above(&self, number: u64, distance: i64) -> i64 {
        let units = scaled(number, self.top, self.height);
        let down = self.pixels.saturating_sub(units / 2);
        i64::try_from(down)
            .unwrap_or(i64::MAX)
            .saturating_sub(distance)
    }
}

/// Appends the beginning of what is stretched.
pub(crate) fn push_canvas(page: &mut Writer, plot: &Plot<'_>) {
    page.text(r#"<svg viewBox="0 0 "#)
        .digits(plot.width)
        .text(" ")
        .digits(plot.height)
        .text("\" preserveAspectRatio=\"none\" width=\"100%\" height=\"100%\">\n");
}

/// Appends the area of a series.
pub(crate) fn push_area(page: &mut Writer, plot: &Plot<'_>, class: &str, series: Series) {
    push_area_start(page, plot, class);
    let mut number: u64 = 0;
    for column in plot.columns {
        number = number.saturating_add(1);
        push_step(page, plot.down(series.amount(&column.most)), number);
    }
    push_area_end(page, plot);
}

/// Appends the area of numbers, one a column.
pub(crate) fn push_number_area(page: &mut Writer, plot: &Plot<'_>, class: &str, amounts: &[u64]) {
    push_area_start(page, plot, class);
    let mut number: u64 = 0;
    for amount in amounts {
        number = number.saturating_add(1);
        push_step(page, plot.down(*amount), number);
    }
    push_area_end(page, plot);
}

/// Appends the beginning of an area, at the left end of its foot.
fn push_area_start(page: &mut Writer, plot: &Plot<'_>, class: &str) {
    page.text(r#"<path class=""#)
        .text(class)
        .text(r#"" d="M0 "#)
        .digits(plot.height);
}

/// Appends the top of an area over a column: so many units below the panel's top.
fn push_step(page: &mut Writer, down: u64, number: u64) {
    page.text("V").digits(down).text("H").digits(number);
}

/// Appends the end of an area.
fn push_area_end(page: &mut Writer, plot: &Plot<'_>) {
    page.text("V").digits(plot.height).text("Z\"/>\n");
}

/// Appends the grid, and where a limit is near its line and its label.
pub(crate) fn push_bounds(page: &mut Writer, plot: &Plot<'_>, near: bool, label: &str, limit: u64) {
    if near {
        page.text(r#"<path class="limit" d="M0 "#)
            .digits(plot.down(limit))
            .text("H")
            .digits(plot.width)
            .text("\"/>\n");
    }
    push_grid(page, plot);
    if near {
        page.text(r#"<text class="bound" x="0" y=""#)
            .signed(plot.pixel_above(limit, 4))
            .text(r#"">"#)
            .text(label)
            .text(" ")
            .size(limit)
            .text("</text>\n");
    }
}

/// Appends the end of what is stretched, and lines and ticks.
pub(crate) fn push_grid(page: &mut Writer, plot: &Plot<'_>) {
    page.text("</svg>\n<g class=\"grid\">");
    for across in [25, 50, 75] {
        page.text(r#"<line x1=""#)
            .digits(across)
            .text(r#"%" x2=""#)
            .digits(across)
            .text(r#"%" y1="0" y2=""#)
            .digits(plot.pixels)
            .text(r#""/>"#);
    }
    for number in 0..=plot.axis.steps {
        push_tick(page, plot, number);
    }
    page.text("</g>\n");
}

/// Appends the tick at so many steps, and its line.
fn push_tick(page: &mut Writer, plot: &Plot<'_>, steps: u64) {
    let pixels = plot.pixels;
    let up = pixels
        .saturating_mul(steps)
        .checked_div(plot.axis.steps)
        .unwrap_or(0);
    let down = pixels.saturating_sub(up);
    page.text(r#"<line x1="0" x2="100%" y1=""#)
        .digits(down)
        .text(r#"" y2=""#)
        .digits(down)
        .text(r#""/><text x="-8" y=""#)
        .digits(down.saturating_add(4))
        .text(r#"">"#);
    push_tick_text(page, plot, plot.axis.step.saturating_mul(steps));
    page.text("</text>");
}

/// Appends the text of a tick: words in KB or MB, by the step.
fn push_tick_text(page: &mut Writer, plot: &Plot<'_>, number: u64) {
    match plot.unit {
        Unit::Words if number > 0 && plot.axis.step < MB => page.number(number / KB).text(" KB"),
        Unit::Words if number > 0 => page.number(number / MB).text(" MB"),
        Unit::Words | Unit::Things => page.number(number),
    };
}

/// Appends the label of a peak, where the series has it first.
pub(crate) fn push_peak_label(page: &mut Writer, plot: &Plot<'_>, series: Series, peak: u64) {
    let Some((before, _)) = series.first_at(plot.columns, peak) else {
        return;
    };
    let (class, across) = if before.saturating_mul(2) < plot.width {
        ("top", percent(before, plot.width))
    } else {
        ("top end", percent(before.saturating_add(1), plot.width))
    };
    page.text(r#"<text class=""#)
        .text(class)
        .text(r#"" x=""#)
        .digits(across)
        .text(r#"%" y=""#)
        .signed(plot.pixel_above(peak, 5))
        .text(r#"">peak "#)
        .size(peak)
        .text("</text>\n");
}

/// Returns how many whole per cents a part is of a whole; none of nothing.
fn percent(part: u64, whole: u64) -> u64 {
    part.saturating_mul(100).checked_div(whole).unwrap_or(0)
}
