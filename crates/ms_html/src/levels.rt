//! Chunks by size: how many are held and how many parts are free at each level, with bars by their
//! words.
use crate::replay::Replay;
use crate::writer::Writer;
use ms_answers::SpaceTotals;
use ms_base::ROOT_WORDS;
use ms_page::scaled;

/// The units of a bar.
const BAR: u64 = 160;

/// From the heading of a table to its rows.
const HEADS: &str = r#"</caption>
<thead><tr><th scope="col">chunk</th><th scope="col">held</th><th scope="col" class="left"></th><th scope="col">free</th><th scope="col" class="left"></th></tr></thead>
<tbody>"#;

/// Appends the tables, one beside the other where there is a class space.
pub(crate) fn push_levels(page: &mut Writer, replay: &Replay<'_>) {
    page.text("<div class=\"pair\">");
    push_table(page, "Chunks by size", &replay.end.space);
    if replay.has_class_space {
        push_table(page, "Class chunks by size", &replay.end.class_space);
    }
    page.text("</div>");
}

/// Appends the table of a space, a row for each level from the largest.
fn push_table(page: &mut Writer, heading: &str, space: &SpaceTotals) {
    let most = most_words(&space.held).max(most_words(&space.free));
    page.text(r#"<div class="wide" tabindex="0" role="region" aria-label=""#)
        .text(heading)
        .text(r#""><table class="levels"><caption>"#)
        .text(heading)
        .text(HEADS);
    let mut words = ROOT_WORDS;
    for (held, free) in space.held.iter().zip(space.free.iter()) {
        page.text(r#"<tr><th scope="row">"#)
            .both(words)
            .text("</th>");
        push_chunks(page, "used", u64::from(*held), words, most);
        push_chunks(page, "free", u64::from(*free), words, most);
        page.text("</tr>\n");
        words /= 2;
    }
    page.text("</tbody></table>\n</div>");
}

/// Returns the most words that chunks of one level have, by how many there are of each.
fn most_words(chunks: &[u32; 13]) -> u64 {
    let mut most: u64 = 1;
    let mut words = ROOT_WORDS;
    for number in chunks {
        most = most.max(u64::from(*number).saturating_mul(words));
        words /= 2;
    }
    most
}

/// Appends how many chunks there are of so many words, and the bar of all their words.
fn push_chunks(page: &mut Writer, class: &str, number: u64, words: u64, most: u64) {
    let all = number.saturating_mul(words);
    page.number_cell(number)
        .text(
            r#"<td class="left"><svg class="bar" viewBox="0 0 160 8" preserveAspectRatio="none" role="img"><title>"#,
        )
        .size(all)
        .text(r#"</title><path class=""#)
        .text(class)
        .text(r#"" d="M0 0H"#)
        .digits(scaled(all, most, BAR))
        .text(r#"V8H0Z"/></svg></td>"#);
}
