//! The page as a whole: its head, its parts in their order, and its foot.
use crate::charts::push_when;
use crate::loaders::push_who;
use crate::maps::push_where;
use crate::replay::Replay;
use crate::settings::{policy_word, push_settings};
use crate::style::STYLE;
use crate::tiles::{mark_words, push_problem};
use crate::writer::Writer;
use ms_answers::Totals;
use ms_base::Settings;
use ms_course::Course;
use ms_page::{Mark, Picture, Tiles};
use std::alloc::{AllocError, Global};
use std::collections::BTreeMap;

/// The page up to its style sheet.
const HEAD: &str = r#"<!DOCTYPE html>
<html lang="en">
<head>
<meta charset="utf-8"/>
<meta name="viewport" content="width=device-width, initial-scale=1"/>
<meta name="color-scheme" content="light dark"/>
<meta http-equiv="Content-Security-Policy" content="default-src 'none'; style-src 'unsafe-inline'"/>
<title>Metaspace replay</title>
<style>
"#;

/// From the style sheet's end to the line that says what was run.
const BODY: &str = r#"</style>
</head>
<body>
<input type="checkbox" id="words"/>
<header><h1>Metaspace replay</h1>
"#;

/// What ends the page.
const FOOT: &str =
    "</main>\n<footer><p>A word is 8 bytes, a KB 1024 bytes, a MB 1024 KB. Sizes and shares are cut off after one digit. Written by metarun.</p></footer>\n</body>\n</html>\n";

/// Writes the page of a replay with these settings, of which this is the course and these are the
/// totals of the end, in the room of a text that is done with, which is emptied. The names are
/// texts of the input for loaders; where there is any, the tables of loaders have a column of them,
/// and each is escaped. Takes memory for the text and for the values that it shows; an error means
/// that a growth was refused. This project's choice.
pub fn page(
    alloc: Global,
    room: String,
    settings: &Settings,
    course: &Course,
    end: &Totals,
    names: &BTreeMap<u16, String>,
) -> Result<String, AllocError> {
    let mut page = Writer::new(room);
    fill(alloc, &mut page, settings, course, end, names)?;
    page.finish()
}

/// Appends the page; an error means that a growth of the values that it shows was refused.
fn fill(
    alloc: Global,
    page: &mut Writer,
    settings: &Settings,
    course: &Course,
    end: &Totals,
    names: &BTreeMap<u16, String>,
) -> Result<(), AllocError> {
    let picture = Picture::new(alloc, settings, course, end)?;
    let replay = Replay::new(alloc, settings, course, end, &picture, names);
    push_page(page, &replay);
    Ok(())
}

/// Appends all parts in their order.
fn push_page(page: &mut Writer, replay: &Replay<'_>) {
    page.text(HEAD).text(STYLE).text(BODY);
    push_run(page, replay);
    push_verdict(page, &replay.picture.tiles);
    page.text("</header>\n<main>\n");
    push_problem(page, replay);
    push_when(page, replay);
    push_who(page, replay);
    push_where(page, replay);
    push_settings(page, replay);
    page.text(FOOT);
}

/// Appends the line that says what was run.
fn push_run(page: &mut Writer, replay: &Replay<'_>) {
    let settings = replay.settings;
    page.text("<p>")
        .count(replay.lines, "line", "lines")
        .text(", policy ")
        .text(policy_word(settings.policy))
        .text(", limit ")
        .size(replay.facts.limit)
        .text(", ")
        .count(u64::from(settings.nodes), "node", "nodes")
        .text(", ");
    match settings.class_nodes {
        0 => page.text("no class space"),
        nodes => page
            .count(u64::from(nodes), "node", "nodes")
            .text(" of class space"),
    };
    page.text(", ")
        .count(u64::from(settings.workers), "worker", "workers")
        .text("</p>\n<label for=\"words\">show words</label>\n");
}

/// Appends the verdict: the worst mark, and the headings of the tiles that have it.
fn push_verdict(page: &mut Writer, tiles: &Tiles) {
    let worst = tiles.worst();
    let (class, _) = mark_words(worst);
    page.text(r#"<p class="verdict "#).text(class).text(r#"">"#);
    match worst {
        Mark::Fine => {
            page.text("Nothing stands out.");
        }
        Mark::Look => {
            page.text("No request was refused for want of room. Worth a look: ");
            push_marked(page, tiles, worst);
        }
        Mark::Problem => {
            page.text("Requests were refused for want of room. See: ");
            push_marked(page, tiles, worst);
        }
    }
    page.text("</p>");
}

/// Appends the headings of the tiles that have a mark.
fn push_marked(page: &mut Writer, tiles: &Tiles, mark: Mark) {
    let before = push_if(page, tiles.committed.mark() == mark, "", "Committed");
    let before = push_if(page, tiles.used.mark() == mark, before, "Used of committed");
    let before = push_if(page, tiles.reserved.mark() == mark, before, "Reserved");
    let before = push_if(
        page,
        tiles.class_space.mark() == mark,
        before,
        "Class space",
    );
    let before = push_if(page, tiles.loaders.mark() == mark, before, "Loaders");
    push_if(page, tiles.refused.mark() == mark, before, "Refused lines");
    page.text(".");
}

/// Appends a heading and what stands before it, if it is to; returns what stands before the next.
fn push_if(page: &mut Writer, wanted: bool, before: &'static str, heading: &str) -> &'static str {
    if wanted {
        page.text(before).text(heading);
        return ", ";
    }
    before
}
