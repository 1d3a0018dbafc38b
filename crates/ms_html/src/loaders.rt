//! Who? The kinds of loaders, the largest loaders, and where there are more, all of them by name.
//!
//!     loader  kind      since line  until now    chunks  capacity ..  used and live of it  growth
//!         12  standard       1,204    [  ####]        9  1.1 MB      [######==--]         +64.0 KB
use crate::numbers::narrow;
use crate::replay::Replay;
use crate::writer::Writer;
use ms_base::Kind;
use ms_page::{Growth, Holding, KindHolding, scaled};
use std::alloc::Global;

/// The units of a bar of what loaders hold.
const BAR: u64 = 160;

/// The units of the bar from a loader's birth to the end.
const LIFE: u64 = 512;

/// From the beginning of the table of kinds to the headings of what they hold.
const KIND_HEADS: &str =
    r#"<div class="wide" tabindex="0" role="region" aria-label="Kinds"><table><caption>Kinds</caption>
<thead><tr><th scope="col" class="left">kind</th><th scope="col">half-way</th><th scope="col">loaders</th><th scope="col">chunks</th>"#;

/// The heading of a loader's name.
const NAME_HEAD: &str = r#"<th scope="col" class="left">name</th>"#;

/// The heading of the bar from a loader's birth on.
const LIFE_HEAD: &str = r#"<th scope="col" class="left">until now</th>"#;

/// The headings of the capacity.
const CAPACITY_HEADS: &str = r#"<th scope="col">capacity</th><th scope="col">of all</th>"#;

/// The heading of the bar of what is held.
const BAR_HEAD: &str = r#"<th scope="col" class="left">used and live of it</th>"#;

/// The other headings of what is held, to the rows.
const HELD_HEADS: &str =
    "<th scope=\"col\">used</th><th scope=\"col\">live</th><th scope=\"col\">free blocks</th><th scope=\"col\">waste</th><th scope=\"col\">growth</th></tr></thead>\n<tbody>";

/// What a loader or a kind holds.
#[derive(Clone, Copy)]
struct Held {
    /// The words of its chunks.
    capacity: u64,
    used: u64,
    live: u64,
    /// The words of free blocks.
    free_blocks: u64,
    /// The words that can't be salvaged.
    waste: u64,
    /// How the live words grew.
    growth: Growth,
}

impl Held {
    /// Returns what a loader holds.
    fn by_loader(holding: &Holding) -> Held {
        Held {
            capacity: holding.capacity,
            used: holding.used,
            live: holding.live,
            free_blocks: holding.free_blocks,
            waste: holding.waste,
            growth: holding.growth,
        }
    }

    /// Returns what the loaders of a kind hold.
    fn by_kind(holding: &KindHolding) -> Held {
        let totals = &holding.totals;
        let live = narrow(totals.live);
        Held {
            capacity: narrow(totals.capacity),
            used: narrow(totals.used),
            live,
            free_blocks: narrow(totals.free_blocks),
            waste: narrow(totals.waste),
            growth: growth(live, holding.live_then),
        }
    }
}

/// Returns how live words grew.
fn growth(now: u64, then: u64) -> Growth {
    if now > then {
        Growth::More(now - then)
    } else if now < then {
        Growth::Less(then - now)
    } else {
        Growth::Same
    }
}

/// Appends the part.
pub(crate) fn push_who(page: &mut Writer, replay: &Replay<'_>) {
    page.text("<section><h2>Who?</h2>\n");
    if replay.loaders.is_empty() {
        page.text("<p class=\"soft\">No loader is there at the end.</p>");
    } else {
        let all = capacity_of(replay.loaders);
        push_sums(page, replay, all);
        push_kinds(page, replay, all);
        push_tables(page, replay, all);
    }
    page.text("</section>\n");
}

/// Returns the words of the chunks that loaders hold.
fn capacity_of(loaders: &[Holding]) -> u64 {
    let mut sum: u64 = 0;
    for loader in loaders {
        sum = sum.saturating_add(loader.capacity);
    }
    sum
}

/// Appends how much all loaders hold.
fn push_sums(page: &mut Writer, replay: &Replay<'_>, all: u64) {
    let loaders = replay.loaders.len() as u64;
    let shown = replay.largest.len() as u64;
    page.text(r#"<p class="soft">"#);
    if loaders > shown {
        let largest = capacity_of(replay.largest);
        page.text("The ")
            .digits(shown)
            .text(" largest of ")
            .number(loaders)
            .text(" loaders hold ")
            .size(largest)
            .text(" of their ")
            .size(all)
            .text(", ")
            .share_of(largest, all);
    } else {
        page.count(loaders, "loader holds", "loaders hold")
            .text(" ")
            .size(all)
            .text(" of capacity");
    }
    page.text(". Growth is that of live words since line ")
        .number(replay.half_line)
        .text(", half-way from the first unload to the end.</p>\n");
}

/// Appends the table of kinds.
fn push_kinds(page: &mut Writer, replay: &Replay<'_>, all: u64) {
    page.text(KIND_HEADS)
        .text(CAPACITY_HEADS)
        .text(BAR_HEAD)
        .text(HELD_HEADS);
    for kind in &replay.picture.kinds {
        push_kind(page, kind, all);
    }
    page.text("</tbody></table></div>\n");
}

/// Appends the row of a kind.
fn push_kind(page: &mut Writer, kind: &KindHolding, all: u64) {
    page.text(r#"<tr><th scope="row" class="left">"#)
        .text(kind_word(kind.kind))
        .text("</th>")
        .number_cell(kind.loaders_then)
        .number_cell(kind.totals.loaders)
        .number_cell(narrow(kind.totals.chunks));
    push_held(page, &Held::by_kind(kind), all, true);
}

/// Returns the word of a kind.
fn kind_word(kind: Kind) -> &'static str {
    match kind {
        Kind::Standard => "standard",
        Kind::Boot => "boot",
        Kind::Reflection => "reflection",
        Kind::Hidden => "hidden",
    }
}

/// Appends the table of the largest loaders, and where there are more that of all, which is folded.
fn push_tables(page: &mut Writer, replay: &Replay<'_>, all: u64) {
    let loaders = replay.loaders.len() as u64;
    let more = loaders > replay.largest.len() as u64;
    let caption = if more {
        "The largest loaders"
    } else {
        "Loaders"
    };
    page.text(
        r#"<div class="wide" tabindex="0" role="region" aria-label="Loaders"><table><caption>"#,
    ).text(caption)
        .text("</caption>\n<thead><tr>");
    push_table(page, replay, replay.largest, all, true);
    page.text("</tbody></table></div>\n");
    if more {
        page.text("<details><summary>All ").number(loaders).text(
            r#" loaders, by name</summary>
<div class="wide" tabindex="0" role="region" aria-label="All loaders"><table>
<thead><tr>"#,
        );
        push_table(page, replay, replay.loaders, all, false);
        page.text("</tbody></table></div></details>\n");
    }
}

/// Appends a table of loaders from its headings on, with bars or without.
fn push_table(page: &mut Writer, replay: &Replay<'_>, loaders: &[Holding], all: u64, bars: bool) {
    let name = if replay.is_named { NAME_HEAD } else { "" };
    let life = if bars { LIFE_HEAD } else { "" };
    let bar = if bars { BAR_HEAD } else { "" };
    page.text(r#"<th scope="col">loader</th>"#)
        .text(name)
        .text(r#"<th scope="col" class="left">kind</th><th scope="col">since line</th>"#)
        .text(life)
        .text(r#"<th scope="col">chunks</th>"#)
        .text(CAPACITY_HEADS)
        .text(bar)
        .text(HELD_HEADS);
    for loader in loaders {
        push_loader(page, replay, loader);
        if bars {
            push_life(page, u64::from(loader.since.position), replay.lines);
        }
        page.number_cell(loader.chunks);
        push_held(page, &Held::by_loader(loader), all, bars);
    }
}

/// Appends the cells of what a loader is. The cell of its name is empty where the input has none.
fn push_loader(page: &mut Writer, replay: &Replay<'_>, loader: &Holding) {
    page.text(r#"<tr><th scope="row">"#)
        .digits(u64::from(loader.name))
        .text("</th>");
    if replay.is_named {
        page.text(r#"<td class="left name">"#);
        if let Some(name) = replay.names.get(&loader.name) {
            page.name(replay.alloc, name);
        }
        page.text("</td>");
    }
    page.text(r#"<td class="left">"#)
        .text(kind_word(loader.kind))
        .text("</td><td>")
        .number(u64::from(loader.since.line))
        .text("</td>");
}

/// Appends the cells from the capacity on, and the row's end.
fn push_held(page: &mut Writer, held: &Held, all: u64, bars: bool) {
    page.words_cell(held.capacity)
        .text("<td>")
        .share_of(held.capacity, all)
        .text("</td>");
    if bars {
        push_bar(page, held);
    }
    page.words_cell(held.used)
        .words_cell(held.live)
        .words_cell(held.free_blocks)
        .words_cell(held.waste);
    push_growth(page, held.growth);
    page.text("</tr>\n");
}

/// Appends a table's cell with a growth.
fn push_growth(page: &mut Writer, growth: Growth) {
    match growth {
        Growth::New => page.text(r#"<td class="new">new</td>"#),
        Growth::More(words) => page
            .text(r#"<td class="grew"><b>+"#)
            .size(words)
            .text("</b><i>+")
            .number(words)
            .text("</i></td>"),
        Growth::Less(words) => page
            .text(r#"<td class="shrank"><b>-"#)
            .size(words)
            .text("</b><i>-")
            .number(words)
            .text("</i></td>"),
        Growth::Same => page.text(r#"<td class="z">0</td>"#),
    };
}

/// Appends the bar of used and live words over the capacity.
fn push_bar(page: &mut Writer, held: &Held) {
    page.text(
        r#"<td class="left"><svg class="bar" viewBox="0 0 160 8" preserveAspectRatio="none" aria-hidden="true"><path class="committed" d="M0 0H"#,
    ).digits(scaled(held.capacity, held.capacity, BAR))
        .text(r#"V8H0Z"/><path class="used" d="M0 0H"#)
        .digits(scaled(held.used, held.capacity, BAR))
        .text(r#"V8H0Z"/><path class="live" d="M0 0H"#)
        .digits(scaled(held.live, held.capacity, BAR))
        .text(r#"V8H0Z"/></svg></td>"#);
}

/// Appends the bar from a loader's birth to the end.
fn push_life(page: &mut Writer, position: u64, lines: u64) {
    let birth = position
        .saturating_mul(LIFE)
        .checked_div(lines)
        .unwrap_or(0);
    page.text(
        r#"<td class="left"><svg class="life" viewBox="0 0 512 8" preserveAspectRatio="none" aria-hidden="true"><path class="stay" d="M"#,
    ).digits(birth)
        .text(" 0H512V8H")
        .digits(birth)
        .text(r#"Z"/></svg></td>"#);
}
