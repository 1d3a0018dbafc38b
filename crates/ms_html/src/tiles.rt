//! Is there a problem? Six tiles, each a mark, a number, a track and one sentence.
//!
//!     +--------------------------+
//!     | Committed           fine |    heading and mark
//!     | 192.0 KB  of 512.0 MB    |    value and of what
//!     | ####|------------------- |    now, and the peak
//!     | The peak was 320.0 KB .. |    the sentence of the tile's case
//!     +--------------------------+
//!
//! Which case holds, `ms_page` says; here stand the words of each.
use crate::lanes::reason_word;
use crate::numbers::narrow;
use crate::replay::Replay;
use crate::writer::Writer;
use ms_base::NODE_WORDS;
use ms_course::{Course, Reason};
use ms_page::{
    ClassCase, CommittedCase, Facts, LoaderCase, Mark, RefusedCase, ReservedCase, UsedCase,
};

/// The reasons by which lines are counted, one of each name.
const NAMED: [Reason; 11] = [
    Reason::LoaderExists,
    Reason::IdsUsedUp,
    Reason::NoLoader,
    Reason::BlockExists,
    Reason::ZeroWords,
    Reason::TooLarge,
    Reason::OutOfMemory,
    Reason::ReserveLimit,
    Reason::CommitLimit,
    Reason::NoBlock,
    Reason::OutOfRange,
];

/// Appends the tiles.
pub(crate) fn push_problem(page: &mut Writer, replay: &Replay<'_>) {
    page.text("<section><h2>Is there a problem?</h2>\n<div class=\"tiles\">\n");
    push_committed(page, replay);
    push_used(page, replay);
    push_reserved(page, replay);
    push_class_space(page, replay);
    push_loaders(page, replay);
    push_refused(page, replay);
    page.text("</div></section>\n");
}

/// Returns the class of a mark in the style sheet, and its word.
pub(crate) fn mark_words(mark: Mark) -> (&'static str, &'static str) {
    match mark {
        Mark::Fine => ("fine", "fine"),
        Mark::Look => ("look", "look"),
        Mark::Problem => ("bad", "problem"),
    }
}

/// Appends the heading of a tile, its mark, and the beginning of its value.
fn push_heading(page: &mut Writer, heading: &str, mark: Mark) {
    let (class, word) = mark_words(mark);
    page.text(r#"<div class="tile "#)
        .text(class)
        .text(r#""><h3>"#)
        .text(heading)
        .text(" <span>")
        .text(word)
        .text("</span></h3>\n<p class=\"value\">");
}

/// Appends the tile of committed words.
fn push_committed(page: &mut Writer, replay: &Replay<'_>) {
    let facts = replay.facts;
    let (now, peak, limit) = (facts.committed, facts.committed_peak, facts.limit);
    let case = replay.picture.tiles.committed;
    push_heading(page, "Committed", case.mark());
    page.size(now)
        .text(" <small>of ")
        .size(limit)
        .text(", ")
        .share_of(now, limit)
        .track(now, limit, peak);
    match case {
        CommittedCase::Refused => push_refusals(
            page,
            facts.commit_refused,
            "at the limit",
            first_line(replay.course, Reason::CommitLimit),
        ),
        CommittedCase::Near => push_near(page, peak),
        CommittedCase::Within => push_within(page, peak, limit, " of the limit"),
    }
}

/// Appends the sentence of lines that were refused for want of room.
fn push_refusals(page: &mut Writer, lines: u64, reason: &str, first: u64) {
    page.text("<p>")
        .count(lines, "line was", "lines were")
        .text(" refused ")
        .text(reason)
        .text(", first at line ")
        .number(first)
        .text(".</p></div>\n");
}

/// Appends the sentence of a peak that came near to its limit.
fn push_near(page: &mut Writer, peak: u64) {
    page.text("<p>The peak of ").size(peak).text(
        " came within a tenth of it, and no line was refused for it.</p></div>\n",
    );
}

/// Appends the sentence of a peak within its limit.
fn push_within(page: &mut Writer, peak: u64, limit: u64, of: &str) {
    page.text("<p>The peak was ")
        .size(peak)
        .text(", ")
        .share_of(peak, limit)
        .text(of)
        .text(".</p></div>\n");
}

/// Returns the number of the first line that was refused for a reason.
fn first_line(course: &Course, reason: Reason) -> u64 {
    u64::from(course.refused(reason).first_line)
}

/// Appends the tile of used words.
fn push_used(page: &mut Writer, replay: &Replay<'_>) {
    let (used, committed) = (replay.facts.used, replay.facts.committed);
    let case = replay.picture.tiles.used;
    let idle = committed.saturating_sub(used);
    push_heading(page, "Used of committed", case.mark());
    page.share_of(used, committed)
        .text(" <small>")
        .size(used)
        .text(" of ")
        .size(committed)
        .track(used, committed, 0);
    match case {
        UsedCase::Nothing => page.text("<p>Nothing is committed.</p></div>\n"),
        UsedCase::Idle => page
            .text("<p>Less than half of what is committed is in use: ")
            .size(idle)
            .text(" are idle.</p></div>\n"),
        UsedCase::InUse => page
            .text("<p>")
            .size(idle)
            .text(" are committed and not in use.</p></div>\n"),
    };
}

/// Appends the tile of reserved words.
fn push_reserved(page: &mut Writer, replay: &Replay<'_>) {
    let words = narrow(replay.picture.usage.both.reserved.words);
    let peak = replay.picture.peaks.both.reserved;
    let nodes = u64::from(replay.facts.nodes);
    let most_nodes = u64::from(replay.facts.node_limit);
    push_heading(page, "Reserved", replay.picture.tiles.reserved.mark());
    page.size(words)
        .text(" <small>")
        .count(nodes, "node", "nodes")
        .text(" of ")
        .number(most_nodes)
        .track(nodes, most_nodes, peak / NODE_WORDS);
    push_reserved_sentence(page, replay, words);
}

/// Appends the sentence of so many reserved words.
fn push_reserved_sentence(page: &mut Writer, replay: &Replay<'_>, words: u64) {
    let facts = replay.facts;
    match replay.picture.tiles.reserved {
        ReservedCase::Refused => push_refusals(
            page,
            facts.reserve_refused,
            "as no more nodes may be reserved",
            first_line(replay.course, Reason::ReserveLimit),
        ),
        ReservedCase::All => {
            page.text(
                "<p>All nodes that may be reserved are, and no line was refused for it.</p></div>\n",
            );
        }
        ReservedCase::Empty => push_empty(page, u64::from(facts.empty_nodes)),
        ReservedCase::Nothing => {
            page.text("<p>No node is reserved.</p></div>\n");
        }
        ReservedCase::Held => {
            page.text("<p>A purge would give nothing back; ")
                .share_of(facts.committed, words)
                .text(" of what is reserved is committed.</p></div>\n");
        }
    }
}

/// Appends the sentence of nodes without a chunk.
fn push_empty(page: &mut Writer, nodes: u64) {
    page.text("<p>")
        .count(nodes, "node holds", "nodes hold")
        .text(" no chunk: a purge would give back ")
        .size(nodes.saturating_mul(NODE_WORDS))
        .text(".</p></div>\n");
}

/// Appends the tile of the class space.
fn push_class_space(page: &mut Writer, replay: &Replay<'_>) {
    let case = replay.picture.tiles.class_space;
    let (peak, limit) = (replay.facts.class_peak, replay.facts.class_limit);
    let refused = replay.facts.class_refused;
    let first = first_line(replay.course, Reason::ClassReserveLimit);
    push_heading(page, "Class space", case.mark());
    push_class_value(page, replay, case);
    match case {
        ClassCase::Missing => push_refusals(page, refused, "as there is none", first),
        ClassCase::Refused => push_refusals(page, refused, "as it had no room", first),
        ClassCase::Unwanted => {
            page.text("<p>No line was refused for want of one.</p></div>\n");
        }
        ClassCase::Near => push_near(page, peak),
        ClassCase::Within => push_within(page, peak, limit, " of it"),
    }
}

/// Appends the value of the class space.
fn push_class_value(page: &mut Writer, replay: &Replay<'_>, case: ClassCase) {
    let committed = replay.end.class_space.committed;
    let (peak, limit) = (replay.facts.class_peak, replay.facts.class_limit);
    match case {
        ClassCase::Missing | ClassCase::Unwanted => page
            .text("none <small>--class-nodes 0")
            .track(0, 1, 0),
        ClassCase::Refused | ClassCase::Near | ClassCase::Within => page
            .size(committed)
            .text(" <small>of ")
            .size(limit)
            .text(", ")
            .share_of(committed, limit)
            .track(committed, limit, peak),
    };
}

/// Appends the tile of loaders.
fn push_loaders(page: &mut Writer, replay: &Replay<'_>) {
    let here = u64::from(replay.end.loaders);
    let most = replay.picture.peaks.loaders;
    let unloads = replay.facts.unloads;
    let case = replay.picture.tiles.loaders;
    push_heading(page, "Loaders", case.mark());
    page.number(here)
        .text(" <small>at the end, ")
        .number(most)
        .text(" at most")
        .track(here, most, 0)
        .text("<p>");
    match case {
        LoaderCase::NoneUnloaded => {
            page.text("None was unloaded");
        }
        LoaderCase::Rising => {
            page.text("Though ")
                .count(unloads, "was", "were")
                .text(" unloaded, at the quietest there were ");
            push_lows(page, replay);
            page.text(": a leak looks like this");
        }
        LoaderCase::Level => {
            page.count(unloads, "was", "were")
                .text(" unloaded. At the quietest there were ");
            push_lows(page, replay);
        }
    }
    page.text(".</p></div>\n");
}

/// Appends how many loaders there were at the quietest of each half.
fn push_lows(page: &mut Writer, replay: &Replay<'_>) {
    page.number(replay.facts.low)
        .text(" before line ")
        .number(replay.half_line)
        .text(" and ")
        .number(replay.facts.low_after)
        .text(" after it");
}

/// Appends the tile of refused lines.
fn push_refused(page: &mut Writer, replay: &Replay<'_>) {
    let (refused, lines) = (replay.facts.refused, replay.lines);
    let case = replay.picture.tiles.refused;
    push_heading(page, "Refused lines", case.mark());
    page.number(refused)
        .text(" <small>of ")
        .count(lines, "line", "lines")
        .track(refused, lines, 0);
    if refused > 0 {
        push_names(page, replay.course);
    }
    match case {
        RefusedCase::Wants => page
            .text("<p>")
            .count(
                wants(replay.facts),
                "line was refused",
                "lines were refused",
            )
            .text(" for want of room.</p></div>\n"),
        RefusedCase::Asks => page.text(
            "<p>None was refused for want of room: see how the trace was made.</p></div>\n",
        ),
        RefusedCase::Nothing => page.text("<p>Every line was done.</p></div>\n"),
    };
}

/// Appends how many lines were refused by each name that has any.
fn push_names(page: &mut Writer, course: &Course) {
    page.text("<dl>");
    for reason in NAMED {
        let lines = refused_lines(course, reason);
        if lines > 0 {
            page.text("<dt>")
                .text(reason_word(reason))
                .text("</dt><dd>")
                .number(lines)
                .text("</dd>");
        }
    }
    page.text("</dl>\n");
}

/// Returns how many lines were refused under a reason's name.
fn refused_lines(course: &Course, reason: Reason) -> u64 {
    let lines = u64::from(course.refused(reason).lines);
    match reason {
        Reason::ReserveLimit => lines + u64::from(course.refused(Reason::ClassReserveLimit).lines),
        _ => lines,
    }
}

/// Returns how many lines were refused for want of something.
fn wants(facts: &Facts) -> u64 {
    facts
        .commit_refused
        .saturating_add(facts.reserve_refused)
        .saturating_add(facts.class_refused)
        .saturating_add(facts.other_wants)
}
