//! With what, and what next? The settings of the run, advice, and the command.
use crate::replay::Replay;
use crate::writer::Writer;
use ms_base::{NODE_WORDS, Policy, Settings, granule};
use ms_page::{Advice, CommitAdvice, Facts, PolicyAdvice};

/// The end of a setting's row that stands for no words.
const UNSIZED: &str = "</td><td class=\"soft\"></td></tr>\n";

/// Appends the part.
pub(crate) fn push_settings(page: &mut Writer, replay: &Replay<'_>) {
    page.text(
        "<section><h2>With what, and what next?</h2>\n<div class=\"pair\"><div>\n<table class=\"settings\"><caption>Settings</caption>\n<tbody>",
    );
    push_table(page, replay.settings, replay.facts);
    page.text("</tbody></table></div>\n<div><h3>Try next</h3>\n<ul class=\"next\">");
    push_advice(page, &replay.picture.advice);
    page.text("</ul></div></div>\n");
    push_command(page, replay.settings);
}

/// Returns the word of a policy.
pub(crate) fn policy_word(policy: Policy) -> &'static str {
    match policy {
        Policy::Balanced => "balanced",
        Policy::Aggressive => "aggressive",
        Policy::None => "none",
    }
}

/// Appends the rows of the settings.
fn push_table(page: &mut Writer, settings: &Settings, facts: &Facts) {
    let words = granule(settings.policy);
    let nodes = u64::from(settings.nodes);
    let class_nodes = u64::from(settings.class_nodes);
    page.text(r#"<tr><th scope="row">policy</th><td>"#)
        .text(policy_word(settings.policy))
        .text(UNSIZED);
    push_sized(page, "granule", words, words);
    push_sized(page, "max granules", settings.max_granules, facts.limit);
    push_sized(page, "nodes", nodes, nodes.saturating_mul(NODE_WORDS));
    push_sized(page, "class nodes", class_nodes, facts.class_limit);
    page.text(r#"<tr><th scope="row">workers</th><td>"#)
        .digits(u64::from(settings.workers))
        .text(UNSIZED);
}

/// Appends a setting that is a number, and the words that it stands for.
fn push_sized(page: &mut Writer, label: &str, number: u64, words: u64) {
    page.text(r#"<tr><th scope="row">"#)
        .text(label)
        .text("</th><td>")
        .number(number)
        .text(r#"</td><td class="soft">"#)
        .size(words)
        .text("</td></tr>\n");
}

/// Appends the advice, each an item of a list.
fn push_advice(page: &mut Writer, advice: &Advice) {
    push_commit_advice(page, advice.commit);
    push_node_advice(page, advice);
    push_policy_advice(page, advice.policy);
    if advice.empty_nodes > 0 {
        let them = if advice.empty_nodes == 1 {
            "it"
        } else {
            "them"
        };
        page.text("<li>")
            .count(u64::from(advice.empty_nodes), "node holds", "nodes hold")
            .text(" no chunk. A line <code>purge</code> at the end of the trace gives ")
            .text(them)
            .text(" back.</li>");
    }
    if advice.old_loaders {
        page.text(
            "<li>Loaders pile up. In the table of all loaders those whose line is old, and whose like were unloaded, are the ones that something still holds.</li>",
        );
    }
    if advice.replies {
        page.text(
            "<li>Some lines were refused for what they ask, not for want of room. The replies tell which, <code>--report full</code> counts them.</li>",
        );
    }
    page.text("<li>For the same numbers as data: <code>--format json</code>.</li>");
}

/// Appends what to do about the commit limit.
fn push_commit_advice(page: &mut Writer, advice: CommitAdvice) {
    match advice {
        CommitAdvice::Raise { granules } => page
            .text(
                "<li>Lines were refused at the commit limit. Run again with <code>--max-granules ",
            )
            .digits(granules)
            .text("</code>, and see how far the peak goes.</li>"),
        CommitAdvice::Greatest => page.text(
            "<li>Lines were refused at the greatest commit limit there is. See who holds what, above.</li>",
        ),
        CommitAdvice::Lower { granules } => page
            .text("<li>The commit limit was never met. Every limit from <code>--max-granules ")
            .digits(granules)
            .text("</code> on gives the same replies.</li>"),
        CommitAdvice::Try { granules } => page
            .text(
                "<li>The peak came so near to the commit limit that a chunk may have been refused its growth, which no line tells. Run again with <code>--max-granules ",
            )
            .digits(granules)
            .text("</code>: if the peak stays, it was not.</li>"),
    };
}

/// Appends what to do about the limits of nodes.
fn push_node_advice(page: &mut Writer, advice: &Advice) {
    if let Some(nodes) = advice.class_nodes {
        page.text("<li>Lines were refused in the class space. Run again with <code>--class-nodes ")
            .digits(u64::from(nodes))
            .text("</code>.</li>");
    }
    if let Some(nodes) = advice.nodes {
        page.text(
            "<li>Lines were refused as no more nodes may be reserved. Run again with <code>--nodes ",
        ).digits(u64::from(nodes))
            .text("</code>.</li>");
    }
}

/// Appends which policy to compare with.
fn push_policy_advice(page: &mut Writer, advice: PolicyAdvice) {
    match advice {
        PolicyAdvice::Balanced => {
            page.text(
                "<li>Under this policy whole chunks are committed, and stay so until their node is purged. Compare with <code>--policy balanced</code>.</li>",
            );
        }
        PolicyAdvice::Aggressive { idle } => {
            page.text("<li>").size(idle).text(
                " are committed and not in use. Compare with <code>--policy aggressive</code>, whose granules are of 16 KB.</li>",
            );
        }
        PolicyAdvice::Nothing => {}
    }
}

/// Appends the command that writes this page.
fn push_command(page: &mut Writer, settings: &Settings) {
    page.text(r#"<p class="command"><code>metarun --format html --workers "#)
        .digits(u64::from(settings.workers))
        .text(" --max-granules ")
        .digits(settings.max_granules)
        .text(" --nodes ")
        .digits(u64::from(settings.nodes))
        .text(" --policy ")
        .text(policy_word(settings.policy))
        .text(" --class-nodes ")
        .digits(u64::from(settings.class_nodes))
        .text("</code></p></section>\n");
}
