//! The facts that the tiles stand on, gathered from a run.
//!
//! Kept true: each number is the one that `specs/Facts.antt` gives for the settings, the course and
//! the totals of the end. Takes no memory.
ghost use Rattle.std.specs.Prelude.{◌≡◌, ◌<◌, ◌^◌};
ghost use Rattle.ms_report.specs.Usage.{limit_of};
ghost use Rattle.ms_page.specs.Facts.{asks_of, facts_of, fewest_in, lines_of, node_limit_of};
ghost use Rattle.ms_page.specs.Facts.{refused_of, unloads_of, wants_of};
ghost use Rattle.ms_page.specs.Peaks.{class_words};

use crate::cells::count_empty_nodes;
use crate::ends::roots_in;
use crate::peaks::peaks_of;
use crate::sums::add;
use crate::tiles::Facts;
use ms_answers::Totals;
use ms_base::{NODE_WORDS, Settings, granule};
use ms_course::{Column, Course, Reason, Stretch};

/// Lines that were refused for want of something, by what they want.
#[derive(Clone, Copy)]
struct Wants {
    /// Granules.
    commit: u64,
    /// A node outside the class space.
    reserve: u64,
    /// Room in the class space.
    class: u64,
    /// Memory or owner numbers.
    other: u64,
}

/// Gathers the facts of a run with these settings and this course, of which these are the totals at
/// the end. This project's choice.
pub fn facts_of(settings: &Settings, course: &Course, end: &Totals) -> Facts
    ensures { result ≡ facts_of settings.now course.now end.now }
{
    let columns = course.columns().columns();
    let peaks = peaks_of(columns);
    let wants = wants_of(course);
    let schedule = course.schedule();
    Facts {
        limit: limit_of(settings),
        committed: add(end.space.committed, end.class_space.committed),
        committed_peak: peaks.both.committed,
        used: add(end.space.used, end.class_space.used),
        nodes: end.space.nodes.saturating_add(end.class_space.nodes),
        node_limit: node_limit_of(settings),
        empty_nodes: count_empty_nodes(roots_in(&end.details)),
        class_nodes: settings.class_nodes,
        class_limit: class_words(settings),
        class_peak: peaks.class_space.committed,
        unloads: unloads_of(columns),
        two_halves: schedule.turn < schedule.half,
        low: fewest_in(&course.before_half()),
        low_after: fewest_in(&course.after_half()),
        commit_refused: wants.commit,
        reserve_refused: wants.reserve,
        class_refused: wants.class,
        other_wants: wants.other,
        refused: refused_of(course),
    }
}

/// Returns the words that may be committed.
fn limit_of(settings: &Settings) -> u64
    ensures { result ≡ limit_of settings.now }
{
    settings.max_granules * granule(settings.policy)
}

/// Returns how many nodes may be reserved, those of the class space among them.
fn node_limit_of(settings: &Settings) -> u32
    ensures { result ≡ node_limit_of settings.now }
{
    settings.nodes + settings.class_nodes
}

/// Returns the words of the class space.
pub(crate) fn class_words(settings: &Settings) -> u64
    ensures { result ≡ class_words settings.now }
{
    u64::from(settings.class_nodes) * NODE_WORDS
}

/// Returns the lines that unloaded a loader.
fn unloads_of(columns: &[Column]) -> u64
    ensures { result ≡ unloads_of columns.now }
{
    let mut unloads = 0;
    for column in columns {
        unloads = add(unloads, u64::from(column.unloads));
    }
    unloads
}

/// Returns the fewest loaders of a stretch, 0 where it has no line.
fn fewest_in(stretch: &Stretch) -> u64
    ensures { result ≡ fewest_in stretch.now }
{
    stretch.fewest.unwrap_or(0)
}

/// Returns the lines that were refused for want of something.
fn wants_of(course: &Course) -> Wants
    ensures { result ≡ wants_of course.now }
{
    Wants {
        commit: lines_of(course, Reason::CommitLimit),
        reserve: lines_of(course, Reason::ReserveLimit),
        class: lines_of(course, Reason::ClassReserveLimit),
        other: lines_of(course, Reason::IdsUsedUp) + lines_of(course, Reason::OutOfMemory),
    }
}

/// Returns the lines that were refused, for whatever reason.
fn refused_of(course: &Course) -> u64
    ensures { result ≡ refused_of course.now }
{
    let wants = lines_of(course, Reason::CommitLimit)
        + lines_of(course, Reason::ReserveLimit)
        + lines_of(course, Reason::ClassReserveLimit)
        + lines_of(course, Reason::IdsUsedUp)
        + lines_of(course, Reason::OutOfMemory);
    wants + asks_of(course)
}

/// Returns the lines that were refused for what they ask.
fn asks_of(course: &Course) -> u64
    ensures asks { result ≡ asks_of course.now }
    ensures small { result < 2 ^ 40 }
{
    lines_of(course, Reason::LoaderExists)
        + lines_of(course, Reason::NoLoader)
        + lines_of(course, Reason::BlockExists)
        + lines_of(course, Reason::NoBlock)
        + lines_of(course, Reason::ZeroWords)
        + lines_of(course, Reason::TooLarge)
        + lines_of(course, Reason::OutOfRange)
}

/// Returns the lines that were refused for a reason.
fn lines_of(course: &Course, reason: Reason) -> u64
    ensures lines { result ≡ lines_of course.now reason }
    ensures small { result < 2 ^ 32 }
{
    u64::from(course.refused(reason).lines)
}
