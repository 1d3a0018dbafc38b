//! What a page is written of.
use ms_answers::Totals;
use ms_base::Settings;
use ms_course::{Column, Course};
use ms_page::{Facts, Holding, Picture};
use std::alloc::Global;
use std::collections::BTreeMap;

/// What a page is written of.
#[derive(Clone, Copy)]
pub(crate) struct Replay<'a> {
    /// Where a name's bytes are made.
    pub alloc: Global,
    pub settings: &'a Settings,
    pub course: &'a Course,
    pub end: &'a Totals,
    /// The values that the page shows.
    pub picture: &'a Picture,
    /// Of these values the facts that the sentences have.
    pub facts: &'a Facts,
    /// The columns of the course.
    pub columns: &'a [Column],
    /// All loaders of the end, and the largest of them.
    pub loaders: &'a [Holding],
    pub largest: &'a [Holding],
    /// Texts of the input for loaders, by the loaders' names, and whether there is any.
    pub names: &'a BTreeMap<u16, String>,
    pub is_named: bool,
    /// Whether the run has a class space.
    pub has_class_space: bool,
    /// How many command lines the run has, and the number of the one half-way.
    pub lines: u64,
    pub half_line: u64,
}

impl<'a> Replay<'a> {
    /// Makes that of a run: its settings, its course, the totals of its end, and what shows them.
    pub(crate) fn new(
        alloc: Global,
        settings: &'a Settings,
        course: &'a Course,
        end: &'a Totals,
        picture: &'a Picture,
        names: &'a BTreeMap<u16, String>,
    ) -> Replay<'a> {
        Replay {
            alloc,
            settings,
            course,
            end,
            picture,
            facts: &picture.facts,
            columns: course.columns().columns(),
            loaders: picture.loaders.as_slice(),
            largest: picture.largest.as_slice(),
            names,
            is_named: !names.is_empty(),
            has_class_space: settings.class_nodes > 0,
            lines: u64::from(course.schedule().lines),
            half_line: u64::from(course.after_half().first_line),
        }
    }
}
