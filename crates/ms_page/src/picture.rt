//! All that a page shows of a run, as one value.
//!
//!     settings, course, totals of the end ── Picture::new ──> facts, tiles, advice, peaks, usage,
//!                                                  stays, kinds, loaders, the largest, cells
//!
//! Kept true: each part is exactly what `specs/Picture.antt` gives for the run, so whoever draws it
//! adds no fact. Takes memory for the lists.
ghost use Rattle.std.specs.Prelude.{◌≡◌, IfOk};
ghost use Rattle.ms_answers.specs.Sums.{sums_in};
ghost use Rattle.ms_report.specs.Usage.{usages_of};
ghost use Rattle.ms_page.specs.Cells.{cell_counts};
ghost use Rattle.ms_page.specs.Ends.{loaders_in, roots_in};
ghost use Rattle.ms_page.specs.Facts.{facts_of};
ghost use Rattle.ms_page.specs.Kinds.{kind_holdings};
ghost use Rattle.ms_page.specs.Picture.{AreLists, IsJudged, IsListed, peaks_in};
ghost use Rattle.ms_page.specs.Stays.{stays_of};

use crate::advice::{Advice, advise};
use crate::cells::{CellCounts, count_cells};
use crate::ends::{loaders_in, roots_in};
use crate::facts::{class_words, facts_of};
use crate::holding::Holding;
use crate::holdings::holdings;
use crate::kinds::{KindHolding, kind_holdings};
use crate::largest::largest;
use crate::peaks::{peaks_of, with_reserved};
use crate::stays::stays;
use crate::tiles::{Facts, Tiles};
use ms_answers::{LoaderDetails, Totals};
use ms_base::Settings;
use ms_course::{Course, Standing};
use ms_report::{Usages, weigh};
use std::alloc::{AllocError, Global};

/// All that a page shows of a run. This project's choice.
#[derive(Drop)]
pub struct Picture {
    /// What the tiles stand on.
    pub facts: Facts,
    /// What the tiles say.
    pub tiles: Tiles,
    /// What to try next.
    pub advice: Advice,
    /// The most over the columns, amount by amount; reserved at least what the class space's nodes
    /// have.
    pub peaks: Standing,
    /// How much of the memory is what at the end.
    pub usage: Usages,
    /// For each column the loaders of the end whose birth lies in it or in an earlier one.
    pub stays: Vec<u64>,
    /// What the loaders of each kind hold: boot, standard, hidden, reflection.
    pub kinds: [KindHolding; 4],
    /// What each loader holds, in rising order of name.
    pub loaders: Vec<Holding>,
    /// The 20 largest of them, or all if there are fewer: more capacity first, of equal ones the
    /// lower name.
    pub largest: Vec<Holding>,
    /// How many cells of the map there are of each state.
    pub cells: CellCounts,
}

/// The lists of a picture.
#[derive(Drop)]
struct Lists {
    loaders: Vec<Holding>,
    largest: Vec<Holding>,
    stays: Vec<u64>,
}

impl Picture {
    /// Makes the picture of a run with these settings and this course, of which these are the
    /// totals at the end. Without details in the totals there are no loaders and no cells. Takes
    /// memory for the lists; an error means that it was refused.
    pub fn new(
        alloc: Global,
        settings: &Settings,
        course: &Course,
        end: &Totals,
    ) -> Result<Picture, AllocError>
        ensures facts { IfOk result (λ picture. picture.facts
            ≡ facts_of settings.now course.now end.now) }
        ensures judged { IfOk result (λ picture. IsJudged settings.now picture) }
        ensures peaks { IfOk result (λ picture. picture.peaks ≡ peaks_in settings.now course.now) }
        ensures usage { IfOk result (λ picture. picture.usage
            ≡ usages_of settings.now (sums_in end.now)) }
        ensures stays { IfOk result (λ picture. picture.stays.items
            ≡ stays_of course.now.columns picture.loaders.items) }
        ensures kinds { IfOk result (λ picture. picture.kinds
            ≡ kind_holdings course.now.halfway (loaders_in end.now.details)) }
        ensures loaders { IfOk result (λ picture. IsListed course.now
            (loaders_in end.now.details) picture) }
        ensures cells { IfOk result (λ picture. picture.cells
            ≡ cell_counts (roots_in end.now.details)) }
    {
        let details = loaders_in(&end.details);
        let lists = make_lists(alloc, course, details)?;
        let facts = facts_of(settings, course, end);
        let tiles = facts.tiles();
        let advice = advise(&facts, settings);
        let kinds = kind_holdings(course.halfway(), details);
        let cells = count_cells(roots_in(&end.details));
        let usage = weigh(end, settings);
        let peaks = with_reserved(class_words(settings), peaks_of(course.columns().columns()));
        let Lists {
            loaders,
            largest,
            stays,
        } = lists;
        Ok(Picture {
            facts,
            tiles,
            advice,
            peaks,
            usage,
            stays,
            kinds,
            loaders,
            largest,
            cells,
        })
    }
}

/// Makes the lists.
fn make_lists(
    alloc: Global,
    course: &Course,
    details: &[LoaderDetails],
) -> Result<Lists, AllocError>
    ensures { IfOk result (λ lists. AreLists course.now details.now lists) }
{
    let loaders = holdings(alloc, course, details)?;
    let largest = largest(alloc, loaders.as_slice())?;
    let stays = stays(alloc, course.columns(), loaders.as_slice())?;
    Ok(Lists {
        loaders,
        largest,
        stays,
    })
}
