//! Laws about the page's values: what its definitions amount to, each the contract of a function
//! that does nothing.
ghost use Rattle.ms_page.specs.Laws.{SomethingIsDrawn, BarsStayInTheirTrack, MoreIsNoShorter};
ghost use Rattle.ms_page.specs.Laws.{AreasNest, StepsAreFew, ProblemsAreRefusals};
ghost use Rattle.ms_page.specs.Laws.{CellsAddUp, EscapedTextHasNoMarkup, LargestComeFirst};
ghost use Rattle.ms_page.specs.Laws.{LoadersAreListed, PeaksAreReached};

/// Something is never drawn as nothing.
pub fn something_is_drawn()
    ensures { SomethingIsDrawn }
{}

/// No bar is longer than its track.
pub fn bars_stay_in_their_track()
    ensures { BarsStayInTheirTrack }
{}

/// What is more is drawn no shorter.
pub fn more_is_no_shorter()
    ensures { MoreIsNoShorter }
{}

/// The area of live words lies in that of used ones, this in that of committed ones, and this in
/// that of reserved ones.
pub fn areas_nest()
    ensures { AreasNest }
{}

/// An axis has five steps at most.
pub fn steps_are_few()
    ensures { StepsAreFew }
{}

/// A tile says that there is a problem exactly where a line was refused for want of what it shows.
pub fn problems_are_refusals()
    ensures { ProblemsAreRefusals }
{}

/// The peak of an amount over columns is what one of them has, and none has more.
pub fn peaks_are_reached()
    ensures { PeaksAreReached }
{}

/// The list of loaders has each loader of the end once, in their order.
pub fn loaders_are_listed()
    ensures { LoadersAreListed }
{}

/// The order of the largest loaders is one of all loaders, and of two neighbours the second doesn't
/// come before the first: so what is left out of the first twenty comes after them.
pub fn largest_come_first()
    ensures { LargestComeFirst }
{}

/// The numbers of cells add up to 64 for each root.
pub fn cells_add_up()
    ensures { CellsAddUp }
{}

/// Whatever a text of the input is, what is written of it has no `<`, no `>` and no `"`.
pub fn escaped_text_has_no_markup()
    ensures { EscapedTextHasNoMarkup }
{}
