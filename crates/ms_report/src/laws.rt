//! Laws about the layout: what its definitions amount to, each the contract of a function that does
//! nothing.
ghost use Rattle.ms_report.specs.LayoutLaws.{NumbersLineUp, LevelsLineUp, LoadersLineUp};
ghost use Rattle.ms_report.specs.LayoutLaws.{ColumnsStandApart};
ghost use Rattle.ms_report.specs.LayoutLaws.{HoldingsLineUp, KindsLineUp};
ghost use Rattle.ms_report.specs.LayoutLaws.{RefusalsLineUp, SpacesLineUp};

/// Each line of a label and a number below 10 to the 12th has 26 bytes and a newline.
pub fn numbers_line_up()
    ensures { NumbersLineUp }
{}

/// After fewer than 10 to the 12th lines of a trace, each line of the refused ones has 26 bytes and
/// a newline.
pub fn refusals_line_up()
    ensures { RefusalsLineUp }
{}

/// However many lines a trace has, each line of the eleven numbers of a space has 26 bytes and a
/// newline.
pub fn spaces_line_up()
    ensures { SpacesLineUp }
{}

/// With at most 655360 chunks held and parts free, each line of a level is as long as the
/// headings: 31 bytes and a newline.
pub fn levels_line_up()
    ensures { LevelsLineUp }
{}

/// With at most 655360 chunks and 83886080 words, each line of a loader is as long as the
/// headings: 57 bytes and a newline.
pub fn loaders_line_up()
    ensures { LoadersLineUp }
{}

/// With at most 65536 loaders, 655360 chunks and 83886080 words, each line of a kind is as long as
/// the headings: 94 bytes and a newline.
pub fn kinds_line_up()
    ensures { KindsLineUp }
{}

/// With at most 655360 chunks and 83886080 words, each line of what a loader holds in a space is as
/// long as the headings: 101 bytes and a newline.
pub fn holdings_line_up()
    ensures { HoldingsLineUp }
{}

/// A number with fewer digits than its column is wide never runs together with what stands
/// before.
pub fn columns_stand_apart()
    ensures { ColumnsStandApart }
{}
