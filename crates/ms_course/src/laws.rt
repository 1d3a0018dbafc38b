//! Laws about the course: what its definitions amount to, each the contract of a function that does
//! nothing.
ghost use Rattle.ms_course.specs.Laws.{LinesFallIntoColumns, LinesFallInOrder, FewLinesStandAlone};
ghost use Rattle.ms_course.specs.Laws.{MostIsReached, NoPeakIsLost, GoodMachinesNest, ColumnsNest};

/// Each line falls into a column that there is.
pub fn lines_fall_into_columns()
    ensures { LinesFallIntoColumns }
{}

/// Of two lines the later one falls into no earlier column.
pub fn lines_fall_in_order()
    ensures { LinesFallInOrder }
{}

/// With at most 512 lines each has a column of its own.
pub fn few_lines_stand_alone()
    ensures { FewLinesStandAlone }
{}

/// The most that moments have of an amount is what one of them has, and none has more.
pub fn most_is_reached()
    ensures { MostIsReached }
{}

/// No peak is lost: of each amount some column has the most of all moments, and none has more.
pub fn no_peak_is_lost()
    ensures { NoPeakIsLost }
{}

/// In a good state live words are in use, used words are committed, and committed ones reserved, in
/// both spaces and in the class space.
pub fn good_machines_nest()
    ensures { GoodMachinesNest }
{}

/// In each column the most of live words is at most that of used ones, this at most that of
/// committed ones, and this at most that of reserved ones, where they are so at each moment. So
/// areas that are drawn over one another nest.
pub fn columns_nest()
    ensures { ColumnsNest }
{}
