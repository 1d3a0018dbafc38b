//! Laws about the grammar: its two halves, reading and faults, fit. Each is the contract of a
//! function that does nothing.
ghost use Rattle.ms_trace.specs.Laws.{NeverBoth, OneOfTheTwo, OneTrace, OneFault, NumbersRise, PrintedReads};

/// A text that reads as a trace has no fault.
pub fn never_both()
    ensures { NeverBoth }
{}

/// Each text reads as a trace or has a fault.
pub fn one_of_the_two()
    ensures { OneOfTheTwo }
{}

/// A text reads as one trace only.
pub fn one_trace()
    ensures { OneTrace }
{}

/// A text has one fault only: one line and one kind.
pub fn one_fault()
    ensures { OneFault }
{}

/// The numbers of the lines that a text reads as rise, from 1 to the limit at most.
pub fn numbers_rise()
    ensures { NumbersRise }
{}

/// What a trace of valid commands with rising line numbers is printed as reads as that trace.
pub fn printed_reads()
    ensures { PrintedReads }
{}
