//! Laws of the definitions, as contracts of functions that do nothing: what the runs of uncommitted
//! granules are together.
ghost use Rattle.ms_c.specs.Laws.{RunsAreTheDifference, FlagsAreTheSetBefore};

/// Runs that are asked for one after another are apart, in rising order, and have exactly the
/// granules that were committed by their flags and are no more.
pub fn runs_are_the_difference()
    ensures { RunsAreTheDifference }
{}

/// With flags that were taken of a machine, the granules that went are those of it that a later
/// machine hasn't, among as many as there are flags.
pub fn flags_are_the_set_before()
    ensures { FlagsAreTheSetBefore }
{}
