//! The totals of a system: what a report shows of it.
ghost use Rattle.std.specs.Prelude.{◌≡◌, IfOk};
ghost use Rattle.ms_base.specs.Totals.{sums_of};
ghost use Rattle.ms_answers.specs.Sums.{sums_in};

use ms_answers::Totals;
use ms_loaders::System;
use std::alloc::AllocError;

/// Gathers the totals of a system, each a sum over the machine that it stands for, with a row for
/// each loader in rising order of name. Takes memory for the rows; an error means that a growth
/// was refused. After HotSpot's VM.metaspace, with this project's numbers.
pub fn totals(system: &System) -> Result<Totals, AllocError>
    ensures { IfOk result (λ totals. sums_in totals ≡ sums_of system.now) }
{
    system.totals()
}
