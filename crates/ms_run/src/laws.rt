//! Laws about replays: what their definitions amount to, each the contract of a function that does
//! nothing.
ghost use Rattle.ms_run.specs.Observing.{LastSightIsTheMachine};

/// An observer sees each line once, and the last state that it sees is the machine's at the end, of
/// which the totals are.
pub fn last_sight_is_the_machine()
    ensures { LastSightIsTheMachine }
{}
