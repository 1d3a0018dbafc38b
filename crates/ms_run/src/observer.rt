//! Who sees, after each line, how the metaspace stands.
ghost use Rattle.std.specs.Prelude.{◌≡◌, ◌++◌, ◌∷◌, [], List, OnOk, ⊤};
ghost use Rattle.ms_base.specs.Good.{IsGood};
ghost use Rattle.ms_course.specs.Standing.{standing_of};
ghost use Rattle.ms_run.specs.Seeing.{Sight, sight_of};

use ms_base::Reply;
use ms_course::Standing;
use ms_loaders::System;
use ms_trace::Line;
use std::alloc::AllocError;

/// What sees each line of a replay once it is answered: a chart of the run, or what tells its
/// numbers. This project's choice.
pub trait Observer {
    /// These lines were seen between a first state and a second, in their order. An observer of
    /// which nothing is proved needs none of its own.
    ghost saw: { Self → Self → List Sight → Type 0 } = { λ _ _ _. ⊤ };

    /// Sees a line more, after those that it saw before: the line, its reply, how the metaspace
    /// stands after it, and the system itself, which is good. An error means that a growth was
    /// refused, and ends the replay. Takes memory where the observer does.
    fn see(
        &mut self,
        line: &Line,
        reply: &Reply,
        standing: &Standing,
        system: &System,
    ) -> Result<(), AllocError>
        requires good { IsGood system.now }
        requires standing { standing.now ≡ standing_of system.now }
        ensures { OnOk result ((first : Self) (before : List Sight) → saw first self.old before
            → saw first self.new (before ++ sight_of line.now reply.now system.now ∷ [])) };
}
