//! Why a replay ends without an answer to each line.
use std::alloc::AllocError;

/// Why a replay ends without an answer to each line. This project's choice.
#[derive(Debug, Drop)]
pub enum RunFault {
    /// A growth of the run itself was refused.
    OutOfMemory,
    /// A thread could not be started.
    NoThread,
    /// At a phase's end more accounts were open than the loaders have, both counted. It never
    /// comes.
    Unsettled { opened: u64, gathered: u64 },
}

impl From<AllocError> for RunFault {
    ghost use Rattle.std.specs.Prelude.{◌≡◌};
    ghost use Rattle.ms_run.specs.declared.fault.RunFault.TheVariants.{OutOfMemory};

    ghost from_gives = { λ _ fault. fault ≡ OutOfMemory };

    fn from(_error: AllocError) -> RunFault {
        RunFault::OutOfMemory
    }
}
